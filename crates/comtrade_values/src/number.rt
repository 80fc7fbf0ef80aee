ghost use Rattle.std.specs.Prelude.{◌≡◌, ◌≤◌, ◌<◌, ◌^◌, length, min, IfSome, if◌then◌else◌, Some, None};
ghost use Rattle.std.specs.Str.{all_ascii_digits};
ghost use Rattle.std.specs.Str.Parse.{digits_value, digits_value_after, starts_with_minus, without_leading_sign};
ghost use Rattle.comtrade_values.specs.Spelling.{whole_number};

/// The smallest number that is too large, 10^36.
pub(crate) const LIMIT: u128 = 1_000_000_000_000_000_000_000_000_000_000_000_000;

/// The number that the digits spell after those of `start`, capped at the limit. None if a byte is
/// not a digit.
pub(crate) fn capped_number(start: u128, digits: &[u8]) -> Option<u128>
    requires { start ≤ 10 ^ 36 }
    ensures { result ≡ (if all_ascii_digits digits.now then Some (min (digits_value_after 10 start digits.now) (10 ^ 36)) else None) }
{
    let mut number = start;
    for digit in digits {
        if !digit.is_ascii_digit() {
            return None;
        }
        number = (number * 10 + (*digit - b'0') as u128).min(LIMIT);
    }
    Some(number)
}

/// The number that at most 19 digits spell, which fits 64 bits. None if a byte is not a digit.
pub fn short_number(digits: &[u8]) -> Option<u64>
    requires { length digits.now ≤ 19 }
    ensures value { result ≡ (if all_ascii_digits digits.now then Some (digits_value 10 digits.now) else None) }
    ensures less { IfSome result (λ n. n < 10 ^ length digits.now) }
    ensures short { IfSome result (λ n. n < 10 ^ 19) }
{
    let mut number: u64 = 0;
    for digit in digits {
        if !digit.is_ascii_digit() {
            return None;
        }
        number = number * 10 + (*digit - b'0') as u64;
    }
    Some(number)
}

/// Whether the text begins with a minus sign, and the text after its sign, if it has one.
pub(crate) fn without_sign(text: &[u8]) -> (bool, &[u8])
    ensures minus { result.0 ≡ starts_with_minus text.now }
    ensures rest { result.1.now ≡ without_leading_sign text.now }
{
    match text {
        [b'-', rest @ ..] => (true, rest),
        [b'+', rest @ ..] => (false, rest),
        _ => (false, text),
    }
}

/// Reads a whole number: an optional sign and digits, strictly between -10^36 and 10^36. None
/// otherwise. Blanks aren't trimmed.
pub fn integer_of(text: &[u8]) -> Option<i128>
    ensures { result ≡ whole_number text.now }
{
    let (minus, digits) = without_sign(text);
    if digits.is_empty() {
        return None;
    }
    if digits.len() <= 19 {
        let number = short_number(digits)? as i128;
        return Some(if minus { -number } else { number });
    }
    let number = capped_number(0, digits)?;
    if number == LIMIT {
        return None;
    }
    let number = number as i128;
    Some(if minus { -number } else { number })
}
