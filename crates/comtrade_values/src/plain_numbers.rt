//! Numbers in plain spelling (digits, with or without a minus sign), read in one pass.

ghost use Rattle.std.specs.Prelude.{◌≡◌, ◌-◌, ◌≤◌, ◌<◌, ◌<ℤ◌, ◌^◌, ◌∷◌, IfSome, option_copied, true, length, min, take, if◌then◌else◌, pos, negsuc, neg_ℤ, nat_lt, ◌&&◌, get_or, false, is_some};
ghost use Rattle.std.specs.Char.{is_ascii_digit};
ghost use Rattle.std.specs.Str.{all_ascii_digits};
ghost use Rattle.std.specs.Str.Parse.{digits_value};
ghost use Rattle.comtrade_values.specs.PlainNumbers.{DigitsFirst, Begins, behind_minus, begins_short, begins_plain};

/// Whether the text begins with a minus sign, and the text after it.
#[inline(always)]
pub(crate) fn without_minus(text: &[u8]) -> (bool, &[u8])
    ensures cut { text.now ≡ (if result.0 then 45 ∷ result.1.now else result.1.now) }
    ensures behind { result.1.now ≡ behind_minus text.now }
{
    match text {
        [b'-', rest @ ..] => (true, rest),
        _ => (false, text),
    }
}

/// The digits at the start of a text, at most `most`: how many there are, and their number.
#[inline(always)]
fn digits_from(text: &[u8], most: usize) -> (usize, u64)
    requires room { most ≤ length text.now }
    requires ten { most ≤ 10 }
    ensures few { result.0 ≤ most }
    ensures digits { all_ascii_digits (take result.0 text.now) ≡ true }
    ensures value { result.1 ≡ digits_value 10 (take result.0 text.now) }
    ensures small { result.1 < 10 ^ result.0 }
    ensures all { (nat_lt result.0 most && is_ascii_digit (get_or text.now result.0 0)) ≡ false }
{
    let mut count = 0;
    let mut number = 0;
    while count < most {
        let digit = text[count];
        if !digit.is_ascii_digit() {
            return (count, number);
        }
        number = number * 10 + (digit - b'0') as u64;
        count += 1;
    }
    (count, number)
}

/// The number of a text that starts with these `count` digits, and the text after its comma, if it
/// has one. None if there is no digit, or if another byte than a comma follows.
#[inline(always)]
fn behind_digits(text: &[u8], count: usize, number: u64) -> Option<(u64, Option<&[u8]>)>
    requires within { count ≤ length text.now }
    requires few { count ≤ 10 }
    requires digits { all_ascii_digits (take count text.now) ≡ true }
    requires value { number ≡ digits_value 10 (take count text.now) }
    requires small { number < 10 ^ 10 }
    requires all { (nat_lt count 10 && is_ascii_digit (get_or text.now count 0)) ≡ false }
    ensures plain { is_some result ≡ begins_short text.now }
    ensures first { IfSome result (λ r. DigitsFirst text.now r.0 (option_copied r.1)) }
    ensures small { IfSome result (λ r. r.0 < 10 ^ 10) }
    ensures shorter { IfSome result (λ r. IfSome r.1 (λ behind. length behind.now < length text.now)) }
{
    if count == 0 {
        return None;
    }
    let Some(next) = text.get(count) else {
        return Some((number, None));
    };
    if *next != b',' {
        return None;
    }
    Some((number, Some(&text[count + 1..])))
}

/// The number of the one to ten digits at the start of a text, and the text after its comma, if it
/// has one. None exactly if the first field is spelled otherwise.
#[inline(always)]
fn plain_digits(text: &[u8]) -> Option<(u64, Option<&[u8]>)>
    ensures plain { is_some result ≡ begins_short text.now }
    ensures first { IfSome result (λ r. DigitsFirst text.now r.0 (option_copied r.1)) }
    ensures small { IfSome result (λ r. r.0 < 10 ^ 10) }
    ensures shorter { IfSome result (λ r. IfSome r.1 (λ behind. length behind.now < length text.now)) }
{
    let (count, number) = digits_from(text, text.len().min(10));
    behind_digits(text, count, number)
}

/// The number with its sign.
#[inline(always)]
fn signed(minus: bool, number: u64) -> i64
    requires { number < 10 ^ 10 }
    ensures value { result ≡ (if minus then neg_ℤ (pos number) else pos number) }
    ensures above { negsuc (10 ^ 10 - 1) <ℤ result }
    ensures below { result <ℤ pos (10 ^ 10) }
{
    let number = number as i64;
    if minus { -number } else { number }
}

/// The number in the first field of a text, and the text after that field's comma, if it has one.
/// The field must be one to ten digits, with or without a minus sign; None exactly if it is spelled
/// otherwise.
#[inline(always)]
pub fn plain_number(text: &[u8]) -> Option<(i64, Option<&[u8]>)>
    ensures plain { is_some result ≡ begins_plain text.now }
    ensures first { IfSome result (λ r. Begins text.now r.0 (option_copied r.1)) }
    ensures above { IfSome result (λ r. negsuc (10 ^ 10 - 1) <ℤ r.0) }
    ensures below { IfSome result (λ r. r.0 <ℤ pos (10 ^ 10)) }
    ensures shorter { IfSome result (λ r. IfSome r.1 (λ behind. length behind.now < length text.now)) }
{
    let (minus, digits) = without_minus(text);
    match plain_digits(digits) {
        Some((number, behind)) => Some((signed(minus, number), behind)),
        None => None,
    }
}
