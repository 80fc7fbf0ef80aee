//! Numbers of four or five digits, as most samples are, in plain spelling.

ghost use Rattle.std.specs.Prelude.{◌≡◌, Some, ◌≤◌, ◌<◌, ◌<ℤ◌, ◌^◌, ◌-◌, IfSome, option_copied, true, false, length, take, if◌then◌else◌, pos, negsuc, neg_ℤ, nat_lt, ◌&&◌, get_or, is_some};
ghost use Rattle.std.specs.Char.{is_ascii_digit};
ghost use Rattle.std.specs.Str.{all_ascii_digits};
ghost use Rattle.std.specs.Str.Parse.{digits_value};
ghost use Rattle.comtrade_values.specs.PlainNumbers.{DigitsFirst, Begins, begins_four_or_five, begins_sample};

use crate::plain_numbers::without_minus;
use std::simd::prelude::*;

/// The number of the four digits at the start of a text; None if one of these bytes is not a digit.
/// The four are checked together.
#[inline(always)]
fn four_digits(text: &[u8]) -> Option<u64>
    requires { 4 ≤ length text.now }
    ensures digits { is_some result ≡ all_ascii_digits (take 4 text.now) }
    ensures value { IfSome result (λ n. n ≡ digits_value 10 (take 4 text.now)) }
    ensures small { IfSome result (λ n. n < 10 ^ 4) }
{
    let digits = u8x4::from_slice(text) - u8x4::splat(b'0');
    if digits.simd_gt(u8x4::splat(9)).to_bitmask() != 0 {
        return None;
    }
    let three = digits.dot4(u8x4::from_array([100, 10, 1, 0])).to_array()[0] as u64;
    Some(three * 10 + (text[3] - b'0') as u64)
}

/// Adds the fifth digit to the number of the first four, if there is one: how many digits there
/// are, and their number. Written without a branch, since the count can't be predicted.
#[inline(always)]
fn with_fifth(text: &[u8], four: u64) -> (usize, u64)
    requires long { 5 ≤ length text.now }
    requires digits { all_ascii_digits (take 4 text.now) ≡ true }
    requires value { four ≡ digits_value 10 (take 4 text.now) }
    requires small { four < 10 ^ 4 }
    ensures some { 4 ≤ result.0 }
    ensures few { result.0 ≤ 5 }
    ensures digits { all_ascii_digits (take result.0 text.now) ≡ true }
    ensures value { result.1 ≡ digits_value 10 (take result.0 text.now) }
    ensures small { result.1 < 10 ^ 5 }
    ensures all { (nat_lt result.0 5 && is_ascii_digit (get_or text.now result.0 0)) ≡ false }
{
    let fifth = text[4];
    let longer = four * 10 + fifth as u64;
    if fifth.is_ascii_digit() {
        (5, longer - 48)
    } else {
        (4, four)
    }
}

/// The number of a text of four or five bytes that starts with these four digits, and the text
/// after its comma, if it has one. None if the fifth byte is neither a digit nor a comma.
#[inline(always)]
fn at_end(text: &[u8], four: u64) -> Option<(u64, Option<&[u8]>)>
    requires long { 4 ≤ length text.now }
    requires few { length text.now ≤ 5 }
    requires digits { all_ascii_digits (take 4 text.now) ≡ true }
    requires value { four ≡ digits_value 10 (take 4 text.now) }
    requires small { four < 10 ^ 4 }
    ensures sample { is_some result ≡ begins_four_or_five text.now }
    ensures first { IfSome result (λ r. DigitsFirst text.now r.0 (option_copied r.1)) }
    ensures small { IfSome result (λ r. r.0 < 10 ^ 5) }
    ensures shorter { IfSome result (λ r. IfSome r.1 (λ behind. length behind.now < length text.now)) }
{
    if text.len() == 4 {
        return Some((four, None));
    }
    let fifth = text[4];
    if fifth == b',' {
        return Some((four, Some(&text[5..])));
    }
    if !fifth.is_ascii_digit() {
        return None;
    }
    Some((four * 10 + (fifth - b'0') as u64, None))
}

/// The text after the comma that follows these digits.
#[inline(always)]
fn behind_comma(text: &[u8], count: usize, number: u64) -> &[u8]
    requires some { 0 < count }
    requires within { count < length text.now }
    requires comma { get_or text.now count 0 ≡ 44 }
    requires digits { all_ascii_digits (take count text.now) ≡ true }
    requires value { number ≡ digits_value 10 (take count text.now) }
    ensures first { DigitsFirst text.now number (Some result.now) }
    ensures shorter { length result.now < length text.now }
{
    &text[count + 1..]
}

/// The number of the four or five digits at the start of a text, and the text after its comma, if
/// it has one. None exactly if the first field is spelled otherwise.
#[inline(always)]
fn four_or_five_digits(text: &[u8]) -> Option<(u64, Option<&[u8]>)>
    ensures sample { is_some result ≡ begins_four_or_five text.now }
    ensures first { IfSome result (λ r. DigitsFirst text.now r.0 (option_copied r.1)) }
    ensures small { IfSome result (λ r. r.0 < 10 ^ 5) }
    ensures shorter { IfSome result (λ r. IfSome r.1 (λ behind. length behind.now < length text.now)) }
{
    if text.len() < 4 {
        return None;
    }
    let Some(four) = four_digits(text) else {
        return None;
    };
    if text.len() < 6 {
        return at_end(text, four);
    }
    let (count, number) = with_fifth(text, four);
    if text[count] != b',' {
        return None;
    }
    Some((number, Some(behind_comma(text, count, number))))
}

/// The number with its sign.
#[inline(always)]
fn signed(minus: bool, number: u64) -> i32
    requires { number < 10 ^ 5 }
    ensures value { result ≡ (if minus then neg_ℤ (pos number) else pos number) }
    ensures above { negsuc (10 ^ 5 - 1) <ℤ result }
    ensures below { result <ℤ pos (10 ^ 5) }
{
    let number = number as i32;
    if minus { -number } else { number }
}

/// The number in the first field of a text, and the text after that field's comma, if it has one.
/// The field must be four or five digits, with or without a minus sign; None exactly if it is
/// spelled otherwise. On such fields, as most samples are, it gives the same as `plain_number`, but
/// faster.
#[inline(always)]
pub fn sample_number(text: &[u8]) -> Option<(i32, Option<&[u8]>)>
    ensures sample { is_some result ≡ begins_sample text.now }
    ensures first { IfSome result (λ r. Begins text.now r.0 (option_copied r.1)) }
    ensures above { IfSome result (λ r. negsuc (10 ^ 5 - 1) <ℤ r.0) }
    ensures below { IfSome result (λ r. r.0 <ℤ pos (10 ^ 5)) }
    ensures shorter { IfSome result (λ r. IfSome r.1 (λ behind. length behind.now < length text.now)) }
{
    let (minus, digits) = without_minus(text);
    let (number, behind) = four_or_five_digits(digits)?;
    Some((signed(minus, number), behind))
}
