//! Reads decimals in text.

ghost use Rattle.std.specs.Prelude.{◌<◌};

use crate::num::Num;
use comtrade_values::numeral_of;

/// A number, and how it was written.
#[derive(Clone, Copy)]
pub(crate) struct Spelled {
    pub num: Num,
    /// It has a point or an exponent.
    pub is_pointed: bool,
    /// Its exponent is marked by D.
    pub is_fortran: bool,
    /// It has a comma for the point.
    pub has_comma: bool,
}

/// The digits of a decimal, read from the left; at most eighteen are significant.
#[derive(Clone, Copy)]
struct Digits {
    mant: u64,
    ten: i32,
    is_after: bool,
    has_any: bool,
    ghost short: { mant < 1000000000000000000 },
}

const ROOM: u64 = 100_000_000_000_000_000;

impl Digits {
    /// One more digit; None after more than 2^31 digits.
    fn with(self, digit: u8) -> Option<Digits>
        requires { digit < 10 }
    {
        if self.mant < ROOM {
            let places = if self.is_after { 1 } else { 0 };
            return Some(Digits {
                mant: self.mant * 10 + u64::from(digit),
                ten: self.ten.checked_sub(places)?,
                is_after: self.is_after,
                has_any: true,
            });
        }
        let zeros = if self.is_after { 0 } else { 1 };
        Some(Digits {
            mant: self.mant,
            ten: self.ten.checked_add(zeros)?,
            is_after: self.is_after,
            has_any: true,
        })
    }

    /// The same digits; those that follow are after the point.
    fn after_point(self) -> Digits {
        Digits {
            mant: self.mant,
            ten: self.ten,
            is_after: true,
            has_any: self.has_any,
        }
    }

    /// The number with these digits and this exponent; None beyond 10^1,000,000,000.
    fn num(self, is_minus: bool, exponent: i32) -> Option<Num> {
        let mant = self.mant as i64;
        if mant == 0 {
            return Some(Num::of(0));
        }
        let ten = self.ten.checked_add(exponent)?;
        if ten < -1_000_000_000 || 1_000_000_000 < ten {
            return None;
        }
        Some(Num {
            mant: if is_minus { -mant } else { mant },
            ten,
            two: 0,
        })
    }
}

/// Whether a text begins with a minus, and the rest after its sign.
fn without_sign(text: &[u8]) -> (bool, &[u8]) {
    match text {
        [b'-', rest @ ..] => (true, rest),
        [b'+', rest @ ..] => (false, rest),
        _ => (false, text),
    }
}

/// The exponent in a text, of magnitude at most 9,999.
fn exponent_of(text: &[u8]) -> Option<i32> {
    let (is_minus, digits) = without_sign(text);
    let size = numeral_of(digits)?.min(9_999) as i32;
    Some(if is_minus { -size } else { size })
}

/// The number in a text; with `lets_comma`, a comma may replace the point.
pub(crate) fn spelled_of(text: &[u8], lets_comma: bool) -> Option<Spelled> {
    let (is_minus, body) = without_sign(text);
    let mut digits = Digits {
        mant: 0,
        ten: 0,
        is_after: false,
        has_any: false,
    };
    let mut has_comma = false;
    let mut exponent = 0i32;
    let mut is_pointed = false;
    let mut is_fortran = false;
    for (i, b) in body.iter().enumerate() {
        match *b {
            b'0'..=b'9' => digits = digits.with(*b - b'0')?,
            b'.' if !digits.is_after => digits = digits.after_point(),
            b',' if !digits.is_after && lets_comma => {
                digits = digits.after_point();
                has_comma = true;
            }
            b'e' | b'E' | b'd' | b'D' => {
                is_fortran = *b == b'd' || *b == b'D';
                is_pointed = true;
                exponent = exponent_of(&body[i + 1..])?;
                break;
            }
            _ => return None,
        }
    }
    if !digits.has_any {
        return None;
    }
    Some(Spelled {
        num: digits.num(is_minus, exponent)?,
        is_pointed: is_pointed || digits.is_after,
        is_fortran,
        has_comma,
    })
}
