//! Time codes of 2013: by how much the times of a file are ahead of UTC.

ghost use Rattle.std.specs.Prelude.{◌≡◌, ◌+ℤ◌, ◌-ℤ◌, ◌*ℤ◌, pos, IfSome};

use crate::text::around_any;
use comtrade_values::{numeral_of, put, put_number};
use std::alloc::{AllocError, Allocator};

/// A time code: by how many minutes the times of a file are ahead of UTC.
#[derive(Clone, Copy, Debug, PartialEq, Eq)]
pub struct Zone {
    minutes: i64,
}

/// A number of one or two digits below a limit.
fn below(text: &[u8], limit: u32) -> Option<i64> {
    if 2 < text.len() {
        return None;
    }
    let number = u32::try_from(numeral_of(text)?).ok()?;
    if number < limit {
        Some(i64::from(number))
    } else {
        None
    }
}

/// The time code in a text such as `-4`, `+5h30` or `0`; None for another text, such as `x`.
pub(crate) fn zone_of(text: &[u8]) -> Option<Zone> {
    let (is_minus, size) = match text {
        [b'-', rest @ ..] => (true, rest),
        [b'+', rest @ ..] => (false, rest),
        _ => (false, text),
    };
    let (hours, rest) = match around_any(size, b"hH:") {
        Some((hours, rest)) => (below(hours, 15)?, below(rest, 60)?),
        None => (below(size, 15)?, 0),
    };
    let minutes = hours.checked_mul(60)?.checked_add(rest)?;
    let minutes = if is_minus {
        minutes.checked_neg()?
    } else {
        minutes
    };
    Some(Zone { minutes })
}

impl Zone {
    /// The same moment as this instant of this time code, in microseconds of another time code;
    /// None if 64 bits cannot hold it.
    pub fn moved(self, instant: i64, to: Zone) -> Option<i64>
        ensures { IfSome result (λ at.
            at ≡ instant +ℤ (to.minutes -ℤ self.minutes) *ℤ pos 60000000) }
    {
        let minutes = to.minutes.checked_sub(self.minutes)?;
        instant.checked_add(minutes.checked_mul(60_000_000)?)
    }

    /// Appends its name, such as `UTC+5:30`.
    pub fn put_name<A: Allocator>(self, out: &mut Vec<u8, A>) -> Result<(), AllocError> {
        put(out, "UTC")?;
        let size = self.minutes.unsigned_abs();
        if size == 0 {
            return Ok(());
        }
        put(out, if self.minutes < 0 { "-" } else { "+" })?;
        put_number(out, size / 60)?;
        let rest = size % 60;
        if rest == 0 {
            return Ok(());
        }
        put(out, if rest < 10 { ":0" } else { ":" })?;
        put_number(out, rest)
    }
}
