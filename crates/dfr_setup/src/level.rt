//! The levels of a line: a number, or a part of a quantity, as `0.85 of 110 kV`.

ghost use Rattle.std.specs.Prelude.{◌≡◌, ◌≤◌, ◌+◌};
ghost use Rattle.comtrade_values.specs.Lines.{texts};
ghost use Rattle.dfr_setup.specs.Quantities.{held, part};
ghost use Rattle.dfr_setup.specs.Wishes as spec;

use crate::line::{says, word_at};
use comtrade_values::Decimal;

/// The places of the units that the levels of a line name. None where a level is just a number.
#[derive(Clone, Copy, Debug)]
pub(crate) struct Units {
    pub(crate) level: Option<usize>,
    pub(crate) reset: Option<usize>,
    pub(crate) least: Option<usize>,
}

/// The part of a quantity, exactly; None if that has over 36 digits or 80 places.
fn part_of(share: Decimal, whole: Decimal) -> Option<Decimal>
    ensures { result ≡ held (part share whole) }
{
    let units = share.units().checked_mul(whole.units())?;
    Decimal::new(units, share.places() + whole.places())
}

/// Whether the line's level, from word `i` on, is a part of a quantity.
pub(crate) fn is_part(words: &[&[u8]], i: usize) -> bool
    requires { i ≤ 100 }
    ensures { result ≡ spec.is_part (texts words.now) i }
{
    says(words, i + 1, "of") && says(words, i + 4, "of")
}

/// The place of the last word of the line's level, whose first word is word `i`.
pub(crate) fn last_of(words: &[&[u8]], i: usize) -> usize
    requires { i ≤ 100 }
    ensures value { result ≡ spec.last_of (texts words.now) i }
    ensures bound { result ≤ i + 3 }
{
    if is_part(words, i) { i + 3 } else { i }
}

/// Whether an option stands at place `i` whose level is a part of a quantity.
pub(crate) fn has_part(words: &[&[u8]], key: &str, i: usize) -> bool
    requires { i ≤ 100 }
    ensures { result ≡ spec.has_part key.now (texts words.now) i }
{
    says(words, i, key) && says(words, i + 2, "of")
}

/// The level from word `i` on, which may be a part of a quantity. None if it can't be read.
pub(crate) fn level_at(words: &[&[u8]], i: usize, part: bool) -> Option<Decimal>
    requires { i ≤ 101 }
    ensures { result ≡ spec.level_at (texts words.now) i part }
{
    let number = Decimal::read(word_at(words, i))?;
    if !part {
        return Some(number);
    }
    let whole = Decimal::read(word_at(words, i + 2))?;
    part_of(number, whole)
}

/// The place of the unit of a level from word `i` on, if it is a part of a quantity.
pub(crate) fn unit_at(i: usize, part: bool) -> Option<usize>
    requires { i ≤ 101 }
    ensures { result ≡ spec.unit_at i part }
{
    if part { Some(i + 3) } else { None }
}
