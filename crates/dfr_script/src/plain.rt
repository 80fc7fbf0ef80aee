//! Readings in plain spelling, read in one pass.

ghost use Rattle.std.specs.Prelude.{◌≡◌, ◌<◌, IfSome, option_copied, length};
ghost use Rattle.dfr_script.specs.Plain.{Begins};

use comtrade_values::{plain_number, sample_number};

/// The reading in the first field of a text, and the text after that field's comma, if it has one.
/// The field is one to ten digits, with or without a minus sign. None means no more than that the
/// field is spelled otherwise or doesn't fit.
pub(crate) fn plain_field(text: &[u8]) -> Option<(i32, Option<&[u8]>)>
    ensures first { IfSome result (λ r. Begins text.now r.0 (option_copied r.1)) }
    ensures shorter { IfSome result (λ r. IfSome r.1 (λ behind. length behind.now < length text.now)) }
{
    if let Some(sample) = sample_number(text) {
        return Some(sample);
    }
    let (number, behind) = plain_number(text)?;
    if number < (i32::MIN as i64) {
        return None;
    }
    if (i32::MAX as i64) < number {
        return None;
    }
    Some((number as i32, behind))
}
