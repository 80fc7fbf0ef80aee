//! Splits a line into fields, one after the other.

ghost use Rattle.std.specs.Prelude.{◌≡◌, ◌<◌, ◌≤◌, ◌==◌, count_by, length, drop};
ghost use Rattle.comtrade_values.specs.Lines.{fields, field};

use crate::instant::place_of;
use comtrade_values::trim;

/// The number of commas in the line.
fn comma_count(line: &[u8]) -> usize
    ensures value { result ≡ count_by (λ b. b == 44) line.now }
    ensures bound { result ≤ length line.now }
{
    line.iter().filter(|b| **b == b',').count()
}

/// The number of fields in the line.
#[tactic(auto, using(crate::proofs::OneByOne::many))]
pub(crate) fn field_count(line: &[u8]) -> usize
    ensures { result ≡ length (fields line.now) }
{
    comma_count(line) + 1
}

/// The first field without blanks around it, and the text after its comma (empty if there is none).
pub(crate) fn first_field(line: &[u8]) -> (&[u8], &[u8])
    ensures first { result.0.now ≡ field (fields line.now) 0 }
    ensures rest { 1 < length (fields line.now) → fields result.1.now ≡ drop 1 (fields line.now) }
{
    match place_of(line, b',') {
        Some(at) => (trim(&line[..at]), &line[at + 1..]),
        None => (trim(line), &[]),
    }
}
