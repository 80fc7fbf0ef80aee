//! The least and the greatest sample of a channel.

ghost use Rattle.std.specs.Prelude.{◌≡◌};
ghost use Rattle.std.specs.Int.{int_min, int_max};
ghost use Rattle.examples.specs.Samples as Samples;

use comtrade_format::Row;
use dfr_channels::Reading;

/// The least and the greatest of some samples.
#[derive(Clone, Copy, Debug)]
pub struct Span {
    /// The least sample.
    pub least: i32,
    /// The greatest sample.
    pub greatest: i32,
}

impl Span {
    /// The span with one more sample.
    fn with(self, sample: i32) -> Span
        ensures least { result.least ≡ int_min self.least sample }
        ensures greatest { result.greatest ≡ int_max self.greatest sample }
    {
        Span {
            least: self.least.min(sample),
            greatest: self.greatest.max(sample),
        }
    }
}

/// The sample of a channel in a row; None where its reading is missing. Channels count from 0.
fn sample_of(row: &Row, channel: usize) -> Option<i32>
    ensures { result ≡ Samples.sample channel row.now }
{
    match row.values.items().get(channel) {
        Some(Reading::Value(sample)) => Some(*sample),
        _ => None,
    }
}

/// The span of a channel, from 0: all of its samples are in it, and both of its ends are samples.
/// None where every reading is missing.
pub fn span_of(rows: &[Row], channel: usize) -> Option<Span>
    ensures { Samples.Spans (Samples.samples channel rows.now) result }
{
    let mut span: Option<Span> = None;
    for row in rows {
        if let Some(sample) = sample_of(row, channel) {
            let one = Span {
                least: sample,
                greatest: sample,
            };
            span = Some(span.unwrap_or(one).with(sample));
        }
    }
    span
}
