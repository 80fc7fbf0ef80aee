//! What the rows hold of each channel, in one pass over them.

ghost use Rattle.std.specs.Prelude.{◌≡◌, ◌+◌, ◌<◌, ◌≤◌, ℕ, List, length, replicate, IfOk};
ghost use Rattle.comtrade_format.specs.Parts.{RowParts};
ghost use Rattle.comtrade_analysis.specs.Readings as reading;
ghost use Rattle.comtrade_analysis.specs.Surveys as spec;

use crate::extremes::{Extremes, extremes_with};
use crate::readings::sample_at;
use comtrade_format::Row;
use comtrade_values::Memory;
use std::alloc::Allocator;

/// The extremes of a channel, where it has any sample, and the number of its missing readings.
#[derive(Clone, Copy, Debug, PartialEq, Eq)]
pub struct Survey {
    pub extremes: Option<Extremes>,
    pub missing: usize,
}

/// That of no row.
const NOTHING: Survey = Survey {
    extremes: None,
    missing: 0,
};

impl Survey {
    /// The survey with one row more, in which the channel has this sample.
    fn with(self, row: usize, sample: Option<i32>) -> Survey
        requires few { self.missing ≤ row }
        requires room { row < usize.MAX }
        ensures { (rows : List RowParts) → (channel : ℕ) → reading.sample_at rows channel row ≡ sample → spec.IsSurvey rows channel row self → spec.IsSurvey rows channel (row + 1) result }
    {
        let extremes = extremes_with(self.extremes, row, sample);
        match sample {
            Some(_) => Survey {
                extremes,
                missing: self.missing,
            },
            None => Survey {
                extremes,
                missing: self.missing + 1,
            },
        }
    }
}

/// Adds a row to the surveys of the rows before it.
fn add_row<A: Allocator>(surveys: &mut [Survey], rows: &[Row<A>], row: usize)
    requires within { row < length rows.now }
    requires before { spec.AreSurveys rows.now row surveys.old }
    ensures { spec.AreSurveys rows.now (row + 1) surveys.new }
{
    for channel in 0..surveys.len() {
        surveys[channel] = surveys[channel].with(row, sample_at(rows, channel, row));
    }
}

/// The surveys of no row. `Memory`: an allocation failed.
fn nothing_of<B: Allocator + Copy>(alloc: B, channels: usize) -> Result<Vec<Survey, B>, Memory>
    ensures { IfOk result (λ surveys. surveys.items ≡ replicate channels NOTHING) }
{
    let mut surveys = Vec::new(alloc);
    for i in 0..channels {
        surveys.push(NOTHING)?;
    }
    Ok(surveys)
}

/// The surveys of so many analogue channels, in order. `Memory`: an allocation failed.
pub fn surveys_of<A: Allocator, B: Allocator + Copy>(
    alloc: B,
    rows: &[Row<A>],
    channels: usize,
) -> Result<Vec<Survey, B>, Memory>
    ensures count { IfOk result (λ surveys. length surveys.items ≡ channels) }
    ensures each { IfOk result (λ surveys. spec.AreSurveys rows.now (length rows.now) surveys.items) }
{
    let mut surveys = nothing_of(alloc, channels)?;
    for row in 0..rows.len() {
        add_row(&mut surveys, rows, row);
    }
    Ok(surveys)
}
