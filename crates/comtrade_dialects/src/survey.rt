//! Surveys all rows before they are written: numbers, stamps and spans of samples.

use crate::fault::{ImportFault, Why};
use crate::float_span::float_spans;
use crate::key::Key;
use crate::kinds::Form;
use crate::note::{Notes, Place};
use crate::num::is_float_mark;
use crate::numbers::Tick;
use crate::packed_row::{Bytes, read_float_row};
use crate::pair::Samples;
use crate::row::{Cells, Packed, RowCounts, RowStep, RowStop, RowsLeft, RowsPlan};
use crate::span::{SampleSpan, WholeBounds};
use crate::step_search::find_steps;
use std::alloc::Allocator;

/// What the first pass over the rows found.
#[derive(Drop)]
pub(crate) struct RowsSurvey<A: Allocator> {
    pub ticks: Vec<Tick, A>,
    pub spans: Vec<SampleSpan, A>,
    pub has_stamp_point: bool,
    pub has_points: bool,
    pub is_cut: bool,
}

/// The context for reading rows.
#[derive(Clone, Copy)]
pub(crate) struct Ground<'a> {
    pub plan: RowsPlan<'a>,
    pub counts: RowCounts,
    pub bounds: WholeBounds,
    pub samples: Samples,
    /// Ranges of whole numbers of 32 bits are usual.
    pub has_long_ranges: bool,
    pub unsigned: &'a [bool],
    /// The min of each channel; if it is above -32,768, then -32,768 is not a sample. The least
    /// number if the channel declares no min that 1999 can hold; otherwise 999,999 is not a sample.
    pub lows: &'a [i64],
    /// Whether 99,999 marks a missing value in the text of each channel.
    pub marks: &'a [bool],
}

impl<'a> Ground<'a> {
    /// Whether the rows are text.
    pub(crate) fn is_text(&self) -> bool {
        matches!(self.plan, RowsPlan::Text(_, _))
    }

    /// The rows, where they are floats.
    pub(crate) fn floats(&self) -> Option<Packed<'a>> {
        match self.plan {
            RowsPlan::Packed(packed) if packed.form == Form::Float32 => Some(packed),
            _ => None,
        }
    }
}

fn fault_of(place: u64, stop: RowStop) -> ImportFault {
    match stop {
        RowStop::Memory => ImportFault::Memory,
        RowStop::Why(why) => ImportFault::Dat(place, why),
    }
}

fn tell_row<A: Allocator + Copy>(
    notes: &mut Notes<A>,
    cells: &Cells<A>,
    row: u64,
) -> Result<(), ImportFault> {
    let odd = cells.odd;
    let place = Place::Row(row);
    if odd.has_blank_before {
        notes.tell(Key::BlankLines, place, b"data")?;
    }
    if odd.is_doubled && !notes.has(Key::LineEndsCrcr) {
        notes.tell(Key::LineEndsCrcr, place, b"data")?;
    }
    if odd.has_trailing {
        notes.tell(Key::TrailingCommas, place, b"data")?;
    }
    if odd.has_fortran {
        notes.tell(Key::ExponentD, place, b"data")?;
    }
    if odd.has_commas {
        notes.tell(Key::DecimalComma, place, b"data")?;
    }
    if odd.has_marks {
        notes.tell(Key::MissingMarks, place, &[])?;
    }
    if odd.has_spare_bits {
        notes.tell(Key::StatusSpareBits, place, &[])?;
    }
    Ok(())
}

/// Whether a value is a foreign mark of a missing value: BINARY's mark in ASCII data, if the
/// channel's range excludes it, or nines in all six characters of a value, if the range
/// excludes them.
fn is_foreign_mark(ground: Ground<'_>, channel: usize, whole: Option<i64>) -> bool {
    let Some(low) = ground.lows.get(channel) else {
        return false;
    };
    match whole {
        Some(-32_768) => -32_768 < *low,
        Some(999_999) => *low != i64::MIN,
        _ => false,
    }
}

/// The mark of a missing value in ASCII data (clause 6).
const MISSING: i64 = 99_999;

/// Whether a value is the mark of a missing value in this channel.
fn is_own_mark(ground: Ground<'_>, channel: usize, whole: Option<i64>) -> bool {
    whole == Some(MISSING) && ground.marks.get(channel).copied() == Some(true)
}

/// The next row; marks of missing values are replaced by missing values.
pub(crate) fn next_cells<A: Allocator + Copy>(
    ground: Ground<'_>,
    rows: &mut RowsLeft<'_>,
    cells: &mut Cells<A>,
) -> Result<RowStep, ImportFault> {
    let step = match rows.step(cells, ground.counts, ground.unsigned) {
        Ok(step) => step,
        Err((place, stop)) => return Err(fault_of(place, stop)),
    };
    if let RowsPlan::Packed(_) = ground.plan {
        return Ok(step);
    }
    let mut has_mark = false;
    for (i, value) in cells.values.iter_mut().enumerate() {
        if let Some(num) = *value {
            let whole = num.whole();
            let is_foreign = num.is_mark() || is_foreign_mark(ground, i, whole);
            if is_foreign || is_own_mark(ground, i, whole) {
                *value = None;
                has_mark = has_mark || is_foreign;
            }
        }
    }
    cells.odd.has_marks = cells.odd.has_marks || has_mark;
    Ok(step)
}

fn add_row<A: Allocator + Copy>(
    survey: &mut RowsSurvey<A>,
    cells: &Cells<A>,
    bounds: WholeBounds,
) -> Result<(), ImportFault> {
    survey.ticks.push(Tick {
        number: cells.number,
        stamp: cells.stamp,
    })?;
    survey.has_stamp_point = survey.has_stamp_point || cells.odd.has_stamp_point;
    survey.has_points = survey.has_points || cells.odd.has_points;
    for (span, value) in survey.spans.iter_mut().zip(cells.values.iter()) {
        if let Some(num) = *value {
            span.add(num, bounds);
        }
    }
    Ok(())
}

/// Reads the next row of floats without its values, which are returned.
pub(crate) fn next_floats<'a, A: Allocator + Copy>(
    ground: Ground<'_>,
    packed: Packed<'a>,
    rows: &mut RowsLeft<'a>,
    cells: &mut Cells<A>,
) -> Result<Option<Bytes<'a>>, ImportFault> {
    let Some((number, row)) = rows.next_packed(packed) else {
        return Ok(None);
    };
    match read_float_row(cells, row, packed, ground.counts) {
        Ok(values) => Ok(Some(values)),
        Err(stop) => Err(fault_of(number, stop)),
    }
}

/// The first pass over rows of floats; their spans come from their bits.
fn look_at_floats<A: Allocator + Copy>(
    alloc: A,
    notes: &mut Notes<A>,
    ground: Ground<'_>,
    packed: Packed<'_>,
    survey: &mut RowsSurvey<A>,
) -> Result<(), ImportFault> {
    let mut spans = float_spans(alloc, ground.counts.k)?;
    let mut rows = RowsLeft::of(RowsPlan::Packed(packed));
    let mut cells = Cells::new(alloc);
    for number in 1..u64::MAX {
        let Some(mut values) = next_floats(ground, packed, &mut rows, &mut cells)? else {
            break;
        };
        for span in spans.iter_mut() {
            let Some(bits) = values.next_long() else {
                return Err(ImportFault::Dat(number, Why::Length));
            };
            cells.odd.has_marks = cells.odd.has_marks || is_float_mark(bits);
            span.add(bits, ground.bounds);
        }
        tell_row(notes, &cells, number)?;
        add_row(survey, &cells, ground.bounds)?;
    }
    for span in &spans {
        survey.spans.push(span.settled())?;
    }
    Ok(())
}

/// The first pass over other rows.
fn look_at_rows<A: Allocator + Copy>(
    alloc: A,
    notes: &mut Notes<A>,
    ground: Ground<'_>,
    survey: &mut RowsSurvey<A>,
) -> Result<(), ImportFault> {
    for _ in 0..ground.counts.k {
        survey.spans.push(SampleSpan::new())?;
    }
    let mut rows = RowsLeft::of(ground.plan);
    let mut cells = Cells::new(alloc);
    for number in 1..u64::MAX {
        match next_cells(ground, &mut rows, &mut cells)? {
            RowStep::Row(_) => {
                tell_row(notes, &cells, number)?;
                add_row(survey, &cells, ground.bounds)?;
            }
            RowStep::Cut(_) => {
                notes.tell(Key::RowCut, Place::Row(number), &[])?;
                survey.is_cut = true;
                break;
            }
            RowStep::End => break,
        }
    }
    widen_all(ground, survey, &mut cells)
}

/// The first pass over all rows.
pub(crate) fn survey_of<A: Allocator + Copy>(
    alloc: A,
    notes: &mut Notes<A>,
    ground: Ground<'_>,
) -> Result<RowsSurvey<A>, ImportFault> {
    let mut survey = RowsSurvey {
        ticks: Vec::new(alloc),
        spans: Vec::new(alloc),
        has_stamp_point: false,
        has_points: false,
        is_cut: notes.has(Key::RowCut),
    };
    match ground.floats() {
        Some(packed) => look_at_floats(alloc, notes, ground, packed, &mut survey)?,
        None => look_at_rows(alloc, notes, ground, &mut survey)?,
    }
    if survey.ticks.is_empty() {
        return Err(ImportFault::Whole(Why::NoRow));
    }
    let rows = survey.ticks.len() as u64;
    find_steps(alloc, ground, &mut survey.spans, rows)?;
    Ok(survey)
}

fn any_open(spans: &[SampleSpan]) -> bool {
    spans.iter().any(|span| span.is_open())
}

/// The second pass: finds the least and the greatest sample of the channels that do not fit as
/// they are.
fn widen_all<A: Allocator + Copy>(
    ground: Ground<'_>,
    survey: &mut RowsSurvey<A>,
    cells: &mut Cells<A>,
) -> Result<(), ImportFault> {
    for span in survey.spans.iter_mut() {
        span.settle();
    }
    if !any_open(&survey.spans) {
        return Ok(());
    }
    let mut rows = RowsLeft::of(ground.plan);
    for _ in 0..survey.ticks.len() {
        let _ = next_cells(ground, &mut rows, cells)?;
        for (span, value) in survey.spans.iter_mut().zip(cells.values.iter()) {
            if let Some(num) = *value {
                if span.is_open() {
                    span.widen(num);
                }
            }
        }
    }
    Ok(())
}
