//! Decides how the samples of each channel are written, and notes the changes.

use crate::draft::{DeclaredRange, Range};
use crate::fault::{ImportFault, Why};
use crate::fit::{SampleFit, fit_of, long_fit_of};
use crate::key::Key;
use crate::kinds::Form;
use crate::note::{Notes, Place};
use crate::pair::Samples;
use crate::span::SampleSpan;
use crate::survey::{Ground, RowsSurvey};
use comtrade_values::{Decimal, Exact, put, put_decimal};
use dfr_channels::AnalogChannel;
use std::alloc::Allocator;

/// How a channel's samples become whole numbers.
#[derive(Clone, Copy)]
pub(crate) struct Made {
    pub fit: SampleFit,
    /// The original multiplier.
    factor: Decimal,
    /// The greatest error of a sample, in units of 10^-shift.
    pub worst: i64,
    shift: i32,
}

/// The range of the whole numbers that the samples become.
fn range_for(fit: &SampleFit, is_text: bool) -> (i32, i32) {
    match fit {
        SampleFit::LongTens(_) => LONG_RANGE,
        SampleFit::Exact(steps) | SampleFit::Steps(steps) if steps.most == LONG_RANGE.1 =>
            LONG_RANGE,
        SampleFit::Steps(_) => (-32_767, 32_767),
        _ if is_text => (-99_999, 99_998),
        _ => (-32_767, 32_767),
    }
}

/// Whole numbers of 32 bits.
const LONG_RANGE: (i32, i32) = (-2_147_483_647, 2_147_483_647);

/// Sets the range of a channel whose samples stay unchanged, if its own range is unusable.
fn set_same<A: Allocator + Copy>(
    notes: &mut Notes<A>,
    channel: &mut AnalogChannel<A>,
    said: DeclaredRange,
    span: &SampleSpan,
    ground: Ground<'_>,
) -> Result<(), ImportFault> {
    let is_shown = ground.samples == Samples::Shown && ground.has_long_ranges;
    match said.range {
        Range::Said | Range::Unsigned => return Ok(()),
        Range::Long(low, high) if is_shown => {
            channel.min = low;
            channel.max = high;
            return Ok(());
        }
        Range::Empty => {}
        Range::Long(_, _) | Range::Other => {
            notes.tell(Key::RangeForm, Place::Cfg(said.line), &[])?;
        }
    }
    if i64::from(channel.min) <= span.least && span.most <= i64::from(channel.max) {
        return Ok(());
    }
    let (low, high) = if span.fits {
        range_for(&SampleFit::Same, ground.is_text())
    } else {
        LONG_RANGE
    };
    channel.min = low;
    channel.max = high;
    Ok(())
}

/// How a channel's samples become whole numbers: as a file of 1999 holds them, unless that rounds
/// them and they are only shown. None if they are too large.
fn choice_of(span: &SampleSpan, is_unsigned: bool, ground: Ground<'_>) -> Option<SampleFit> {
    let written = fit_of(span, ground.bounds, is_unsigned);
    match written {
        Some(fit) if !fit.is_rounded() => Some(fit),
        _ if ground.samples == Samples::Shown => long_fit_of(span),
        _ => written,
    }
}

/// A bound of a range less a shift, within those that 1999 can hold.
fn bound_less(bound: i32, by: i32) -> i32 {
    match bound.checked_sub(by) {
        Some(less) if 99_999 < less => 99_999,
        Some(less) if -99_999 <= less => less,
        _ => -99_999,
    }
}

/// Sets the range and the scale of a channel whose samples change.
fn set_other<A: Allocator + Copy>(
    channel: &mut AnalogChannel<A>,
    said: DeclaredRange,
    fit: &SampleFit,
    is_text: bool,
) -> Result<(), ImportFault> {
    let fault = ImportFault::Cfg(said.line, Why::Scale);
    let Some((a, b)) = fit.scaled(Exact::of(channel.a), Exact::of(channel.b)) else {
        return Err(fault);
    };
    let (Some(a), Some(b)) = (a.decimal(), b.decimal()) else {
        return Err(fault);
    };
    channel.a = a;
    channel.b = b;
    let (low, high) = match fit {
        SampleFit::Shift(by) => (bound_less(channel.min, *by), bound_less(channel.max, *by)),
        _ => range_for(fit, is_text),
    };
    channel.min = low;
    channel.max = high;
    Ok(())
}

/// Decides on a channel: its range, its scale, and how its samples become whole numbers.
fn made_of<A: Allocator + Copy>(
    notes: &mut Notes<A>,
    channel: &mut AnalogChannel<A>,
    said: DeclaredRange,
    span: &SampleSpan,
    place: (bool, Ground<'_>),
) -> Result<Made, ImportFault> {
    let (is_unsigned, ground) = place;
    let Some(fit) = choice_of(span, is_unsigned, ground) else {
        return Err(ImportFault::Cfg(said.line, Why::Scale));
    };
    let made = Made {
        fit,
        factor: channel.a,
        worst: 0,
        shift: span.scale.shift,
    };
    if made.fit.is_same() {
        set_same(notes, channel, said, span, ground)?;
    } else {
        set_other(channel, said, &made.fit, ground.is_text())?;
    }
    Ok(made)
}

/// Whether the samples of a channel have more digits than they may have: scaled for a pair, or kept
/// in what is shown.
fn is_wide(span: &SampleSpan, fit: &SampleFit, ground: Ground<'_>) -> bool {
    if fit.is_same() {
        !span.fits && !ground.has_long_ranges
    } else {
        span.is_whole
    }
}

/// Notes how the samples change, by the form in which they were found.
fn tell_samples<A: Allocator + Copy>(
    notes: &mut Notes<A>,
    ground: Ground<'_>,
    survey: &RowsSurvey<A>,
    made: &[Made],
) -> Result<(), ImportFault> {
    if survey.has_points {
        notes.tell(Key::ValuesDecimal, Place::Whole("data file"), &[])?;
    }
    if ground.plan.form() == Form::Float32 {
        return Ok(());
    }
    for (number, (span, made)) in (1u64..).zip(survey.spans.iter().zip(made.iter())) {
        if let SampleFit::Shift(_) = made.fit {
            notes.tell(Key::ValuesUnsigned, Place::Channel(number), &[])?;
        } else if is_wide(span, &made.fit, ground) {
            notes.tell(Key::ValuesWide, Place::Channel(number), &[])?;
        }
    }
    Ok(())
}

/// Decides on all channels.
pub(crate) fn settle_channels<A: Allocator + Copy>(
    alloc: A,
    notes: &mut Notes<A>,
    channels: &mut Vec<AnalogChannel<A>, A>,
    said: &[DeclaredRange],
    survey: &RowsSurvey<A>,
    ground: Ground<'_>,
) -> Result<Vec<Made, A>, ImportFault> {
    let mut list = Vec::new(alloc);
    for (i, channel) in channels.iter_mut().enumerate() {
        let (Some(said), Some(span)) = (said.get(i), survey.spans.get(i)) else {
            return Err(ImportFault::Whole(Why::NoRow));
        };
        let is_unsigned = ground.unsigned.get(i).copied() == Some(true);
        list.push(made_of(notes, channel, *said, span, (is_unsigned, ground))?)?;
    }
    tell_samples(notes, ground, survey, &list)?;
    Ok(list)
}

/// Notes the greatest error of a channel, in its unit.
fn tell_error<A: Allocator + Copy>(
    notes: &mut Notes<A>,
    channel: &AnalogChannel<A>,
    made: Made,
    number: u64,
) -> Result<(), ImportFault> {
    let off = Exact {
        units: i128::from(made.worst) + 1,
        places: made.shift,
    };
    let error = match Exact::of(made.factor).short().times(off.rounded_up()) {
        Some(error) => error.rounded_up().decimal(),
        None => None,
    };
    let mut piece = Vec::from_slice(notes.allocator(), channel.id.items())?;
    put(&mut piece, " by at most ")?;
    match error {
        Some(decimal) => put_decimal(&mut piece, decimal)?,
        None => put(&mut piece, "half a step")?,
    }
    put(&mut piece, " ")?;
    piece.extend_from_slice(channel.unit.items())?;
    notes.tell(Key::ValuesRounded, Place::Channel(number), &piece)?;
    Ok(())
}

/// Notes the errors of the channels whose values are rounded.
pub(crate) fn tell_errors<A: Allocator + Copy>(
    notes: &mut Notes<A>,
    channels: &[AnalogChannel<A>],
    made: &[Made],
) -> Result<(), ImportFault> {
    for (number, (channel, made)) in (1u64..).zip(channels.iter().zip(made.iter())) {
        if made.fit.is_rounded() {
            tell_error(notes, channel, *made, number)?;
        }
    }
    Ok(())
}
