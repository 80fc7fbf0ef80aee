//! Builds a file of 1999 from what was read.

use crate::data::plan_of;
use crate::draft::{ChannelLines, ConfigDraft, Range, Revision};
use crate::fault::{ImportFault, Why};
use crate::kinds::Form;
use crate::marks::marks_of;
use crate::note::{Notes, Place};
use crate::pair::Samples;
use crate::readings::rows_of;
use crate::row::RowsPlan;
use crate::scaled::{settle_channels, tell_errors};
use crate::span::WholeBounds;
use crate::stamps::{StampTrack, Times, times_of};
use crate::survey::{Ground, RowsSurvey, survey_of};
use crate::wraps::undo_wraps;
use comtrade_format::{File, Head, Kind, Rate, Row};
use comtrade_values::{Decimal, Items};
use std::alloc::Allocator;

/// The parts of a file besides the names and numbers of its head.
#[derive(Drop)]
struct Body<A: Allocator> {
    rows: Vec<Row<A>, A>,
    rates: Vec<Rate, A>,
    timemult: Decimal,
}

fn times_in<A: Allocator + Copy>(
    alloc: A,
    notes: &mut Notes<A>,
    draft: &ConfigDraft<A>,
    survey: &RowsSurvey<A>,
    ground: Ground<'_>,
) -> Result<Times<A>, ImportFault> {
    let track = StampTrack {
        ticks: &survey.ticks,
        timemult: draft.timemult,
        most: if ground.is_text() {
            9_999_999_999
        } else {
            4_294_967_294
        },
        is_written: ground.samples == Samples::Written,
        is_pointed: survey.has_stamp_point,
        place: Place::Whole("data file"),
    };
    times_of(alloc, notes, draft, &track, survey.is_cut)
}

/// The rows; also decides on the scale and range of each channel.
fn body_of<A: Allocator + Copy>(
    alloc: A,
    notes: &mut Notes<A>,
    draft: &mut ConfigDraft<A>,
    ground: Ground<'_>,
) -> Result<Body<A>, ImportFault> {
    let mut survey = survey_of(alloc, notes, ground)?;
    if draft.rates.list.is_empty() {
        undo_wraps(notes, &mut survey.ticks, draft.timemult)?;
    }
    let times = times_in(alloc, notes, draft, &survey, ground)?;
    let ChannelLines {
        analog,
        said,
        status: _,
    } = &mut draft.channels;
    let mut made = settle_channels(alloc, notes, analog, said, &survey, ground)?;
    let rows = rows_of(alloc, ground, &mut made, &times.stamps)?;
    tell_errors(notes, analog, &made)?;
    let Times {
        stamps: _,
        timemult,
        rates,
    } = times;
    Ok(Body {
        rows,
        rates,
        timemult,
    })
}

/// Adds the single rate line of a file without rates (5.3.6).
fn put_no_rate<A: Allocator>(rates: &mut Vec<Rate, A>, rows: u64) -> Result<(), ImportFault> {
    if let Some(samp) = Decimal::new(0, 0) {
        rates.push(Rate {
            samp,
            endsamp: rows,
        })?;
    }
    Ok(())
}

/// The file made of a draft and its rows.
fn joined<A: Allocator>(draft: ConfigDraft<A>, body: Body<A>, nrates: u32, kind: Kind) -> File<A> {
    let ConfigDraft {
        names,
        channels,
        line_freq,
        rates: _,
        first,
        trigger,
        form: _,
        timemult: _,
        revision: _,
        has_nanos: _,
    } = draft;
    let head = Head {
        station: names.station,
        device: names.device,
        analog: Items::of(channels.analog),
        status: Items::of(channels.status),
        line_freq,
        nrates,
        rates: Items::of(body.rates),
        first,
        trigger,
        kind,
        timemult: body.timemult,
    };
    File {
        head,
        rows: Items::of(body.rows),
    }
}

fn bounds_of(is_text: bool) -> WholeBounds {
    if is_text {
        WholeBounds {
            low: -99_999,
            high: 99_998,
        }
    } else {
        WholeBounds {
            low: -32_767,
            high: 32_767,
        }
    }
}

/// Which channels have unsigned samples, the min of each channel, and in which 99,999 marks a
/// missing value.
#[derive(Drop)]
struct Ranges<A: Allocator> {
    unsigned: Vec<bool, A>,
    lows: Vec<i64, A>,
    marks: Vec<bool, A>,
}

fn ranges_of<A: Allocator + Copy>(
    alloc: A,
    draft: &ConfigDraft<A>,
    plan: RowsPlan<'_>,
) -> Result<Ranges<A>, ImportFault> {
    let is_short = plan.form() == Form::Binary;
    let mut ranges = Ranges {
        unsigned: Vec::new(alloc),
        lows: Vec::new(alloc),
        marks: marks_of(alloc, plan, draft.channels.counts(), draft.revision)?,
    };
    for (channel, said) in draft.channels.analog.iter().zip(draft.channels.said.iter()) {
        let low = match said.range {
            Range::Said => i64::from(channel.min),
            Range::Unsigned => -99_999,
            Range::Empty | Range::Long(_, _) | Range::Other => i64::MIN,
        };
        ranges
            .unsigned
            .push(is_short && said.range == Range::Unsigned)?;
        ranges.lows.push(low)?;
    }
    Ok(ranges)
}

/// The context for reading the rows of data in this form.
fn ground_of<'a, A: Allocator>(
    draft: &ConfigDraft<A>,
    plan: RowsPlan<'a>,
    ranges: &'a Ranges<A>,
    samples: Samples,
) -> Ground<'a> {
    let is_long = matches!(plan.form(), Form::Binary32 | Form::Float32);
    Ground {
        plan,
        samples,
        has_long_ranges: is_long || draft.revision == Revision::Of2013,
        counts: draft.channels.counts(),
        bounds: bounds_of(plan.form().is_text()),
        unsigned: &ranges.unsigned,
        lows: &ranges.lows,
        marks: &ranges.marks,
    }
}

/// The file of 1999 with the same contents as a configuration file and its data.
pub(crate) fn file_of<A: Allocator + Copy>(
    alloc: A,
    notes: &mut Notes<A>,
    mut draft: ConfigDraft<A>,
    dat: &[u8],
    samples: Samples,
) -> Result<File<A>, ImportFault> {
    let plan = plan_of(notes, &draft, dat)?;
    let ranges = ranges_of(alloc, &draft, plan)?;
    let ground = ground_of(&draft, plan, &ranges, samples);
    let mut body = body_of(alloc, notes, &mut draft, ground)?;
    let Ok(nrates) = u32::try_from(body.rates.len()) else {
        return Err(ImportFault::Whole(Why::ManyRates));
    };
    if nrates == 0 {
        let rows = body.rows.len() as u64;
        put_no_rate(&mut body.rates, rows)?;
    }
    let kind = if ground.is_text() {
        Kind::Ascii
    } else {
        Kind::Binary
    };
    Ok(joined(draft, body, nrates, kind))
}
