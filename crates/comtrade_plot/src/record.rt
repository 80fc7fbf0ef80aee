//! Preparation of a file before it is drawn.

use crate::gaps::{TimeGap, gaps_of};
use crate::groups::panels_of;
use crate::layers::Layer;
use crate::layout::Chart;
use crate::plan::{Cycle, Frame, window_of};
use crate::rows::{kept_times, last_change, numbers_of, places_of, whole_frame};
use crate::survey::{ChannelSpan, Rms, surveys_of};
use crate::ticks::rounded_out;
use comtrade_format::{File, Scale, nearest_f64, scale_of};
use comtrade_io::ToolFault;
use dfr_channels::AnalogChannel;
use std::alloc::Allocator;
use std::num::saturating_f64_to_i64;

/// The scales that turn each channel's samples into values.
fn scales_of<A: Allocator + Copy>(
    alloc: A,
    channels: &[AnalogChannel<A>],
) -> Result<Vec<Scale, A>, ToolFault> {
    let mut scales = Vec::new(alloc);
    for channel in channels {
        scales.push(scale_of(alloc, channel)?)?;
    }
    Ok(scales)
}

/// A record; when its rows were taken, in nanoseconds since its trigger; the rms values of its
/// analogue channels, in their order, as far as they are known.
#[derive(Clone, Copy)]
pub struct Timed<'a, A: Allocator> {
    pub file: &'a File<A>,
    pub times: &'a [Option<i64>],
    pub rms: &'a [Rms],
}

/// What is known of a file whichever part of it is drawn: when its rows were taken, including and
/// excluding lost ones, in nanoseconds since the trigger, or their numbers where the file has no
/// times; the scales of samples; the rms values of channels; the length of a cycle of the line
/// frequency, if there is one; when the trigger was; and which record of the picture it is.
#[derive(Drop)]
pub(crate) struct DrawnRecord<A: Allocator> {
    pub(crate) times: Vec<Option<i64>, A>,
    pub(crate) kept: Vec<Option<i64>, A>,
    pub(crate) scales: Vec<Scale, A>,
    pub(crate) rms: Vec<Rms, A>,
    pub(crate) cycle: Option<Cycle>,
    pub(crate) is_timed: bool,
    pub(crate) trigger: i64,
    pub(crate) layer: Layer,
}

impl<A: Allocator> DrawnRecord<A> {
    /// The length of a cycle; of 50 Hz where the file gives no line frequency.
    pub(crate) fn cycle_or_usual(&self) -> Cycle {
        self.cycle.unwrap_or(Cycle::usual())
    }
}

pub(crate) fn record_of<A: Allocator + Copy>(
    alloc: A,
    timed: Timed<'_, A>,
) -> Result<DrawnRecord<A>, ToolFault> {
    let (file, times) = (timed.file, timed.times);
    let is_timed = whole_frame(times).is_some();
    let hertz = nearest_f64(alloc, file.head.line_freq)?;
    let cycle = if is_timed && 0.1 <= hertz && hertz <= 10_000.0 {
        // (at least 10^5 and at most 10^10, so it is a number of 64 bits)
        Cycle::of(saturating_f64_to_i64(1e9 / hertz))
    } else {
        None
    };
    let times = if is_timed {
        Vec::from_slice(alloc, times)?
    } else {
        numbers_of(alloc, file.rows.items().len())?
    };
    let kept = kept_times(alloc, file, &times)?;
    let scales = scales_of(alloc, file.head.analog.items())?;
    Ok(DrawnRecord {
        times,
        kept,
        scales,
        rms: Vec::from_slice(alloc, timed.rms)?,
        cycle,
        is_timed,
        trigger: 0,
        layer: Layer::Alone,
    })
}

/// The times that are drawn of a record.
#[derive(Clone, Copy)]
pub(crate) struct DrawnTimes {
    pub(crate) whole: Frame,
    pub(crate) drawn: Frame,
    pub(crate) is_part: bool,
}

/// A frame with a duration: a single time is extended by this much on both sides, as far as times
/// go, which are numbers of 64 bits.
pub(crate) fn lasting(frame: Option<Frame>, least: i64) -> Frame {
    match frame {
        Some(frame) if frame.from < frame.to => frame,
        Some(frame) => Frame {
            from: frame.from.saturating_sub(least),
            to: frame.to.saturating_add(least),
        },
        None => Frame { from: 0, to: 1 },
    }
}

/// Which times are drawn of a file.
pub(crate) fn choice_of<A: Allocator>(
    file: &File<A>,
    record: &DrawnRecord<A>,
    is_whole: bool,
) -> DrawnTimes {
    let cycle = record.cycle_or_usual();
    let least = if record.is_timed { cycle.nanos } else { 1 };
    let whole = lasting(whole_frame(&record.kept), least);
    if record.is_timed && !is_whole {
        let change = last_change(file, &record.kept, cycle);
        if let Some(drawn) = window_of(whole, cycle, change) {
            return DrawnTimes {
                whole,
                drawn,
                is_part: true,
            };
        }
    }
    DrawnTimes {
        whole,
        drawn: rounded_out(whole),
        is_part: false,
    }
}

/// What is known of the part of a file that is drawn: the number of each channel's panel, the
/// survey of its rows, their positions, the gaps.
#[derive(Drop)]
pub(crate) struct DrawnPart<A: Allocator> {
    frame: Frame,
    pub(crate) panels: Vec<usize, A>,
    pub(crate) surveys: Vec<ChannelSpan, A>,
    places: Vec<Option<u32>, A>,
    gaps: Vec<TimeGap, A>,
}

pub(crate) fn part_of<A: Allocator + Copy>(
    alloc: A,
    file: &File<A>,
    record: &DrawnRecord<A>,
    frame: Frame,
) -> Result<DrawnPart<A>, ToolFault> {
    let surveys = surveys_of(alloc, file, &record.kept, frame)?;
    let panels = panels_of(alloc, file.head.analog.items(), &surveys, &record.scales)?;
    part_with(alloc, record, frame, surveys, panels)
}

/// The part of a record whose channels have these panels.
pub(crate) fn part_in<A: Allocator + Copy>(
    alloc: A,
    file: &File<A>,
    record: &DrawnRecord<A>,
    frame: Frame,
    panels: Vec<usize, A>,
) -> Result<DrawnPart<A>, ToolFault> {
    let surveys = surveys_of(alloc, file, &record.kept, frame)?;
    part_with(alloc, record, frame, surveys, panels)
}

fn part_with<A: Allocator + Copy>(
    alloc: A,
    record: &DrawnRecord<A>,
    frame: Frame,
    surveys: Vec<ChannelSpan, A>,
    panels: Vec<usize, A>,
) -> Result<DrawnPart<A>, ToolFault> {
    let places = places_of(alloc, frame, &record.kept)?;
    let gaps = gaps_of(alloc, frame, &record.kept)?;
    Ok(DrawnPart {
        frame,
        panels,
        surveys,
        places,
        gaps,
    })
}

/// The whole of a file of which a part is drawn, with the same panels.
pub(crate) fn whole_of<A: Allocator + Copy>(
    alloc: A,
    file: &File<A>,
    record: &DrawnRecord<A>,
    part: &DrawnPart<A>,
    frame: Frame,
) -> Result<DrawnPart<A>, ToolFault> {
    let surveys = surveys_of(alloc, file, &record.kept, frame)?;
    let panels = Vec::from_slice(alloc, &part.panels)?;
    let places = places_of(alloc, frame, &record.kept)?;
    Ok(DrawnPart {
        frame,
        panels,
        surveys,
        places,
        gaps: Vec::new(alloc),
    })
}

pub(crate) fn chart_of<'a, A: Allocator>(
    alloc: A,
    file: &'a File<A>,
    record: &'a DrawnRecord<A>,
    part: &'a DrawnPart<A>,
) -> Chart<'a, A> {
    Chart {
        alloc,
        file,
        scales: &record.scales,
        panels: &part.panels,
        surveys: &part.surveys,
        rms: &record.rms,
        frame: part.frame,
        places: &part.places,
        gaps: &part.gaps,
        cycle: record.cycle,
        is_timed: record.is_timed,
        trigger: record.trigger,
        layer: record.layer,
    }
}
