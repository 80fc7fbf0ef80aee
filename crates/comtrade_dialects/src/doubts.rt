//! Oddities of a file that reads exactly: two statements that disagree, or something
//! hardly intended.

use crate::seen::{TimesSeen, clock_with};
use comtrade_format::{File, Head, Row, border_of};
use dfr_channels::{AnalogChannel, Reading};
use std::alloc::{AllocError, Allocator};

/// The first place of an oddity, and the number of such places. Rows and channels are counted from
/// 1; 0 means none.
#[derive(Clone, Copy, Debug, Default)]
pub struct Doubt {
    pub row: u64,
    pub channel: u64,
    pub count: u64,
}

/// The oddities of a file, each kind with its first place.
#[derive(Clone, Copy, Debug, Default)]
pub struct Doubts {
    /// Stamps that disagree with the rates by more than half an interval and more than one
    /// stamp unit.
    pub off: Doubt,
    /// Stamps below that of the previous row.
    pub falling: Doubt,
    /// Row numbers not above that of the previous row.
    pub repeated: Doubt,
    /// Samples outside their channel's range.
    pub outside: Doubt,
    /// Channels whose min is above their max.
    pub turned: Doubt,
    /// Runs of three or more samples at a limit of their channel's range.
    pub flat: Doubt,
    /// Lines of the configuration file with non-ASCII text; `row` is the number of the line.
    pub foreign: Doubt,
}

impl Doubt {
    pub(crate) fn add(&mut self, row: u64, channel: u64) {
        if self.count == 0 {
            self.row = row;
            self.channel = channel;
        }
        self.count = self.count.saturating_add(1); // (no file has 2^64 places)
    }

    pub(crate) fn is_none(&self) -> bool {
        self.count == 0
    }
}

/// Adds the oddities of row numbers and stamps.
fn add_times<A: Allocator + Copy>(
    alloc: A,
    doubts: &mut Doubts,
    file: &File<A>,
) -> Result<(), AllocError> {
    let clock = clock_with(alloc, &file.head, border_of(file))?;
    let mut times = TimesSeen::new(file.head.timemult);
    for row in file.rows.items() {
        times.take(doubts, &clock, row.number, row.stamp);
    }
    Ok(())
}

/// Whether a sample is outside the range of its channel, even if min and max are swapped.
fn is_outside<A: Allocator>(value: &Reading, channel: &AnalogChannel<A>) -> bool {
    match value {
        Reading::Value(x) => {
            *x < channel.min.min(channel.max) || channel.min.max(channel.max) < *x
        }
        Reading::Missing => false,
    }
}

/// Whether a sample is strictly inside the range of its channel, so that it is not odd.
fn is_inside<A: Allocator>(value: &Reading, channel: &AnalogChannel<A>) -> bool {
    match value {
        Reading::Value(x) => channel.min < *x && *x < channel.max,
        Reading::Missing => false,
    }
}

/// The consecutive samples of a channel at a limit of its range: that limit, and how many they are,
/// counted up to four.
#[derive(Clone, Copy)]
struct Run {
    sample: i32,
    length: u8,
    /// The row of the first of them.
    first: u64,
}

impl Run {
    /// Takes the sample of the next row, `place`. Returns whether there are three now.
    fn is_third<A: Allocator>(
        &mut self,
        value: &Reading,
        place: u64,
        channel: &AnalogChannel<A>,
    ) -> bool {
        let at_end = match value {
            Reading::Value(x) if channel.min != channel.max => {
                if *x == channel.min || *x == channel.max {
                    Some(*x)
                } else {
                    None
                }
            }
            _ => None,
        };
        let Some(sample) = at_end else {
            self.length = 0;
            return false;
        };
        if self.length == 0 || self.sample != sample {
            self.length = 0;
            self.sample = sample;
            self.first = place;
        }
        if self.length < 4 {
            self.length += 1;
        }
        self.length == 3
    }
}

/// Adds the samples of a row that are outside their range, and the runs that reach three samples.
fn add_row<A: Allocator>(
    doubts: &mut Doubts,
    runs: &mut [Run],
    row: &Row<A>,
    place: u64,
    channels: &[AnalogChannel<A>],
) {
    let samples = row.values.items().iter().zip(channels.iter());
    for (run, (number, (value, channel))) in runs.iter_mut().zip((1u64..).zip(samples)) {
        if is_inside(value, channel) {
            run.length = 0;
            continue;
        }
        if is_outside(value, channel) {
            doubts.outside.add(place, number);
        }
        if run.is_third(value, place, channel) {
            doubts.flat.add(run.first, number);
        }
    }
}

/// Adds the oddities of samples.
fn add_samples<A: Allocator + Copy>(
    alloc: A,
    doubts: &mut Doubts,
    file: &File<A>,
) -> Result<(), AllocError> {
    let channels = file.head.analog.items();
    let mut runs = Vec::new(alloc);
    for _ in channels {
        runs.push(Run {
            sample: 0,
            length: 0,
            first: 0,
        })?;
    }
    for (place, row) in (1u64..).zip(file.rows.items().iter()) {
        add_row(doubts, &mut runs, row, place, channels);
    }
    Ok(())
}

/// Adds a line of the configuration file if one of its texts is not ASCII.
fn add_foreign(doubt: &mut Doubt, line: u64, texts: [&[u8]; 4]) {
    for text in texts {
        if text.iter().any(|b| 0x80 <= *b) {
            doubt.add(line, 0);
            return;
        }
    }
}

/// Adds the lines of the configuration file with non-ASCII texts: the names, then each channel.
fn add_texts<A: Allocator>(doubt: &mut Doubt, head: &Head<A>) {
    add_foreign(
        doubt,
        1,
        [head.station.items(), head.device.items(), &[], &[]],
    );
    let analog = head.analog.items();
    for (line, channel) in (3u64..).zip(analog.iter()) {
        let (id, phase) = (channel.id.items(), channel.phase.items());
        let (component, unit) = (channel.component.items(), channel.unit.items());
        add_foreign(doubt, line, [id, phase, component, unit]);
    }
    for (line, channel) in (3u64..).skip(analog.len()).zip(head.status.items().iter()) {
        let (id, phase) = (channel.id.items(), channel.phase.items());
        add_foreign(doubt, line, [id, phase, channel.component.items(), &[]]);
    }
}

/// The oddities of a file.
pub fn doubts_of<A: Allocator + Copy>(alloc: A, file: &File<A>) -> Result<Doubts, AllocError> {
    let mut doubts = Doubts::default();
    for (number, channel) in (1u64..).zip(file.head.analog.items().iter()) {
        if channel.max < channel.min {
            doubts.turned.add(0, number);
        }
    }
    add_times(alloc, &mut doubts, file)?;
    add_samples(alloc, &mut doubts, file)?;
    add_texts(&mut doubts.foreign, &file.head);
    Ok(doubts)
}
