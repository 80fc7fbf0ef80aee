//! A survey of each channel's drawn rows: its least and greatest sample; its rms values.

use crate::plan::Frame;
use comtrade_format::{File, Scale};
use comtrade_io::ToolFault;
use dfr_channels::Reading;
use std::alloc::Allocator;

/// What is known of a channel: its least and its greatest sample, if it has any.
#[derive(Clone, Copy)]
pub(crate) struct ChannelSpan {
    pub(crate) bounds: Option<(i32, i32)>,
}

impl ChannelSpan {
    fn with(self, sample: i32) -> ChannelSpan {
        let bounds = match self.bounds {
            None => Some((sample, sample)),
            Some((least, greatest)) => Some((least.min(sample), greatest.max(sample))),
        };
        ChannelSpan { bounds }
    }

    /// The least and the greatest value.
    pub(crate) fn values(self, scale: Scale) -> Option<(f64, f64)> {
        let (least, greatest) = self.bounds?;
        let (one, other) = (scale.value(least), scale.value(greatest));
        Some(if other < one {
            (other, one)
        } else {
            (one, other)
        })
    }
}

/// The rms values of a channel before and after a fault inception, or the trigger, where they are
/// known.
#[derive(Clone, Copy, Debug)]
pub struct Rms {
    pub before: Option<f64>,
    pub after: Option<f64>,
}

/// The bounds of each channel over the rows of a frame.
pub(crate) fn surveys_of<A: Allocator + Copy>(
    alloc: A,
    file: &File<A>,
    kept: &[Option<i64>],
    frame: Frame,
) -> Result<Vec<ChannelSpan, A>, ToolFault> {
    let mut surveys = Vec::new(alloc);
    for _ in file.head.analog.items() {
        surveys.push(ChannelSpan { bounds: None })?;
    }
    for (row, time) in file.rows.items().iter().zip(kept.iter()) {
        match *time {
            Some(time) if frame.has(time) => {
                for (survey, reading) in surveys.iter_mut().zip(row.values.items().iter()) {
                    if let Reading::Value(sample) = *reading {
                        *survey = survey.with(sample);
                    }
                }
            }
            _ => {}
        }
    }
    Ok(surveys)
}
