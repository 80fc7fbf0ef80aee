//! The greatest current of a record, relative to its channel's nominal current.

ghost use Rattle.comtrade_views.specs.Spellings as spec;
ghost use Rattle.std.specs.Prelude.{◌≡◌};

use crate::cycles::{amperes_of, is_current_unit};
use crate::show_analog::surveys_in;
use comtrade_analysis::Survey;
use comtrade_format::{File, nearest_f64, scale_of};
use comtrade_io::ToolFault;
use comtrade_values::Decimal;
use dfr_channels::{AnalogChannel, Side};
use std::alloc::Allocator;

/// The ratio of a channel's greatest current to its nominal one, and the current.
#[derive(Clone, Copy)]
pub(crate) struct Current {
    pub(crate) times: f64,
    pub(crate) place: usize,
    pub(crate) sample: i32,
}

/// The nominal current of a channel.
pub(crate) fn nominal_of<A: Allocator>(channel: &AnalogChannel<A>) -> Decimal
    ensures { result ≡ spec.nominal channel.now }
{
    match channel.side {
        Side::Primary => channel.primary,
        Side::Secondary => channel.secondary,
    }
}

/// The greatest current of a channel relative to its nominal one, or the greatest before it.
fn greatest_of<A: Allocator + Copy>(
    alloc: A,
    survey: Survey,
    channel: &AnalogChannel<A>,
    place: usize,
    before: Option<Current>,
) -> Result<Option<Current>, ToolFault> {
    let Some(extremes) = survey.extremes else {
        return Ok(before);
    };
    let scale = scale_of(alloc, channel)?;
    let nominal = nearest_f64(alloc, nominal_of(channel))?;
    let amperes = amperes_of(channel.unit.items());
    let mut greatest = before;
    for sample in [extremes.least.sample, extremes.greatest.sample] {
        let size = scale.value(sample).abs() * amperes;
        let times = if 0.0 < nominal { size / nominal } else { 0.0 };
        let known = match greatest {
            Some(current) => current.times,
            None => 0.0,
        };
        if known < times {
            greatest = Some(Current {
                times,
                place,
                sample,
            });
        }
    }
    Ok(greatest)
}

/// The greatest current of all channels.
pub(crate) fn greatest_current<A: Allocator + Copy>(
    alloc: A,
    file: &File<A>,
) -> Result<Option<Current>, ToolFault> {
    let surveys = surveys_in(alloc, file)?;
    let mut greatest = None;
    let channels = file.head.analog.items().iter();
    for (i, (channel, survey)) in channels.zip(surveys.iter()).enumerate() {
        if is_current_unit(channel.unit.items()) {
            greatest = greatest_of(alloc, *survey, channel, i, greatest)?;
        }
    }
    Ok(greatest)
}
