//! Which channels share a panel.

ghost use Rattle.std.specs.Prelude.{◌≡◌, length, IfOk};

use crate::names::{Likeness, likeness_of};
use crate::phases::{Hue, other_hue, phase_hue};
use crate::survey::ChannelSpan;
use comtrade_format::Scale;
use comtrade_io::ToolFault;
use dfr_channels::AnalogChannel;
use std::alloc::{AllocError, Allocator};

/// The maximum number of channels in a panel.
const TOGETHER: usize = 4;

/// What is known of a panel: its first channel, the number of its channels, their hues, and the
/// least and greatest extent of a trace.
#[derive(Clone, Copy)]
struct Bunch {
    first: usize,
    count: usize,
    hues: u8,
    extents: Option<(f64, f64)>,
}

/// A trace of fewer steps than this is noise, or nothing.
const NOISE: i64 = 10;

/// The range of a channel's values in its unit, if it is more than noise.
fn extent_of(survey: ChannelSpan, scale: Scale) -> Option<f64> {
    let (least, greatest) = survey.bounds?;
    if i64::from(greatest) - i64::from(least) < NOISE {
        return None;
    }
    let (low, high) = survey.values(scale)?;
    Some(high - low)
}

/// A trace whose values span less than this part of its panel would look like a line.
const HIDDEN: f64 = 40.0;

/// The extents with one more; None where a common scale would hide one of them.
fn joined(extents: Option<(f64, f64)>, extent: Option<f64>) -> Option<Option<(f64, f64)>> {
    match (extents, extent) {
        (extents, None) => Some(extents),
        (None, Some(extent)) => Some(Some((extent, extent))),
        (Some((fine, wide)), Some(extent)) => {
            let fine = if extent < fine { extent } else { fine };
            let wide = if wide < extent { extent } else { wide };
            if fine * HIDDEN < wide {
                None
            } else {
                Some(Some((fine, wide)))
            }
        }
    }
}

/// A channel that needs a panel.
#[derive(Drop)]
struct Newcomer<'a, A: Allocator> {
    channel: &'a AnalogChannel<A>,
    hue: Option<Hue>,
    extent: Option<f64>,
}

impl Bunch {
    /// A panel with one channel.
    fn alone(first: usize, hue: Option<Hue>, extent: Option<f64>) -> Bunch {
        Bunch {
            first,
            count: 1,
            hues: match hue {
                Some(hue) => hue.bit(),
                None => 0,
            },
            extents: match extent {
                Some(extent) => Some((extent, extent)),
                None => None,
            },
        }
    }

    /// The panel with one more channel; None where it has no room, the hue is taken, or a common
    /// scale would hide a trace.
    fn with(self, hue: Option<Hue>, extent: Option<f64>) -> Option<Bunch> {
        let bit = match hue {
            Some(hue) => hue.bit(),
            None => 0,
        };
        if TOGETHER <= self.count || self.hues & bit != 0 {
            return None;
        }
        Some(Bunch {
            first: self.first,
            count: self.count + 1,
            hues: self.hues | bit,
            extents: joined(self.extents, extent)?,
        })
    }
}

/// How well a channel fits into a panel, and the panel with it.
fn fit_of<A: Allocator>(
    channels: &[AnalogChannel<A>],
    bunch: Bunch,
    newcomer: &Newcomer<'_, A>,
) -> Option<(Likeness, Bunch)> {
    let grown = bunch.with(newcomer.hue, newcomer.extent)?;
    let first = channels.get(bunch.first)?;
    Some((likeness_of(first, newcomer.channel), grown))
}

/// The panel for a channel, and what it is with it: the first one with a related name, else the
/// first one that takes it.
fn panel_for<A: Allocator>(
    channels: &[AnalogChannel<A>],
    bunches: &[Bunch],
    newcomer: &Newcomer<'_, A>,
) -> Option<(usize, Bunch)> {
    let mut found = None;
    for (i, bunch) in bunches.iter().enumerate() {
        match fit_of(channels, *bunch, newcomer) {
            Some((Likeness::Close, grown)) => return Some((i, grown)),
            Some((Likeness::Loose, grown)) if found.is_none() => found = Some((i, grown)),
            _ => {}
        }
    }
    found
}

/// Puts a channel into its panel or into a new one, and returns the panel's number.
fn settle<A: Allocator, B: Allocator>(
    channels: &[AnalogChannel<A>],
    bunches: &mut Vec<Bunch, B>,
    at: usize,
    newcomer: &Newcomer<'_, A>,
) -> Result<usize, AllocError> {
    if let Some((panel, grown)) = panel_for(channels, bunches, newcomer) {
        if let Some(bunch) = bunches.get_mut(panel) {
            *bunch = grown;
            return Ok(panel);
        }
    }
    let panel = bunches.len();
    bunches.push(Bunch::alone(at, newcomer.hue, newcomer.extent))?;
    Ok(panel)
}

fn newcomer_of<'a, A: Allocator>(
    channel: &'a AnalogChannel<A>,
    survey: Option<&ChannelSpan>,
    scale: Option<&Scale>,
) -> Newcomer<'a, A> {
    let extent = match (survey, scale) {
        (Some(survey), Some(scale)) => extent_of(*survey, *scale),
        _ => None,
    };
    Newcomer {
        channel,
        hue: phase_hue(channel),
        extent,
    }
}

/// The number of each channel's panel, from 0 on, in the order of the panels' first channels. Each
/// channel has exactly one.
pub(crate) fn panels_of<A: Allocator + Copy>(
    alloc: A,
    channels: &[AnalogChannel<A>],
    surveys: &[ChannelSpan],
    scales: &[Scale],
) -> Result<Vec<usize, A>, ToolFault>
    ensures { IfOk result (λ panels. length panels.items ≡ length channels.now) }
{
    let mut bunches = Vec::new(alloc);
    let mut panels = Vec::new(alloc);
    for (i, channel) in channels.iter().enumerate() {
        let newcomer = newcomer_of(channel, surveys.get(i), scales.get(i));
        panels.push(settle(channels, &mut bunches, i, &newcomer)?)?;
    }
    Ok(panels)
}

/// The hue of a channel in a panel: that of its phase, or of its position among those without one.
pub(crate) fn hue_in<A: Allocator>(
    channels: &[AnalogChannel<A>],
    panels: &[usize],
    at: usize,
) -> Hue {
    let Some(channel) = channels.get(at) else {
        return Hue::First;
    };
    if let Some(hue) = phase_hue(channel) {
        return hue;
    }
    let panel = panels.get(at);
    let (Some(earlier), Some(theirs)) = (channels.get(..at), panels.get(..at)) else {
        return Hue::First;
    };
    let place = earlier
        .iter()
        .zip(theirs.iter())
        .filter(|(other, its)| Some(*its) == panel && phase_hue(other).is_none())
        .count();
    other_hue(place)
}
