//! The room that panels and names take.

ghost use Rattle.std.specs.Prelude.{◌≤◌};

use crate::gaps::TimeGap;
use crate::groups::hue_in;
use crate::layers::Layer;
use crate::phases::Hue;
use crate::plan::{Cycle, Down, Frame};
use crate::survey::{ChannelSpan, Rms};
use comtrade_format::{File, Scale};
use dfr_channels::{AnalogChannel, StatusChannel};
use std::alloc::Allocator;

/// What is drawn: a file; the scales of samples; the number of each channel's panel; the survey of
/// the drawn rows; the rms values of channels; the times that are drawn; the position of each row;
/// the gaps; whether times are known; when the trigger was; which record of the picture it is.
#[derive(Drop)]
pub(crate) struct Chart<'a, A: Allocator> {
    pub(crate) alloc: A,
    pub(crate) file: &'a File<A>,
    pub(crate) scales: &'a [Scale],
    pub(crate) panels: &'a [usize],
    pub(crate) surveys: &'a [ChannelSpan],
    pub(crate) rms: &'a [Rms],
    pub(crate) frame: Frame,
    pub(crate) places: &'a [Option<u32>],
    pub(crate) gaps: &'a [TimeGap],
    pub(crate) cycle: Option<Cycle>,
    pub(crate) is_timed: bool,
    pub(crate) trigger: i64,
    pub(crate) layer: Layer,
}

impl<'a, A: Allocator> Chart<'a, A> {
    /// The hue of a channel's trace.
    pub(crate) fn hue(&self, at: usize) -> Hue {
        let file = self.file;
        let own = hue_in(file.head.analog.items(), self.panels, at);
        self.layer.hue(own)
    }
}

/// The vertical band of a panel, or of the bars of status channels.
#[derive(Clone, Copy)]
pub(crate) struct Band {
    pub(crate) top: Down,
    pub(crate) height: Down,
}

impl Band {
    pub(crate) fn bottom(self) -> Down {
        self.top.after(self.height)
    }
}

/// The panel of a channel that is not drawn.
pub(crate) const NOWHERE: usize = usize::MAX;

/// The limit in bytes of a line of a name.
const LINE: usize = 32;

/// The height of a line of a legend.
pub(crate) const LINE_HEIGHT: u32 = 140;

/// The height of a panel's title, above it.
pub(crate) const TITLE: u32 = 210;

/// The height of a status channel's bar with the space below it, where its name has one line.
pub(crate) const CONTACT: u32 = 200;

/// Where the UTF-8 character begins that has the byte after a whole line.
fn begin_of(name: &[u8]) -> usize {
    for begin in [LINE, LINE - 1, LINE - 2] {
        match name.get(begin) {
            Some(0x80..=0xBF) => {}
            _ => return begin,
        }
    }
    LINE - 3
}

/// The first line of a name, and the rest. It ends at a space in its last third, if there is one.
pub(crate) fn first_line(name: &[u8]) -> (&[u8], &[u8]) {
    if name.len() <= LINE {
        return (name, &[]);
    }
    let front = match name.get(..LINE) {
        Some(front) => front,
        None => name,
    };
    let at = match front.iter().rposition(|b| *b == b' ') {
        Some(space) if LINE * 2 / 3 <= space => space + 1,
        _ => begin_of(name),
    };
    match (name.get(..at), name.get(at..)) {
        (Some(line), Some(rest)) => (line, rest),
        _ => (name, &[]),
    }
}

/// How many lines a name takes after its first one, of at most three.
fn more_lines(name: &[u8]) -> u32
    ensures { result ≤ 2 }
{
    let rest = first_line(name).1;
    if rest.is_empty() {
        0
    } else if first_line(rest).1.is_empty() {
        1
    } else {
        2
    }
}

/// The height of a status channel's bar with its name, and with the space below it.
pub(crate) fn contact_height<A: Allocator>(channel: &StatusChannel<A>) -> Down {
    Down::at(more_lines(channel.id.items()) * LINE_HEIGHT + CONTACT)
}

/// The height of a channel's name and numbers next to its panel.
pub(crate) fn legend_height<A: Allocator>(channel: &AnalogChannel<A>) -> Down {
    Down::at(more_lines(channel.id.items()) * LINE_HEIGHT + 2 * LINE_HEIGHT + 20)
}

/// The height of panels whose legends do not need more.
pub(crate) fn least_height(panels: usize) -> Down {
    if panels <= 3 {
        Down::at(1500)
    } else if panels <= 8 {
        Down::at(1200)
    } else {
        Down::at(800)
    }
}

/// The height of the names and numbers next to a panel.
pub(crate) fn legends_height<A: Allocator>(chart: &Chart<'_, A>, panel: usize) -> Down {
    let file = chart.file;
    let channels = file.head.analog.items();
    let mut legend = Down::at(0);
    for (channel, its) in channels.iter().zip(chart.panels.iter()) {
        if *its == panel {
            legend = legend.after(legend_height(channel));
        }
    }
    legend
}

/// The height of a panel, without its title.
pub(crate) fn height_of<A: Allocator>(chart: &Chart<'_, A>, panel: usize, count: usize) -> Down {
    legends_height(chart, panel).max(least_height(count))
}

/// The first channel of a panel.
pub(crate) fn channel_in<A: Allocator>(chart: &Chart<'_, A>, panel: usize) -> Option<usize> {
    for (i, its) in chart.panels.iter().enumerate() {
        if *its == panel {
            return Some(i);
        }
    }
    None
}

/// The number of panels.
pub(crate) fn panel_count(panels: &[usize]) -> usize {
    let mut count = 0usize;
    for panel in panels {
        if *panel != NOWHERE {
            count = count.max(*panel + 1);
        }
    }
    count
}

/// Where the panels end that begin here.
pub(crate) fn panels_end<A: Allocator>(chart: &Chart<'_, A>, top: Down) -> Down {
    let count = panel_count(chart.panels);
    let mut end = top;
    for panel in 0..count {
        end = end.below(TITLE).after(height_of(chart, panel, count));
    }
    end
}
