//! Trigger rules, and when one holds.

ghost use Rattle.std.specs.Prelude.{◌≡◌, option_copied};
ghost use Rattle.dfr_channels.specs.Firing as spec;

use crate::{Layout, Reading, Scan};
use std::alloc::Allocator;

/// A trigger rule. Channels are numbered from 0 within their kind.
#[derive(Clone, Copy, Debug, PartialEq, Eq)]
pub enum Rule {
    /// Holds if the reading of this analogue channel is at least (`over`) or at most (otherwise)
    /// the threshold, a raw sample. A missing reading never holds.
    Level {
        channel: u32,
        over: bool,
        threshold: i32,
    },
    /// Holds if the bit of this status channel changed to 1 (`rise`) or to 0 (otherwise) since the
    /// scan accepted before. It never holds at the first scan.
    Edge {
        channel: u32,
        rise: bool,
    },
}

/// Whether there is a reading, and it is at least (`over`) or at most (otherwise) the threshold.
fn is_beyond(over: bool, threshold: i32, reading: Option<Reading>) -> bool
    ensures { result ≡ spec.is_beyond over threshold reading }
{
    match reading {
        Some(Reading::Value(x)) => { if over { threshold <= x } else { x <= threshold } }
        Some(Reading::Missing) => false,
        None => false,
    }
}

/// Whether there are both bits, and the bit changed to 1 (`rise`) or to 0 (otherwise).
fn has_changed(rise: bool, before: Option<bool>, now: Option<bool>) -> bool
    ensures { result ≡ spec.has_changed rise before now }
{
    let (Some(was), Some(is)) = (before, now) else {
        return false;
    };
    if rise { !was && is } else { was && !is }
}

/// The channel's bit in the scan before, if there is one.
fn bit_before<A: Allocator>(before: Option<&Scan<A>>, channel: usize) -> Option<bool>
    ensures { result ≡ spec.bit_before (option_copied before.entry) channel }
{
    match before {
        Some(scan) => scan.status().get(channel).copied(),
        None => None,
    }
}

impl Rule {
    ghost use Rattle.std.specs.Prelude.{◌≡◌, option_copied};
    ghost use Rattle.dfr_channels.specs.Firing.{holds, names_channel, names_one_of};

    /// Whether the rule holds at a scan, given the scan accepted before it.
    #[tactic(auto, unfolding(crate::specs::Firing::holds))]
    pub(crate) fn holds<A: Allocator>(&self, before: Option<&Scan<A>>, now: &Scan<A>) -> bool
        ensures { result ≡ holds (option_copied before.entry) now.now self.now }
    {
        match self {
            Rule::Level {
                channel,
                over,
                threshold,
            } => is_beyond(
                *over,
                *threshold,
                now.analog().get(*channel as usize).copied(),
            ),
            Rule::Edge { channel, rise } => has_changed(
                *rise,
                bit_before(before, *channel as usize),
                now.status().get(*channel as usize).copied(),
            ),
        }
    }

    /// Whether the layout has the channel that the rule names.
    #[tactic(auto, unfolding(crate::specs::Firing::names_channel))]
    pub(crate) fn names_channel<A: Allocator>(&self, layout: &Layout<A>) -> bool
        ensures { result ≡ names_channel layout.now self.now }
    {
        self.names_one_of(layout.analog().len(), layout.status().len())
    }

    fn names_one_of(&self, readings: usize, bits: usize) -> bool
        ensures { result ≡ names_one_of readings bits self.now }
    {
        match self {
            Rule::Level { channel, .. } => (*channel as usize) < readings,
            Rule::Edge { channel, .. } => (*channel as usize) < bits,
        }
    }
}
