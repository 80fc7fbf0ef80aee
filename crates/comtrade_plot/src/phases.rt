//! The colours and line styles of channels.

use dfr_channels::AnalogChannel;
use std::alloc::Allocator;

/// A colour with its line style: those of the phases A, B, C and N, and four for channels without a
/// phase.
#[derive(Clone, Copy, PartialEq, Eq)]
pub(crate) enum Hue {
    A,
    B,
    C,
    N,
    First,
    Second,
    Third,
    Fourth,
}

/// The letter of a channel's phase. A channel without one takes it from a short name such as IA or
/// UL1, if it has one.
fn letter_of<A: Allocator>(channel: &AnalogChannel<A>) -> Option<u8> {
    let phase = channel.phase.items();
    if let Some(letter) = phase.last() {
        return Some(*letter);
    }
    let id = channel.id.items();
    let first = *id.first()?;
    if id.len() < 2 || 4 < id.len() || !b"IUViuv".contains(&first) {
        return None;
    }
    Some(*id.last()?)
}

/// The hue of a channel's phase by its last letter, if it has one.
pub(crate) fn phase_hue<A: Allocator>(channel: &AnalogChannel<A>) -> Option<Hue> {
    match letter_of(channel)? {
        b'A' | b'a' | b'1' | b'R' | b'r' => Some(Hue::A),
        b'B' | b'b' | b'2' | b'S' | b's' => Some(Hue::B),
        b'C' | b'c' | b'3' | b'T' | b't' => Some(Hue::C),
        b'N' | b'n' | b'G' | b'g' | b'E' | b'e' | b'0' => Some(Hue::N),
        _ => None,
    }
}

/// The hue of a channel without a phase, by its position in the panel.
pub(crate) fn other_hue(place: usize) -> Hue {
    match place {
        0 => Hue::First,
        1 => Hue::Second,
        2 => Hue::Third,
        _ => Hue::Fourth,
    }
}

impl Hue {
    /// Its bit in a set of hues.
    pub(crate) fn bit(self) -> u8 {
        match self {
            Hue::A => 1,
            Hue::B => 2,
            Hue::C => 4,
            Hue::N => 8,
            Hue::First => 16,
            Hue::Second => 32,
            Hue::Third => 64,
            Hue::Fourth => 128,
        }
    }

    /// Its class in the picture's style.
    pub(crate) fn class(self) -> &'static str {
        match self {
            Hue::A => "a",
            Hue::B => "b",
            Hue::C => "c",
            Hue::N => "n",
            Hue::First => "u",
            Hue::Second => "v",
            Hue::Third => "w",
            Hue::Fourth => "z",
        }
    }

    /// Its colour on a light page. A test checks that colours on both pages differ enough, also for
    /// colour-blind readers.
    pub(crate) fn colour(self) -> &'static str {
        match self {
            Hue::A => "#de0d49",
            Hue::B => "#d5820f",
            Hue::C => "#096ac2",
            Hue::N => "#20231f",
            Hue::First => "#0e9578",
            Hue::Second => "#ac7fe3",
            Hue::Third => "#785629",
            Hue::Fourth => "#c28ab1",
        }
    }
}
