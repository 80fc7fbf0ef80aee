//! Which samples a note on a repair covers: where what is written may differ from the data.

ghost use Rattle.std.specs.Prelude.{◌≡◌, ◌↔◌, IsTrue};
ghost use Rattle.comtrade_diagnostics.specs.Told as spec;

use comtrade_dialects::Key;
use comtrade_values::Items;
use dfr_channels::Reading;
use std::alloc::{Allocator, Global};
use std::marker::Model;

/// Which samples a note of a kind covers.
#[derive(Clone, Copy, Debug, PartialEq, Eq)]
pub enum Scope {
    /// None: it says how the data are read, or speaks of other things.
    Nothing,
    /// All samples of the channels that it names.
    Channels,
    /// In the rows that it names, samples that become missing.
    Rows,
    /// All samples of the channels that have a sample that no file of 1999 can hold as it is.
    Unfit,
}

/// A note on a repair: its kind, and the channels or rows that it names, counted from 0.
#[derive(Drop, Debug)]
pub struct Said<A: Allocator = Global> {
    pub key: Key,
    pub named: Items<usize, A>,
    /// If the note was cut short, the last number in it: it stands for all later ones too.
    pub past: Option<usize>,
}

impl<A: Allocator> Model for Said<A> {
    ghost use Rattle.comtrade_diagnostics.specs.Parts.{SaidParts};

    ghost Value = { SaidParts };

    ghost view = { λ s. record { key = s.key; named = s.named; past = s.past } };
}

/// Which samples notes of this kind cover.
fn scope_of(key: Key) -> Scope
    ensures { result ≡ spec.scope key }
{
    match key {
        Key::ValuesWide | Key::ValuesUnsigned | Key::ValuesRounded => Scope::Channels,
        Key::MissingMarks => Scope::Rows,
        Key::ValuesDecimal | Key::KindFloat32 => Scope::Unfit,
        _ => Scope::Nothing,
    }
}

impl<A: Allocator> Said<A> {
    /// Whether the note names this channel or row, counted from 0.
    fn names(&self, number: usize) -> bool
        ensures { IsTrue result ↔ spec.Names self.now number }
    {
        if self.named.items().contains(&number) {
            return true;
        }
        match self.past {
            Some(last) => last < number,
            None => false,
        }
    }

    /// Whether the note covers the sample in this row and channel, counted from 0. In `unfit`: for
    /// each channel, whether it has a sample that no file of 1999 can hold as it is.
    fn covers(&self, place: (usize, usize), written: Reading, unfit: &[bool]) -> bool
        ensures { IsTrue result ↔ spec.Covers unfit.now place.0 place.1 written self.now }
    {
        let (row, channel) = place;
        match scope_of(self.key) {
            Scope::Nothing => false,
            Scope::Channels => self.names(channel),
            Scope::Rows => written == Reading::Missing && self.names(row),
            Scope::Unfit => unfit.get(channel).copied() == Some(true),
        }
    }
}

/// Whether one of the notes covers the sample in this row and channel, as [`Said::covers`].
pub fn is_told<A: Allocator>(
    notes: &[Said<A>],
    place: (usize, usize),
    written: Reading,
    unfit: &[bool],
) -> bool
    ensures { IsTrue result ↔ spec.IsTold notes.now unfit.now place.0 place.1 written }
{
    for note in notes {
        if note.covers(place, written, unfit) {
            return true;
        }
    }
    false
}
