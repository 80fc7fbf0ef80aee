//! Reads what a pair means that reads exactly, but whose own signs show that it means something else.

use crate::check::Pair;
use crate::importing::{Repaired, repaired_pair};
use crate::silent::Refusal;
use comtrade_dialects::{Choices, ImportFault, Key, Note, is_sound};
use comtrade_format::{File, Head, Rate, Row};
use comtrade_values::Items;
use dfr_channels::{AnalogChannel, StatusChannel};
use std::alloc::{AllocError, Allocator};

/// Whose texts a repaired file has.
#[derive(Clone, Copy, Debug, PartialEq, Eq)]
pub enum Texts {
    /// Those of the pair, byte for byte.
    Literal,
    /// Those that `import` writes, in ASCII.
    Imported,
}

/// What a pair means that reads exactly.
#[derive(Drop)]
pub enum Intended<A: Allocator> {
    /// What it reads as.
    Literal(File<A>),
    /// The file that `import` makes of it, and notes on the repairs and on what is odd.
    Repaired(File<A>, Vec<Note<A>, A>),
    /// Unknown: what it reads as, and why `import` cannot read it.
    Unclear(File<A>, Refusal),
}

/// Whether a repair is one of texts.
fn is_of_texts(key: Key) -> bool {
    matches!(
        key,
        Key::TextsNotAscii
            | Key::TextLong
            | Key::TextNul
            | Key::PhaseLong
            | Key::UnitEmpty
            | Key::TextComma
            | Key::IdsAlike
    )
}

/// The notes without those on texts.
fn without_texts<A: Allocator + Copy>(
    alloc: A,
    notes: Vec<Note<A>, A>,
) -> Result<Vec<Note<A>, A>, AllocError> {
    let mut kept = Vec::new(alloc);
    for note in notes {
        if !is_of_texts(note.key()) {
            kept.push(note)?;
        }
    }
    Ok(kept)
}

/// Analogue channels with the texts of others.
fn renamed_analog<A: Allocator>(
    list: Items<AnalogChannel<A>, A>,
    others: Items<AnalogChannel<A>, A>,
) -> Items<AnalogChannel<A>, A> {
    let mut channels = list.into_vec();
    for (channel, other) in channels.iter_mut().zip(others.into_vec()) {
        channel.id = other.id;
        channel.phase = other.phase;
        channel.component = other.component;
        channel.unit = other.unit;
    }
    Items::of(channels)
}

/// Status channels with the texts of others.
fn renamed_status<A: Allocator>(
    list: Items<StatusChannel<A>, A>,
    others: Items<StatusChannel<A>, A>,
) -> Items<StatusChannel<A>, A> {
    let mut channels = list.into_vec();
    for (channel, other) in channels.iter_mut().zip(others.into_vec()) {
        channel.id = other.id;
        channel.phase = other.phase;
        channel.component = other.component;
    }
    Items::of(channels)
}

/// A file with the texts of a head that has as many channels.
fn renamed<A: Allocator>(file: File<A>, literal: Head<A>) -> File<A> {
    let File { head, rows } = file;
    let analog = renamed_analog(head.analog, literal.analog);
    let status = renamed_status(head.status, literal.status);
    let head = Head {
        station: literal.station,
        device: literal.device,
        analog,
        status,
        ..head
    };
    File { head, rows }
}

/// Whether both heads have the same numbers of channels.
fn are_alike<A: Allocator>(one: &Head<A>, other: &Head<A>) -> bool {
    one.analog.items().len() == other.analog.items().len()
        && one.status.items().len() == other.status.items().len()
}

/// Whether two channels give the same values.
fn is_same_channel<A: Allocator>(one: &AnalogChannel<A>, other: &AnalogChannel<A>) -> bool {
    one.a == other.a
        && one.b == other.b
        && one.skew == other.skew
        && one.min == other.min
        && one.max == other.max
        && one.primary == other.primary
        && one.secondary == other.secondary
        && one.side == other.side
}

/// Whether two rates give the same times.
fn is_same_rate(one: &Rate, other: &Rate) -> bool {
    one.samp == other.samp && one.endsamp == other.endsamp
}

/// Whether two heads give the same values and times.
fn is_same_head<A: Allocator>(one: &Head<A>, other: &Head<A>) -> bool {
    let channels = one.analog.items().iter().zip(other.analog.items().iter());
    for (channel, same) in channels {
        if !is_same_channel(channel, same) {
            return false;
        }
    }
    for (rate, same) in one.rates.items().iter().zip(other.rates.items().iter()) {
        if !is_same_rate(rate, same) {
            return false;
        }
    }
    are_alike(one, other)
        && one.rates.items().len() == other.rates.items().len()
        && one.nrates == other.nrates
        && one.first == other.first
        && one.trigger == other.trigger
        && one.timemult == other.timemult
}

/// Whether two rows have the same content. `has_rates` if the first one needs no stamp.
fn is_same_row<A: Allocator>(one: &Row<A>, other: &Row<A>, has_rates: bool) -> bool {
    one.number == other.number
        && one.values == other.values
        && one.bits == other.bits
        && (one.stamp == other.stamp || has_rates && one.stamp.is_none())
}

/// Whether a repair changed no value and no time, such as one of a row without a stamp at a rate.
fn is_same<A: Allocator>(one: &File<A>, other: &File<A>) -> bool {
    if one.rows.items().len() != other.rows.items().len() || !is_same_head(&one.head, &other.head) {
        return false;
    }
    let has_rates = one.head.nrates != 0;
    for (row, same) in one.rows.items().iter().zip(other.rows.items().iter()) {
        if !is_same_row(row, same, has_rates) {
            return false;
        }
    }
    true
}

/// The repaired file of a pair that reads to `literal`. That file itself if they have the same
/// values and times, with the notes on what is odd in it.
fn repaired_as<A: Allocator + Copy>(
    alloc: A,
    repaired: Repaired<A>,
    literal: File<A>,
    texts: Texts,
) -> Result<Intended<A>, AllocError> {
    let Repaired { file, notes, .. } = repaired;
    if texts == Texts::Imported || !are_alike(&file.head, &literal.head) {
        return Ok(Intended::Repaired(file, notes));
    }
    let notes = without_texts(alloc, notes)?;
    if !is_same(&literal, &file) {
        return Ok(Intended::Repaired(renamed(file, literal.head), notes));
    }
    if notes.is_empty() {
        return Ok(Intended::Literal(literal));
    }
    Ok(Intended::Repaired(literal, notes))
}

/// What a pair means that reads exactly to this file: the same, unless a sign in the pair shows
/// otherwise, such as samples in the other byte order. It is then repaired as `import` repairs it.
pub fn intended_of<A: Allocator + Copy>(
    alloc: A,
    pair: Pair<'_>,
    file: File<A>,
    texts: Texts,
) -> Result<Intended<A>, AllocError> {
    if is_sound(alloc, &file, pair.dat)? {
        return Ok(Intended::Literal(file));
    }
    match repaired_pair(alloc, pair.cfg, pair.dat, Choices::default()) {
        Ok(meant) => repaired_as(alloc, meant, file, texts),
        Err(Refusal::Fault(ImportFault::Memory)) => Err(AllocError),
        Err(fault) => Ok(Intended::Unclear(file, fault)),
    }
}
