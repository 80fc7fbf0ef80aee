//! Whether channels belong to one bay, by their names.

ghost use Rattle.std.specs.Prelude.{◌≤◌, ◌+◌, length};

use dfr_channels::AnalogChannel;
use std::alloc::Allocator;

/// How well a channel goes with another.
#[derive(Clone, Copy, PartialEq, Eq)]
pub(crate) enum Likeness {
    /// Not at all.
    None,
    /// Nothing indicates different bays.
    Loose,
    /// Their names differ only in their phases.
    Close,
}

/// The length of the common prefix of two names, in bytes.
fn common_front(one: &[u8], other: &[u8]) -> usize
    ensures first { result ≤ length one.now }
    ensures second { result ≤ length other.now }
{
    let most = one.len().min(other.len());
    for i in 0..most {
        if one[i] != other[i] {
            return i;
        }
    }
    most
}

/// The length of the common suffix of two names, in bytes.
fn common_end(one: &[u8], other: &[u8]) -> usize {
    one.iter()
        .rev()
        .zip(other.iter().rev())
        .take_while(|(a, b)| a == b)
        .count()
}

/// A name without this many bytes at its beginning and at its end.
fn middle(name: &[u8], front: usize, end: usize) -> &[u8]
    requires { front + end ≤ length name.now }
{
    &name[front..name.len() - end]
}

/// Whether a part of a name is that of a phase.
fn is_of_phase(part: &[u8], phase: &[u8]) -> bool {
    if phase.is_empty() {
        return part.len() <= 1;
    }
    part.eq_ignore_ascii_case(phase)
        || match (part, phase.last()) {
            ([one], Some(last)) => one.eq_ignore_ascii_case(last),
            _ => false,
        }
}

fn differ_in_phase<A: Allocator>(one: &AnalogChannel<A>, other: &AnalogChannel<A>) -> bool {
    let (first, second) = (one.id.items(), other.id.items());
    let front = common_front(first, second);
    let end = common_end(first, second).min(first.len().min(second.len()) - front);
    is_of_phase(middle(first, front, end), one.phase.items())
        && is_of_phase(middle(second, front, end), other.phase.items())
}

fn is_separator(b: u8) -> bool {
    b" _-.:/".contains(&b)
}

/// The first and the last word of a name; None if it has only one.
fn outer_words(name: &[u8]) -> Option<(&[u8], &[u8])> {
    let first = name.iter().position(|b| is_separator(*b))?;
    let last = name.iter().rposition(|b| is_separator(*b))?;
    Some((name.get(..first)?, name.get(last..)?))
}

/// How well two channels go together. Those with different units, components or sides do not.
pub(crate) fn likeness_of<A: Allocator>(
    one: &AnalogChannel<A>,
    other: &AnalogChannel<A>,
) -> Likeness {
    if one.unit.items() != other.unit.items()
        || one.component.items() != other.component.items()
        || one.side != other.side
    {
        return Likeness::None;
    }
    if differ_in_phase(one, other) {
        return Likeness::Close;
    }
    let share_a_word = match (outer_words(one.id.items()), outer_words(other.id.items())) {
        (Some(words), Some(others)) => words.0 == others.0 || words.1 == others.1,
        _ => true,
    };
    if share_a_word || !one.component.items().is_empty() {
        return Likeness::Loose;
    }
    Likeness::None
}
