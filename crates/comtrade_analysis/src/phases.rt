//! Which phase an analogue channel measures.

ghost use Rattle.std.specs.Prelude.{◌≡◌};
ghost use Rattle.comtrade_analysis.specs.Phases as spec;

use comtrade_values::trim;
use dfr_channels::AnalogChannel;
use std::alloc::Allocator;

/// A phase, or the neutral.
#[derive(Clone, Copy, Debug, PartialEq, Eq)]
pub enum Phase {
    A,
    B,
    C,
    Neutral,
}

/// The phase that a letter or a digit stands for.
fn letter_phase(letter: u8) -> Option<Phase>
    ensures { result ≡ spec.letter_phase letter }
{
    if b"AaRr1".contains(&letter) {
        Some(Phase::A)
    } else if b"BbSs2".contains(&letter) {
        Some(Phase::B)
    } else if b"CcTt3".contains(&letter) {
        Some(Phase::C)
    } else if b"NnEeGg0".contains(&letter) {
        Some(Phase::Neutral)
    } else {
        None
    }
}

/// The text without its first byte, if it is one of these and more follows.
fn without_first<'a>(letters: &[u8], text: &'a [u8]) -> &'a [u8]
    ensures { result.now ≡ spec.without_first letters.now text.now }
{
    if text.len() < 2 || !letters.contains(&text[0]) {
        text
    } else {
        &text[1..]
    }
}

/// The text without its last byte, if it is one of these and more stands before it.
fn without_last<'a>(letters: &[u8], text: &'a [u8]) -> &'a [u8]
    ensures { result.now ≡ spec.without_last letters.now text.now }
{
    if text.len() < 2 || !letters.contains(&text[text.len() - 1]) {
        text
    } else {
        &text[..text.len() - 1]
    }
}

/// The phase in a name as `A`, `UA`, `L1`, `IL1`, `AN`, `L1-E` or `IN`; None in any other text.
fn phase_in(name: &[u8]) -> Option<Phase>
    ensures { result ≡ spec.phase_in name.now }
{
    let name = without_first(b"Ll", without_first(b"UuVvIi", trim(name)));
    let name = without_last(b"-", without_last(b"NnEeGg", name));
    if name.len() == 1 {
        letter_phase(name[0])
    } else {
        None
    }
}

/// The phase that a channel measures: by its phase field, and by its id where that field is blank.
pub fn phase_of<A: Allocator>(channel: &AnalogChannel<A>) -> Option<Phase>
    ensures { result ≡ spec.phase_of channel.now }
{
    if trim(channel.phase.items()).is_empty() {
        phase_in(channel.id.items())
    } else {
        phase_in(channel.phase.items())
    }
}
