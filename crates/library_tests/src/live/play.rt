//! The calls of one thread, played from opening to end.

ghost use Rattle.std.specs.Prelude.{◌≡◌};

use crate::bay::{Bay, recorder};
use crate::live::acts::{Act, are_entries, are_made};
use crate::live::ends::{ended, opened};
use crate::live::station::STATION;
use crate::steps::is_value;
use dfr_live::{Ended, Left, Opened, Session, Shared, Source, Token};
use std::alloc::Global;
use std::marker::Brand;
use std::sync::Wait;

/// A lane, a shelf, whether records share scans, lists of the calls of the one token and of the source, the entries that they leave,
/// the scans that are left in the lane by their losses and values, and how many scans were accepted.
#[derive(Clone, Copy)]
pub struct Play<'a> {
    pub lane: usize,
    pub shelf: u32,
    pub is_shared: bool,
    pub acts: &'a [&'a [Act]],
    pub entries: &'a [(u64, Act)],
    pub left: &'a [(u32, i32)],
    pub scans: u64,
}

fn are_left(left: &[Left], wanted: &[(u32, i32)]) -> bool {
    left.len() == wanted.len()
        && left.iter().zip(wanted).all(|(item, (lost, x))| item.lost == *lost
            && is_value(&item.scan, *x))
}

fn is_ended(ended: &Ended, play: Play) -> bool {
    are_entries(&ended.log, 0, play.entries)
        && are_left(&ended.left, play.left)
        && ended.recorder.scans() == play.scans
}

fn ends<N: Session<Global>>(
    alloc: Global,
    shared: Shared<N>,
    source: Source<N>,
    tokens: Vec<Token>,
    play: Play,
) -> bool {
    match ended(alloc, shared.unlock(), source, tokens) {
        Some(ended) => is_ended(&ended, play),
        None => false,
    }
}

/// The one token makes the calls, and keeps their entries.
fn is_called<N: Session<Global>>(
    rt: &impl Wait,
    alloc: Global,
    (shared, source): (&Shared<N>, &mut Source<N>),
    tokens: &mut [Token],
    play: Play,
) -> bool {
    let [token] = tokens else {
        return false;
    };
    for acts in play.acts {
        if !are_made(rt, alloc, shared, source, token, acts) {
            return false;
        }
    }
    are_entries(token.made(), 0, play.entries)
}

fn plays<N: Session<Global>, R: Wait>(rt: &R, alloc: Global, opened: Opened, play: Play) -> bool
    requires { (opened.opening ≡ N.opening) × (opened.lane ≡ N.lane)
        × (opened.seats ≡ N.seats) }
{
    let (shared, mut source, mut tokens) = opened.share::<N>();
    let called = is_called(rt, alloc, (&shared, &mut source), &mut tokens, play);
    ends(alloc, shared, source, tokens, play) && called
}

pub fn is_played<R: Wait>(rt: &R, alloc: Global, play: Play) -> bool {
    let station = Bay {
        limits: (2, 2, 6, play.shelf),
        is_shared: play.is_shared,
        ..STATION
    };
    match opened(alloc, recorder(alloc, station), play.lane, 1) {
        Some(opened) => plays::<Brand, R>(rt, alloc, opened, play),
        None => false,
    }
}
