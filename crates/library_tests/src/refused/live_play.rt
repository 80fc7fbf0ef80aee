//! The calls of one thread as a list, from opening to end, whose allocations are refused one after the other.

ghost use Rattle.std.specs.Prelude.{◌≡◌};

use crate::live::acts::offers;
use crate::live::ends::opened;
use crate::refused::common::{Heap, scan};
use crate::refused::live_ends::{Leaving, ends, sets_rules};
use crate::refused::recorder::recorder_of;
use crate::refused::token_calls::{Call, is_called};
use dfr_channels::Scan;
use dfr_live::{End, Opened, Session, Shared, Source, Token};
use std::alloc::Allocator;
use std::marker::Brand;
use std::sync::Wait;

/// A call. All but those that say so are made while every allocation is refused.
#[derive(Clone, Copy)]
pub enum Act {
    /// Scans of these values, which the lane takes.
    Offer(&'static [i32]),
    /// A scan of this value, which comes back since the lane is full.
    Full(i32),
    /// A lost scan, the nth since the last one that the lane took.
    Lose(u32),
    /// A pump of so many scan steps: no rule holds and no record is open.
    Idle(u32),
    /// Rules are set, for which each allocation is refused in turn.
    Rules,
    /// A call of the token whose allocations are refused in turn, and whether it needs one, where that is said.
    Token(Call, Option<bool>),
}

/// A lane, whether records share scans, lists of the calls of the one token and of the source, and what their end leaves.
#[derive(Clone, Copy)]
pub struct Play<'p> {
    pub lane: usize,
    pub is_shared: bool,
    pub acts: &'p [&'p [Act]],
    pub leaving: Leaving,
}

fn is_offered<N: Session<A>, A: Allocator + Copy>(
    heap: Heap,
    source: &mut Source<N, A>,
    scan: Option<Scan<A>>,
    full: Option<i32>,
) -> bool {
    heap.refuse_all();
    let offered = offers(source, scan, full);
    heap.refuse_none();
    offered
}

fn are_offered<N: Session<A>, A: Allocator + Copy>(
    heap: Heap,
    alloc: A,
    source: &mut Source<N, A>,
    values: &[i32],
) -> bool {
    for x in values {
        if !is_offered(heap, source, scan(alloc, *x, false), None) {
            return false;
        }
    }
    true
}

fn loses<N: Session<A>, A: Allocator>(heap: Heap, source: &mut Source<N, A>, n: u32) -> bool {
    heap.refuse_all();
    let counted = source.lose() == Ok(n) && source.lost() == n;
    heap.refuse_none();
    counted
}

fn idles<N: Session<A>, R: Wait, A: Allocator + Copy>(
    rt: &R,
    heap: Heap,
    shared: &Shared<N, A>,
    token: &mut Token<A>,
    scans: u32,
) -> bool {
    heap.refuse_all();
    let pumped = shared.pump(rt, token, scans);
    heap.refuse_none();
    pumped.scans == scans && pumped.stopped == End::Most
}

/// What the calls work on.
#[derive(Drop)]
struct Desk<'r, N: Session<A>, R, A: Allocator> {
    rt: &'r R,
    heap: Heap<'r>,
    alloc: A,
    shared: &'r Shared<N, A>,
    source: &'r mut Source<N, A>,
    token: &'r mut Token<A>,
}

fn is_made<N: Session<A>, R: Wait, A: Allocator + Copy>(
    desk: &mut Desk<N, R, A>,
    act: Act,
) -> bool {
    let (rt, heap, alloc, shared) = (desk.rt, desk.heap, desk.alloc, desk.shared);
    match act {
        Act::Offer(values) => are_offered(heap, alloc, desk.source, values),
        Act::Full(x) => is_offered(heap, desk.source, scan(alloc, x, false), Some(x)),
        Act::Lose(n) => loses(heap, desk.source, n),
        Act::Idle(scans) => idles(rt, heap, shared, desk.token, scans),
        Act::Rules => sets_rules(rt, heap, alloc, shared, desk.token),
        Act::Token(call, allocates) => is_called(rt, heap, shared, desk.token, call, allocates),
    }
}

fn are_made<N: Session<A>, R: Wait, A: Allocator + Copy>(
    desk: &mut Desk<N, R, A>,
    acts: &[Act],
) -> bool {
    for act in acts {
        if !is_made(desk, *act) {
            return false;
        }
    }
    true
}

fn calls<N: Session<A>, R: Wait, A: Allocator + Copy>(
    desk: &mut Desk<N, R, A>,
    lists: &[&[Act]],
) -> bool {
    for acts in lists {
        if !are_made(desk, acts) {
            return false;
        }
    }
    true
}

fn plays<'x, N: Session<A>, R: Wait, A: Allocator + Copy>(
    rt: &'x R,
    heap: Heap<'x>,
    alloc: A,
    opened: Opened<A>,
    play: Play,
) -> bool
    requires { (opened.opening ≡ N.opening) × (opened.lane ≡ N.lane)
        × (opened.seats ≡ N.seats) }
{
    let (shared, mut source, mut tokens) = opened.share::<N>();
    let called = match tokens.as_mut_slice() {
        [token] => {
            let mut desk = Desk {
                rt,
                heap,
                alloc,
                shared: &shared,
                source: &mut source,
                token,
            };
            calls(&mut desk, play.acts)
        }
        _ => false,
    };
    ends(heap, alloc, (shared.unlock(), source, tokens), play.leaving) && called
}

/// The allocator is the heap.
pub fn is_played<'x, R: Wait, A: Allocator + Copy>(
    rt: &'x R,
    heap: Heap<'x>,
    alloc: A,
    play: Play,
) -> bool {
    match opened(alloc, recorder_of(alloc, play.is_shared), play.lane, 1) {
        Some(opened) => plays::<Brand, R, A>(rt, heap, alloc, opened, play),
        None => false,
    }
}
