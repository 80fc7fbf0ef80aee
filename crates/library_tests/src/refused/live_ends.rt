//! Rules that are set on a recorder that threads share, and its end.

use crate::refused::common::{Heap, lawful};
use crate::refused::refusing::{Outcome, Trial, goes_on, memory_if, put_back, right_if};
use dfr_channels::Rules;
use dfr_live::{EndFault, Ended, Inner, Left, RulesRefusal, Session, Shared, Source, Token, end};
use std::alloc::Allocator;
use std::sync::Wait;

/// Rules that are set. Where one of their copies is refused they come back, and no call was made.
#[derive(Drop)]
struct Setting<'r, N: Session<A>, R, A: Allocator> {
    rt: &'r R,
    shared: &'r Shared<N, A>,
    token: &'r mut Token<A>,
    next: Option<Rules<A>>,
}

fn set<N: Session<A>, R: Wait, A: Allocator + Copy>(
    rt: &R,
    shared: &Shared<N, A>,
    token: &mut Token<A>,
    rules: Rules<A>,
    place: &mut Option<Rules<A>>,
) -> Outcome {
    let before = token.made().len();
    match shared.set_rules(rt, token, rules) {
        Ok(()) => right_if(token.made().len() == before.saturating_add(1)),
        Err((fault, back)) => {
            put_back(place, back);
            memory_if(fault == RulesRefusal::Memory && token.made().len() == before)
        }
    }
}

impl<N: Session<A>, R: Wait, A: Allocator + Copy> Trial for Setting<'_, N, R, A> {
    fn call(&mut self) -> Outcome {
        match self.next.take() {
            Some(rules) => set(self.rt, self.shared, self.token, rules, &mut self.next),
            None => Outcome::Wrong,
        }
    }
}

pub fn sets_rules<N: Session<A>, R: Wait, A: Allocator + Copy>(
    rt: &R,
    heap: Heap,
    alloc: A,
    shared: &Shared<N, A>,
    token: &mut Token<A>,
) -> bool {
    let mut setting = Setting {
        rt,
        shared,
        token,
        next: lawful(alloc),
    };
    goes_on(heap, &mut setting, Some(true))
}

/// What an end is made of.
pub type Parts<N, A> = (Inner<N, A>, Source<N, A>, Vec<Token<A>, A>);

/// What an end leaves: so many calls, the losses of the one scan that is left, or no scan, and so many accepted scans.
#[derive(Clone, Copy)]
pub struct Leaving {
    pub calls: usize,
    pub lost: Option<u32>,
    pub scans: u64,
}

/// An end. Where there is no memory for it all three come back.
#[derive(Drop)]
struct Ending<N: Session<A>, A: Allocator> {
    alloc: A,
    leaving: Leaving,
    parts: Option<Parts<N, A>>,
}

fn is_left<A: Allocator>(left: &[Left<A>], lost: Option<u32>) -> bool {
    match left {
        [] => lost.is_none(),
        [item] => lost == Some(item.lost),
        _ => false,
    }
}

/// What ended is let go.
fn is_ended<A: Allocator>(ended: Ended<A>, leaving: Leaving) -> bool {
    let right = ended.log.len() == leaving.calls
        && is_left(&ended.left, leaving.lost)
        && ended.recorder.scans() == leaving.scans;
    drop(ended);
    right
}

/// Where the end is refused its parts come back to their place.
fn ending_of<N: Session<A>, A: Allocator + Copy>(
    alloc: A,
    parts: Parts<N, A>,
    leaving: Leaving,
    place: &mut Option<Parts<N, A>>,
) -> Outcome {
    let (inner, source, tokens) = parts;
    match end(alloc, inner, source, tokens) {
        Ok(ended) => right_if(is_ended(ended, leaving)),
        Err((fault, inner, source, tokens)) => {
            put_back(place, (inner, source, tokens));
            memory_if(fault == EndFault::Memory)
        }
    }
}

impl<N: Session<A>, A: Allocator + Copy> Trial for Ending<N, A> {
    fn call(&mut self) -> Outcome {
        match self.parts.take() {
            Some(parts) => ending_of(self.alloc, parts, self.leaving, &mut self.parts),
            None => Outcome::Wrong,
        }
    }
}

pub fn ends<N: Session<A>, A: Allocator + Copy>(
    heap: Heap,
    alloc: A,
    parts: Parts<N, A>,
    leaving: Leaving,
) -> bool {
    let mut ending = Ending {
        alloc,
        leaving,
        parts: Some(parts),
    };
    goes_on(heap, &mut ending, Some(true))
}
