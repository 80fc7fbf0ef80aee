//! Calls of a token whose allocations are refused.

use crate::refused::common::Heap;
use crate::refused::recorder::was_the_record;
use crate::refused::refusing::{Outcome, Trial, goes_on, memory_if, right_if};
use dfr_channels::Memory;
use dfr_live::{End, Session, Shared, Token};
use dfr_recorder::{Hit, TriggerFault};
use std::alloc::Allocator;
use std::sync::Wait;

/// A call of a token.
#[derive(Clone, Copy)]
pub enum Call {
    /// One scan step.
    Pump,
    Trigger(Result<Hit, TriggerFault>),
    /// A take that gives the record, or none.
    Take(bool),
}

/// A call that is made until its allocations are granted. Where one is refused, the token has made as many calls as before.
#[derive(Drop)]
struct Calling<'r, N: Session<A>, R, A: Allocator> {
    rt: &'r R,
    shared: &'r Shared<N, A>,
    token: &'r mut Token<A>,
    call: Call,
}

fn pump<N: Session<A>, R: Wait, A: Allocator + Copy>(
    rt: &R,
    shared: &Shared<N, A>,
    token: &mut Token<A>,
) -> Outcome {
    let before = token.pumped();
    let pumped = shared.pump(rt, token, 1);
    match pumped.stopped {
        End::Most => right_if(pumped.scans == 1),
        End::Memory => memory_if(pumped.scans == 0 && token.pumped() == before),
        _ => Outcome::Wrong,
    }
}

fn trigger<N: Session<A>, R: Wait, A: Allocator + Copy>(
    rt: &R,
    shared: &Shared<N, A>,
    token: &mut Token<A>,
    wanted: Result<Hit, TriggerFault>,
) -> Outcome {
    let before = token.made().len();
    match shared.trigger(rt, token) {
        Err(TriggerFault::Memory) => memory_if(token.made().len() == before),
        answer => right_if(answer == wanted),
    }
}

fn take<N: Session<A>, R: Wait, A: Allocator + Copy>(
    rt: &R,
    shared: &Shared<N, A>,
    token: &mut Token<A>,
    gives: bool,
) -> Outcome {
    let before = token.made().len();
    match shared.take(rt, token) {
        Ok(Some(record)) => right_if(was_the_record(record) && gives),
        Ok(None) => right_if(!gives),
        Err(Memory) => memory_if(token.made().len() == before),
    }
}

impl<N: Session<A>, R: Wait, A: Allocator + Copy> Trial for Calling<'_, N, R, A> {
    fn call(&mut self) -> Outcome {
        match self.call {
            Call::Pump => pump(self.rt, self.shared, self.token),
            Call::Trigger(wanted) => trigger(self.rt, self.shared, self.token, wanted),
            Call::Take(gives) => take(self.rt, self.shared, self.token, gives),
        }
    }
}

/// Each allocation of the call is refused in turn; `allocates` says whether it needs one, where that is said.
pub fn is_called<N: Session<A>, R: Wait, A: Allocator + Copy>(
    rt: &R,
    heap: Heap,
    shared: &Shared<N, A>,
    token: &mut Token<A>,
    call: Call,
    allocates: Option<bool>,
) -> bool {
    let mut calling = Calling {
        rt,
        shared,
        token,
        call,
    };
    goes_on(heap, &mut calling, allocates)
}
