//! Calls whose allocations are refused one after the other.

use crate::refused::common::Heap;

/// How a call went.
#[derive(Clone, Copy, Debug, PartialEq, Eq)]
pub enum Outcome {
    /// As with enough memory.
    Right,
    /// `Memory` was answered, and all that it names is as before.
    Memory,
    /// Neither.
    Wrong,
}

/// As with enough memory, if so.
pub fn right_if(so: bool) -> Outcome {
    if so { Outcome::Right } else { Outcome::Wrong }
}

/// Out of memory, if so.
pub fn memory_if(so: bool) -> Outcome {
    if so { Outcome::Memory } else { Outcome::Wrong }
}

/// Whether a refused allocation was answered by `Memory`, and whether another one made up for it.
#[derive(Clone, Copy)]
pub struct Seen {
    pub answered: bool,
    pub made_up: bool,
}

pub const NOTHING: Seen = Seen {
    answered: false,
    made_up: false,
};

/// What was seen before, and this call, of whose allocations one was refused or none; None where it went wrong, or answered
/// `Memory` though none was refused.
fn seen_in(before: Seen, outcome: Outcome, refused: bool) -> Option<Seen> {
    match outcome {
        Outcome::Right => Some(Seen {
            answered: before.answered,
            made_up: before.made_up || refused,
        }),
        Outcome::Memory => refused.then_some(Seen {
            answered: true,
            made_up: before.made_up,
        }),
        Outcome::Wrong => None,
    }
}

/// Notes how a call went, and grants all allocations again. Whether one of the call's was refused; None where it went wrong.
pub fn noted(heap: Heap, seen: &mut Seen, outcome: Outcome) -> Option<bool> {
    let refused = heap.has_refused();
    heap.refuse_none();
    *seen = seen_in(*seen, outcome, refused)?;
    Some(refused)
}

/// Puts what a call gave back where the next call takes it.
pub fn put_back<T: Drop>(place: &mut Option<T>, back: T) {
    *place = Some(back);
}

/// A call that can be made over and over.
pub trait Trial {
    fn call(&mut self) -> Outcome;
}

/// A call that consumes what is made for it each time.
pub trait Consuming {
    type Made: Drop;

    fn make(&self) -> Option<Self::Made>;

    fn call(&self, made: Self::Made) -> Outcome;
}

/// Makes a call with its first allocation refused, then with its second, until none is. None where one of these calls went
/// wrong, or where the call isn't right that is made `again` with enough memory after each refusal.
fn refusals<T: Trial>(heap: Heap, again: bool, trial: &mut T) -> Option<Seen> {
    let mut seen = NOTHING;
    for n in 1..5000u64 {
        heap.refuse(n);
        let outcome = trial.call();
        let refused = heap.has_refused();
        heap.refuse_none();
        seen = seen_in(seen, outcome, refused)?;
        if !refused {
            return Some(seen);
        }
        if again && trial.call() != Outcome::Right {
            return None;
        }
    }
    None
}

/// How the call went whose nth allocation was refused, and whether it had as many.
fn nth<T: Consuming>(heap: Heap, trial: &T, n: u64) -> Option<(Outcome, bool)> {
    let made = trial.make()?;
    heap.refuse(n);
    let outcome = trial.call(made);
    let refused = heap.has_refused();
    heap.refuse_none();
    Some((outcome, refused))
}

fn is_right<T: Consuming>(trial: &T) -> bool {
    match trial.make() {
        Some(made) => trial.call(made) == Outcome::Right,
        None => false,
    }
}

/// As `refusals`, made again after each refusal, of a call that consumes.
fn refusals_anew<T: Consuming>(heap: Heap, trial: &T) -> Option<Seen> {
    let mut seen = NOTHING;
    for n in 1..5000u64 {
        let (outcome, refused) = nth(heap, trial, n)?;
        seen = seen_in(seen, outcome, refused)?;
        if !refused {
            return Some(seen);
        }
        if !is_right(trial) {
            return None;
        }
    }
    None
}

/// What must be seen of refused allocations.
#[derive(Clone, Copy)]
pub enum Must {
    /// Nothing: a fault may be found before an allocation.
    May,
    /// At least one was refused.
    Meet,
    /// At least one was answered by `Memory`.
    Answer,
    /// The same, and none was made up for by another.
    AnswerEach,
}

fn is_seen(seen: Seen, must: Must) -> bool {
    match must {
        Must::May => true,
        Must::Meet => seen.answered || seen.made_up,
        Must::Answer => seen.answered,
        Must::AnswerEach => seen.answered && !seen.made_up,
    }
}

/// Refuses each allocation of a call in turn, which is right once: each refusal is answered by `Memory`, and whether there is one is
/// as wanted, where that is said.
pub fn goes_on<T: Trial>(heap: Heap, trial: &mut T, allocates: Option<bool>) -> bool {
    match refusals(heap, false, trial) {
        Some(seen) => !seen.made_up && allocates.unwrap_or(seen.answered) == seen.answered,
        None => false,
    }
}

/// Refuses each allocation of the call in turn, and makes it again after each refusal.
pub fn refuses_lent<T: Trial>(heap: Heap, trial: &mut T, must: Must) -> bool {
    match refusals(heap, true, trial) {
        Some(seen) => is_seen(seen, must),
        None => false,
    }
}

pub fn refuses<T: Trial + Drop>(heap: Heap, trial: Option<T>, must: Must) -> bool {
    match trial {
        Some(mut trial) => refuses_lent(heap, &mut trial, must),
        None => false,
    }
}

/// The same of a call that consumes.
pub fn refuses_anew<T: Consuming + Drop>(heap: Heap, trial: T, must: Must) -> bool {
    match refusals_anew(heap, &trial) {
        Some(seen) => is_seen(seen, must),
        None => false,
    }
}
