//! Runs of steps: one that is stopped goes on to the same answers.

use crate::refused::recorder::is_the_record;
use crate::refused::refusing::{Outcome, memory_if, right_if};
use crate::steps::Start;
use dfr_recorder::{Answer, Ran, Recorder, Step, run};
use std::alloc::Allocator;
use std::collections::VecDeque;

fn is_last<A: Allocator>(answers: &[Answer<A>]) -> bool {
    match answers.last() {
        Some(Answer::Take(Some(record))) => is_the_record(record),
        _ => false,
    }
}

/// The run made the last of eight steps, of which others were made before.
fn ends<A: Allocator>(ran: Ran<A>, before: usize) -> bool {
    let right = ran.stopped.is_none()
        && ran.answers.len().checked_add(before) == Some(8)
        && is_last(&ran.answers);
    drop(ran);
    right
}

fn with_first<A: Allocator>(
    step: Step<A>,
    rest: VecDeque<Step<A>, A>,
) -> Option<VecDeque<Step<A>, A>> {
    let mut steps = rest;
    if steps.push_front(step).is_ok() {
        Some(steps)
    } else {
        None
    }
}

fn is_ended<A: Allocator + Copy>(
    alloc: A,
    recorder: Recorder<A>,
    steps: Option<VecDeque<Step<A>, A>>,
    before: usize,
) -> bool {
    match steps {
        Some(steps) => ends(run(alloc, recorder, steps), before),
        None => {
            drop(recorder);
            false
        }
    }
}

/// The answers of all eight steps.
fn are_all<A: Allocator>(answers: Vec<Answer<A>, A>) -> bool {
    let all = answers.len() == 8 && is_last(&answers);
    drop(answers);
    all
}

/// A run. Where it is stopped it goes on from the step at which it was.
pub fn goes_on<A: Allocator + Copy>(alloc: A, of: Start<A>) -> Outcome {
    let Ran {
        recorder,
        answers,
        stopped,
        rest,
    } = run(alloc, of.recorder, of.steps);
    match stopped {
        Some(step) => {
            let before = answers.len();
            drop(answers);
            memory_if(is_ended(alloc, recorder, with_first(step, rest), before))
        }
        None => {
            drop(recorder);
            drop(rest);
            right_if(are_all(answers))
        }
    }
}
