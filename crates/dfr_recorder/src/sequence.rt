//! A list of steps, made in order.

ghost use Rattle.std.specs.Prelude.{◌≡◌, ◌≢◌, ◌≤◌, ◌++◌, [], None, false, IfSome, length, map, take, option_to_list, vec_capacity};
ghost use Rattle.std.specs.List.{All};
ghost use Rattle.dfr_recorder.specs.Steps.{step_of};
ghost use Rattle.dfr_recorder.specs.Answers.{answer_of, is_memory};
ghost use Rattle.dfr_recorder.specs.Memory.{WantsMemory};
ghost use Rattle.dfr_recorder.specs.Run.{IsRun, IsOwnAnswer};

use crate::{Answer, Recorder, Step};
use std::alloc::{Allocator, Global};
use std::collections::VecDeque;

/// What a run leaves.
#[derive(Drop)]
pub struct Ran<A: Allocator = Global> {
    /// The recorder after the steps that were made.
    pub recorder: Recorder<A>,
    /// An answer to each step that was made, in order.
    pub answers: Vec<Answer<A>, A>,
    /// The step that was not made because an allocation failed.
    pub stopped: Option<Step<A>>,
    /// The steps after that one.
    pub rest: VecDeque<Step<A>, A>,
}

/// Makes the steps in order. Room for all answers is reserved first. If an allocation fails, the
/// run stops before that step: before the first if the room can't be reserved, later only at a step
/// that needs memory. Taking a record and setting rules never need any. The recorder keeps its
/// layout and its limits, and each record that a step takes matches the layout.
pub fn run<A: Allocator + Copy>(
    alloc: A,
    recorder: Recorder<A>,
    steps: VecDeque<Step<A>, A>,
) -> Ran<A>
    ensures list { take (length result.answers.items) steps.items ++ option_to_list result.stopped ++ result.rest.items ≡ steps.items }
    ensures run { IsRun recorder (map step_of (take (length result.answers.items) steps.items)) (map answer_of result.answers.items) result.recorder }
    ensures told { All (λ answer. is_memory (answer_of answer) ≡ false) result.answers.items }
    ensures own { All (λ answer. IsOwnAnswer result.recorder.layout (answer_of answer)) result.answers.items }
    ensures opening { (result.recorder.layout ≡ recorder.layout) × (result.recorder.limits ≡ recorder.limits) }
    ensures whole { result.stopped ≡ None → result.rest.items ≡ [] }
    ensures wanted { result.answers.items ≢ [] → IfSome result.stopped (λ step. WantsMemory result.recorder (step_of step)) }
    ensures room { length steps.items ≤ vec_capacity result.answers → IfSome result.stopped (λ step. WantsMemory result.recorder (step_of step)) }
{
    let mut recorder = recorder;
    let mut rest = steps;
    let mut answers = Vec::new(alloc);
    if answers.reserve(rest.len()).is_err() {
        let stopped = rest.pop_front();
        return Ran {
            recorder,
            answers,
            stopped,
            rest,
        };
    }
    while let Some(step) = rest.pop_front() {
        match recorder.make(step) {
            Ok(answer) => answers.push_reserved(answer),
            Err(step) => {
                return Ran {
                    recorder,
                    answers,
                    stopped: Some(step),
                    rest,
                };
            }
        }
    }
    Ran {
        recorder,
        answers,
        stopped: None,
        rest,
    }
}
