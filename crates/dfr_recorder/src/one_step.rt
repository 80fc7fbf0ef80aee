//! Any call of a recorder, made as a step.

use crate::{Answer, LostRefusal, Recorder, ScanRefusal, Step, TriggerFault};
use std::alloc::Allocator;

impl<A: Allocator + Copy> Recorder<A> {
    ghost use Rattle.std.specs.Prelude.{◌≡◌, false, IfOk, IfErr};
    ghost use Rattle.dfr_recorder.specs.Steps.{step_of};
    ghost use Rattle.dfr_recorder.specs.Answers.{answer_of, is_memory};
    ghost use Rattle.dfr_recorder.specs.Kept.{IsStep};
    ghost use Rattle.dfr_recorder.specs.Memory.{WantsMemory};
    ghost use Rattle.dfr_recorder.specs.Run.{IsOwnAnswer};

    /// Makes a step as the call of that name does, and answers it. If an allocation fails, the step
    /// is handed back and nothing changes; only a step that needs memory can fail so. A refused
    /// scan and refused rules are dropped.
    pub fn make(&mut self, step: Step<A>) -> Result<Answer<A>, Step<A>>
        ensures ok { IfOk result (λ answer. IsStep self.old (step_of step) (answer_of answer) self.new) }
        ensures told { IfOk result (λ answer. is_memory (answer_of answer) ≡ false) }
        ensures own { IfOk result (λ answer. IsOwnAnswer self.old.layout (answer_of answer)) }
        ensures opening { (self.new.layout ≡ self.old.layout) × (self.new.limits ≡ self.old.limits) }
        ensures err { IfErr result (λ back. (back ≡ step) × (self.new ≡ self.old)) }
        ensures wanted { IfErr result (λ back. WantsMemory self.old (step_of back)) }
    {
        match step {
            Step::Scan(scan) => match self.scan(scan) {
                Ok(scanned) => Ok(Answer::Scan(Ok(scanned))),
                Err((ScanRefusal::Memory, scan)) => Err(Step::Scan(scan)),
                Err((ScanRefusal::Shape, _)) => Ok(Answer::Scan(Err(ScanRefusal::Shape))),
                Err((ScanRefusal::Range(i), _)) => Ok(Answer::Scan(Err(ScanRefusal::Range(i)))),
                Err((ScanRefusal::ClockEnd, _)) => Ok(Answer::Scan(Err(ScanRefusal::ClockEnd))),
            },
            Step::Lost => match self.lost() {
                Ok(scanned) => Ok(Answer::Lost(Ok(scanned))),
                Err(LostRefusal::Memory) => Err(Step::Lost),
                Err(LostRefusal::ClockEnd) => Ok(Answer::Lost(Err(LostRefusal::ClockEnd))),
            },
            Step::Trigger => match self.trigger() {
                Ok(hit) => Ok(Answer::Trigger(Ok(hit))),
                Err(TriggerFault::Memory) => Err(Step::Trigger),
                Err(TriggerFault::NoScan) => Ok(Answer::Trigger(Err(TriggerFault::NoScan))),
                Err(TriggerFault::ShelfFull) => Ok(Answer::Trigger(Err(TriggerFault::ShelfFull))),
                Err(TriggerFault::Covered) => Ok(Answer::Trigger(Err(TriggerFault::Covered))),
            },
            Step::Take => Ok(Answer::Take(self.take())),
            Step::SetRules(rules) => {
                if self.set_rules(rules).is_err() {
                    return Ok(Answer::SetRules(false));
                }
                Ok(Answer::SetRules(true))
            }
        }
    }
}
