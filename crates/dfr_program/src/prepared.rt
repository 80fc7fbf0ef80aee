//! Makes a recorder from a script, and returns the script's commands.

ghost use Rattle.std.specs.Prelude.{◌≡◌, MatchResult, None, map};
ghost use Rattle.dfr_script.specs.Commands.{parts_of};
ghost use Rattle.dfr_program.specs.Faults as spec;

use dfr_recorder::Recorder;
use dfr_script::{
    Command, RecorderFault, RecorderRefusal, RecorderSetup, Script, ScriptFault, ScriptRefusal,
    recorder_of, script_of,
};
use std::alloc::Allocator;

/// What is wrong with a script or its set-up, in the order of the tests.
#[derive(Clone, Copy, PartialEq, Eq)]
pub(crate) enum Fault {
    Script(ScriptFault),
    Recorder(RecorderFault),
    /// The rules on this line, after `go`, do not fit the layout. Only a live run has this error.
    RulesAt(u64),
}

/// Why no recorder could be made.
#[derive(Clone, Copy, PartialEq, Eq)]
pub(crate) enum Refusal {
    Fault(Fault),
    Memory,
}

#[derive(Drop)]
pub(crate) struct Prepared<A: Allocator> {
    pub(crate) recorder: Recorder<A>,
    pub(crate) commands: Vec<Command<A>, A>,
}

/// Makes the recorder that a script describes.
fn prepared_in<A: Allocator + Copy>(alloc: A, script: Script<A>) -> Result<Prepared<A>, Refusal>
    ensures { MatchResult result
        (λ prepared. (spec.set_up_fault script ≡ None)
        × spec.IsMadeOf script prepared.recorder
        × (map parts_of prepared.commands.items ≡ script.commands))
        (spec.Refuses (spec.set_up_fault script)) }
{
    let Script {
        setup,
        limits,
        rules,
        commands,
    } = script;
    let set_up = RecorderSetup {
        setup,
        limits,
        rules,
    };
    match recorder_of(alloc, set_up) {
        Ok(recorder) => Ok(Prepared { recorder, commands }),
        Err(RecorderRefusal::Fault(fault)) => Err(Refusal::Fault(Fault::Recorder(fault))),
        Err(RecorderRefusal::Memory) => Err(Refusal::Memory),
    }
}

/// Reads a script, and makes the recorder that it describes.
#[tactic(auto, unfolding(crate::specs::Faults::script_fault))]
pub(crate) fn prepared_of<A: Allocator + Copy>(
    alloc: A,
    text: &[u8],
) -> Result<Prepared<A>, Refusal>
    ensures { MatchResult result
        (λ prepared. (spec.script_fault text.now ≡ None)
        × spec.IsMadeOf (spec.script_in text.now) prepared.recorder
        × (map parts_of prepared.commands.items ≡ (spec.script_in text.now).commands))
        (spec.Refuses (spec.script_fault text.now)) }
{
    match script_of(alloc, text) {
        Ok(script) => prepared_in(alloc, script),
        Err(ScriptRefusal::Fault(fault)) => Err(Refusal::Fault(Fault::Script(fault))),
        Err(ScriptRefusal::Memory) => Err(Refusal::Memory),
    }
}
