//! Replays a script.

#![tactic(auto, using(crate::proofs::Growing::growing))]

ghost use Rattle.std.specs.Prelude.{◌≡◌, ◌≢◌, ◌<◌, ◌⊎◌, true, false, not, is_some, length, map, Err, Some, IfOk, IfErr, IfSome, OnOk};
ghost use Rattle.std.specs.Io.KnownBytes.{Appends};
ghost use Rattle.comtrade_values.specs.Lines.{lines};
ghost use Rattle.dfr_script.specs.Commands.{parts_of};
ghost use Rattle.dfr_script.specs.Scripts.{script_value};
ghost use Rattle.dfr_program.specs.Faults.{script_fault};
ghost use Rattle.dfr_program.specs.FaultTexts.{PrintsFault, fault_text};
ghost use Rattle.dfr_program.specs.Replays.{WrittenBy, PrintsAnswers, PrintsFirst, CutAt, IsUnread};
ghost use Rattle.dfr_program.specs.Writing.{Cut, Grows};

use crate::commands::answer_all;
use crate::fault::RunFault;
use crate::faults::put_fault;
use crate::input::read_all;
use crate::output::{send, write_out};
use crate::prepared::{Fault, Prepared, Refusal, prepared_of};
use comtrade_write::Kind;
use std::alloc::Allocator;
use std::io::{Read, Write};

/// Answers the commands, and writes all answers, also those before a failed allocation. After a
/// failed write nothing more is written.
fn run_commands<A: Allocator + Copy, W: Write>(
    alloc: A,
    prepared: Prepared<A>,
    kind: Kind,
    w: &mut W,
) -> Result<bool, RunFault>
    ensures printed { WrittenBy result kind prepared.recorder
        (map parts_of prepared.commands.items) (W.contents w.old) (W.contents w.new) }
    ensures whole { IfOk result (λ done. done ≡ true) }
{
    let Prepared { recorder, commands } = prepared;
    let mut out = Vec::new(alloc);
    let answered = answer_all(alloc, recorder, commands, kind, w, &mut out);
    send(w, &mut out)?;
    answered?;
    Ok(true)
}

/// Prints the line of an error.
fn print_fault<A: Allocator, W: Write>(alloc: A, fault: Fault, w: &mut W) -> Result<bool, RunFault>
    ensures text { OnOk result (Appends (W.contents w.old) (W.contents w.new) (fault_text fault)) }
    ensures grows { Grows (W.contents w.old) (W.contents w.new) }
    ensures none { IfOk result (λ done. done ≡ false) }
    ensures memory { result ≡ Err RunFault.Memory → w.new ≡ w.old }
    ensures output { result ≡ Err RunFault.Output →
        Cut (W.contents w.old) (W.contents w.new) (fault_text fault) }
    ensures fault { IfErr result (λ fault. fault ≢ RunFault.Input) }
{
    let mut out = Vec::new(alloc);
    put_fault(&mut out, fault)?;
    write_out(w, &out)?;
    Ok(false)
}

/// Replays a script. True where all of it ran, false where the line of an error was printed.
fn replay_text<A: Allocator + Copy, W: Write>(
    alloc: A,
    text: Vec<u8, A>,
    w: &mut W,
    kind: Kind,
) -> Result<bool, RunFault>
    ensures grows { Grows (W.contents w.old) (W.contents w.new) }
    ensures whole { IfOk result (λ done. is_some (script_fault text.items) ≡ not done) }
    ensures printed { IfOk result (λ done. done ≡ false →
        PrintsFault (script_fault text.items) (W.contents w.old) (W.contents w.new)) }
    ensures answers { IfOk result (λ done. done ≡ true →
        PrintsAnswers kind (script_value (lines text.items))
        (W.contents w.old) (W.contents w.new)) }
    ensures memory { result ≡ Err RunFault.Memory → (w.new ≡ w.old)
        ⊎ PrintsFirst kind (script_fault text.items) (script_value (lines text.items))
        (W.contents w.old) (W.contents w.new) }
    ensures output { result ≡ Err RunFault.Output →
        CutAt kind (script_fault text.items) (script_value (lines text.items))
        (W.contents w.old) (W.contents w.new) }
    ensures fault { IfErr result (λ fault. fault ≢ RunFault.Input) }
{
    match prepared_of(alloc, &text) {
        Ok(prepared) => {
            drop(text);
            run_commands(alloc, prepared, kind, w)
        }
        Err(Refusal::Fault(fault)) => print_fault(alloc, fault, w),
        Err(Refusal::Memory) => Err(RunFault::Memory),
    }
}

/// Replays the script that the reader has. Returns true where all of it ran, and false where it has
/// an error, whose line was printed. The whole script is read, and its recorder made, before its
/// first command runs.
///
/// - `Input`: a read failed, or the script has more than 16,777,216 bytes. Nothing was written.
/// - `Output`: a write failed. Only part of the text was written.
/// - `Memory`: an allocation failed. Nothing was written, or, for a script without an error, the
///   answers to the commands before the failure.
pub fn replay_over<A: Allocator + Copy, R: Read, W: Write>(
    alloc: A,
    r: &mut R,
    w: &mut W,
    kind: Kind,
) -> Result<bool, RunFault>
    ensures grows { Grows (W.contents w.old) (W.contents w.new) }
    ensures whole { IfOk result (λ done. IfSome (R.remaining r.old) (λ text.
        is_some (script_fault text) ≡ not done)) }
    ensures printed { IfOk result (λ done. done ≡ false → IfSome (R.remaining r.old) (λ text.
        PrintsFault (script_fault text) (W.contents w.old) (W.contents w.new))) }
    ensures answers { IfOk result (λ done. done ≡ true → IfSome (R.remaining r.old) (λ text.
        PrintsAnswers kind (script_value (lines text)) (W.contents w.old) (W.contents w.new))) }
    ensures memory { result ≡ Err RunFault.Memory → (w.new ≡ w.old)
        ⊎ IfSome (R.remaining r.old) (λ text. PrintsFirst kind (script_fault text)
        (script_value (lines text)) (W.contents w.old) (W.contents w.new)) }
    ensures output { result ≡ Err RunFault.Output → IfSome (R.remaining r.old) (λ text.
        CutAt kind (script_fault text) (script_value (lines text))
        (W.contents w.old) (W.contents w.new)) }
    ensures input { result ≡ Err RunFault.Input → w.new ≡ w.old }
    ensures long { IfSome (R.remaining r.old) (λ text. 16777216 < length text →
        IsUnread result × (w.new ≡ w.old)) }
{
    match read_all(alloc, r) {
        Ok(text) => replay_text(alloc, text, w, kind),
        Err(fault) => Err(RunFault::from(fault)),
    }
}
