//! Writes records and reads them back: what the recorder, the writers and the reader
//! promise together.

ghost use Rattle.std.specs.Prelude.{◌≡◌, ◌≢◌, ◌≤◌, ◌++◌, vec_capacity, IfOk, IfSome, IsTrue, length, map, take, option_to_list, false, None, [], List};
ghost use Rattle.std.specs.List.{All, filter_map};
ghost use Rattle.dfr_channels.specs.declared.rule.Rule.{Rule};
ghost use Rattle.dfr_recorder.specs.History.{opening};
ghost use Rattle.dfr_recorder.specs.Own.{is_own};
ghost use Rattle.dfr_recorder.specs.Steps.{step_of};
ghost use Rattle.dfr_recorder.specs.Answers.{answer_of, is_memory};
ghost use Rattle.dfr_recorder.specs.Memory.{WantsMemory};
ghost use Rattle.dfr_recorder.specs.Run.{IsRun, IsOwnAnswer};
ghost use Rattle.comtrade_format.specs.Cfg.{cfg};
ghost use Rattle.comtrade_format.specs.Data.{dat};
ghost use Rattle.comtrade_write.specs.OfRecord as spec;
ghost use Rattle.comtrade_read.specs.Reads.{Reads};
ghost use Rattle.dfr_program.specs.ReadBack.{RecordsReadBack, file_taken};

use comtrade_read::read_of_file;
use comtrade_values::Memory;
use comtrade_write::{File, FileFault, Kind, WriteFault, file_of};
use dfr_channels::{Layout, layout_has_numbers};
use dfr_recorder::{Answer, Ran, Record, Recorder, Step, run};
use std::alloc::Allocator;
use std::collections::VecDeque;

/// A law on the records of a given recorder. Every record that a recorder with its layout and its
/// limits gives is read back from its own two files, of either kind. That holds for any rules and
/// any history. The function does nothing: its contract is the law.
pub fn records_read_back<A: Allocator>(recorder: &Recorder<A>)
    ensures { (rules : List Rule)
        → RecordsReadBack (opening recorder.now.layout recorder.now.limits rules) }
{
    let _limits = recorder.limits();
    let layout = recorder.layout();
    let _rate = layout.rate();
    layout_has_numbers(layout);
}

/// Writes the two files of a record that matches the layout, and reads them back. Returns what was
/// read, which is the record's file. Every record that a recorder of this layout gives matches it.
///
/// Returns `Memory` where an allocation failed. No other error occurs.
pub fn read_of_record<A: Allocator + Copy>(
    alloc: A,
    layout: &Layout<A>,
    taken: &Record<A>,
    kind: Kind,
) -> Result<File<A>, Memory>
    requires { IsTrue (is_own layout.now taken.now) }
    ensures file { IfOk result (λ f. f ≡ spec.file layout.now taken.now kind) }
    ensures reads { IfOk result (λ f. Reads (cfg f.head) (dat kind f) f) }
{
    let file = match file_of(alloc, layout, taken, kind) {
        Ok(file) => file,
        Err(FileFault::Memory) => return Err(Memory),
        Err(FileFault::Foreign) => unreachable!(),
    };
    match read_of_file(alloc, &file) {
        Ok(file) => Ok(file),
        Err(fault) => match fault {
            WriteFault::Memory => Err(Memory),
            _ => unreachable!(),
        },
    }
}

/// As `read_of_record`, for the record that an answer took; None where it took none.
fn read_of_answer<A: Allocator + Copy>(
    alloc: A,
    layout: &Layout<A>,
    answer: &Answer<A>,
    kind: Kind,
) -> Result<Option<File<A>>, Memory>
    requires { IsOwnAnswer layout.now (answer_of answer.now) }
    ensures file { IfOk result (λ made. made ≡ file_taken layout.now kind (answer_of answer.now)) }
    ensures reads { IfOk result (λ made. IfSome made (λ f. Reads (cfg f.head) (dat kind f) f)) }
{
    match answer {
        Answer::Take(Some(taken)) => match read_of_record(alloc, layout, taken, kind) {
            Ok(file) => Ok(Some(file)),
            Err(Memory) => Err(Memory),
        },
        _ => Ok(None),
    }
}

/// As `read_of_record`, for each record that the answers took, in their order.
fn read_of_answers<A: Allocator + Copy>(
    alloc: A,
    layout: &Layout<A>,
    answers: &[Answer<A>],
    kind: Kind,
) -> Result<Vec<File<A>, A>, Memory>
    requires { All (λ answer. IsOwnAnswer layout.now (answer_of answer)) answers.now }
    ensures files { IfOk result (λ files. files.items ≡ filter_map (file_taken layout.now kind) (map answer_of answers.now)) }
    ensures reads { IfOk result (λ files. All (λ f. Reads (cfg f.head) (dat kind f) f) files.items) }
{
    let mut files = Vec::new(alloc);
    for answer in answers {
        match read_of_answer(alloc, layout, answer, kind)? {
            Some(file) => files.push(file)?,
            None => {}
        }
    }
    Ok(files)
}

/// Reads back the files of the records that a run took, in their order, as `read_of_record` does.
/// What `run` returns meets the requirement. Returns `Memory` where an allocation failed.
pub fn read_of_run<A: Allocator + Copy>(
    alloc: A,
    ran: &Ran<A>,
    kind: Kind,
) -> Result<Vec<File<A>, A>, Memory>
    requires { All (λ answer. IsOwnAnswer ran.now.recorder.layout (answer_of answer)) ran.now.answers.items }
    ensures files { IfOk result (λ files. files.items ≡ filter_map (file_taken ran.now.recorder.layout kind) (map answer_of ran.now.answers.items)) }
    ensures reads { IfOk result (λ files. All (λ f. Reads (cfg f.head) (dat kind f) f) files.items) }
{
    read_of_answers(alloc, ran.recorder.layout(), ran.answers.as_slice(), kind)
}

/// Makes the steps as `run` does, and reads back the files of the records that they took. It joins,
/// for a list of steps, what the recorder, the writers and the reader promise.
///
/// Returns what `run` returns, and the files, or `Memory` where an allocation for the files failed.
pub fn run_and_read<A: Allocator + Copy>(
    alloc: A,
    recorder: Recorder<A>,
    steps: VecDeque<Step<A>, A>,
    kind: Kind,
) -> (Ran<A>, Result<Vec<File<A>, A>, Memory>)
    ensures list { take (length result.0.answers.items) steps.items ++ option_to_list result.0.stopped ++ result.0.rest.items ≡ steps.items }
    ensures run { IsRun recorder (map step_of (take (length result.0.answers.items) steps.items)) (map answer_of result.0.answers.items) result.0.recorder }
    ensures told { All (λ answer. is_memory (answer_of answer) ≡ false) result.0.answers.items }
    ensures own { All (λ answer. IsOwnAnswer result.0.recorder.layout (answer_of answer))
        result.0.answers.items }
    ensures opening { (result.0.recorder.layout ≡ recorder.layout)
        × (result.0.recorder.limits ≡ recorder.limits) }
    ensures whole { result.0.stopped ≡ None → result.0.rest.items ≡ [] }
    ensures wanted { result.0.answers.items ≢ []
        → IfSome result.0.stopped (λ step. WantsMemory result.0.recorder (step_of step)) }
    ensures room { length steps.items ≤ vec_capacity result.0.answers
        → IfSome result.0.stopped (λ step. WantsMemory result.0.recorder (step_of step)) }
    ensures files { IfOk result.1 (λ files. files.items ≡ filter_map (file_taken recorder.layout kind) (map answer_of result.0.answers.items)) }
    ensures reads { IfOk result.1 (λ files. All (λ f. Reads (cfg f.head) (dat kind f) f) files.items) }
{
    let ran = run(alloc, recorder, steps);
    let files = read_of_run(alloc, &ran, kind);
    (ran, files)
}
