//! Answers a script's commands.

ghost use Rattle.std.specs.Prelude.{◌≡◌, ◌++◌, [], Ok, OnOk, IfErr, List, map};
ghost use Rattle.dfr_channels.specs.Firing.{rules_fault};
ghost use Rattle.dfr_recorder.specs.History.{Opening};
ghost use Rattle.dfr_recorder.specs.Kept.{kept};
ghost use Rattle.dfr_recorder.specs.Steps as step;
ghost use Rattle.dfr_script.specs.Commands.{parts_of};
ghost use Rattle.dfr_program.specs.Answering.{PutsStep, PrintsStep, AllPrinted};
ghost use Rattle.dfr_program.specs.Transcript.{rules_step, step_of};

use crate::answers::{put_lost, put_rules_refused, put_scan_refusal, put_scanned, put_trigger};
use crate::fault::RunFault;
use crate::output::flush_if_full;
use crate::records::answer_take;
use comtrade_values::put;
use comtrade_write::Kind;
use dfr_channels::{Rule, Rules, Scan};
use dfr_recorder::Recorder;
use dfr_script::Command;
use std::alloc::{AllocError, Allocator};
use std::io::Write;

/// Sets the rules of a line, and appends whether they were set. Rules that do not fit the layout
/// are refused here, before they reach the recorder.
fn answer_rules<A: Allocator + Copy>(
    recorder: &mut Recorder<A>,
    list: Vec<Rule, A>,
    line: &mut Vec<u8, A>,
) -> Result<(), AllocError>
    ensures { OnOk result
        (PutsStep recorder.old (rules_step list.items (rules_fault recorder.old.layout list.items))
        recorder.new line.old.items line.new.items) }
{
    match Rules::new(recorder.layout(), list) {
        Ok(rules) => match recorder.set_rules(rules) {
            Ok(()) => put(line, "rules set\n"),
            Err(_) => unreachable!(),
        },
        Err((fault, _)) => put_rules_refused(line, fault),
    }
}

/// Passes a scan to the recorder, and appends its answer.
fn answer_scan<A: Allocator + Copy>(
    recorder: &mut Recorder<A>,
    scan: Scan<A>,
    line: &mut Vec<u8, A>,
) -> Result<(), AllocError>
    ensures { OnOk result
        (PutsStep recorder.old (Ok (step.Scan scan)) recorder.new line.old.items line.new.items) }
{
    match recorder.scan(scan) {
        Ok(scanned) => put_scanned(line, scanned),
        Err((refusal, _)) => put_scan_refusal(line, refusal),
    }
}

/// Carries out a command, and prints its answer: all of it, or nothing where an allocation failed.
fn answer<A: Allocator + Copy, W: Write>(
    alloc: A,
    recorder: &mut Recorder<A>,
    command: Command<A>,
    kind: Kind,
    w: &mut W,
    out: &mut Vec<u8, A>,
    line: &mut Vec<u8, A>,
) -> Result<(), RunFault>
    ensures { PrintsStep result kind recorder.old (step_of recorder.old.layout (parts_of command))
        recorder.new (W.contents w.old) out.old.items (W.contents w.new) out.new.items }
{
    line.clear();
    match command {
        Command::Scan(scan) => {
            answer_scan(recorder, scan, line)?;
            out.extend_from_slice(line)?;
            Ok(())
        }
        Command::Lost => {
            put_lost(line, recorder.lost())?;
            out.extend_from_slice(line)?;
            Ok(())
        }
        Command::Trigger => {
            put_trigger(line, recorder.trigger())?;
            out.extend_from_slice(line)?;
            Ok(())
        }
        Command::Take => answer_take(alloc, recorder, kind, w, out, line),
        Command::Rules { line: _, list } => {
            answer_rules(recorder, list, line)?;
            out.extend_from_slice(line)?;
            Ok(())
        }
    }
}

/// Answers the commands in order, and writes the buffer whenever it has reached 64 KiB. Where
/// an allocation fails, the answers before it are printed. Where a write fails, nothing is left
/// to write.
pub(crate) fn answer_all<A: Allocator + Copy, W: Write>(
    alloc: A,
    recorder: Recorder<A>,
    commands: Vec<Command<A>, A>,
    kind: Kind,
    w: &mut W,
    out: &mut Vec<u8, A>,
) -> Result<(), RunFault>
    ensures { (o : Opening) (h : List step.StepParts) → kept o h ≡ recorder →
        AllPrinted result kind o h (map parts_of commands.items)
        (W.contents w.old) out.old.items (W.contents w.new) out.new.items }
{
    let mut recorder = recorder;
    let mut line = Vec::new(alloc);
    for command in commands {
        answer(alloc, &mut recorder, command, kind, w, out, &mut line)?;
        flush_if_full(w, out)?;
    }
    Ok(())
}
