//! What a live run prints.

ghost use Rattle.std.specs.Prelude.{◌≡◌, ◌+◌, ◌≤◌, ◌++◌, OnOk, option_map};
ghost use Rattle.std.specs.List.{flat_map};
ghost use Rattle.dfr_program.specs.Reports as spec;

use crate::answers::put_trigger;
use comtrade_values::{put, put_number, put_with};
use dfr_live::{EndFault, Entry, Left, LiveFault, LiveReport, OpenFault, Reply};
use std::alloc::{AllocError, Allocator};

/// Appends the number of scan steps made before a call.
#[tactic(auto, unfolding(crate::specs::Reports::at_text))]
fn put_at<A: Allocator>(out: &mut Vec<u8, A>, at: u64) -> Result<(), AllocError>
    ensures { OnOk result (out.new.items ≡ out.old.items ++ spec.at_text at) }
{
    put_with(out, "at ", at)?;
    put(out, " ")
}

fn put_rules<A: Allocator>(out: &mut Vec<u8, A>, done: bool) -> Result<(), AllocError>
    ensures { OnOk result (out.new.items ≡ out.old.items ++ spec.rules_text done) }
{
    if done {
        put(out, "rules set\n")
    } else {
        put(out, "rules refused no-channel\n")
    }
}

fn put_reply<A: Allocator>(out: &mut Vec<u8, A>, at: u64, reply: &Reply) -> Result<(), AllocError>
    ensures { OnOk result (out.new.items ≡ out.old.items ++ spec.reply_text at reply.now) }
{
    match reply {
        Reply::Trigger(answer) => {
            put_at(out, at)?;
            put_trigger(out, *answer)
        }
        Reply::Take(_) => Ok(()),
        Reply::SetRules(done) => {
            put_at(out, at)?;
            put_rules(out, *done)
        }
    }
}

fn put_entry<A: Allocator>(out: &mut Vec<u8, A>, entry: &Entry<A>) -> Result<(), AllocError>
    ensures { OnOk result (out.new.items ≡ out.old.items ++ spec.entry_text entry.now) }
{
    put_reply(out, entry.at, &entry.reply)
}

/// Appends a line for each call of a log, except takes.
fn put_entries<A: Allocator>(out: &mut Vec<u8, A>, log: &[Entry<A>]) -> Result<(), AllocError>
    ensures { OnOk result (out.new.items ≡ out.old.items ++ flat_map spec.entry_text log.now) }
{
    for entry in log {
        put_entry(out, entry)?;
    }
    Ok(())
}

/// The number of scan steps of a scan that is left: its own, and those of its lost scans.
fn steps_with<A: Allocator>(item: &Left<A>) -> u64
    ensures steps { result ≡ item.now.lost + 1 }
    ensures few { result ≤ 4_294_967_296 }
{
    item.lost as u64 + 1
}

/// How many scan steps are left.
fn steps_left<A: Allocator>(left: &[Left<A>]) -> u128
    ensures { result ≡ spec.steps_left left.now }
{
    let mut steps = 0u128;
    for item in left {
        steps += steps_with(item) as u128;
    }
    steps
}

#[tactic(auto, unfolding(crate::specs::Reports::sums_text))]
fn put_sums<A: Allocator>(
    out: &mut Vec<u8, A>,
    scans: u64,
    refused: u64,
    records: u64,
    left: u128,
) -> Result<(), AllocError>
    ensures { OnOk result (out.new.items
        ≡ out.old.items ++ spec.sums_text scans refused records left) }
{
    put_with(out, "scans ", scans)?;
    put_with(out, " refused ", refused)?;
    put_with(out, " records ", records)?;
    put(out, " left ")?;
    put_number(out, left)?;
    put(out, "\n")
}

/// Appends a line for each call of the run's log, except takes, and the line of sums.
#[tactic(auto, unfolding(crate::specs::Reports::report_text))]
pub(crate) fn put_report<A: Allocator>(
    out: &mut Vec<u8, A>,
    report: &LiveReport<A>,
) -> Result<(), AllocError>
    ensures { OnOk result (out.new.items ≡ out.old.items ++ spec.report_text report.now) }
{
    put_entries(out, report.ended.log.as_slice())?;
    put_sums(
        out,
        report.stepped,
        report.refused,
        report.records,
        steps_left(report.ended.left.as_slice()),
    )
}

/// The word of a run's error; None where an allocation failed.
pub(crate) fn run_word(fault: LiveFault) -> Option<&'static str>
    ensures { option_map (λ word. word.now) result ≡ spec.run_word fault }
{
    match fault {
        LiveFault::Feed(_) => Some("feed"),
        LiveFault::Sink(_) => Some("sink"),
        LiveFault::Turns => Some("turns"),
        LiveFault::Counter => Some("counter"),
        LiveFault::Memory | LiveFault::Open(OpenFault::Memory) | LiveFault::End(EndFault::Memory) =>
            None,
        LiveFault::Open(_) => Some("open"),
        LiveFault::End(_) => Some("end"),
    }
}

#[tactic(auto, unfolding(crate::specs::Reports::run_fault_text))]
pub(crate) fn put_run_fault<A: Allocator>(
    out: &mut Vec<u8, A>,
    word: &str,
) -> Result<(), AllocError>
    ensures { OnOk result (out.new.items ≡ out.old.items ++ spec.run_fault_text word.now) }
{
    put(out, "fault ")?;
    put(out, word)?;
    put(out, "\n")
}
