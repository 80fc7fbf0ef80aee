//! Records a script in three threads.

#![tactic(auto, using(crate::proofs::Growing::growing))]

ghost use Rattle.std.specs.Prelude.{List, map, ◌≡◌, ◌≢◌, false, is_some, true, Err, IfOk, IfErr};
ghost use Rattle.comtrade_values.specs.Lines.{lines};
ghost use Rattle.dfr_script.specs.Parts.{ScriptParts};
ghost use Rattle.dfr_script.specs.Scripts.{script_value};
ghost use Rattle.dfr_live.specs.Seen.{InnerParts, SourceParts, TokenParts, opening_of};
ghost use Rattle.dfr_live.specs.Ends.{Ends};
ghost use Rattle.dfr_live.specs.Devices.{stops, GotFront};
ghost use Rattle.dfr_program.specs.FaultTexts.{fault_text};
ghost use Rattle.dfr_program.specs.Live.{given_by, TellsCame, TellsFault, TellsOver, TellsLive, PrintsLive, CutsLive, OnlyFront};
ghost use Rattle.dfr_program.specs.Plans.{given, live_fault, placed, scans_in, orders_in};
ghost use Rattle.dfr_program.specs.Recording.{IsOneThread};
ghost use Rattle.dfr_program.specs.Reports.{report_text};
ghost use Rattle.dfr_program.specs.Writing.{Grows};

use crate::fault::RunFault;
use crate::faults::put_fault;
use crate::law::as_one_thread;
use crate::output::write_out;
use crate::plan::{Placed, Plan, Scans, plan_of};
use crate::prepared::{Fault, Refusal};
use crate::report::{put_report, put_run_fault, run_word};
use comtrade_write::Kind;
use dfr_live::{LiveFault, LiveReport, Sink, run_live};
use std::alloc::Allocator;
use std::io::Write;
use std::sync::Wait;
use std::thread::Threads;

/// How many scans the queue holds.
const LANE: usize = 1_024;

/// How many turns in a row a thread may make no progress.
const TURNS: u64 = 1_000_000_000;

/// What is printed at the end, and whether the run succeeded.
#[derive(Drop)]
struct Told<A: Allocator> {
    done: bool,
    text: Vec<u8, A>,
}

/// The line of a script's error.
fn told_fault<A: Allocator>(alloc: A, fault: Fault) -> Result<Told<A>, RunFault>
    ensures text { IfOk result (λ told. (told.done ≡ false) × (told.text.items ≡ fault_text fault)) }
    ensures fault { IfErr result (λ fault. fault ≡ RunFault.Memory) }
{
    let mut text = Vec::new(alloc);
    put_fault(&mut text, fault)?;
    Ok(Told { done: false, text })
}

/// The report of a run.
fn told_report<A: Allocator>(alloc: A, report: &LiveReport<A>) -> Result<Told<A>, RunFault>
    ensures law { (x : InnerParts) (source : SourceParts) (tokens : List TokenParts)
        → Ends x source tokens report.now.ended → IsOneThread x source tokens report.now.ended }
    ensures text { IfOk result (λ told. (told.done ≡ true) × (told.text.items ≡ report_text report.now)) }
    ensures fault { IfErr result (λ fault. fault ≡ RunFault.Memory) }
{
    as_one_thread(&report.ended);
    let mut text = Vec::new(alloc);
    put_report(&mut text, report)?;
    Ok(Told { done: true, text })
}

/// The line of a run's error.
fn told_run_fault<A: Allocator>(alloc: A, fault: LiveFault) -> Result<Told<A>, RunFault>
    ensures text { IfOk result (λ told. (told.done ≡ false) × TellsFault fault told.text.items) }
    ensures fault { IfErr result (λ why. why ≡ RunFault.Memory) }
{
    let Some(word) = run_word(fault) else {
        return Err(RunFault::Memory);
    };
    let mut text = Vec::new(alloc);
    put_run_fault(&mut text, word)?;
    Ok(Told { done: false, text })
}

/// The report of a run, or the line of its error.
fn told_run<A: Allocator + Copy>(
    alloc: A,
    came: Result<LiveReport<A>, LiveFault>,
) -> Result<Told<A>, RunFault>
    ensures law { IfOk came (λ report. (x : InnerParts) (source : SourceParts)
        (tokens : List TokenParts)
        → Ends x source tokens report.ended → IsOneThread x source tokens report.ended) }
    ensures text { IfOk result (λ told. TellsCame came told.done told.text.items) }
    ensures fault { IfErr result (λ fault. fault ≡ RunFault.Memory) }
{
    match came {
        Ok(report) => told_report(alloc, &report),
        Err(fault) => told_run_fault(alloc, fault),
    }
}

/// Runs a plan.
fn run_plan<A: Allocator + Copy + Send + Sync, K: Sink + Send, R: Threads + Wait + Sync>(
    rt: &R,
    alloc: A,
    plan: Plan<A>,
    kind: Kind,
    sink: &mut K,
) -> Result<Told<A>, RunFault>
    ensures text { IfOk result (λ told. (s : ScriptParts) → plan.recorder.scans ≡ 0
        → map given plan.scans.items ≡ scans_in s.commands
        → map placed plan.orders.items ≡ orders_in 0 s.commands
        → TellsOver A (given_by K.puts kind sink.old sink.new s) (opening_of plan.recorder)
        told.done told.text.items) }
    ensures front { GotFront K.puts (λ s _ r t. stops s r t) (opening_of plan.recorder) kind
        sink.old sink.new }
    ensures fault { IfErr result (λ fault. fault ≡ RunFault.Memory) }
{
    let Plan {
        recorder,
        scans,
        orders,
    } = plan;
    let mut feed = Scans::of(scans);
    let mut orders = Placed::of(orders);
    let came = run_live(
        rt,
        alloc,
        recorder,
        LANE,
        kind,
        TURNS,
        &mut feed,
        &mut orders,
        sink,
    );
    told_run(alloc, came)
}

/// Runs the script, if it has no error.
fn run_script<A: Allocator + Copy + Send + Sync, K: Sink + Send, R: Threads + Wait + Sync>(
    rt: &R,
    alloc: A,
    script: &[u8],
    kind: Kind,
    sink: &mut K,
) -> Result<Told<A>, RunFault>
    ensures text { IfOk result (λ told. let s = script_value (lines script.now) in
        TellsLive A (given_by K.puts kind sink.old sink.new s) (live_fault script.now) s
        told.done told.text.items) }
    ensures fault { IfErr result (λ fault. fault ≡ RunFault.Memory) }
    ensures unused { is_some (live_fault script.now) ≡ true → sink.new ≡ sink.old }
    ensures front { OnlyFront K.puts kind (script_value (lines script.now)) sink.old sink.new }
{
    match plan_of(alloc, script) {
        Ok(plan) => run_plan(rt, alloc, plan, kind, sink),
        Err(Refusal::Fault(fault)) => told_fault(alloc, fault),
        Err(Refusal::Memory) => Err(RunFault::Memory),
    }
}

/// Records a script in three threads. The first is fed the script's scans, in order. The second
/// makes its triggers and sets its rules, each at the number of scans, lost ones included, before
/// it. The third hands the files of each record that it takes to the sink. `take` lines are
/// skipped. Everything is printed at the end.
///
/// Returns true where the run succeeded, and printed its report. Then the calls of all threads and
/// the scan steps made are one list of steps, with the answers of a recorder in one thread. Every
/// record of that recorder reads back from its two files (`as_one_thread`).
///
/// Then no scan is left in the queue, and no finished record waits.
///
/// Returns false where it printed the line of an error, of the script or of the run. Where the
/// script has an error, nothing runs and the sink is unchanged. `fault feed` and `fault open` are
/// never printed, `fault sink` only where the sink refused the files of a record, and `fault
/// counter` only where the script has at least 4,294,967,295 scans and losses. `fault end` says that
/// the calls made and the log do not agree.
///
/// Whatever comes, and also with an error, the sink got the files of some records, and then at most
/// those of one that it refused.
///
/// - `Memory`: an allocation failed, or a thread could not be started. Nothing was written to `w`.
/// - `Output`: a write failed. Only part of the text was written.
///
/// It never returns `Input`.
pub fn live_of<
    A: Allocator + Copy + Send + Sync,
    K: Sink + Send,
    W: Write,
    R: Threads + Wait + Sync,
>(rt: &R, alloc: A, script: &[u8], kind: Kind, sink: &mut K, w: &mut W) -> Result<bool, RunFault>
    ensures grows { Grows (W.contents w.old) (W.contents w.new) }
    ensures printed { IfOk result (λ done. let s = script_value (lines script.now) in
        PrintsLive A (given_by K.puts kind sink.old sink.new s) (live_fault script.now) s done
        (W.contents w.old) (W.contents w.new)) }
    ensures output { result ≡ Err RunFault.Output → let s = script_value (lines script.now) in
        CutsLive A (given_by K.puts kind sink.old sink.new s) (live_fault script.now) s
        (W.contents w.old) (W.contents w.new) }
    ensures memory { result ≡ Err RunFault.Memory → w.new ≡ w.old }
    ensures unused { is_some (live_fault script.now) ≡ true → sink.new ≡ sink.old }
    ensures front { OnlyFront K.puts kind (script_value (lines script.now)) sink.old sink.new }
    ensures fault { IfErr result (λ fault. fault ≢ RunFault.Input) }
{
    let told = run_script(rt, alloc, script, kind, sink)?;
    write_out(w, &told.text)?;
    Ok(told.done)
}
