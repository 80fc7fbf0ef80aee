//! Records over the devices of a station, while another thread prints the events.

ghost use Rattle.std.specs.Prelude.{◌≡◌, Ok, Err, IfOk, IfErr, MatchResult};
ghost use Rattle.dfr_live.specs.Calls.{open_fault};
ghost use Rattle.dfr_live.specs.Seen.{opening_of};
ghost use Rattle.dfr_live.specs.Report.{Recorded as RecordedLive};
ghost use Rattle.dfr_live.specs.declared.report.LiveFault.{LiveFault as FaultOfThreads};
ghost use Rattle.dfr_station.specs.Failing.{DevicesFail, IsToldAs};

use crate::first::take_back;
use crate::intake::RunFault;
use crate::pace::Napping;
use crate::signals::Signals;
use crate::station::{Printer, Recording};
use crate::telling::{Telling, print_events};
use comtrade_write::Kind;
use dfr_live::{Desk, EndFault, Intake, LiveFault, LiveReport, Outlet, record_with};
use dfr_recorder::Recorder;
use std::alloc::Allocator;
use std::sync::atomic::Ordering;
use std::sync::{Mutex, Wait};
use std::thread;
use std::thread::{Scope, Threads};
use std::time::Clock;

/// The most scans that may wait for the trigger thread.
const LANE: usize = 65_536;

/// The most scans that may wait for the acquisition to use their memory again.
const RETURNING: usize = 32_768;

/// Records while another thread prints the events. If a thread can't be started, nothing is
/// recorded.
pub(crate) fn record_printing<
    A: Allocator + Copy + Send + Sync,
    F: Intake<A, Recording> + Send,
    O: Desk<A, Recording> + Send,
    K: Outlet<Recording> + Send,
    P: Printer + Send,
    R: Threads + Wait + Clock + Sync,
>(
    pace: Napping<'_, R>,
    alloc: A,
    recorder: Recorder<A>,
    kind: Kind,
    telling: &Mutex<Telling<'_, '_, P, A>>,
    intake: &mut F,
    desk: &mut O,
    outlet: &mut K,
) -> Result<LiveReport<A>, RunFault>
    ensures { MatchResult result
        (λ report. RecordedLive F.gives F.loses O.asks O.hears K.puts K.lacks
        (opening_of recorder) kind (intake.old, desk.old, outlet.old)
        (intake.new, desk.new, outlet.new) report)
        (λ fault. DevicesFail K.puts K.lacks (opening_of recorder) kind
        (open_fault recorder.scans 65_536 2) (intake.old, desk.old, outlet.old)
        (intake.new, desk.new, outlet.new) fault) }
{
    let rt = pace.rt;
    let devices = (intake, desk, outlet);
    let (report, (intake, desk, outlet)) = thread::scope(
        thread::scope_env(),
        rt,
        |scope| -> (Result<LiveReport<A>, RunFault>, (&mut F, &mut O, &mut K))
            ensures names { (result.1.0.ghost_name ≡ devices.entry.0.ghost_name)
                × (result.1.1.ghost_name ≡ devices.entry.1.ghost_name)
                × (result.1.2.ghost_name ≡ devices.entry.2.ghost_name) }
            ensures recorded { MatchResult result.0
                (λ report. RecordedLive F.gives F.loses O.asks O.hears K.puts K.lacks
                (opening_of recorder) kind
                (devices.entry.0.now, devices.entry.1.now, devices.entry.2.now)
                (result.1.0.now, result.1.1.now, result.1.2.now) report)
                (λ fault. DevicesFail K.puts K.lacks (opening_of recorder) kind
                (open_fault recorder.scans 65_536 2)
                (devices.entry.0.now, devices.entry.1.now, devices.entry.2.now)
                (result.1.0.now, result.1.1.now, result.1.2.now) fault) }
        { record_beside(scope, pace, alloc, recorder, kind, telling, devices) },
    );
    take_back(intake);
    take_back(desk);
    take_back(outlet);
    report
}

/// Starts the thread that prints the events, and records. Then says that all other threads have
/// ended.
#[tactic(auto, unfolding(crate::specs::Failing::DevicesFail))]
fn record_beside<
    's,
    'x,
    'y,
    'z,
    E,
    A: Allocator + Copy + Send + Sync + 's,
    F: Intake<A, Recording> + Send,
    O: Desk<A, Recording> + Send,
    K: Outlet<Recording> + Send,
    P: Printer + Send + 's,
    R: Threads + Wait + Clock + Sync + 's,
>(
    scope: &Scope<'s, E>,
    pace: Napping<'s, R>,
    alloc: A,
    recorder: Recorder<A>,
    kind: Kind,
    telling: &'s Mutex<Telling<'_, '_, P, A>>,
    devices: (&'x mut F, &'y mut O, &'z mut K),
) -> (
    Result<LiveReport<A>, RunFault>,
    (&'x mut F, &'y mut O, &'z mut K),
)
    ensures names { (result.1.0.ghost_name ≡ devices.entry.0.ghost_name)
        × (result.1.1.ghost_name ≡ devices.entry.1.ghost_name)
        × (result.1.2.ghost_name ≡ devices.entry.2.ghost_name) }
    ensures recorded { MatchResult result.0
        (λ report. RecordedLive F.gives F.loses O.asks O.hears K.puts K.lacks
        (opening_of recorder) kind
        (devices.entry.0.now, devices.entry.1.now, devices.entry.2.now)
        (result.1.0.now, result.1.1.now, result.1.2.now) report)
        (λ fault. DevicesFail K.puts K.lacks (opening_of recorder) kind
        (open_fault recorder.scans 65_536 2)
        (devices.entry.0.now, devices.entry.1.now, devices.entry.2.now)
        (result.1.0.now, result.1.1.now, result.1.2.now) fault) }
{
    let Napping { rt, signals } = pace;
    let (intake, desk, outlet) = devices;
    if scope
        .spawn(move || print_events(rt, signals, telling))
        .is_err()
    {
        return (Err(RunFault::Thread), (intake, desk, outlet));
    }
    let pace = Napping { rt, signals };
    let report = record_with::<A, Recording, F, O, K, Napping<R>, R>(
        rt,
        alloc,
        recorder,
        LANE,
        RETURNING,
        kind,
        &pace,
        &mut *intake,
        &mut *desk,
        &mut *outlet,
    );
    signals.ended.store(true, Ordering::SeqCst);
    (outcome_of(report, signals), (intake, desk, outlet))
}

/// How the run ended.
fn outcome_of<A: Allocator>(
    report: Result<LiveReport<A>, LiveFault>,
    signals: &Signals,
) -> Result<LiveReport<A>, RunFault>
    ensures made { IfOk result (λ made. report ≡ Ok made) }
    ensures told { IfErr result (λ told. (fault : FaultOfThreads)
        × (report ≡ Err fault) × IsToldAs fault told) }
{
    match report {
        Ok(report) => Ok(report),
        Err(fault) => Err(fault_of(fault, signals)),
    }
}

/// Why the run failed. The devices have no errors of their own. `Memory` says that a thread could
/// not be started, or that allocations failed after the input had ended.
fn fault_of(fault: LiveFault, signals: &Signals) -> RunFault
    ensures { IsToldAs fault result }
{
    match fault {
        LiveFault::Open(fault) => RunFault::Open(fault),
        LiveFault::End(fault) => RunFault::End(fault),
        LiveFault::Counter => RunFault::Counter,
        LiveFault::Memory | LiveFault::Turns | LiveFault::Feed(_) | LiveFault::Sink(_) => {
            if signals.acquired.load(Ordering::SeqCst) {
                RunFault::End(EndFault::Memory)
            } else {
                RunFault::Thread
            }
        }
    }
}
