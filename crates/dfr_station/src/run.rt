//! Runs a station, from its first scan to the end of its input.

ghost use Rattle.std.specs.Prelude.{◌≡◌, ◌-◌, Ok, Err, IfOk, IfErr, is_some};
ghost use Rattle.dfr_live.specs.Calls.{open_fault};
ghost use Rattle.dfr_live.specs.Seen.{opening_of};
ghost use Rattle.dfr_station.specs.Dated.{is_followed};
ghost use Rattle.dfr_station.specs.Failing.{IsFaultOf, StationFails};
ghost use Rattle.dfr_station.specs.Stations.{Begins, IsFresh, Ran};
ghost use Rattle.dfr_live.specs.declared.report.LiveReport.{LiveReport as LiveReported};
ghost use Rattle.dfr_station.specs.declared.intake.arrivals.Arrivals.{Arrivals as Arriving};
ghost use Rattle.dfr_station.specs.declared.intake.ended.Recorded.{Recorded as Made};

use crate::acquisition::Acquisition;
use crate::desk::Office;
use crate::event::Event;
use crate::first::First;
use crate::headers::Headers;
use crate::intake::{Arrivals, Buffer, Counts, Recorded, RunFault};
use crate::moment::Moment;
use crate::outlet::Exports;
use crate::pace::Napping;
use crate::parts::{Parts, layout_and_parts};
use crate::recording::record_printing;
use crate::scans::Scans;
use crate::signals::Signals;
use crate::station::{Control, Input, Printer, Station, Store};
use crate::telling::{Telling, now};
use crate::watch::Watch;
use comtrade_write::Kind;
use dfr_channels::Layout;
use dfr_clock::{Reading, Timebase};
use dfr_detect::Detectors;
use dfr_live::{EndFault, LiveReport};
use dfr_recorder::Recorder;
use std::alloc::{Allocator, Global};
use std::io::Read;
use std::sync::{Mutex, Wait};
use std::thread::Threads;
use std::time::Clock;

/// How to run a station, apart from its recorder, its input and its store.
#[derive(Drop)]
struct How<A: Allocator> {
    form: Input,
    detectors: Detectors<A>,
    /// What was read before, and the moment of the last read.
    read: (Buffer<A>, Moment),
    clocks: Option<Reading>,
    gap: u32,
    kind: Kind,
    minutes: bool,
    operator: Option<Control<A>>,
    waits: bool,
    watch: Watch,
    chatter: Option<usize>,
}

/// What a run gives back.
#[derive(Drop)]
pub struct Run<I, K, A: Allocator = Global> {
    /// What was recorded, or why the recording failed.
    pub recorded: Result<Recorded<A>, RunFault>,
    /// The input.
    pub input: I,
    /// The store.
    pub store: K,
}

/// Records the input until it ends, with the threads of `record_with`:
///
/// - The acquisition gives each scan. It waits only for the input.
/// - The trigger thread makes the steps and carries out orders.
/// - The export thread hands each record's pair to the store until the store takes it.
///
/// A fourth thread prints the events. `finish_station` writes the record that is open at the end. With
/// `headers` each pair goes to the store with a header.
/// Whatever the end, the input and the store come back. After `Memory` and `Open` both are
/// unchanged. `Open` comes only from a recorder that has accepted a scan, or for want of memory.
/// After every other error the store got the pairs of some records and nothing else.
pub fn run_station<
    A: Allocator + Copy + Send + Sync,
    I: Read + Send,
    K: Store + Send,
    P: Printer + Send,
    R: Threads + Wait + Clock + Sync,
>(
    rt: &R,
    alloc: A,
    station: Station<A>,
    headers: Option<&Headers<A>>,
    first: First<A>,
    input: I,
    store: K,
    printer: &mut P,
) -> Run<I, K, A>
    ensures ran { IfOk result.recorded (λ left. (arrivals : Arriving I A)
        × Begins station.inputs station.input first.buffer input arrivals
        × Ran I.remaining K.stores (opening_of station.recorder) station.inputs station.detectors
        station.kind (is_some station.operator) station.waits (is_followed first.clocks)
        arrivals store left.ended left.counts result.input result.store) }
    ensures times { IfOk result.recorded (λ left. is_some left.times ≡ is_followed first.clocks) }
    ensures failed { IfErr result.recorded (StationFails K.stores (opening_of station.recorder)
        station.kind (is_followed first.clocks) (open_fault station.recorder.scans 65_536 2)
        (input, store) (result.input, result.store)) }
{
    let (recorder, inputs, how) = how_of(station, first);
    match layout_and_parts(
        alloc,
        &recorder,
        &inputs,
        (how.gap, how.chatter),
        how.clocks,
    ) {
        Ok((layout, parts, times)) => {
            let times = shared(times);
            let dated = times.as_ref();
            let Run {
                recorded,
                input,
                store,
            } = run_over(
                rt,
                alloc,
                recorder,
                how,
                parts,
                (&layout, &inputs),
                dated,
                headers,
                input,
                store,
                printer,
            );
            Run {
                recorded: with_times(recorded, unshared(times)),
                input,
                store,
            }
        }
        Err(_) => {
            drop(recorder);
            drop(how);
            Run {
                recorded: Err(RunFault::Memory),
                input,
                store,
            }
        }
    }
}

/// The recorder of a station, the channels of its input, and how to run it.
fn how_of<A: Allocator>(station: Station<A>, first: First<A>) -> (Recorder<A>, Layout<A>, How<A>)
    ensures { (result.0 ≡ station.recorder) × (result.1 ≡ station.inputs)
        × (result.2.form ≡ station.input) × (result.2.read.0 ≡ first.buffer)
        × (result.2.kind ≡ station.kind) × (result.2.operator ≡ station.operator)
        × (result.2.detectors ≡ station.detectors) × (result.2.waits ≡ station.waits)
        × (result.2.clocks ≡ first.clocks) }
{
    let Station {
        recorder,
        inputs,
        detectors,
        input: form,
        kind,
        minutes,
        operator,
        waits,
        gap,
        chatter,
    } = station;
    let First {
        buffer,
        at,
        scans: _,
        clocks,
        watch,
        is_all: _,
    } = first;
    let how = How {
        form,
        detectors,
        read: (buffer, at),
        clocks,
        gap,
        kind,
        minutes,
        operator,
        waits,
        watch,
        chatter,
    };
    (recorder, inputs, how)
}

/// Records what comes. The layouts are the recorder's and the input's.
fn run_over<
    'a,
    A: Allocator + Copy + Send + Sync,
    I: Read + Send,
    K: Store + Send,
    P: Printer + Send,
    R: Threads + Wait + Clock + Sync,
>(
    rt: &'a R,
    alloc: A,
    recorder: Recorder<A>,
    how: How<A>,
    parts: Parts<A>,
    layouts: (&'a Layout<A>, &'a Layout<A>),
    times: Option<&'a Mutex<Timebase<A>>>,
    headers: Option<&'a Headers<A>>,
    input: I,
    store: K,
    printer: &mut P,
) -> Run<I, K, A>
    requires layout { layouts.0.now ≡ (opening_of recorder).layout }
    requires parts { IsFresh layouts.1.now parts }
    ensures ran { IfOk result.recorded (λ left. (arrivals : Arriving I A)
        × Begins layouts.entry.1.now how.form how.read.0 input arrivals
        × Ran I.remaining K.stores (opening_of recorder) layouts.entry.1.now how.detectors how.kind
        (is_some how.operator) how.waits (is_some times.entry) arrivals store left.ended left.counts
        result.input result.store) }
    ensures failed { IfErr result.recorded (StationFails K.stores (opening_of recorder) how.kind
        (is_some times.entry) (open_fault recorder.scans 65_536 2) (input, store) (result.input, result.store)) }
{
    let Parts {
        filler,
        tellers: (scans, triggers, exports),
        events,
        orders: (orders, placed),
        contacts: (contacts, changes),
    } = parts;
    let How {
        form,
        detectors,
        read,
        clocks: _,
        gap: _,
        kind,
        minutes,
        operator,
        waits,
        watch,
        chatter: _,
    } = how;
    let (layout, inputs) = layouts;
    let signals = Signals::new();
    let arrivals = Arrivals::new(alloc, inputs, form, read, input);
    let scans = Scans::new(
        alloc, inputs, &signals, scans, filler, detectors, contacts, times, waits,
    );
    let mut intake = Acquisition::new(rt, arrivals, scans, orders);
    let shelf = recorder.limits().shelf();
    let mut desk = Office::new(
        alloc, layout, &signals, placed, operator, triggers, headers, shelf, waits,
    );
    let mut outlet = Exports::new(
        rt, alloc, layout, kind, times, headers, &signals, store, exports,
    );
    let telling = Mutex::new(Telling::new(
        &mut *printer,
        events,
        changes,
        minutes,
        watch,
        times,
        layout,
    ));
    let pace = Napping {
        rt,
        signals: &signals,
    };
    let report = record_printing(
        pace,
        alloc,
        recorder,
        kind,
        &telling,
        &mut intake,
        &mut desk,
        &mut outlet,
    );
    drop(telling);
    let counts = Counts {
        records: outlet.records(),
        unwritten: outlet.unwritten(),
        ..intake.counts()
    };
    let report = all_made(report, &mut intake, &mut desk);
    if let Err(RunFault::Counter | RunFault::End(_)) = &report {
        let counts = counts.after(desk.steps());
        print_one(rt, printer, ended_event(counts));
    }
    Run {
        recorded: recorded_of(report, counts),
        input: intake.into_input(),
        store: outlet.into_store(),
    }
}

/// What was recorded, with what dates the record that is open at the end.
fn with_times<A: Allocator>(
    recorded: Result<Recorded<A>, RunFault>,
    times: Option<Timebase<A>>,
) -> Result<Recorded<A>, RunFault>
    ensures made { IfOk result (λ left. (l : Made A) × (recorded ≡ Ok l)
        × (left.ended ≡ l.ended) × (left.counts ≡ l.counts) × (left.times ≡ times)) }
    ensures failed { IfErr result (λ fault. recorded ≡ Err fault) }
{
    match recorded {
        Ok(Recorded { ended, counts, .. }) => Ok(Recorded {
            ended,
            counts,
            times,
        }),
        Err(fault) => Err(fault),
    }
}

/// A timebase that threads can share.
fn shared<A: Allocator>(times: Option<Timebase<A>>) -> Option<Mutex<Timebase<A>>>
    ensures { is_some result ≡ is_some times }
{
    match times {
        Some(timebase) => Some(Mutex::new(timebase)),
        None => None,
    }
}

/// A timebase that no thread shares any more.
fn unshared<A: Allocator>(times: Option<Mutex<Timebase<A>>>) -> Option<Timebase<A>>
    ensures { is_some result ≡ is_some times }
{
    match times {
        Some(timebase) => Some(timebase.into_inner()),
        None => None,
    }
}

/// A run in which the desk took all orders of the input, as it must have.
fn all_made<I, R, A: Allocator + Copy>(
    report: Result<LiveReport<A>, RunFault>,
    intake: &mut Acquisition<'_, '_, I, R, A>,
    desk: &mut Office<'_, A>,
) -> Result<LiveReport<A>, RunFault>
    requires one { IfOk report (λ _. intake.old.orders.lane ≡ desk.old.lane) }
    ensures all { IfOk result (λ made. (report ≡ Ok made)
        × (desk.old.taken ≡ intake.old.orders.items)) }
    ensures failed { IfErr result (λ fault. IsFaultOf report fault) }
    ensures same { (intake.new ≡ intake.old) × (desk.new ≡ desk.old) }
{
    match report {
        Ok(made) if intake.is_heard_by(desk) => Ok(made),
        Ok(_) => Err(RunFault::End(EndFault::Mismatch)),
        Err(fault) => Err(fault),
    }
}

/// What was recorded, with these counts.
fn recorded_of<A: Allocator>(
    report: Result<LiveReport<A>, RunFault>,
    counts: Counts,
) -> Result<Recorded<A>, RunFault>
    ensures made { IfOk result (λ left. (r : LiveReported A) × (report ≡ Ok r)
        × (left.ended ≡ r.ended)
        × (left.counts ≡ record counts { left = counts.scans - r.stepped })) }
    ensures failed { IfErr result (λ fault. report ≡ Err fault) }
{
    match report {
        Ok(LiveReport { stepped, ended, .. }) => Ok(Recorded {
            ended,
            counts: counts.after(stepped),
            times: None,
        }),
        Err(fault) => Err(fault),
    }
}

/// The event of the end.
pub(crate) fn ended_event(counts: Counts) -> Event {
    Event::Ended {
        scans: counts.scans,
        lost: counts.lost,
        records: counts.records,
        left: counts.left,
    }
}

/// Prints an event.
pub(crate) fn print_one<P: Printer>(clock: &impl Clock, printer: &mut P, event: Event) {
    printer.print(now(clock), event);
}
