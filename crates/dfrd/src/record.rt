//! A recording from the set-up file to its end.

ghost use Rattle.std.specs.Prelude.{◌<◌, IfSome};

use crate::capture::{Bus, FirstTime, bus_of};
use crate::check::{frame_of, need_of, print_judged};
use crate::dating::date;
use crate::health_file::version;
use crate::memory::{MemoryFault, affordable, machine_bytes};
use crate::outcome::{complain, out_of_memory, reason_of};
use crate::rules_file::{RulesFile, refuse, with_rules};
use crate::words::Asked;
use comtrade_io::{ToolFault, fault_of, read_up_to};
use comtrade_values::Memory;
use dfr_channels::Layout;
use dfr_folder::Keep;
use dfr_health::put_escaped;
use dfr_setup::{Prepared, prepared_of};
use dfr_station::{
    Control, Dates, Headers, Input, Printer, Run, Sources, Station, Store, finish_station,
    read_first, run_station,
};
use std::alloc::Global;
use std::fs;
use std::fs::File;
use std::io::Read;
use std::rt::Files;
use std::sync::Wait;
use std::thread::Threads;
use std::time::Clock;

/// The greatest size of a set-up file: 512 MiB.
const LIMIT: usize = 536_870_912;

/// A set-up that was checked.
#[derive(Drop)]
pub(crate) struct Plan {
    /// The bytes of the set-up file, with the rules of their file.
    pub(crate) setup: Vec<u8>,
    /// The file of the rules, if the set-up names one.
    pub(crate) rules: Option<RulesFile>,
    /// The size of a frame in bytes.
    pub(crate) frame: usize,
    /// The scans per second.
    pub(crate) rate: u32,
    /// The station's name, as the value of a label of metrics.
    pub(crate) station: Vec<u8>,
    /// What is recorded of a capture, if the input is one.
    pub(crate) bus: Option<Bus>,
    /// When the first scan of a capture came, once it did.
    pub(crate) first: Option<FirstTime>,
    /// What the times are of that the input tells.
    pub(crate) told: Dates,
    ghost sized: { 0 < frame },
}

impl Plan {
    /// The size of a frame, if the input has frames without anything between them.
    pub(crate) fn frame_in(&self, input: Input) -> Option<usize>
        ensures { IfSome result (λ size. 0 < size) }
    {
        match input {
            Input::Frames(_) => Some(self.frame),
            Input::Counted(_) | Input::Lines => None,
        }
    }

    /// Whether the input comes in pieces of one size, and that size. Counted frames may begin at any
    /// byte.
    pub(crate) fn pieces_in(&self, input: Input) -> (bool, usize)
        ensures { 0 < result.1 }
    {
        match input {
            Input::Frames(_) => (true, self.frame),
            Input::Counted(_) => (true, 1),
            Input::Lines => (false, self.frame),
        }
    }
}

/// Reads the set-up file.
fn read_setup<R: Files + AllocGlobal>(rt: &R, path: &str) -> Result<Vec<u8>, ToolFault> {
    match File::open(rt, path) {
        Ok(mut file) => read_up_to(rt.alloc(), &mut file, LIMIT),
        Err(error) => Err(fault_of(error.kind(), ToolFault::Input)),
    }
}

/// Reads the set-up file, and the rules of the file that it names, if it names one. What is wrong
/// with that is printed, and the error is the exit status.
fn whole_setup<R: Files + Eprint + AllocGlobal>(
    rt: &R,
    path: &str,
) -> Result<(Vec<u8>, Option<RulesFile>), u8> {
    match read_setup(rt, path) {
        Ok(setup) => with_rules(rt, path, setup),
        Err(fault) => Err(complain(rt, path, fault)),
    }
}

/// Prints what would be recorded, if that is asked for. Refuses what needs more memory than the
/// machine has. The error is the exit status.
fn judged<R: Files<File = File> + Print + Eprint + AllocGlobal>(
    rt: &R,
    asked: &Asked<'_>,
    prepared: &Prepared<Global>,
    need: u64,
) -> Result<(), u8> {
    let have = machine_bytes(rt);
    if asked.is_check
        && let Err(error) = print_judged(rt, prepared, (need, have))
    {
        return Err(complain(rt, "standard output", reason_of(&error)));
    }
    match affordable(need, have) {
        Ok(()) => Ok(()),
        Err(fault) => Err(complain(rt, asked.setup, fault)),
    }
}

/// Reads and checks the set-up. With `--check`, prints what would be recorded. If the set-up is
/// refused, prints why and returns None.
pub(crate) fn plan_of<R: Files<File = File> + Print + Eprint + AllocGlobal>(
    rt: &R,
    asked: &Asked<'_>,
) -> Option<Plan> {
    let Ok((setup, rules)) = whole_setup(rt, asked.setup) else {
        return None;
    };
    match prepared_of(rt.alloc(), &setup, asked.start.unwrap_or(0)) {
        Ok(prepared) => {
            let judged = match need_of(&prepared, setup.len()) {
                Some(need) => judged(rt, asked, &prepared, need),
                None => Err(complain(rt, asked.setup, MemoryFault::Huge)),
            };
            if judged.is_err() {
                return None;
            }
            let Ok((bus, first)) = bus_of(rt, asked, &prepared.inputs, &setup) else {
                return None;
            };
            let frame = frame_of(&prepared.inputs);
            let rate = prepared.inputs.rate();
            let mut station = Vec::new(rt.alloc());
            if put_escaped(&mut station, prepared.inputs.station()).is_err() {
                out_of_memory(rt);
                return None;
            }
            Some(Plan {
                setup,
                rules,
                frame,
                rate,
                station,
                told: bus.as_ref().map_or(Dates::Converter, Bus::told),
                bus,
                first,
            })
        }
        Err(refusal) => {
            refuse(rt, asked.setup, rules.as_ref(), refusal);
            None
        }
    }
}

/// The channels of the input. None if there is no memory, which is printed.
pub(crate) fn inputs_in<R: Eprint + AllocGlobal>(rt: &R, plan: &Plan) -> Option<Layout> {
    match prepared_of(rt.alloc(), &plan.setup, 0) {
        Ok(prepared) => Some(prepared.inputs),
        Err(_) => {
            out_of_memory(rt);
            None
        }
    }
}

/// Whether the input waits: as asked, else if standard input is a file, which loses nothing meanwhile,
/// unless the clock is to date it.
fn waits<R: Files>(rt: &R, asked: &Asked<'_>) -> bool {
    match asked.waits {
        Some(waits) => waits,
        None if asked.dated == Some(true) => false,
        None => fs::metadata(rt, "/dev/stdin").is_ok_and(|found| found.is_file()),
    }
}

/// How many pairs to keep.
pub(crate) fn keep_of(asked: &Asked<'_>) -> Keep {
    match (asked.pairs, asked.bytes) {
        (Some(n), _) => Keep::Pairs(n),
        (None, Some(n)) => Keep::Bytes(n),
        (None, None) => Keep::All,
    }
}

/// The station of a set-up, as the command line asks for it.
fn station_of(
    prepared: Prepared<Global>,
    asked: &Asked<'_>,
    operator: Option<Control>,
    waits: bool,
) -> Station {
    let Prepared {
        recorder,
        inputs,
        plans,
        detectors,
    } = prepared;
    drop(plans);
    Station {
        recorder,
        inputs,
        detectors,
        input: asked.input,
        kind: asked.kind,
        minutes: asked.has_minutes(),
        operator,
        waits,
        gap: asked.gap,
        chatter: asked.events.map(|_| asked.chatter),
    }
}

/// What headers tell, if they are asked for.
fn headers_of<R: AllocGlobal>(
    rt: &R,
    asked: &Asked<'_>,
    prepared: &Prepared<Global>,
    sources: Sources,
) -> Result<Option<Headers>, Memory> {
    if !asked.has_headers {
        return Ok(None);
    }
    let rules = prepared.recorder.rules();
    Ok(Some(Headers::new(rt.alloc(), "dfrd", version(), sources, rules)?))
}

/// Records until the input ends. Returns the exit status: 1 if no scan came, the input couldn't be
/// read, a record could not be written, or the recording failed.
pub(crate) fn record<
    I: Read + Send + Drop,
    K: Store + Send + Drop,
    P: Printer + Send,
    R: Files + Eprint + AllocGlobal + Threads + Wait + Clock + Sync,
>(
    rt: &R,
    asked: &Asked<'_>,
    plan: &Plan,
    operator: Option<Control>,
    mut input: I,
    store: K,
    printer: &mut P,
) -> u8 {
    let how = (asked.input, plan.frame, asked.has_minutes());
    let Ok(mut first) = read_first(rt, rt.alloc(), &mut input, printer, how) else {
        return out_of_memory(rt);
    };
    let waits = waits(rt, asked);
    let (start, sources) = date(rt, asked, plan, waits, &mut first, printer);
    match prepared_of(rt.alloc(), &plan.setup, start) {
        Ok(prepared) => {
            let Ok(headers) = headers_of(rt, asked, &prepared, sources) else {
                return out_of_memory(rt);
            };
            let (alloc, headers) = (rt.alloc(), headers.as_ref());
            let station = station_of(prepared, asked, operator, waits);
            let Run {
                recorded,
                input: _,
                mut store,
            } = run_station(rt, alloc, station, headers, first, input, store, printer);
            match recorded {
                Ok(mut left) => {
                    finish_station(
                        rt, alloc, asked.kind, headers, &mut left, &mut store, printer,
                    );
                    u8::from(!left.counts.is_whole())
                }
                Err(fault) => complain(rt, "recording", fault),
            }
        }
        Err(refusal) => complain(rt, asked.setup, refusal),
    }
}
