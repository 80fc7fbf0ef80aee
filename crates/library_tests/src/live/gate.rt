//! A run in which calls are held until another thread's call has been entered: no order of the calls but one fits, so the three
//! works run side by side.

use crate::live::parts::fed;
use crate::live::progress::passes;
use crate::live::station::recorder;
use comtrade_write::Kind;
use dfr_live::{Fed, Feed, LiveFault, Order, Orders, Sink, run_live};
use dfr_recorder::{Extent, Recorder};
use std::alloc::Global;
use std::sync::Wait;
use std::sync::atomic::{AtomicBool, Ordering};
use std::thread::Threads;

const LOOKS: u64 = 1_000_000_000;

/// Which calls have been entered.
#[derive(Drop)]
struct Gate {
    scan_2: AtomicBool,
    order: AtomicBool,
    scan_29: AtomicBool,
    put: AtomicBool,
}

fn closed_gate() -> Gate {
    Gate {
        scan_2: AtomicBool::new(false),
        order: AtomicBool::new(false),
        scan_29: AtomicBool::new(false),
        put: AtomicBool::new(false),
    }
}

fn enter(flag: &AtomicBool) {
    flag.store(true, Ordering::SeqCst);
}

#[derive(Drop)]
struct GateFeed<'a> {
    alloc: Global,
    gate: &'a Gate,
    given: u32,
    has_waited: bool,
}

/// The call for this scan is entered, and held where it is one that is held. False after the limit of looks.
fn is_let_in(gate: &Gate, k: u32) -> bool {
    match k {
        2 => {
            enter(&gate.scan_2);
            passes(&gate.order, LOOKS)
        }
        12 => passes(&gate.put, LOOKS),
        29 => {
            enter(&gate.scan_29);
            true
        }
        _ => true,
    }
}

impl Feed<Global> for GateFeed<'_> {
    fn next(&mut self) -> Result<Fed, u32> {
        let k = self.given;
        if k == 32 {
            return Ok(Fed::Done);
        }
        if k == 12 && !self.has_waited {
            self.has_waited = true;
            return Ok(Fed::NotYet);
        }
        if !is_let_in(self.gate, k) {
            return Err(5);
        }
        self.given = k.saturating_add(1);
        fed(self.alloc, (k % 100) as i32)
    }
}

#[derive(Drop)]
struct GateOrders<'a> {
    gate: &'a Gate,
    given: bool,
}

impl Orders<Global> for GateOrders<'_> {
    fn next(&mut self) -> Option<(u64, Order)> {
        if self.given {
            return None;
        }
        self.given = true;
        enter(&self.gate.order);
        passes(&self.gate.scan_2, LOOKS).then_some((4, Order::Trigger))
    }
}

#[derive(Drop)]
struct GateSink<'a> {
    gate: &'a Gate,
    put: u64,
    extent: (u64, u64),
    bytes: (usize, usize),
    fails: bool,
}

impl Sink for GateSink<'_> {
    fn put(&mut self, extent: Extent, cfg: &[u8], dat: &[u8]) -> Result<(), u32> {
        enter(&self.gate.put);
        if self.fails {
            return Err(9);
        }
        if !passes(&self.gate.scan_29, LOOKS) {
            return Err(6);
        }
        self.put = self.put.saturating_add(1);
        self.extent = (extent.first, extent.last);
        self.bytes = (cfg.len(), dat.len());
        Ok(())
    }
}

/// What came of the run: scan steps, refused scans, records; how many records the sink got, the first and the last scan of the
/// newest, and the lengths of its files.
#[derive(Clone, Copy, Debug, PartialEq, Eq)]
struct Came {
    report: (u64, u64, u64),
    put: u64,
    extent: (u64, u64),
    bytes: (usize, usize),
}

fn gate_run<R: Threads + Wait + Sync>(
    rt: &R,
    alloc: Global,
    recorder: Recorder,
    fails: bool,
) -> Result<Came, LiveFault> {
    let gate = closed_gate();
    let mut feed = GateFeed {
        alloc,
        gate: &gate,
        given: 0,
        has_waited: false,
    };
    let mut orders = GateOrders {
        gate: &gate,
        given: false,
    };
    let mut sink = GateSink {
        gate: &gate,
        put: 0,
        extent: (0, 0),
        bytes: (0, 0),
        fails,
    };
    match run_live(
        rt,
        alloc,
        recorder,
        8,
        Kind::Ascii,
        LOOKS,
        &mut feed,
        &mut orders,
        &mut sink,
    ) {
        Ok(report) => Ok(Came {
            report: (report.stepped, report.refused, report.records),
            put: sink.put,
            extent: sink.extent,
            bytes: sink.bytes,
        }),
        Err(fault) => Err(fault),
    }
}

fn outcome<R: Threads + Wait + Sync>(
    rt: &R,
    alloc: Global,
    fails: bool,
) -> Option<Result<Came, LiveFault>> {
    match recorder(alloc, 1) {
        Some(recorder) => Some(gate_run(rt, alloc, recorder, fails)),
        None => None,
    }
}

/// A record of one channel with five rows has 142 bytes and, with one digit a value, 48: `1,0,1`, four rows such as `2,1000,2`, the
/// ends of the lines and the end mark.
const RECORD: Came = Came {
    report: (32, 0, 1),
    put: 1,
    extent: (1, 5),
    bytes: (142, 48),
};

#[test]
fn three_works_side_by_side(rt: HostRuntime) {
    assert_eq!(rt; outcome(&rt, rt.alloc(), false), Some(Ok(RECORD)));
}

#[test]
fn a_sink_that_fails_at_the_record(rt: HostRuntime) {
    assert_eq!(rt;
        outcome(&rt, rt.alloc(), true),
        Some(Err(LiveFault::Sink(9)))
    );
}
