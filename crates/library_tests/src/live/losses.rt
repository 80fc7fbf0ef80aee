//! Runs in three threads whose feed loses scans.

use crate::live::parts::{OneTrigger, Texts, fed, is_report};
use crate::live::station::recorder;
use crate::samples::{FIRST_CFG, Pair};
use comtrade_write::Kind;
use dfr_live::{Fed, Feed, LiveFault, LiveReport, run_live};
use dfr_recorder::Recorder;
use std::alloc::Global;
use std::sync::Wait;
use std::thread::Threads;

/// A value, or a lost scan: two between scans, three after the last.
const GIVEN: [Option<i32>; 9] = [
    Some(10),
    Some(11),
    None,
    None,
    Some(14),
    Some(15),
    None,
    None,
    None,
];

/// The record of a trigger after four scan steps.
const RECORD: Pair = Pair {
    cfg: FIRST_CFG,
    dat: b"1,0,11\r\n2,1000,99999\r\n3,2000,99999\r\n4,3000,14\r\n5,4000,15\r\n\x1A",
};

const MILLION: u32 = 1_000_000;

/// What a feed gives.
#[derive(Clone, Copy)]
enum Giving {
    Few,
    /// A million lost scans, and then one of the value 10.
    Million,
}

#[derive(Drop)]
struct Losing {
    alloc: Global,
    giving: Giving,
    calls: u32,
}

/// What the nth call gives, from 0; None where no scan comes any more.
fn given(giving: Giving, n: u32) -> Option<Option<i32>> {
    match giving {
        Giving::Few => GIVEN.get(n as usize).copied(),
        Giving::Million => {
            if n < MILLION {
                return Some(None);
            }
            (n == MILLION).then_some(Some(10))
        }
    }
}

impl Feed<Global> for Losing {
    fn next(&mut self) -> Result<Fed, u32> {
        let n = self.calls;
        self.calls = n.saturating_add(1);
        match given(self.giving, n) {
            Some(Some(x)) => fed(self.alloc, x),
            Some(None) => Ok(Fed::Lost),
            None => Ok(Fed::Done),
        }
    }
}

fn is_done(report: &Result<LiveReport, LiveFault>, steps: u64, records: u64) -> bool {
    match report {
        Ok(report) => is_report(report, steps, records),
        Err(_) => false,
    }
}

/// The run makes so many scan steps, and hands so many records to the sink.
fn runs<R: Threads + Wait + Sync>(
    rt: &R,
    alloc: Global,
    recorder: Recorder,
    giving: Giving,
    (steps, records): (u64, u64),
) -> bool {
    let mut feed = Losing {
        alloc,
        giving,
        calls: 0,
    };
    let mut orders = OneTrigger {
        is_given: records == 0,
    };
    let mut sink = Texts {
        texts: RECORD,
        got: 0,
        are_right: true,
    };
    let report = run_live(
        rt,
        alloc,
        recorder,
        8,
        Kind::Ascii,
        10_000_000,
        &mut feed,
        &mut orders,
        &mut sink,
    );
    is_done(&report, steps, records) && sink.got == records && sink.are_right
}

fn are_run<R: Threads + Wait + Sync>(
    rt: &R,
    alloc: Global,
    giving: Giving,
    wanted: (u64, u64),
) -> bool {
    match recorder(alloc, 1) {
        Some(recorder) => runs(rt, alloc, recorder, giving, wanted),
        None => false,
    }
}

/// Those after the last scan are in no list.
#[test]
fn losses_in_threads(rt: HostRuntime) {
    assert!(rt; are_run(&rt, rt.alloc(), Giving::Few, (6, 1)));
}

#[test]
fn a_million_losses_in_threads(rt: HostRuntime) {
    assert!(rt; are_run(&rt, rt.alloc(), Giving::Million, (1_000_001, 0)));
}
