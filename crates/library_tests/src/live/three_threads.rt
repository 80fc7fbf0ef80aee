//! Runs in three threads: faults, places of orders, and load.

use crate::live::runs::{Giving, Placing, RUN, Run, outcome};
use comtrade_write::Kind;
use dfr_live::{LiveFault, OpenFault};
use dfr_recorder::{Hit, TriggerFault};

/// Two triggers over 12 scans: records of scans 1 to 5 and 6 to 10.
const TWO_RECORDS: Run = Run {
    shelf: 2,
    giving: Giving::Scans(12),
    triggers: Placing::At(&[4, 9]),
    ..RUN
};

/// How many of these records are closed after so many scans.
fn closed_after(scans: u32) -> u64 {
    (scans > 5) as u64 + (scans > 10) as u64
}

/// It fails at each of its calls in turn, the one after the last scan too. The sink had whole records of the scans before, from the
/// first on.
#[test]
fn a_feed_that_fails(rt: HostRuntime) {
    for call in 0..13u32 {
        let run = Run {
            giving: Giving::FailsAt(call),
            ..TWO_RECORDS
        };
        let came = outcome(&rt, rt.alloc(), run);
        let most = closed_after(call);
        assert!(rt;
            matches!(came, Some((Err(LiveFault::Feed(7)), got, _)) if got <= most),
            "call {call}"
        );
    }
}

#[test]
fn a_feed_without_scans(rt: HostRuntime) {
    let run = Run {
        giving: Giving::Never,
        turns: 1000,
        ..RUN
    };
    let came = outcome(&rt, rt.alloc(), run);
    assert!(rt; matches!(came, Some((Err(LiveFault::Turns), 0, _))));
}

#[test]
fn no_lane(rt: HostRuntime) {
    let came = outcome(&rt, rt.alloc(), Run { lane: 0, ..RUN });
    assert!(rt; matches!(came, Some((Err(LiveFault::Open(OpenFault::Lane)), 0, _))));
}

/// It fails at each of its calls in turn, and had the records before; the first is of scans 1 to 5.
#[test]
fn a_sink_that_fails(rt: HostRuntime) {
    for (fails_at, records, last) in [(1u64, 0u64, (0u64, 0u64)), (2, 1, (1, 5))] {
        let run = Run {
            fails_at,
            ..TWO_RECORDS
        };
        let came = outcome(&rt, rt.alloc(), run);
        assert!(rt;
            matches!(came, Some((Err(LiveFault::Sink(9)), got, newest)) if got == records && newest == last)
        );
    }
}

/// It is carried out at the end, after the last scan step, and no record closes.
#[test]
fn an_order_past_the_last_scan(rt: HostRuntime) {
    let run = Run {
        giving: Giving::Scans(3),
        triggers: Placing::At(&[100]),
        told: &[(3, Ok(Hit::Opened(1)))],
        ..RUN
    };
    let came = outcome(&rt, rt.alloc(), run);
    assert!(rt; matches!(came, Some((Ok((3, true)), 0, _))));
}

/// The second is carried out at once. No record closes.
#[test]
fn orders_before_any_scan_and_for_a_place_passed(rt: HostRuntime) {
    let run = Run {
        giving: Giving::Scans(4),
        triggers: Placing::At(&[0, 4, 2]),
        told: &[
            (0, Err(TriggerFault::NoScan)),
            (4, Ok(Hit::Opened(1))),
            (4, Ok(Hit::Extended(1))),
        ],
        ..RUN
    };
    let came = outcome(&rt, rt.alloc(), run);
    assert!(rt; matches!(came, Some((Ok((4, true)), 0, _))));
}

/// One record, of scans 1 to 5.
#[test]
fn a_record_of_either_kind(rt: HostRuntime) {
    for kind in [Kind::Ascii, Kind::Binary] {
        let run = Run {
            kind,
            giving: Giving::Scans(32),
            triggers: Placing::At(&[4]),
            ..RUN
        };
        let came = outcome(&rt, rt.alloc(), run);
        assert!(rt; matches!(came, Some((Ok((32, _)), 1, (1, 5)))));
    }
}

/// A trigger every ten scans. Where the shelf is full one is refused, so how many records come depends on the schedule.
#[test]
fn a_thousand_scans_in_small_lanes(rt: HostRuntime) {
    for lane in [1usize, 8] {
        let run = Run {
            lane,
            shelf: 4,
            giving: Giving::Scans(1000),
            triggers: Placing::Every(10, 10, 99),
            ..RUN
        };
        let came = outcome(&rt, rt.alloc(), run);
        assert!(rt;
            matches!(came, Some((Ok((1000, _)), 1..=99, _))),
            "lane {lane}"
        );
    }
}

/// Each record is handed over: also those numbered over 100, and the 64 that wait when the last order was made, since the sink
/// holds the 136th until then.
#[test]
fn two_hundred_records(rt: HostRuntime) {
    let run = Run {
        shelf: 64,
        giving: Giving::Scans(1005),
        triggers: Placing::Every(4, 5, 200),
        room: 64,
        holds_at: 136,
        ..RUN
    };
    let came = outcome(&rt, rt.alloc(), run);
    assert!(rt; matches!(came, Some((Ok((1005, _)), 200, _))));
}

#[test]
fn no_orders(rt: HostRuntime) {
    let came = outcome(&rt, rt.alloc(), RUN);
    assert!(rt; matches!(came, Some((Ok((5, _)), 0, _))));
}

/// Thousands of orders for one place: one opens a record, and all after it extend it.
#[test]
fn a_flood_of_orders(rt: HostRuntime) {
    let run = Run {
        giving: Giving::Scans(10),
        triggers: Placing::Every(5, 0, 3000),
        ..RUN
    };
    let came = outcome(&rt, rt.alloc(), run);
    assert!(rt; matches!(came, Some((Ok((10, _)), 1, _))));
}
