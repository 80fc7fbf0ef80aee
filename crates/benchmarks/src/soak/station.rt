//! `run_live` over a feed and a sink that pause and fail.

use crate::soak::chance::Chance;
use crate::soak::desk::Heap;
use crate::soak::given::{Given, Lists, Sample, Work};
use crate::soak::notes::text_sum;
use crate::soak::out::Out;
use crate::soak::plan::Plan;
use crate::soak::told::put_ended;
use crate::station::TURNS;
use comtrade_write::Kind;
use dfr_live::{
    EndFault, Fed, Feed, LiveFault, LiveReport, OpenFault, Order, Orders, Sink, run_live,
};
use dfr_recorder::{Extent, Recorder};
use std::alloc::{AllocGlobal, Allocator, Global};
use std::collections::VecDeque;
use std::sync::Wait;
use std::thread::Threads;

/// Counts calls, and fails at the nth.
#[derive(Clone, Copy)]
struct Failing {
    left: u64,
    chance: Chance,
}

impl Failing {
    /// It fails in some of the runs, at a call below this one.
    fn of(plan: Plan, user: u64, most: u64) -> Failing {
        let mut chance = Chance::of(plan.seed, user);
        let left = if chance.below(4) == 0 {
            chance.below(most).saturating_add(1)
        } else {
            u64::MAX
        };
        Failing { left, chance }
    }

    fn fails(&mut self) -> bool {
        self.left = self.left.saturating_sub(1);
        self.chance.pause(60);
        self.left == 0
    }
}

#[derive(Drop)]
struct Samples<A: Allocator> {
    list: VecDeque<Sample<A>, A>,
    failing: Failing,
}

impl<A: Allocator> Feed<A> for Samples<A> {
    fn next(&mut self) -> Result<Fed<A>, u32> {
        if self.failing.fails() {
            return Err(7);
        }
        if self.failing.chance.below(4) == 0 {
            return Ok(Fed::NotYet);
        }
        match self.list.pop_front() {
            Some(Sample::Scan(scan)) => Ok(Fed::Scan(scan)),
            Some(Sample::Lost) => Ok(Fed::Lost),
            None => Ok(Fed::Done),
        }
    }
}

#[derive(Drop)]
struct Works<A: Allocator> {
    list: VecDeque<(u64, Work<A>), A>,
}

impl<A: Allocator> Orders<A> for Works<A> {
    fn next(&mut self) -> Option<(u64, Order<A>)> {
        match self.list.pop_front()? {
            (place, Work::Rules(_, rules)) => Some((place, Order::SetRules(rules))),
            (place, _) => Some((place, Order::Trigger)),
        }
    }
}

/// A record's extent, and numbers that stand for its files.
type Files = (Extent, u64, u64);

#[derive(Drop)]
struct Slow {
    got: Vec<Files>,
    failing: Failing,
}

impl Sink for Slow {
    fn put(&mut self, extent: Extent, cfg: &[u8], dat: &[u8]) -> Result<(), u32> {
        if self.failing.fails() {
            return Err(9);
        }
        let files = (extent, text_sum(cfg), text_sum(dat));
        if self.got.push(files).is_err() {
            return Err(10);
        }
        Ok(())
    }
}

fn put_files(out: &mut Out, got: &[Files]) {
    for (extent, cfg, dat) in got {
        out.put("sink ");
        out.debug(*extent);
        out.item(" ", *cfg);
        out.item(" ", *dat);
        out.put("\n");
    }
}

type Report<A> = Result<LiveReport<A>, LiveFault>;

fn put_fault(out: &mut Out, fault: LiveFault) {
    out.put("fault ");
    match fault {
        LiveFault::Open(OpenFault::Used | OpenFault::Lane | OpenFault::Seats) => out.put("Open"),
        LiveFault::End(EndFault::Tokens | EndFault::Mismatch) => out.put("End"),
        _ => out.debug(fault),
    }
    out.put("\n");
}

fn put_report<A: Allocator + Copy>(out: &mut Out, report: Report<A>) {
    match report {
        Ok(report) => {
            out.item("report ", report.stepped);
            out.item(" ", report.refused);
            out.item(" ", report.records);
            out.put("\n");
            put_ended(out, report.ended);
        }
        Err(fault) => put_fault(out, fault),
    }
}

fn kind_of(plan: Plan) -> Kind {
    if plan.seats % 2 == 0 {
        Kind::Ascii
    } else {
        Kind::Binary
    }
}

fn refuse_by_chance(heap: Heap, plan: Plan) {
    let mut chance = Chance::of(plan.seed, 3000);
    let number = if chance.below(4) == 0 {
        chance.below(plan.rounds).saturating_add(1)
    } else {
        u64::MAX / 2
    };
    heap.refuse(number);
}

#[derive(Drop)]
struct Devices<A: Allocator> {
    feed: Samples<A>,
    orders: Works<A>,
    sink: Slow,
}

fn devices_of<A: Allocator>(alloc: Global, lists: Lists<A>, plan: Plan) -> Devices<A> {
    let Lists { samples, works } = lists;
    Devices {
        feed: Samples {
            list: samples,
            failing: Failing::of(plan, 11, plan.rounds),
        },
        orders: Works { list: works },
        sink: Slow {
            got: Vec::new(alloc),
            failing: Failing::of(plan, 12, 8),
        },
    }
}

fn live<A: Allocator + Copy + Send + Sync, R: Wait + Threads + Sync>(
    rt: &R,
    alloc: A,
    recorder: Recorder<A>,
    plan: Plan,
    devices: &mut Devices<A>,
) -> Report<A> {
    run_live(
        rt,
        alloc,
        recorder,
        plan.lane,
        kind_of(plan),
        TURNS,
        &mut devices.feed,
        &mut devices.orders,
        &mut devices.sink,
    )
}

/// Made for any allocator: for this heap alone it would be dear to prove.
pub fn run<A: Allocator + Copy + Send + Sync, R: Wait + Threads + Sync + AllocGlobal>(
    rt: &R,
    out: &mut Out,
    (heap, alloc): (Heap, A),
    given: Given<A>,
    plan: Plan,
) {
    let Given { recorder, lists } = given;
    let mut devices = devices_of(rt.alloc(), lists, plan);
    refuse_by_chance(heap, plan);
    let report = live(rt, alloc, recorder, plan, &mut devices);
    let refused = heap.has_refused();
    heap.refuse_none();
    put_files(out, &devices.sink.got);
    // how many calls of the feed and of the sink were to come before one fails, and whether an allocation was refused
    out.item("to come ", devices.feed.failing.left);
    out.item(" ", devices.sink.failing.left);
    out.put(if refused { " true\n" } else { " false\n" });
    drop(devices);
    put_report(out, report);
}
