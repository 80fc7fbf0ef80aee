//! A recording in three threads from a list of scans to a list of files. Its devices say what each
//! of their calls does (`gives`, `hands`, `puts`), so the contract says what the whole run gives.

ghost use Rattle.std.specs.Prelude.{◌≡◌, length, map, IfOk, IfErr, IfSome, Err};
ghost use Rattle.dfr_live.specs.Calls.{open_fault};
ghost use Rattle.dfr_live.specs.Listed.{FeedsNext};
ghost use Rattle.dfr_live.specs.Seen.{opening_of};
ghost use Rattle.examples.specs.Lists as spec;

use crate::recorder::line_recorder;
use anyhow::Result;
use comtrade_write::Kind;
use dfr_channels::{Reading, Scan};
use dfr_live::{Fed, Feed, LiveFault, Order, Orders, Sink, run_live};
use dfr_recorder::{Extent, Recorder};
use std::alloc::{Allocator, Global};
use std::io::{self, Write};
use std::sync::Wait;
use std::thread::Threads;
use std::vec::IntoIter;

/// A feed over a list: a scan, or None where one was lost.
#[derive(Drop)]
struct ListFeed<A: Allocator> {
    rest: IntoIter<Option<Scan<A>>, A>,
}

impl<A: Allocator> Feed<A> for ListFeed<A> {
    ghost gives = { λ s r t. FeedsNext (spec.steps_left s) r (spec.steps_left t) };

    fn next(&mut self) -> Result<Fed<A>, u32> {
        match self.rest.next() {
            Some(Some(scan)) => Ok(Fed::Scan(scan)),
            Some(None) => Ok(Fed::Lost),
            None => Ok(Fed::Done),
        }
    }
}

/// No orders: the rules alone trigger.
#[derive(Drop)]
struct NoOrders;

impl<A: Allocator> Orders<A> for NoOrders {
    ghost hands = { λ _ o _. spec.HandsNone o };

    fn next(&mut self) -> Option<(u64, Order<A>)> {
        None
    }
}

/// Both files of a record, and which scans it has.
#[derive(Drop)]
pub struct Pair<A: Allocator = Global> {
    pub extent: Extent,
    pub cfg: Vec<u8, A>,
    pub dat: Vec<u8, A>,
}

/// A sink that keeps the files in a list. Its own error is 1: no memory.
#[derive(Drop)]
struct ListSink<A: Allocator> {
    alloc: A,
    pairs: Vec<Pair<A>, A>,
}

impl<A: Allocator + Copy> Sink for ListSink<A> {
    ghost puts = { λ s files r t. spec.Keeps (spec.kept s) files r (spec.kept t) };

    fn put(&mut self, extent: Extent, cfg: &[u8], dat: &[u8]) -> Result<(), u32> {
        let cfg = Vec::from_slice(self.alloc, cfg).or(Err(1u32))?;
        let dat = Vec::from_slice(self.alloc, dat).or(Err(1u32))?;
        let pair = Pair { extent, cfg, dat };
        self.pairs.push(pair).or(Err(1u32))
    }
}

/// Records a list of scans in three threads, and returns the files of the records that were taken.
///
/// By the contract the source took in exactly the scans of the list, lost ones too, and none is
/// left. The list of files has, in order, those of each record that closed: the record that a
/// recorder in one thread gives at that point of the list of steps. No finished record is left. The
/// error is never `Feed`, `Sink` only with the code 1: no memory, and `Counter` only where the list
/// is of 4,294,967,295 scans or more.
pub fn record_list<A: Allocator + Copy + Send + Sync, R: Threads + Wait + Sync>(
    rt: &R,
    alloc: A,
    recorder: Recorder<A>,
    kind: Kind,
    scans: Vec<Option<Scan<A>>, A>,
) -> Result<Vec<Pair<A>, A>, LiveFault>
    ensures files { IfOk result (λ pairs. spec.IsRecorded A (opening_of recorder) kind
        (map spec.step_of scans.items) (map spec.files_in pairs.items)) }
    ensures open { IfSome (open_fault recorder.scans 64 2)
        (λ fault. result ≡ Err (LiveFault.Open fault)) }
    ensures fault { IfErr result (spec.CanFail (length scans.items)) }
{
    let (lane, turns) = (64, 1_000_000_000); // as in `recorder`
    let mut feed = ListFeed {
        rest: scans.into_iter(),
    };
    let mut sink = ListSink {
        alloc,
        pairs: Vec::new(alloc),
    };
    run_live(
        rt,
        alloc,
        recorder,
        lane,
        kind,
        turns,
        &mut feed,
        &mut NoOrders,
        &mut sink,
    )?;
    Ok(sink.pairs)
}

/// A hundred scans of a line whose current rises tenfold from scan 30 to scan 39. Scan 35 is lost.
fn line_scans(alloc: Global) -> Result<Vec<Option<Scan>>> {
    let mut scans = Vec::new(alloc);
    for number in 0u32..100 {
        let sample = if (30..=39).contains(&number) {
            1000
        } else {
            100
        };
        let readings = Vec::from_slice(alloc, &[Reading::Value(sample)])?;
        let scan = Scan::new(readings, Vec::new(alloc));
        scans.push(if number == 35 { None } else { Some(scan) })?;
    }
    Ok(scans)
}

/// Records the list, and prints both files of each record.
pub fn print<R: Threads + Wait + Print + AllocGlobal + Sync>(rt: &R) -> Result<()> {
    let alloc = rt.alloc();
    let recorder = line_recorder(alloc)?;
    let pairs = record_list(rt, alloc, recorder, Kind::Ascii, line_scans(alloc)?)?;
    let mut out = io::writer(rt);
    for pair in &pairs {
        out.write_all(&pair.cfg)?;
        out.write_all(&pair.dat)?;
    }
    Ok(out.flush()?)
}
