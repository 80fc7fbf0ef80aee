//! Real threads over one recorder: one offers, and each token has a thread of its own, which pumps and triggers, or takes.

ghost use Rattle.std.specs.Prelude.{◌≡◌};

use crate::live::ends::{ended, opened};
use crate::live::station::{is_in_order, recorder};
use crate::steps::value;
use dfr_live::{Ended, Full, Opened, Session, Shared, Source, Token};
use std::alloc::Global;
use std::marker::Brand;
use std::sync::atomic::{AtomicBool, AtomicU64, Ordering};
use std::sync::{Mutex, Wait};
use std::thread::{self, Scope, Threads};

/// Places of the lane, tokens, and scans that are offered. The tokens of even seats pump and trigger, those of odd seats take.
#[derive(Clone, Copy)]
struct Load {
    lane: usize,
    seats: u32,
    scans: u64,
}

const TURNS: u64 = 10_000_000;

const TAKES: u64 = 1000;

/// All that the threads share. A source or a token stands under a lock that its one thread holds throughout.
#[derive(Drop)]
struct Desk<N: Session<Global>> {
    alloc: Global,
    scans: u64,
    shared: Shared<N>,
    source: Mutex<Source<N>>,
    tokens: Vec<Mutex<Token>>,
    // Scan steps made, triggers and takes that were answered, and records taken.
    stepped: AtomicU64,
    calls: AtomicU64,
    records: AtomicU64,
    is_wrong: AtomicBool,
}

fn add(count: &AtomicU64, n: u64) {
    count.fetch_add(n, Ordering::SeqCst);
}

/// Offers a scan until the lane takes it.
fn offer<N: Session<Global>>(alloc: Global, source: &mut Source<N>, k: u64) -> bool {
    let mut next = value(alloc, (k % 100) as i32);
    for _ in 0..TURNS {
        let Some(scan) = next.take() else {
            return false;
        };
        match source.offer(scan) {
            Ok(()) => return true,
            Err(Full(back)) => next = Some(back),
        }
        thread::yield_now();
    }
    false
}

fn offer_all<N: Session<Global>>(alloc: Global, source: &mut Source<N>, scans: u64) -> bool {
    for k in 0..scans {
        if !offer(alloc, source, k) {
            return false;
        }
    }
    true
}

/// Pumps at most eight, and triggers where a step was made. How many steps were made; None where a call was refused for memory.
fn pump<N: Session<Global>>(rt: &impl Wait, desk: &Desk<N>, token: &mut Token) -> u64 {
    let made = desk.shared.pump(rt, token, 8).scans as u64;
    if made > 0 {
        let _hit = desk.shared.trigger(rt, token);
        add(&desk.calls, 1);
    }
    made
}

/// Until all scan steps were made.
fn pump_all<N: Session<Global>>(rt: &impl Wait, desk: &Desk<N>, token: &mut Token) -> bool {
    for _ in 0..TURNS {
        let made = pump(rt, desk, token);
        add(&desk.stepped, made);
        if desk.stepped.load(Ordering::SeqCst) >= desk.scans {
            return true;
        }
        thread::yield_now();
    }
    false
}

/// False where a record has a scan that isn't the one of its place.
fn take<N: Session<Global>>(rt: &impl Wait, desk: &Desk<N>, token: &mut Token) -> bool {
    let taken = desk.shared.take(rt, token);
    add(&desk.calls, 1);
    match taken {
        Ok(Some(record)) => {
            add(&desk.records, 1);
            is_in_order(&record, 0)
        }
        Ok(None) => true,
        Err(_) => false,
    }
}

fn take_all<N: Session<Global>>(rt: &impl Wait, desk: &Desk<N>, token: &mut Token) -> bool {
    for _ in 0..TAKES {
        if !take(rt, desk, token) {
            return false;
        }
        thread::yield_now();
    }
    true
}

fn told<N: Session<Global>>(desk: &Desk<N>, is_right: bool) {
    if !is_right {
        desk.is_wrong.store(true, Ordering::SeqCst);
    }
}

fn offer_lent<N: Session<Global>>(rt: &impl Wait, desk: &Desk<N>) {
    let mut source = desk.source.lock(rt);
    told(desk, offer_all(desk.alloc, &mut *source, desk.scans));
}

fn call_lent<N: Session<Global>>(rt: &impl Wait, desk: &Desk<N>, token: &Mutex<Token>) {
    let mut token = token.lock(rt);
    let token = &mut *token;
    if token.seat() % 2 == 0 {
        told(desk, pump_all(rt, desk, token));
    } else {
        told(desk, take_all(rt, desk, token));
    }
}

fn start_source<'s, E, N: Session<Global> + Send + Sync, R: Threads + Wait + Sync>(
    scope: &Scope<'s, E>,
    rt: &'s R,
    desk: &'s Desk<N>,
) -> bool {
    scope.spawn(move || offer_lent(rt, desk)).is_ok()
}

fn start_token<'s, E, N: Session<Global> + Send + Sync, R: Threads + Wait + Sync>(
    scope: &Scope<'s, E>,
    rt: &'s R,
    desk: &'s Desk<N>,
    token: &'s Mutex<Token>,
) -> bool {
    scope.spawn(move || call_lent(rt, desk, token)).is_ok()
}

fn start_tokens<'s, E, N: Session<Global> + Send + Sync, R: Threads + Wait + Sync>(
    scope: &Scope<'s, E>,
    rt: &'s R,
    desk: &'s Desk<N>,
) -> bool {
    for token in &desk.tokens {
        if !start_token(scope, rt, desk, token) {
            return false;
        }
    }
    true
}

/// False where a thread can't be started.
fn in_threads<N: Session<Global> + Send + Sync, R: Threads + Wait + Sync>(
    rt: &R,
    desk: &Desk<N>,
) -> bool {
    thread::scope(thread::scope_env(), rt, |scope| {
        start_source(scope, rt, desk) && start_tokens(scope, rt, desk)
    })
}

fn under_locks(alloc: Global, tokens: Vec<Token>) -> Vec<Mutex<Token>> {
    let mut locks = Vec::new(alloc);
    for token in tokens {
        let _pushed = locks.push(Mutex::new(token)).is_ok();
    }
    locks
}

fn from_locks(alloc: Global, locks: Vec<Mutex<Token>>) -> Vec<Token> {
    let mut tokens = Vec::new(alloc);
    for lock in locks {
        let _pushed = tokens.push(lock.into_inner()).is_ok();
    }
    tokens
}

fn is_whole(ended: &Ended, scans: u64, calls: u64) -> bool {
    ended.left.is_empty() && ended.recorder.scans() == scans && ended.log.len() as u64 == calls
}

fn is_whole_end(ended: Option<Ended>, scans: u64, calls: u64) -> bool {
    match ended {
        Some(ended) => is_whole(&ended, scans, calls),
        None => false,
    }
}

/// How many records were taken, where the end is Ok, nothing is left in the lane, and the log has an entry of each call.
fn ends<N: Session<Global>>(desk: Desk<N>) -> Option<u64> {
    let Desk {
        alloc,
        scans,
        shared,
        source,
        tokens,
        calls,
        records,
        ..
    } = desk;
    let tokens = from_locks(alloc, tokens);
    let ended = ended(alloc, shared.unlock(), source.into_inner(), tokens);
    is_whole_end(ended, scans, calls.into_inner()).then_some(records.into_inner())
}

fn works<N: Session<Global> + Send + Sync, R: Threads + Wait + Sync>(
    rt: &R,
    alloc: Global,
    opened: Opened,
    scans: u64,
) -> Option<u64>
    requires { (opened.opening ≡ N.opening) × (opened.lane ≡ N.lane)
        × (opened.seats ≡ N.seats) }
{
    let (shared, source, tokens) = opened.share::<N>();
    let desk = Desk {
        alloc,
        scans,
        shared,
        source: Mutex::new(source),
        tokens: under_locks(alloc, tokens),
        stepped: AtomicU64::new(0),
        calls: AtomicU64::new(0),
        records: AtomicU64::new(0),
        is_wrong: AtomicBool::new(false),
    };
    if in_threads(rt, &desk) && !desk.is_wrong.load(Ordering::SeqCst) {
        return ends(desk);
    }
    None
}

fn records<R: Threads + Wait + Sync>(rt: &R, alloc: Global, load: Load) -> Option<u64> {
    match opened(alloc, recorder(alloc, 4), load.lane, load.seats) {
        Some(opened) => works::<Brand, R>(rt, alloc, opened, load.scans),
        None => None,
    }
}

/// One token pumps and triggers, one takes; or three tokens of each work.
#[test]
fn three_and_seven_threads(rt: HostRuntime) {
    for (lane, seats) in [(1usize, 2u32), (8, 2), (3, 6)] {
        let load = Load {
            lane,
            seats,
            scans: 1000,
        };
        assert!(rt; records(&rt, rt.alloc(), load).is_some(), "lane {lane}");
    }
}
