//! The threads: the first offers scans, the others call.

use crate::soak::chance::Chance;
use crate::soak::desk::Desk;
use dfr_live::Session;
use std::alloc::Allocator;
use std::sync::Wait;
use std::thread::{self, Scope, Threads};

/// What thread 0 does, which offers the scans, or another one, which calls.
fn work<N: Session<A>, A: Allocator + Copy>(rt: &impl Wait, desk: &Desk<'_, N, A>, thread: u64) {
    match thread.checked_sub(1) {
        Some(number) => desk.work(rt, number),
        None => {
            let mut chance = Chance::of(desk.seed, 1000);
            desk.acquiring.lock(rt).acquire(&mut chance);
        }
    }
}

fn start_all<
    's,
    E,
    N: Session<A> + Send + Sync,
    A: Allocator + Copy + Send + Sync,
    R: Threads + Wait + Sync,
>(scope: &Scope<'s, E>, rt: &'s R, desk: &'s Desk<'_, N, A>, first: u64, end: u64) -> bool {
    for thread in first..end {
        if scope.spawn(move || work(rt, desk, thread)).is_err() {
            return false;
        }
    }
    true
}

/// Runs the threads of these numbers. False where one can't be started.
pub fn run<
    N: Session<A> + Send + Sync,
    A: Allocator + Copy + Send + Sync,
    R: Threads + Wait + Sync,
>(rt: &R, desk: &Desk<'_, N, A>, first: u64, end: u64) -> bool {
    thread::scope(thread::scope_env(), rt, |scope| {
        start_all(scope, rt, desk, first, end)
    })
}
