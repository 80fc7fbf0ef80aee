//! A recorder by chance, with calls that are refused memory: what each thread saw and what the end left.

mod chance;
mod desk;
mod ending;
mod given;
mod notes;
mod out;
mod plan;
mod shared_run;
mod station;
mod threads;
mod told;

use crate::soak::given::given_of;
use crate::soak::out::Out;
use crate::soak::plan::{Plan, Way};
use anyhow::{Context, Result};
use dfr_script::script_of;
use failing_allocator::Refusing;
use std::alloc::AllocGlobal;
use std::env::Args;
use std::io::Read;
use std::sync::Wait;
use std::thread::Threads;

fn run<R: Wait + Threads + Sync + AllocGlobal>(
    rt: &R,
    out: &mut Out,
    text: &[u8],
    plan: Plan,
) -> bool {
    let heap = Refusing::new(rt.alloc());
    let Ok(script) = script_of(&heap, text) else {
        return false;
    };
    let Some(given) = given_of(&heap, script) else {
        return false;
    };
    match plan.way {
        Way::Free | Way::Orderly => shared_run::run(rt, out, (&heap, &heap), given, plan),
        Way::Station => station::run(rt, out, (&heap, &heap), given, plan),
    }
    true
}

pub fn soak<R: Wait + Threads + Sync + Input + Print + AllocGlobal>(
    rt: &R,
    words: &mut Args,
) -> Result<()> {
    let plan = Plan::of(words).context("WAY SEED LANE SEATS THREADS ROUNDS")?;
    let mut text = Vec::new(rt.alloc());
    rt.reader().read_to_end(&mut text)?;
    let mut out = Out::new(rt.alloc());
    if !run(rt, &mut out, &text, plan) {
        return None.context("a script of a recorder");
    }
    print!(rt; "{}", out.text)?;
    Ok(())
}
