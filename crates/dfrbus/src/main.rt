//! The program: `dfrbus SETUP` makes of a capture of a process bus, on standard input, the lines of
//! scans that `dfrd` reads. What is lost is told on standard error.
#![tactic(auto)]

mod inputs;
mod lines;

use crate::inputs::plan_at;
use crate::lines::convert;
use std::process::ExitCode;
use std::rt::{Env, Files};
use std::sync::Wait;
use std::time::Clock;
use std::{env, io};

const USAGE: &str = "usage: dfrbus SETUP < CAPTURE
Writes the scans of a process bus as lines that dfrd reads. SETUP has a plan below go.
";

/// The only word after the program's name.
fn word_of<R: Env + AllocGlobal>(rt: &R) -> io::Result<Option<String>> {
    let mut only = None;
    let mut count = 0;
    for word in env::args(rt)?.skip(1) {
        only = Some(word);
        count = if count < 2 { count + 1 } else { count };
    }
    Ok(if count == 1 { only } else { None })
}

/// Converts the capture under the plan of this set-up. Returns the exit status.
fn run<R: Files + Input + Print + Eprint + AllocGlobal + Wait + Clock>(rt: &R, path: &str) -> u8 {
    match plan_at(rt, path) {
        Some(plan) => convert(rt, plan),
        None => 1,
    }
}

fn main(rt: HostRuntime) -> ExitCode {
    match word_of(&rt) {
        Ok(Some(word)) if !word.as_str().starts_with("-") => {
            ExitCode::from(run(&rt, word.as_str()))
        }
        _ => {
            let _ = eprint!(rt; "{USAGE}");
            ExitCode::from(2)
        }
    }
}
