//! The program `dfr`: records from a script, and reads COMTRADE files.
//!
//!     dfr replay [--kind K]              replays the script on standard input
//!     dfr live [--kind K] SCRIPT DIR     records a script in three threads; files go to DIR
//!     dfr read CFG DAT                   reads a pair of files, and prints what is in it
//!
//! K is `ascii` (the default) or `binary`. Exit status: 0 done, 1 error, 2 usage error.
#![tactic(auto)]

mod directory;
mod folder;

ghost use Rattle.std.specs.Prelude.{◌≤◌, IfOk, length};
ghost use Rattle.dfr_program.specs.Words.{NamesFiles};

use crate::directory::Disk;
use crate::folder::Folder;
use bumpalo::Bump;
use comtrade_write::Kind;
use dfr_live::Sink;
use dfr_program::{Command, RunFault, command_of, live_of, read_all, read_over, replay_over};
use std::alloc::Global;
use std::fs::File;
use std::io::Write;
use std::process::ExitCode;
use std::rt::{Env, Files};
use std::sync::Wait;
use std::thread::Threads;
use std::{env, io};

fn replay_input<R: Input + Print + AllocGlobal>(rt: &R, kind: Kind) -> Result<bool, RunFault> {
    let mut out = io::writer(rt);
    let whole = replay_over(rt.alloc(), &mut rt.reader(), &mut out, kind)?;
    match out.flush() {
        Ok(()) => Ok(whole),
        Err(_) => Err(RunFault::Output),
    }
}

/// Reads a file of at most 16,777,216 bytes. `Input` where it cannot be opened or read, or
/// is larger.
fn read_file<R: Files>(rt: &R, alloc: Global, path: &str) -> Result<Vec<u8>, RunFault>
    ensures { IfOk result (λ bytes. length bytes.items ≤ 16777216) }
{
    match File::open(rt, path) {
        Ok(mut file) => Ok(read_all(alloc, &mut file)?),
        Err(_) => Err(RunFault::Input),
    }
}

fn read_pair<R: Files + Print + AllocGlobal>(
    rt: &R,
    cfg: &str,
    dat: &str,
) -> Result<bool, RunFault> {
    let cfg = read_file(rt, rt.alloc(), cfg)?;
    let dat = read_file(rt, rt.alloc(), dat)?;
    let mut out = io::writer(rt);
    let lists = Bump::new(rt.alloc()); // a file's lists are given up together
    let whole = read_over(&lists, &cfg, &dat, &mut out)?;
    match out.flush() {
        Ok(()) => Ok(whole),
        Err(_) => Err(RunFault::Output),
    }
}

/// Records the script in a file, and hands the files of its records to the sink.
fn record_live<R: Files + Print + AllocGlobal + Threads + Wait + Sync, K: Sink + Send>(
    rt: &R,
    kind: Kind,
    script: &str,
    sink: &mut K,
) -> Result<bool, RunFault> {
    let script = read_file(rt, rt.alloc(), script)?;
    let mut out = io::writer(rt);
    let whole = live_of(rt, rt.alloc(), &script, kind, sink, &mut out)?;
    match out.flush() {
        Ok(()) => Ok(whole),
        Err(_) => Err(RunFault::Output),
    }
}

fn run<R: Files + Input + Print + AllocGlobal + Threads + Wait + Sync, K: Sink + Send>(
    rt: &R,
    words: &[String],
    command: Command,
    sink: &mut K,
) -> Result<bool, RunFault>
    requires { NamesFiles (length words.now) command }
{
    match command {
        Command::Replay(kind) => replay_input(rt, kind),
        Command::Live(kind, at) => match words.get(at..) {
            Some([script, _]) => record_live(rt, kind, script.as_str(), sink),
            _ => unreachable!(),
        },
        Command::Read(at) => match words.get(at..) {
            Some([cfg, dat]) => read_pair(rt, cfg.as_str(), dat.as_str()),
            _ => unreachable!(),
        },
    }
}

/// The words after the program's name; None where one is not valid text.
fn words_of<R: Env + AllocGlobal>(rt: &R) -> Result<Option<Vec<String>>, RunFault> {
    let words = match env::args(rt) {
        Ok(words) => words,
        Err(error) => {
            if error.kind() == io::ErrorKind::InvalidData {
                return Ok(None);
            }
            return Err(RunFault::Memory);
        }
    };
    let mut rest = Vec::new(rt.alloc());
    for word in words.skip(1) {
        if rest.push(word).is_err() {
            return Err(RunFault::Memory);
        }
    }
    Ok(Some(rest))
}

/// The last word, which names the folder of a live run.
fn last_of(words: &[String]) -> &str {
    match words.last() {
        Some(word) => word.as_str(),
        None => "",
    }
}

fn main(rt: HostRuntime) -> ExitCode {
    let words = match words_of(&rt) {
        Ok(Some(words)) => words,
        Ok(None) => {
            let _ = eprintln!(rt; "dfr: usage");
            return ExitCode::from(2);
        }
        Err(fault) => {
            let _ = eprintln!(rt; "{fault}");
            return ExitCode::from(1);
        }
    };
    let Some(command) = command_of(&words) else {
        let _ = eprintln!(rt; "dfr: usage");
        return ExitCode::from(2);
    };
    let mut folder = Folder {
        alloc: rt.alloc(),
        path: last_of(&words),
        files: Disk { rt: &rt },
    };
    match run(&rt, &words, command, &mut folder) {
        Ok(true) => ExitCode::SUCCESS,
        Ok(false) => ExitCode::from(1),
        Err(fault) => {
            let _ = eprintln!(rt; "{fault}");
            ExitCode::from(1)
        }
    }
}
