//! Four example programs over the library's crates, each in one module. Start your own from them.
//!
//!     examples peaks CFG DAT    prints the least and greatest value of each analogue channel
//!     examples recorder         records in three threads; prints both files of each record
//!     examples list             records a list of scans; prints both files of each record
//!     examples write [NAME]     builds a pair; prints both files, or writes NAME.cfg and NAME.dat
#![tactic(auto)]

mod listed;
mod peaks;
mod recorder;
mod write;

use anyhow::{Result, anyhow};
use std::env;

fn main(rt: HostRuntime) -> Result<()> {
    let mut words = env::args(&rt)?.skip(1);
    let (program, first, second) = (words.next(), words.next(), words.next());
    match (program.as_deref(), first.as_deref(), second.as_deref()) {
        (Some("peaks"), Some(cfg), Some(dat)) => peaks::print(&rt, cfg, dat),
        (Some("recorder"), None, _) => recorder::record(&rt),
        (Some("list"), None, _) => listed::print(&rt),
        (Some("write"), None, _) => write::print(&rt),
        (Some("write"), Some(name), None) => write::write_named(&rt, name),
        _ => Err(anyhow!("expected: peaks CFG DAT, recorder, list, or write [NAME]")),
    }
}
