//! The station that is measured: 32 analogue and 64 status channels at 4,800 scans a second. A script makes it, which is less to
//! prove than its channels one by one.

use crate::maker::{recorder_of, setup_of};
use dfr_channels::{Rule, Setup};
use dfr_recorder::Recorder;
use dfr_script::LimitNumbers;
use std::alloc::{AllocError, Global};

const HEAD: &str =
    "station Bay 1\ndevice DFR\nfreq 50\nrate 4800\nstart 951782400000000\nlimits 1,1,2,1\n";

/// Records of 2,001 scans.
pub const LIMITS: LimitNumbers = LimitNumbers {
    pre: 1_000,
    post: 1_000,
    longest: 1_000_000,
    shelf: 64,
    unshared: false,
};

/// For how many turns a thread of `run_live` may wait.
pub const TURNS: u64 = 1_000_000_000;

fn put_set_up(text: &mut String) -> Result<(), AllocError> {
    text.push_str(HEAD)?;
    for _ in 0..32u32 {
        text.push_str("analog I,A,line 1,A,1.5E-3,0,0,-32767,32767,400,1,P\n")?;
    }
    for _ in 0..64u32 {
        text.push_str("status S,,line 1,0\n")?;
    }
    text.push_str("go\n")
}

fn setup(alloc: Global) -> Option<Setup> {
    let mut text = String::new(alloc);
    if put_set_up(&mut text).is_err() {
        return None;
    }
    setup_of(alloc, text.as_bytes())
}

/// A recorder with these limits and rules.
pub fn recorder(alloc: Global, numbers: LimitNumbers, list: Vec<Rule>) -> Option<Recorder> {
    match setup(alloc) {
        Some(setup) => recorder_of(alloc, setup, numbers, list),
        None => {
            drop(list);
            None
        }
    }
}
