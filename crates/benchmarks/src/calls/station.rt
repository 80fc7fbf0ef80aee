//! The recorder that is measured.

use crate::station;
use crate::station::LIMITS;
use anyhow::{Context, Result};
use dfr_channels::Rule;
use dfr_recorder::Recorder;
use dfr_script::LimitNumbers;
use std::alloc::{AllocError, Global};

/// So many level rules, none of which holds.
fn rules(alloc: Global, count: u32) -> Result<Vec<Rule>, AllocError> {
    let mut list = Vec::new(alloc);
    for channel in 0..count {
        list.push(Rule::Level {
            channel,
            over: true,
            threshold: 32_768,
        })?;
    }
    Ok(list)
}

/// All of it is lawful: only memory may be wanting.
pub fn recorder(alloc: Global, pre: u32, post: u32, rule_count: u32) -> Result<Recorder> {
    let numbers = LimitNumbers {
        pre,
        post,
        shelf: 1,
        ..LIMITS
    };
    let list = rules(alloc, rule_count)?;
    station::recorder(alloc, numbers, list).context("memory")
}
