//! Samples of currents that are missing.

use crate::faults::known::Source;
use crate::json::text_of;
use comtrade_fault::Place;
use comtrade_format::{File, Row};
use comtrade_values::put;
use dfr_channels::Reading;
use std::alloc::{AllocError, Allocator};

/// Whether a row has a sample of a channel.
fn has_sample<A: Allocator>(row: &Row<A>, channel: usize) -> bool {
    matches!(row.values.items().get(channel), Some(Reading::Value(_)))
}

/// Whether samples of a channel are missing.
fn lacks_some<A: Allocator>(file: &File<A>, channel: usize) -> bool {
    for row in file.rows.items() {
        if !has_sample(row, channel) {
            return true;
        }
    }
    false
}

/// Whether all samples of a channel are missing.
fn lacks_all<A: Allocator>(file: &File<A>, channel: usize) -> bool {
    for row in file.rows.items() {
        if has_sample(row, channel) {
            return false;
        }
    }
    true
}

/// Whether each place has a current without any sample.
pub(crate) fn are_blind<A: Allocator>(file: &File<A>, places: &[Place]) -> bool {
    for place in places {
        let it = place.currents;
        if !lacks_all(file, it.a) && !lacks_all(file, it.b) && !lacks_all(file, it.c) {
            return false;
        }
    }
    true
}

/// Adds the name of a channel to others.
fn put_name<A: Allocator + Copy>(
    source: &Source<'_, A>,
    names: &mut Vec<u8>,
    channel: usize,
) -> Result<(), AllocError> {
    let file = source.file;
    let Some(channel) = file.head.analog.items().get(channel) else {
        return Ok(());
    };
    if !names.is_empty() {
        put(names, ", ")?;
    }
    put(names, text_of(source.alloc, channel.id.items())?.as_str())
}

/// The names of the currents of which samples are missing.
pub(crate) fn names_of_lacking<A: Allocator + Copy>(
    source: &Source<'_, A>,
    places: &[Place],
) -> Result<String, AllocError> {
    let mut names = Vec::new(source.alloc);
    for place in places {
        let it = place.currents;
        for channel in [it.a, it.b, it.c] {
            if lacks_some(source.file, channel) {
                put_name(source, &mut names, channel)?;
            }
        }
    }
    text_of(source.alloc, &names)
}
