//! What the tests are made of.

use crate::bay::{BOTH, Bay, OVER_100, layout, rules_in};
use crate::channels::RISE;
use crate::steps;
use dfr_channels::{Layout, Reading, Rule, Rules, Scan};
use failing_allocator::Refusing;
use std::alloc::{Allocator, Global};

pub type Heap<'a> = &'a Refusing<Global>;

/// The rules of `samples::SCRIPT`.
pub const RULES: &[Rule] = &[OVER_100, RISE];

/// What it sets up.
pub const SCRIPTED: Bay = Bay {
    rules: RULES,
    ..BOTH
};

/// Its steps: four scans, a trigger, two scans that fill the record, and a take.
pub const STEPS: &[u8] = b"abcd!ef^";

/// Those before the take: a record waits.
pub const CLOSES: &[u8] = b"abcd!ef";

pub fn is_the_layout<A: Allocator>(layout: &Layout<A>) -> bool {
    layout.station() == b"Bay 1".as_slice()
        && layout.device() == b"DFR".as_slice()
        && layout.analog().len() == 1
        && layout.status().len() == 1
        && layout.rate() == 1000
}

/// The rules over the layout.
pub fn lawful<A: Allocator + Copy>(alloc: A) -> Option<Rules<A>> {
    match layout(alloc, SCRIPTED) {
        Some(layout) => rules_in(&layout, RULES, alloc),
        None => None,
    }
}

pub fn are_the_rules<A: Allocator>(rules: &Rules<A>) -> bool {
    rules.list() == RULES
}

/// A scan of that layout.
pub fn scan<A: Allocator + Copy>(alloc: A, x: i32, bit: bool) -> Option<Scan<A>> {
    steps::scan(alloc, &[Reading::Value(x)], &[bit])
}

/// Adds the line where it stands here.
fn put_line<A: Allocator>(out: &mut Vec<u8, A>, here: bool, line: &[u8]) -> bool {
    !here || out.extend_from_slice(line).is_ok() && out.extend_from_slice(b"\r\n").is_ok()
}

/// The text with this line, counted from 1, in place of its own.
pub fn with_line<A: Allocator>(alloc: A, text: &[u8], n: usize, line: &[u8]) -> Option<Vec<u8, A>> {
    let mut out = Vec::new(alloc);
    let mut at = 1usize;
    let mut all = put_line(&mut out, at == n, line);
    for byte in text {
        all = all && (at == n || out.push(*byte).is_ok());
        if *byte == b'\n' {
            at = at.saturating_add(1);
            all = all && put_line(&mut out, at == n, line);
        }
    }
    if all { Some(out) } else { None }
}
