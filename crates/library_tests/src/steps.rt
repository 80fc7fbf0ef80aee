//! Scans, and the steps of a run.

ghost use Rattle.std.specs.Prelude.{IfSome};
ghost use Rattle.std.specs.List.{All};
ghost use Rattle.dfr_recorder.specs.Answers.{answer_of};
ghost use Rattle.dfr_recorder.specs.Run.{IsOwnAnswer};

use crate::bay::{Bay, recorder};
use dfr_channels::{Reading, Scan};
use dfr_recorder::{Ran, Record, Recorder, Step, run};
use std::alloc::{Allocator, Global};
use std::collections::VecDeque;

pub fn scan<A: Allocator + Copy>(alloc: A, readings: &[Reading], bits: &[bool]) -> Option<Scan<A>> {
    let readings = Vec::from_slice(alloc, readings).ok()?;
    match Vec::from_slice(alloc, bits) {
        Ok(bits) => Some(Scan::new(readings, bits)),
        Err(_) => None,
    }
}

/// A scan of one channel.
pub fn value<A: Allocator + Copy>(alloc: A, x: i32) -> Option<Scan<A>> {
    scan(alloc, &[Reading::Value(x)], &[])
}

/// Whether the scan has this value alone.
pub fn is_value<A: Allocator>(scan: &Scan<A>, x: i32) -> bool {
    matches!(scan.analog(), [Reading::Value(y)] if *y == x)
}

/// Whether the recorder accepts the scan.
pub fn is_scanned<A: Allocator + Copy>(recorder: &mut Recorder<A>, scan: Option<Scan<A>>) -> bool {
    match scan {
        Some(scan) => recorder.scan(scan).is_ok(),
        None => false,
    }
}

/// Of six channels of each kind.
const SIX_READINGS: [Reading; 6] = [
    Reading::Value(-760),
    Reading::Value(1274),
    Reading::Value(72),
    Reading::Value(61),
    Reading::Value(-140),
    Reading::Value(-502),
];

const SIX_BITS: [bool; 6] = [false, false, false, false, true, true];

fn lone<A: Allocator + Copy>(alloc: A) -> Option<Scan<A>> {
    let mut bits = [false; 17];
    bits[16] = true;
    scan(alloc, &[Reading::Missing], &bits)
}

/// The scan that a byte stands for: one of one channel with the value 0, 100, or 10 and the digit; one with the value 10 and the
/// letter from `a` on, and an open contact; that of six channels; the lone bit.
fn scan_of<A: Allocator + Copy>(alloc: A, byte: u8) -> Option<Scan<A>> {
    match byte {
        b'z' => value(alloc, 0),
        b'h' => value(alloc, 100),
        b'0'..=b'9' => value(alloc, 10 + (byte - b'0') as i32),
        b'a'..=b'f' => scan(
            alloc,
            &[Reading::Value(10 + (byte - b'a') as i32)],
            &[false],
        ),
        b's' => scan(alloc, &SIX_READINGS, &SIX_BITS),
        b'l' => lone(alloc),
        _ => None,
    }
}

/// The step that a byte stands for: a trigger, a take, or a scan.
fn step<A: Allocator + Copy>(alloc: A, byte: u8) -> Option<Step<A>> {
    match byte {
        b'!' => Some(Step::Trigger),
        b'^' => Some(Step::Take),
        _ => Some(Step::Scan(scan_of(alloc, byte)?)),
    }
}

fn push<A: Allocator + Copy>(alloc: A, steps: &mut VecDeque<Step<A>, A>, byte: u8) -> bool {
    match step(alloc, byte) {
        Some(step) => steps.push_back(step).is_ok(),
        None => false,
    }
}

fn push_all<A: Allocator + Copy>(
    alloc: A,
    steps: &mut VecDeque<Step<A>, A>,
    script: &[u8],
) -> bool {
    for byte in script {
        if !push(alloc, steps, *byte) {
            return false;
        }
    }
    true
}

fn steps<A: Allocator + Copy>(alloc: A, script: &[u8]) -> Option<VecDeque<Step<A>, A>> {
    let mut steps = VecDeque::new(alloc);
    if push_all(alloc, &mut steps, script) {
        return Some(steps);
    }
    drop(steps);
    None
}

/// A recorder, and the steps that it is to make.
#[derive(Drop)]
pub struct Start<A: Allocator = Global> {
    pub recorder: Recorder<A>,
    pub steps: VecDeque<Step<A>, A>,
}

pub fn begun<A: Allocator + Copy>(alloc: A, bay: Bay, script: &[u8]) -> Option<Start<A>> {
    let recorder = recorder(alloc, bay)?;
    match steps(alloc, script) {
        Some(steps) => Some(Start { recorder, steps }),
        None => {
            drop(recorder);
            None
        }
    }
}

/// What a run of these steps left.
pub fn ran<A: Allocator + Copy>(alloc: A, bay: Bay, script: &[u8]) -> Option<Ran<A>>
    ensures { IfSome result (λ ran. All (λ answer. IsOwnAnswer ran.recorder.layout (answer_of answer)) ran.answers.items) }
{
    match begun(alloc, bay, script) {
        Some(start) => Some(run(alloc, start.recorder, start.steps)),
        None => None,
    }
}

/// The recorder after these steps, whose answers are let go.
pub fn recorder_after<A: Allocator + Copy>(
    alloc: A,
    bay: Bay,
    script: &[u8],
) -> Option<Recorder<A>> {
    match ran(alloc, bay, script) {
        Some(ran) => {
            drop(ran.answers);
            drop(ran.stopped);
            drop(ran.rest);
            Some(ran.recorder)
        }
        None => None,
    }
}

/// The record that waits after these steps.
pub fn taken<A: Allocator + Copy>(alloc: A, bay: Bay, script: &[u8]) -> Option<Record<A>> {
    let mut recorder = recorder_after(alloc, bay, script)?;
    let record = recorder.take();
    drop(recorder);
    record
}
