//! The recorder that the tests work on, and how it is made.

use crate::bay::{Bay, Made, layout, limits, made, recorder, rules_in};
use crate::refused::common::{Heap, RULES, SCRIPTED, are_the_rules, is_the_layout, scan};
use crate::refused::refusing::{
    Consuming, Must, Outcome, Trial, goes_on, memory_if, refuses_anew, right_if,
};
use crate::steps::is_scanned;
use dfr_channels::{Layout, Memory, Rules};
use dfr_recorder::{Hit, Limits, Record, Recorder, TriggerFault};
use failing_allocator::Refusing;
use std::alloc::Allocator;

pub fn recorder_of<A: Allocator + Copy>(alloc: A, is_shared: bool) -> Option<Recorder<A>> {
    let station = Bay {
        is_shared,
        ..SCRIPTED
    };
    recorder(alloc, station)
}

/// What a recorder is made of.
#[derive(Drop)]
struct Parts<A: Allocator> {
    layout: Layout<A>,
    limits: Limits,
    rules: Rules<A>,
}

fn make_parts<A: Allocator + Copy>(alloc: A) -> Option<Parts<A>> {
    let layout = layout(alloc, SCRIPTED)?;
    match (limits(&layout, SCRIPTED), rules_in(&layout, RULES, alloc)) {
        (Some(limits), Some(rules)) => Some(Parts {
            layout,
            limits,
            rules,
        }),
        (_, rules) => {
            drop(layout);
            drop(rules);
            None
        }
    }
}

fn is_made<A: Allocator>(made: Option<Made<A>>) -> bool {
    match made {
        Some(Ok(recorder)) => {
            let fresh = recorder.scans() == 0;
            drop(recorder);
            fresh
        }
        other => {
            drop(other);
            false
        }
    }
}

/// Parts that came back are as before, and serve a second time.
fn serve_again<A: Allocator + Copy>(alloc: A, of: Parts<A>) -> bool {
    let before = is_the_layout(&of.layout) && are_the_rules(&of.rules);
    is_made(made(alloc, of.layout, of.limits, of.rules)) && before
}

/// A recorder that is made. Where there is no memory for it its parts come back.
#[derive(Drop)]
struct New<A: Allocator> {
    alloc: A,
}

impl<A: Allocator + Copy> Consuming for New<A> {
    type Made = Parts<A>;

    fn make(&self) -> Option<Parts<A>> {
        make_parts(self.alloc)
    }

    fn call(&self, of: Parts<A>) -> Outcome {
        let limits = of.limits;
        match made(self.alloc, of.layout, limits, of.rules) {
            Some(Err((Memory, layout, rules))) => {
                let back = Parts {
                    layout,
                    limits,
                    rules,
                };
                memory_if(serve_again(self.alloc, back))
            }
            made => right_if(is_made(made)),
        }
    }
}

#[test]
fn new_refused(rt: HostRuntime) {
    let heap = Refusing::new(rt.alloc());
    assert!(rt; refuses_anew(&heap, New { alloc: &heap }, Must::AnswerEach));
}

/// Scans 1 to 5.
pub fn is_the_record<A: Allocator>(record: &Record<A>) -> bool {
    record.scans().len() == 5 && record.extent().first == 1
}

/// The same. It is let go.
pub fn was_the_record<A: Allocator>(record: Record<A>) -> bool {
    let right = is_the_record(&record);
    drop(record);
    right
}

pub fn gives_the_record<A: Allocator>(recorder: &mut Recorder<A>) -> bool {
    match recorder.take() {
        Some(record) => was_the_record(record),
        None => false,
    }
}

/// Scans of these values.
pub fn are_scanned<'a>(heap: Heap<'a>, recorder: &mut Recorder<Heap<'a>>, values: &[i32]) -> bool {
    for x in values {
        if !is_scanned(recorder, scan(heap, *x, false)) {
            return false;
        }
    }
    true
}

/// A trigger, which opens the record of this number where there is memory for it.
#[derive(Drop)]
struct Triggering<'r, A: Allocator> {
    recorder: &'r mut Recorder<A>,
    number: u64,
}

impl<A: Allocator + Copy> Trial for Triggering<'_, A> {
    fn call(&mut self) -> Outcome {
        match self.recorder.trigger() {
            Ok(hit) => right_if(hit == Hit::Opened(self.number)),
            Err(fault) => memory_if(fault == TriggerFault::Memory && !self.recorder.is_recording()),
        }
    }
}

pub fn opens<'a>(heap: Heap<'a>, recorder: &mut Recorder<Heap<'a>>, number: u64) -> bool {
    goes_on(heap, &mut Triggering { recorder, number }, Some(true))
}
