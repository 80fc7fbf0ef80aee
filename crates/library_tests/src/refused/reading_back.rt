//! Runs that are refused an allocation, and the records of a run that are written and read back.

use crate::refused::common::{SCRIPTED, STEPS};
use crate::refused::refusing::{
    Consuming, Must, Outcome, Trial, memory_if, refuses, refuses_anew, right_if,
};
use crate::refused::runs::goes_on;
use crate::steps::{Start, begun, ran};
use comtrade_write::{File, Kind};
use dfr_channels::Memory;
use dfr_program::{read_of_run, run_and_read};
use dfr_recorder::Ran;
use failing_allocator::Refusing;
use std::alloc::Allocator;
use std::marker::Model;

fn is_one_record<A: Allocator>(files: &[File<A>]) -> bool {
    match files {
        [file] => file.rows.items().len() == 5,
        _ => false,
    }
}

/// A run, each of whose records is its recorder's own.
#[derive(Drop)]
struct Own<A: Allocator> {
    alloc: A,
    ran: Ran<A>,
}

impl<A: Allocator> Model for Own<A> {
    ghost use Rattle.std.specs.List.{All};
    ghost use Rattle.dfr_recorder.specs.Answers.{answer_of};
    ghost use Rattle.dfr_recorder.specs.Run.{IsOwnAnswer};
    ghost use Rattle.dfr_recorder.specs.declared.sequence.Ran.{Ran as RanParts};

    ghost Value = { RanParts A };

    ghost view = { λ o. o.ran };

    ghost invariant = { λ o. All (λ answer. IsOwnAnswer o.ran.recorder.layout (answer_of answer)) o.ran.answers.items };
}

impl<A: Allocator + Copy> Trial for Own<A> {
    fn call(&mut self) -> Outcome {
        match read_of_run(self.alloc, &self.ran, Kind::Ascii) {
            Ok(files) => outcome_of(files, false),
            Err(Memory) => Outcome::Memory,
        }
    }
}

fn own_run<A: Allocator + Copy>(alloc: A) -> Option<Own<A>> {
    match ran(alloc, SCRIPTED, STEPS) {
        Some(ran) => Some(Own { alloc, ran }),
        None => None,
    }
}

/// A run whose files are wanted again after each refusal.
#[test]
fn runs_read_back(rt: HostRuntime) {
    let heap = Refusing::new(rt.alloc());
    assert!(rt; refuses(&heap, own_run(&heap), Must::Answer));
}

/// Where the run was stopped, none of its steps took a record.
fn outcome_of<A: Allocator>(files: Vec<File<A>, A>, stopped: bool) -> Outcome {
    let outcome = if stopped {
        memory_if(files.is_empty())
    } else {
        right_if(is_one_record(&files))
    };
    drop(files);
    outcome
}

fn is_stopped<A: Allocator>(ran: Ran<A>) -> bool {
    let stopped = ran.stopped.is_some();
    drop(ran);
    stopped
}

/// A run and its files in one call. Where an allocation of the run is refused, the files are those of the steps made.
fn is_read<A: Allocator + Copy>(alloc: A, of: Start<A>) -> Outcome {
    let (ran, read) = run_and_read(alloc, of.recorder, of.steps, Kind::Binary);
    match read {
        Ok(files) => outcome_of(files, is_stopped(ran)),
        Err(Memory) => memory_if(!is_stopped(ran)),
    }
}

/// A run, and whether its files are read in the same call.
#[derive(Drop)]
struct Running<A: Allocator> {
    alloc: A,
    is_read: bool,
}

impl<A: Allocator + Copy> Consuming for Running<A> {
    type Made = Start<A>;

    fn make(&self) -> Option<Start<A>> {
        begun(self.alloc, SCRIPTED, STEPS)
    }

    fn call(&self, of: Start<A>) -> Outcome {
        if self.is_read {
            return is_read(self.alloc, of);
        }
        goes_on(self.alloc, of)
    }
}

/// A run that is refused an allocation stops. This test and `recorder_calls_refused` refuse a recorder that keeps every scan in a
/// hidden list: a run would go on where the list can't grow.
#[test]
fn runs_refused(rt: HostRuntime) {
    let heap = Refusing::new(rt.alloc());
    for (is_read, must) in [(false, Must::AnswerEach), (true, Must::Answer)] {
        let running = Running {
            alloc: &heap,
            is_read,
        };
        assert!(rt; refuses_anew(&heap, running, must));
    }
}
