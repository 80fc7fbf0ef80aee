//! Scripts that are read.

use crate::refused::common::{RULES, is_the_layout};
use crate::refused::refusing::{Must, Outcome, Trial, refuses, right_if};
use crate::samples::SCRIPT;
use dfr_channels::Layout;
use dfr_script::{Script, ScriptFault, ScriptRefusal, Word, script_of};
use failing_allocator::Refusing;
use std::alloc::Allocator;

/// The script says eight commands and these rules.
fn is_the_script<A: Allocator>(script: Script<A>) -> bool {
    let Script {
        setup,
        limits: _,
        rules,
        commands,
    } = script;
    let counts = commands.len() == 8 && rules.as_slice() == RULES;
    drop(rules);
    drop(commands);
    has_the_layout(Layout::new(setup).ok()) && counts
}

fn has_the_layout<A: Allocator>(layout: Option<Layout<A>>) -> bool {
    is_some_and!(layout, |layout| { is_the_layout(&layout) })
}

/// The script that is read.
#[derive(Drop)]
struct Whole<A: Allocator> {
    alloc: A,
}

impl<A: Allocator + Copy> Trial for Whole<A> {
    fn call(&mut self) -> Outcome {
        match script_of(self.alloc, SCRIPT) {
            Ok(script) => right_if(is_the_script(script)),
            Err(ScriptRefusal::Memory) => Outcome::Memory,
            Err(ScriptRefusal::Fault(_)) => Outcome::Wrong,
        }
    }
}

#[test]
fn scripts_refused(rt: HostRuntime) {
    let heap = Refusing::new(rt.alloc());
    assert!(rt; refuses(&heap, Some(Whole { alloc: &heap }), Must::Answer));
}

/// A script with this fault.
#[derive(Drop)]
struct Faulty<'a, A: Allocator> {
    alloc: A,
    text: &'a [u8],
    wanted: ScriptFault,
}

impl<A: Allocator + Copy> Trial for Faulty<'_, A> {
    fn call(&mut self) -> Outcome {
        match script_of(self.alloc, self.text) {
            Ok(script) => {
                drop(script);
                Outcome::Wrong
            }
            Err(ScriptRefusal::Memory) => Outcome::Memory,
            Err(ScriptRefusal::Fault(fault)) => right_if(fault == self.wanted),
        }
    }
}

#[test]
fn faulty_scripts_refused(rt: HostRuntime) {
    let heap = Refusing::new(rt.alloc());
    for (text, line, word) in [
        (b"station Bay 1\nanalog IA,A".as_slice(), 2u64, Word::Fields),
        (b"station Bay 1\nrules level 0 over x\n", 2, Word::Number),
        (b"station Bay 1\ndevice DFR\n", 3, Word::Setup),
    ] {
        let faulty = Faulty {
            alloc: &heap,
            text,
            wanted: ScriptFault { line, word },
        };
        assert!(rt; refuses(&heap, Some(faulty), Must::Answer), "line {line}");
    }
}
