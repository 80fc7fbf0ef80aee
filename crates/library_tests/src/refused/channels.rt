//! Copies of set-ups, channels, scans, rules and lists, and texts that are cut.

use crate::bay::{layout, rules_in, setup};
use crate::refused::common::{Heap, RULES, SCRIPTED, are_the_rules, is_the_layout, lawful, scan};
use crate::refused::refusing::{Must, Outcome, Trial, memory_if, refuses, right_if};
use dfr_channels::{
    AnalogChannel, Items, Layout, Memory, Reading, Rules, Scan, Setup, StatusChannel, copies_of,
    fields_of, lines_of,
};
use failing_allocator::Refusing;
use std::alloc::Allocator;

/// What the tests made, or a copy of it.
trait Original {
    fn is_whole(&self) -> bool;
}

fn is_named<A: Allocator>(
    id: &Items<u8, A>,
    phase: &Items<u8, A>,
    component: &Items<u8, A>,
    name: &[u8],
) -> bool {
    id.items() == name
        && phase.items() == b"A".as_slice()
        && component.items() == b"line 1".as_slice()
}

impl<A: Allocator> Original for Items<AnalogChannel<A>, A> {
    fn is_whole(&self) -> bool {
        match self.items() {
            [channel] => {
                is_named(&channel.id, &channel.phase, &channel.component, b"IA")
                    && channel.unit.items() == b"A".as_slice()
                    && channel.max == 32767
            }
            _ => false,
        }
    }
}

impl<A: Allocator> Original for Items<StatusChannel<A>, A> {
    fn is_whole(&self) -> bool {
        match self.items() {
            [channel] => {
                is_named(&channel.id, &channel.phase, &channel.component, b"TRIP")
                    && !channel.normal
            }
            _ => false,
        }
    }
}

impl<A: Allocator> Original for Items<u8, A> {
    fn is_whole(&self) -> bool {
        self.items() == b"Bay 1".as_slice()
    }
}

impl<A: Allocator> Original for Setup<A> {
    fn is_whole(&self) -> bool {
        self.station.is_whole()
            && self.device.items() == b"DFR".as_slice()
            && self.analog.is_whole()
            && self.status.is_whole()
            && self.rate == 1000
    }
}

impl<A: Allocator> Original for Layout<A> {
    fn is_whole(&self) -> bool {
        is_the_layout(self)
    }
}

impl<A: Allocator> Original for Scan<A> {
    fn is_whole(&self) -> bool {
        self.analog() == [Reading::Value(7)].as_slice() && self.status() == [true].as_slice()
    }
}

impl<A: Allocator> Original for Rules<A> {
    fn is_whole(&self) -> bool {
        are_the_rules(self)
    }
}

/// A copy, and what was copied.
fn outcome_of<T: Original + Drop, O: Original>(copy: Result<T, Memory>, original: &O) -> Outcome {
    match copy {
        Ok(copy) => right_if(copy.is_whole()),
        Err(Memory) => memory_if(original.is_whole()),
    }
}

/// What is copied: a set-up, its two lists of channels, its first text, a layout, a scan, a list of rules.
#[derive(Clone, Copy, Debug)]
enum Part {
    Setup,
    Analog,
    Status,
    Name,
    Layout,
    Scan,
    Rules,
}

#[derive(Drop)]
enum Copied<A: Allocator> {
    Setup(Setup<A>, Part),
    Layout(Layout<A>),
    Scan(Scan<A>),
    Rules(Rules<A>),
}

fn copy_part<A: Allocator + Copy>(setup: &Setup<A>, part: Part) -> Outcome {
    let alloc = *setup.analog.allocator();
    match part {
        Part::Analog => outcome_of(copies_of(alloc, setup.analog.items()), setup),
        Part::Status => outcome_of(copies_of(alloc, setup.status.items()), setup),
        Part::Name => outcome_of(setup.station.try_clone(), setup),
        _ => outcome_of(setup.try_clone(), setup),
    }
}

fn copy_layout<A: Allocator + Copy>(layout: &Layout<A>) -> Outcome {
    outcome_of(layout.try_clone(), layout)
}

fn copy_scan<A: Allocator + Copy>(scan: &Scan<A>) -> Outcome {
    outcome_of(scan.try_clone(), scan)
}

fn copy_rules<A: Allocator + Copy>(rules: &Rules<A>) -> Outcome {
    outcome_of(rules.try_clone(), rules)
}

impl<A: Allocator + Copy> Trial for Copied<A> {
    fn call(&mut self) -> Outcome {
        match self {
            Copied::Setup(setup, part) => copy_part(setup, *part),
            Copied::Layout(layout) => copy_layout(layout),
            Copied::Scan(scan) => copy_scan(scan),
            Copied::Rules(rules) => copy_rules(rules),
        }
    }
}

fn copy_of<A: Allocator + Copy>(alloc: A, part: Part) -> Option<Copied<A>> {
    Some(match part {
        Part::Layout => Copied::Layout(layout(alloc, SCRIPTED)?),
        Part::Scan => Copied::Scan(scan(alloc, 7, true)?),
        Part::Rules => Copied::Rules(lawful(alloc)?),
        part => Copied::Setup(setup(alloc, SCRIPTED)?, part),
    })
}

/// A set-up, its two lists of channels, and its first text.
#[test]
fn setups(rt: HostRuntime) {
    let heap = Refusing::new(rt.alloc());
    for part in [Part::Setup, Part::Analog, Part::Status, Part::Name] {
        assert!(rt;
            refuses(&heap, copy_of(&heap, part), Must::AnswerEach),
            "{part:?}"
        );
    }
}

#[test]
fn layouts_scans_and_rules(rt: HostRuntime) {
    let heap = Refusing::new(rt.alloc());
    for part in [Part::Layout, Part::Scan, Part::Rules] {
        assert!(rt;
            refuses(&heap, copy_of(&heap, part), Must::AnswerEach),
            "{part:?}"
        );
    }
    assert!(rt; layout_takes_none(&heap));
}

fn fits<A: Allocator>(layout: &Layout<A>, rules: Option<Rules<A>>) -> bool {
    match rules {
        Some(rules) => rules.fits(layout),
        None => false,
    }
}

fn takes_empty<'a>(heap: Heap<'a>, layout: &Layout<Heap<'a>>) -> bool {
    fits(layout, Rules::new(layout, Vec::new(heap)).ok())
}

/// What doesn't allocate is answered while every allocation is refused.
fn takes_none<'a>(
    heap: Heap<'a>,
    layout: &Layout<Heap<'a>>,
    rules: Option<Rules<Heap<'a>>>,
) -> bool {
    heap.refuse_all();
    let empty = takes_empty(heap, layout);
    let done = fits(layout, rules) && empty;
    heap.refuse_none();
    done
}

fn layout_takes_none(heap: Heap) -> bool {
    match layout(heap, SCRIPTED) {
        Some(layout) => takes_none(heap, &layout, rules_in(&layout, RULES, heap)),
        None => false,
    }
}

fn cut_lines<A: Allocator>(alloc: A) -> Outcome {
    match lines_of(alloc, b"a\r\nb\nc") {
        Ok(lines) => right_if(lines.len() == 3),
        Err(_) => Outcome::Memory,
    }
}

fn cut_fields<A: Allocator>(alloc: A) -> Outcome {
    match fields_of(alloc, b" a , b,,d") {
        Ok(fields) => right_if(fields.len() == 4),
        Err(_) => Outcome::Memory,
    }
}

/// A text that is cut into lines, or into fields.
#[derive(Drop)]
struct Cut<A: Allocator> {
    alloc: A,
    into_lines: bool,
}

impl<A: Allocator + Copy> Trial for Cut<A> {
    fn call(&mut self) -> Outcome {
        if self.into_lines {
            cut_lines(self.alloc)
        } else {
            cut_fields(self.alloc)
        }
    }
}

/// While every allocation is refused nothing can make up for one.
fn is_never_cut(heap: Heap) -> bool {
    heap.refuse_all();
    let cut = cut_lines(heap) == Outcome::Memory && cut_fields(heap) == Outcome::Memory;
    heap.refuse_none();
    cut
}

/// An allocation that is refused is answered so, or made up for by another.
#[test]
fn cut_texts(rt: HostRuntime) {
    let heap = Refusing::new(rt.alloc());
    for into_lines in [true, false] {
        let cut = Cut {
            alloc: &heap,
            into_lines,
        };
        assert!(rt; refuses(&heap, Some(cut), Must::Meet));
    }
    assert!(rt; is_never_cut(&heap));
}
