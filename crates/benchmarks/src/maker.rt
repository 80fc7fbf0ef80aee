//! The one maker of recorders, and the one place where they are opened: each other place would be dear to prove. What is let go is
//! let go by name, so that its proof is one function's.

ghost use Rattle.std.specs.Prelude.{IfSome, IsTrue};
ghost use Rattle.dfr_recorder.specs.Limits.{has_stamps};

use dfr_channels::{Layout, Memory, Rule, Rules, Setup};
use dfr_live::{Opened, open};
use dfr_recorder::{Limits, Recorder};
use dfr_script::{LimitNumbers, script_of};
use std::alloc::Allocator;

fn lawful<A: Allocator>(layout: &Layout<A>, numbers: LimitNumbers) -> Option<Limits> {
    let LimitNumbers {
        pre,
        post,
        longest,
        shelf,
        unshared,
    } = numbers;
    let limits = Limits::new(layout, pre, post, longest, shelf).ok()?;
    Some(if unshared { limits.unshared() } else { limits })
}

fn limits_of<A: Allocator>(layout: &Layout<A>, numbers: LimitNumbers) -> Option<Limits>
    ensures { IfSome result (λ limits. IsTrue (has_stamps layout.now.rate limits.longest)) }
{
    let limits = lawful(layout, numbers)?;
    if limits.fits(layout) {
        Some(limits)
    } else {
        None
    }
}

fn made<A: Allocator>(
    answer: Result<Recorder<A>, (Memory, Layout<A>, Rules<A>)>,
) -> Option<Recorder<A>> {
    match answer {
        Ok(recorder) => Some(recorder),
        Err((_, layout, rules)) => {
            drop(layout);
            drop(rules);
            None
        }
    }
}

fn with_layout<A: Allocator + Copy>(
    alloc: A,
    layout: Layout<A>,
    numbers: LimitNumbers,
    list: Vec<Rule, A>,
) -> Option<Recorder<A>> {
    let limits = limits_of(&layout, numbers);
    let rules = Rules::new(&layout, list);
    match (limits, rules) {
        (Some(limits), Ok(rules)) => made(Recorder::new(alloc, layout, limits, rules)),
        (_, rules) => {
            drop(layout);
            drop(rules);
            None
        }
    }
}

/// The set-up that a script's text says.
pub fn setup_of<A: Allocator + Copy>(alloc: A, text: &[u8]) -> Option<Setup<A>> {
    match script_of(alloc, text) {
        Ok(script) => Some(script.setup),
        Err(_) => None,
    }
}

/// The layout of a set-up, where that is lawful.
pub fn layout_of<A: Allocator>(setup: Setup<A>) -> Option<Layout<A>> {
    match Layout::new(setup) {
        Ok(layout) => Some(layout),
        Err((_, setup)) => {
            drop(setup);
            None
        }
    }
}

/// A recorder of this set-up, where that, the numbers and the rules are lawful and memory suffices.
pub fn recorder_of<A: Allocator + Copy>(
    alloc: A,
    setup: Setup<A>,
    numbers: LimitNumbers,
    list: Vec<Rule, A>,
) -> Option<Recorder<A>> {
    match layout_of(setup) {
        Some(layout) => with_layout(alloc, layout, numbers, list),
        None => {
            drop(list);
            None
        }
    }
}

/// The recorder opened, with so many places in its lane and so many tokens.
pub fn opened_of<A: Allocator + Copy>(
    alloc: A,
    recorder: Recorder<A>,
    places: usize,
    seats: u32,
) -> Option<Opened<A>> {
    match open(alloc, recorder, places, seats) {
        Ok(opened) => Some(opened),
        Err((_, recorder)) => {
            drop(recorder);
            None
        }
    }
}
