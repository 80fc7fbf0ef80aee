//! Calls of a recorder that threads share: what a refusal leaves, and that the call made again goes on as if nothing had happened.

use crate::live::ends::given_back;
use crate::refused::common::{Heap, are_the_rules, is_the_layout};
use crate::refused::live_ends::Leaving;
use crate::refused::live_play::{Act, Play, is_played};
use crate::refused::recorder::recorder_of;
use crate::refused::refusing::{Consuming, Must, Outcome, memory_if, refuses_anew};
use crate::refused::token_calls::Call;
use dfr_live::OpenFault;
use dfr_recorder::{Hit, Recorder, TriggerFault};
use failing_allocator::Refusing;
use std::alloc::Allocator;

type Refusal<A> = (OpenFault, Recorder<A>);

/// Whether it is opened, and then let go.
fn is_none<A: Allocator>(refusal: Option<Refusal<A>>) -> bool {
    let none = refusal.is_none();
    drop(refusal);
    none
}

fn is_as_before<A: Allocator>(back: &Recorder<A>) -> bool {
    is_the_layout(back.layout()) && are_the_rules(back.rules()) && back.scans() == 0
}

fn is_opened_then<'a>(heap: Heap<'a>, back: Recorder<Heap<'a>>) -> bool {
    let before = is_as_before(&back);
    is_none(given_back(heap, Some(back), 8, 2)) && before
}

/// A recorder that is opened. Where there is no memory for it, it comes back and is opened then.
#[derive(Clone, Copy)]
struct Opening<'a> {
    heap: Heap<'a>,
}

impl<'a> Consuming for Opening<'a> {
    type Made = Recorder<Heap<'a>>;

    fn make(&self) -> Option<Recorder<Heap<'a>>> {
        recorder_of(self.heap, true)
    }

    fn call(&self, recorder: Recorder<Heap<'a>>) -> Outcome {
        let refusal = given_back(self.heap, Some(recorder), 8, 2);
        self.heap.refuse_no_more();
        match refusal {
            None => Outcome::Right,
            Some((fault, back)) => {
                memory_if(is_opened_then(self.heap, back) && fault == OpenFault::Memory)
            }
        }
    }
}

#[test]
fn openings_refused(rt: HostRuntime) {
    let heap = Refusing::new(rt.alloc());
    assert!(rt; refuses_anew(&heap, Opening { heap: &heap }, Must::AnswerEach));
}

pub const PUMP: Act = Act::Token(Call::Pump, Some(false));

/// A record is open.
pub const PUMP_GROWS: Act = Act::Token(Call::Pump, Some(true));

pub const OPENS: Act = Act::Token(Call::Trigger(Ok(Hit::Opened(1))), Some(true));

/// There may be room for its entry.
pub const TAKES: Act = Act::Token(Call::Take(true), None);

pub const FOUR: &[Act] = &[Act::Offer(&[10, 11, 12, 13])];

/// They meet no open record; then two that its record copies.
pub const RECORDS: &[Act] = &[
    PUMP,
    PUMP,
    PUMP,
    PUMP,
    OPENS,
    Act::Offer(&[14, 15]),
    PUMP_GROWS,
    PUMP_GROWS,
];

const TRIGGERS_TOO_EARLY: &[Act] = &[Act::Token(
    Call::Trigger(Err(TriggerFault::NoScan)),
    Some(true),
)];

/// Two takes, a full lane that is pumped, and rules.
const TAKEN: &[Act] = &[
    TAKES,
    Act::Token(Call::Take(false), None),
    Act::Offer(&[1, 2, 3, 4, 5, 6, 7, 8]),
    Act::Idle(8),
    Act::Rules,
];

pub const RECORD: Play = Play {
    lane: 8,
    is_shared: true,
    acts: &[FOUR, TRIGGERS_TOO_EARLY, RECORDS, TAKEN],
    leaving: Leaving {
        calls: 5,
        lost: None,
        scans: 14,
    },
};

#[test]
fn live_calls_refused(rt: HostRuntime) {
    let heap = Refusing::new(rt.alloc());
    assert!(rt; is_played(&rt, &heap, &heap, RECORD));
}

/// A lane of one takes a scan, whose step copies nothing, and two are lost before the next. The first is made anew.
const LOSSES: &[Act] = &[
    Act::Offer(&[10]),
    Act::Full(11),
    Act::Lose(1),
    Act::Full(12),
    Act::Lose(2),
    PUMP,
    Act::Offer(&[13]),
    PUMP_GROWS,
];

/// The second is made anew before the trigger, or stays in line, with the next scan.
#[test]
fn live_losses_refused(rt: HostRuntime) {
    let heap = Refusing::new(rt.alloc());
    for (acts, scans, lost) in [
        ([LOSSES, &[PUMP_GROWS, OPENS]], 3u64, 0u32),
        ([LOSSES, &[OPENS]], 2, 1),
    ] {
        let leaving = Leaving {
            calls: 1,
            lost: Some(lost),
            scans,
        };
        let play = Play {
            lane: 1,
            is_shared: true,
            acts: &acts,
            leaving,
        };
        assert!(rt; is_played(&rt, &heap, &heap, play), "{lost} left");
    }
}
