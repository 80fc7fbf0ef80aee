//! What threads share, and one call of each of them.

use crate::soak::chance::Chance;
use crate::soak::given::{Sample, Work};
use crate::soak::notes::{Note, record_sum};
use dfr_channels::{Memory, Rules, Scan};
use dfr_live::{Full, Session, Shared, Source, Token};
use failing_allocator::Refusing;
use std::alloc::{Allocator, Global};
use std::collections::VecDeque;
use std::sync::{Mutex, Wait};
use std::thread;

pub type Heap<'h> = &'h Refusing<Global>;

/// What became of a sample.
#[derive(Clone, Copy)]
pub enum Offered {
    /// The lane took the scan.
    Taken,
    /// It was counted as the nth lost one.
    Lost(u32),
}

/// The acquisition thread's own: the source, what it is given, and what it saw.
#[derive(Drop)]
pub struct Acquiring<N: Session<A>, A: Allocator> {
    pub source: Source<N, A>,
    pub samples: VecDeque<Sample<A>, A>,
    pub seen: Vec<Offered>,
    /// How often the lane was full.
    pub full: u64,
}

/// A token, and what was seen of its calls.
#[derive(Drop)]
pub struct Held<A: Allocator> {
    pub token: Token<A>,
    pub notes: Vec<Note>,
}

/// All that the threads share. A token stands under a lock for the length of a call.
#[derive(Drop)]
pub struct Desk<'h, N: Session<A>, A: Allocator> {
    pub heap: Heap<'h>,
    pub seed: u64,
    pub rounds: u64,
    pub shared: Shared<N, A>,
    pub acquiring: Mutex<Acquiring<N, A>>,
    pub tokens: Vec<Mutex<Held<A>>>,
    pub works: Mutex<VecDeque<(u64, Work<A>), A>>,
}

/// Offers a scan so many times, until the lane takes it. How often the lane was full; None where it
/// was so each time.
fn offer<N: Session<A>, A: Allocator>(
    source: &mut Source<N, A>,
    scan: Scan<A>,
    times: u64,
) -> Option<u64> {
    let mut next = Some(scan);
    for full in 0..times {
        let scan = next.take()?;
        match source.offer(scan) {
            Ok(()) => return Some(full),
            Err(Full(back)) => next = Some(back),
        }
        thread::yield_now();
    }
    None
}

impl<N: Session<A>, A: Allocator> Acquiring<N, A> {
    fn lose(&mut self) {
        if let Ok(n) = self.source.lose() {
            let _seen = self.seen.push(Offered::Lost(n)).is_ok();
        }
    }

    /// A scan that the lane doesn't take is counted as lost.
    fn offer(&mut self, scan: Scan<A>, times: u64) {
        match offer(&mut self.source, scan, times) {
            Some(full) => {
                self.full = self.full.saturating_add(full);
                let _seen = self.seen.push(Offered::Taken).is_ok();
            }
            None => {
                self.full = self.full.saturating_add(times);
                self.lose();
            }
        }
    }

    fn acquire_one(&mut self, chance: &mut Chance) -> bool {
        match self.samples.pop_front() {
            Some(Sample::Scan(scan)) => {
                let times = if chance.below(4) == 0 { 1 } else { 50 };
                self.offer(scan, times);
                true
            }
            Some(Sample::Lost) => {
                self.lose();
                true
            }
            None => false,
        }
    }

    pub fn acquire(&mut self, chance: &mut Chance) {
        for _ in 0..self.samples.len() {
            if !self.acquire_one(chance) {
                return;
            }
            chance.pause(40);
        }
    }
}

fn take<N: Session<A>, A: Allocator + Copy>(
    rt: &impl Wait,
    shared: &Shared<N, A>,
    token: &mut Token<A>,
) -> Note {
    match shared.take(rt, token) {
        Ok(Some(record)) => Note::Taken(record.extent(), record_sum(&record)),
        Ok(None) => Note::TakeNone,
        Err(Memory) => Note::TakeMemory,
    }
}

fn set_rules<N: Session<A>, A: Allocator + Copy>(
    rt: &impl Wait,
    shared: &Shared<N, A>,
    token: &mut Token<A>,
    number: u64,
    rules: Rules<A>,
) -> Note {
    match shared.set_rules(rt, token, rules) {
        Ok(()) => Note::Rules(number, Ok(())),
        Err((refusal, _)) => Note::Rules(number, Err(refusal)),
    }
}

fn pump<N: Session<A>, A: Allocator + Copy>(
    rt: &impl Wait,
    shared: &Shared<N, A>,
    token: &mut Token<A>,
    most: u64,
) -> Note {
    let most = u32::try_from(most).unwrap_or(1);
    Note::Pump(most, shared.pump(rt, token, most))
}

impl<N: Session<A>, A: Allocator + Copy> Desk<'_, N, A> {
    fn next_work(&self, rt: &impl Wait) -> Option<Work<A>> {
        match self.works.lock(rt).pop_front() {
            Some((_, work)) => Some(work),
            None => None,
        }
    }

    fn do_work(&self, rt: &impl Wait, token: &mut Token<A>, work: Work<A>) -> Note {
        match work {
            Work::Trigger => Note::Trigger(self.shared.trigger(rt, token)),
            Work::Take => take(rt, &self.shared, token),
            Work::Rules(number, rules) => set_rules(rt, &self.shared, token, number, rules),
        }
    }

    /// A call of the script, or a pump.
    fn call(&self, rt: &impl Wait, token: &mut Token<A>, chance: &mut Chance) -> Note {
        let most = chance.below(20);
        if chance.below(3) == 0 {
            if let Some(work) = self.next_work(rt) {
                return self.do_work(rt, token, work);
            }
        }
        pump(rt, &self.shared, token, most.saturating_pow(3))
    }

    fn call_noted(&self, rt: &impl Wait, held: &mut Held<A>, chance: &mut Chance) {
        let note = self.call(rt, &mut held.token, chance);
        let _seen = held.notes.push(note).is_ok();
    }

    /// One call with some token, where now and then an allocation is refused.
    fn round(&self, rt: &impl Wait, chance: &mut Chance) {
        if chance.below(16) == 0 {
            self.heap.refuse(chance.below(12).saturating_add(1));
        }
        let seat = chance.below(self.tokens.len() as u64) as usize;
        if let Some(held) = self.tokens.get(seat) {
            self.call_noted(rt, &mut held.lock(rt), chance);
        }
        chance.pause(40);
    }

    pub fn work(&self, rt: &impl Wait, number: u64) {
        let mut chance = Chance::of(self.seed, number);
        for _ in 0..self.rounds {
            self.round(rt, &mut chance);
        }
    }
}
