//! Calls of one thread as a list, with what each is answered.

use crate::bay::OVER_100;
use crate::channels::{RISE, rules};
use crate::live::station::is_in_order;
use crate::steps::{is_value, scan, value};
use dfr_channels::{Reading, Rules, Scan};
use dfr_live::{
    Call, End, Entry, Full, Pumped, Reply, RulesRefusal, Session, Shared, Source, Token,
};
use dfr_recorder::{Extent, Hit, Record, TriggerFault};
use std::alloc::{Allocator, Global};
use std::sync::Wait;

/// The value of the first scan that the lists offer; each further one is one more.
const FIRST: u64 = 10;

const TWO_READINGS: [Reading; 2] = [Reading::Value(1), Reading::Value(2)];

/// A call and its answer.
#[derive(Clone, Copy)]
pub enum Act {
    /// Scans of these values, which the lane takes.
    Offer(&'static [i32]),
    /// A scan of this value, which comes back since the lane is full.
    Full(i32),
    /// A scan of two readings, which the lane takes and the recorder refuses.
    TwoReadings,
    /// A lost scan, the nth since the last one that the lane took.
    Lose(u32),
    /// So many lost scans are counted.
    Lost(u32),
    /// A pump of at most so many scan steps, which makes so many and then stops for this.
    Pump(u32, u32, End),
    Trigger(Result<Hit, TriggerFault>),
    /// A take of the record with this first and this last scan.
    Take(u64, u64),
    TakeNone,
    /// A rule that fires from 100 on, which is set.
    Level,
    /// A rule on a contact, which comes back.
    Edge,
}

/// Whether the lane takes the scan or, where it is full, hands one of this value back. It waits for nobody: it is given no runtime.
pub fn offers<N: Session<A>, A: Allocator>(
    source: &mut Source<N, A>,
    scan: Option<Scan<A>>,
    full: Option<i32>,
) -> bool {
    match scan {
        Some(scan) => match source.offer(scan) {
            Ok(()) => full.is_none(),
            Err(Full(back)) => {
                let is_back = matches!(full, Some(x) if is_value(&back, x));
                drop(back);
                is_back
            }
        },
        None => false,
    }
}

fn are_offered<N: Session<Global>>(alloc: Global, source: &mut Source<N>, values: &[i32]) -> bool {
    for x in values {
        if !offers(source, value(alloc, *x), None) {
            return false;
        }
    }
    true
}

fn is_taken(record: &Record, first: u64, last: u64) -> bool {
    let extent = record.extent();
    is_in_order(record, FIRST) && extent.first == first && extent.last == last
}

/// Whether the rules are set; else they come back since their channel isn't there.
fn sets<N: Session<Global>>(
    rt: &impl Wait,
    shared: &Shared<N>,
    token: &mut Token,
    rules: Option<Rules>,
    are_set: bool,
) -> bool {
    match rules {
        Some(rules) => match shared.set_rules(rt, token, rules) {
            Ok(()) => are_set,
            Err((fault, back)) => !are_set
                && fault == RulesRefusal::NoChannel
                && back.list().len() == 1,
        },
        None => false,
    }
}

fn takes<N: Session<Global>>(
    rt: &impl Wait,
    shared: &Shared<N>,
    token: &mut Token,
    wanted: Option<(u64, u64)>,
) -> bool {
    match (shared.take(rt, token), wanted) {
        (Ok(Some(record)), Some((first, last))) => is_taken(&record, first, last),
        (Ok(None), None) => true,
        _ => false,
    }
}

fn is_offered<N: Session<Global>>(alloc: Global, source: &mut Source<N>, act: Act) -> bool {
    match act {
        Act::Offer(values) => are_offered(alloc, source, values),
        Act::Full(x) => offers(source, value(alloc, x), Some(x)),
        Act::TwoReadings => offers(source, scan(alloc, &TWO_READINGS, &[]), None),
        Act::Lose(n) => source.lose() == Ok(n),
        Act::Lost(n) => source.lost() == n,
        _ => false,
    }
}

fn is_called<N: Session<Global>>(
    rt: &impl Wait,
    alloc: Global,
    shared: &Shared<N>,
    token: &mut Token,
    act: Act,
) -> bool {
    match act {
        Act::Pump(most, scans, stopped) => shared.pump(rt, token, most)
            == Pumped { scans, stopped },
        Act::Trigger(wanted) => shared.trigger(rt, token) == wanted,
        Act::Take(first, last) => takes(rt, shared, token, Some((first, last))),
        Act::TakeNone => takes(rt, shared, token, None),
        Act::Level => sets(rt, shared, token, rules(alloc, &[OVER_100]), true),
        Act::Edge => sets(rt, shared, token, rules(alloc, &[RISE]), false),
        _ => false,
    }
}

fn is_made<N: Session<Global>>(
    rt: &impl Wait,
    alloc: Global,
    shared: &Shared<N>,
    source: &mut Source<N>,
    token: &mut Token,
    act: Act,
) -> bool {
    match act {
        Act::Offer(_) | Act::Full(_) | Act::TwoReadings | Act::Lose(_) | Act::Lost(_) => is_offered(
            alloc, source, act,
        ),
        _ => is_called(rt, alloc, shared, token, act),
    }
}

/// Each call is answered so.
pub fn are_made<N: Session<Global>>(
    rt: &impl Wait,
    alloc: Global,
    shared: &Shared<N>,
    source: &mut Source<N>,
    token: &mut Token,
    acts: &[Act],
) -> bool {
    for act in acts {
        if !is_made(rt, alloc, shared, source, token, *act) {
            return false;
        }
    }
    true
}

fn is_extent(taken: Option<Extent>, first: u64, last: u64) -> bool {
    match taken {
        Some(extent) => extent.first == first && extent.last == last,
        None => false,
    }
}

/// The entry says this call and this answer.
fn says(call: &Call, reply: &Reply, act: Act) -> bool {
    match (act, call, reply) {
        (Act::Trigger(wanted), Call::Trigger, Reply::Trigger(answer)) => *answer == wanted,
        (Act::Take(first, last), Call::Take, Reply::Take(taken)) => is_extent(*taken, first, last),
        (Act::TakeNone, Call::Take, Reply::Take(taken)) => taken.is_none(),
        (Act::Level, Call::SetRules(rules), Reply::SetRules(set)) => *set
            && rules.list().len() == 1,
        (Act::Edge, Call::SetRules(rules), Reply::SetRules(set)) => !*set
            && rules.list().len() == 1,
        _ => false,
    }
}

/// The entries are these, with the number of scan steps before each, of the caller of this seat.
pub fn are_entries(entries: &[Entry], seat: u32, wanted: &[(u64, Act)]) -> bool {
    if entries.len() != wanted.len() {
        return false;
    }
    for (entry, (at, act)) in entries.iter().zip(wanted) {
        if entry.caller != seat || entry.at != *at || !says(&entry.call, &entry.reply, *act) {
            return false;
        }
    }
    true
}
