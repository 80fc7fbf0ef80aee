//! The same calls on what lies under the lock, once that is taken away.

ghost use Rattle.std.specs.Prelude.{◌≡◌};

use crate::bay::{self, Bay};
use crate::channels::{RISE, rules};
use crate::live::acts::{Act, are_entries, offers};
use crate::live::ends::opened;
use crate::live::station::{STATION, recorder};
use crate::steps::value;
use dfr_channels::Rules;
use dfr_live::{EndFault, Inner, One, Opened, RulesRefusal, Session, Shared, Source, Token, end};
use dfr_recorder::{Hit, ScanRefusal, Scanned};
use std::alloc::Global;
use std::marker::Brand;
use std::sync::Wait;

fn steps<N: Session<Global>>(inner: &mut Inner<N>, number: u64) -> bool {
    let scanned = Scanned {
        number,
        trigger: None,
        closed: None,
    };
    inner.pump_one() == One::Stepped(Ok(scanned))
}

fn comes_back<N: Session<Global>>(
    inner: &mut Inner<N>,
    token: &mut Token,
    rules: Option<Rules>,
) -> bool {
    match rules {
        Some(rules) => matches!(
            inner.set_rules_as(token, rules),
            Err((RulesRefusal::NoChannel, _))
        ),
        None => false,
    }
}

fn takes_none<N: Session<Global>>(inner: &mut Inner<N>, token: &mut Token) -> bool {
    matches!(inner.take_as(token), Ok(None))
}

/// Two scan steps, a trigger, a take and rules that aren't set.
fn are_lent<N: Session<Global>>(alloc: Global, inner: &mut Inner<N>, token: &mut Token) -> bool {
    steps(inner, 0)
        && steps(inner, 1)
        && inner.pump_one() == One::Empty
        && inner.trigger_as(token) == Ok(Hit::Opened(1))
        && takes_none(inner, token)
        && comes_back(inner, token, rules(alloc, &[RISE]))
}

const ENTRIES: [(u64, Act); 3] = [
    (2, Act::Trigger(Ok(Hit::Opened(1)))),
    (2, Act::TakeNone),
    (2, Act::Edge),
];

fn is_lent<N: Session<Global>>(alloc: Global, inner: &mut Inner<N>, tokens: &mut [Token]) -> bool {
    match tokens {
        [token] => are_lent(alloc, inner, token) && are_entries(token.made(), 0, &ENTRIES),
        _ => false,
    }
}

/// The lent pumps are no token's, so their steps are missing in the tokens' sum.
fn is_mismatch<N: Session<Global>>(
    alloc: Global,
    inner: Inner<N>,
    source: Source<N>,
    tokens: Vec<Token>,
) -> bool {
    match end(alloc, inner, source, tokens) {
        Ok(_) => false,
        Err((fault, _, _, _)) => fault == EndFault::Mismatch,
    }
}

/// What the recorder was opened with, and that no record waits.
fn is_opened<N: Session<Global>>(rt: &impl Wait, shared: &Shared<N>) -> bool {
    let opening = shared.opening();
    opening.limits().longest() == 6
        && opening.layout().rate() == 1000
        && opening.rules().list().is_empty()
        && shared.waiting(rt) == 0
}

fn lends<N: Session<Global>, R: Wait>(rt: &R, alloc: Global, opened: Opened) -> bool
    requires { (opened.opening ≡ N.opening) × (opened.lane ≡ N.lane)
        × (opened.seats ≡ N.seats) }
{
    let (shared, mut source, mut tokens) = opened.share::<N>();
    let begun = is_opened(rt, &shared)
        && offers(&mut source, value(alloc, 10), None)
        && offers(&mut source, value(alloc, 11), None);
    let mut inner = shared.unlock();
    let lent = begun && is_lent(alloc, &mut inner, &mut tokens);
    is_mismatch(alloc, inner, source, tokens) && lent
}

fn is_right<R: Wait>(rt: &R, alloc: Global) -> bool {
    match opened(alloc, recorder(alloc, 1), 8, 1) {
        Some(opened) => lends::<Brand, R>(rt, alloc, opened),
        None => false,
    }
}

#[test]
fn calls_without_the_lock(rt: HostRuntime) {
    assert!(rt; is_right(&rt, rt.alloc()));
}

/// The answer to a scan, and to a lost one, whose instant is after the year 9999.
const PAST: One = One::Stepped(Err(ScanRefusal::ClockEnd));

/// Of two losses and a scan the first loss is the last that has an instant.
fn are_past<N: Session<Global>>(inner: &mut Inner<N>) -> bool {
    steps(inner, 0)
        && inner.pump_one() == PAST
        && inner.pump_one() == PAST
        && inner.pump_one() == One::Empty
}

fn loses_at_the_end<N: Session<Global>>(alloc: Global, opened: Opened) -> bool
    requires { (opened.opening ≡ N.opening) × (opened.lane ≡ N.lane)
        × (opened.seats ≡ N.seats) }
{
    let (shared, mut source, _) = opened.share::<N>();
    let begun = source.lose() == Ok(1)
        && source.lose() == Ok(2)
        && offers(&mut source, value(alloc, 10), None);
    let mut inner = shared.unlock();
    begun && are_past(&mut inner)
}

/// From the last instant of the year 9999 on.
const AT_THE_END: Bay = Bay {
    start: 253_402_300_799_999_000,
    ..STATION
};

fn is_refused(alloc: Global) -> bool {
    match opened(alloc, bay::recorder(alloc, AT_THE_END), 8, 1) {
        Some(opened) => loses_at_the_end::<Brand>(alloc, opened),
        None => false,
    }
}

#[test]
fn losses_past_the_clock(rt: HostRuntime) {
    assert!(rt; is_refused(rt.alloc()));
}
