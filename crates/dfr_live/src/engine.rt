//! One recording in three threads, over any devices.

ghost use Rattle.std.specs.Prelude.{◌≡◌, [], length, All, Err, Some, IfOk, IfErr, IfSome};
ghost use Rattle.dfr_live.specs.Calls.{open_fault};
ghost use Rattle.dfr_live.specs.Seen.{opening_of};
ghost use Rattle.dfr_live.specs.Devices.{taken_in, GaveAll, MadeAll, GotAll, GotFront, IsTake};
ghost use Rattle.dfr_live.specs.Causes.{HasCause, RunFails};
ghost use Rattle.dfr_live.specs.Report.{Recorded};
ghost use Rattle.dfr_live.specs.Weave.{steps_of};

use crate::closing::{fault_in, first_of, not_started, report};
use crate::devices::{Desk, Intake, Outlet, Pace};
use crate::ended::EndFault;
use crate::export::hand_rest;
use crate::gone::Taker;
use crate::opened::{Opened, open_returning};
use crate::report::{LiveFault, LiveReport};
use crate::session::Session;
use crate::shared::Shared;
use crate::signals::Signals;
use crate::source::Source;
use crate::threads::in_three_threads;
use crate::token::Token;
use crate::works::{Acquisition, Exporting, Finished, Triggering};
use comtrade_write::Kind;
use dfr_recorder::Recorder;
use std::alloc::Allocator;
use std::marker::{Brand, PhantomData};
use std::sync::Wait;
use std::thread::Threads;

/// Records in three threads until the intake and the desk end, as `run_live` does, over devices that
/// may lose scans, give orders meanwhile and wait for memory. `pace` says what idle threads do. Up
/// to `returning` scans that left the pre-trigger memory wait for the intake to use them again.
///
/// What the contract states is as for `run_live`, but:
///
/// - For a scan that the intake heard is lost, a lost step was taken in.
/// - An order is made at its place, or at once where more scan steps were made already. Before it is
///   known, at most as many are made as the desk allows.
/// - The outlet may give up a record for whose files there is no memory.
pub fn record_with<
    A: Allocator + Copy + Send + Sync,
    W: Send + Drop,
    F: Intake<A, W> + Send,
    O: Desk<A, W> + Send,
    K: Outlet<W> + Send,
    P: Pace + Sync,
    R: Threads + Wait + Sync,
>(
    rt: &R,
    alloc: A,
    recorder: Recorder<A>,
    lane: usize,
    returning: usize,
    kind: Kind,
    pace: &P,
    feed: &mut F,
    desk: &mut O,
    outlet: &mut K,
) -> Result<LiveReport<A>, LiveFault>
    ensures recorded { IfOk result (λ report. Recorded F.gives F.loses O.asks O.hears K.puts K.lacks
        (opening_of recorder) kind (feed.old, desk.old, outlet.old)
        (feed.new, desk.new, outlet.new) report) }
    ensures open { IfSome (open_fault recorder.scans lane 2)
        (λ fault. result ≡ Err (LiveFault.Open fault)) }
    ensures cause { IfErr result (HasCause F.gives F.loses K.puts K.lacks
        (opening_of recorder) kind (open_fault recorder.scans lane 2)
        (feed.old, desk.old, outlet.old) (feed.new, desk.new, outlet.new)) }
    ensures front { GotFront K.puts K.lacks (opening_of recorder) kind outlet.old outlet.new }
{
    match open_returning(alloc, recorder, lane, returning, 2) {
        Ok(opened) => record_named::<Brand, A, W, F, O, K, P, R>(
            rt, alloc, opened, kind, pace, feed, desk, outlet,
        ),
        Err((fault, _)) => Err(LiveFault::Open(fault)),
    }
}

/// As `record_with`, for an opened recorder under a name.
fn record_named<
    N: Session<A> + Send + Sync,
    A: Allocator + Copy + Send + Sync,
    W: Send + Drop,
    F: Intake<A, W> + Send,
    O: Desk<A, W> + Send,
    K: Outlet<W> + Send,
    P: Pace + Sync,
    R: Threads + Wait + Sync,
>(
    rt: &R,
    alloc: A,
    opened: Opened<A>,
    kind: Kind,
    pace: &P,
    feed: &mut F,
    desk: &mut O,
    outlet: &mut K,
) -> Result<LiveReport<A>, LiveFault>
    requires named { (opened.opening ≡ N.opening) × (opened.lane ≡ N.lane)
        × (opened.seats ≡ N.seats) }
    requires seats { opened.seats ≡ 2 }
    ensures recorded { IfOk result (λ report. Recorded F.gives F.loses O.asks O.hears K.puts K.lacks
        N.opening kind (feed.old, desk.old, outlet.old) (feed.new, desk.new, outlet.new) report) }
    ensures cause { IfErr result (RunFails F.gives F.loses K.puts K.lacks N.opening kind
        feed.old outlet.old feed.new outlet.new) }
    ensures front { GotFront K.puts K.lacks N.opening kind outlet.old outlet.new }
{
    let (shared, mut source, mut tokens, gone) = opened.share_with::<N>(true);
    let Some(second) = tokens.pop() else {
        unreachable!()
    };
    let Some(mut first) = tokens.pop() else {
        unreachable!()
    };
    let mut second = Taker {
        token: second,
        gone,
    };
    let signals = Signals::new();
    run_threads(
        rt,
        alloc,
        kind,
        &signals,
        pace,
        &shared,
        feed,
        desk,
        outlet,
        &mut source,
        &mut first,
        &mut second,
    )?;
    let mut inner = shared.unlock();
    hand_rest(
        rt,
        alloc,
        kind,
        &signals,
        pace,
        &mut inner,
        outlet,
        &mut second.token,
        &mut second.gone,
    )?;
    let Taker { token, mut gone } = second;
    if !inner.is_all_gone(&mut gone) {
        return Err(LiveFault::End(EndFault::Mismatch));
    }
    tokens.push_reserved(first);
    tokens.push_reserved(token);
    report(rt, alloc, pace, inner, source, tokens)
}

/// Runs the three threads. Ok where each did all of its work. The outlet comes back, whatever the
/// error. The export thread starts first: where it cannot start, no other thread starts, and the
/// error is `Memory`. The acquisition starts last: where another thread cannot start, nothing is
/// asked of the feed.
fn run_threads<
    's,
    N: Session<A> + Send + Sync,
    A: Allocator + Copy + Send + Sync,
    W: Send + Drop,
    F: Intake<A, W> + Send,
    O: Desk<A, W> + Send,
    K: Outlet<W> + Send,
    P: Pace + Sync,
    R: Threads + Wait + Sync,
>(
    rt: &'s R,
    alloc: A,
    kind: Kind,
    signals: &'s Signals,
    pace: &'s P,
    shared: &'s Shared<N, A>,
    feed: &mut F,
    desk: &mut O,
    outlet: &mut K,
    source: &mut Source<N, A>,
    first: &mut Token<A>,
    second: &mut Taker<N, A>,
) -> Result<(), LiveFault>
    requires source { taken_in source.old ≡ [] }
    requires first { (first.old.made ≡ []) × (first.old.pumped ≡ 0) }
    requires second { (second.old.token.made ≡ []) × (second.old.gone ≡ Some []) }
    ensures fed { IfOk result (λ _.
        GaveAll F.gives F.loses feed.old (taken_in source.new) feed.new) }
    ensures all { IfOk result (λ _. length (steps_of source.new.offered) ≡ first.new.pumped) }
    ensures seat { IfOk result (λ _. first.new.seat ≡ first.old.seat) }
    ensures ordered { IfOk result (λ _.
        MadeAll O.asks O.hears desk.old first.new.made first.new.pumped desk.new) }
    ensures handed_on { IfOk result (λ _. (second.new.token.seat ≡ second.old.token.seat)
        × (second.new.token.pumped ≡ second.old.token.pumped)
        × GotAll K.puts K.lacks shared.now kind outlet.old
        second.new.token.made second.new.gone outlet.new
        × All IsTake second.new.token.made) }
    ensures cause { IfErr result (RunFails F.gives F.loses K.puts K.lacks shared.now kind
        feed.old outlet.old feed.new outlet.new) }
    ensures front { GotFront K.puts K.lacks shared.now kind outlet.old outlet.new }
{
    let (exported, triggered, acquired) = in_three_threads(
        rt,
        signals,
        Exporting {
            rt,
            alloc,
            kind,
            signals,
            pace,
            shared,
            outlet,
            taker: second,
            family: PhantomData,
        },
        Triggering {
            rt,
            signals,
            pace,
            shared,
            desk,
            token: first,
            family: PhantomData,
        },
        Acquisition {
            rt,
            signals,
            pace,
            feed,
            source,
            family: PhantomData,
        },
    );
    let Finished {
        device: filled,
        seat: emptied,
        outcome: exported,
    } = exported;
    take_back(filled);
    take_back(emptied);
    let Some(triggered) = triggered else {
        return not_started(Ok(()), fault_in(&exported));
    };
    let Finished {
        device: ordered,
        seat: called,
        outcome: triggered,
    } = triggered;
    take_back(ordered);
    take_back(called);
    let Some(acquired) = acquired else {
        return not_started(fault_in(&triggered), fault_in(&exported));
    };
    let Finished {
        device: fed,
        seat: taken,
        outcome: acquired,
    } = acquired;
    take_back(fed);
    take_back(taken);
    first_of(&acquired, &triggered, &exported)?;
    match (acquired, triggered, exported) {
        (Ok(Some(given)), Ok(Some(made)), Ok(true)) => {
            given.agrees(&made);
            Ok(())
        }
        // A thread stops only for another's error.
        _ => Err(LiveFault::Turns),
    }
}

/// Does nothing. That it is used last here ties a reference that came back to the one that
/// was lent.
fn take_back<T>(x: &mut T)
    ensures { x.new ≡ x.old }
{}
