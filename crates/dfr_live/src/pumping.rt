//! How the trigger thread pumps.

ghost use Rattle.std.specs.Prelude.{◌≡◌, ◌≤◌, ◌+◌, Option, Ok, true, is_some, IfOk, IfSome, IfErr};
ghost use Rattle.dfr_live.specs.Station as spec;
ghost use Rattle.dfr_live.specs.Station.{CountsOn, Pumps, PumpsOn, PumpsOut};
ghost use Rattle.dfr_live.specs.Causes.{TriggerFails};

use crate::devices::Pace;
use crate::outcome::End;
use crate::report::LiveFault;
use crate::session::Session;
use crate::shared::{Shared, Shelf};
use crate::signals::Signals;
use crate::token::Token;
use std::alloc::Allocator;
use std::sync::{OnceToken, Wait};

/// How many scan steps one pump makes at most.
const MOST: u64 = 1_024;

/// What the trigger thread keeps from turn to turn.
#[derive(Drop)]
pub(crate) struct Turns<'s> {
    /// How many turns in a row made no progress.
    pub(crate) idle: u64,
    pub(crate) shelf: Shelf,
    /// Shows that all scan steps were made. None while some may come.
    pub(crate) all: Option<OnceToken<'s, u64>>,
}

/// Why pumping up to a place ended.
#[derive(Drop)]
enum Pumping<'s> {
    /// That many scan steps were made.
    Reached,
    /// All scan steps were made that the queue was given.
    Exhausted(OnceToken<'s, u64>),
    /// Another thread has an error.
    Stopped,
}

/// Pumps until `place` scan steps were made, or no more scans come. False where another thread has
/// an error.
pub(crate) fn pump_on<'s, N: Session<A>, A: Allocator + Copy>(
    rt: &impl Wait,
    signals: &'s Signals,
    pace: &impl Pace,
    shared: &Shared<N, A>,
    token: &mut Token<A>,
    turns: &mut Turns<'s>,
    place: u64,
) -> Result<bool, LiveFault>
    requires known { IfSome turns.old.all (λ all. (all.of ≡ signals.now.given.id)
        × (all.value ≡ token.old.pumped)) }
    ensures known { IfSome turns.new.all (λ all. (all.of ≡ signals.now.given.id)
        × (all.value ≡ token.new.pumped)) }
    ensures on { result ≡ Ok true → PumpsOn place
        (is_some turns.old.all) token.old (is_some turns.new.all) token.new }
    ensures fault { IfErr result (λ fault. TriggerFails fault) }
{
    if turns.all.is_some() {
        return Ok(true);
    }
    match pump_to(rt, signals, pace, shared, token, turns, Some(place))? {
        Pumping::Reached => Ok(true),
        Pumping::Exhausted(all) => {
            turns.all = Some(all);
            Ok(true)
        }
        Pumping::Stopped => Ok(false),
    }
}

/// Pumps until no more scans come. None where another thread has an error.
pub(crate) fn pump_out<'s, N: Session<A>, A: Allocator + Copy>(
    rt: &impl Wait,
    signals: &'s Signals,
    pace: &impl Pace,
    shared: &Shared<N, A>,
    token: &mut Token<A>,
    turns: Turns<'s>,
) -> Result<Option<OnceToken<'s, u64>>, LiveFault>
    requires known { IfSome turns.all (λ all. (all.of ≡ signals.now.given.id)
        × (all.value ≡ token.old.pumped)) }
    ensures out { IfOk result (λ known. IfSome known (λ all. (all.of ≡ signals.now.given.id)
        × (all.value ≡ token.new.pumped) × PumpsOut (is_some turns.entry.all) token.old token.new)) }
    ensures fault { IfErr result (λ fault. TriggerFails fault) }
{
    let mut turns = turns;
    if let Some(all) = turns.all.take() {
        return Ok(Some(all));
    }
    match pump_to(rt, signals, pace, shared, token, &mut turns, None)? {
        Pumping::Reached => unreachable!(),
        Pumping::Exhausted(all) => Ok(Some(all)),
        Pumping::Stopped => Ok(None),
    }
}

/// Pumps once, as far as the desk allows, or waits for a turn. False where another thread has an
/// error.
pub(crate) fn wait_on<'s, N: Session<A>, A: Allocator + Copy>(
    rt: &impl Wait,
    signals: &'s Signals,
    pace: &impl Pace,
    shared: &Shared<N, A>,
    token: &mut Token<A>,
    turns: &mut Turns<'s>,
    free: u64,
) -> Result<bool, LiveFault>
    ensures counts { CountsOn (Some free) token.old token.new }
    ensures known { (turns.new.all ≡ turns.old.all)
        × (is_some turns.old.all ≡ true → token.new ≡ token.old) }
    ensures fault { IfErr result (λ fault. TriggerFails fault) }
{
    let most = if turns.all.is_some() {
        0
    } else {
        steps_towards(Some(free), token.pumped())
    };
    pump_once(rt, signals, pace, shared, token, turns, most)
}

/// How many scan steps the next pump asks for, after `made` steps.
fn steps_towards(place: Option<u64>, made: u64) -> u32
    ensures { result ≡ spec.steps_towards place made }
{
    match place {
        Some(place) => place.saturating_sub(made).min(MOST) as u32,
        None => MOST as u32,
    }
}

/// Shows that so many scan steps are all that the queue was given, if that is so.
fn all_made<'s>(signals: &'s Signals, pumped: u64) -> Option<OnceToken<'s, u64>>
    ensures { IfSome result (λ all. (all.of ≡ signals.now.given.id) × (all.value ≡ pumped)) }
{
    let all = signals.given.witness()?;
    if *signals.given.value(&all) == pumped {
        Some(all)
    } else {
        None
    }
}

/// Pumps until `place` scan steps were made; without a place, until no more scans come.
fn pump_to<'s, N: Session<A>, A: Allocator + Copy>(
    rt: &impl Wait,
    signals: &'s Signals,
    pace: &impl Pace,
    shared: &Shared<N, A>,
    token: &mut Token<A>,
    turns: &mut Turns<'s>,
    place: Option<u64>,
) -> Result<Pumping<'s>, LiveFault>
    ensures counts { CountsOn place token.old token.new }
    ensures known { turns.new.all ≡ turns.old.all }
    ensures pumped { IfOk result (λ pumping. Pumps signals.now.given.id place token.old pumping token.new) }
    ensures fault { IfErr result (λ fault. TriggerFails fault) }
{
    for _ in rt.forever() {
        let most = steps_towards(place, token.pumped());
        if most == 0 {
            return Ok(Pumping::Reached);
        }
        if let Some(all) = all_made(signals, token.pumped()) {
            return Ok(Pumping::Exhausted(all));
        }
        if !pump_once(rt, signals, pace, shared, token, turns, most)? {
            return Ok(Pumping::Stopped);
        }
    }
    unreachable!()
}

/// Pumps once, up to `limit` scan steps. Where none was made it waits for a turn. False where another
/// thread has an error.
pub(crate) fn pump_once<'s, N: Session<A>, A: Allocator + Copy>(
    rt: &impl Wait,
    signals: &Signals,
    pace: &impl Pace,
    shared: &Shared<N, A>,
    token: &mut Token<A>,
    turns: &mut Turns<'s>,
    limit: u32,
) -> Result<bool, LiveFault>
    ensures counts { (token.new ≡ record token.old { pumped = token.new.pumped })
        × (token.old.pumped ≤ token.new.pumped) × (token.new.pumped ≤ token.old.pumped + limit) }
    ensures known { turns.new.all ≡ turns.old.all }
    ensures fault { IfErr result (λ fault. TriggerFails fault) }
{
    if limit == 0 {
        turns.shelf.waiting = shared.waiting(rt);
        return signals.turn(pace, &mut turns.idle);
    }
    let pumped = shared.pump_watching(rt, token, limit, &mut turns.shelf);
    match pumped.stopped {
        End::Most => {}
        End::Empty => {}
        // The acquisition ends before it gives more steps than can be counted.
        End::Counter => {}
        End::Memory => return signals.short(pace),
    }
    if pumped.scans > 0 {
        turns.idle = 0;
        return Ok(true);
    }
    signals.turn(pace, &mut turns.idle)
}
