//! What a live run takes from a script.

ghost use Rattle.std.specs.Prelude.{◌≡◌, ◌++◌, [], None, Some, option_map, map, length, MatchResult};
ghost use Rattle.dfr_channels.specs.Firing.{rules_fault};
ghost use Rattle.dfr_script.specs.Commands.{parts_of};
ghost use Rattle.dfr_live.specs.Listed.{FeedsNext};
ghost use Rattle.dfr_program.specs.Faults.{IsMadeOf, Refuses, script_in};
ghost use Rattle.dfr_program.specs.Plans as spec;
ghost use Rattle.dfr_program.specs.declared.prepared.Fault.TheVariants as faults;

use crate::prepared::{Fault, Prepared, Refusal, prepared_of};
use dfr_channels::{Layout, Rule, Rules, Scan};
use dfr_live::{Fed, Feed, Order, Orders};
use dfr_recorder::Recorder;
use dfr_script::Command;
use std::alloc::{AllocFailed, Allocator};
use std::vec::IntoIter;

/// What a line of a script gives to the feed.
#[derive(Drop)]
pub(crate) enum Given<A: Allocator> {
    Scan(Scan<A>),
    /// A scan that was lost.
    Lost,
}

/// A recorder, the scans and lost scans that feed it, and the orders with their places. A place is
/// the number of scans, lost ones included, before the order.
#[derive(Drop)]
pub(crate) struct Plan<A: Allocator> {
    pub(crate) recorder: Recorder<A>,
    pub(crate) scans: Vec<Given<A>, A>,
    pub(crate) orders: Vec<(u64, Order<A>), A>,
}

impl<T: Drop> From<AllocFailed<T>> for Refusal {
    ghost use Rattle.dfr_program.specs.declared.prepared.Refusal.{Refusal};

    ghost from_gives = { λ _ e. e ≡ Refusal.Memory };

    fn from(_error: AllocFailed<T>) -> Refusal {
        Refusal::Memory
    }
}

/// A feed of the scans of a script, in order, and then the end.
#[derive(Drop)]
pub(crate) struct Scans<A: Allocator> {
    rest: IntoIter<Given<A>, A>,
}

impl<A: Allocator> Scans<A> {
    pub(crate) fn of(list: Vec<Given<A>, A>) -> Scans<A>
        ensures { spec.steps_left result ≡ map spec.given list.items }
    {
        Scans {
            rest: list.into_iter(),
        }
    }
}

impl<A: Allocator> Feed<A> for Scans<A> {
    ghost gives = { λ s r t. FeedsNext (spec.steps_left s) r (spec.steps_left t) };

    fn next(&mut self) -> Result<Fed<A>, u32> {
        match self.rest.next() {
            Some(Given::Scan(scan)) => Ok(Fed::Scan(scan)),
            Some(Given::Lost) => Ok(Fed::Lost),
            None => Ok(Fed::Done),
        }
    }
}

/// The orders of a script, in order.
#[derive(Drop)]
pub(crate) struct Placed<A: Allocator> {
    rest: IntoIter<(u64, Order<A>), A>,
}

impl<A: Allocator> Placed<A> {
    pub(crate) fn of(list: Vec<(u64, Order<A>), A>) -> Placed<A>
        ensures { spec.orders_left result ≡ map spec.placed list.items }
    {
        Placed {
            rest: list.into_iter(),
        }
    }
}

impl<A: Allocator> Orders<A> for Placed<A> {
    ghost hands = { λ s o t. spec.OrdersNext (spec.orders_left s) o (spec.orders_left t) };

    fn next(&mut self) -> Option<(u64, Order<A>)> {
        self.rest.next()
    }
}

fn rules_at<A: Allocator>(
    layout: &Layout<A>,
    line: u64,
    list: Vec<Rule, A>,
) -> Result<Rules<A>, Refusal>
    ensures { MatchResult result
        (λ rules. (rules_fault layout.now list.items ≡ None) × (rules ≡ list.items))
        (Refuses (option_map (λ _. faults.RulesAt line) (rules_fault layout.now list.items))) }
{
    match Rules::new(layout, list) {
        Ok(rules) => Ok(rules),
        Err(_) => Err(Refusal::Fault(Fault::RulesAt(line))),
    }
}

/// Appends the scan or the order of a command. A `take` gives neither.
fn plan_one<A: Allocator + Copy>(
    layout: &Layout<A>,
    command: Command<A>,
    scans: &mut Vec<Given<A>, A>,
    orders: &mut Vec<(u64, Order<A>), A>,
) -> Result<(), Refusal>
    ensures { MatchResult result
        (λ _. (spec.refused_line layout.now (parts_of command) ≡ None)
        × (map spec.given scans.new.items
        ≡ map spec.given scans.old.items ++ spec.scan_in (parts_of command))
        × (map spec.placed orders.new.items ≡ map spec.placed orders.old.items
        ++ spec.order_in (length scans.old.items) (parts_of command)))
        (Refuses (option_map faults.RulesAt (spec.refused_line layout.now (parts_of command)))) }
{
    let place = scans.len() as u64;
    match command {
        Command::Scan(scan) => scans.push(Given::Scan(scan))?,
        Command::Lost => scans.push(Given::Lost)?,
        Command::Trigger => orders.push((place, Order::Trigger))?,
        Command::Take => {}
        Command::Rules { line, list } => {
            let rules = rules_at(layout, line, list)?;
            orders.push((place, Order::SetRules(rules)))?;
        }
    }
    Ok(())
}

/// Appends the scans and the orders of the commands.
fn plan_all<A: Allocator + Copy>(
    layout: &Layout<A>,
    commands: Vec<Command<A>, A>,
    scans: &mut Vec<Given<A>, A>,
    orders: &mut Vec<(u64, Order<A>), A>,
) -> Result<(), Refusal>
    requires scans { scans.old.items ≡ [] }
    requires orders { orders.old.items ≡ [] }
    ensures { MatchResult result
        (λ _. spec.IsPlanned layout.now (map parts_of commands.items)
        (map spec.given scans.new.items) (map spec.placed orders.new.items))
        (Refuses (option_map faults.RulesAt
        (spec.refused_in layout.now (map parts_of commands.items)))) }
{
    for command in commands {
        plan_one(layout, command, scans, orders)?;
    }
    Ok(())
}

/// Reads a script, makes its recorder, and plans its commands.
#[tactic(auto, unfolding(crate::specs::Plans::live_fault))]
pub(crate) fn plan_of<A: Allocator + Copy>(alloc: A, text: &[u8]) -> Result<Plan<A>, Refusal>
    ensures { MatchResult result
        (λ plan. (spec.live_fault text.now ≡ None)
        × IsMadeOf (script_in text.now) plan.recorder
        × (map spec.given plan.scans.items ≡ spec.scans_in (script_in text.now).commands)
        × (map spec.placed plan.orders.items ≡ spec.orders_in 0 (script_in text.now).commands))
        (Refuses (spec.live_fault text.now)) }
{
    let Prepared { recorder, commands } = prepared_of(alloc, text)?;
    let mut scans = Vec::new(alloc);
    let mut orders = Vec::new(alloc);
    plan_all(recorder.layout(), commands, &mut scans, &mut orders)?;
    Ok(Plan {
        recorder,
        scans,
        orders,
    })
}
