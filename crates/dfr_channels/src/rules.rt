//! Lists of trigger rules that fit a layout.

ghost use Rattle.std.specs.Prelude.{◌≡◌, ◌<◌, length, position, not, option_copied, IfSome};
ghost use Rattle.dfr_channels.specs.Firing as spec;

use crate::{Layout, Rule, Scan};
use comtrade_values::{Items, Memory};
use std::alloc::{Allocator, Global};
use std::marker::Model;
use thiserror::Error;

/// At most 32 trigger rules. Contracts see the list.
#[derive(Drop, Debug)]
pub struct Rules<A: Allocator = Global> {
    list: Items<Rule, A>,
}

impl<A: Allocator> Model for Rules<A> {
    ghost use Rattle.std.specs.Prelude.{List, ◌≤◌, length};
    ghost use Rattle.dfr_channels.specs.declared.rule.Rule.{Rule};

    ghost Value = { List Rule };

    ghost view = { λ r. r.list };

    ghost invariant = { λ r. length r.list ≤ 32 };
}

/// Why a list of rules is refused, in the order of the tests.
#[derive(Clone, Copy, Debug, PartialEq, Eq, Error)]
pub enum RuleFault {
    /// There are more than 32 rules.
    #[error("more than 32 rules")]
    TooMany,
    /// The lowest rule, from 0, whose channel the layout does not have.
    #[error("rule {0} (counted from 0) names no channel of its kind")]
    NoChannel(u32),
}

/// The lowest rule whose channel the layout does not have.
fn lowest_without<A: Allocator>(layout: &Layout<A>, list: &[Rule]) -> Option<usize>
    ensures lowest { result ≡ position (λ rule. not (spec.names_channel layout.now rule)) list.now }
    ensures within { IfSome result (λ i. i < length list.now) }
{
    list.iter().position(|rule| !rule.names_channel(layout))
}

/// The lowest rule that holds.
#[tactic(auto, unfolding(crate::specs::Firing::lowest_holding))]
fn lowest_holding<A: Allocator>(
    before: Option<&Scan<A>>,
    now: &Scan<A>,
    list: &[Rule],
) -> Option<usize>
    ensures lowest { result ≡ spec.lowest_holding (option_copied before.entry) now.now list.now }
    ensures within { IfSome result (λ i. i < length list.now) }
{
    list.iter().position(|rule| rule.holds(before, now))
}

impl<A: Allocator> Rules<A> {
    ghost use Rattle.std.specs.Prelude.{◌≡◌, ◌≤◌, true, Some, None, IfOk, IfErr, length, option_copied};
    ghost use Rattle.dfr_channels.specs.Firing.{lowest_holding, rules_fit, rules_fault};

    /// Checks a list of rules, which may be empty, against a layout. A refused list is handed back
    /// with its first fault. Doesn't allocate.
    #[tactic(auto, unfolding(crate::specs::Firing::rules_fault))]
    pub fn new(
        layout: &Layout<A>,
        list: Vec<Rule, A>,
    ) -> Result<Rules<A>, (RuleFault, Vec<Rule, A>)>
        ensures made { IfOk result (λ rules. (rules_fault layout.now list.items ≡ None) × (rules ≡ list.items)) }
        ensures fits { IfOk result (λ rules. rules_fit layout.now rules ≡ true) }
        ensures fault { IfErr result (λ refused. rules_fault layout.now list.items ≡ Some refused.0) }
        ensures back { IfErr result (λ refused. refused.1.items ≡ list.items) }
    {
        if list.len() > 32 {
            return Err((RuleFault::TooMany, list));
        }
        match lowest_without(layout, &list) {
            Some(i) => Err((RuleFault::NoChannel(i as u32), list)),
            None => Ok(Rules {
                list: Items::of(list),
            }),
        }
    }

    /// The rules, at most 32.
    pub fn list(&self) -> &[Rule]
        ensures value { result.now ≡ self.now }
        ensures few { length self.now ≤ 32 }
    {
        self.list.items()
    }

    /// Whether the layout has the channel of each rule.
    #[tactic(auto, unfolding(crate::specs::Firing::rules_fit))]
    pub fn fits(&self, layout: &Layout<A>) -> bool
        ensures { result ≡ rules_fit layout.now self.now }
    {
        self.list
            .items()
            .iter()
            .all(|rule| rule.names_channel(layout))
    }

    /// The lowest rule, from 0, that holds at a scan, given the scan accepted before it. A rule
    /// whose channel a scan lacks does not hold. Doesn't allocate, and checks each rule at most
    /// once.
    pub fn fires(&self, before: Option<&Scan<A>>, now: &Scan<A>) -> Option<u32>
        ensures { result ≡ lowest_holding (option_copied before.entry) now.now self.now }
    {
        match lowest_holding(before, now, self.list.items()) {
            Some(i) => Some(i as u32),
            None => None,
        }
    }
}

impl<A: Allocator + Copy> Rules<A> {
    ghost use Rattle.std.specs.Prelude.{◌≡◌, IfOk};

    /// A deep copy, on the same allocator. `Memory`: an allocation failed.
    pub fn try_clone(&self) -> Result<Rules<A>, Memory>
        ensures { IfOk result (λ copy. copy ≡ self.now) }
    {
        let list = self.list.try_clone()?;
        Ok(Rules { list })
    }
}
