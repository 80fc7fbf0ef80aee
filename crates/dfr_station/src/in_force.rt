//! The rules in force, as headers tell them: those of the set-up, and each list that an order set.

ghost use Rattle.std.specs.Prelude.{◌≡◌, ◌⊎◌, ◌++◌, ◌∷◌, [], drop, IfOk, option_copied};
ghost use Rattle.dfr_station.specs.InForce as spec;

use comtrade_values::Memory;
use dfr_channels::Rules;
use std::alloc::{AllocError, Allocator, Global};

/// How many lists are kept, for records that are written late.
const KEPT: usize = 64;

/// Rules that were set.
#[derive(Drop)]
pub(crate) struct Set<A: Allocator = Global> {
    /// How many scans came before that.
    pub(crate) from: u64,
    /// None: there was no memory to keep them.
    pub(crate) rules: Option<Rules<A>>,
}

/// The rules in force at a scan, if they are known.
fn rules_at<'b, A: Allocator>(sets: &'b [Set<A>], scan: u64) -> Option<&'b Rules<A>>
    ensures { option_copied result ≡ spec.in_force scan sets.now }
{
    let mut left = sets;
    while let [front @ .., last] = left {
        if last.from <= scan {
            return last.rules.as_ref();
        }
        left = front;
    }
    None
}

/// The lists of rules that were set, the oldest first.
#[derive(Drop)]
pub(crate) struct Book<A: Allocator = Global> {
    sets: Vec<Set<A>, A>,
}

impl<A: Allocator> Book<A> {
    /// The rules of a set-up.
    pub(crate) fn new(alloc: A, rules: Rules<A>) -> Result<Book<A>, AllocError>
        ensures { IfOk result (λ book. book.sets.items ≡ record { from = 0; rules = Some rules } ∷ []) }
    {
        let mut sets = Vec::with_capacity(alloc, KEPT)?;
        sets.push(Set {
            from: 0,
            rules: Some(rules),
        })?;
        Ok(Book { sets })
    }

    /// Notes rules that were set. Of many the oldest are forgotten. If there is no memory, all are:
    /// better none than the wrong ones.
    pub(crate) fn note(&mut self, set: Set<A>) {
        if self.sets.len() >= KEPT {
            self.sets.remove(0);
        }
        if self.sets.push(set).is_err() {
            self.sets.clear();
        }
    }
}

impl<A: Allocator + Copy> Book<A> {
    /// A copy of the rules in force at a scan, if they are known.
    pub(crate) fn rules_at(&self, scan: u64) -> Result<Option<Rules<A>>, Memory>
        ensures { IfOk result (λ rules. rules ≡ spec.in_force scan self.now.sets.items) }
    {
        match rules_at(&self.sets, scan) {
            Some(rules) => Ok(Some(rules.try_clone()?)),
            None => Ok(None),
        }
    }
}
