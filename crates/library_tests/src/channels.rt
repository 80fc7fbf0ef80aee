//! Which rule fires at a scan, and rules over one channel of each kind, which the calls of threads set too.

use crate::bay::{BOTH, layout, rules_in};
use crate::steps::scan;
use dfr_channels::{Reading, Rule, Rules, Scan};
use std::alloc::Global;

const OVER: Rule = Rule::Level {
    channel: 0,
    over: true,
    threshold: 5,
};

const UNDER: Rule = Rule::Level {
    channel: 0,
    over: false,
    threshold: 0,
};

/// Fires where the contact closes.
pub const RISE: Rule = Rule::Edge {
    channel: 0,
    rise: true,
};

/// The rules of a list over a layout of one channel of each kind.
pub fn rules(alloc: Global, list: &[Rule]) -> Option<Rules> {
    let layout = layout(alloc, BOTH)?;
    let rules = rules_in(&layout, list, alloc);
    drop(layout);
    rules
}

fn fires_at(rules: &Rules, now: Option<Scan>) -> Option<Option<u32>> {
    match now {
        Some(now) => Some(rules.fires(None, &now)),
        None => None,
    }
}

/// Which of these rules fires at a first scan of this reading.
fn fires(alloc: Global, list: &[Rule], reading: Reading) -> Option<Option<u32>> {
    let rules = rules(alloc, list)?;
    fires_at(&rules, scan(alloc, &[reading], &[false]))
}

#[test]
fn levels(rt: HostRuntime) {
    for (reading, fired) in [
        (Reading::Missing, None),
        (Reading::Value(5), Some(0)),
        (Reading::Value(1), None),
        (Reading::Value(0), Some(1)),
    ] {
        let found = fires(rt.alloc(), &[OVER, UNDER], reading);
        assert_eq!(rt; found, Some(fired));
    }
}
