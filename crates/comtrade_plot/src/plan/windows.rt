//! Which times of a long record are drawn.

ghost use Rattle.std.specs.Prelude.{◌≡◌, ◌≤ℤ◌, ◌⊎◌, IfSome, pos};

use crate::plan::cycle::Cycle;
use crate::plan::frame::Frame;

/// A record of more than this many cycles is drawn only around its trigger.
const LONG: i64 = 100;

/// How many cycles are drawn before the trigger, and after it.
const BEFORE: i64 = 10;

const AFTER: i64 = 30;

/// How many cycles after the trigger a change of a status channel still belongs to the fault, and
/// how many are drawn after the last change.
const FAULT: i64 = 60;

const ENDING: i64 = 5;

/// The last change of a status channel that belongs to the fault: the one so far, or a later one.
pub fn later_change(last: i64, change: i64, cycle: Cycle) -> i64
    ensures one { (result ≡ last) ⊎ (result ≡ change) }
    ensures later { last ≤ℤ result }
{
    if last < change && change <= cycle.nanos * FAULT {
        change
    } else {
        last
    }
}

/// The first time that is drawn of a record that begins here.
fn first_drawn(begin: i64, cycle: Cycle) -> i64
    requires { begin ≤ℤ pos 0 }
    ensures after { begin ≤ℤ result }
    ensures before { result ≤ℤ pos 0 }
{
    (cycle.nanos * -BEFORE).clamp(begin, 0)
}

/// The last time that is drawn of a record that ends here.
fn last_drawn(end: i64, cycle: Cycle, change: i64) -> i64
    requires { pos 0 ≤ℤ end }
    ensures after { pos 0 ≤ℤ result }
    ensures before { result ≤ℤ end }
{
    match change.checked_add(cycle.nanos * ENDING) {
        Some(after_change) => (cycle.nanos * AFTER).max(after_change).clamp(0, end),
        // a time that no number of 64 bits has is after the end
        None => end,
    }
}

/// The times that are drawn of a record around its trigger, which is at 0, where they are a small
/// part of the record. `change` is when the last status channel changed that belongs to the fault.
/// The times are part of the record, and the trigger is among them.
pub fn window_of(whole: Frame, cycle: Cycle, change: i64) -> Option<Frame>
    ensures first { IfSome result (λ w. (whole.from ≤ℤ w.from) × (w.from ≤ℤ pos 0)) }
    ensures last { IfSome result (λ w. (pos 0 ≤ℤ w.to) × (w.to ≤ℤ whole.to)) }
{
    if 0 < whole.from || whole.to < 0 {
        return None;
    }
    if whole.span() <= (cycle.nanos * LONG).unsigned_abs() {
        return None;
    }
    let from = first_drawn(whole.from, cycle);
    let to = last_drawn(whole.to, cycle, change);
    Some(Frame { from, to })
}
