//! The receiving end of the queue, and the item that is processed first.

ghost use Rattle.std.specs.Prelude.{◌≡◌, ◌+◌, ◌≤◌, ◌++◌, List, None, length, IfSome, IfNone, vec_len, vec_capacity, option_to_list};
ghost use Rattle.rtrb.specs.Ring.{received, known_items};
ghost use Rattle.dfr_recorder.specs.Steps.{StepParts};
ghost use Rattle.dfr_live.specs.Lane.{lane_out};
ghost use Rattle.dfr_live.specs.Calls.{IsHeld};
ghost use Rattle.dfr_live.specs.Weave.{steps_of};

use crate::left::Left;
use rtrb::Consumer;
use std::alloc::Allocator;

/// Returns the next item: what is left of an item already received, else the next from the queue.
pub(crate) fn next_in_line<A: Allocator>(
    first: &mut Option<Left<A>>,
    lane: &mut Consumer<Left<A>, A>,
) -> Option<Left<A>>
    ensures lane { lane_out lane.new ≡ lane_out lane.old }
    ensures first { first.new ≡ None }
    ensures held { IfSome result
        (λ item. IsHeld first.old (received lane.old) item (received lane.new)) }
    ensures none { IfNone result
        ((first.old ≡ None) × (received lane.new ≡ received lane.old)) }
    ensures line { (before : List StepParts)
        → steps_of (received lane.old) ≡ before ++ steps_of (option_to_list first.old)
        → steps_of (received lane.new) ≡ before ++ steps_of (option_to_list result) }
{
    match first.take() {
        Some(item) => Some(item),
        None => lane.pop().ok(),
    }
}

/// Moves the item that comes first, and all items known to be in the queue, to `left`.
pub(crate) fn drain<A: Allocator>(
    first: Option<Left<A>>,
    lane: &mut Consumer<Left<A>, A>,
    left: &mut Vec<Left<A>, A>,
    more: usize,
)
    requires known { more ≡ length (known_items lane.old) }
    requires room { vec_len left.old + more + 1 ≤ vec_capacity left.old }
    ensures { left.new.items ≡ left.old.items ++ (option_to_list first ++ known_items lane.old) }
{
    if let Some(item) = first {
        left.push_reserved(item);
    }
    drain_known(lane, left, more);
}

fn drain_known<A: Allocator>(
    lane: &mut Consumer<Left<A>, A>,
    left: &mut Vec<Left<A>, A>,
    more: usize,
)
    requires known { more ≡ length (known_items lane.old) }
    requires room { vec_len left.old + more ≤ vec_capacity left.old }
    ensures { left.new.items ≡ left.old.items ++ known_items lane.old }
{
    for _ in 0..more {
        left.push_reserved(lane.pop_known());
    }
}
