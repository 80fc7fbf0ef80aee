//! The rows of whole cycles.

ghost use Rattle.std.specs.Prelude.{◌≡◌, ◌+◌, ◌-◌, ◌<◌, ◌≤◌, ◌↔◌, ℕ, IfSome, IsTrue, drop, length, take};
ghost use Rattle.std.specs.Option.{SomeIff};
ghost use Rattle.comtrade_analysis.specs.Windows as spec;

use comtrade_format::{Cycle, Row};
use std::alloc::Allocator;

/// Rows that are measured together: from `first`, counted from 0, so many.
#[derive(Clone, Copy, Debug, PartialEq, Eq)]
pub struct Window {
    pub first: usize,
    pub rows: usize,
}

/// The most whole cycles that so many rows hold. Where cycles have a fraction of a row, it is left out.
pub fn cycles_within(cycle: Cycle, rows: usize) -> u64
    requires some { 0 < cycle.cycles }
    requires long { cycle.cycles ≤ cycle.rows }
    ensures { (n : ℕ) → (spec.rows_in cycle n ≤ rows) ↔ (n ≤ result) }
{
    cycle.cycles_in(rows as u64) as u64
}

/// The last rows before `end` that hold so many cycles; None where there are too few. Where the
/// cycles have a fraction of a row, it is left out: no window holds more than its cycles.
pub fn window_before(cycle: Cycle, cycles: u64, end: usize) -> Option<Window>
    requires { 0 < cycle.cycles }
    ensures window { SomeIff result (spec.rows_in cycle cycles ≤ end) (spec.window_before cycle cycles end) }
    ensures longest { IfSome result (λ window. spec.IsLongest cycle cycles window.rows) }
{
    let rows = cycle.rows_in(cycles);
    if (end as u128) < rows {
        return None;
    }
    let rows = rows as usize;
    Some(Window {
        first: end - rows,
        rows,
    })
}

/// The first rows from `first` on that hold so many cycles, of as many rows as a file has; None
/// where there are too few.
pub fn window_from(cycle: Cycle, cycles: u64, first: usize, rows: usize) -> Option<Window>
    requires { 0 < cycle.cycles }
    ensures window { SomeIff result (first + spec.rows_in cycle cycles ≤ rows) (spec.window_from cycle cycles first) }
    ensures longest { IfSome result (λ window. spec.IsLongest cycle cycles window.rows) }
{
    let count = cycle.rows_in(cycles);
    if rows < first || ((rows - first) as u128) < count {
        return None;
    }
    Some(Window {
        first,
        rows: count as usize,
    })
}

/// The cycle that ends just before a row, and the cycle that begins at it, where the file has them.
#[derive(Clone, Copy, Debug, PartialEq, Eq)]
pub struct CyclesAround {
    pub before: Option<Window>,
    pub after: Option<Window>,
}

/// The cycles around a row, as an inception, of as many rows as a file has.
pub fn cycles_around(cycle: Cycle, row: usize, rows: usize) -> CyclesAround
    requires { 0 < cycle.cycles }
    ensures before { SomeIff result.before (spec.rows_in cycle 1 ≤ row) (spec.window_before cycle 1 row) }
    ensures after { SomeIff result.after (row + spec.rows_in cycle 1 ≤ rows) (spec.window_from cycle 1 row) }
{
    CyclesAround {
        before: window_before(cycle, 1, row),
        after: window_from(cycle, 1, row, rows),
    }
}

impl Window {
    /// Whether the window contains a row, counted from 0.
    pub fn contains(self, row: usize) -> bool
        ensures { IsTrue result ↔ ((self.first ≤ row) × (row < self.first + self.rows)) }
    {
        self.first <= row && row - self.first < self.rows
    }

    /// The rows of the window.
    pub fn rows_of<A: Allocator>(self, rows: &[Row<A>]) -> &[Row<A>]
        requires { self.first + self.rows ≤ length rows.now }
        ensures { result.now ≡ take self.rows (drop self.first rows.now) }
    {
        let rest = &rows[self.first..];
        &rest[..self.rows]
    }
}
