//! The rows that are measured.

ghost use Rattle.std.specs.Prelude.{◌≡◌, ◌==◌, ◌+◌, ◌-◌, ◌*◌, ◌%◌, ◌<◌, ◌≤◌, ℕ, length, IfOk, IfSome, MatchOption};
ghost use Rattle.comtrade_format.specs.Cycles.{Lasts};
ghost use Rattle.comtrade_views.specs.declared.cycles.fault.MeasureFault.TheVariants.{Short};
ghost use Rattle.comtrade_analysis.specs.Windows.{rows_in};
ghost use Rattle.comtrade_views.specs.Stretches.{ends_at, IsLastStretch, AreCycles, LastsAt, IsOfLastRate, IsOfOneRate};

use crate::cycles::fault::MeasureFault;
use comtrade_analysis::{Window as Rows, cycles_within, orders_in, window_before, window_from};
use comtrade_format::{Cycle, File, Head, Rate, cycle_of};
use comtrade_values::Decimal;
use std::alloc::Allocator;

/// Whole cycles of rows of one rate, by their indices from 0: from `from` up to but without `to`.
#[derive(Clone, Copy, Debug)]
pub struct Window {
    pub from: usize,
    pub to: usize,
    /// The number of cycles.
    pub cycles: u64,
    pub cycle: Cycle,
    ghost some: { 0 < cycle.cycles },
    ghost long: { 3 * cycle.cycles ≤ cycle.rows },
}

/// Two windows of whole cycles, one after the other.
#[derive(Clone, Copy, Debug)]
pub(crate) struct Two {
    pub(crate) first: Window,
    pub(crate) last: Window,
}

impl Window {
    /// The last row; the first one where there are none.
    pub fn last(self) -> usize {
        // (the windows that are measured have rows)
        self.to.saturating_sub(1)
    }

    /// The number of orders that are measured: those below half the rows of a cycle, at most 25.
    pub fn orders(self) -> usize {
        orders_in(self.cycle)
    }

    /// The rows, as a window of `comtrade_analysis`.
    pub(crate) fn rows(self) -> Rows
        ensures first { result.first ≡ self.from }
        ensures rows { result.rows ≡ self.to - self.from }
    {
        // (the windows that are measured have rows)
        Rows {
            first: self.from,
            rows: self.to.saturating_sub(self.from),
        }
    }

    /// Whether the cycles last a whole number of rows.
    pub(crate) fn is_even(self) -> bool
        ensures { result ≡ ((self.cycles * self.cycle.rows) % self.cycle.cycles == 0) }
    {
        (self.cycles as u128 * self.cycle.rows as u128) % self.cycle.cycles as u128 == 0
    }
}

/// The number of the last row of a rate.
fn end_of(rates: &[Rate], rate: usize) -> usize
    requires { rate < length rates.now }
    ensures { result ≡ ends_at rates.now rate }
{
    rates[rate].endsamp as usize
}

/// The rate of the last of so many rows, by its index, and the index of its first row.
#[derive(Clone, Copy)]
struct Stretch {
    rate: usize,
    from: usize,
}

/// The rate of the last of so many rows: the first one that reaches to it. None where none does.
fn last_stretch(rates: &[Rate], rows: usize) -> Option<Stretch>
    ensures found { MatchOption result ((k : ℕ) → k < length rates.now → ends_at rates.now k < rows) (λ s. IsLastStretch rates.now rows s.rate s.from) }
    ensures order { IfSome result (λ s. s.from ≤ rows) }
{
    let mut from = 0;
    for i in 0..rates.len() {
        let to = end_of(rates, i);
        if rows <= to {
            return Some(Stretch { rate: i, from });
        }
        from = to;
    }
    None
}

/// There are fewer rows than a cycle has.
fn too_short(cycle: Cycle, from: usize, to: usize) -> MeasureFault
    requires some { 0 < cycle.cycles }
    requires order { from ≤ to }
    ensures { result ≡ Short (to - from) (rows_in cycle 1) }
{
    MeasureFault::Short((to - from) as u64, cycle.rows_in(1))
}

/// The last cycle of these rows.
fn last_of(cycle: Cycle, from: usize, to: usize) -> Result<Window, MeasureFault>
    requires order { from ≤ to }
    requires some { 0 < cycle.cycles }
    requires long { 3 * cycle.cycles ≤ cycle.rows }
    ensures cycle { IfOk result (λ window. (window.cycle ≡ cycle) × (window.cycles ≡ 1)) }
    ensures rows { IfOk result (λ window. AreCycles cycle 1 window.from window.to × (from ≤ window.from)) }
    ensures last { IfOk result (λ window. window.to ≡ to) }
{
    match window_before(cycle, 1, to) {
        Some(window) if from <= window.first => Ok(Window {
            from: window.first,
            to,
            cycles: 1,
            cycle,
        }),
        _ => Err(too_short(cycle, from, to)),
    }
}

/// The whole cycles of these rows, from the first one on.
fn all_of(cycle: Cycle, from: usize, to: usize) -> Result<Window, MeasureFault>
    requires order { from ≤ to }
    requires some { 0 < cycle.cycles }
    requires long { 3 * cycle.cycles ≤ cycle.rows }
    ensures cycle { IfOk result (λ window. window.cycle ≡ cycle) }
    ensures rows { IfOk result (λ window. AreCycles cycle window.cycles from window.to × (window.to ≤ to)) }
    ensures most { IfOk result (λ window. (n : ℕ) → from + rows_in cycle n ≤ to → n ≤ window.cycles) }
    ensures first { IfOk result (λ window. window.from ≡ from) }
{
    let cycles = cycles_within(cycle, to - from);
    match window_from(cycle, cycles, from, to) {
        Some(window) if cycles != 0 => Ok(Window {
            from,
            to: from + window.rows,
            cycles,
            cycle,
        }),
        _ => Err(too_short(cycle, from, to)),
    }
}

/// The rate of the last of a file's rows.
fn last_rate<A: Allocator>(head: &Head<A>, rows: usize) -> Result<Stretch, MeasureFault>
    ensures stretch { IfOk result (λ s. IsLastStretch head.now.rates rows s.rate s.from) }
    ensures order { IfOk result (λ s. s.from ≤ rows) }
{
    if head.nrates == 0 {
        return Err(MeasureFault::NoRate);
    }
    match last_stretch(head.rates.items(), rows) {
        Some(stretch) => Ok(stretch),
        None => Err(MeasureFault::NoRate),
    }
}

/// The cycle at the rate of this index.
fn cycle_at<A: Allocator>(head: &Head<A>, rate: usize) -> Result<Cycle, MeasureFault>
    requires { rate < length head.now.rates }
    ensures long { IfOk result (λ cycle. (0 < cycle.cycles) × (3 * cycle.cycles ≤ cycle.rows)) }
    ensures lasts { IfOk result (λ cycle. LastsAt head.now.line_freq head.now.rates rate cycle) }
{
    let rates = head.rates.items();
    Ok(cycle_of(head.line_freq, rates[rate].samp)?)
}

/// The last two whole cycles at this line frequency, of so many rows of a file, one directly after
/// the other. Errors are those of `last_cycle`.
pub(crate) fn last_two<A: Allocator>(
    head: &Head<A>,
    frequency: Decimal,
    rows: usize,
) -> Result<Two, MeasureFault>
    ensures first { IfOk result (λ two. AreCycles two.first.cycle 1 two.first.from two.first.to) }
    ensures last { IfOk result (λ two. AreCycles two.last.cycle 1 two.last.from two.last.to) }
    ensures next { IfOk result (λ two. (two.first.to ≡ two.last.from) × (two.last.to ≡ rows)) }
{
    let stretch = last_rate(head, rows)?;
    let rates = head.rates.items();
    let cycle = cycle_of(frequency, rates[stretch.rate].samp)?;
    let last = last_of(cycle, stretch.from, rows)?;
    let first = last_of(cycle, stretch.from, last.from)?;
    Ok(Two { first, last })
}

/// The first and the last half of a window's cycles, at this line frequency. `Short`: it has fewer
/// than two. Other errors are those of `last_cycle`.
pub(crate) fn halves_of<A: Allocator>(
    head: &Head<A>,
    frequency: Decimal,
    rows: usize,
) -> Result<Two, MeasureFault> {
    let stretch = last_rate(head, rows)?;
    let rates = head.rates.items();
    let cycle = cycle_of(frequency, rates[stretch.rate].samp)?;
    let half = cycles_within(cycle, rows - stretch.from) / 2;
    let first = window_from(cycle, half, stretch.from, rows);
    let last = window_before(cycle, half, rows);
    match (first, last) {
        (Some(first), Some(last)) if half != 0 => Ok(Two {
            first: Window {
                from: stretch.from,
                to: stretch.from + first.rows,
                cycles: half,
                cycle,
            },
            last: Window {
                from: last.first,
                to: rows,
                cycles: half,
                cycle,
            },
        }),
        _ => Err(too_short(cycle, stretch.from, rows)),
    }
}

/// The last whole cycle of a file, at the rate of its last row. `NoFrequency`, `NoRate`, `Digits`,
/// `Slow`: as for `cycle_of`. `Short`: that rate has fewer rows than a cycle.
pub fn last_cycle<A: Allocator>(file: &File<A>) -> Result<Window, MeasureFault>
    ensures one { IfOk result (λ window. window.cycles ≡ 1) }
    ensures rows { IfOk result (λ window. AreCycles window.cycle 1 window.from window.to) }
    ensures last { IfOk result (λ window. window.to ≡ length file.now.rows) }
    ensures rate { IfOk result (λ window. IsOfLastRate file.now.head.line_freq file.now.head.rates (length file.now.rows) window.from window.cycle) }
{
    let rows = file.rows.items().len();
    let stretch = last_rate(&file.head, rows)?;
    let cycle = cycle_at(&file.head, stretch.rate)?;
    last_of(cycle, stretch.from, rows)
}

/// The whole cycles of a file from its first row on. `ManyRates`: its rows have several rates.
/// Other errors are those of `last_cycle`.
pub fn whole_cycles<A: Allocator>(file: &File<A>) -> Result<Window, MeasureFault>
    ensures rows { IfOk result (λ window. AreCycles window.cycle window.cycles 0 window.to × (window.to ≤ length file.now.rows)) }
    ensures most { IfOk result (λ window. (n : ℕ) → rows_in window.cycle n ≤ length file.now.rows → n ≤ window.cycles) }
    ensures first { IfOk result (λ window. window.from ≡ 0) }
    ensures rate { IfOk result (λ window. IsOfOneRate file.now.head.line_freq file.now.head.rates (length file.now.rows) window.cycle) }
{
    let rows = file.rows.items().len();
    let stretch = last_rate(&file.head, rows)?;
    if stretch.from != 0 {
        return Err(MeasureFault::ManyRates);
    }
    let cycle = cycle_at(&file.head, stretch.rate)?;
    all_of(cycle, 0, rows)
}

/// The rows of one rate, of which a cycle has at least this many. `Coarse`: it has fewer. Other
/// errors are those of `last_cycle`.
fn span_of(
    frequency: Decimal,
    rate: Decimal,
    from: usize,
    to: usize,
    least: u128,
) -> Result<Window, MeasureFault>
    requires { from ≤ to }
    ensures rows { IfOk result (λ window. (window.from ≡ from) × (window.to ≡ to)) }
    ensures cycle { IfOk result (λ window. Lasts frequency rate window.cycle.cycles window.cycle.rows) }
    ensures least { IfOk result (λ window. least ≤ rows_in window.cycle 1) }
{
    let cycle = cycle_of(frequency, rate)?;
    let window = all_of(cycle, from, to)?;
    if cycle.rows_in(1) < least {
        return Err(MeasureFault::Coarse);
    }
    Ok(Window {
        from,
        to,
        cycles: window.cycles,
        cycle,
    })
}

/// The rows of each rate, where they are at least a cycle and a cycle has at least this many. If no
/// rate has such rows, the error is that of the first one.
pub fn spans_of<A: Allocator + Copy>(
    alloc: A,
    file: &File<A>,
    least: u128,
) -> Result<Vec<Window, A>, MeasureFault> {
    let count = file.rows.items().len();
    last_rate(&file.head, count)?;
    let mut spans = Vec::new(alloc);
    let mut refused: Option<MeasureFault> = None;
    let mut from = 0usize;
    for rate in file.head.rates.items() {
        let to = count.min(rate.endsamp as usize).max(from);
        match span_of(file.head.line_freq, rate.samp, from, to, least) {
            Ok(span) => spans.push(span)?,
            Err(fault) if refused.is_none() => refused = Some(fault),
            Err(_) => {}
        }
        from = to;
    }
    match refused {
        Some(fault) if spans.is_empty() => Err(fault),
        _ => Ok(spans),
    }
}

/// The index after the last row of a file's first whole cycle, if its first rate has one.
pub fn first_cycle_end<A: Allocator>(file: &File<A>) -> Option<usize> {
    let rate = file.head.rates.items().first()?;
    let cycle = cycle_of(file.head.line_freq, rate.samp).ok()?;
    usize::try_from(cycle.rows_in(1)).ok()
}
