//! What is measured of a channel over whole cycles.

ghost use Rattle.std.specs.Prelude.{◌≡◌, ◌≢◌, ◌⊎◌, ◌*◌, ◌<◌, ◌≤◌, ◌++◌, length, drop, true, IfOk, IfSome};
ghost use Rattle.comtrade_analysis.specs.Fits.{IsPeakOf};
ghost use Rattle.comtrade_c.specs.Faults.{IsHeadFault, OfHead};
ghost use Rattle.comtrade_c.specs.Cycles as spec;

use crate::answer::{CFG_FAULT, DONE, Fault, NO_ITEM, NO_MEASURE, NO_MEMORY, NO_ROOM, head_of};
use crate::measure::column_of;
use crate::values::NO_VALUE;
use comtrade_analysis::{Fit, Measured, Window, skew_of, sums_over};
use comtrade_format::{Cycle, Head, Scale, cycle_of};
use comtrade_values::Memory;
use dfr_channels::AnalogChannel;
use std::alloc::{AllocError, Global};

/// What is measured of a signal over whole cycles.
#[repr(C)]
#[derive(Clone, Copy)]
pub(crate) struct Measure {
    /// The rms value of the signal, and the fundamental: an rms value as a complex number.
    pub rms: f64,
    pub re: f64,
    pub im: f64,
    /// The dc component, and how far it falls where it decays; else a NaN.
    pub dc: f64,
    pub fall: f64,
    /// The value farthest from 0.
    pub peak: f64,
    /// The rms value of what is left of the signal.
    pub residual: f64,
    /// The index of the peak's sample.
    pub peak_row: usize,
    /// How many orders are measured.
    pub orders: usize,
    pub has_angle: bool,
}

/// Whether no sample is missing.
fn has_all(alloc: Global, samples: &[i32]) -> Result<bool, AllocError>
    ensures { IfOk result (λ all. all ≡ true → spec.HasAll samples.now) }
{
    let rows = column_of(alloc, samples)?;
    let window = Window {
        first: 0,
        rows: rows.len(),
    };
    Ok(sums_over(&rows, 0, window).count == rows.len() as u64)
}

fn measure_of(measured: &Measured) -> Measure
    ensures rms { result.rms ≡ measured.now.rms }
    ensures re { result.re ≡ measured.now.phasor.re }
    ensures im { result.im ≡ measured.now.phasor.im }
    ensures dc { result.dc ≡ measured.now.dc }
    ensures peak { result.peak ≡ measured.now.peak }
    ensures peak_row { result.peak_row ≡ measured.now.peak_row }
    ensures residual { result.residual ≡ measured.now.residual }
    ensures orders { result.orders ≡ length measured.now.orders.items }
{
    Measure {
        rms: measured.rms,
        re: measured.phasor.re,
        im: measured.phasor.im,
        dc: measured.dc,
        fall: match measured.fall {
            Some(fall) => fall,
            None => NO_VALUE,
        },
        peak: measured.peak,
        residual: measured.residual,
        peak_row: measured.peak_row,
        orders: measured.orders.len(),
        has_angle: measured.has_angle(),
    }
}

/// The cycle at the rate of this index, if there is one.
fn cycle_at(head: &Head, rate: usize) -> Option<Cycle>
    requires { rate < length head.now.rates }
    ensures cycle { IfSome result (spec.IsCycleAt head.now rate) }
    ensures long { IfSome result (λ cycle. 3 * cycle.cycles ≤ cycle.rows) }
{
    let rate = head.rates.items()[rate];
    cycle_of(head.line_freq, rate.samp).ok()
}

/// The fit of so many rows at the rate of this index. None if there is no cycle, or if the rows
/// cannot separate the orders.
fn fit_at(
    alloc: Global,
    head: &Head,
    rate: usize,
    rows: usize,
) -> Result<Option<Fit<Global>>, Memory>
    requires { rate < length head.now.rates }
    ensures { IfOk result (λ found. IfSome found (λ fit. spec.HasOrders head.now rate fit.orders)) }
{
    let Some(cycle) = cycle_at(head, rate) else {
        return Ok(None);
    };
    Fit::new(alloc, cycle, rows)
}

/// Measures the samples of a channel at the rate of this index. None if one is missing or there is
/// none, or if there is no fit.
fn measured_of(
    alloc: Global,
    head: &Head,
    channel: &AnalogChannel,
    rate: usize,
    scale: Scale,
    samples: &[i32],
) -> Result<Option<Measured>, Memory>
    requires { rate < length head.now.rates }
    ensures each { IfOk result (λ found. IfSome found (λ _. spec.HasAll samples.now)) }
    ensures peak { IfOk result (λ found. IfSome found
        (λ m. IsPeakOf scale samples.now 0 m.peak m.peak_row)) }
    ensures orders { IfOk result (λ found. IfSome found
        (λ m. spec.HasOrders head.now rate (length m.orders.items))) }
{
    if samples.is_empty() || !has_all(alloc, samples)? {
        return Ok(None);
    }
    let Some(fit) = fit_at(alloc, head, rate, samples.len())? else {
        return Ok(None);
    };
    let skew = skew_of(alloc, channel, head.line_freq)?;
    Ok(Some(fit.measured(alloc, samples, 0, scale, skew)?))
}

/// Puts what is measured to its places, if there is room for the orders.
fn put_measured(measured: &Measured, orders: &mut [f64], measure: &mut Measure) -> i32
    ensures answer { (result ≡ DONE) ⊎ (result ≡ NO_ROOM) }
    ensures peak { result ≡ DONE → measure.new.peak ≡ measured.now.peak }
    ensures peak_row { result ≡ DONE → measure.new.peak_row ≡ measured.now.peak_row }
    ensures count { result ≡ DONE → measure.new.orders ≡ length measured.now.orders.items }
    ensures orders { result ≡ DONE → orders.new ≡ measured.now.orders.items
        ++ drop (length measured.now.orders.items) orders.old }
    ensures room { result ≡ NO_ROOM → length orders.old < length measured.now.orders.items }
    ensures orders_kept { (result ≢ DONE) → orders.new ≡ orders.old }
    ensures kept { (result ≢ DONE) → measure.new ≡ measure.old }
{
    let sizes = measured.orders.as_slice();
    if orders.len() < sizes.len() {
        return NO_ROOM;
    }
    orders[..sizes.len()].copy_from_slice(sizes);
    *measure = measure_of(measured);
    DONE
}

/// Measures the values a·x + b of samples of a channel over the whole rows of whole cycles at the
/// rate of this index, as `comtrade measure` does. The angle of the fundamental is that of a cosine
/// at the first row; the rms values of the orders 1, 2, .. are at the start of `orders`.
///
/// Returns `DONE`; `NO_ITEM` if there is no such channel or rate; `NO_MEASURE` if the file has no
/// frequency, the rate is 0 or less than three rows a cycle, a number has too many digits, a sample
/// is missing (-2^31) or there is none, or the rows cannot separate the orders; `NO_ROOM` if
/// `orders` is too short; `CFG_FAULT` with `fault` set; or `NO_MEMORY`. Only `DONE` changes `orders`
/// and `measure`.
#[unsafe(no_mangle)]
pub extern "C" fn comtrade_core_measure(
    alloc: Global,
    cfg: &[u8],
    channel: usize,
    rate: usize,
    a: f64,
    b: f64,
    samples: &[i32],
    orders: &mut [f64],
    measure: &mut Measure,
    fault: &mut Fault,
) -> i32
    ensures answer { (result ≡ DONE) ⊎ (result ≡ NO_ITEM) ⊎ (result ≡ NO_MEASURE)
        ⊎ (result ≡ NO_ROOM) ⊎ (result ≡ CFG_FAULT) ⊎ (result ≡ NO_MEMORY) }
    ensures each { result ≡ DONE → spec.HasAll samples.now }
    ensures peak { result ≡ DONE → IsPeakOf (record { a = a; b = b }) samples.now 0
        measure.new.peak measure.new.peak_row }
    ensures count { result ≡ DONE → OfHead cfg.now
        (λ h. spec.HasOrders h rate measure.new.orders) }
    ensures orders { result ≡ DONE → spec.IsPut measure.new.orders orders.old orders.new }
    ensures no_item { result ≡ NO_ITEM → OfHead cfg.now
        (λ h. (length h.analog ≤ channel) ⊎ (length h.rates ≤ rate)) }
    ensures room { result ≡ NO_ROOM → OfHead cfg.now
        (λ h. spec.HasMore h rate (length orders.old)) }
    ensures cfg_fault { result ≡ CFG_FAULT → IsHeadFault cfg.now fault.new }
    ensures orders_kept { (result ≢ DONE) → orders.new ≡ orders.old }
    ensures measure_kept { (result ≢ DONE) → measure.new ≡ measure.old }
    ensures fault_kept { (result ≢ CFG_FAULT) → fault.new ≡ fault.old }
{
    let head = match head_of(alloc, cfg, fault) {
        Ok(head) => head,
        Err(answer) => return answer,
    };
    let Some(channel) = head.analog.items().get(channel) else {
        return NO_ITEM;
    };
    if rate >= head.rates.items().len() {
        return NO_ITEM;
    }
    let scale = Scale { a, b };
    match measured_of(alloc, &head, channel, rate, scale, samples) {
        Ok(Some(measured)) => put_measured(&measured, orders, measure),
        Ok(None) => NO_MEASURE,
        Err(_) => NO_MEMORY,
    }
}
