//! Measures: the rows of cycles, and rms values.

ghost use Rattle.std.specs.Prelude.{◌≡◌, ◌≢◌, ◌⊎◌, ◌<◌, ◌≤◌, length, IfOk, IfSome, MatchOption};
ghost use Rattle.comtrade_c.specs.Faults.{IsHeadFault, OfHead};
ghost use Rattle.comtrade_c.specs.Measures as spec;
ghost use Rattle.comtrade_c.specs.Measures.{AreCycles, HasNoRms, IsRmsOf, OfChannel};

use crate::answer::{CFG_FAULT, DONE, Fault, NO_ITEM, NO_MEASURE, NO_MEMORY, head_of};
use crate::write::reading_of;
use comtrade_analysis::{Factors, MeanFault, MeanSquare, Window, mean_square_over};
use comtrade_format::{Head, Row, cycle_of};
use comtrade_values::{Items, Memory};
use dfr_channels::AnalogChannel;
use std::alloc::{AllocError, Global};

/// The whole rows of so many cycles at the rate of this index. None if there are none, or more than
/// 64 bits can say.
fn rows_at(head: &Head, rate: usize, cycles: u64) -> Option<u64>
    requires { rate < length head.now.rates }
    ensures { IfSome result (AreCycles head.now rate cycles) }
{
    let rate = head.rates.items()[rate];
    let cycle = cycle_of(head.line_freq, rate.samp).ok()?;
    u64::try_from(cycle.rows_in(cycles)).ok()
}

/// Computes how many whole rows so many cycles of the line frequency have at the rate of this index,
/// from 0. A fraction of a row is left out.
///
/// Returns `DONE`, `NO_ITEM` if there is no such rate, `NO_MEASURE` if the file has no frequency, the
/// rate is 0 or less than three rows a cycle, or a number has too many digits, `CFG_FAULT` with
/// `fault` set, or `NO_MEMORY`. Only `DONE` changes `rows`.
#[unsafe(no_mangle)]
pub extern "C" fn comtrade_core_cycle(
    alloc: Global,
    cfg: &[u8],
    rate: usize,
    cycles: u64,
    rows: &mut u64,
    fault: &mut Fault,
) -> i32
    ensures answer { (result ≡ DONE) ⊎ (result ≡ NO_ITEM) ⊎ (result ≡ NO_MEASURE)
        ⊎ (result ≡ CFG_FAULT) ⊎ (result ≡ NO_MEMORY) }
    ensures done { result ≡ DONE → OfHead cfg.now (λ h. AreCycles h rate cycles rows.new) }
    ensures no_item { result ≡ NO_ITEM → OfHead cfg.now (λ h. length h.rates ≤ rate) }
    ensures cfg_fault { result ≡ CFG_FAULT → IsHeadFault cfg.now fault.new }
    ensures rows_kept { (result ≢ DONE) → rows.new ≡ rows.old }
    ensures fault_kept { (result ≢ CFG_FAULT) → fault.new ≡ fault.old }
{
    let head = match head_of(alloc, cfg, fault) {
        Ok(head) => head,
        Err(answer) => return answer,
    };
    if rate >= head.rates.items().len() {
        return NO_ITEM;
    }
    match rows_at(&head, rate, cycles) {
        Some(found) => {
            *rows = found;
            DONE
        }
        None => NO_MEASURE,
    }
}

fn row_of(alloc: Global, sample: i32) -> Result<Row, AllocError>
    ensures { IfOk result (λ row. row ≡ spec.one sample) }
{
    let values = Vec::from_slice(alloc, &[reading_of(sample)])?;
    Ok(Row {
        number: 1,
        stamp: None,
        values: Items::of(values),
        bits: Items::of(Vec::new(alloc)),
    })
}

pub(crate) fn column_of(alloc: Global, samples: &[i32]) -> Result<Vec<Row>, AllocError>
    ensures { IfOk result (λ rows. rows.items ≡ spec.column samples.now) }
{
    let mut rows = Vec::with_capacity(alloc, samples.len())?;
    for sample in samples {
        rows.push(row_of(alloc, *sample)?)?;
    }
    Ok(rows)
}

/// The mean square of the values of samples.
fn mean_of(
    alloc: Global,
    channel: &AnalogChannel,
    samples: &[i32],
) -> Result<Result<MeanSquare, MeanFault>, AllocError>
    ensures { IfOk result (spec.MeanIs channel.now samples.now) }
{
    let rows = column_of(alloc, samples)?;
    let window = Window {
        first: 0,
        rows: rows.len(),
    };
    let factors = Factors {
        a: channel.a,
        b: channel.b,
    };
    Ok(mean_square_over(&rows, 0, &factors, window))
}

/// The rms value of the values of samples. None if there is none.
fn rms_of(alloc: Global, channel: &AnalogChannel, samples: &[i32]) -> Result<Option<f64>, Memory>
    ensures { IfOk result (λ found. MatchOption found (HasNoRms channel.now samples.now)
        (IsRmsOf channel.now samples.now)) }
{
    match mean_of(alloc, channel, samples)? {
        Ok(mean) => Ok(Some(mean.rms(alloc)?)),
        Err(_) => Ok(None),
    }
}

/// Computes the rms value of the values of a channel's samples, within 3 units of its last place.
///
/// Returns `DONE`; `NO_ITEM` if there is no analogue channel of this index; `NO_MEASURE` if there is
/// no sample, one is missing (-2^31), or a number has too many digits; `CFG_FAULT` with `fault` set;
/// or `NO_MEMORY`. Only `DONE` changes `value`.
#[unsafe(no_mangle)]
pub extern "C" fn comtrade_core_rms(
    alloc: Global,
    cfg: &[u8],
    channel: usize,
    samples: &[i32],
    value: &mut f64,
    fault: &mut Fault,
) -> i32
    ensures answer { (result ≡ DONE) ⊎ (result ≡ NO_ITEM) ⊎ (result ≡ NO_MEASURE)
        ⊎ (result ≡ CFG_FAULT) ⊎ (result ≡ NO_MEMORY) }
    ensures done { result ≡ DONE → OfHead cfg.now (λ h.
        OfChannel h channel (λ c. IsRmsOf c samples.now value.new)) }
    ensures no_item { result ≡ NO_ITEM → OfHead cfg.now (λ h. length h.analog ≤ channel) }
    ensures no_measure { result ≡ NO_MEASURE → OfHead cfg.now (λ h.
        OfChannel h channel (λ c. HasNoRms c samples.now)) }
    ensures cfg_fault { result ≡ CFG_FAULT → IsHeadFault cfg.now fault.new }
    ensures value_kept { (result ≢ DONE) → value.new ≡ value.old }
    ensures fault_kept { (result ≢ CFG_FAULT) → fault.new ≡ fault.old }
{
    let head = match head_of(alloc, cfg, fault) {
        Ok(head) => head,
        Err(answer) => return answer,
    };
    let Some(channel) = head.analog.items().get(channel) else {
        return NO_ITEM;
    };
    match rms_of(alloc, channel, samples) {
        Ok(Some(found)) => {
            *value = found;
            DONE
        }
        Ok(None) => NO_MEASURE,
        Err(_) => NO_MEMORY,
    }
}
