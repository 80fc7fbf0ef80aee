//! The channels, rates and texts of a configuration file, as tables.

ghost use Rattle.std.specs.Prelude.{◌≡◌, ◌≢◌, ◌⊎◌, length, map, IfOk, IsTrue, IsFalse};
ghost use Rattle.std.specs.List.{AllZip};
ghost use Rattle.comtrade_c.specs.Channels as spec;
ghost use Rattle.comtrade_c.specs.Channels.{IsAnalog, IsRate, IsTold, LacksRoom};
ghost use Rattle.comtrade_c.specs.Faults.{IsHeadFault, OfHead};
ghost use Rattle.comtrade_c.specs.Tables.{bit_of};

use crate::answer::{CFG_FAULT, DONE, Fault, NO_MEMORY, NO_ROOM, head_of};
use crate::rows::bit_of;
use crate::texts::texts_of;
use comtrade_format::{Head, Rate, nearest_f64};
use comtrade_values::Memory;
use dfr_channels::{AnalogChannel, Side, StatusChannel};
use std::alloc::{AllocError, Global};

/// An analogue channel. A sample x, from `min` to `max`, has the value a·x + b. `skew` is in
/// microseconds. `primary` and `secondary` are the transformer's ratio, and `on_secondary` is
/// whether the values are of its secondary side.
#[repr(C)]
#[derive(Clone, Copy)]
pub(crate) struct Analog {
    pub a: f64,
    pub b: f64,
    pub skew: f64,
    pub primary: f64,
    pub secondary: f64,
    pub min: i32,
    pub max: i32,
    pub on_secondary: bool,
}

/// A rate in scans per second, and the number of the last row sampled at it.
#[repr(C)]
#[derive(Clone, Copy)]
pub(crate) struct RateEnd {
    pub samp: f64,
    pub endsamp: u64,
}

fn analog_of(alloc: Global, channel: &AnalogChannel) -> Result<Analog, Memory>
    ensures { IfOk result (λ s. IsAnalog channel.now s) }
{
    Ok(Analog {
        a: nearest_f64(alloc, channel.a)?,
        b: nearest_f64(alloc, channel.b)?,
        skew: nearest_f64(alloc, channel.skew)?,
        primary: nearest_f64(alloc, channel.primary)?,
        secondary: nearest_f64(alloc, channel.secondary)?,
        min: channel.min,
        max: channel.max,
        on_secondary: matches!(channel.side, Side::Secondary),
    })
}

fn analogs_of(alloc: Global, channels: &[AnalogChannel]) -> Result<Vec<Analog>, Memory>
    ensures { IfOk result (λ v. AllZip IsAnalog channels.now v.items) }
{
    let mut said = Vec::with_capacity(alloc, channels.len())?;
    for channel in channels {
        said.push(analog_of(alloc, channel)?)?;
    }
    Ok(said)
}

fn rates_of(alloc: Global, rates: &[Rate]) -> Result<Vec<RateEnd>, Memory>
    ensures { IfOk result (λ v. AllZip IsRate rates.now v.items) }
{
    let mut said = Vec::with_capacity(alloc, rates.len())?;
    for rate in rates {
        let samp = nearest_f64(alloc, rate.samp)?;
        said.push(RateEnd {
            samp,
            endsamp: rate.endsamp,
        })?;
    }
    Ok(said)
}

fn normals_of(alloc: Global, channels: &[StatusChannel]) -> Result<Vec<u8>, AllocError>
    ensures { IfOk result (λ v. v.items ≡ map (λ c. bit_of c.normal) channels.now) }
{
    let mut said = Vec::with_capacity(alloc, channels.len())?;
    for channel in channels {
        said.push(bit_of(channel.normal))?;
    }
    Ok(said)
}

/// All tables of a configuration file.
#[derive(Drop)]
struct Tables {
    analog: Vec<Analog>,
    normal: Vec<u8>,
    rates: Vec<RateEnd>,
    lengths: Vec<usize>,
    text: Vec<u8>,
}

fn tables_of(alloc: Global, head: &Head) -> Result<Tables, Memory>
    ensures { IfOk result (λ t. IsTold head.now t.analog.items t.normal.items t.rates.items
        t.lengths.items t.text.items) }
{
    let analog = analogs_of(alloc, head.analog.items())?;
    let normal = normals_of(alloc, head.status.items())?;
    let rates = rates_of(alloc, head.rates.items())?;
    let texts = texts_of(alloc, head)?;
    Ok(Tables {
        analog,
        normal,
        rates,
        lengths: texts.lengths,
        text: texts.bytes,
    })
}

/// Copies a head's tables into those of the caller. If one of these doesn't have the same length,
/// it returns false and changes none.
fn fill(
    all: &Tables,
    analog: &mut [Analog],
    normal: &mut [u8],
    rates: &mut [RateEnd],
    lengths: &mut [usize],
    text: &mut [u8],
) -> bool
    ensures analog { IsTrue result → analog.new ≡ all.now.analog.items }
    ensures normal { IsTrue result → normal.new ≡ all.now.normal.items }
    ensures rates { IsTrue result → rates.new ≡ all.now.rates.items }
    ensures lengths { IsTrue result → lengths.new ≡ all.now.lengths.items }
    ensures text { IsTrue result → text.new ≡ all.now.text.items }
    ensures room { IsFalse result → (length analog.old ≢ length all.now.analog.items)
        ⊎ (length normal.old ≢ length all.now.normal.items)
        ⊎ (length rates.old ≢ length all.now.rates.items)
        ⊎ (length lengths.old ≢ length all.now.lengths.items)
        ⊎ (length text.old ≢ length all.now.text.items) }
    ensures analog_kept { IsFalse result → analog.new ≡ analog.old }
    ensures normal_kept { IsFalse result → normal.new ≡ normal.old }
    ensures rates_kept { IsFalse result → rates.new ≡ rates.old }
    ensures lengths_kept { IsFalse result → lengths.new ≡ lengths.old }
    ensures text_kept { IsFalse result → text.new ≡ text.old }
{
    if analog.len() != all.analog.len()
        || normal.len() != all.normal.len()
        || rates.len() != all.rates.len()
        || lengths.len() != all.lengths.len()
        || text.len() != all.text.len()
    {
        return false;
    }
    analog.copy_from_slice(&all.analog);
    normal.copy_from_slice(&all.normal);
    rates.copy_from_slice(&all.rates);
    lengths.copy_from_slice(&all.lengths);
    text.copy_from_slice(&all.text);
    true
}

/// Copies all channels, rates and texts of a configuration file into tables of the caller.
///
/// Returns `DONE`, `CFG_FAULT` with the file's first error in `fault`, `NO_ROOM` if a table doesn't
/// have the length that it must have, or `NO_MEMORY`. Only `DONE` changes the tables.
#[unsafe(no_mangle)]
pub extern "C" fn comtrade_core_channels(
    alloc: Global,
    cfg: &[u8],
    analog: &mut [Analog],
    normal: &mut [u8],
    rates: &mut [RateEnd],
    lengths: &mut [usize],
    text: &mut [u8],
    fault: &mut Fault,
) -> i32
    ensures answer { (result ≡ DONE) ⊎ (result ≡ CFG_FAULT) ⊎ (result ≡ NO_ROOM)
        ⊎ (result ≡ NO_MEMORY) }
    ensures done { result ≡ DONE → OfHead cfg.now (λ h.
        IsTold h analog.new normal.new rates.new lengths.new text.new) }
    ensures room { result ≡ NO_ROOM → OfHead cfg.now (λ h.
        LacksRoom h analog.old normal.old rates.old lengths.old text.old) }
    ensures cfg_fault { result ≡ CFG_FAULT → IsHeadFault cfg.now fault.new }
    ensures analog_kept { (result ≢ DONE) → analog.new ≡ analog.old }
    ensures normal_kept { (result ≢ DONE) → normal.new ≡ normal.old }
    ensures rates_kept { (result ≢ DONE) → rates.new ≡ rates.old }
    ensures lengths_kept { (result ≢ DONE) → lengths.new ≡ lengths.old }
    ensures text_kept { (result ≢ DONE) → text.new ≡ text.old }
    ensures fault_kept { (result ≢ CFG_FAULT) → fault.new ≡ fault.old }
{
    let head = match head_of(alloc, cfg, fault) {
        Ok(head) => head,
        Err(answer) => return answer,
    };
    let Ok(all) = tables_of(alloc, &head) else {
        return NO_MEMORY;
    };
    if fill(&all, analog, normal, rates, lengths, text) {
        DONE
    } else {
        NO_ROOM
    }
}
