//! Summarizes a configuration file.

ghost use Rattle.std.specs.Prelude.{◌≡◌, ◌≢◌, ◌⊎◌, IfOk};
ghost use Rattle.comtrade_read.specs.Head.{last_sample};
ghost use Rattle.comtrade_c.specs.Faults.{IsHeadFault, OfHead};
ghost use Rattle.comtrade_c.specs.Summaries as spec;

use crate::answer::{CFG_FAULT, DONE, Fault, NO_MEMORY, head_of};
use crate::texts::texts_of;
use comtrade_format::{Head, Kind, Rate, nearest_f64};
use comtrade_values::Memory;
use std::alloc::Global;

/// The content of a configuration file, except its channels, rates and texts.
#[repr(C)]
#[derive(Clone, Copy)]
pub(crate) struct Summary {
    /// The number of rows.
    pub rows: u64,
    /// The number of analogue channels.
    pub analog: usize,
    /// The number of status channels.
    pub status: usize,
    /// The number of rates, at least one.
    pub rates: usize,
    /// The length of all texts together, in bytes.
    pub text: usize,
    /// The instant of the first row, in microseconds since 1970-01-01 00:00:00.
    pub first: i64,
    /// The instant of the trigger, in the same unit.
    pub trigger: i64,
    /// The line frequency in Hz.
    pub line_freq: f64,
    /// The factor that turns stamps into microseconds.
    pub timemult: f64,
    /// The number of rates as the file gives it.
    pub nrates: u32,
    /// Whether the data file is BINARY.
    pub binary: bool,
}

pub(crate) fn last_row(rates: &[Rate]) -> u64
    ensures { result ≡ last_sample rates.now }
{
    match rates {
        [.., last] => last.endsamp,
        [] => 0,
    }
}

fn summary_of(alloc: Global, head: &Head) -> Result<Summary, Memory>
    ensures { IfOk result (λ s. spec.Summarizes head.now s) }
{
    let text = texts_of(alloc, head)?.bytes.len();
    Ok(Summary {
        rows: last_row(head.rates.items()),
        analog: head.analog.items().len(),
        status: head.status.items().len(),
        rates: head.rates.items().len(),
        text,
        first: head.first,
        trigger: head.trigger,
        line_freq: nearest_f64(alloc, head.line_freq)?,
        timemult: nearest_f64(alloc, head.timemult)?,
        nrates: head.nrates,
        binary: matches!(head.kind, Kind::Binary),
    })
}

/// Summarizes a configuration file. Returns `DONE`, `CFG_FAULT` with the file's first error in
/// `fault`, or `NO_MEMORY`. Only `DONE` changes `summary`.
#[unsafe(no_mangle)]
pub extern "C" fn comtrade_core_head(
    alloc: Global,
    cfg: &[u8],
    summary: &mut Summary,
    fault: &mut Fault,
) -> i32
    ensures answer { (result ≡ DONE) ⊎ (result ≡ CFG_FAULT) ⊎ (result ≡ NO_MEMORY) }
    ensures done { result ≡ DONE → OfHead cfg.now (λ h. spec.Summarizes h summary.new) }
    ensures cfg_fault { result ≡ CFG_FAULT → IsHeadFault cfg.now fault.new }
    ensures summary_kept { (result ≢ DONE) → summary.new ≡ summary.old }
    ensures fault_kept { (result ≢ CFG_FAULT) → fault.new ≡ fault.old }
{
    let head = match head_of(alloc, cfg, fault) {
        Ok(head) => head,
        Err(answer) => return answer,
    };
    let Ok(said) = summary_of(alloc, &head) else {
        return NO_MEMORY;
    };
    *summary = said;
    DONE
}
