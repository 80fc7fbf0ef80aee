//! Reads a configuration file.

ghost use Rattle.std.specs.Prelude.{◌≡◌, ◌≢◌, ◌+◌, ◌<◌, ◌≤◌, length, map, IfOk, IfErr};
ghost use Rattle.comtrade_read.specs.declared.fault.ReadFault.TheVariants as faults;
ghost use Rattle.comtrade_values.specs.Lines.{lines, fields};
ghost use Rattle.comtrade_read.specs.Head as spec;
ghost use Rattle.comtrade_read.specs.Inner.LineFaults.{Is};
ghost use Rattle.comtrade_read.specs.Reads.{ReadsHead, FaultyHead, Nothing};

use crate::channels::{analogs_of, statuses_of};
use crate::fault::ReadFault;
use crate::left::Left;
use crate::settings::{
    counts_of, frequency_of, instant_of, kind_in, names_of, nrates_of, rates_of, timemult_of,
};
use comtrade_format::{Head, Kind, Rate};
use comtrade_values::{Decimal, Items};
use std::alloc::Allocator;

/// The part of a head after its rates.
#[derive(Clone, Copy)]
struct End {
    first: i64,
    trigger: i64,
    kind: Kind,
    timemult: Decimal,
}

/// Reads the lines after the rates, and checks that no line follows.
#[tactic(auto, unfolding(crate::specs::Head::ending))]
fn end_of<A: Allocator + Copy>(alloc: A, left: &mut Left) -> Result<End, ReadFault>
    ensures { Is {Y = spec.EndParts}
        (λ x. record { first = x.first; trigger = x.trigger; kind = x.kind; timemult = x.timemult })
        (spec.ending left.old) result }
{
    let first = instant_of(alloc, left)?;
    let trigger = instant_of(alloc, left)?;
    let kind = kind_in(alloc, left)?;
    let timemult = timemult_of(alloc, left)?;
    left.end()?;
    Ok(End {
        first,
        trigger,
        kind,
        timemult,
    })
}

/// The part of a head after its channels.
#[derive(Drop)]
struct Tail<A: Allocator> {
    line_freq: Decimal,
    nrates: u64,
    rates: Vec<Rate, A>,
    end: End,
}

/// Reads the lines after the channels.
#[tactic(auto, unfolding(crate::specs::Head::tail))]
fn tail_of<A: Allocator + Copy>(alloc: A, left: &mut Left) -> Result<Tail<A>, ReadFault>
    ensures small { IfOk result (λ x. x.nrates ≤ 999) }
    ensures value { Is {Y = spec.TailParts}
        (λ x. record {
          line_freq = x.line_freq;
          nrates = x.nrates;
          rates = x.rates.items;
          ending = record { first = x.end.first; trigger = x.end.trigger; kind = x.end.kind; timemult = x.end.timemult };
        })
        (spec.tail left.old) result }
{
    let line_freq = frequency_of(alloc, left)?;
    let nrates = nrates_of(alloc, left)?;
    let rates = rates_of(alloc, left, nrates.max(1))?;
    let end = end_of(alloc, left)?;
    Ok(Tail {
        line_freq,
        nrates,
        rates,
        end,
    })
}

/// Reads the head from the lines of a text.
#[tactic(auto, unfolding(crate::specs::Head::head))]
fn head_of<A: Allocator + Copy>(alloc: A, text: &[u8]) -> Result<Head<A>, ReadFault>
    ensures { Is (λ x. x) (spec.head (map fields (lines text.now))) result }
{
    let mut left = Left::of(text);
    let names = names_of(alloc, &mut left)?;
    let (analog_count, status_count) = counts_of(alloc, &mut left)?;
    let analog = analogs_of(alloc, &mut left, analog_count)?;
    let status = statuses_of(alloc, &mut left, status_count)?;
    let tail = tail_of(alloc, &mut left)?;
    Ok(Head {
        station: names.station,
        device: names.device,
        analog: Items::of(analog),
        status: Items::of(status),
        line_freq: tail.line_freq,
        nrates: tail.nrates as u32,
        rates: Items::of(tail.rates),
        first: tail.end.first,
        trigger: tail.end.trigger,
        kind: tail.end.kind,
        timemult: tail.end.timemult,
    })
}

/// Reads a configuration file (C37.111-1999, clause 5). An error is the first of the file, or
/// `Memory` if an allocation failed.
///
/// Lines end with LF or CR LF. Blanks around fields and blank lines at the end are allowed.
/// Numbers, dates and letters may be spelled as other programs spell them. The texts of station,
/// device and channels may have any bytes except commas and line feeds; blanks at their ends aren't
/// part of them. The head has at most 999,999 channels, as `read_dat` requires.
pub fn read_cfg<A: Allocator + Copy>(alloc: A, text: &[u8]) -> Result<Head<A>, ReadFault>
    ensures found { IfOk result (ReadsHead text.now) }
    ensures few { IfOk result (λ h. length h.analog + length h.status < 1000000) }
    ensures fault { IfErr result (λ e. e ≢ faults.Memory → FaultyHead text.now e) }
    ensures unread { IfErr result (λ e. e ≢ faults.Memory → Nothing (ReadsHead text.now)) }
{
    head_of(alloc, text)
}
