//! Reads the lines of a configuration file, except those of channels.

ghost use Rattle.std.specs.Prelude.{◌≡◌, ◌<◌, ◌≤◌, IfOk, List, [], ℕ};
ghost use Rattle.comtrade_read.specs.Line.{next, each};
ghost use Rattle.comtrade_read.specs.Line as line_spec;
ghost use Rattle.comtrade_read.specs.Head as spec;
ghost use Rattle.comtrade_read.specs.Inner.LineFaults.{Is};
ghost use Rattle.comtrade_read.specs.Fields.{whole};

use crate::fault::ReadFault;
use crate::fields::{count_of, free_scale_of, kind_of, natural_of, scale_of, text_of};
use crate::instant::{date_of, instant_at, time_of};
use crate::left::{Left, Line};
use comtrade_format::{Kind, Rate};
use comtrade_values::{Decimal, Items, integer_of};
use std::alloc::Allocator;

/// The names of station and device.
#[derive(Drop)]
pub(crate) struct Names<A: Allocator> {
    pub(crate) station: Items<u8, A>,
    pub(crate) device: Items<u8, A>,
}

/// Whether the text is the revision year, 1999.
#[tactic(auto, unfolding(crate::specs::Fields::whole))]
fn is_revision(text: &[u8]) -> bool
    ensures { result ≡ spec.is_number 1999 (whole text.now) }
{
    integer_of(text) == Some(1999)
}

/// Reads the line of station and device.
#[tactic(auto, unfolding(crate::specs::Line::next, crate::specs::Head::names_line))]
pub(crate) fn names_of<A: Allocator + Copy>(
    alloc: A,
    left: &mut Left,
) -> Result<Names<A>, ReadFault>
    ensures { Is {Y = (List ℕ × List ℕ) × line_spec.Left} (λ x. ((x.station, x.device), left.new))
        (next spec.names_line left.old) result }
{
    let Line { number, fields } = left.next_line(alloc)?;
    if fields.len() != 3 {
        return Err(if fields.len() == 2 {
            ReadFault::Revision
        } else {
            ReadFault::Fields(number)
        });
    }
    if !is_revision(fields[2]) {
        return Err(ReadFault::Revision);
    }
    let station = text_of(alloc, &fields, 0)?;
    let device = text_of(alloc, &fields, 1)?;
    Ok(Names { station, device })
}

/// Reads the numbers of analogue and status channels.
#[tactic(auto, unfolding(crate::specs::Line::next, crate::specs::Head::counts_line))]
pub(crate) fn counts_of<A: Allocator>(alloc: A, left: &mut Left) -> Result<(u64, u64), ReadFault>
    ensures value { Is (λ x. (x, left.new)) (next spec.counts_line left.old) result }
    ensures bound { IfOk result (λ x. (x.0 < 1000000) × (x.1 < 1000000)) }
{
    let Line { number, fields } = left.next_line(alloc)?;
    if fields.len() != 3 {
        return Err(ReadFault::Fields(number));
    }
    let total = natural_of(number, &fields, 0, 999_999)?;
    let analog = count_of(number, &fields, 1, b'A')?;
    let status = count_of(number, &fields, 2, b'D')?;
    if total != analog + status || total == 0 {
        return Err(ReadFault::Counts(number));
    }
    Ok((analog, status))
}

/// Reads a rate whose last sample isn't below the one before.
#[tactic(auto, unfolding(crate::specs::Line::next, crate::specs::Head::rate_line))]
fn rate_of<A: Allocator>(alloc: A, left: &mut Left, before: u64) -> Result<Rate, ReadFault>
    ensures { Is (λ x. (x, left.new)) (next (spec.rate_line before) left.old) result }
{
    let Line { number, fields } = left.next_line(alloc)?;
    if fields.len() != 2 {
        return Err(ReadFault::Fields(number));
    }
    let samp = scale_of(number, &fields, 0)?;
    let endsamp = natural_of(number, &fields, 1, 9_999_999_999)?;
    if endsamp < before {
        return Err(ReadFault::Counts(number));
    }
    Ok(Rate { samp, endsamp })
}

/// Reads `count` rates.
pub(crate) fn rates_of<A: Allocator + Copy>(
    alloc: A,
    left: &mut Left,
    count: u64,
) -> Result<Vec<Rate, A>, ReadFault>
    ensures { Is (λ v. (v.items, left.new)) (each spec.next_rate count [] left.old) result }
{
    let mut list = Vec::new(alloc);
    let mut before = 0;
    for i in 0..count {
        let rate = rate_of(alloc, left, before)?;
        before = rate.endsamp;
        list.push(rate)?;
    }
    Ok(list)
}

/// Reads an instant.
#[tactic(auto, unfolding(crate::specs::Line::next, crate::specs::Head::instant_line))]
pub(crate) fn instant_of<A: Allocator>(alloc: A, left: &mut Left) -> Result<i64, ReadFault>
    ensures { Is (λ x. (x, left.new)) (next spec.instant_line left.old) result }
{
    let Line { number, fields } = left.next_line(alloc)?;
    if fields.len() != 2 {
        return Err(ReadFault::Fields(number));
    }
    let day = date_of(number, &fields)?;
    let micros = time_of(number, &fields)?;
    Ok(instant_at(day, micros))
}

/// Reads the data type.
#[tactic(auto, unfolding(crate::specs::Line::next))]
pub(crate) fn kind_in<A: Allocator>(alloc: A, left: &mut Left) -> Result<Kind, ReadFault>
    ensures { Is (λ x. (x, left.new)) (next spec.kind_line left.old) result }
{
    let Line { number, fields } = left.next_line(alloc)?;
    if fields.len() != 1 {
        return Err(ReadFault::Fields(number));
    }
    kind_of(&fields)
}

/// Reads the time multiplier.
#[tactic(auto, unfolding(crate::specs::Line::next))]
pub(crate) fn timemult_of<A: Allocator>(alloc: A, left: &mut Left) -> Result<Decimal, ReadFault>
    ensures { Is (λ x. (x, left.new)) (next spec.timemult_line left.old) result }
{
    let Line { number, fields } = left.next_line(alloc)?;
    if fields.len() != 1 {
        return Err(ReadFault::Fields(number));
    }
    scale_of(number, &fields, 0)
}

/// Reads the line frequency; an empty field is 0.
#[tactic(auto, unfolding(crate::specs::Line::next))]
pub(crate) fn frequency_of<A: Allocator>(alloc: A, left: &mut Left) -> Result<Decimal, ReadFault>
    ensures { Is (λ x. (x, left.new)) (next spec.frequency_line left.old) result }
{
    let Line { number, fields } = left.next_line(alloc)?;
    if fields.len() != 1 {
        return Err(ReadFault::Fields(number));
    }
    free_scale_of(number, &fields, 0)
}

/// Reads the number of rates.
#[tactic(auto, unfolding(crate::specs::Line::next))]
pub(crate) fn nrates_of<A: Allocator>(alloc: A, left: &mut Left) -> Result<u64, ReadFault>
    ensures value { Is (λ x. (x, left.new)) (next spec.nrates_line left.old) result }
    ensures bound { IfOk result (λ n. n ≤ 999) }
{
    let Line { number, fields } = left.next_line(alloc)?;
    if fields.len() != 1 {
        return Err(ReadFault::Fields(number));
    }
    let nrates = natural_of(number, &fields, 0, 999)?;
    Ok(nrates)
}
