//! Reads the channel lines of a configuration file.

ghost use Rattle.std.specs.Prelude.{◌≡◌, [], length, IfOk};
ghost use Rattle.comtrade_values.specs.Lines.{texts, field};
ghost use Rattle.comtrade_read.specs.Line.{told, next, each};
ghost use Rattle.comtrade_read.specs.Head.{analog_line, status_line, next_analog, next_status};
ghost use Rattle.comtrade_read.specs.Inner.LineFaults.{Is};

use crate::fault::ReadFault;
use crate::fields::{free_bit_of, free_scale_of, scale_of, side_of, small_of, text_of, whole_of};
use crate::left::{Left, Line};
use comtrade_values::Decimal;
use dfr_channels::{AnalogChannel, Side, StatusChannel};
use std::alloc::Allocator;

/// The numbers in an analogue channel's line.
struct Scaling {
    a: Decimal,
    b: Decimal,
    skew: Decimal,
    min: i32,
    max: i32,
    primary: Decimal,
    secondary: Decimal,
    side: Side,
}

/// Reads the numbers of analogue channel n. The contract describes the whole line, with its texts
/// as they are in the fields.
#[tactic(auto, unfolding(crate::specs::Head::analog_line, crate::specs::Fields::scale, dfr_channels::specs::LineFields::analog_from))]
fn scaling_in(line: u64, n: u64, fields: &[&[u8]]) -> Result<Scaling, ReadFault>
    ensures says { Is (λ x. record {
      id = field (texts fields.now) 1;
      phase = field (texts fields.now) 2;
      component = field (texts fields.now) 3;
      unit = field (texts fields.now) 4;
      a = x.a;
      b = x.b;
      skew = x.skew;
      min = x.min;
      max = x.max;
      primary = x.primary;
      secondary = x.secondary;
      side = x.side;
    }) (told line (analog_line n (texts fields.now))) result }
    ensures many { IfOk result (λ _. length fields.now ≡ 13) }
{
    if fields.len() != 13 {
        return Err(ReadFault::Fields(line));
    }
    let number = whole_of(line, fields, 0)?;
    let a = scale_of(line, fields, 5)?;
    let b = free_scale_of(line, fields, 6)?;
    let skew = free_scale_of(line, fields, 7)?;
    let min = small_of(line, fields, 8)?;
    let max = small_of(line, fields, 9)?;
    let primary = free_scale_of(line, fields, 10)?;
    let secondary = free_scale_of(line, fields, 11)?;
    let side = side_of(line, fields, 12)?;
    if number != n as i128 {
        return Err(ReadFault::Counts(line));
    }
    Ok(Scaling {
        a,
        b,
        skew,
        min,
        max,
        primary,
        secondary,
        side,
    })
}

/// Reads analogue channel n from these fields.
fn analog_in<A: Allocator + Copy>(
    alloc: A,
    line: u64,
    n: u64,
    fields: &[&[u8]],
) -> Result<AnalogChannel<A>, ReadFault>
    ensures { Is (λ x. x) (told line (analog_line n (texts fields.now))) result }
{
    let Scaling {
        a,
        b,
        skew,
        min,
        max,
        primary,
        secondary,
        side,
    } = scaling_in(line, n, fields)?;
    let id = text_of(alloc, fields, 1)?;
    let phase = text_of(alloc, fields, 2)?;
    let component = text_of(alloc, fields, 3)?;
    let unit = text_of(alloc, fields, 4)?;
    Ok(AnalogChannel {
        id,
        phase,
        component,
        unit,
        a,
        b,
        skew,
        min,
        max,
        primary,
        secondary,
        side,
    })
}

/// Reads the line of analogue channel n, counted from 1.
#[tactic(auto, unfolding(crate::specs::Line::next))]
fn analog_of<A: Allocator + Copy>(
    alloc: A,
    left: &mut Left,
    n: u64,
) -> Result<AnalogChannel<A>, ReadFault>
    ensures { Is (λ x. (x, left.new)) (next (analog_line n) left.old) result }
{
    let Line { number, fields } = left.next_line(alloc)?;
    analog_in(alloc, number, n, &fields)
}

/// Reads the line of status channel n, counted from 1.
#[tactic(auto, unfolding(crate::specs::Line::next, crate::specs::Head::status_line, dfr_channels::specs::LineFields::status_from))]
fn status_of<A: Allocator + Copy>(
    alloc: A,
    left: &mut Left,
    n: u64,
) -> Result<StatusChannel<A>, ReadFault>
    ensures { Is (λ x. (x, left.new)) (next (status_line n) left.old) result }
{
    let Line {
        number: line,
        fields,
    } = left.next_line(alloc)?;
    if fields.len() != 5 {
        return Err(ReadFault::Fields(line));
    }
    let number = whole_of(line, &fields, 0)?;
    let normal = free_bit_of(line, &fields, 4)?;
    if number != n as i128 {
        return Err(ReadFault::Counts(line));
    }
    let id = text_of(alloc, &fields, 1)?;
    let phase = text_of(alloc, &fields, 2)?;
    let component = text_of(alloc, &fields, 3)?;
    Ok(StatusChannel {
        id,
        phase,
        component,
        normal,
    })
}

/// Reads `count` analogue channels.
pub(crate) fn analogs_of<A: Allocator + Copy>(
    alloc: A,
    left: &mut Left,
    count: u64,
) -> Result<Vec<AnalogChannel<A>, A>, ReadFault>
    ensures { Is (λ v. (v.items, left.new)) (each next_analog count [] left.old) result }
{
    let mut list = Vec::new(alloc);
    for i in 0..count {
        list.push(analog_of(alloc, left, i + 1)?)?;
    }
    Ok(list)
}

/// Reads `count` status channels.
pub(crate) fn statuses_of<A: Allocator + Copy>(
    alloc: A,
    left: &mut Left,
    count: u64,
) -> Result<Vec<StatusChannel<A>, A>, ReadFault>
    ensures { Is (λ v. (v.items, left.new)) (each next_status count [] left.old) result }
{
    let mut list = Vec::new(alloc);
    for i in 0..count {
        list.push(status_of(alloc, left, i + 1)?)?;
    }
    Ok(list)
}
