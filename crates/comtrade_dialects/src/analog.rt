//! The lines of analogue channels.

ghost use Rattle.std.specs.Prelude.{◌<◌};

use crate::draft::{DeclaredRange, Range};
use crate::fault::{ImportFault, Why};
use crate::field::{LineFields, joint_of};
use crate::key::Key;
use crate::lines::{FieldRow, at, decimal_of, decimal_or, phase_of, text_of};
use crate::note::{Notes, Place};
use crate::range::range_of;
use comtrade_values::{Decimal, Items, integer_of};
use dfr_channels::{AnalogChannel, Side};
use std::alloc::Allocator;

/// The layout of a line; the fields after the texts may be shifted to the right.
#[derive(Clone, Copy)]
pub(crate) struct AnalogShape<'a> {
    pub parts: LineFields<'a>,
    pub line: u64,
    /// The line has ten fields, without ratio and side.
    is_short: bool,
}

/// Notes a channel number that differs from the channel's position.
pub(crate) fn tell_index<A: Allocator + Copy>(
    notes: &mut Notes<A>,
    line: u64,
    text: &[u8],
    wanted: u64,
) -> Result<(), ImportFault> {
    match integer_of(text) {
        Some(n) if n == i128::from(wanted) => Ok(()),
        None if !text.is_empty() => Err(at(line, Why::Number)),
        _ => {
            notes.tell_text(Key::IndexOrder, Place::Cfg(line), text)?;
            Ok(())
        }
    }
}

fn side_of<A: Allocator + Copy>(
    notes: &mut Notes<A>,
    shape: AnalogShape<'_>,
) -> Result<Side, ImportFault> {
    if shape.is_short {
        return Ok(Side::Primary);
    }
    match shape.parts.at(12) {
        [] => {
            notes.tell(Key::SideEmpty, Place::Cfg(shape.line), &[])?;
            Ok(Side::Primary)
        }
        [b'P' | b'p'] => Ok(Side::Primary),
        [b'S' | b's'] => Ok(Side::Secondary),
        _ => Err(at(shape.line, Why::Side)),
    }
}

/// A number that may be empty, which means 0 as in the exact reader.
fn free_of<A: Allocator + Copy>(
    notes: &mut Notes<A>,
    mark: u8,
    line: u64,
    text: &[u8],
) -> Result<Decimal, ImportFault> {
    match Decimal::new(0, 0) {
        Some(zero) if text.is_empty() => Ok(zero),
        _ => decimal_of(notes, mark, line, text),
    }
}

/// The ratio; an empty side of it is 1.
fn ratio_of<A: Allocator + Copy>(
    notes: &mut Notes<A>,
    mark: u8,
    shape: AnalogShape<'_>,
    index: usize,
) -> Result<Decimal, ImportFault> {
    if shape.is_short {
        return match Decimal::new(1, 0) {
            Some(one) => Ok(one),
            None => Err(at(shape.line, Why::Number)),
        };
    }
    decimal_or(
        notes,
        mark,
        shape.line,
        shape.parts.at(index),
        ("ratio: 1", 1),
    )
}

fn unit_of<A: Allocator + Copy>(
    notes: &mut Notes<A>,
    shape: AnalogShape<'_>,
) -> Result<Items<u8, A>, ImportFault> {
    let unit = text_of(notes, shape.line, shape.parts.at(4), 32, None)?;
    if notes.keeps_texts() || !unit.items().is_empty() {
        return Ok(unit);
    }
    notes.tell(Key::UnitEmpty, Place::Cfg(shape.line), &[])?;
    Ok(Items::of(Vec::from_slice(notes.allocator(), b"NONE")?))
}

/// The numbers and the side in a channel's line.
#[derive(Clone, Copy)]
struct Numbers {
    a: Decimal,
    b: Decimal,
    skew: Decimal,
    min: i32,
    max: i32,
    range: Range,
    primary: Decimal,
    secondary: Decimal,
    side: Side,
}

fn numbers_of<A: Allocator + Copy>(
    notes: &mut Notes<A>,
    mark: u8,
    shape: AnalogShape<'_>,
) -> Result<Numbers, ImportFault> {
    let (parts, line) = (shape.parts, shape.line);
    if parts.at(5).is_empty() {
        return Err(at(line, Why::NoFactor));
    }
    let a = decimal_of(notes, mark, line, parts.at(5))?;
    if a.units() == 0 {
        notes.tell(Key::AZero, Place::Cfg(line), &[])?;
    }
    let b = free_of(notes, mark, line, parts.at(6))?;
    let skew = free_of(notes, mark, line, parts.at(7))?;
    let (min, max, range) = range_of(notes, mark, shape)?;
    let primary = ratio_of(notes, mark, shape, 10)?;
    let secondary = ratio_of(notes, mark, shape, 11)?;
    let side = side_of(notes, shape)?;
    Ok(Numbers {
        a,
        b,
        skew,
        min,
        max,
        range,
        primary,
        secondary,
        side,
    })
}

/// The channel in a line with this layout.
fn channel_of<A: Allocator + Copy>(
    notes: &mut Notes<A>,
    shape: AnalogShape<'_>,
    number: u64,
    numbers: Numbers,
) -> Result<AnalogChannel<A>, ImportFault> {
    let (parts, line) = (shape.parts, shape.line);
    let id = text_of(notes, line, parts.at(1), 64, Some(number))?;
    let phase = phase_of(notes, line, parts.at(2))?;
    let component = text_of(notes, line, parts.at(3), 64, None)?;
    let unit = unit_of(notes, shape)?;
    Ok(AnalogChannel {
        id,
        phase,
        component,
        unit,
        a: numbers.a,
        b: numbers.b,
        skew: numbers.skew,
        min: numbers.min,
        max: numbers.max,
        primary: numbers.primary,
        secondary: numbers.secondary,
        side: numbers.side,
    })
}

/// Whether all fields of this range are numbers or empty.
fn are_numbers(parts: &LineFields<'_>, from: usize, to: usize) -> bool {
    for i in from..to {
        let field = parts.at(i);
        if !field.is_empty() && Decimal::read(field).is_none() {
            return false;
        }
    }
    true
}

/// Whether the extra comma can belong to the text of this field: phase and unit stay valid, and the
/// part after the comma is not a number.
fn can_join(parts: &LineFields<'_>, joint: usize) -> bool
    requires { joint < 64 }
{
    let Some(joined) = parts.joined(joint) else {
        return false;
    };
    let unit = joined.at(4);
    joined.at(2).len() <= 2
        && !unit.is_empty()
        && Decimal::read(unit).is_none()
        && Decimal::read(parts.at(joint + 1)).is_none()
}

/// The fields of a line with one field too many, if the extra comma can only belong to the id or
/// the component.
fn told_apart<'a>(parts: &LineFields<'a>) -> Option<LineFields<'a>> {
    let has_side = matches!(parts.at(13), [b'P' | b'p' | b'S' | b's']);
    let can_be = parts.full == 14 && has_side && are_numbers(parts, 6, 13)
        || parts.full == 11 && are_numbers(parts, 6, 11);
    if !can_be {
        return None;
    }
    let joint = joint_of(parts, (1, can_join(parts, 1)), (3, can_join(parts, 3)))?;
    parts.joined(joint)
}

/// The fields of an analogue channel's line.
fn fields_of(row: FieldRow<'_>) -> Result<LineFields<'_>, ImportFault> {
    let parts = row.parts;
    if 10 <= parts.all && parts.full <= 13 && parts.full != 11 {
        return Ok(parts);
    }
    match told_apart(&parts) {
        Some(parts) => Ok(parts),
        None if parts.full == 14 => Err(at(row.number, Why::Commas)),
        None => Err(at(row.number, Why::AnalogFields)),
    }
}

/// The channel in a line, and its id as it is there; `place` is its number, and whether the file is
/// of 1991.
pub(crate) fn analog_of<'a, A: Allocator + Copy>(
    notes: &mut Notes<A>,
    mark: u8,
    row: FieldRow<'a>,
    place: (u64, bool),
) -> Result<(AnalogChannel<A>, DeclaredRange, &'a [u8]), ImportFault> {
    let (number, is_old) = place;
    let parts = fields_of(row)?;
    let is_short = parts.all == 10 || is_old && parts.full <= 10;
    if is_short && !notes.has(Key::SidesAbsent) {
        notes.tell(Key::SidesAbsent, Place::Cfg(row.number), &[])?;
    }
    let shape = AnalogShape {
        parts,
        line: row.number,
        is_short,
    };
    tell_index(notes, row.number, parts.at(0), number)?;
    let numbers = numbers_of(notes, mark, shape)?;
    let said = DeclaredRange {
        range: numbers.range,
        line: row.number,
    };
    let channel = channel_of(notes, shape, number, numbers)?;
    Ok((channel, said, parts.at(1)))
}
