//! The lines of status channels.

use crate::analog::tell_index;
use crate::fault::{ImportFault, Why};
use crate::field::{LineFields, joint_of};
use crate::key::Key;
use crate::lines::{FieldRow, at, phase_of, tell_empty, text_of};
use crate::note::{Notes, Place};
use comtrade_values::{bit_of, free_bit_of};
use dfr_channels::StatusChannel;
use std::alloc::Allocator;

/// The layout of a line.
#[derive(Clone, Copy)]
enum StatusShape {
    /// Number, id, phase, component, normal.
    Full,
    /// Number, id, phase, normal.
    NoComponent,
    /// Number, id, normal.
    Short,
}

/// The layout of a line whose last field that is not empty is the fourth.
fn shape_of_four(parts: LineFields<'_>) -> Result<StatusShape, Why> {
    if bit_of(parts.at(3)).is_none() || parts.all == 5 {
        return Ok(StatusShape::Full);
    }
    if parts.all == 4 {
        Ok(StatusShape::NoComponent)
    } else {
        Err(Why::Normal)
    }
}

fn shape_of(parts: LineFields<'_>) -> Result<StatusShape, Why> {
    if parts.full == 4 {
        return shape_of_four(parts);
    }
    if parts.full == 5 || parts.all == 5 {
        return Ok(StatusShape::Full);
    }
    if 5 < parts.full || parts.all < 3 {
        return Err(Why::StatusFields);
    }
    let third = parts.at(2);
    if parts.all == 3 || bit_of(third).is_some() {
        return Ok(StatusShape::Short);
    }
    if 5 < parts.all {
        Ok(StatusShape::Full)
    } else {
        Err(Why::StatusFields)
    }
}

/// The fields of a line with one field too many, if the extra comma can only belong to the id or
/// the component.
fn told_apart<'a>(parts: &LineFields<'a>) -> Option<LineFields<'a>> {
    if parts.full == 4 && parts.all == 4 && bit_of(parts.at(3)).is_some() && 2 < parts.at(2).len() {
        return parts.joined(1);
    }
    if parts.full != 6 || bit_of(parts.at(5)).is_none() {
        return None;
    }
    let in_id = parts.joined(1)?.at(2).len() <= 2;
    let in_component = parts.joined(3)?.at(2).len() <= 2;
    let joint = joint_of(parts, (1, in_id), (3, in_component))?;
    parts.joined(joint)
}

/// The phase, the component and the normal state in a line. Notes a layout without some of them.
fn rest_of<'a, A: Allocator + Copy>(
    notes: &mut Notes<A>,
    parts: LineFields<'a>,
    line: u64,
    is_old: bool,
) -> Result<(&'a [u8], &'a [u8], &'a [u8]), ImportFault> {
    let shape = match shape_of(parts) {
        Ok(shape) => shape,
        Err(why) => return Err(at(line, why)),
    };
    match shape {
        StatusShape::Full => {
            if parts.all < 5 {
                tell_empty(notes, line, "normal state: 0")?;
            }
            Ok((parts.at(2), parts.at(3), parts.at(4)))
        }
        StatusShape::NoComponent => {
            notes.tell(Key::Status4Fields, Place::Cfg(line), &[])?;
            Ok((parts.at(2), &[], parts.at(3)))
        }
        StatusShape::Short => {
            if !is_old {
                notes.tell(Key::Status3Fields, Place::Cfg(line), &[])?;
            }
            Ok((&[], &[], parts.at(2)))
        }
    }
}

/// The channel in a line, and its id as it is there.
pub(crate) fn status_of<'a, A: Allocator + Copy>(
    notes: &mut Notes<A>,
    row: FieldRow<'a>,
    number: u64,
    is_old: bool,
) -> Result<(StatusChannel<A>, &'a [u8]), ImportFault> {
    let line = row.number;
    let parts = told_apart(&row.parts).unwrap_or(row.parts); // (most lines have no comma too many)
    let (phase, component, normal) = rest_of(notes, parts, line, is_old)?;
    tell_index(notes, line, parts.at(0), number)?;
    let id = text_of(notes, line, parts.at(1), 64, Some(number))?;
    let phase = phase_of(notes, line, phase)?;
    let component = text_of(notes, line, component, 64, None)?;
    let Some(normal) = free_bit_of(normal) else {
        return Err(at(line, Why::Bit));
    };
    let channel = StatusChannel {
        id,
        phase,
        component,
        normal,
    };
    Ok((channel, parts.at(1)))
}
