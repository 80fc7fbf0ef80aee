//! Reads the channels of set-up lines.

ghost use Rattle.std.specs.Prelude.{◌≡◌, length, IfOk};
ghost use Rattle.dfr_script.specs.Faults.{Is};
ghost use Rattle.dfr_script.specs.Channels as spec;
ghost use Rattle.comtrade_values.specs.Lines.{texts, field};

use crate::fault::{LineFault, LineRefusal};
use crate::fields::{free_bit_at, free_scale_at, scale_at, side_at, small_at, text_at};
use comtrade_values::{Decimal, fields_of};
use dfr_channels::{AnalogChannel, Side, StatusChannel};
use std::alloc::Allocator;

/// The numbers of an analogue channel's line, and its side.
struct Scaling {
    a: Decimal,
    b: Decimal,
    skew: Decimal,
    min: i32,
    max: i32,
    primary: Decimal,
    secondary: Decimal,
    side: Side,
}

/// Reads the numbers of an analogue channel. The contract describes the whole line, with its texts
/// as they are in their fields.
#[tactic(auto, unfolding(dfr_channels::specs::LineFields::analog_from))]
fn scaling_in(fields: &[&[u8]]) -> Result<Scaling, LineRefusal>
    ensures says { Is (λ x. record {
      id = field (texts fields.now) 0;
      phase = field (texts fields.now) 1;
      component = field (texts fields.now) 2;
      unit = field (texts fields.now) 3;
      a = x.a;
      b = x.b;
      skew = x.skew;
      min = x.min;
      max = x.max;
      primary = x.primary;
      secondary = x.secondary;
      side = x.side;
    }) (spec.analog_fields (texts fields.now)) result }
    ensures many { IfOk result (λ _. length fields.now ≡ 12) }
{
    if fields.len() != 12 {
        return Err(LineRefusal::Fault(LineFault::Fields));
    }
    let a = scale_at(fields, 4)?;
    let b = free_scale_at(fields, 5)?;
    let skew = free_scale_at(fields, 6)?;
    let min = small_at(fields, 7)?;
    let max = small_at(fields, 8)?;
    let primary = free_scale_at(fields, 9)?;
    let secondary = free_scale_at(fields, 10)?;
    let side = side_at(fields, 11)?;
    Ok(Scaling {
        a,
        b,
        skew,
        min,
        max,
        primary,
        secondary,
        side,
    })
}

/// Reads an analogue channel. Its 12 fields are those of its line in a configuration file
/// (C37.111-1999, 5.3.3) without the channel number.
fn analog_in<A: Allocator + Copy>(
    alloc: A,
    fields: &[&[u8]],
) -> Result<AnalogChannel<A>, LineRefusal>
    ensures { Is (λ x. x) (spec.analog_fields (texts fields.now)) result }
{
    let Scaling {
        a,
        b,
        skew,
        min,
        max,
        primary,
        secondary,
        side,
    } = scaling_in(fields)?;
    let id = text_at(alloc, fields, 0)?;
    let phase = text_at(alloc, fields, 1)?;
    let component = text_at(alloc, fields, 2)?;
    let unit = text_at(alloc, fields, 3)?;
    Ok(AnalogChannel {
        id,
        phase,
        component,
        unit,
        a,
        b,
        skew,
        min,
        max,
        primary,
        secondary,
        side,
    })
}

/// Reads the analogue channel in the rest of a line.
pub(crate) fn analog_of<A: Allocator + Copy>(
    alloc: A,
    rest: &[u8],
) -> Result<AnalogChannel<A>, LineRefusal>
    ensures { Is (λ x. x) (spec.analog_line rest.now) result }
{
    let fields = fields_of(alloc, rest)?;
    analog_in(alloc, &fields)
}

/// Reads a status channel. Its 4 fields are those of its line in a configuration file
/// (C37.111-1999, 5.3.4) without the channel number.
#[tactic(auto, unfolding(dfr_channels::specs::LineFields::status_from))]
fn status_in<A: Allocator + Copy>(
    alloc: A,
    fields: &[&[u8]],
) -> Result<StatusChannel<A>, LineRefusal>
    ensures { Is (λ x. x) (spec.status_fields (texts fields.now)) result }
{
    if fields.len() != 4 {
        return Err(LineRefusal::Fault(LineFault::Fields));
    }
    let normal = free_bit_at(fields, 3)?;
    let id = text_at(alloc, fields, 0)?;
    let phase = text_at(alloc, fields, 1)?;
    let component = text_at(alloc, fields, 2)?;
    Ok(StatusChannel {
        id,
        phase,
        component,
        normal,
    })
}

/// Reads the status channel in the rest of a line.
pub(crate) fn status_of<A: Allocator + Copy>(
    alloc: A,
    rest: &[u8],
) -> Result<StatusChannel<A>, LineRefusal>
    ensures { Is (λ x. x) (spec.status_line rest.now) result }
{
    let fields = fields_of(alloc, rest)?;
    status_in(alloc, &fields)
}
