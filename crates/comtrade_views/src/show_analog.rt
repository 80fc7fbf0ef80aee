//! The table of analogue channels, with their extremes.

ghost use Rattle.std.specs.Prelude.{◌≡◌, ◌+◌, ◌++◌, length, IfOk, OnOk, decimal};
ghost use Rattle.comtrade_analysis.specs.Surveys.{AreSurveys};
ghost use Rattle.comtrade_io.specs.Safe.{safe};
ghost use Rattle.comtrade_views.specs.Texts.{cell};

use crate::number::{put_decimal, put_ordinal, scale_of, value_of};
use crate::show::{Clock, put_row_time};
use crate::table::{end_cell, end_row, put_cell, put_table, table_of};
use comtrade_analysis::{Extremes, Factors, Survey, surveys_of};
use comtrade_format::File;
use comtrade_io::put_safe;
use comtrade_values::{Memory, put, put_count, put_exact, put_number};
use dfr_channels::{AnalogChannel, Side};
use std::alloc::{AllocError, Allocator};

/// A text from the file.
fn put_text_cell<A: Allocator>(table: &mut Vec<u8, A>, text: &[u8]) -> Result<(), AllocError>
    ensures { OnOk result (table.new.items ≡ table.old.items ++ cell (safe text.now)) }
{
    put_safe(table, text)?;
    end_cell(table)
}

/// Number from 1, id, phase and component of the channel at this index.
pub(crate) fn put_names<A: Allocator>(
    table: &mut Vec<u8, A>,
    place: usize,
    id: &[u8],
    phase: &[u8],
    component: &[u8],
) -> Result<(), AllocError>
    ensures { OnOk result (table.new.items ≡ table.old.items ++ cell (decimal (place + 1))
        ++ cell (safe id.now) ++ cell (safe phase.now) ++ cell (safe component.now)) }
{
    put_ordinal(table, "", place)?;
    end_cell(table)?;
    put_text_cell(table, id)?;
    put_text_cell(table, phase)?;
    put_text_cell(table, component)
}

/// Unit, a, b, range `-32767 to 32767`, ratio `110000:100` and side.
fn put_scale<A: Allocator>(
    table: &mut Vec<u8, A>,
    channel: &AnalogChannel<A>,
) -> Result<(), AllocError> {
    put_text_cell(table, channel.unit.items())?;
    for number in [channel.a, channel.b] {
        put_decimal(table, number)?;
        end_cell(table)?;
    }
    put_number(table, channel.min as i64)?;
    put(table, " to ")?;
    put_number(table, channel.max as i64)?;
    end_cell(table)?;
    put_decimal(table, channel.primary)?;
    put(table, ":")?;
    put_decimal(table, channel.secondary)?;
    end_cell(table)?;
    put_cell(
        table,
        match channel.side {
            Side::Primary => "primary",
            Side::Secondary => "secondary",
        },
    )
}

/// A channel's least and greatest value, and when they occurred.
fn put_extremes<A: Allocator>(
    table: &mut Vec<u8, A>,
    clock: Clock<'_>,
    channel: &AnalogChannel<A>,
    extremes: Option<Extremes>,
) -> Result<(), AllocError> {
    let Some(extremes) = extremes else {
        return put(table, "\x1F\x1F\x1F\x1F");
    };
    let extremes = extremes.by_value(&Factors::of(channel));
    for extreme in [extremes.least, extremes.greatest] {
        let value = value_of(scale_of(channel), extreme.sample);
        put_exact(table, value.to_six_digits())?;
        end_cell(table)?;
        put_row_time(table, clock, extreme.row)?;
        end_cell(table)?;
    }
    Ok(())
}

/// The row of the channel at this index, with the number of its missing readings.
fn put_row<A: Allocator>(
    table: &mut Vec<u8, A>,
    clock: Clock<'_>,
    (place, channel): (usize, &AnalogChannel<A>),
    survey: Survey,
) -> Result<(), AllocError> {
    let (id, phase) = (channel.id.items(), channel.phase.items());
    put_names(table, place, id, phase, channel.component.items())?;
    put_scale(table, channel)?;
    put_extremes(table, clock, channel, survey.extremes)?;
    put_number(table, survey.missing as u64)?;
    end_row(table)
}

/// What the rows hold of each analogue channel.
pub(crate) fn surveys_in<A: Allocator + Copy>(
    alloc: A,
    file: &File<A>,
) -> Result<Vec<Survey, A>, Memory>
    ensures count { IfOk result (λ surveys. length surveys.items ≡ length file.now.head.analog) }
    ensures each { IfOk result (λ surveys. AreSurveys file.now.rows (length file.now.rows) surveys.items) }
{
    surveys_of(alloc, file.rows.items(), file.head.analog.items().len())
}

/// The table of the analogue channels, of which the rows hold this, below a line of column names.
fn analog_table<A: Allocator + Copy>(
    alloc: A,
    file: &File<A>,
    clock: Clock<'_>,
    surveys: &[Survey],
) -> Result<Vec<u8, A>, AllocError> {
    let mut table = table_of(
        alloc,
        "n\x1Fid\x1Fphase\x1Fcomponent\x1Funit\x1Fa\x1Fb\x1Frange\x1Fratio\x1Fside\x1Fleast\x1Fat\x1Fgreatest\x1Fat\x1Fmissing\n",
    )?;
    for (i, channel) in file.head.analog.items().iter().enumerate() {
        if let Some(survey) = surveys.get(i) {
            put_row(&mut table, clock, (i, channel), *survey)?;
        }
    }
    Ok(table)
}

/// The analogue channels.
pub(crate) fn put_analog<A: Allocator + Copy>(
    out: &mut Vec<u8, A>,
    file: &File<A>,
    clock: Clock<'_>,
    surveys: &[Survey],
) -> Result<(), AllocError> {
    let count = file.head.analog.items().len() as u64;
    put(out, "\n")?;
    put_count(out, count, " analogue channel", " analogue channels")?;
    put(
        out,
        "; values are a*x + b, times are ms since the trigger\n",
    )?;
    let table = analog_table(*out.allocator(), file, clock, surveys)?;
    put_table(out, &table)
}
