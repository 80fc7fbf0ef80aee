//! A record in one line.

ghost use Rattle.std.specs.Prelude.{◌≡◌, Some, None, IfOk, IfSome, IsSome};

use crate::facts::{Facts, Greatest, facts_of};
use crate::html::{put_html, put_html_table};
use crate::instant::{put_instant, put_millis};
use crate::number::put_decimal;
use crate::table::{end_cell, end_row, put_number_cell, put_safe_cell, put_table, table_of};
use comtrade_format::File;
use comtrade_io::{ToolFault, put_safe};
use comtrade_values::{put, put_count, put_exact, put_number, put_with};
use std::alloc::{AllocError, Allocator, Global};

/// The columns of the table.
const NAMES: &str =
    "trigger\x1Fms\x1Fscans/s\x1Fchannels\x1Fchanged\x1Fgreatest current\x1Fstation\x1Fdevice\x1Frecord\x1F\n";

/// A record in one line, or why it has none.
#[derive(Debug, Drop)]
pub struct Summary<A: Allocator = Global> {
    /// The name of the pair.
    pub(crate) name: Vec<u8, A>,
    /// None for a pair that cannot be read.
    pub(crate) facts: Option<Facts<A>>,
    /// The line of the error of a pair that cannot be read.
    pub(crate) fault: Vec<u8, A>,
}

/// The line of a record that can be read.
pub fn summary_of<A: Allocator + Copy>(
    alloc: A,
    file: &File<A>,
    name: &[u8],
) -> Result<Summary<A>, ToolFault>
    ensures facts { IfOk result (λ summary. IsSome summary.facts) }
    ensures trigger { IfOk result (λ summary. IfSome summary.facts (λ facts. facts.trigger ≡ file.now.head.trigger)) }
    ensures name { IfOk result (λ summary. summary.name.items ≡ name.now) }
{
    Ok(Summary {
        name: Vec::from_slice(alloc, name)?,
        facts: Some(facts_of(alloc, file)?),
        fault: Vec::new(alloc),
    })
}

/// The line of a pair that cannot be read: the error.
pub fn fault_summary<A: Allocator + Copy>(
    alloc: A,
    fault: Vec<u8, A>,
    name: &[u8],
) -> Result<Summary<A>, ToolFault>
    ensures none { IfOk result (λ summary. summary.facts ≡ None) }
    ensures name { IfOk result (λ summary. summary.name.items ≡ name.now) }
    ensures fault { IfOk result (λ summary. summary.fault.items ≡ fault.items) }
{
    Ok(Summary {
        name: Vec::from_slice(alloc, name)?,
        facts: None,
        fault,
    })
}

/// The trigger of a record that can be read.
fn trigger_of<A: Allocator>(record: &Summary<A>) -> Option<i64> {
    match &record.facts {
        Some(facts) => Some(facts.trigger),
        None => None,
    }
}

/// Sorts the records by their triggers; those that cannot be read come last.
pub fn sort_summaries<A: Allocator + Copy>(
    records: &mut Vec<Summary<A>, A>,
) -> Result<(), ToolFault> {
    records.sort_by_key(|record| (record.facts.is_none(), trigger_of(record)))?;
    Ok(())
}

/// `IB -10648.5 A, of nominal 600`, or `IB -10.6485 kA, of nominal 600 A`
fn put_current<A: Allocator>(
    table: &mut Vec<u8, A>,
    current: &Greatest<A>,
) -> Result<(), AllocError> {
    put_safe(table, &current.id)?;
    put(table, " ")?;
    put_exact(table, current.value)?;
    put(table, " ")?;
    put_safe(table, &current.unit)?;
    put(table, ", of nominal ")?;
    put_decimal(table, current.nominal)?;
    put(table, if current.is_scaled { " A" } else { "" })
}

/// The cells of a record. Its rate is `-` where only stamps give the times of rows.
fn put_facts<A: Allocator>(table: &mut Vec<u8, A>, facts: &Facts<A>) -> Result<(), AllocError> {
    put_instant(table, facts.trigger as i128)?;
    end_cell(table)?;
    if let Some(length) = facts.length {
        put_millis(table, length)?;
    }
    end_cell(table)?;
    match facts.rate {
        Some(rate) => put_decimal(table, rate)?,
        None => put(table, "-")?,
    }
    end_cell(table)?;
    put_number(table, facts.analog as u64)?;
    put_with(table, "A ", facts.status as u64)?;
    put(table, "D\x1F")?;
    put_number_cell(table, facts.changed as u64)?;
    if let Some(current) = &facts.greatest {
        put_current(table, current)?;
    }
    end_cell(table)?;
    put_safe_cell(table, &facts.station)?;
    put_safe_cell(table, &facts.device)
}

/// The table of the records that can be read, below a line of column names.
fn summary_table<A: Allocator + Copy>(
    alloc: A,
    records: &[Summary<A>],
) -> Result<Vec<u8, A>, AllocError> {
    let mut table = table_of(alloc, NAMES)?;
    for record in records {
        if let Some(facts) = &record.facts {
            put_facts(&mut table, facts)?;
            put_safe_cell(&mut table, &record.name)?;
            end_row(&mut table)?;
        }
    }
    Ok(table)
}

/// The errors of records, then the number of records, of those with errors, and of those that were
/// not meant.
fn put_faults<A: Allocator>(
    out: &mut Vec<u8, A>,
    records: &[Summary<A>],
    others: u64,
) -> Result<(), AllocError> {
    for record in records {
        out.extend_from_slice(&record.fault)?;
    }
    put_count(out, records.len() as u64, " pair, ", " pairs, ")?;
    let faulty = records.iter().filter(|record| record.facts.is_none());
    put_number(out, faulty.count() as u64)?;
    put(out, " with errors")?;
    if others != 0 {
        put_with(out, ", ", others)?;
        put(out, " not shown")?;
    }
    put(out, "\n")
}

/// The table of records, then the errors, then how many there are, and how many others.
pub fn put_summaries<A: Allocator + Copy>(
    alloc: A,
    out: &mut Vec<u8, A>,
    records: &[Summary<A>],
    others: u64,
) -> Result<(), ToolFault> {
    put_table(out, &summary_table(alloc, records)?)?;
    put_faults(out, records, others)?;
    Ok(())
}

/// The table of records in HTML, then the errors, and how many there are.
pub fn put_summaries_html<A: Allocator + Copy>(
    alloc: A,
    out: &mut Vec<u8, A>,
    records: &[Summary<A>],
) -> Result<(), ToolFault> {
    put_html_table(out, &summary_table(alloc, records)?)?;
    let mut rest = Vec::new(alloc);
    put_faults(&mut rest, records, 0)?;
    put(out, "<pre>")?;
    put_html(out, &rest)?;
    put(out, "</pre>\n")?;
    Ok(())
}
