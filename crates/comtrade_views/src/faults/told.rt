//! The faults of many records, as lines, as blocks, or as JSON.

use crate::faults::block::put_block;
use crate::faults::members::{AllMembers, RecordFaults, UnreadMembers};
use crate::faults::table::{fault_table, none_table};
use crate::html::{put_html, put_html_table};
use crate::json::{put_json, text_of};
use crate::table::put_table;
use comtrade_io::ToolFault;
use comtrade_values::{put, put_count, put_number};
use std::alloc::{AllocError, Global};

/// The faults of records, and why others cannot be read.
#[derive(Drop)]
pub struct Faults {
    members: AllMembers,
}

impl Faults {
    /// So far there are none.
    pub fn new(alloc: Global) -> Faults {
        Faults {
            members: AllMembers {
                records: Vec::new(alloc),
                unread: Vec::new(alloc),
            },
        }
    }

    /// Adds a record that was read.
    pub fn add(&mut self, record: RecordFaults) -> Result<(), AllocError> {
        self.members.records.push(record)?;
        Ok(())
    }

    /// Adds a record that cannot be read, with the lines that say why.
    pub fn add_unread(&mut self, alloc: Global, name: &[u8], why: &[u8]) -> Result<(), AllocError> {
        self.members.unread.push(UnreadMembers {
            record: text_of(alloc, name)?,
            fault: text_of(alloc, why.trim_ascii_end())?,
        })?;
        Ok(())
    }

    /// Sorts the records by their triggers.
    pub fn sort(&mut self) -> Result<(), AllocError> {
        self.members.records.sort_by(|one, other| one.trigger.as_str().cmp(other.trigger.as_str()))
    }

    /// Whether each record could be read.
    pub fn is_sound(&self) -> bool {
        self.members.unread.is_empty()
    }
}

/// How many of these records have a fault.
fn with_fault(records: &[RecordFaults]) -> usize {
    let found = records.iter().filter(|record| !record.faults.is_empty());
    found.count()
}

/// How many of these records have no fault.
fn without_fault(records: &[RecordFaults]) -> usize {
    let found = records.iter().filter(|record| record.faults.is_empty());
    found.count()
}

/// `1 record with a fault, 19 without, 0 with errors`
fn put_counts(out: &mut Vec<u8>, faults: &Faults) -> Result<(), AllocError> {
    let records = faults.members.records.as_slice();
    let with = with_fault(records) as u64;
    put_count(
        out,
        with,
        " record with a fault, ",
        " records with faults, ",
    )?;
    put_number(out, without_fault(records) as u64)?;
    put(out, " without, ")?;
    put_number(out, faults.members.unread.len() as u64)?;
    put(out, " with errors\n")
}

/// The records without a fault, and how many there are.
fn put_rest(alloc: Global, out: &mut Vec<u8>, faults: &Faults) -> Result<(), AllocError> {
    let records = faults.members.records.as_slice();
    if without_fault(records) != 0 {
        put_table(out, &none_table(alloc, records)?)?;
    }
    put_counts(out, faults)
}

/// A line for each fault, then the records without one.
pub fn put_fault_lines(alloc: Global, out: &mut Vec<u8>, faults: &Faults) -> Result<(), ToolFault> {
    let records = faults.members.records.as_slice();
    if with_fault(records) != 0 {
        put_table(out, &fault_table(alloc, records)?)?;
        put(out, "\n")?;
    }
    put_rest(alloc, out, faults)?;
    Ok(())
}

/// A block for each fault, then the records without one.
pub fn put_fault_blocks(
    alloc: Global,
    out: &mut Vec<u8>,
    faults: &Faults,
) -> Result<(), ToolFault> {
    for record in faults.members.records.iter() {
        for (i, fault) in record.faults.iter().enumerate() {
            put_block(alloc, out, record, fault, i)?;
            put(out, "\n")?;
        }
    }
    put_rest(alloc, out, faults)?;
    Ok(())
}

/// A block for each fault in HTML.
fn put_blocks_html(
    alloc: Global,
    out: &mut Vec<u8>,
    record: &RecordFaults,
) -> Result<(), AllocError> {
    for (i, fault) in record.faults.iter().enumerate() {
        let mut block = Vec::new(alloc);
        put_block(alloc, &mut block, record, fault, i)?;
        put(out, "<pre>")?;
        put_html(out, &block)?;
        put(out, "</pre>\n")?;
    }
    Ok(())
}

/// The same in HTML: a line for each fault, then the records without one, then a block for each
/// fault.
pub fn put_faults_html(alloc: Global, out: &mut Vec<u8>, faults: &Faults) -> Result<(), ToolFault> {
    let records = faults.members.records.as_slice();
    if with_fault(records) != 0 {
        put_html_table(out, &fault_table(alloc, records)?)?;
    }
    if without_fault(records) != 0 {
        put_html_table(out, &none_table(alloc, records)?)?;
    }
    put(out, "<p>")?;
    put_counts(out, faults)?;
    put(out, "</p>\n")?;
    for record in records {
        put_blocks_html(alloc, out, record)?;
    }
    Ok(())
}

/// The same as JSON.
pub fn put_faults_json(alloc: Global, out: &mut Vec<u8>, faults: &Faults) -> Result<(), ToolFault> {
    put_json(alloc, out, &faults.members)?;
    Ok(())
}
