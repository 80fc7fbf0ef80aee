//! Cuts the records out of what a replay printed.

use crate::write::write_named;
use crate::{complain, message_on, read_named, refuse};
use comtrade_io::{Next, Printed, ToolFault, fault_of, next_record};
use std::fs;
use std::rt::Files;

/// Writes the pair of a printed record, and prints the names of its files.
fn write_record<R: Files + Print + Eprint + AllocGlobal>(
    rt: &R,
    folder: &str,
    record: Printed<'_>,
) -> u8 {
    let number = record.number;
    let Ok(name) = format!(in rt.alloc(); "{folder}/rec{number}") else {
        return complain(rt, folder, ToolFault::Memory);
    };
    let status = write_named(rt, name.as_str(), record.cfg, record.dat);
    if status == 0 {
        let _ = println!(rt; "rec{number}.cfg rec{number}.dat");
    }
    status
}

/// What is printed before a line that no replay prints.
const FOREIGN: &str = "comtrade: standard input: \
not a line that dfr replay prints, or a truncated record: ";

/// What is printed before the error that ended a replay.
const ENDED: &str = "comtrade: standard input: the replay ended with: ";

/// Prints how many records were written before the error.
fn stop<R: Eprint>(rt: &R, written: usize) -> u8 {
    let _ = match written {
        0 => eprintln!(rt; "comtrade: no record was written"),
        1 => eprintln!(rt; "comtrade: 1 record was written before"),
        _ => eprintln!(rt; "comtrade: {written} records were written before"),
    };
    1
}

/// Cuts what a replay printed into its records, up to the first error.
fn extract_all<R: Files + Print + Eprint + AllocGlobal>(
    rt: &R,
    folder: &str,
    printed: &[u8],
) -> u8 {
    let mut left = printed;
    for written in 0..=printed.len() {
        match next_record(left) {
            Next::Record(record, rest) => {
                if write_record(rt, folder, record) != 0 {
                    return stop(rt, written);
                }
                left = rest;
            }
            Next::End => {
                if written == 0 {
                    let _ = eprintln!(rt; "comtrade: standard input has no record");
                }
                return u8::from(written == 0);
            }
            Next::Foreign(line) => {
                refuse(rt, 1, message_on(rt.alloc(), FOREIGN, line, "\n"));
                return stop(rt, written);
            }
            Next::Fault(line) => {
                refuse(rt, 1, message_on(rt.alloc(), ENDED, line, "\n"));
                return stop(rt, written);
            }
        }
    }
    0
}

pub(crate) fn run_extract<R: Files + Input + Print + Eprint + AllocGlobal>(
    rt: &R,
    folder: &str,
) -> u8 {
    if folder.is_empty() {
        let _ = eprintln!(rt; "error: the name of the folder is empty");
        return 2;
    }
    if let Err(error) = fs::create_dir_all(rt, folder) {
        return complain(rt, folder, fault_of(error.kind(), ToolFault::Output));
    }
    match read_named(rt, "-") {
        Ok(printed) => extract_all(rt, folder, &printed),
        Err(fault) => complain(rt, "standard input", fault),
    }
}
