//! Writes pairs of files that do not exist yet.

use crate::content::{Loaded, Origin, Reading, file_spelled};
use crate::load::{Inputs, pair_of, read_record};
use crate::part::put_part_fault;
use crate::{complain, message_on, note_size, out_of_memory, refuse, say};
use bumpalo::Bump;
use comtrade_diagnostics::{Pair, put_refusal};
use comtrade_format::{File as Record, WriteFault};
use comtrade_io::{Converted, ToolFault, fault_of, write_out};
use comtrade_read::written_of;
use comtrade_views::{PartFault, is_whole, part_of};
use std::alloc::{AllocError, Allocator, Global};
use std::fs;
use std::fs::File;
use std::io::Write;
use std::rt::Files;

/// Removes a file of a pair that could not be written whole, and prints that, or that it is left.
fn take_back<R: Files + Eprint + AllocGlobal>(rt: &R, name: &str) {
    let end = match fs::remove_file(rt, name) {
        Ok(()) => ToolFault::Removed,
        Err(_) => ToolFault::Left,
    };
    complain(rt, name, end);
}

/// Writes a file that does not exist yet. On an error it prints why, and removes what it began.
pub(crate) fn write_new<R: Files + Eprint + AllocGlobal>(rt: &R, name: &str, bytes: &[u8]) -> bool {
    let mut file = match File::create_new(rt, name) {
        Ok(file) => file,
        Err(error) => {
            complain(rt, name, fault_of(error.kind(), ToolFault::Output));
            return false;
        }
    };
    if let Err(fault) = write_out(&mut file, bytes) {
        complain(rt, name, fault);
        take_back(rt, name);
        return false;
    }
    true
}

/// Writes the files of this name with `.cfg` and `.dat`, or neither; what happens to each is
/// printed.
pub(crate) fn write_named<R: Files + Eprint + AllocGlobal>(
    rt: &R,
    name: &str,
    cfg: &[u8],
    dat: &[u8],
) -> u8 {
    let Ok(cfg_name) = format!(in rt.alloc(); "{name}.cfg") else {
        return out_of_memory(rt);
    };
    let Ok(dat_name) = format!(in rt.alloc(); "{name}.dat") else {
        return out_of_memory(rt);
    };
    if !write_new(rt, cfg_name.as_str(), cfg) {
        return 1;
    }
    if !write_new(rt, dat_name.as_str(), dat) {
        take_back(rt, cfg_name.as_str());
        return 1;
    }
    0
}

/// Why a file that a pair reads to cannot be written.
fn pair_refusal<A: Allocator>(
    alloc: Global,
    pair: Pair<'_>,
    file: &Record<A>,
    fault: WriteFault,
) -> Result<Vec<u8>, AllocError> {
    let mut said = Vec::new(alloc);
    put_refusal(alloc, &mut said, pair, file, fault)?;
    Ok(said)
}

/// Why a part of a record cannot be written.
fn part_refusal(alloc: Global, fault: PartFault<'_>) -> Result<Vec<u8>, AllocError> {
    let mut said = Vec::new(alloc);
    put_part_fault(&mut said, fault)?;
    Ok(said)
}

/// Writes a record under a name. What is written reads back to the record.
fn write_record<R: Files + Eprint + AllocGlobal>(rt: &R, name: &str, file: &Record) -> u8 {
    match written_of(rt.alloc(), file) {
        Ok(made) => write_named(rt, name, &made.cfg, &made.dat),
        Err(WriteFault::Memory) => out_of_memory(rt),
        Err(fault) => {
            let _ = eprintln!(rt; "comtrade: the part was not written: {fault}");
            1
        }
    }
}

/// Writes a part of a record with this data format.
fn write_part<R: Files + Eprint + AllocGlobal>(rt: &R, asked: Converted<'_>, file: &Record) -> u8 {
    match part_of(rt.alloc(), file, asked.part) {
        Ok(mut cut) => {
            cut.file.head.kind = asked.kind;
            write_record(rt, asked.name, &cut.file)
        }
        Err(fault) => refuse(rt, 1, part_refusal(rt.alloc(), fault)),
    }
}

/// The file of a pair; None if it cannot be read. The repairs or the error are printed.
fn file_of<R: Eprint + AllocGlobal, A: Allocator + Copy>(
    rt: &R,
    lists: A,
    asked: Converted<'_>,
    inputs: &Inputs,
) -> Option<Loaded<A>> {
    let mut said = Vec::new(lists);
    match file_spelled(lists, inputs, Reading::to_write(asked.part), &mut said) {
        Ok(found) => {
            say(rt, &said);
            found
        }
        Err(_) => {
            out_of_memory(rt);
            None
        }
    }
}

/// Converts a part of a pair.
fn convert_part<R: Files + Eprint + AllocGlobal>(
    rt: &R,
    asked: Converted<'_>,
    inputs: &Inputs,
) -> u8 {
    match file_of(rt, rt.alloc(), asked, inputs) {
        Some(loaded) => write_part(rt, asked, &loaded.file),
        None => 1,
    }
}

/// Writes a file of a pair with another data format.
fn write_whole<R: Files + Eprint + AllocGlobal, A: Allocator + Copy>(
    rt: &R,
    lists: A,
    asked: Converted<'_>,
    inputs: &Inputs,
    loaded: Loaded<A>,
) -> u8 {
    let Loaded {
        mut file,
        origin,
        ..
    } = loaded;
    file.head.kind = asked.kind;
    match written_of(lists, &file) {
        Ok(made) => write_named(rt, asked.name, &made.cfg, &made.dat),
        Err(WriteFault::Memory) => out_of_memory(rt),
        Err(fault) if origin == Origin::Literal => {
            let refusal = pair_refusal(rt.alloc(), pair_of(inputs), &file, fault);
            refuse(rt, 1, refusal)
        }
        Err(fault) => {
            let _ = eprintln!(rt; "comtrade: nothing was written: {fault}");
            1
        }
    }
}

/// Converts a whole pair.
fn convert_whole<R: Files + Eprint + AllocGlobal>(
    rt: &R,
    asked: Converted<'_>,
    inputs: &Inputs,
) -> u8 {
    let lists = Bump::new(rt.alloc()); // the rows and both texts are released in one step
    match file_of(rt, &lists, asked, inputs) {
        Some(loaded) => write_whole(rt, &lists, asked, inputs, loaded),
        None => 1,
    }
}

/// The name without .cfg or .dat at its end, in upper or lower case.
fn without_ending(name: &str) -> Option<&str> {
    let at = name.len().checked_sub(4)?;
    let ending = name.get(at..)?;
    if ending.eq_ignore_ascii_case(".cfg") || ending.eq_ignore_ascii_case(".dat") {
        name.get(..at)
    } else {
        None
    }
}

/// Whether files can have this name with .cfg and .dat; if not, it prints why.
pub(crate) fn is_name<R: Eprint + AllocGlobal>(rt: &R, name: &str) -> bool {
    if name.is_empty() || name.ends_with('/') {
        let _ = eprintln!(rt; "error: the name of the new pair is empty");
        return false;
    }
    let Some(stem) = without_ending(name) else {
        return true;
    };
    let words = "error: give the name of the new pair without .cfg or .dat: ";
    refuse(rt, 2, message_on(rt.alloc(), words, stem.as_bytes(), "\n"));
    false
}

pub(crate) fn run_convert<R: Files + Input + Eprint + AllocGlobal + Clone + Drop>(
    rt: &R,
    is_watched: bool,
    asked: Converted<'_>,
) -> u8 {
    if !is_name(rt, asked.name) {
        return 2;
    }
    let Some(inputs) = read_record(rt, asked.names, asked.part.strict) else {
        return 1;
    };
    note_size(rt, is_watched, &inputs);
    if is_whole(asked.part) && asked.part.encoding.is_none() {
        convert_whole(rt, asked, &inputs)
    } else {
        convert_part(rt, asked, &inputs)
    }
}
