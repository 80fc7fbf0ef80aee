//! What is printed of one record.

use crate::find::{Pairing, pairing_of};
use crate::load::{Inputs, pair_of, read_inputs, record_of};
use crate::output::{named_file, put_out};
use crate::view::{Room, check, shown_file, verdict_json, view_file};
use crate::wanted::Wanted;
use crate::write::write_new;
use crate::{complain, note_size, say};
use bumpalo::Bump;
use comtrade_diagnostics::{Pair, put_single};
use comtrade_io::{Names, ToolFault};
use comtrade_read::read_cfg;
use std::alloc::{AllocError, Allocator, Global};
use std::io;
use std::io::Write;
use std::rt::Files;

/// Prints what is asked of a part of a record; false if the record has an error, or no such part,
/// which is put to `said`. What was repaired in a single file is printed first.
fn put_file<R: Eprint + AllocGlobal, A: Allocator + Copy, W: Write>(
    rt: &R,
    room: Room<A>,
    wanted: Wanted<'_>,
    inputs: &Inputs,
    w: &mut W,
    said: &mut Vec<u8, A>,
) -> Result<bool, ToolFault> {
    let Some((asked, loaded)) = shown_file(room, wanted, inputs, said)? else {
        return Ok(false);
    };
    if inputs.is_single() {
        say(rt, said);
        said.clear();
    }
    view_file(&asked, loaded.file, w, said)
}

/// The exit status of what was printed on standard output.
fn status_of<R: Eprint + AllocGlobal>(
    rt: &R,
    inputs: &Inputs,
    printed: Result<bool, ToolFault>,
) -> u8 {
    match printed {
        Ok(true) => 0,
        Ok(false) => {
            note_swapped(rt, pair_of(inputs));
            1
        }
        Err(fault) => complain(rt, "standard output", fault),
    }
}

/// Prints what is asked of a record, and why it is refused. The exit status.
fn put_view<R: Eprint + AllocGlobal, W: Write>(
    rt: &R,
    wanted: Wanted<'_>,
    inputs: &Inputs,
    w: &mut W,
) -> u8 {
    let lists = Bump::new(rt.alloc());
    let mut said = Vec::new(&lists);
    let room = Room {
        texts: rt.alloc(),
        lists: &lists,
    };
    let printed = put_file(rt, room, wanted, inputs, w, &mut said);
    say(rt, &said);
    status_of(rt, inputs, printed)
}

/// Prints what is asked of a record, or writes it to the file that is named.
fn print_view<R: Files + Print + Eprint + AllocGlobal>(
    rt: &R,
    wanted: Wanted<'_>,
    inputs: &Inputs,
    output: Option<&str>,
) -> u8 {
    let Some(name) = named_file(output) else {
        return put_view(rt, wanted, inputs, &mut io::writer(rt));
    };
    let mut out = Vec::new(rt.alloc());
    let status = put_view(rt, wanted, inputs, &mut out);
    if status == 0 && !write_new(rt, name, &out) {
        return 1;
    }
    status
}

/// Reads the record whose files have these names, and prints what is asked of it.
pub(crate) fn view_pair<R: Files + Input + Print + Eprint + AllocGlobal>(
    rt: &R,
    is_watched: bool,
    names: Pairing,
    wanted: Wanted<'_>,
    output: Option<&str>,
) -> u8 {
    let Some(inputs) = record_of(rt, names, wanted.part.strict) else {
        return 1;
    };
    note_size(rt, is_watched, &inputs);
    print_view(rt, wanted, &inputs, output)
}

/// Reads a record, and prints what is asked of it.
pub(crate) fn run_view<R: Files + Input + Print + Eprint + AllocGlobal + Clone + Drop>(
    rt: &R,
    is_watched: bool,
    names: Names<'_>,
    wanted: Wanted<'_>,
    output: Option<&str>,
) -> u8 {
    match pairing_of(rt, names) {
        Some(names) => view_pair(rt, is_watched, names, wanted, output),
        None => 1,
    }
}

/// Prints that the files are swapped, if the second one is the configuration file.
fn note_swapped<R: Eprint + AllocGlobal>(rt: &R, pair: Pair<'_>) {
    if read_cfg(rt.alloc(), pair.dat).is_ok() && read_cfg(rt.alloc(), pair.cfg).is_err() {
        let _ = eprintln!(rt;
            "comtrade: the files are swapped: the configuration file comes first"
        );
    }
}

/// That a single file is no pair, and whether `import` reads it, as text or as JSON.
fn single_verdict(alloc: Global, inputs: &Inputs, json: bool) -> Result<Vec<u8>, AllocError> {
    let mut text = Vec::new(alloc);
    put_single(alloc, &mut text, pair_of(inputs))?;
    if json {
        verdict_json(alloc, false, &text)
    } else {
        Ok(text)
    }
}

/// Puts the verdict on a record; whether it has no error.
pub(crate) fn put_verdict<R: AllocGlobal>(
    rt: &R,
    json: bool,
    inputs: &Inputs,
    out: &mut Vec<u8>,
) -> Result<bool, ToolFault> {
    if inputs.is_single() {
        out.extend_from_slice(&single_verdict(rt.alloc(), inputs, json)?)?;
        return Ok(false);
    }
    let lists = Bump::new(rt.alloc());
    let room = Room {
        texts: rt.alloc(),
        lists: &lists,
    };
    check(room, json, pair_of(inputs), out)
}

/// Reads a record, and prints the verdict on it. The verdict on a record with an error is written
/// to a file, too.
pub(crate) fn run_check<R: Files + Input + Print + Eprint + AllocGlobal + Clone + Drop>(
    rt: &R,
    is_watched: bool,
    names: Names<'_>,
    json: bool,
    output: Option<&str>,
) -> u8 {
    let Some(inputs) = read_inputs(rt, names) else {
        return 1;
    };
    note_size(rt, is_watched, &inputs);
    let mut out = Vec::new(rt.alloc());
    match put_verdict(rt, json, &inputs, &mut out) {
        Ok(is_sound) => {
            let status = put_out(rt, output, &out);
            if is_sound {
                return status;
            }
            if !inputs.is_single() {
                note_swapped(rt, pair_of(&inputs));
            }
            1
        }
        Err(fault) => complain(rt, "standard output", fault),
    }
}
