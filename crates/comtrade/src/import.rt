//! `comtrade import`: files as relays write them become a pair of 1999.

use crate::content::{NO_ENCODING, encoding_of};
use crate::load::{import_refusal, put_notes, read_inputs};
use crate::write::{is_name, write_named};
use crate::{out_of_memory, print_bytes, refuse, say};
use comtrade_diagnostics::{Choices, Imported, Key, Order, Refusal, import, import_single};
use comtrade_io::{Importing, put_quoted};
use comtrade_values::put;
use std::alloc::{AllocError, Global};
use std::rt::Files;

/// Choices that an option named, or the value that it does not have.
enum Parsed<'a, T> {
    Chosen(T),
    Unknown(&'a str),
}

/// The order of month and day that `--dates` names.
fn order_of(dates: Option<&str>) -> Parsed<'_, Option<Order>> {
    match dates {
        None => Parsed::Chosen(None),
        Some("mdy") => Parsed::Chosen(Some(Order::MonthFirst)),
        Some("dmy") => Parsed::Chosen(Some(Order::DayFirst)),
        Some(other) => Parsed::Unknown(other),
    }
}

/// The repairs that `--refuse` names.
fn keys_of<'a, R: AllocGlobal>(
    rt: &R,
    names: &[&'a str],
) -> Result<Parsed<'a, Vec<Key>>, AllocError> {
    let mut keys = Vec::new(rt.alloc());
    for name in names.iter().copied() {
        match Key::named(name) {
            Some(key) => keys.push(key)?,
            None => return Ok(Parsed::Unknown(name)),
        }
    }
    Ok(Parsed::Chosen(keys))
}

/// Why a value of an option is refused: a usage error.
fn value_refusal(
    alloc: Global,
    value: &str,
    option: &str,
    expected: &str,
) -> Result<Vec<u8>, AllocError> {
    let mut said = Vec::new(alloc);
    put(&mut said, "error: invalid value ")?;
    put_quoted(&mut said, value.as_bytes())?;
    for text in [" for '", option, "'\n  ", expected] {
        put(&mut said, text)?;
    }
    put(&mut said, "\n\nFor more information, try '--help'.\n")?;
    Ok(said)
}

/// The first repair that the user refuses.
fn refused_in(imported: &Imported, refused: &[Key]) -> Option<Key> {
    for note in imported.notes.iter() {
        if refused.contains(&note.key()) {
            return Some(note.key());
        }
    }
    None
}

/// Writes the pair, and prints the repairs.
fn write<R: Files + Print + Eprint + AllocGlobal>(
    rt: &R,
    imported: &Imported,
    refused: &[Key],
    name: &str,
) -> u8 {
    if let Some(key) = refused_in(imported, refused) {
        let (name, words) = (key.name(), key.words());
        let _ = eprintln!(rt;
            "comtrade: nothing was written, because this repair is refused: {name}: {words}"
        );
        return 1;
    }
    let mut lines = Vec::new(rt.alloc());
    if put_notes(&mut lines, &imported.notes).is_err() {
        return out_of_memory(rt);
    }
    let status = write_named(rt, name, &imported.cfg, &imported.dat);
    if status != 0 {
        return status;
    }
    print_bytes(rt, &lines)
}

/// What to do about a repair without a note.
const REPORT: &str = "this is a defect of comtrade: please report it, with the files";

/// Imports with choices that were parsed.
fn import_with<R: Files + Input + Print + Eprint + AllocGlobal + Clone + Drop>(
    rt: &R,
    made: &Importing<'_>,
    choices: Choices,
    refused: &[Key],
) -> u8 {
    if !is_name(rt, made.name) {
        return 2;
    }
    let Some(inputs) = read_inputs(rt, made.names) else {
        return 1;
    };
    let done = if inputs.is_single() {
        import_single(rt.alloc(), &inputs.cfg, choices)
    } else {
        import(rt.alloc(), &inputs.cfg, &inputs.dat, choices)
    };
    match done {
        Ok(imported) => write(rt, &imported, refused, made.name),
        Err(Refusal::Silent(silent)) => {
            let _ = eprintln!(rt; "comtrade: nothing was written: {silent}; {REPORT}");
            1
        }
        Err(fault) => refuse(rt, 1, import_refusal(rt.alloc(), made.names.file, fault)),
    }
}

/// Imports with the repairs that `--refuse` names.
fn import_dated<R: Files + Input + Print + Eprint + AllocGlobal + Clone + Drop>(
    rt: &R,
    made: &Importing<'_>,
    choices: Choices,
) -> u8 {
    match keys_of(rt, &made.refused) {
        Ok(Parsed::Chosen(refused)) => import_with(rt, made, choices, &refused),
        Ok(Parsed::Unknown(value)) => {
            let expected = "no repair has this key; the manual lists the keys";
            let refusal = value_refusal(rt.alloc(), value, "--refuse <KEY>", expected);
            refuse(rt, 2, refusal)
        }
        Err(_) => out_of_memory(rt),
    }
}

/// Imports texts in the encoding that `--encoding` names.
fn import_spelled<R: Files + Input + Print + Eprint + AllocGlobal + Clone + Drop>(
    rt: &R,
    made: &Importing<'_>,
    dates: Option<Order>,
) -> u8 {
    let encoding = match made.encoding {
        None => None,
        Some(name) => match encoding_of(Some(name)) {
            Some(encoding) => Some(encoding),
            None => {
                say(rt, NO_ENCODING.as_bytes());
                return 1;
            }
        },
    };
    let choices = Choices {
        dates,
        encoding,
        ..Choices::default()
    };
    import_dated(rt, made, choices)
}

/// Does what `comtrade import` asks for.
pub(crate) fn run_import<R: Files + Input + Print + Eprint + AllocGlobal + Clone + Drop>(
    rt: &R,
    made: &Importing<'_>,
) -> u8 {
    match order_of(made.dates) {
        Parsed::Chosen(dates) => import_spelled(rt, made, dates),
        Parsed::Unknown(value) => {
            let expected = "[possible values: mdy, dmy]";
            let refusal = value_refusal(rt.alloc(), value, "--dates <ORDER>", expected);
            refuse(rt, 2, refusal)
        }
    }
}
