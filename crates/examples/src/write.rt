//! Builds a pair of COMTRADE files, and prints or writes it. An example of a program over
//! `comtrade_format`. The record is 40 ms long, with 1,000 samples a second: a current of 50 Hz,
//! and a breaker that opens after 30 ms.

mod record;
mod texts;

use crate::write::record::record;
use crate::write::texts::{Texts, texts_of};
use anyhow::{Context, Result};
use std::alloc::Global;
use std::io::Write;
use std::rt::Files;
use std::{fs, io};

/// Writes one of the two files. An existing file is replaced.
fn write_file<R: Files + AllocGlobal>(
    rt: &R,
    name: &str,
    ending: &str,
    text: &[u8],
) -> io::Result<()> {
    let path = format!(in rt.alloc(); "{name}.{ending}")?;
    fs::write(rt, path.as_str(), text)
}

/// The two texts of the record.
fn record_texts(alloc: Global) -> Result<Texts> {
    let file = record(alloc)?;
    texts_of(alloc, &file).context("not written")
}

/// Writes NAME.cfg and NAME.dat.
pub fn write_named<R: Files + AllocGlobal>(rt: &R, name: &str) -> Result<()> {
    let texts = record_texts(rt.alloc())?;
    write_file(rt, name, "cfg", &texts.cfg)?;
    Ok(write_file(rt, name, "dat", &texts.dat)?)
}

/// Prints both files, one after the other.
pub fn print<R: Print + AllocGlobal>(rt: &R) -> Result<()> {
    let texts = record_texts(rt.alloc())?;
    let mut out = io::writer(rt);
    out.write_all(&texts.cfg)?;
    out.write_all(&texts.dat)?;
    Ok(out.flush()?)
}
