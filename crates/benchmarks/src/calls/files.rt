//! Writing and reading the files of one record.

use crate::amount::Amount;
use crate::calls::clock::{Least, now, since};
use crate::calls::station::recorder;
use crate::numbers::Numbers;
use anyhow::{Context, Result};
use comtrade_read::{ReadFault, read_cfg, read_dat};
use comtrade_write::{File, Head, Kind, cfg_bytes, dat_bytes, file_of};
use dfr_recorder::{Record, Recorder};
use std::alloc::Global;
use std::rt::Clock;

fn scan_one(alloc: Global, recorder: &mut Recorder, numbers: &mut Numbers) -> Result<()> {
    let scan = numbers.scan(alloc)?;
    recorder.scan(scan).ok().context("a lawful scan")?;
    Ok(())
}

/// A record from its trigger on, with so many scans after it.
fn record(alloc: Global, recorder: &mut Recorder, post: u32) -> Result<Record> {
    let mut numbers = Numbers::new(3);
    scan_one(alloc, recorder, &mut numbers)?;
    recorder.trigger().ok().context("a record opens")?;
    for _ in 0..post {
        scan_one(alloc, recorder, &mut numbers)?;
    }
    recorder.take().context("a closed record")
}

/// The File of a record of so many scans.
fn file(alloc: Global, rows: u32, kind: Kind) -> Result<File> {
    let mut recorder = recorder(alloc, 0, rows.saturating_sub(1), 0)?;
    file_from(alloc, &mut recorder, rows.saturating_sub(1), kind)
}

fn file_from(alloc: Global, recorder: &mut Recorder, post: u32, kind: Kind) -> Result<File> {
    let record = record(alloc, recorder, post)?;
    file_of(alloc, recorder.layout(), &record, kind)
        .ok()
        .context("a record of this layout")
}

fn cfg_of(alloc: Global, file: &File) -> Option<Vec<u8>> {
    cfg_bytes(alloc, file).ok()
}

fn dat_of(alloc: Global, file: &File) -> Option<Vec<u8>> {
    dat_bytes(alloc, file).ok()
}

fn write_once<R: Clock + AllocGlobal>(rt: &R, file: &File, least: &mut Least) -> Result<()> {
    let start = now(rt);
    let written = dat_of(rt.alloc(), file);
    let time = since(rt, start);
    drop(written.context("a lawful file")?);
    least.add(time?);
    Ok(())
}

fn is_file(read: Result<File, (ReadFault, Head)>) -> bool {
    match read {
        Ok(file) => {
            drop(file);
            true
        }
        Err((_, head)) => {
            drop(head);
            false
        }
    }
}

/// Reads the data under their head, and drops the File after its time was taken.
fn read_once<R: Clock + AllocGlobal>(
    rt: &R,
    cfg: &[u8],
    dat: &[u8],
    least: &mut Least,
) -> Result<()> {
    let head = read_cfg(rt.alloc(), cfg).ok().context("its own text")?;
    let start = now(rt);
    let read = read_dat(rt.alloc(), head, dat);
    let time = since(rt, start);
    is_file(read).then_some(()).context("its own data")?;
    least.add(time?);
    Ok(())
}

fn measure_writing<R: Clock + Print + AllocGlobal>(
    rt: &R,
    amount: Amount,
    file: &File,
    name: &str,
    size: u64,
) -> Result<()> {
    let mut least = Least::none();
    for _ in 0..amount.runs {
        write_once(rt, file, &mut least)?;
    }
    least.print(rt, amount, name, size)?;
    Ok(())
}

fn measure_reading<R: Clock + Print + AllocGlobal>(
    rt: &R,
    amount: Amount,
    texts: (&[u8], &[u8]),
    name: &str,
) -> Result<()> {
    let (cfg, dat) = texts;
    let mut least = Least::none();
    for _ in 0..amount.runs {
        read_once(rt, cfg, dat, &mut least)?;
    }
    least.print(rt, amount, name, dat.len() as u64)?;
    Ok(())
}

/// The texts of the two files.
fn texts(alloc: Global, file: &File) -> Result<(Vec<u8>, Vec<u8>)> {
    let cfg = cfg_of(alloc, file).context("a lawful file")?;
    match dat_of(alloc, file) {
        Some(dat) => Ok((cfg, dat)),
        None => None.context("a lawful file"),
    }
}

fn measure_texts<R: Clock + Print + AllocGlobal>(
    rt: &R,
    amount: Amount,
    file: &File,
    texts: (&[u8], &[u8]),
    names: (&str, &str),
) -> Result<()> {
    measure_writing(rt, amount, file, names.0, texts.1.len() as u64)?;
    measure_reading(rt, amount, texts, names.1)
}

fn measure_file<R: Clock + Print + AllocGlobal>(
    rt: &R,
    amount: Amount,
    file: &File,
    names: (&str, &str),
) -> Result<()> {
    let (cfg, dat) = texts(rt.alloc(), file)?;
    measure_texts(rt, amount, file, (&cfg, &dat), names)
}

fn measure_kind<R: Clock + Print + AllocGlobal>(
    rt: &R,
    amount: Amount,
    kind: Kind,
    names: (&str, &str),
) -> Result<()> {
    let file = file(rt.alloc(), amount.over(100_000, 20), kind)?;
    measure_file(rt, amount, &file, names)
}

pub fn measure<R: Clock + Print + AllocGlobal>(rt: &R, amount: Amount) -> Result<()> {
    measure_kind(rt, amount, Kind::Ascii, ("write ascii", "read ascii"))?;
    measure_kind(rt, amount, Kind::Binary, ("write binary", "read binary"))
}
