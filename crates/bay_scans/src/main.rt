//! Prints what `dfr_bay` makes of the frames of several streams, so that another program can compare
//! it. `bench/bay.py` does. The input has a line of six numbers for a new bay: rate, late, reach,
//! confirm, limit, streams; and a line of three for a frame: stream, sample count, content.
#![tactic(auto)]

use anyhow::Result;
use dfr_bay::{Bay, Settings};
use std::io;
use std::io::{BufRead, BufWriter, Write};

/// The numbers of a line, as many as there is room for.
fn numbers(line: &str) -> ([u32; 6], usize) {
    let mut all = [0; 6];
    let mut count = 0;
    for word in line.split_whitespace() {
        if count < 6
            && let Ok(number) = word.parse::<u32>()
        {
            all[count] = number;
            count += 1;
        }
    }
    (all, count)
}

/// The settings of a line.
fn settings(all: [u32; 6]) -> Settings {
    Settings {
        rate: all[0],
        late: all[1],
        reach: all[2],
        confirm: all[3],
        limit: all[4],
    }
}

/// Prints scans, each on a line: the content of each stream.
fn print_scans<W: Write>(out: &mut W, scans: &[Option<u32>], streams: usize) -> io::Result<()> {
    for (i, sample) in scans.iter().enumerate() {
        match sample {
            Some(content) => write!(out, " {content}")?,
            None => write!(out, " -")?,
        }
        if streams > 0 && (i + 1) % streams == 0 {
            writeln!(out, "")?;
        }
    }
    Ok(())
}

/// Takes in a frame, and prints what becomes of it.
fn print_frame<W: Write>(
    alloc: std::alloc::Global,
    out: &mut W,
    bay: &mut Bay<u32>,
    all: [u32; 6],
) -> Result<()> {
    let stream = all[0] as usize;
    let Ok(count) = u16::try_from(all[1]) else {
        writeln!(out, "count")?;
        return Ok(());
    };
    if stream >= bay.streams() {
        writeln!(out, "stream")?;
        return Ok(());
    }
    let mut scans = Vec::new(alloc);
    let arrival = bay.take_in(stream, count, all[2], &mut scans)?;
    writeln!(out, "{arrival:?}")?;
    print_scans(out, &scans, bay.streams())?;
    Ok(())
}

fn main(rt: HostRuntime) -> Result<()> {
    let alloc = rt.alloc();
    let mut text = String::new(alloc);
    io::Read::read_to_string(&mut rt.reader(), &mut text)?;
    let mut out = BufWriter::new(alloc, io::writer(&rt))?;
    let mut bay = None;
    for line in text.lines() {
        let (all, count) = numbers(line);
        if count == 6 {
            let wanted = settings(all);
            bay = None;
            match wanted.fault() {
                Some(fault) => writeln!(out, "{fault}")?,
                None if all[5] > 256 => writeln!(out, "streams")?,
                None => bay = Some(Bay::new(alloc, wanted, all[5] as usize)?),
            }
        } else if let Some(bay) = &mut bay {
            print_frame(alloc, &mut out, bay, all)?;
        }
    }
    out.flush()?;
    Ok(())
}
