//! Prints what `dfr_plan` and `dfr_capture` make of set-ups and frames, so that another program can
//! compare it. `bench/capture.py` does. The input has a line `setup`, the lines of a set-up with a
//! plan below `go`, a line `end`, and for each frame a line `frame NANOSECOND BYTES`, the bytes in
//! two digits each.
#![tactic(auto)]

ghost use Rattle.std.specs.Prelude.{◌<◌};

use anyhow::Result;
use dfr_capture::{Feed, Recorder};
use dfr_channels::Layout;
use dfr_convert::Words;
use dfr_plan::plan_of;
use dfr_script::set_up_of;
use std::alloc::Global;
use std::io;
use std::io::{BufWriter, Read, Write};

/// What a hexadecimal digit is worth; 0 if it is none.
fn worth(digit: u8) -> u8
    ensures { result < 16 }
{
    match digit {
        b'0'..=b'9' => digit - b'0',
        b'a'..=b'f' => digit - b'a' + 10,
        _ => 0,
    }
}

/// The bytes that pairs of digits spell.
fn bytes_of(alloc: Global, digits: &[u8]) -> Result<Vec<u8>> {
    let mut bytes = Vec::new(alloc);
    for pair in digits.chunks(2) {
        if let [high, low] = pair {
            bytes.push(worth(*high) * 16 + worth(*low))?;
        }
    }
    Ok(bytes)
}

/// A recorder of the plan in a set-up. Prints `plan`, or why there is none.
fn begun<W: Write>(alloc: Global, out: &mut W, text: &[u8]) -> Result<Option<Recorder>> {
    let Ok(set_up) = set_up_of(alloc, text, 0) else {
        writeln!(out, "set-up")?;
        return Ok(None);
    };
    let Ok(layout) = Layout::new(set_up.setup) else {
        writeln!(out, "layout")?;
        return Ok(None);
    };
    match plan_of(alloc, &layout, text) {
        Ok(plan) => {
            writeln!(out, "plan")?;
            Ok(Some(Recorder::new(alloc, plan)?))
        }
        Err(refusal) => {
            writeln!(out, "{refusal:?}")?;
            Ok(None)
        }
    }
}

/// Prints what a frame gives.
fn print_feed<W: Write>(out: &mut W, feed: &Feed) -> io::Result<()> {
    writeln!(out, "frame")?;
    for event in &feed.events {
        let words = Words(*event);
        writeln!(out, "event {words}")?;
    }
    for lost in &feed.missing {
        writeln!(out, "missing {} {:?}", lost.channel, lost.why)?;
    }
    out.write_all(&feed.lines)
}

/// Takes in the frame of a line, and prints what it gives.
fn take<W: Write>(alloc: Global, out: &mut W, recorder: &mut Recorder, line: &str) -> Result<()> {
    let mut words = line.split_whitespace();
    let (Some("frame"), Some(time), Some(digits)) = (words.next(), words.next(), words.next())
    else {
        return Ok(());
    };
    let Ok(time) = time.parse::<u64>() else {
        return Ok(());
    };
    let bytes = bytes_of(alloc, digits.as_bytes())?;
    let mut feed = Feed::new(alloc);
    recorder.take_in(&bytes, time, &mut feed)?;
    print_feed(out, &feed)?;
    Ok(())
}

fn main(rt: HostRuntime) -> Result<()> {
    let alloc = rt.alloc();
    let mut text = String::new(alloc);
    rt.reader().read_to_string(&mut text)?;
    let mut out = BufWriter::new(alloc, io::writer(&rt))?;
    let mut set_up = None;
    let mut recorder = None;
    for line in text.lines() {
        if line == "setup" {
            set_up = Some(Vec::new(alloc));
        } else if let Some(mut lines) = set_up.take() {
            if line == "end" {
                recorder = begun(alloc, &mut out, &lines)?;
            } else {
                lines.extend_from_slice(line.as_bytes())?;
                lines.push(b'\n')?;
                set_up = Some(lines);
            }
        } else if let Some(recorder) = &mut recorder {
            take(alloc, &mut out, recorder, line)?;
        }
    }
    out.flush()?;
    Ok(())
}
