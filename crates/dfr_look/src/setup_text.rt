//! A set-up to start from.

ghost use Rattle.std.specs.Prelude.{◌≤◌, IfOk};

use crate::block_text::message_in;
use crate::entry::Entry;
use crate::flow::Flow;
use crate::look::Look;
use crate::stream_text::rate_of;
use crate::talk::Talk;
use dfr_bus::{Kind, read_datum};
use std::alloc::Allocator;
use std::io;
use std::io::Write;

/// A set-up has at most so many channels of a kind.
const MOST: usize = 256;

/// The values of a stream of IEC 61850-9-2 LE: their names and phases.
const LE: [(&str, &str); 8] = [
    ("IA", "A"),
    ("IB", "B"),
    ("IC", "C"),
    ("IN", "N"),
    ("UA", "A"),
    ("UB", "B"),
    ("UC", "C"),
    ("UN", "N"),
];

/// The channel of a value of a stream of 8 values: currents in steps of 0.1 A, voltages in steps of
/// 0.01 kV.
fn put_le<W: Write>(out: &mut W, stream: usize, index: usize) -> io::Result<()> {
    if index >= 8 {
        return Ok(());
    }
    let (name, phase) = LE[index];
    let unit = if index < 4 { "A,0.1" } else { "kV,0.01" };
    writeln!(
        out,
        "analog S{stream}_{name},{phase},stream {stream},{unit},0,0,-32767,32767,1,1,P"
    )
}

/// The channels of a stream, after so many others. Returns how many there are then.
fn put_channels<W: Write>(
    out: &mut W,
    stream: usize,
    flow: &Flow,
    before: usize,
) -> io::Result<usize>
    requires { before ≤ 256 }
    ensures { IfOk result (λ n. n ≤ 256) }
{
    let mut channels = before;
    for index in 0..flow.first.values {
        if channels >= MOST {
            break;
        }
        if flow.first.values == 8 {
            put_le(out, stream, index)?;
        } else {
            writeln!(
                out,
                "analog S{stream}_{index},,stream {stream},,1,0,0,-32767,32767,1,1,P"
            )?;
        }
        channels += 1;
    }
    Ok(channels)
}

/// The contacts of a control block, after so many others: its elements of one truth value. Returns
/// how many there are then.
fn put_contacts<A: Allocator, W: Write>(
    out: &mut W,
    block: usize,
    entry: &Entry<Talk, A>,
    before: usize,
) -> io::Result<usize>
    requires { before ≤ 256 }
    ensures { IfOk result (λ n. n ≤ 256) }
{
    let bytes = entry.frame();
    let Some((_, goose)) = message_in(bytes) else {
        return Ok(before);
    };
    let data = goose.all_data;
    let mut contacts = before;
    let mut at = data.from;
    let mut index: u64 = 0;
    while at < data.to && data.to <= bytes.len() && contacts < MOST {
        let Ok(datum) = read_datum(bytes, at, data.to) else {
            break;
        };
        if datum.kind == Kind::Boolean {
            writeln!(out, "status G{block}_{index},,control block {block},0")?;
            contacts += 1;
        }
        at = datum.content.to;
        index = index.saturating_add(1);
    }
    Ok(contacts)
}

/// The rate of the first stream that shows one.
fn rate_in<A: Allocator>(streams: &[Entry<Flow, A>]) -> Option<u32> {
    for entry in streams {
        let flow = entry.content();
        if let Some(rate) = rate_of(&flow) {
            return Some(rate);
        }
    }
    None
}

/// The rate and the limits: 0.1 s before the trigger, 0.5 s after it, at most 2 s.
fn put_limits<W: Write>(out: &mut W, seen: Option<u32>) -> io::Result<()> {
    let rate = match seen {
        Some(rate) if rate >= 10 && rate <= 65536 => rate,
        _ => {
            writeln!(out, "# no stream shows its rate: 4000 is a guess")?;
            4000
        }
    };
    writeln!(out, "rate {rate}")?;
    writeln!(out, "limits {},{},{},4", rate / 10, rate / 2, rate * 2)
}

/// A set-up with a channel for each value of each stream, and a contact for each truth value of
/// each control block.
pub(crate) fn put_setup<A: Allocator, W: Write>(out: &mut W, look: &Look<A>) -> io::Result<()> {
    writeln!(out, "#")?;
    writeln!(
        out,
        "# A set-up to start from. With 8 values, units of 1 mA and 10 mV (IEC 61850-9-2 LE) are"
    )?;
    writeln!(
        out,
        "# assumed. Set the names, the ratios, the limits and the rules."
    )?;
    writeln!(out, "station STATION")?;
    writeln!(out, "device DFR")?;
    let mut channels = 0;
    for (i, entry) in look.streams().iter().enumerate() {
        let flow = entry.content();
        channels = put_channels(out, i + 1, &flow, channels)?;
    }
    let mut contacts = 0;
    for (i, entry) in look.blocks().iter().enumerate() {
        contacts = put_contacts(out, i + 1, entry, contacts)?;
    }
    if channels == 0 && contacts == 0 {
        writeln!(out, "# no value and no contact: a recorder needs a channel")?;
    }
    writeln!(out, "freq 50")?;
    put_limits(out, rate_in(look.streams()))?;
    writeln!(out, "rules")
}
