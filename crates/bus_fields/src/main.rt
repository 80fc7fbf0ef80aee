//! Prints what `dfr_bus` reads in a capture on standard input, a line for each packet, so that another
//! program can compare it. `bench/bus_judge.py` does, with `tshark`.
#![tactic(auto)]

mod message;
mod sampled;
mod word;

use anyhow::Result;
use dfr_bus::{Capture, Fault, Packet, read_ethernet, read_head, read_packet};
use std::io;
use std::io::{BufWriter, Read, Write};

/// Prints a fault: its place in the file, and its name.
fn print_fault<W: Write>(out: &mut W, fault: Fault) -> io::Result<()> {
    writeln!(out, " fault {} {:?}", fault.at, fault.wrong)
}

/// Prints what a packet carries.
fn print_packet<W: Write>(out: &mut W, bytes: &[u8], packet: Packet) -> io::Result<()> {
    write!(
        out,
        "{}.{:09} {}",
        packet.seconds, packet.nanoseconds, packet.length
    )?;
    let span = packet.content;
    if span.from > span.to || span.to > bytes.len() {
        return Ok(());
    }
    let frame = match read_ethernet(bytes, span.from, span.to) {
        Ok(frame) => frame,
        Err(fault) => return print_fault(out, fault),
    };
    word::number(out, "vlan", frame.outer)?;
    word::number(out, "inner", frame.inner)?;
    match frame.ether_type {
        0x88B8 => message::print(out, bytes, frame.payload),
        0x88BA => sampled::print(out, bytes, frame.payload),
        other => writeln!(out, " type {other}"),
    }
}

/// Prints the packets one after the other, up to the first fault of the file.
fn print_packets<W: Write>(out: &mut W, capture: Capture, bytes: &[u8]) -> io::Result<()> {
    let mut at = 24;
    while at < bytes.len() {
        let packet = match read_packet(capture, bytes, at, bytes.len()) {
            Ok(packet) => packet,
            Err(fault) => return print_fault(out, fault),
        };
        print_packet(out, bytes, packet)?;
        at = packet.content.to;
    }
    Ok(())
}

fn main(rt: HostRuntime) -> Result<()> {
    let mut bytes = Vec::new(rt.alloc());
    rt.reader().read_to_end(&mut bytes)?;
    let mut out = BufWriter::new(rt.alloc(), io::writer(&rt))?;
    match read_head(&bytes) {
        Ok(capture) => print_packets(&mut out, capture, &bytes)?,
        Err(fault) => print_fault(&mut out, fault)?,
    }
    out.flush()?;
    Ok(())
}
