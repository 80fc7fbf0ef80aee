//! What a capture on standard input has.

use crate::outcome::out_of_memory;
use dfr_look::{Looked, look_through, put_report};
use std::alloc::Global;
use std::io;
use std::io::{BufWriter, ErrorKind, Read, Write};

/// The first bytes of a file in the form pcapng.
const PCAPNG: [u8; 4] = [0x0A, 0x0D, 0x0D, 0x0A];

/// Why such a file is refused.
const REFUSED: &str =
    "the capture is in the form pcapng; write it with `tcpdump -w`, or convert it \
     with `editcap -F pcap`";

/// Writes the report of a capture to standard output.
fn write_report<R: Print + AllocGlobal>(rt: &R, looked: &Looked<Global>) -> io::Result<()> {
    let mut out = BufWriter::new(rt.alloc(), io::writer(rt))?;
    put_report(&mut out, looked)?;
    out.flush()
}

/// Prints the report of a capture. Who reads it may go away, as `head` does. Returns the exit
/// status.
fn print_report<R: Print + Eprint + AllocGlobal>(rt: &R, looked: &Looked<Global>) -> u8 {
    match write_report(rt, looked) {
        Ok(()) => 0,
        Err(error) if error.kind() == ErrorKind::BrokenPipe => 0,
        Err(error) if error.kind() == ErrorKind::OutOfMemory => out_of_memory(rt),
        Err(_) => {
            let _ = eprintln!(rt; "dfrd: standard output cannot be written");
            1
        }
    }
}

/// Prints what the capture in these bytes has. Returns the exit status.
fn look_at<R: Print + Eprint + AllocGlobal>(rt: &R, bytes: &[u8]) -> u8 {
    if bytes.is_empty() {
        let _ = eprintln!(rt; "dfrd: standard input is empty; expected a capture");
        return 1;
    }
    if bytes.starts_with(&PCAPNG) {
        let _ = eprintln!(rt; "dfrd: {REFUSED}");
        return 1;
    }
    match look_through(rt.alloc(), bytes) {
        Err(_) => out_of_memory(rt),
        Ok(Err(fault)) => {
            let _ = eprintln!(rt; "dfrd: the capture cannot be read: {fault}");
            1
        }
        Ok(Ok(looked)) => {
            let status = print_report(rt, &looked);
            match looked.fault {
                None => status,
                Some(fault) => {
                    let _ = eprintln!(rt; "dfrd: the capture is damaged: {fault}");
                    1
                }
            }
        }
    }
}

/// Prints what the capture on standard input has. Returns the exit status.
pub(crate) fn look<R: Input + Print + Eprint + AllocGlobal>(rt: &R) -> u8 {
    let mut bytes = Vec::new(rt.alloc());
    match rt.reader().read_to_end(&mut bytes) {
        Ok(_) => look_at(rt, &bytes),
        Err(error) if error.kind() == ErrorKind::OutOfMemory => out_of_memory(rt),
        Err(_) => {
            let _ = eprintln!(rt; "dfrd: standard input cannot be read");
            1
        }
    }
}
