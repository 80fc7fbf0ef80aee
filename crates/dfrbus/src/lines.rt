//! The lines of the capture on standard input, written to standard output.

use dfr_capture::Plan;
use dfr_convert::CaptureLines;
use std::io::{ErrorKind, Read, Write};
use std::sync::Wait;
use std::time::{Clock, Duration};
use std::{io, thread};

/// How many bytes of lines are written at once.
const PIECE: usize = 65_536;

/// How long the program sleeps while standard input has nothing, in milliseconds.
const NAP: u64 = 5;

/// Prints that an allocation failed. Returns the exit status.
pub(crate) fn out_of_memory<R: Eprint>(rt: &R) -> u8 {
    let _ = eprintln!(rt; "dfrbus: out of memory");
    1
}

/// Writes all that a reader gives. Returns the exit status.
fn write_all<I: Read, R: Print + Eprint + AllocGlobal + Wait + Clock>(rt: &R, lines: &mut I) -> u8 {
    let Ok(mut piece) = vec![in rt.alloc(); 0u8; PIECE] else {
        return out_of_memory(rt);
    };
    let mut out = io::writer(rt);
    for _ in rt.forever() {
        match lines.read(piece.as_mut_slice()) {
            Ok(0) => return 0,
            Ok(count) => {
                if out.write_all(&piece[..count]).is_err() {
                    let _ = eprintln!(rt; "dfrbus: standard output cannot be written");
                    return 1;
                }
            }
            Err(error) => match error.kind() {
                ErrorKind::Interrupted => {}
                ErrorKind::WouldBlock => thread::sleep(rt, Duration::from_millis(NAP)),
                // what is wrong with the capture is told by its reader
                ErrorKind::InvalidData => return 1,
                _ => {
                    let _ = eprintln!(rt; "dfrbus: standard input cannot be read");
                    return 1;
                }
            },
        }
    }
    0
}

/// Writes the lines of the capture on standard input. Returns the exit status.
pub(crate) fn convert<R: Input + Print + Eprint + AllocGlobal + Wait + Clock>(
    rt: &R,
    plan: Plan,
) -> u8 {
    match CaptureLines::new(rt, "dfrbus", plan, rt.reader()) {
        Ok(mut lines) => write_all(rt, &mut lines),
        Err(_) => out_of_memory(rt),
    }
}
