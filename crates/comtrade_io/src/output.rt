//! Writing what was buffered.

ghost use Rattle.std.specs.Prelude.{◌≡◌, ◌<◌, ◌≤◌, [], length, Ok, OnOk, OnErr};
ghost use Rattle.std.specs.Io.KnownBytes.{Appends};
ghost use Rattle.comtrade_io.specs.Written.{AppendsFront};

use crate::fault::{ToolFault, fault_of};
use comtrade_values::write_all_of;
use std::alloc::Allocator;
use std::io::Write;

/// How much text is buffered before it is written.
const BUFFERED: usize = 65_536;

/// Writes the bytes; on a fault some of them from the first on, and never all. `Closed` is a pipe whose reader has gone away, `Output` any other write that failed.
pub fn write_out<W: Write>(w: &mut W, bytes: &[u8]) -> Result<(), ToolFault>
    ensures all { OnOk result (Appends (W.contents w.old) (W.contents w.new) bytes.now) }
    ensures part { OnErr result (AppendsFront (W.contents w.old) (W.contents w.new) bytes.now) }
{
    match write_all_of(w, bytes) {
        Ok(()) => Ok(()),
        Err((_, error)) => Err(fault_of(error.kind(), ToolFault::Output)),
    }
}

/// Writes what was buffered, where that is at least 64 KiB; nothing is buffered then, also on a fault.
pub fn flush_if_full<A: Allocator, W: Write>(
    w: &mut W,
    out: &mut Vec<u8, A>,
) -> Result<(), ToolFault>
    ensures few { length out.old.items < 65536 → (result ≡ Ok tt) × (w.new ≡ w.old) × (out.new ≡ out.old) }
    ensures many { 65536 ≤ length out.old.items → OnOk result (Appends (W.contents w.old) (W.contents w.new) out.old.items)
        × OnErr result (AppendsFront (W.contents w.old) (W.contents w.new) out.old.items) × (out.new.items ≡ []) }
{
    if out.len() < BUFFERED {
        return Ok(());
    }
    let written = write_out(w, out);
    out.clear();
    written
}
