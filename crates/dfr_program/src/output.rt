//! Buffers text, and writes it once it has reached 64 KiB.

#![tactic(auto, using(crate::proofs::Growing::growing))]

ghost use Rattle.std.specs.Prelude.{◌≡◌, ◌≢◌, [], Err, OnOk, IfErr, length};
ghost use Rattle.std.specs.Io.KnownBytes.{Appends};
ghost use Rattle.dfr_program.specs.Writing.{Cut, Grows, Printed};

use crate::fault::RunFault;
use comtrade_values::write_all_of;
use std::alloc::Allocator;
use std::io::Write;

/// How many bytes of text are buffered before they are written.
const BUFFERED: usize = 65_536;

/// Writes all of the bytes, or fails with `Output`.
pub(crate) fn write_out<W: Write>(w: &mut W, bytes: &[u8]) -> Result<(), RunFault>
    ensures all { OnOk result (Appends (W.contents w.old) (W.contents w.new) bytes.now) }
    ensures part { IfErr result (λ _. Cut (W.contents w.old) (W.contents w.new) bytes.now) }
    ensures grows { Grows (W.contents w.old) (W.contents w.new) }
    ensures fault { IfErr result (λ fault. fault ≡ RunFault.Output) }
    ensures none { length bytes.now ≡ 0 → w.new ≡ w.old }
{
    match write_all_of(w, bytes) {
        Ok(()) => Ok(()),
        Err(_) => Err(RunFault::Output),
    }
}

/// Writes and clears the buffer. It clears it also where the write failed: the rest is never
/// sent again.
pub(crate) fn send<A: Allocator, W: Write>(w: &mut W, out: &mut Vec<u8, A>) -> Result<(), RunFault>
    ensures all { OnOk result (Appends (W.contents w.old) (W.contents w.new) out.old.items) }
    ensures part { IfErr result (λ _. Cut (W.contents w.old) (W.contents w.new) out.old.items) }
    ensures grows { Grows (W.contents w.old) (W.contents w.new) }
    ensures fault { IfErr result (λ fault. fault ≡ RunFault.Output) }
    ensures gone { out.new.items ≡ [] }
    ensures none { length out.old.items ≡ 0 → w.new ≡ w.old }
{
    let written = write_out(w, out);
    out.clear();
    written
}

/// Whether `count` bytes are enough to write at once.
pub(crate) fn is_much(count: usize) -> bool {
    count >= BUFFERED
}

/// Writes the buffer, where it has reached 64 KiB.
pub(crate) fn flush_if_full<A: Allocator, W: Write>(
    w: &mut W,
    out: &mut Vec<u8, A>,
) -> Result<(), RunFault>
    ensures printed { Printed result (W.contents w.old) out.old.items
        (W.contents w.new) out.new.items [] }
    ensures fault { IfErr result (λ fault. fault ≡ RunFault.Output) }
{
    if !is_much(out.len()) {
        return Ok(());
    }
    send(w, out)
}
