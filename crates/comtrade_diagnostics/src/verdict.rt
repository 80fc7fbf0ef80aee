//! Checks a pair of files.

ghost use Rattle.std.specs.Prelude.{◌≡◌, IfOk, true, false};
ghost use Rattle.comtrade_read.specs.Verdicts.{IsFile};
ghost use Rattle.comtrade_read.specs.Reads.{IsNoFile};

use crate::check::{Pair, put_fault, put_no_fault};
use crate::hints::put_hint;
use comtrade_io::{ToolFault, write_out};
use comtrade_read::{Fault, ReadFault, read};
use std::alloc::Allocator;
use std::io::Write;

/// Appends the first error of a pair and whether `import` reads it, or that it has none and what is
/// odd about it. Returns true if it has none.
fn put_verdict<A: Allocator + Copy>(
    alloc: A,
    out: &mut Vec<u8, A>,
    pair: Pair<'_>,
) -> Result<bool, ToolFault>
    ensures sound { IfOk result (λ r. r ≡ true → IsFile pair.entry.cfg.now pair.entry.dat.now) }
    ensures faulty { IfOk result (λ r. r ≡ false → IsNoFile pair.entry.cfg.now pair.entry.dat.now) }
{
    match read(alloc, pair.cfg, pair.dat) {
        Ok(file) => {
            let put = put_no_fault(out, pair, &file);
            // dropped here, so that neither exit has to prove that its parts are dropped
            drop(file);
            put?;
            Ok(true)
        }
        Err((_, ReadFault::Memory)) => Err(ToolFault::Memory),
        Err((part, fault)) => {
            let found = Fault { part, fault };
            put_fault(alloc, out, pair, found)?;
            put_hint(alloc, out, pair, found)?;
            Ok(false)
        }
    }
}

/// Prints the first error of a pair and whether `import` reads it, or that it has none and what is
/// odd about it. Returns true if it has none: the pair then reads to a file. Returns false if it
/// has one: the pair then reads to no file. The verdict stands even if nobody reads the text.
pub fn check_over<A: Allocator + Copy, W: Write>(
    alloc: A,
    pair: Pair<'_>,
    w: &mut W,
) -> Result<bool, ToolFault>
    ensures sound { IfOk result (λ r. r ≡ true → IsFile pair.entry.cfg.now pair.entry.dat.now) }
    ensures faulty { IfOk result (λ r. r ≡ false → IsNoFile pair.entry.cfg.now pair.entry.dat.now) }
{
    let mut out = Vec::new(alloc);
    let is_sound = put_verdict(alloc, &mut out, pair)?;
    match write_out(w, &out) {
        Ok(()) | Err(ToolFault::Closed) => Ok(is_sound),
        Err(fault) => Err(fault),
    }
}
