//! Appends a line completely or not at all.

ghost use Rattle.std.specs.Prelude.{◌≡◌, OnErr, OnOk};
ghost use Rattle.comtrade_diagnostics.specs.Puts.{PutsLine};

use comtrade_values::put;
use std::alloc::{AllocError, Allocator};

/// Appends the line with a line end; appends nothing if an allocation fails.
pub(crate) fn put_line<A: Allocator>(
    out: &mut Vec<u8, A>,
    line: &mut Vec<u8, A>,
) -> Result<(), AllocError>
    ensures line { OnOk result (PutsLine out.old.items out.new.items) }
    ensures kept { OnErr result (out.new.items ≡ out.old.items) }
{
    put(line, "\n")?;
    out.extend_from_slice(line)
}
