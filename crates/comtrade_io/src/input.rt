//! Reads input, up to a limit.

ghost use Rattle.std.specs.Prelude.{◌≡◌, ◌⊎◌, ◌<◌, ◌≤◌, length, Err, IfOk, IfErr, IfSome};

use crate::fault::ToolFault;
use comtrade_values::InputFault;
use std::alloc::Allocator;
use std::io::Read;

/// Reads all that the reader has, at most `limit` bytes; more is `Long`. A read that failed is
/// `Input`, for whatever cause: it is not tried again. `Memory`: an allocation failed here.
pub fn read_up_to<A: Allocator, R: Read>(
    alloc: A,
    r: &mut R,
    limit: usize,
) -> Result<Vec<u8, A>, ToolFault>
    ensures bytes { IfOk result (λ v. IfSome (R.remaining r.old) (λ bytes. v.items ≡ bytes)) }
    ensures short { IfOk result (λ v. length v.items ≤ limit) }
    ensures long { result ≡ Err ToolFault.Long →
        IfSome (R.remaining r.old) (λ bytes. limit < length bytes) }
    ensures fault { IfErr result (λ fault. (fault ≡ ToolFault.Long)
        ⊎ (fault ≡ ToolFault.Input) ⊎ (fault ≡ ToolFault.Memory)) }
{
    match comtrade_values::read_up_to(alloc, r, limit) {
        Ok(bytes) => Ok(bytes),
        Err(InputFault::Long) => Err(ToolFault::Long),
        Err(InputFault::Failed) => Err(ToolFault::Input),
        Err(InputFault::Memory) => Err(ToolFault::Memory),
    }
}
