//! Reads input, up to a limit.

ghost use Rattle.std.specs.Prelude.{◌≡◌, ◌<◌, ◌≤◌, length, Err, IfOk, IfSome};

use comtrade_values::{InputFault, read_up_to};
use std::alloc::Allocator;
use std::io::Read;

/// The most bytes of a script, or of a file, that are read.
const LIMIT: usize = 16_777_216;

/// Reads all that the reader has, at most 16,777,216 bytes.
///
/// - `Long`: the reader has more bytes.
/// - `Failed`: a read failed, for whatever cause. It is not tried again.
/// - `Memory`: an allocation failed.
pub fn read_all<A: Allocator, R: Read>(alloc: A, r: &mut R) -> Result<Vec<u8, A>, InputFault>
    ensures bytes { IfOk result (λ v. IfSome (R.remaining r.old) (λ bytes. v.items ≡ bytes)) }
    ensures short { IfOk result (λ v. length v.items ≤ 16777216) }
    ensures long { result ≡ Err InputFault.Long →
        IfSome (R.remaining r.old) (λ bytes. 16777216 < length bytes) }
{
    read_up_to(alloc, r, LIMIT)
}
