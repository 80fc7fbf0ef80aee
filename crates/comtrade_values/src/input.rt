//! Reads input, up to a limit.

ghost use Rattle.std.specs.Prelude.{◌≡◌, ◌<◌, ◌≤◌, ◌++◌, length, Err, IfOk, IfSome};
ghost use Rattle.comtrade_values.specs.declared.input.InputFault.TheVariants as input;

use std::alloc::{AllocError, Allocator};
use std::io::Read;
use thiserror::Error;

/// Why input was not read in full.
#[derive(Clone, Copy, Debug, PartialEq, Eq, Error)]
pub enum InputFault {
    /// A read failed, for whatever cause. It was not tried again.
    #[error("a read failed")]
    Failed,
    /// The input has more bytes than the limit.
    #[error("longer than the limit")]
    Long,
    /// An allocation failed.
    #[error("out of memory")]
    Memory,
}

impl From<AllocError> for InputFault {
    ghost from_gives = { λ _ e. e ≡ input.Memory };

    fn from(_error: AllocError) -> InputFault {
        InputFault::Memory
    }
}

/// How many bytes are copied at once. A C library moves this many with vector instructions, and
/// more with a string instruction.
const PART: usize = 2_048;

/// Appends the piece, in parts of `PART` bytes.
fn append<A: Allocator>(bytes: &mut Vec<u8, A>, piece: &[u8]) -> Result<(), AllocError>
    ensures { IfOk result (λ _. bytes.new.items ≡ bytes.old.items ++ piece.now) }
{
    for part in piece.chunks(PART) {
        bytes.extend_from_slice(part)?;
    }
    Ok(())
}

/// Reads all that the reader has, at most `limit` bytes.
pub fn read_up_to<A: Allocator, R: Read>(
    alloc: A,
    r: &mut R,
    limit: usize,
) -> Result<Vec<u8, A>, InputFault>
    ensures bytes { IfOk result (λ v. IfSome (R.remaining r.old) (λ bytes. v.items ≡ bytes)) }
    ensures short { IfOk result (λ v. length v.items ≤ limit) }
    ensures long { result ≡ Err InputFault.Long →
        IfSome (R.remaining r.old) (λ bytes. limit < length bytes) }
{
    let mut bytes = Vec::new(alloc);
    let mut piece = [0u8; 16_384];
    while bytes.len() <= limit {
        match r.read(&mut piece) {
            Ok(0) => return Ok(bytes),
            Ok(count) => append(&mut bytes, &piece[..count])?,
            Err(_) => return Err(InputFault::Failed),
        }
    }
    Err(InputFault::Long)
}
