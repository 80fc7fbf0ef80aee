//! Bits in plain spelling (one digit each), read in two passes without a branch.

ghost use Rattle.std.specs.Prelude.{◌≡◌, ◌*◌, ◌+◌, IfOk, IfSome, None, length, position};
ghost use Rattle.comtrade_values.specs.PlainBits.{AreBits};
ghost use Rattle.dfr_script.specs.PlainBits.{ReadsBits};
ghost use Rattle.dfr_script.specs.ScanLines.{is_slash};

use comtrade_values::are_bits;
use std::alloc::{AllocError, Allocator};

/// Fills the slot with the bits of a text.
fn write_bits(slot: &mut [bool], text: &[u8])
    requires bits { AreBits text.now (length slot.old) }
    requires room { length text.now + 1 ≡ 2 * length slot.old }
    ensures { ReadsBits text.now slot.new }
{
    for i in 0..slot.len() {
        slot[i] = text[2 * i] == b'1';
    }
}

/// The bits of a text in which each is one digit, with nothing but a comma between two. Such a text
/// has no slash. None means no more than that some bit is spelled otherwise.
pub(crate) fn plain_bits<A: Allocator>(
    alloc: A,
    text: &[u8],
) -> Result<Option<Vec<bool, A>>, AllocError>
    ensures bits { IfOk result (λ read. IfSome read (λ bits. ReadsBits text.now bits.items)) }
    ensures slash { IfOk result (λ read. IfSome read (λ _. position is_slash text.now ≡ None)) }
{
    let count = text.len() / 2 + 1;
    if text.len() % 2 == 0 || !are_bits(text, count) {
        return Ok(None);
    }
    let mut bits = vec![in alloc; false; count]?;
    write_bits(&mut bits, text);
    Ok(Some(bits))
}
