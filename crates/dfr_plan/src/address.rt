//! The address that frames come from.

ghost use Rattle.std.specs.Prelude.{◌≡◌, ◌≤◌, ◌<◌, ◌+◌, ◌*◌, length};
ghost use Rattle.dfr_plan.specs.Numbers.{hex_pair};
ghost use Rattle.dfr_plan.specs.Streams as spec;

use crate::number::hex_digit;

/// The byte that two hexadecimal digits spell.
fn pair_of(a: u8, b: u8) -> Option<u8>
    ensures { result ≡ hex_pair a b }
{
    let high = hex_digit(a)?;
    let low = hex_digit(b)?;
    Some(high * 16 + low)
}

/// Byte `n` of an address.
fn byte_of(text: &[u8], n: usize) -> Option<u8>
    requires few { n < 6 }
    requires long { length text.now ≡ 17 }
    ensures { result ≡ spec.address_byte text.now n }
{
    pair_of(text[3 * n], text[3 * n + 1])
}

/// Whether the text has as many bytes as an address, and colons between its pairs.
fn has_colons(text: &[u8]) -> bool
    ensures { result ≡ spec.has_colons text.now }
{
    text.len() == 17
        && text[2] == b':'
        && text[5] == b':'
        && text[8] == b':'
        && text[11] == b':'
        && text[14] == b':'
}

/// The six bytes of a text with colons.
fn six_bytes(text: &[u8]) -> Option<[u8; 6]>
    requires { length text.now ≡ 17 }
    ensures { result ≡ spec.six_bytes text.now }
{
    let a = byte_of(text, 0)?;
    let b = byte_of(text, 1)?;
    let c = byte_of(text, 2)?;
    let d = byte_of(text, 3)?;
    let e = byte_of(text, 4)?;
    let f = byte_of(text, 5)?;
    Some([a, b, c, d, e, f])
}

/// Six bytes in pairs of hexadecimal digits, between colons.
pub(crate) fn address_of(text: &[u8]) -> Option<[u8; 6]>
    ensures { result ≡ spec.address text.now }
{
    if has_colons(text) {
        six_bytes(text)
    } else {
        None
    }
}
