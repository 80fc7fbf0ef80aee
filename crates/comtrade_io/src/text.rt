//! Printed text, buffered before it is written. Texts of a file come out as characters that are seen, and no others.

ghost use Rattle.std.specs.Prelude.{◌≡◌, ◌<◌, ◌++◌, OnOk};
ghost use Rattle.std.specs.Char.{digit_char};
ghost use Rattle.comtrade_format.specs.Cfg.{kind_text};
ghost use Rattle.comtrade_io.specs.Safe.{in_hex, quoted, safe};

use crate::seen::seen_len;
use comtrade_format::Kind;
use comtrade_values::put;
use std::alloc::{AllocError, Allocator};

/// What a kind of data is called.
pub fn kind_name(kind: Kind) -> &'static str
    ensures { result.now ≡ kind_text kind }
{
    match kind {
        Kind::Ascii => "ASCII",
        Kind::Binary => "BINARY",
    }
}

fn hex_digit(n: u8) -> u8
    requires { n < 16 }
    ensures { result ≡ digit_char n }
{
    if n < 10 { b'0' + n } else { b'a' + (n - 10) }
}

/// A byte in hexadecimal, as `\x1b`.
fn put_in_hex<A: Allocator>(out: &mut Vec<u8, A>, b: u8) -> Result<(), AllocError>
    ensures { OnOk result (out.new.items ≡ out.old.items ++ in_hex b) }
{
    out.extend_from_slice(&[b'\\', b'x', hex_digit(b / 16), hex_digit(b % 16)])
}

/// A text of a file: characters of UTF-8 that are seen stand as they are, other bytes in hexadecimal, as `\x1b`.
pub fn put_safe<A: Allocator>(out: &mut Vec<u8, A>, text: &[u8]) -> Result<(), AllocError>
    ensures { OnOk result (out.new.items ≡ out.old.items ++ safe text.now) }
{
    let mut left = 0usize;
    for i in 0..text.len() {
        if left == 0 {
            left = seen_len(&text[i..]);
        }
        if left == 0 {
            put_in_hex(out, text[i])?;
        } else {
            out.extend_from_slice(&[text[i]])?;
            left -= 1;
        }
    }
    Ok(())
}

/// How many bytes of a field are quoted.
const QUOTED: usize = 60;

/// A field in quotation marks; of more than 60 bytes the first 60, and three dots after it.
pub fn put_quoted<A: Allocator>(out: &mut Vec<u8, A>, text: &[u8]) -> Result<(), AllocError>
    ensures { OnOk result (out.new.items ≡ out.old.items ++ quoted text.now) }
{
    put(out, "\"")?;
    match text.get(..QUOTED) {
        Some(front) if front.len() < text.len() => {
            put_safe(out, front)?;
            put(out, "\"...")
        }
        _ => {
            put_safe(out, text)?;
            put(out, "\"")
        }
    }
}
