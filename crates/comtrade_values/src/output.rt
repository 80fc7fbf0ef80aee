//! Writes a whole slice, and reports how much was written if that fails.

ghost use Rattle.std.specs.Prelude.{◌≡◌, ◌<◌, length, take, OnOk, IfErr};
ghost use Rattle.std.specs.Io.KnownBytes.{Appends};

use std::io::{Error, ErrorKind, Write};

/// Writes all bytes. An error comes with a number n: exactly the first n bytes were written, fewer
/// than all. Nothing is retried. A write that takes no byte gives `WriteZero`. An empty slice makes
/// no call.
pub fn write_all_of<W: Write>(w: &mut W, bytes: &[u8]) -> Result<(), (usize, Error)>
    ensures all { OnOk result (Appends (W.contents w.old) (W.contents w.new) bytes.now) }
    ensures part { IfErr result (λ fault. Appends (W.contents w.old) (W.contents w.new) (take fault.0 bytes.now)) }
    ensures left { IfErr result (λ fault. fault.0 < length bytes.now) }
    ensures none { length bytes.now ≡ 0 → w.new ≡ w.old }
{
    let mut written = 0;
    while written < bytes.len() {
        match w.write(&bytes[written..]) {
            Ok(0) => return Err((written, Error::from(ErrorKind::WriteZero))),
            Ok(n) => written += n,
            Err(error) => return Err((written, error)),
        }
    }
    Ok(())
}
