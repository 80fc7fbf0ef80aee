//! The text of a set-up without its `detect` lines.

ghost use Rattle.std.specs.Prelude.{◌≡◌, ◌++◌, IfOk, OnOk};
ghost use Rattle.dfr_setup.specs.SetupFiles as spec;

use crate::addend::parts_of;
use crate::line::is_detect;
use std::alloc::{AllocError, Allocator};

/// Puts a line, which is a comment if it asks for detectors.
fn put_line<A: Allocator>(text: &mut Vec<u8, A>, line: &[u8]) -> Result<(), AllocError>
    ensures { OnOk result (text.new.items ≡ text.old.items ++ spec.plain_line line.now) }
{
    if is_detect(line) {
        text.push(b'#')?;
    }
    text.extend_from_slice(line)?;
    text.push(b'\n')?;
    Ok(())
}

/// The same text with each `detect` line as a comment.
pub(crate) fn plain_of<A: Allocator + Copy>(alloc: A, text: &[u8]) -> Result<Vec<u8, A>, AllocError>
    ensures { IfOk result (λ plain. plain.items ≡ spec.plain text.now) }
{
    let lines = parts_of(alloc, text, b'\n')?;
    let mut plain = Vec::new(alloc);
    let mut left = lines.as_slice();
    while let [line, rest @ ..] = left {
        put_line(&mut plain, line)?;
        left = rest;
    }
    Ok(plain)
}
