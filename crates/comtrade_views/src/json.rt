//! Values as JSON.

use comtrade_io::put_safe;
use comtrade_values::put;
use serde::Serialize;
use std::alloc::{AllocError, Global};

/// A text from a file as the value of a member: bytes that are not printable are written in
/// hexadecimal, as in the text output.
pub fn text_of(alloc: Global, text: &[u8]) -> Result<String, AllocError> {
    let mut safe = Vec::new(alloc);
    put_safe(&mut safe, text)?;
    plain_text_of(alloc, &safe)
}

/// A text that is printable already.
pub(crate) fn plain_text_of(alloc: Global, text: &[u8]) -> Result<String, AllocError> {
    // (this is UTF-8 already)
    String::from_utf8_lossy(alloc, text)
}

/// A value as a line of JSON. Only memory can fail: the value writes itself, and has no map with
/// odd keys.
pub fn put_json<T: Serialize>(
    alloc: Global,
    out: &mut Vec<u8>,
    value: &T,
) -> Result<(), AllocError> {
    match serde_json::to_string(alloc, value) {
        Ok(text) => put(out, text.as_str())?,
        Err(_) => return Err(AllocError),
    }
    put(out, "\n")
}
