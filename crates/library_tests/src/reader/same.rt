//! Whether two values say the same.

use std::alloc::Global;
use std::fmt::Debug;

fn text_of<T: Debug>(alloc: Global, value: &T) -> Option<String> {
    format!(in alloc; "{value:?}").ok()
}

/// Whether all fields of both are the same, as `{:?}` prints them.
pub fn is_same<T: Debug>(alloc: Global, one: &T, other: &T) -> bool {
    match text_of(alloc, one) {
        Some(text) => text_of(alloc, other) == Some(text),
        None => false,
    }
}
