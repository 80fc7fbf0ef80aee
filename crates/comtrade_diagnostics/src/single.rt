//! Reads a single file, which holds a pair.

use crate::importing::{Repaired, told};
use crate::silent::Refusal;
use comtrade_dialects::{
    Choices, Key, Notes, Place, cut, narrow, repaired, tell_kind, tell_sections, unmarked,
};
use std::alloc::Allocator;

/// Reads the pair in a single file, whose text is ASCII or UTF-8.
fn single<A: Allocator + Copy>(
    alloc: A,
    mut notes: Notes<A>,
    text: &[u8],
    choices: Choices,
) -> Result<Repaired<A>, Refusal> {
    let sections = cut(text)?;
    tell_sections(alloc, &mut notes, sections)?;
    let file = repaired(alloc, &mut notes, sections.cfg, sections.dat, choices)?;
    tell_kind(alloc, &mut notes, sections.kind, file.head.kind)?;
    told(alloc, sections.dat, file, notes, choices.samples)
}

/// The choices for a text that says its own encoding.
fn in_known(choices: Choices) -> Choices {
    Choices {
        encoding: None,
        ..choices
    }
}

/// Reads the pair in a single file with all repairs that it needs.
pub fn repaired_single<A: Allocator + Copy>(
    alloc: A,
    cff: &[u8],
    choices: Choices,
) -> Result<Repaired<A>, Refusal> {
    let mut notes = Notes::new(alloc);
    match narrow(alloc, cff)? {
        Some(text) => {
            notes.tell(Key::Utf16, Place::Whole("single file"), &[])?;
            single(alloc, notes, text.as_slice(), in_known(choices))
        }
        None => {
            let text = unmarked(&mut notes, "single file", cff)?;
            let is_marked = text.len() != cff.len();
            let choices = if is_marked {
                in_known(choices)
            } else {
                choices
            };
            single(alloc, notes, text, choices)
        }
    }
}
