//! What is noted of the sections of a single file.

use crate::fault::ImportFault;
use crate::key::Key;
use crate::note::{Notes, Place};
use crate::sections::Sections;
use comtrade_format::Kind;
use comtrade_values::{put, put_number};
use std::alloc::Allocator;

/// Notes what was left out of a single file.
pub fn tell_sections<A: Allocator + Copy>(
    alloc: A,
    notes: &mut Notes<A>,
    sections: Sections<'_>,
) -> Result<(), ImportFault> {
    let place = Place::Whole("single file");
    notes.tell(Key::Cff, place, &[])?;
    if sections.has_odd_separator {
        notes.tell(Key::CffForm, place, &[])?;
    }
    if let Some((said, there)) = sections.wrong_count {
        let mut piece = Vec::new(alloc);
        put_number(&mut piece, said)?;
        put(&mut piece, " given, ")?;
        put_number(&mut piece, there)?;
        put(&mut piece, " found")?;
        notes.tell(Key::CffCount, place, &piece)?;
    }
    if sections.has_inf {
        notes.tell(Key::InfDropped, place, &[])?;
    }
    if sections.has_hdr {
        notes.tell(Key::HdrDropped, place, &[])?;
    }
    Ok(())
}

/// The name of the type in which data were read.
fn found_kind<A: Allocator + Copy>(notes: &Notes<A>, kind: Kind) -> &'static str {
    match kind {
        Kind::Ascii => "ASCII",
        Kind::Binary if notes.has(Key::KindFloat32) => "FLOAT32",
        Kind::Binary if notes.has(Key::KindBinary32) => "BINARY32",
        Kind::Binary => "BINARY",
    }
}

/// Notes that the heading of the data names another type than that in which they were read. BINARY
/// is the name of all binary types too.
pub fn tell_kind<A: Allocator + Copy>(
    alloc: A,
    notes: &mut Notes<A>,
    named: &[u8],
    kind: Kind,
) -> Result<(), ImportFault> {
    let found = found_kind(notes, kind);
    let is_any = named.eq_ignore_ascii_case(b"binary") && kind == Kind::Binary;
    if named.is_empty() || is_any || named.eq_ignore_ascii_case(found.as_bytes()) {
        return Ok(());
    }
    let mut piece = Vec::from_slice(alloc, b"heading has ")?;
    piece.extend_from_slice(named)?;
    put(&mut piece, ", found ")?;
    put(&mut piece, found)?;
    Ok(notes.tell(Key::CffKind, Place::Whole("single file"), &piece)?)
}
