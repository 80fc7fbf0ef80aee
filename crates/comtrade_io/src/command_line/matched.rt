//! The groups of words that several commands share, as a parse found them.

ghost use Rattle.std.specs.Prelude.{◌≡◌, ◌↔◌, IfOk, IsTrue, MatchOption, Some, codes, map, option_map, unwrap_or, []};
ghost use Rattle.clap.specs.Words.{all_of, first_of, found_of, rows_of};
ghost use Rattle.comtrade_io.specs.Asking.{AreForm, AreNames, AreCursor, ArePart, ArePicture, IsFlag, IsNamed, IsOption};

use crate::words::{Cursor, Form, Names, Part, Picture};
use clap::ArgMatches;
use comtrade_format::Kind;
use std::alloc::{AllocError, Global};

/// The text that was given for an argument.
#[tactic(auto, using(crate::proofs::MetCommands::rows))]
pub(crate) fn text_of<'a>(found: &ArgMatches<'a>, id: &str) -> Option<&'a str>
    ensures { IsOption (rows_of (found_of found.now)) id.now result }
{
    found.get_str(id)
}

/// Whether a flag was given.
pub(crate) fn is_set(found: &ArgMatches<'_>, id: &str) -> bool
    ensures { IsFlag (rows_of (found_of found.now)) id.now result }
{
    match text_of(found, id) {
        Some(word) => word == "true",
        None => false,
    }
}

/// The texts that were given for an argument, in their order.
#[tactic(auto, using(crate::proofs::MetCommands::all_rows))]
pub(crate) fn texts_of<'a>(
    alloc: Global,
    found: &ArgMatches<'a>,
    id: &str,
) -> Result<Vec<&'a str>, AllocError>
    ensures { IfOk result (λ texts. map (λ s. s.now) texts.items ≡ unwrap_or (all_of id.now (rows_of (found_of found.now))) []) }
{
    match found.get_strs(id) {
        Some(texts) => Vec::from_slice(alloc, texts),
        None => Ok(Vec::new(alloc)),
    }
}

/// The names, unless standard input would be read twice.
pub(crate) fn named<'a>(file: &'a str, dat: Option<&'a str>) -> Option<Names<'a>>
    ensures { MatchOption result (IsNamed file.entry.now (option_map (λ s. s.now) dat.entry) → ⊥)
        (λ names. (names.file ≡ file.entry) × (names.dat ≡ dat.entry)
        × IsNamed file.entry.now (option_map (λ s. s.now) dat.entry)) }
{
    if file != "-" {
        return Some(Names { file, dat });
    }
    match dat {
        Some(other) if other == "-" => None,
        _ => Some(Names { file, dat }),
    }
}

/// What the files of a pair are called.
pub(crate) fn names_of<'a>(found: &ArgMatches<'a>) -> Option<Names<'a>>
    ensures { MatchOption result ((names : Names) → AreNames (rows_of (found_of found.now)) names → ⊥)
        (AreNames (rows_of (found_of found.now))) }
{
    let file = text_of(found, "FILE")?;
    named(file, text_of(found, "DAT"))
}

/// Which part of a record is meant.
pub(crate) fn part_of<'a>(found: &ArgMatches<'a>) -> Part<'a>
    ensures { ArePart (rows_of (found_of found.now)) result }
{
    Part {
        from: text_of(found, "from"),
        to: text_of(found, "to"),
        channels: text_of(found, "channels"),
        changed: is_set(found, "changed"),
        primary: is_set(found, "primary"),
        secondary: is_set(found, "secondary"),
        strict: is_set(found, "strict"),
        encoding: text_of(found, "encoding"),
    }
}

/// How a picture is drawn.
pub(crate) fn picture_of<'a>(found: &ArgMatches<'a>) -> Picture<'a>
    ensures { ArePicture (rows_of (found_of found.now)) result }
{
    Picture {
        whole: is_set(found, "whole"),
        all: is_set(found, "all"),
        width: text_of(found, "width"),
        height: text_of(found, "height"),
        print: is_set(found, "print"),
    }
}

/// A moment, and how the record is measured there.
pub(crate) fn cursor_of<'a>(found: &ArgMatches<'a>) -> Cursor<'a>
    ensures { AreCursor (rows_of (found_of found.now)) result }
{
    Cursor {
        at: text_of(found, "at"),
        reference: text_of(found, "reference"),
        frequency: text_of(found, "frequency"),
        phases: text_of(found, "phases"),
    }
}

/// How a table of values is written.
pub(crate) fn form_of<'a>(found: &ArgMatches<'a>) -> Form<'a>
    ensures { AreForm (rows_of (found_of found.now)) result }
{
    Form {
        separator: text_of(found, "separator"),
        decimal: text_of(found, "decimal"),
    }
}

/// The kind of data that is asked for; the parse lets no other word through.
pub(crate) fn kind_of(found: &ArgMatches<'_>) -> Kind
    ensures { (result ≡ Kind.Binary) ↔ (first_of (codes "KIND") (rows_of (found_of found.now)) ≡ Some (codes "binary")) }
{
    match text_of(found, "KIND") {
        Some(word) if word == "binary" => Kind::Binary,
        _ => Kind::Ascii,
    }
}
