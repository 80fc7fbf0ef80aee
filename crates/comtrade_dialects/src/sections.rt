//! Splits a single file (.cff) of 2013 into its sections (IEC 60255-24:2013, 10).

use crate::cursor::{behind, first_line};
use crate::fault::{ImportFault, Why};
use crate::kinds::form_of;
use crate::text::{before_any, has_only};
use comtrade_values::{integer_of, trim};

/// The kinds of sections.
#[derive(Clone, Copy, PartialEq, Eq)]
enum Section {
    Cfg,
    Inf,
    Hdr,
    /// Data as text.
    Text,
    /// Binary data, with the byte count if it is given.
    Bytes(Option<u64>),
}

/// The separator line before a section.
#[derive(Clone, Copy)]
struct Separator<'a> {
    section: Section,
    /// The type of data that it names.
    kind: &'a [u8],
    /// The text after the line.
    rest: &'a [u8],
    /// It has the standard form.
    is_usual: bool,
}

/// The sections of a single file.
#[derive(Clone, Copy, Debug)]
pub struct Sections<'a> {
    pub cfg: &'a [u8],
    pub dat: &'a [u8],
    /// The type of data that the heading of DAT names; empty if there is none.
    pub kind: &'a [u8],
    /// An INF section has text; `has_hdr` is the same for HDR.
    pub has_inf: bool,
    pub has_hdr: bool,
    /// A separator does not have the standard form.
    pub has_odd_separator: bool,
    /// The byte count given and the one found, if they differ.
    pub wrong_count: Option<(u64, u64)>,
}

/// The number of bytes of a line that are examined.
const LONGEST: usize = 120;

/// The next word, and the rest after it.
fn word_of(text: &[u8]) -> (&[u8], &[u8]) {
    let text = trim(text);
    match before_any(text, b" \t:") {
        Some((word, rest)) => (word, trim(rest)),
        None => (text, &text[text.len()..]),
    }
}

/// The text without a leading colon.
fn after_colon(text: &[u8]) -> &[u8] {
    match text {
        [b':', rest @ ..] => trim(rest),
        _ => text,
    }
}

fn without_dashes(line: &[u8]) -> &[u8] {
    let mut inner = line;
    for _ in 0..line.len() {
        match inner {
            [b'-', rest @ ..] => inner = rest,
            [rest @ .., b'-'] => inner = rest,
            _ => break,
        }
    }
    trim(inner)
}

/// The data section with this type and byte count.
fn data_section(text: &[u8]) -> Option<Section> {
    let (kind, left) = word_of(after_colon(text));
    if kind.is_empty() || form_of(kind)?.is_text() {
        return Some(Section::Text);
    }
    let count = after_colon(left);
    if count.is_empty() {
        return Some(Section::Bytes(None));
    }
    let (digits, _) = word_of(count);
    Some(Section::Bytes(Some(u64::try_from(integer_of(digits)?).ok()?)))
}

/// The section named by the text between the dashes of a line.
fn section_of(inner: &[u8]) -> Option<Section> {
    let (file, rest) = word_of(inner);
    let (kind, rest) = word_of(rest);
    if !file.eq_ignore_ascii_case(b"file") || !kind.eq_ignore_ascii_case(b"type") {
        return None;
    }
    let (name, left) = word_of(after_colon(rest));
    if name.eq_ignore_ascii_case(b"cfg") {
        return Some(Section::Cfg);
    }
    if name.eq_ignore_ascii_case(b"inf") {
        return Some(Section::Inf);
    }
    if name.eq_ignore_ascii_case(b"hdr") {
        return Some(Section::Hdr);
    }
    if name.eq_ignore_ascii_case(b"dat") {
        data_section(left)
    } else {
        None
    }
}

fn has_lowercase(text: &[u8]) -> bool {
    for b in text {
        if b.is_ascii_lowercase() {
            return true;
        }
    }
    false
}

/// The type of data that the text between the dashes of a line names; empty if there is none.
fn kind_in(inner: &[u8]) -> &[u8] {
    let (_, rest) = word_of(inner);
    let (_, rest) = word_of(rest);
    let (_, rest) = word_of(after_colon(rest));
    let (kind, _) = word_of(after_colon(rest));
    kind
}

/// Whether a line has the standard form.
fn is_usual(line: &[u8], section: Section) -> bool {
    let Some(body) = line.strip_prefix(b"--- file type: ") else {
        return false;
    };
    let [inner @ .., b' ', b'-', b'-', b'-'] = body else {
        return false;
    };
    let names_kind = section != Section::Text || inner.starts_with(b"DAT ASCII");
    let is_plain = !has_lowercase(inner) && !inner.contains(&b'-');
    names_kind && is_plain && section != Section::Bytes(None)
}

/// The separator at the start of a text.
fn separator_at(text: &[u8]) -> Option<Separator<'_>> {
    if !text.starts_with(b"--") {
        return None;
    }
    let front = &text[..text.len().min(LONGEST)];
    let (line, rest) = match first_line(front) {
        Some(line) => (line, behind(text, line)?),
        None if text.len() <= LONGEST => (front, &text[text.len()..]),
        None => return None,
    };
    let line = match line {
        [inner @ .., b'\r'] => trim(inner),
        _ => trim(line),
    };
    let inner = without_dashes(line);
    let section = section_of(inner)?;
    Some(Separator {
        section,
        kind: kind_in(inner),
        rest,
        is_usual: is_usual(line, section),
    })
}

/// The texts before the next separator and from it on. It is at the start of a line, or anywhere if
/// `is_anywhere`.
fn at_next(text: &[u8], is_anywhere: bool) -> (&[u8], &[u8]) {
    let mut before = b'\n';
    for (i, b) in text.iter().enumerate() {
        let begins = is_anywhere || before == b'\n' || before == b'\r';
        let can_be = *b == b'-' && before != b'-' && begins;
        if can_be && separator_at(&text[i..]).is_some() {
            return (&text[..i], &text[i..]);
        }
        before = *b;
    }
    (text, &text[text.len()..])
}

/// Whether the bytes of a section end here: after an optional line end, nothing, only 1A, or a
/// separator follows.
fn ends_here(text: &[u8]) -> bool {
    let rest = match text {
        [b'\r', b'\n', rest @ ..] => rest,
        [b'\n', rest @ ..] => rest,
        [b'\r', rest @ ..] => rest,
        _ => text,
    };
    rest.is_empty() || rest == b"\x1a".as_slice() || separator_at(rest).is_some()
}

/// So many bytes of a text and the rest, if a section can end there.
fn counted(text: &[u8], count: u64) -> Option<(&[u8], &[u8])> {
    let (bytes, rest) = text.split_at_checked(usize::try_from(count).ok()?)?;
    ends_here(rest).then_some((bytes, rest))
}

/// The contents of a section and the rest, and its byte count and the true one if they differ.
fn contents_of(separator: Separator<'_>) -> ((&[u8], &[u8]), Option<(u64, u64)>) {
    let text = separator.rest;
    let Section::Bytes(said) = separator.section else {
        return (at_next(text, false), None);
    };
    let Some(count) = said else {
        return (at_next(text, true), None);
    };
    match counted(text, count) {
        Some(parts) => (parts, None),
        None => {
            let (bytes, rest) = at_next(text, true);
            ((bytes, rest), Some((count, bytes.len() as u64)))
        }
    }
}

fn has_text(text: &[u8]) -> bool {
    !has_only(text, b" \t\r\n\x0c\x1a")
}

/// The sections so far.
#[derive(Clone, Copy)]
struct SectionsSoFar<'a> {
    sections: Sections<'a>,
    has_cfg: bool,
    has_dat: bool,
}

/// Adds a section, and returns the rest after it.
fn add<'a>(found: &mut SectionsSoFar<'a>, separator: Separator<'a>) -> Result<&'a [u8], Why> {
    let ((text, rest), wrong) = contents_of(separator);
    found.sections.has_odd_separator = found.sections.has_odd_separator || !separator.is_usual;
    match separator.section {
        Section::Cfg if found.has_cfg => return Err(Why::Twice),
        Section::Cfg => {
            found.has_cfg = true;
            found.sections.cfg = text;
        }
        Section::Inf => found.sections.has_inf = found.sections.has_inf || has_text(text),
        Section::Hdr => found.sections.has_hdr = found.sections.has_hdr || has_text(text),
        Section::Text | Section::Bytes(_) => {
            if found.has_dat {
                return Err(Why::Twice);
            }
            found.has_dat = true;
            found.sections.dat = text;
            found.sections.kind = separator.kind;
            found.sections.wrong_count = wrong;
        }
    }
    Ok(rest)
}

/// Splits a single file into its sections. It is an error if CFG or DAT is missing or occurs twice.
pub fn cut(cff: &[u8]) -> Result<Sections<'_>, ImportFault> {
    let mut found = SectionsSoFar {
        sections: Sections {
            cfg: &[],
            dat: &[],
            kind: &[],
            has_inf: false,
            has_hdr: false,
            has_odd_separator: false,
            wrong_count: None,
        },
        has_cfg: false,
        has_dat: false,
    };
    let mut left = cff;
    for _ in 0..cff.len() {
        let (_, here) = at_next(left, false);
        let Some(separator) = separator_at(here) else {
            break;
        };
        match add(&mut found, separator) {
            Ok(rest) => left = rest,
            Err(why) => return Err(ImportFault::Whole(why)),
        }
    }
    if !found.has_cfg {
        return Err(ImportFault::Whole(Why::NoCfg));
    }
    if !found.has_dat {
        return Err(ImportFault::Whole(Why::NoDat));
    }
    Ok(found.sections)
}
