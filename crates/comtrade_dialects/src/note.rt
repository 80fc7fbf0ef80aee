//! Notes on repairs: one for each key, in the order in which the files are read.

ghost use Rattle.std.specs.Prelude.{◌≡◌, [], OnOk};
ghost use Rattle.comtrade_dialects.specs.Notes.{PutsText};

use crate::key::Key;
use crate::text::{push_quoted, push_shown};
use crate::zone::Zone;
use comtrade_values::put;
use std::alloc::{AllocError, Allocator, Global};
use std::fmt::Write;
use std::marker::Model;

/// Where something is.
#[derive(Clone, Copy)]
pub enum Place {
    /// A line of the configuration file.
    Cfg(u64),
    /// A row of the data.
    Row(u64),
    /// An analogue channel.
    Channel(u64),
    /// The configuration file, the data or the single file as a whole.
    Whole(&'static str),
}

/// A kind of repair that was made: its key, how often, and as text where and what.
#[derive(Debug, Drop)]
pub struct Note<A: Allocator = Global> {
    key: Key,
    count: u64,
    details: String<A>,
}

impl<A: Allocator> Model for Note<A> {
    ghost use Rattle.std.specs.String.{string_bytes};
    ghost use Rattle.comtrade_dialects.specs.Notes.{NoteParts};

    ghost Value = { NoteParts };

    ghost view = { λ n. record { key = n.key; count = n.count; details = string_bytes n.details } };
}

/// The number of bytes of details that are kept.
const DETAILS: usize = 2_000;

fn push_place<A: Allocator>(out: &mut String<A>, place: Place) -> Result<(), AllocError> {
    match place {
        Place::Cfg(line) => write!(out, "line {line}"),
        Place::Row(row) => write!(out, "row {row}"),
        Place::Channel(n) => write!(out, "channel {n}"),
        Place::Whole(name) => out.push_str(name),
    }
}

impl<A: Allocator> Note<A> {
    /// The kind of repair.
    pub fn key(&self) -> Key
        ensures { result ≡ self.now.key }
    {
        self.key
    }

    /// The number of repairs of this kind.
    pub fn count(&self) -> u64
        ensures { result ≡ self.now.count }
    {
        self.count
    }

    /// Where they were made, and what was there before.
    pub fn details(&self) -> &[u8]
        ensures { result.now ≡ self.now.details }
    {
        self.details.as_bytes()
    }

    /// Adds the place and the piece to the details, if there is room. The piece may have the bytes
    /// of a file; what is not seen in them becomes `\xNN`.
    fn add(&mut self, place: Place, piece: &[u8]) -> Result<(), AllocError>
        ensures { self.new.key ≡ self.old.key }
    {
        self.count = self.count.saturating_add(1); // (no file has 2^64 repairs)
        if DETAILS < self.details.len() {
            return Ok(());
        }
        if !self.details.is_empty() {
            self.details.push_str("; ")?;
        }
        push_place(&mut self.details, place)?;
        if piece.is_empty() {
            return Ok(());
        }
        self.details.push_str(": ")?;
        push_shown(&mut self.details, piece)
    }

    /// The note as a line without its end: `KEY: words (places)`.
    fn line(&self, alloc: A) -> Result<String<A>, AllocError> {
        let (name, words) = (self.key.name(), self.key.words());
        let mut line = String::new(alloc);
        write!(line, "{name}: {words} ({}", self.details.as_str())?;
        if DETAILS < self.details.len() {
            write!(line, "; ..; {} in all", self.count)?;
        }
        line.push_str(")")?;
        Ok(line)
    }
}

impl<A: Allocator + Copy> Note<A> {
    /// Appends the note as a line without its end: text, whatever bytes the files have.
    pub fn put_line(&self, out: &mut Vec<u8, A>) -> Result<(), AllocError>
        ensures { OnOk result (PutsText out.old.items out.new.items) }
    {
        let line = self.line(*out.allocator())?;
        put(out, line.as_str())
    }
}

/// The notes so far; each key occurs at most once. Also what a file of 1999 cannot hold.
#[derive(Drop)]
pub struct Notes<A: Allocator> {
    list: Vec<Note<A>, A>,
    /// The time code of the files.
    zone: Option<Zone>,
    /// Texts stay as the files have them, so that notes speak only of commas in them.
    keeps_texts: bool,
}

impl<A: Allocator> Model for Notes<A> {
    ghost use Rattle.std.specs.Prelude.{List};
    ghost use Rattle.comtrade_dialects.specs.Notes.{NoteParts};

    ghost Value = { List NoteParts };

    ghost view = { λ n. n.list.items };
}

impl<A: Allocator + Copy> Notes<A> {
    /// No notes.
    pub fn new(alloc: A) -> Notes<A>
        ensures { result ≡ [] }
    {
        Notes {
            list: Vec::new(alloc),
            zone: None,
            keeps_texts: false,
        }
    }

    /// The time code of the files, if one is known.
    pub fn zone(&self) -> Option<Zone> {
        self.zone
    }

    pub(crate) fn set_zone(&mut self, zone: Option<Zone>)
        ensures { self.new ≡ self.old }
    {
        self.zone = zone;
    }

    pub(crate) fn allocator(&self) -> A {
        *self.list.allocator()
    }

    /// The notes, in the order in which their keys first occurred.
    pub fn into_list(self) -> Vec<Note<A>, A>
        ensures { result.items ≡ self }
    {
        self.list
    }

    /// Whether texts stay as the files have them.
    pub(crate) fn keeps_texts(&self) -> bool {
        self.keeps_texts
    }

    pub(crate) fn keep_texts(&mut self)
        ensures { self.new ≡ self.old }
    {
        self.keeps_texts = true;
    }

    /// Whether there is a note with this key.
    pub(crate) fn has(&self, key: Key) -> bool {
        for note in self.list.iter() {
            if note.key == key {
                return true;
            }
        }
        false
    }

    /// Notes a repair, with what was there before.
    pub fn tell(&mut self, key: Key, place: Place, piece: &[u8]) -> Result<(), AllocError> {
        for note in self.list.iter_mut() {
            if note.key == key {
                return note.add(place, piece);
            }
        }
        let mut note = Note {
            key,
            count: 0,
            details: String::new(*self.list.allocator()),
        };
        note.add(place, piece)?;
        self.list.push(note)?;
        Ok(())
    }

    /// Notes the change of a text; both are quoted.
    pub(crate) fn tell_change(
        &mut self,
        key: Key,
        place: Place,
        text: &[u8],
        made: &[u8],
    ) -> Result<(), AllocError> {
        let mut piece = String::new(*self.list.allocator());
        push_quoted(&mut piece, text)?;
        piece.push_str(" became ")?;
        push_quoted(&mut piece, made)?;
        self.tell(key, place, piece.as_bytes())
    }

    /// Notes a repair of a text, which is quoted.
    pub(crate) fn tell_text(
        &mut self,
        key: Key,
        place: Place,
        text: &[u8],
    ) -> Result<(), AllocError> {
        let mut piece = String::new(*self.list.allocator());
        push_quoted(&mut piece, text)?;
        self.tell(key, place, piece.as_bytes())
    }
}
