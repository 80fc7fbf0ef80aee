//! What is printed of many records, one after the other.

use crate::opened::without_program;
use crate::output::Findings;
use comtrade_io::put_safe;
use comtrade_values::{lines_of, put, put_count};
use comtrade_views::{put_json, text_of};
use serde::Serialize;
use std::alloc::{AllocError, Global};

/// What is printed of one record.
#[derive(Drop)]
struct Answer {
    /// None where it isn't asked for, or isn't known.
    trigger: Option<i64>,
    text: Vec<u8>,
    /// Whether the record was read.
    is_read: bool,
    /// Whether the record has no error.
    is_sound: bool,
}

/// A record that cannot be read, as JSON.
#[derive(Drop, Serialize)]
struct Unread {
    record: String,
    fault: String,
}

/// What is printed of many records, as text or as lines of JSON.
#[derive(Drop)]
pub(crate) struct Answers {
    list: Vec<Answer>,
    json: bool,
}

/// The first line of what was said of a record, without the name of the program.
fn first_line(alloc: Global, said: &[u8]) -> Result<Vec<u8>, AllocError> {
    let lines = lines_of(alloc, said)?;
    match lines.first() {
        Some(line) => Vec::from_slice(alloc, without_program(line)),
        None => Ok(Vec::new(alloc)),
    }
}

/// A JSON object that has members, with the name of its record as the first one.
fn with_record(alloc: Global, name: &[u8], object: &[u8]) -> Result<Vec<u8>, AllocError> {
    let mut out = Vec::new(alloc);
    put(&mut out, "{\"record\":")?;
    put_json(alloc, &mut out, &text_of(alloc, name)?)?;
    out.pop(); // (the end of the line)
    put(&mut out, ",")?;
    if let Some(members) = object.strip_prefix(b"{") {
        out.extend_from_slice(members)?;
    }
    Ok(out)
}

impl Answers {
    /// So far there are none.
    pub(crate) fn new(alloc: Global, json: bool) -> Answers {
        Answers {
            list: Vec::new(alloc),
            json,
        }
    }

    /// How many records have an error.
    fn wrong(&self) -> usize {
        self.list.iter().filter(|answer| !answer.is_sound).count()
    }

    /// Whether each record was read and has no error.
    fn is_sound(&self) -> bool {
        self.wrong() == 0
    }

    /// Adds what is printed of a record.
    pub(crate) fn add(
        &mut self,
        alloc: Global,
        name: &str,
        trigger: Option<i64>,
        text: Vec<u8>,
        is_sound: bool,
    ) -> Result<(), AllocError> {
        let text = if self.json {
            with_record(alloc, name.as_bytes(), &text)?
        } else {
            text
        };
        self.list.push(Answer {
            trigger,
            text,
            is_read: true,
            is_sound,
        })?;
        Ok(())
    }

    /// Adds a record that cannot be read, with what was said of it.
    pub(crate) fn add_unread(
        &mut self,
        alloc: Global,
        name: &[u8],
        said: &[u8],
    ) -> Result<(), AllocError> {
        let mut text = Vec::new(alloc);
        if self.json {
            let unread = Unread {
                record: text_of(alloc, name)?,
                fault: text_of(alloc, &first_line(alloc, said)?)?,
            };
            put_json(alloc, &mut text, &unread)?;
        }
        self.list.push(Answer {
            trigger: None,
            text,
            is_read: false,
            is_sound: false,
        })?;
        Ok(())
    }

    /// Sorts the records by their triggers; those that cannot be read come last.
    pub(crate) fn sort(&mut self) -> Result<(), AllocError> {
        self.list
            .sort_by_key(|answer| (answer.trigger.is_none(), answer.trigger))
    }

    /// Whether a record was read.
    fn has_read(&self) -> bool {
        self.list.iter().any(|answer| answer.is_read)
    }

    /// All of them; `is_whole` if no name is missing.
    pub(crate) fn to_findings(
        &self,
        alloc: Global,
        is_whole: bool,
    ) -> Result<Findings, AllocError> {
        Ok(Findings {
            text: self.text(alloc)?,
            is_sound: is_whole && self.is_sound(),
            has_read: self.has_read(),
        })
    }

    /// All of them as text, and below a text how many records there are.
    fn text(&self, alloc: Global) -> Result<Vec<u8>, AllocError> {
        let mut out = Vec::new(alloc);
        for answer in self.list.iter() {
            out.extend_from_slice(&answer.text)?;
        }
        if !self.json {
            let records = self.list.len() as u64;
            put_count(&mut out, records, " record, ", " records, ")?;
            let wrong = self.wrong() as u64;
            put_count(&mut out, wrong, " with an error\n", " with errors\n")?;
        }
        Ok(out)
    }
}

/// The name of a record, as the line above its text.
pub(crate) fn put_name(out: &mut Vec<u8>, name: &str) -> Result<(), AllocError> {
    put_safe(out, name.as_bytes())?;
    put(out, ":\n")
}
