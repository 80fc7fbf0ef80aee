//! What headers tell of a recording: the program that makes it, and the rules in force. The trigger
//! thread notes the rules that orders set, and the export asks for them.

use crate::in_force::{Book, Set};
use comtrade_values::Memory;
use dfr_channels::Rules;
use dfr_header::Dates;
use dfr_live::{Order, Reply};
use std::alloc::{Allocator, Global};
use std::sync::atomic::{AtomicBool, Ordering};
use std::sync::{Mutex, Wait};

/// How often the trigger thread tries to note rules. The export has the book for some microseconds.
const TRIES: u32 = 1_000_000;

/// What gives the records of a recording their dates.
#[derive(Clone, Copy, Debug, PartialEq, Eq)]
pub struct Sources {
    /// Where a clock is followed.
    pub followed: Dates,
    /// Where the input told the time.
    pub told: Dates,
}

/// What the headers of a recording's records tell beside the record.
#[derive(Drop)]
pub struct Headers<A: Allocator = Global> {
    /// The program that makes the recording.
    pub(crate) program: &'static str,
    pub(crate) version: &'static str,
    pub(crate) sources: Sources,
    book: Mutex<Book<A>>,
    /// Rules were set and could not be noted, so that none are known any more.
    is_lost: AtomicBool,
}

impl<A: Allocator> Headers<A> {
    /// Notes rules that were set after so many scans. It never waits.
    fn note(&self, set: Set<A>) {
        for _ in 0..TRIES {
            if let Some(mut book) = self.book.try_lock() {
                book.note(set);
                return;
            }
        }
        drop(set);
        self.is_lost.store(true, Ordering::SeqCst);
    }
}

impl<A: Allocator + Copy> Headers<A> {
    /// The headers of a recording by this program, which begins with these rules. Both texts are
    /// printable ASCII. `Memory`: an allocation failed.
    pub fn new(
        alloc: A,
        program: &'static str,
        version: &'static str,
        sources: Sources,
        rules: &Rules<A>,
    ) -> Result<Headers<A>, Memory> {
        let rules = rules.try_clone()?;
        let book = Book::new(alloc, rules)?;
        Ok(Headers {
            program,
            version,
            sources,
            book: Mutex::new(book),
            is_lost: AtomicBool::new(false),
        })
    }

    /// The rules in force at a scan, if they are known.
    pub(crate) fn rules_at<R: Wait>(&self, rt: &R, scan: u64) -> Result<Option<Rules<A>>, Memory> {
        if self.is_lost.load(Ordering::SeqCst) {
            return Ok(None);
        }
        self.book.lock(rt).rules_at(scan)
    }
}

/// Notes the rules that orders set.
#[derive(Drop)]
pub(crate) struct Scribe<'s, A: Allocator = Global> {
    headers: Option<&'s Headers<A>>,
    /// The rules that the order handed out last would set; None if it sets none. The error: there was
    /// no memory to copy them.
    asked: Option<Result<Rules<A>, Memory>>,
}

impl<'s, A: Allocator> Scribe<'s, A> {
    pub(crate) fn new(headers: Option<&'s Headers<A>>) -> Scribe<'s, A> {
        Scribe {
            headers,
            asked: None,
        }
    }

    /// The order was answered after so many scans.
    pub(crate) fn note(&mut self, at: u64, reply: Option<Reply>) {
        let asked = self.asked.take();
        if let (Some(headers), Some(rules), Some(Reply::SetRules(true))) = (
            self.headers,
            asked,
            reply,
        ) {
            headers.note(Set {
                from: at,
                rules: rules.ok(),
            });
        }
    }
}

impl<A: Allocator + Copy> Scribe<'_, A> {
    /// This order is handed out.
    pub(crate) fn hear(&mut self, order: &Order<A>) {
        self.asked = match (self.headers, order) {
            (Some(_), Order::SetRules(rules)) => Some(rules.try_clone()),
            _ => None,
        };
    }
}
