//! Keeps ids distinct that would become equal when they are spelled in ASCII or shortened.

use crate::fault::{ImportFault, Why};
use crate::key::Key;
use crate::lines::at;
use crate::note::{Notes, Place};
use crate::spelled::numbered;
use crate::text::without_nuls;
use comtrade_values::Items;
use std::alloc::Allocator;
use std::collections::BTreeMap;

/// The ids so far, each with the text that it came from.
#[derive(Drop)]
pub(crate) struct Ids<'a, A: Allocator> {
    seen: BTreeMap<Vec<u8, A>, &'a [u8], A>,
    /// The least number that was not appended yet.
    next: u64,
}

/// The number of bytes of an id.
const MOST: usize = 64;

impl<'a, A: Allocator + Copy> Ids<'a, A> {
    pub(crate) fn new(alloc: A) -> Ids<'a, A> {
        Ids {
            seen: BTreeMap::new(alloc),
            next: 1,
        }
    }

    /// Takes an id for a text. Returns whether no other text has it.
    fn takes(&mut self, alloc: A, id: &[u8], text: &'a [u8]) -> Result<bool, ImportFault> {
        let id = Vec::from_slice(alloc, id)?;
        let owner = self.seen.entry(id)?.or_insert(text);
        Ok(*owner == text)
    }

    /// Appends a number to an id if the id of another text is the same. `place` is the line and
    /// the channel's number. Where texts are kept, ids are as different as they are in the files.
    pub(crate) fn set_apart(
        &mut self,
        notes: &mut Notes<A>,
        id: &mut Items<u8, A>,
        text: &'a [u8],
        place: (u64, u64),
    ) -> Result<(), ImportFault> {
        if notes.keeps_texts() {
            return Ok(());
        }
        let alloc = notes.allocator();
        let text = without_nuls(text);
        if self.takes(alloc, id.items(), text)? {
            return Ok(());
        }
        for number in self.next.max(place.1)..u64::MAX {
            let Some(other) = numbered(alloc, id.items(), MOST, number)? else {
                break;
            };
            if self.takes(alloc, &other, text)? {
                notes.tell_change(Key::IdsAlike, Place::Cfg(place.0), text, &other)?;
                self.next = number + 1;
                *id = Items::of(other);
                return Ok(());
            }
        }
        Err(at(place.0, Why::ManyChannels))
    }
}
