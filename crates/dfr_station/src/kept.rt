//! An operator's rules, for whoever keeps them beyond this run.

use comtrade_values::Memory;
use std::alloc::{Allocator, Global};
use std::sync::atomic::{AtomicBool, Ordering};
use std::sync::{Mutex, Wait};

/// How often the trigger thread tries to leave rules. Who takes them has the lock for less than a
/// microsecond.
const TRIES: u32 = 1_000_000;

/// The rules that an operator set last, until they are taken.
#[derive(Drop)]
pub struct NewRules<A: Allocator = Global> {
    /// What stood behind the word `rules`. The error: there was no memory for it.
    words: Mutex<Option<Result<Vec<u8, A>, Memory>>>,
    /// Rules were set and could not be left.
    is_lost: AtomicBool,
}

impl<A: Allocator> NewRules<A> {
    /// No rules were set.
    pub fn new() -> NewRules<A> {
        NewRules {
            words: Mutex::new(None),
            is_lost: AtomicBool::new(false),
        }
    }

    /// Leaves the words of rules that were set, in place of older ones. It never waits.
    pub(crate) fn leave(&self, words: Result<Vec<u8, A>, Memory>) {
        for _ in 0..TRIES {
            if let Some(mut held) = self.words.try_lock() {
                *held = Some(words);
                return;
            }
        }
        drop(words);
        self.is_lost.store(true, Ordering::SeqCst);
    }

    /// The words of the rules that were set last, if that was after the call before. `Memory`: such
    /// rules were set, but there was no memory for their words.
    pub fn take<R: Wait>(&self, rt: &R) -> Result<Option<Vec<u8, A>>, Memory> {
        let words = self.words.lock(rt).take();
        if self.is_lost.swap(false, Ordering::SeqCst) {
            return Err(Memory);
        }
        match words {
            Some(words) => Ok(Some(words?)),
            None => Ok(None),
        }
    }
}
