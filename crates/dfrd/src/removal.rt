//! Old pairs are removed, the oldest first. How many, `dfr_folder` decides.

ghost use Rattle.std.specs.Prelude.{◌≡◌, ◌⊎◌, IfOk, IfSome};
ghost use Rattle.std.specs.List.{remove};
ghost use Rattle.dfrd.specs.Oldest.{IsFirst, TakesOff};

use crate::folder::{Folder, Opened};
use crate::header_file::drop_header;
use crate::outcome::{FileFault, complain};
use crate::pair::{is_there, path_of};
use dfr_folder::{
    Directory, Ending, Keep, Key, Mended, Name, discard, is_full, is_short, mend, surplus,
};
use std::alloc::{AllocError, Global};
use std::fs::File;
use std::rt::Files;

/// How the removal of a pair went.
#[derive(Clone, Copy, Debug, PartialEq, Eq)]
enum Removal {
    /// It is removed.
    Done,
    /// It no longer existed, or a part of it is left that can't be removed.
    Missing,
    /// It can't be removed.
    Stuck,
}

/// The sizes of the pairs, in bytes.
fn sizes_of(alloc: Global, pairs: &[(Key, u64)]) -> Result<Vec<u64>, AllocError> {
    let mut sizes = Vec::new(alloc);
    for (_, size) in pairs {
        sizes.push(*size)?;
    }
    Ok(sizes)
}

/// How many bytes were freed for this record until now.
fn given_for(given: Option<(Key, u64)>, record: Key) -> u64 {
    match given {
        Some((key, bytes)) if key == record => bytes,
        _ => 0,
    }
}

impl<'a, R: Files<File = File> + Eprint + AllocGlobal + Clone + Drop> Folder<'a, R> {
    /// How many of the oldest pairs have to be removed.
    fn surplus(&self) -> Result<usize, AllocError> {
        if let Keep::All = self.keep {
            return Ok(0);
        }
        let sizes = sizes_of(self.rt.alloc(), &self.pairs)?;
        Ok(surplus(self.keep, &sizes))
    }

    /// The oldest pair, if it has to be removed once there is a new one of this size.
    pub(crate) fn next_surplus(&self, size: u64) -> Result<Option<Key>, AllocError>
        ensures { IfOk result (λ next. IfSome next (λ key. IsFirst key self.now.pairs.items)) }
    {
        if let Keep::All = self.keep {
            return Ok(None);
        }
        let Some((oldest, _)) = self.pairs.first() else {
            return Ok(None);
        };
        let sizes = sizes_of(self.rt.alloc(), &self.pairs)?;
        Ok(is_full(self.keep, &sizes, size).then_some(*oldest))
    }

    /// Whether the folder has a configuration file of this key, as far as we know.
    fn is_named(opened: &mut Opened<'a, R>, key: Key) -> bool {
        match opened.look(key) {
            Ok(names) => names.cfg,
            Err(_) => true,
        }
    }

    /// Counts a pair that was removed. The count stops at the greatest number that it can have, as
    /// the metric of it does.
    fn count_removal(&mut self)
        ensures { self.new.pairs ≡ self.old.pairs }
    {
        self.removed = self.removed.saturating_add(1);
    }

    /// Notes that the oldest pair is gone, if it is.
    pub(crate) fn note_removal(&mut self, opened: &mut Opened<'a, R>, path: &str, oldest: Key)
        ensures { (self.new.pairs.items ≡ self.old.pairs.items)
            ⊎ (self.new.pairs.items ≡ remove self.old.pairs.items 0) }
    {
        if !Self::is_named(opened, oldest) && !self.pairs.is_empty() {
            self.pairs.remove(0);
            drop_header(self.rt, path, oldest);
            self.count_removal();
        }
    }

    /// How a removal went that failed. A pair that can't be removed is reported once.
    fn failed_removal(&mut self, opened: &mut Opened<'a, R>, path: &str, key: Key) -> Removal
        ensures { self.new.pairs ≡ self.old.pairs }
    {
        if !Self::is_named(opened, key) {
            return Removal::Missing;
        }
        if let Ok(false) = is_there(self.rt, path, key, Ending::Config) {
            return Removal::Missing;
        }
        if !opened.system().is_told() && !self.stuck.contains(&key) {
            let _ = self.stuck.push(key);
            let _ = complain(self.rt, path, FileFault::Removed(opened.system().reason()));
        }
        Removal::Stuck
    }

    /// Removes a pair. What is left of an earlier removal is removed first.
    fn removal_of(&mut self, opened: &mut Opened<'a, R>, path: &str, key: Key) -> Removal
        ensures { self.new.pairs ≡ self.old.pairs }
    {
        if !Self::is_named(opened, key) {
            return Removal::Missing;
        }
        if let Ok(true) = discard(opened, key) {
            return Removal::Done;
        }
        if let Ok(Mended::There) = mend(opened, key)
            && let Ok(true) = discard(opened, key)
        {
            return Removal::Done;
        }
        self.failed_removal(opened, path, key)
    }

    /// Removes the oldest pair that can be removed, from the index `from` on, but never the newest
    /// one, and drops it from the list. Returns its index, its name and its size, and whether it was
    /// there; or None if there is none.
    fn remove_next(
        &mut self,
        opened: &mut Opened<'a, R>,
        path: &str,
        from: usize,
    ) -> Option<(usize, Key, u64, bool)>
        ensures { TakesOff result self.old.pairs.items self.new.pairs.items }
    {
        let newest = self.pairs.len().checked_sub(1)?;
        for at in from..newest {
            let (key, size) = *self.pairs.get(at)?;
            let removal = self.removal_of(opened, path, key);
            if removal != Removal::Stuck && at < self.pairs.len() {
                self.pairs.remove(at);
                drop_header(self.rt, path, key);
                let was_there = removal == Removal::Done;
                if was_there {
                    self.count_removal();
                }
                return Some((at, key, size, was_there));
            }
        }
        None
    }

    /// Removes the oldest pairs if there are too many. Those that can't be removed are left out.
    pub(crate) fn remove_surplus(
        &mut self,
        opened: &mut Opened<'a, R>,
        path: &str,
    ) -> Result<(), AllocError> {
        let mut from = 0;
        for _ in 0..u64::MAX {
            let surplus = self.surplus()?;
            if surplus == 0 {
                return Ok(());
            }
            for _ in 0..surplus {
                match self.remove_next(opened, path, from) {
                    Some((at, _, _, _)) => from = at,
                    None => return Ok(()),
                }
            }
        }
        Ok(())
    }

    /// Reports a pair that was given up.
    fn report_given_up(&self, path: &str, key: Key) {
        let name = Name {
            key,
            ending: Ending::Config,
        };
        if let Ok(path) = path_of(self.rt.alloc(), path, name) {
            let _ = complain(self.rt, path.as_str(), FileFault::GivenUp);
        }
    }

    /// Gives up the oldest pair for a record of `size` bytes that the disk has no room for. Returns
    /// false if no pair is to be given up, or none can be removed.
    pub(crate) fn give_up(
        &mut self,
        opened: &mut Opened<'a, R>,
        path: &str,
        record: Key,
        size: u64,
    ) -> bool {
        let given = given_for(self.given, record);
        if matches!(self.keep, Keep::All) || !is_short(size, given) {
            return false;
        }
        match self.remove_next(opened, path, 0) {
            Some((_, key, freed, true)) => {
                // what is given is short of `size`, and a pair has at most 2^63 bytes
                self.given = given.checked_add(freed).map(|given| (record, given));
                self.report_given_up(path, key);
                true
            }
            // it freed nothing
            Some((_, _, _, false)) => true,
            None => false,
        }
    }
}
