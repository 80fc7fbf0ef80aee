//! A folder in memory whose power may be cut at any call, and whose calls may fail. Until its names
//! are synced, a crash undoes each write, rename and removal or leaves it, each by itself. Until a
//! file is synced, its bytes may be any.

use crate::chance::Chance;
use crate::files::{Files, bytes_at, copy_of, remove, rename, spoiled, write};
use dfr_folder::{Fault, Name, Seen, System};
use std::alloc::{AllocError, Global};

/// A change that a crash may undo, or a sync of a file's bytes.
#[derive(Drop)]
enum Change {
    Write(Name, Vec<u8>),
    Sync(Name, Vec<u8>),
    Rename(Name, Name),
    Remove(Name),
}

/// What becomes of a call.
#[derive(Clone, Copy, PartialEq, Eq)]
enum Answer {
    Done,
    /// It fails. A crash may show it done.
    Fails,
    /// There is no power.
    Off,
}

/// A disk.
#[derive(Drop)]
pub struct Disk {
    alloc: Global,
    /// What a program sees.
    pub now: Files,
    /// What there was when the names were synced last.
    firm: Files,
    /// What was done since.
    loose: Vec<Change>,
    /// How many calls are left until the power is cut; the last of them is cut off.
    pub left: u64,
    /// One call in so many fails; 0: none does.
    pub odds: u64,
    pub chance: Chance,
}

impl Disk {
    /// A disk that has these files.
    pub fn of(alloc: Global, files: Files, chance: Chance) -> Result<Disk, AllocError> {
        let firm = copy_of(alloc, &files)?;
        Ok(Disk {
            alloc,
            now: files,
            firm,
            loose: Vec::new(alloc),
            left: u64::MAX,
            odds: 0,
            chance,
        })
    }

    /// What becomes of the next call.
    fn answer(&mut self) -> Answer {
        if self.left == 0 {
            return Answer::Off;
        }
        self.left -= 1;
        if self.left == 0 || (self.odds != 0 && self.chance.below(self.odds) == 0) {
            return Answer::Fails;
        }
        Answer::Done
    }

    /// Notes a change that a crash may undo.
    fn note(&mut self, change: Change) -> Result<(), Fault> {
        match self.loose.push(change) {
            Ok(()) => Ok(()),
            Err(_) => Err(Fault::Memory),
        }
    }

    /// The files that a crash leaves, one of all that it may leave.
    pub fn crash(&self, chance: &mut Chance) -> Result<Files, AllocError> {
        let alloc = self.alloc;
        let mut left = Vec::new(alloc);
        for file in &self.firm {
            if file.synced {
                write(&mut left, file.name, file.bytes.to_vec(alloc)?, true)?;
            } else if chance.below(4) != 0 {
                let bytes = spoiled(alloc, chance, &file.bytes)?;
                write(&mut left, file.name, bytes, true)?;
            }
        }
        for change in &self.loose {
            match change {
                Change::Write(name, bytes) => {
                    if chance.coin() {
                        let bytes = spoiled(alloc, chance, bytes)?;
                        write(&mut left, *name, bytes, true)?;
                    }
                }
                Change::Sync(name, bytes) => {
                    if bytes_at(&left, *name).is_some() {
                        write(&mut left, *name, bytes.to_vec(alloc)?, true)?;
                    }
                }
                Change::Rename(from, to) => {
                    if chance.coin() {
                        rename(&mut left, *from, *to);
                    }
                }
                Change::Remove(name) => {
                    if chance.coin() {
                        remove(&mut left, *name);
                    }
                }
            }
        }
        Ok(left)
    }
}

impl System for Disk {
    fn list(&mut self, alloc: Global) -> Result<Vec<Seen>, Fault> {
        if self.answer() != Answer::Done {
            return Err(Fault::Failed);
        }
        let mut seen = Vec::new(alloc);
        for file in &self.now {
            let one = Seen {
                name: file.name,
                synced: file.synced,
            };
            if seen.push(one).is_err() {
                return Err(Fault::Memory);
            }
        }
        Ok(seen)
    }

    fn write(&mut self, name: Name, bytes: &[u8]) -> Result<(), Fault> {
        let answer = self.answer();
        if answer == Answer::Off {
            return Err(Fault::Failed);
        }
        let (Ok(noted), Ok(seen)) = (bytes.to_vec(self.alloc), bytes.to_vec(self.alloc)) else {
            return Err(Fault::Memory);
        };
        self.note(Change::Write(name, noted))?;
        if answer == Answer::Done {
            return match write(&mut self.now, name, seen, false) {
                Ok(()) => Ok(()),
                Err(_) => Err(Fault::Memory),
            };
        }
        let Ok(part) = spoiled(self.alloc, &mut self.chance, bytes) else {
            return Err(Fault::Memory);
        };
        match write(&mut self.now, name, part, false) {
            Ok(()) => Err(Fault::Full),
            Err(_) => Err(Fault::Memory),
        }
    }

    fn sync(&mut self, name: Name) -> Result<(), Fault> {
        if self.answer() != Answer::Done {
            return Err(Fault::Failed);
        }
        let Some(bytes) = bytes_at(&self.now, name) else {
            return Err(Fault::Failed);
        };
        let (Ok(noted), Ok(seen)) = (bytes.to_vec(self.alloc), bytes.to_vec(self.alloc)) else {
            return Err(Fault::Memory);
        };
        self.note(Change::Sync(name, noted))?;
        match write(&mut self.now, name, seen, true) {
            Ok(()) => Ok(()),
            Err(_) => Err(Fault::Memory),
        }
    }

    fn rename(&mut self, from: Name, to: Name) -> Result<(), Fault> {
        let answer = self.answer();
        if answer == Answer::Off {
            return Err(Fault::Failed);
        }
        self.note(Change::Rename(from, to))?;
        match answer {
            Answer::Done => {
                rename(&mut self.now, from, to);
                Ok(())
            }
            _ => Err(Fault::Failed),
        }
    }

    fn remove(&mut self, name: Name) -> Result<(), Fault> {
        let answer = self.answer();
        if answer == Answer::Off {
            return Err(Fault::Failed);
        }
        self.note(Change::Remove(name))?;
        match answer {
            Answer::Done => {
                remove(&mut self.now, name);
                Ok(())
            }
            _ => Err(Fault::Failed),
        }
    }

    fn sync_names(&mut self) -> Result<(), Fault> {
        if self.answer() != Answer::Done {
            return Err(Fault::Failed);
        }
        match copy_of(self.alloc, &self.now) {
            Ok(firm) => {
                self.firm = firm;
                self.loose.clear();
                Ok(())
            }
            Err(_) => Err(Fault::Memory),
        }
    }
}
