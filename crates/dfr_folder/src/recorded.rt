//! A folder that keeps a list of its calls, of which only proofs know.

ghost use Rattle.std.specs.Prelude.{◌≡◌, ◌⊎◌, ℕ, List, [], length, true, All, IfOk};
ghost use Rattle.std.proofs.Common.{inl};
ghost use Rattle.dfr_folder.specs.Events.{files_of, left, left_since, only_now, failed};

use crate::call::Call;
use crate::directory::{Directory, Fault};
use crate::log::Log;
use crate::name::{Key, Name, Names, Seen};
use crate::seen::{
    Found, are_synced_in, found_in, leftovers_in, names_in, remove_in, rename_in, sync_in, write_in,
};
use crate::system::{Start, System};
use std::alloc::Global;
use std::marker::PhantomData;

/// A folder with its calls so far. What a crash may leave is read off them (`specs/Events.antt`),
/// so it is a directory by their record, whatever the system answers.
#[derive(Drop)]
pub struct Recorded<C, S> {
    system: C,
    names: Vec<Seen>,
    log: Log,
    start: PhantomData<S>,
}

impl<C: System, S: Start> Recorded<C, S> {
    ghost use Rattle.dfr_folder.specs.Opened.{names_of, log_of, opened_log};

    /// Opens a folder: lists its files, and syncs those whose bytes may not be on the disk. Returns
    /// whether all are. After an error hands the folder back.
    pub(crate) fn open(alloc: Global, mut system: C) -> Result<(Recorded<C, S>, bool), (Fault, C)>
        ensures synced { IfOk result (λ o. o.1 ≡ true
            → All (λ seen. seen.synced ≡ true) (names_of o.0)) }
        ensures begins { IfOk result (λ o. log_of o.0 ≡ []) }
    {
        match found_in(alloc, &mut system) {
            Ok(Found { names, are_synced }) => {
                let opened = Recorded {
                    system,
                    names,
                    log: Log::new(),
                    start: PhantomData,
                };
                Ok((opened, are_synced))
            }
            Err(fault) => Err((fault, system)),
        }
    }

    /// Notes that the folder is opened: a failure, if the bytes of a file could not be synced then.
    pub(crate) fn note_opened(&mut self, are_synced: bool)
        ensures log { log_of self.new ≡ opened_log are_synced (names_of self.old) (log_of self.old) }
        ensures names { names_of self.new ≡ names_of self.old }
    {
        if !are_synced {
            self.log.note(&[Call::Failed], &self.names, &[]);
        }
    }

    /// The folder.
    pub fn system(&self) -> &C {
        &self.system
    }

    /// The folder, to change what it notes of its own.
    pub fn into_system(self) -> C {
        let Recorded {
            system,
            names,
            log,
            start: _,
        } = self;
        drop(names);
        drop(log);
        system
    }
}

impl<C: System, S: Start> Directory for Recorded<C, S> {
    ghost files = { λ d. files_of S.bytes d.names.items d.log.calls };

    ghost may_leave = { λ d. left S.bytes S.may_leave d.log.calls };

    ghost moment = { λ d. length d.log.calls };

    ghost left_since = { λ start d. left_since S.bytes S.may_leave (length start.log.calls) d.log.calls };

    ghost failures = { λ d. failed d.log.calls };

    fn write(&mut self, name: Name, bytes: &[u8]) -> Result<(), Fault> {
        match write_in(&mut self.system, &mut self.names, name, bytes) {
            Ok(()) => {
                self.log.note(&[Call::Wrote(name)], &self.names, bytes);
                Ok(())
            }
            Err(fault) => {
                self.log
                    .note(&[Call::WroteInPart(name)], &self.names, bytes);
                Err(fault)
            }
        }
    }

    fn sync(&mut self, name: Name, bytes: &[u8]) -> Result<(), Fault> {
        match sync_in(&mut self.system, &mut self.names, name) {
            Ok(()) => {
                self.log.note(&[Call::Synced(name)], &self.names, bytes);
                Ok(())
            }
            Err(fault) => {
                self.log.note(&[Call::Failed], &self.names, &[]);
                Err(fault)
            }
        }
    }

    fn rename(&mut self, from: Name, to: Name) -> Result<(), Fault> {
        match rename_in(&mut self.system, &mut self.names, from, to) {
            Ok(()) => {
                self.log.note(&[Call::Renamed(from, to)], &self.names, &[]);
                Ok(())
            }
            Err(fault) => {
                self.log
                    .note(&[Call::NotRenamed(from, to)], &self.names, &[]);
                Err(fault)
            }
        }
    }

    fn remove(&mut self, name: Name) -> Result<(), Fault> {
        match remove_in(&mut self.system, &mut self.names, name) {
            Ok(()) => {
                self.log.note(&[Call::Removed(name)], &self.names, &[]);
                Ok(())
            }
            Err(fault) => {
                self.log.note(&[Call::NotRemoved(name)], &self.names, &[]);
                Err(fault)
            }
        }
    }

    fn sync_names(&mut self) -> Result<(), Fault> {
        match self.system.sync_names() {
            Ok(()) => {
                self.log.note(&[Call::SyncedNames], &self.names, &[]);
                Ok(())
            }
            Err(fault) => {
                self.log.note(&[Call::Failed], &self.names, &[]);
                Err(fault)
            }
        }
    }

    fn look(&mut self, key: Key) -> Result<Names, Fault> {
        let names = names_in(&self.names, key);
        self.log.note(&[Call::Looked], &self.names, &[]);
        Ok(names)
    }

    fn are_synced(&mut self, key: Key) -> Result<bool, Fault> {
        let are = are_synced_in(&self.names, key);
        self.log.note(&[Call::Looked], &self.names, &[]);
        Ok(are)
    }

    fn leftovers(&mut self, alloc: Global) -> Result<Vec<Key>, Fault> {
        match leftovers_in(alloc, &self.names) {
            Ok(keys) => {
                self.log.note(&[Call::Looked], &self.names, &[]);
                Ok(keys)
            }
            Err(_) => {
                self.log.note(&[Call::Failed], &self.names, &[]);
                Err(Fault::Memory)
            }
        }
    }

    ghost counts_now = { λ start d c later now. inl now };

    ghost only_now = { λ d c since. only_now S.bytes S.may_leave d.log.calls c since };
}
