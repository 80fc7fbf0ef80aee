//! A record's files are put under the first name that is free. What a failure left of a pair is completed
//! or removed before.

ghost use Rattle.std.specs.Prelude.{◌≡◌, ◌⊎◌, ◌++◌, ◌∷◌, []};

use crate::folder::{Folder, Opened};
use crate::header_file::{RecordFiles, drop_header};
use crate::outcome::{Reason, complain, reason_for, reason_of};
use crate::pair::size_of_pair;
use dfr_folder::{Keep, Key, Mended, Put, mend, put_for, put_or_mend};
use std::fs::File;
use std::rt::Files;

impl<'a, R: Files<File = File> + Eprint + AllocGlobal + Clone + Drop> Folder<'a, R> {
    /// Notes a new pair, unless all are kept.
    fn note_pair(&mut self, key: Key, size: u64)
        ensures { (self.new.pairs.items ≡ self.old.pairs.items)
            ⊎ (self.new.pairs.items ≡ self.old.pairs.items ++ (key, size) ∷ []) }
    {
        if !matches!(self.keep, Keep::All) {
            let _ = self.pairs.push((key, size));
        }
    }

    /// Reports why a pair can't be written, unless that was done for the last one.
    pub(crate) fn tell(&mut self, path: &str, reason: Reason) {
        if self.reported != Some(reason) {
            self.reported = Some(reason);
            let _ = complain(self.rt, path, reason);
        }
    }

    /// Completes or removes what is left of a pair that could not be written. Returns its key if it
    /// is that of this record, and is there now.
    fn take_up(
        &mut self,
        opened: &mut Opened<'a, R>,
        path: &str,
        record: Key,
    ) -> Result<Option<Key>, Reason> {
        let Some((of, key)) = self.pending else {
            return Ok(None);
        };
        let mended = match mend(opened, key) {
            Ok(mended) => mended,
            Err(fault) => return Err(reason_for(fault, opened.system().reason())),
        };
        // what is left then waits for the next start: the record gets another name
        self.pending = None;
        if mended != Mended::There {
            if self.has_headers {
                drop_header(self.rt, path, key);
            }
            return Ok(None);
        }
        let Ok(size) = size_of_pair(self.rt, path, key) else {
            return Err(Reason::Memory);
        };
        self.note_pair(key, size);
        Ok((of == record).then_some(key))
    }

    /// Writes a pair under this key, after its header. Returns false if the key is in use. If that
    /// fails, completes or removes what is left of it.
    fn put_under(
        &mut self,
        opened: &mut Opened<'a, R>,
        path: &str,
        (record, key): (Key, Key),
        RecordFiles { cfg, dat, header }: RecordFiles<'_>,
    ) -> Result<bool, Reason> {
        let size = cfg.len() as u64 + dat.len() as u64;
        let Ok(surplus) = self.next_surplus(size) else {
            return Err(Reason::Memory);
        };
        self.write_header(path, key, header);
        let put = match surplus {
            Some(oldest) => {
                let (put, _) = put_for(opened, key, cfg, dat, oldest);
                self.note_removal(opened, path, oldest);
                put
            }
            None => put_or_mend(opened, key, cfg, dat),
        };
        match put {
            Put::There => {}
            Put::Completed(fault) => self.tell(path, reason_for(fault, opened.system().reason())),
            Put::Taken => {
                self.take_header_back(path, key, header);
                return Ok(false);
            }
            Put::Failed(fault) => {
                self.take_header_back(path, key, header);
                return Err(reason_for(fault, opened.system().reason()));
            }
            Put::Left(fault) => {
                self.pending = Some((record, key));
                return Err(reason_for(fault, opened.system().reason()));
            }
        }
        self.note_pair(key, size);
        Ok(true)
    }

    /// Writes a record's pair under the first name that no pair has yet. Returns the name.
    pub(crate) fn put_free(
        &mut self,
        opened: &mut Opened<'a, R>,
        path: &str,
        record: Key,
        files: RecordFiles<'_>,
    ) -> Result<Key, Reason> {
        if let Some(key) = self.take_up(opened, path, record)? {
            return Ok(key);
        }
        for copy in 1..u64::MAX {
            let key = Key { copy, ..record };
            let is_free = match self.is_free_for(path, key, files) {
                Ok(is_free) => is_free,
                Err(error) => return Err(reason_of(&error)),
            };
            if is_free && self.put_under(opened, path, (record, key), files)? {
                return Ok(key);
            }
        }
        Err(Reason::Other)
    }
}
