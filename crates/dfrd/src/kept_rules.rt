//! An operator's rules are kept in the file that a line `rules @PATH` of the set-up names: written
//! under another name, synced and renamed, so that whoever starts with it has the old rules or the
//! new ones.

use crate::disk::{sync_folder, written};
use crate::outcome::{FileFault, Reason, complain, reason_of};
use comtrade_values::{put, trim};
use dfr_station::NewRules;
use std::alloc::{AllocError, Global};
use std::fs::File;
use std::rt::Files;
use std::sync::{Arc, Mutex, Wait};
use std::time::{Clock, Duration};
use std::{fs, io, thread};

/// How often new rules are looked for, in milliseconds.
const LOOK: u64 = 100;

/// After how many looks a file that could not be written is tried again.
const AGAIN: u32 = 10;

/// The file, and the rules that go there.
#[derive(Drop)]
pub(crate) struct KeptRules {
    path: String,
    /// The path while it is written.
    part: String,
    /// The folder that it is in.
    folder: String,
    new: Arc<NewRules, Global>,
    /// The text that could not be written yet.
    text: Option<Vec<u8>>,
    /// How many looks it is until that is tried again.
    pause: u32,
    /// Why it could not be written last.
    reported: Option<Reason>,
}

/// The folder of a path.
fn folder_of(alloc: Global, path: &str) -> Result<String, AllocError> {
    match path.rsplit_once('/') {
        None => String::from_str(alloc, "."),
        Some(("", _)) => String::from_str(alloc, "/"),
        Some((folder, _)) => String::from_str(alloc, folder),
    }
}

/// The text of a file with these rules: a line for each.
fn text_of(alloc: Global, words: &[u8]) -> Result<Vec<u8>, AllocError> {
    let mut text = Vec::new(alloc);
    put(&mut text, "# set by an operator, written by dfrd\n")?;
    for rule in words.split(|b| *b == b';') {
        text.extend_from_slice(trim(rule))?;
        text.push(b'\n')?;
    }
    Ok(text)
}

/// Writes a file under the name `part`, syncs it and renames it; then syncs the folder.
fn write_renamed<R: Files<File = File>>(
    rt: &R,
    part: &str,
    path: &str,
    folder: &str,
    bytes: &[u8],
) -> io::Result<()> {
    written(rt, part, bytes)?.sync_all()?;
    fs::rename(rt, part, path)?;
    sync_folder(rt, folder)
}

impl KeptRules {
    /// Reports why rules can't be written, once for each reason.
    fn report<R: Eprint + AllocGlobal>(&mut self, rt: &R, reason: Reason) {
        if self.reported != Some(reason) {
            self.reported = Some(reason);
            let _ = complain(rt, self.path.as_str(), FileFault::Written(reason));
        }
    }

    /// Takes the rules that were set since the last look.
    fn take_new<R: Eprint + AllocGlobal + Wait>(&mut self, rt: &R) {
        let taken = match self.new.take(rt) {
            Ok(None) => return,
            Ok(Some(words)) => text_of(rt.alloc(), &words),
            Err(_) => Err(AllocError),
        };
        self.pause = 0;
        match taken {
            Ok(text) => self.text = Some(text),
            Err(_) => {
                // what waits is older than the rules in force
                self.text = None;
                self.report(rt, Reason::Memory);
            }
        }
    }

    /// Writes what waits. If that fails, it waits on.
    fn write<R: Files<File = File> + Eprint + AllocGlobal>(&mut self, rt: &R) {
        let Some(text) = self.text.take() else {
            return;
        };
        let (part, path) = (self.part.as_str(), self.path.as_str());
        match write_renamed(rt, part, path, self.folder.as_str(), &text) {
            Ok(()) => self.reported = None,
            Err(error) => {
                self.text = Some(text);
                self.pause = AGAIN;
                self.report(rt, reason_of(&error));
            }
        }
    }

    /// Looks for new rules and writes them.
    fn look<R: Files<File = File> + Eprint + AllocGlobal + Wait>(&mut self, rt: &R) {
        self.take_new(rt);
        if self.pause > 0 {
            self.pause -= 1;
        } else {
            self.write(rt);
        }
    }
}

/// The file, for two threads.
pub(crate) type Shared = Arc<Mutex<KeptRules>, Global>;

/// The file with this path, once for each of two threads, and where rules are left that go there.
pub(crate) fn kept_rules_of(
    alloc: Global,
    path: &str,
) -> Result<(Shared, Shared, Arc<NewRules, Global>), AllocError> {
    let Ok(new) = Arc::new(alloc, NewRules::new()) else {
        return Err(AllocError);
    };
    let mut part = String::from_str(alloc, path)?;
    part.push_str(".part")?;
    let kept = KeptRules {
        path: String::from_str(alloc, path)?,
        part,
        folder: folder_of(alloc, path)?,
        new: Arc::try_clone(&new)?,
        text: None,
        pause: 0,
        reported: None,
    };
    let Ok(file) = Arc::new(alloc, Mutex::new(kept)) else {
        return Err(AllocError);
    };
    let other = Arc::try_clone(&file)?;
    Ok((file, other, new))
}

/// Writes the rules that an operator sets, within a tenth of a second.
pub(crate) fn keep_rules<R: Files<File = File> + Eprint + AllocGlobal + Wait + Clock>(
    rt: &R,
    file: &Mutex<KeptRules>,
) {
    for _ in rt.forever() {
        file.lock(rt).look(rt);
        thread::sleep(rt, Duration::from_millis(LOOK));
    }
}

/// Writes what an operator set last, at the end of the recording.
pub(crate) fn keep_last<R: Files<File = File> + Eprint + AllocGlobal + Wait>(
    rt: &R,
    file: &Mutex<KeptRules>,
) {
    let mut held = file.lock(rt);
    held.take_new(rt);
    held.reported = None;
    held.write(rt);
}
