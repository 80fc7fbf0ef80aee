//! The file of a recording's health. It is written anew every ten seconds, under another name that
//! it then loses, so that who reads it finds a whole one.

use crate::heard::{Heard, Known};
use crate::outcome::{FileFault, Reason, complain, reason_of};
use comtrade_io::VERSION;
use dfr_health::{Health, put_health};
use std::alloc::{AllocError, Global};
use std::fs::File;
use std::io::Write;
use std::rt::Files;
use std::sync::{Arc, Mutex, Wait};
use std::time::{Clock, Duration};
use std::{fs, io, thread};

/// How long it is until the file is written again, in seconds.
const PAUSE: u64 = 10;

/// The file, and what is known.
#[derive(Drop)]
pub(crate) struct HealthFile {
    path: String,
    /// The path while it is written.
    part: String,
    heard: Arc<Heard, Global>,
    /// The size of a frame, if the input has frames.
    frame: Option<usize>,
    /// The station's name, as the value of a label.
    station: Vec<u8>,
    text: Vec<u8>,
    /// Why it could not be written last.
    reported: Option<Reason>,
}

/// The file, for two threads.
pub(crate) type Shared = Arc<Mutex<HealthFile>, Global>;

/// The file with this path.
fn health_file_of(
    alloc: Global,
    path: &str,
    heard: &Arc<Heard, Global>,
    frame: Option<usize>,
    station: &[u8],
) -> Result<Shared, AllocError> {
    let mut part = String::from_str(alloc, path)?;
    part.push_str(".part")?;
    let file = HealthFile {
        path: String::from_str(alloc, path)?,
        part,
        heard: Arc::try_clone(heard)?,
        frame,
        station: Vec::from_slice(alloc, station)?,
        text: Vec::new(alloc),
        reported: None,
    };
    match Arc::new(alloc, Mutex::new(file)) {
        Ok(file) => Ok(file),
        Err(_) => Err(AllocError),
    }
}

/// What is known, and the file, if there is a path: one for the thread that keeps it written, and
/// one for the end.
pub(crate) fn health_of(
    alloc: Global,
    path: Option<&str>,
    frame: Option<usize>,
    station: &[u8],
) -> Result<(Arc<Heard, Global>, Option<(Shared, Shared)>), AllocError> {
    let heard = Heard::new(alloc)?;
    let Some(path) = path else {
        return Ok((heard, None));
    };
    let file = health_file_of(alloc, path, &heard, frame, station)?;
    let other = Arc::try_clone(&file)?;
    Ok((heard, Some((file, other))))
}

/// The version, without the toolchain's.
pub(crate) fn version() -> &'static str {
    match VERSION.split_once(' ') {
        Some((version, _)) => version,
        None => VERSION,
    }
}

/// Writes a file under the name `part` and renames it.
fn write_renamed<R: Files<File = File>>(
    rt: &R,
    part: &str,
    path: &str,
    bytes: &[u8],
) -> io::Result<()> {
    let mut file = File::create(rt, part)?;
    file.write_all(bytes)?;
    fs::rename(rt, part, path)
}

impl HealthFile {
    /// Writes what is known now.
    fn written<R: Files<File = File> + Wait + Clock>(&mut self, rt: &R) -> Result<(), Reason> {
        let Known {
            standing,
            scans,
            age,
        } = self.heard.known(rt, self.frame);
        let health = Health {
            station: self.station.as_slice(),
            version: version(),
            standing,
            scans,
            age: age.and_then(|millis| millis.checked_mul(1_000)),
        };
        self.text.clear();
        if put_health(&mut self.text, &health).is_err() {
            return Err(Reason::Memory);
        }
        let (part, path) = (self.part.as_str(), self.path.as_str());
        match write_renamed(rt, part, path, &self.text) {
            Ok(()) => Ok(()),
            Err(error) => {
                let _ = fs::remove_file(rt, part);
                Err(reason_of(&error))
            }
        }
    }

    /// Writes what is known now. Reports why that fails, once for each reason.
    fn write<R: Files<File = File> + Eprint + AllocGlobal + Wait + Clock>(&mut self, rt: &R) {
        match self.written(rt) {
            Ok(()) => self.reported = None,
            Err(reason) => {
                if self.reported != Some(reason) {
                    self.reported = Some(reason);
                    let _ = complain(rt, self.path.as_str(), FileFault::Written(reason));
                }
            }
        }
    }
}

/// Writes the file now, and then every ten seconds.
pub(crate) fn keep_written<R: Files<File = File> + Eprint + AllocGlobal + Wait + Clock>(
    rt: &R,
    file: &Mutex<HealthFile>,
) {
    for _ in rt.forever() {
        file.lock(rt).write(rt);
        thread::sleep(rt, Duration::from_secs(PAUSE));
    }
}

/// Writes the file a last time. What the recording came to is known.
pub(crate) fn write_last<R: Files<File = File> + Eprint + AllocGlobal + Wait + Clock>(
    rt: &R,
    file: &Mutex<HealthFile>,
) {
    let mut held = file.lock(rt);
    held.heard.end(rt);
    held.write(rt);
}
