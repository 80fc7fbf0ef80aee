//! The operator's lines, from a FIFO or a growing file.

ghost use Rattle.std.specs.Prelude.{◌≡◌, ◌<◌, ◌↔◌, false, IsTrue};
ghost use Rattle.dfrd.specs.declared.operator.Turn.TheVariants as turn;

use crate::outcome::{FileFault, Reason, complain, reason_of};
use crate::place::{Identity, identity_of};
use rtrb::Producer;
use std::alloc::{AllocError, Global};
use std::fs::{File, OpenOptions};
use std::io::{ErrorKind, Read, Seek, SeekFrom, Write};
use std::os::unix::fs::FileTypeExt;
use std::rt::Files;
use std::sync::{Arc, Mutex, Wait};
use std::time::{Clock, Duration};
use std::{fs, io, thread};

/// The most bytes of an operator that may wait.
pub(crate) const WAITING: usize = 65_536;

/// How long the thread sleeps if nothing comes or the queue is full, in milliseconds.
const NAP: u64 = 50;

/// How long it waits after a read error, and how often a FIFO's name is looked at, in milliseconds.
const LOOK: u64 = 1_000;

/// The operator's file.
#[derive(Drop)]
pub(crate) struct Orders {
    file: File,
    identity: Identity,
    /// How many bytes of a file have been read or skipped.
    offset: u64,
    is_fifo: bool,
}

/// A second handle of a FIFO, to wake the thread that waits in a read of it.
#[derive(Drop)]
pub(crate) struct Ear {
    file: File,
    identity: Identity,
}

/// Whether the path is that of a FIFO.
fn is_fifo<R: Files>(rt: &R, path: &str) -> bool {
    match fs::metadata(rt, path) {
        Ok(metadata) => metadata.file_type().is_fifo(),
        Err(_) => false,
    }
}

/// Opens a file for reading and writing, so that a FIFO doesn't end when a writer closes it. Opens
/// a file that can't be written for reading alone. A FIFO is refused then: opening it would wait
/// for a writer.
fn open_both<R: Files<File = File>>(rt: &R, path: &str) -> io::Result<File> {
    match OpenOptions::new().read(true).write(true).open(rt, path) {
        Ok(file) => Ok(file),
        Err(error) => {
            if is_fifo(rt, path) {
                Err(error)
            } else {
                File::open(rt, path)
            }
        }
    }
}

/// Opens the operator's file. With `at_end` lines that are already in it are ignored. A folder is
/// refused.
pub(crate) fn open_orders<R: Files<File = File>>(
    rt: &R,
    path: &str,
    at_end: bool,
) -> io::Result<Orders> {
    let mut file = open_both(rt, path)?;
    let metadata = file.metadata()?;
    if metadata.is_dir() {
        return Err(io::Error::from(ErrorKind::IsADirectory));
    }
    let offset = if at_end && metadata.is_file() {
        file.seek(SeekFrom::End(0))?
    } else {
        0
    };
    Ok(Orders {
        file,
        identity: identity_of(&metadata),
        offset,
        is_fifo: metadata.file_type().is_fifo(),
    })
}

/// What became of a file whose end was read.
#[derive(Clone, Copy, Debug, PartialEq, Eq)]
enum Turn {
    /// It may grow.
    Same,
    /// It was cut: it is read from its beginning.
    Cut,
    /// Another file has its name: that one is read from its beginning.
    Other,
}

/// What became of a file that was read up to `offset`, if the file that has its name now has this
/// size; `is_same` says whether it is the same one.
fn turn_of(is_same: bool, size: u64, offset: u64) -> Turn
    ensures other { (result ≡ turn.Other) ↔ (is_same ≡ false) }
    ensures cut { (result ≡ turn.Cut) ↔ (IsTrue is_same × (size < offset)) }
{
    if !is_same {
        Turn::Other
    } else if size < offset {
        Turn::Cut
    } else {
        Turn::Same
    }
}

/// What became of the operator's file. While no file has its name it may grow.
fn turn_at<R: Files>(rt: &R, path: &str, orders: &Orders) -> Turn {
    match fs::metadata(rt, path) {
        Ok(metadata) => {
            let is_same = identity_of(&metadata) == orders.identity;
            if is_same && orders.is_fifo {
                Turn::Same
            } else {
                turn_of(is_same, metadata.len(), orders.offset)
            }
        }
        Err(_) => Turn::Same,
    }
}

/// Puts the bytes into the queue; waits while it is full.
fn send<R: Wait + Clock>(rt: &R, bytes: &mut Producer<u8>, piece: &[u8]) {
    for b in piece {
        for _ in rt.forever() {
            if bytes.push(*b).is_ok() {
                break;
            }
            thread::sleep(rt, Duration::from_millis(NAP));
        }
    }
}

/// Gives the thread that wakes this one a handle of the FIFO, and takes back that of another.
fn lend<R: Wait>(rt: &R, orders: &Orders, ear: &Mutex<Option<Ear>>) {
    let mut held = ear.lock(rt);
    *held = None;
    if orders.is_fifo
        && let Ok(file) = orders.file.try_clone()
    {
        *held = Some(Ear {
            file,
            identity: orders.identity,
        });
    }
}

/// The operator's file, as it is followed.
#[derive(Drop)]
pub(crate) struct Follower {
    path: String,
    orders: Orders,
    bytes: Producer<u8>,
    ear: Arc<Mutex<Option<Ear>>, Global>,
    /// Why the file could not be read last.
    reported: Option<Reason>,
}

/// What wakes the thread that follows a FIFO.
#[derive(Drop)]
pub(crate) struct Waker {
    path: String,
    ear: Arc<Mutex<Option<Ear>>, Global>,
}

/// What follows the operator's file with this path, and what wakes it.
pub(crate) fn follower_of(
    alloc: Global,
    path: &str,
    orders: Orders,
    bytes: Producer<u8>,
) -> Result<(Follower, Waker), AllocError> {
    let ear = Arc::new(alloc, Mutex::new(None))?;
    let waker = Waker {
        path: String::from_str(alloc, path)?,
        ear: Arc::try_clone(&ear)?,
    };
    let follower = Follower {
        path: String::from_str(alloc, path)?,
        orders,
        bytes,
        ear,
        reported: None,
    };
    Ok((follower, waker))
}

impl Follower {
    /// Reports a read error, once for each reason, and waits.
    fn report<R: Eprint + AllocGlobal + Clock>(&mut self, rt: &R, error: &io::Error) {
        let reason = reason_of(error);
        if self.reported != Some(reason) {
            self.reported = Some(reason);
            let _ = complain(rt, self.path.as_str(), FileFault::Read(reason));
        }
        thread::sleep(rt, Duration::from_millis(LOOK));
    }

    /// Opens the file that has the name now, and reads it from its beginning. A line of the other
    /// file that was begun is ended.
    fn reopen<R: Files<File = File> + Eprint + AllocGlobal + Wait + Clock>(&mut self, rt: &R) {
        match open_orders(rt, self.path.as_str(), false) {
            Ok(orders) => {
                self.orders = orders;
                lend(rt, &self.orders, &self.ear);
                send(rt, &mut self.bytes, b"\n");
            }
            Err(error) => self.report(rt, &error),
        }
    }

    /// Goes on after the end of the file was read.
    fn turn<R: Files<File = File> + Eprint + AllocGlobal + Wait + Clock>(&mut self, rt: &R) {
        match turn_at(rt, self.path.as_str(), &self.orders) {
            Turn::Same => thread::sleep(rt, Duration::from_millis(NAP)),
            Turn::Cut | Turn::Other => self.reopen(rt),
        }
    }

    /// Puts what an operator writes into the queue, as it comes.
    pub(crate) fn follow<R: Files<File = File> + Eprint + AllocGlobal + Wait + Clock>(
        &mut self,
        rt: &R,
    ) {
        lend(rt, &self.orders, &self.ear);
        let mut piece = [0u8; 4_096];
        for _ in rt.forever() {
            match self.orders.file.read(&mut piece) {
                Ok(0) => self.turn(rt),
                Ok(count) => {
                    self.reported = None;
                    self.orders.offset = self.orders.offset.saturating_add(count as u64);
                    send(rt, &mut self.bytes, piece.get(..count).unwrap_or(&[]));
                    if self.orders.is_fifo
                        && turn_at(rt, self.path.as_str(), &self.orders) == Turn::Other
                    {
                        self.reopen(rt);
                    }
                }
                Err(error) => {
                    self.report(rt, &error);
                    self.turn(rt);
                }
            }
        }
    }
}

/// Writes an empty line into a FIFO that has lost its name to another file, so that the thread that
/// waits in a read of it wakes and opens the other one.
fn wake_one<R: Files>(rt: &R, path: &str, ear: &mut Ear) {
    if let Ok(metadata) = fs::metadata(rt, path)
        && identity_of(&metadata) != ear.identity
    {
        let _ = ear.file.write(b"\n");
    }
}

impl Waker {
    /// Looks each second whether the operator's FIFO still has its name.
    pub(crate) fn wake<R: Files + Wait + Clock>(&self, rt: &R) {
        for _ in rt.forever() {
            thread::sleep(rt, Duration::from_millis(LOOK));
            let mut held = self.ear.lock(rt);
            if let Some(ear) = &mut *held {
                wake_one(rt, self.path.as_str(), ear);
            }
        }
    }
}
