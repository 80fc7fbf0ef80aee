//! One read of the input.

ghost use Rattle.std.specs.Prelude.{◌<◌, length, take};
ghost use Rattle.dfr_station.specs.Input as spec;

use std::io::{ErrorKind, Read};
use std::sync::Wait;
use std::thread;
use std::time::{Clock, Duration};

/// How long the thread sleeps before it repeats a read that would block, in milliseconds.
const NAP: u64 = 5;

/// What a read of the input gave.
#[derive(Clone, Copy, Debug, PartialEq, Eq)]
pub(crate) enum Given {
    /// So many bytes, at least one.
    Bytes(usize),
    /// The input has ended.
    End,
    /// The input can't be read any more.
    Broken,
}

impl Given {
    ghost use Rattle.std.specs.Prelude.{◌≡◌};

    /// How many bytes it gave.
    pub(crate) fn count(self) -> usize
        ensures { result ≡ spec.count_of self }
    {
        match self {
            Given::Bytes(count) => count,
            Given::End | Given::Broken => 0,
        }
    }
}

/// Reads bytes into the room, at least one unless the input has ended. A read that a signal
/// interrupted is repeated at once; one that would block is repeated after a nap.
pub(crate) fn read_some<I: Read, R: Wait + Clock>(rt: &R, input: &mut I, room: &mut [u8]) -> Given
    requires { 0 < length room.old }
    ensures { spec.Reads (I.remaining input.old) result (I.remaining input.new)
        (take (spec.count_of result) room.new) }
{
    for _ in rt.forever() {
        match input.read(room) {
            Ok(0) => return Given::End,
            Ok(count) => return Given::Bytes(count),
            Err(error) => match error.kind() {
                ErrorKind::Interrupted => {}
                ErrorKind::WouldBlock => thread::sleep(rt, Duration::from_millis(NAP)),
                _ => return Given::Broken,
            },
        }
    }
    Given::Broken
}
