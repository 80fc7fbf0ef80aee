//! What the threads beside the recording begin with. They end with the program.

ghost use Rattle.std.specs.Prelude.{◌<◌};

use crate::capture::{Bus, bus_lines};
use crate::feed::{Fed, Feeder, feed_of};
use crate::outcome::{complain, out_of_memory};
use dfr_station::{Control, RunFault};
use std::sync::{Arc, Wait};
use std::thread::{JoinHandle, SpawnError};
use std::time::Clock;

/// Whether a thread was started. If not, that is printed.
pub(crate) fn has_begun<R: Eprint + AllocGlobal, T: Drop, F: Drop>(
    rt: &R,
    thread: Result<JoinHandle<T>, SpawnError<F>>,
) -> bool {
    match thread {
        Ok(_) => true,
        Err(_) => {
            complain(rt, "recording", RunFault::Thread);
            false
        }
    }
}

/// A copy of the runtime for a thread. None if there is no memory, which is printed.
pub(crate) fn copy_of<R: Eprint + Clone>(rt: &R) -> Option<R> {
    match rt.clone() {
        Ok(copy) => Some(copy),
        Err(_) => {
            out_of_memory(rt);
            None
        }
    }
}

/// An input that an operator may end, and what the thread works on that reads it. `size` is that of
/// the input's pieces, if it has any. None if there is no memory, which is printed.
pub(crate) fn fed_of<'a, R: Eprint + AllocGlobal>(
    rt: &'a R,
    control: &Control,
    has_pieces: bool,
    size: usize,
) -> Option<(Feeder, Fed<'a, R>)>
    requires sized { 0 < size }
{
    let Ok(stop) = Arc::try_clone(&control.stop) else {
        out_of_memory(rt);
        return None;
    };
    match feed_of(rt, stop, has_pieces, size) {
        Ok(both) => Some(both),
        Err(_) => {
            out_of_memory(rt);
            None
        }
    }
}

/// Reads standard input to its end: as it comes, or the lines of a capture.
pub(crate) fn read_input<R: Input + Eprint + AllocGlobal + Wait + Clock>(
    rt: &R,
    feeder: &mut Feeder,
    bus: Option<Bus>,
) {
    match bus {
        None => feeder.read_all(rt, &mut rt.reader()),
        Some(bus) => match bus_lines(rt, bus, rt.reader()) {
            Some(mut lines) => feeder.read_all(rt, &mut lines),
            None => feeder.break_off(),
        },
    }
}
