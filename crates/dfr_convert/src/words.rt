//! An event of a frame in words. Streams, control blocks and contacts are counted from 1, as in the
//! set-up.

ghost use Rattle.std.specs.Prelude.{◌≡◌, ◌+◌};

use dfr_bay::Arrival;
use dfr_capture::Event;
use std::fmt::{self, Display, Formatter, Write};

/// An event, to be written for people.
#[derive(Clone, Copy, Debug)]
pub struct Words(pub Event);

/// The number of what is counted from 0.
fn number_of(n: usize) -> u128
    ensures { result ≡ n + 1 }
{
    n as u128 + 1
}

/// Writes what became of a unit of a stream.
fn write_arrival<W: Write>(f: &mut Formatter<W>, n: usize, arrival: Arrival) -> fmt::Result {
    let n = number_of(n);
    match arrival {
        Arrival::Taken(lost) => write!(f, "stream {n}: samples lost: {lost}"),
        Arrival::Restarted(lost) => {
            write!(
                f,
                "stream {n}: begins anew; samples lost: {lost}, or whole seconds more"
            )
        }
        Arrival::Repeated => write!(f, "stream {n}: a sample came twice"),
        Arrival::Late => write!(f, "stream {n}: a sample came late"),
        Arrival::Astray => write!(f, "stream {n}: a sample far from the others"),
        Arrival::Invalid => write!(f, "stream {n}: smpCnt is not below the rate"),
    }
}

impl Display for Words {
    fn fmt<W: Write>(&self, f: &mut Formatter<W>) -> fmt::Result {
        match self.0 {
            Event::Stream(n, arrival) => write_arrival(f, n, arrival),
            Event::Expired(n) => {
                let n = number_of(n);
                write!(f, "control block {n}: its time to live is over")
            }
            Event::Doubtful(n) => {
                let n = number_of(n);
                write!(
                    f,
                    "control block {n}: a test, simulated, or in commissioning"
                )
            }
            Event::StatesLost(n, lost) => {
                let n = number_of(n);
                write!(f, "control block {n}: states lost: {lost}")
            }
            Event::Back(n) => {
                let n = number_of(n);
                write!(f, "control block {n}: a state from before")
            }
            Event::NoState(n) => {
                let n = number_of(n);
                write!(f, "contact {n}: a message without its state")
            }
            Event::Skipped(fault) => write!(f, "a frame that cannot be read: {fault}"),
        }
    }
}
