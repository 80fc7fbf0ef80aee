//! A station of one channel and one contact, with a reader, a store and a printer in memory, and a
//! clock that hurries.

use crate::streams::Pieces;
use comtrade_write::Kind;
use dfr_setup::{Prepared, prepared_of};
use dfr_station::{
    Event, First, Headers, Input, Key, Printer, Recorded, Run, RunFault, Station, Store, Stored,
    Trouble, finish_station, put_event, read_first, run_station,
};
use std::alloc::{Allocator, Global};
use std::io;
use std::sync::Wait;
use std::thread::Threads;
use std::time::{Clock, Duration};

/// Nine scans before a trigger and one after it; a level over 100 opens a record.
pub const SETUP: &[u8] =
    b"station S\ndevice D\nanalog A,,,A,1,0,0,-200,200,1,1,P\nstatus T,,,0\nfreq 50\nrate 1000\nlimits 9,1,11,1\nrules level 0 over 100\n";

/// How many bytes a frame of it has.
const FRAME: usize = 4;

/// The longest sleep of `Hasty`, in milliseconds.
const NAP: u64 = 20;

/// A runtime whose sleeps are short, for runs that try again each second.
#[derive(Drop)]
pub struct Hasty<'a, R> {
    pub rt: &'a R,
}

impl<R: Threads> Threads for Hasty<'_, R> {}

impl<R: Wait> Wait for Hasty<'_, R> {}

impl<R: Clock> Clock for Hasty<'_, R> {
    fn monotonic(&self) -> io::Result<Duration> {
        self.rt.monotonic()
    }

    fn since_1970(&self) -> io::Result<Duration> {
        self.rt.since_1970()
    }

    fn sleep(&self, duration: Duration) {
        self.rt.sleep(duration.min(Duration::from_millis(NAP)))
    }
}

/// The last pair that came, how many came, and how often none is taken before.
#[derive(Drop)]
pub struct Kept {
    pub key: Option<Key>,
    pub dat: Vec<u8>,
    pub count: u64,
    pub troubles: u32,
}

impl Store for Kept {
    fn put(
        &mut self,
        key: Key,
        cfg: &[u8],
        dat: &[u8],
        _header: Option<&[u8]>,
    ) -> Result<Stored, Trouble> {
        if self.troubles > 0 || cfg.is_empty() {
            self.troubles = self.troubles.saturating_sub(1);
            return Err(Trouble::Full);
        }
        self.key = Some(key);
        self.count = self.count.saturating_add(1);
        self.dat.clear();
        match self.dat.extend_from_slice(dat) {
            Ok(()) => Ok(Stored { key, removed: 0 }),
            Err(_) => Err(Trouble::Memory),
        }
    }
}

/// All that was printed.
#[derive(Drop)]
pub struct Told {
    pub text: Vec<u8>,
}

impl Printer for Told {
    fn print(&mut self, at: i64, event: Event) {
        let _ = put_event(&mut self.text, at, event);
    }
}

/// Whether a text was printed.
pub fn is_told(told: &Told, text: &[u8]) -> bool {
    let mut rest = told.text.as_slice();
    for _ in 0..told.text.len() {
        if rest.starts_with(text) {
            return true;
        }
        match rest {
            [_, tail @ ..] => rest = tail,
            [] => return false,
        }
    }
    false
}

/// What a station leaves in the store and at the printer.
#[derive(Drop)]
pub struct Seen {
    pub kept: Kept,
    pub told: Told,
}

pub fn nothing_seen(alloc: Global, troubles: u32) -> Seen {
    Seen {
        kept: Kept {
            key: None,
            dat: Vec::new(alloc),
            count: 0,
            troubles,
        },
        told: Told {
            text: Vec::new(alloc),
        },
    }
}

fn station_of<A: Allocator>(prepared: Prepared<A>, form: Input) -> Station<A> {
    let Prepared {
        recorder,
        inputs,
        plans,
        detectors,
    } = prepared;
    drop(plans);
    Station {
        recorder,
        inputs,
        detectors,
        input: form,
        kind: Kind::Ascii,
        minutes: false,
        operator: None,
        waits: false,
        gap: 0,
        chatter: None,
    }
}

/// What came up to the first scan, and the recorder; None where there is no memory for them.
fn begun<A: Allocator + Copy + Send + Sync, R: Threads + Wait + Clock + Sync>(
    rt: &R,
    alloc: A,
    form: Input,
    input: &mut Pieces<'_>,
    printer: &mut (impl Printer + Send),
) -> Option<(First<A>, Prepared<A>)> {
    match read_first(rt, alloc, input, printer, (form, FRAME, false)) {
        Ok(mut first) => {
            first.clocks = None;
            match prepared_of(alloc, SETUP, 0) {
                Ok(prepared) => Some((first, prepared)),
                Err(_) => None,
            }
        }
        Err(_) => None,
    }
}

/// Records these bytes. The store comes back.
pub fn recorded<
    A: Allocator + Copy + Send + Sync,
    K: Store + Send,
    R: Threads + Wait + Clock + Sync,
>(
    rt: &R,
    alloc: A,
    form: Input,
    mut input: Pieces<'_>,
    store: K,
    printer: &mut (impl Printer + Send),
) -> (Result<Recorded<A>, RunFault>, K) {
    let Some((first, prepared)) = begun(rt, alloc, form, &mut input, printer) else {
        return (Err(RunFault::Memory), store);
    };
    let station = station_of(prepared, form);
    let headers: Option<Headers<A>> = None;
    let headers = headers.as_ref();
    let Run {
        recorded,
        input: _,
        mut store,
    } = run_station(rt, alloc, station, headers, first, input, store, printer);
    match recorded {
        Ok(mut left) => {
            finish_station(
                rt,
                alloc,
                Kind::Ascii,
                headers,
                &mut left,
                &mut store,
                printer,
            );
            (Ok(left), store)
        }
        Err(fault) => (Err(fault), store),
    }
}
