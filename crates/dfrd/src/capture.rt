//! A capture of a process bus as the input: what is recorded of it, its lines, and what dates them.

use crate::outcome::{complain, out_of_memory};
use crate::words::Asked;
use dfr_capture::{Dating, Plan};
use dfr_channels::Layout;
use dfr_convert::CaptureLines;
use dfr_plan::plan_of;
use dfr_station::Dates;
use std::alloc::{AllocError, Global};
use std::io;
use std::io::Read;
use std::sync::{Arc, Mutex, Wait};

/// The nanosecond at which the first scan came, by the capture; None before it came. One thread reads
/// the capture, and another one dates the scans.
#[derive(Drop)]
pub(crate) struct FirstTime(Arc<Mutex<Option<u64>>, Global>);

impl FirstTime {
    fn new(alloc: Global) -> Result<FirstTime, AllocError> {
        match Arc::new(alloc, Mutex::new(None)) {
            Ok(first) => Ok(FirstTime(first)),
            Err(_) => Err(AllocError),
        }
    }

    /// Another end of the same.
    fn other(&self) -> Result<FirstTime, AllocError> {
        match Arc::try_clone(&self.0) {
            Ok(first) => Ok(FirstTime(first)),
            Err(_) => Err(AllocError),
        }
    }

    /// What is known now.
    pub(crate) fn known<R: Wait>(&self, rt: &R) -> Option<u64> {
        *self.0.lock(rt)
    }
}

/// What is recorded of a capture, and who hears when its first scan came.
#[derive(Drop)]
pub(crate) struct Bus {
    plan: Plan,
    first: FirstTime,
}

impl Bus {
    /// What the times are of that the lines of the capture tell.
    pub(crate) fn told(&self) -> Dates {
        match self.plan.dating {
            Dating::Synchronised => Dates::Global,
            Dating::Stamps => Dates::Capture,
        }
    }
}

/// The lines of a capture, of which it is told when the first scan came.
#[derive(Drop)]
pub(crate) struct BusLines<'a, I, R> {
    rt: &'a R,
    lines: CaptureLines<'a, I, R>,
    first: FirstTime,
    is_told: bool,
}

/// What is recorded of a capture by the set-up, and when its first scan came, once it did; neither if the
/// input is no capture. A refusal is printed, and the error is the exit status.
pub(crate) fn bus_of<R: Eprint + AllocGlobal>(
    rt: &R,
    asked: &Asked<'_>,
    inputs: &Layout,
    setup: &[u8],
) -> Result<(Option<Bus>, Option<FirstTime>), u8> {
    if !asked.is_capture {
        return Ok((None, None));
    }
    let plan = match plan_of(rt.alloc(), inputs, setup) {
        Ok(plan) => plan,
        Err(refusal) => return Err(complain(rt, asked.setup, refusal)),
    };
    let Ok(first) = FirstTime::new(rt.alloc()) else {
        return Err(out_of_memory(rt));
    };
    match first.other() {
        Ok(other) => Ok((Some(Bus { plan, first }), Some(other))),
        Err(_) => Err(out_of_memory(rt)),
    }
}

/// The lines of a capture. None if there is no memory, which is printed.
pub(crate) fn bus_lines<'a, I: Read + Drop, R: Eprint + AllocGlobal>(
    rt: &'a R,
    bus: Bus,
    input: I,
) -> Option<BusLines<'a, I, R>> {
    let Bus { plan, first } = bus;
    match CaptureLines::new(rt, "dfrd", plan, input) {
        Ok(lines) => Some(BusLines {
            rt,
            lines,
            first,
            is_told: false,
        }),
        Err(_) => {
            out_of_memory(rt);
            None
        }
    }
}

impl<I: Read + Drop, R: Eprint + AllocGlobal + Wait> Read for BusLines<'_, I, R> {
    fn read(&mut self, buf: &mut [u8]) -> io::Result<usize> {
        let given = self.lines.read(buf);
        if !self.is_told
            && let Some(time) = self.lines.first_time()
        {
            *self.first.0.lock(self.rt) = Some(time);
            self.is_told = true;
        }
        given
    }
}
