//! Reads the input up to the first scan, whose instant becomes that of scan 0. Meanwhile a second
//! thread reports the input's silence and each minute.

ghost use Rattle.std.specs.Prelude.{◌≡◌, ◌≤◌, ◌-◌, ◌*◌, ◌/◌, max, [], IfOk};
ghost use Rattle.std.specs.Io.KnownBytes.{Consumes};
ghost use Rattle.dfr_station.specs.Input.{Grows};

use crate::intake::{Buffer, ROOM, is_damaged, is_scan_line, scans_counted};
use crate::meanwhile::{Before, Meanwhile, report};
use crate::moment::Moment;
use crate::reading::Given;
use crate::station::{Input, Printer};
use crate::watch::{Watch, millis};
use comtrade_values::Lines;
use std::alloc::{AllocError, Allocator, Global};
use std::io::Read;
use std::sync::atomic::{AtomicBool, Ordering};
use std::sync::{Mutex, Wait};
use std::thread;
use std::thread::Threads;
use std::time::Clock;

/// What came before the recorder was made.
#[derive(Drop)]
pub struct First<A: Allocator = Global> {
    pub(crate) buffer: Buffer<A>,
    /// The moment of the last read.
    pub(crate) at: Moment,
    /// How many scans came up to then.
    pub(crate) scans: u64,
    pub(crate) watch: Watch,
    /// What the clocks showed then; from there on they are followed. None: records have the instants
    /// of the set-up.
    pub clocks: Option<dfr_clock::Reading>,
    /// The input has ended, or can't be read.
    pub is_all: bool,
}

/// The instant of scan 0 if the last of so many scans came at `at`: earlier by the time of the scans
/// after it, but not before 1970.
fn dated_back(at: u64, scans: u64, rate: u32) -> u64
    requires rate { 1 ≤ rate }
    requires scans { scans ≤ 65_536 }
    ensures { result ≡ at - (scans - 1) * 1_000_000 / rate }
{
    let later = if scans == 0 { 0 } else { scans - 1 };
    let micros = later * 1_000_000 / rate as u64;
    if at < micros { 0 } else { at - micros }
}

impl<A: Allocator> First<A> {
    ghost use Rattle.std.specs.Prelude.{◌≡◌};
    ghost use Rattle.dfr_station.specs.Dated.{is_followed};

    /// The instant of scan 0, in microseconds since 1970-01-01 00:00:00 UTC. The newest scan that
    /// came with it has the instant of the read.
    pub fn start(&self, rate: u32) -> i64 {
        let Ok(at) = u64::try_from(self.at.at) else {
            return 0;
        };
        if rate == 0 || self.scans > 65_536 {
            return self.at.at;
        }
        match i64::try_from(dated_back(at, self.scans, rate)) {
            Ok(start) => start,
            Err(_) => self.at.at,
        }
    }

    /// Whether the clock can date the scans: it was read when the first one had come.
    pub fn is_followed(&self) -> bool
        ensures { result ≡ is_followed self.now.clocks }
    {
        match self.clocks {
            Some(reading) => reading.scans > 0,
            None => false,
        }
    }

    /// Whether the input ended before a scan came.
    pub fn is_empty(&self) -> bool {
        self.is_all && self.scans == 0
    }
}

/// How many scans the whole lines of a text stand for, from its first scan line on.
fn scans_in_lines(text: &[u8]) -> u64 {
    let mut scans = 0u64;
    let Some(end) = text.iter().rposition(|b| *b == b'\n') else {
        return 0;
    };
    for line in Lines::of(text.get(..end).unwrap_or(&[])) {
        if is_scan_line(line) || (scans > 0 && is_damaged(line)) {
            scans = scans.saturating_add(1);
        }
    }
    scans
}

/// How many scans have come whole. `frame` is the size of a frame in bytes, and `due` the counter of
/// the counted frame that is to come next.
pub(crate) fn scans_in(form: Input, frame: usize, due: Option<u16>, bytes: &[u8]) -> u64 {
    match form {
        Input::Frames(_) => {
            if frame == 0 {
                0
            } else {
                (bytes.len() / frame) as u64
            }
        }
        Input::Counted(_) => scans_counted(due, frame, bytes),
        Input::Lines => scans_in_lines(bytes),
    }
}

/// The input, and what was read of it.
#[derive(Drop)]
struct Reading<'x, I, A: Allocator> {
    input: &'x mut I,
    first: First<A>,
}

/// Reads once. Returns whether there is more to read: the first scan has not come whole, the input
/// has not ended, and less than half of the buffer is full.
fn read_on<A: Allocator, I: Read, R: Wait + Clock>(
    rt: &R,
    form: Input,
    frame: usize,
    reading: &mut Reading<'_, I, A>,
) -> bool
    ensures read { Grows I.remaining reading.old.first.buffer reading.old.input.now
        reading.new.first.buffer reading.new.input.now }
    ensures same { reading.new.input.ghost_name ≡ reading.old.input.ghost_name }
{
    if reading.first.buffer.is_full() {
        return false;
    }
    match reading.first.buffer.fill(rt, reading.input) {
        Given::End | Given::Broken => {
            reading.first.is_all = true;
            return false;
        }
        Given::Bytes(_) => {}
    }
    reading.first.at = Moment::now(rt);
    let bytes = reading.first.buffer.waiting();
    let len = bytes.len();
    let scans = scans_in(form, frame, None, bytes);
    reading.first.scans = scans;
    reading.first.clocks = reading.first.at.reading(scans);
    scans == 0 && len < ROOM / 2
}

/// Reads until all of the first scan has come or the input ends, or half of the buffer is full, or
/// so often.
fn read_scan<'x, A: Allocator, I: Read, R: Wait + Clock>(
    rt: &R,
    reads: usize,
    form: Input,
    frame: usize,
    mut reading: Reading<'x, I, A>,
) -> Reading<'x, I, A>
    ensures read { Grows I.remaining reading.entry.first.buffer reading.entry.input.now
        result.first.buffer result.input.now }
    ensures same { result.input.ghost_name ≡ reading.entry.input.ghost_name }
{
    for _ in 0..reads {
        if !read_on(rt, form, frame, &mut reading) {
            return reading;
        }
    }
    reading
}

/// Reads the first scan while the other thread reports. False if that can't be started.
fn read_reporting<
    'x,
    A: Allocator + Send + Sync,
    I: Read + Send,
    P: Printer + Send,
    R: Threads + Wait + Clock + Sync,
>(
    rt: &R,
    form: Input,
    frame: usize,
    meanwhile: &Meanwhile<'_, P>,
    reading: Reading<'x, I, A>,
) -> (bool, Reading<'x, I, A>)
    ensures read { Grows I.remaining reading.entry.first.buffer reading.entry.input.now
        result.1.first.buffer result.1.input.now }
    ensures same { result.1.input.ghost_name ≡ reading.entry.input.ghost_name }
{
    thread::scope(
        thread::scope_env(),
        rt,
        move |scope| -> (bool, Reading<'_, I, A>)
            ensures read { Grows I.remaining reading.entry.first.buffer reading.entry.input.now
                result.1.first.buffer result.1.input.now }
            ensures same { result.1.input.ghost_name ≡ reading.entry.input.ghost_name }
        {
            let started = scope.spawn(move || report(rt, meanwhile)).is_ok();
            let reads = if started { ROOM } else { 0 };
            let reading = read_scan(rt, reads, form, frame, reading);
            meanwhile.has_come.store(true, Ordering::SeqCst);
            (started, reading)
        },
    )
}

/// Does nothing. That it is used last here ties a reference that came back to the one that was lent.
pub(crate) fn take_back<T>(x: &mut T)
    ensures { x.new ≡ x.old }
{}

/// Reads the first scan of an input while the other thread reports. False if that can't be started.
fn read_lent<
    A: Allocator + Send + Sync,
    I: Read + Send,
    P: Printer + Send,
    R: Threads + Wait + Clock + Sync,
>(
    rt: &R,
    form: Input,
    frame: usize,
    meanwhile: &Meanwhile<'_, P>,
    input: &mut I,
    first: First<A>,
) -> (bool, First<A>)
    ensures { Grows I.remaining first.buffer input.old result.1.buffer input.new }
{
    let reading = Reading { input, first };
    let (started, reading) = read_reporting(rt, form, frame, meanwhile, reading);
    let Reading { input, first } = reading;
    take_back(input);
    (started, first)
}

/// An empty buffer, with the time of this instant.
fn begun<A: Allocator>(alloc: A, clock: &impl Clock) -> Result<First<A>, AllocError>
    ensures { IfOk result (λ first. first.buffer ≡ []) }
{
    Ok(First {
        buffer: Buffer::new(alloc)?,
        at: Moment::now(clock),
        scans: 0,
        watch: Watch::new(millis(clock)),
        clocks: None,
        is_all: false,
    })
}

/// Reads until all of the first scan has come or the input ends. `frame` is the size of a frame
/// in bytes. Meanwhile the input's silence is printed and, with `minutes`, a line each minute.
pub fn read_first<
    A: Allocator + Copy + Send + Sync,
    I: Read + Send,
    P: Printer + Send,
    R: Threads + Wait + Clock + Sync,
>(
    rt: &R,
    alloc: A,
    input: &mut I,
    printer: &mut P,
    how: (Input, usize, bool),
) -> Result<First<A>, AllocError>
    ensures { IfOk result (λ first. Consumes (I.remaining input.old) (I.remaining input.new) first.buffer) }
{
    let (form, frame, minutes) = how;
    let first = begun(alloc, rt)?;
    let watch = first.watch;
    let meanwhile = Meanwhile {
        has_come: AtomicBool::new(false),
        before: Mutex::new(Before {
            printer,
            watch,
            minutes,
        }),
    };
    let (started, mut first) = read_lent(rt, form, frame, &meanwhile, input, first);
    let Meanwhile {
        has_come: _,
        before,
    } = meanwhile;
    let before = before.into_inner();
    first.watch = before.watch;
    drop(before);
    if !started {
        drop(first);
        return Err(AllocError);
    }
    Ok(first)
}
