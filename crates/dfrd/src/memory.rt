//! The memory that a recording can need, and the memory that the machine has.

ghost use Rattle.std.specs.Prelude.{◌≡◌, ◌*◌, ◌≤◌, IfSome, OnOk, OnErr};
ghost use Rattle.dfrd.specs.Memory.{IsAbove, machine_of, record_bytes, waves_bytes, window_bytes};

use comtrade_io::read_up_to;
use dfr_channels::Layout;
use dfr_recorder::Limits;
use std::alloc::Global;
use std::fs::File;
use std::rt::Files;
use thiserror::Error;

/// How many scans may wait for the trigger thread, or for the acquisition to use their memory.
const LANE: u64 = 98_304;

/// The bytes of what doesn't depend on the set-up: queues of events and of lines.
const FIXED: u64 = 4_000_000;

/// The greatest size of a file of the system that is read here.
const TEXT: usize = 65_536;

/// Why a recording isn't begun.
#[derive(Clone, Copy, Debug, PartialEq, Eq, Error)]
pub(crate) enum MemoryFault {
    /// It can need more memory than the machine has.
    #[error("needs up to {need} MB of memory, and the machine has {have} MB")]
    Little { need: u64, have: u64 },
    /// It can need 2^64 bytes or more.
    #[error("needs more memory than a machine can have")]
    Huge,
}

/// A number of scans times the bytes of one, or times a number of records.
fn times(scans: u64, each: u64) -> u64
    requires few { scans ≤ 8589934592 }
    requires small { each ≤ 4096 }
    ensures product { result ≡ scans * each }
    ensures bound { result ≤ 35184372088832 }
{
    scans * each
}

/// The most bytes of memory that the scans of these channels need while they are recorded.
pub(crate) fn bytes_of(analog: usize, status: usize, pre: u32, longest: u32, shelf: u32) -> u64
    requires analog { analog ≤ 256 }
    requires status { status ≤ 256 }
    requires longest { longest ≤ 1000000 }
    requires shelf { shelf ≤ 64 }
    ensures { result ≡ record_bytes analog status pre longest shelf }
{
    let (k, m) = (analog as u64, status as u64);
    let scan = 8 * k + m + 112;
    let row = 7 * k + 2 * m + 24;
    let longest = longest as u64;
    let scans = times(longest, shelf as u64 + 2) + pre as u64 + LANE;
    times(scans, scan) + 2 * times(longest, row) + FIXED
}

/// The most bytes of memory that a recording of this layout needs, without its detectors.
pub(crate) fn layout_bytes(layout: &Layout<Global>, limits: Limits) -> u64 {
    let _rate = layout.rate();
    let (analog, status) = (layout.analog().len(), layout.status().len());
    bytes_of(
        analog,
        status,
        limits.pre(),
        limits.longest(),
        limits.shelf(),
    )
}

/// The most bytes of a detector over so many scans, of all kinds but waves.
pub(crate) fn detector_bytes(scans: u32) -> u64
    ensures { result ≡ window_bytes scans }
{
    8 * (2 * scans as u64 + 10)
}

/// The most bytes of a detector of waves over so many scans.
pub(crate) fn wave_detector_bytes(scans: u32) -> u64
    ensures { result ≡ waves_bytes scans }
{
    8 * (9 * scans as u64 + 1)
}

/// What the machine has: all of it, or what the group of the process may use, if that is less.
fn least(all: Option<u64>, group: Option<u64>) -> Option<u64>
    ensures { result ≡ machine_of all group }
{
    match (all, group) {
        (Some(all), Some(group)) => Some(all.min(group)),
        (Some(all), None) => Some(all),
        (None, group) => group,
    }
}

/// The number of kilobytes behind this word at the start of a line, in bytes.
fn bytes_after(text: &str, word: &str) -> Option<u64> {
    for line in text.lines() {
        if let Some(rest) = line.strip_prefix(word) {
            let number = rest.trim().strip_suffix(" kB")?;
            return number.trim().parse::<u64>().ok()?.checked_mul(1024);
        }
    }
    None
}

/// The text of a file of the system. None if it can't be read.
fn text_of<R: Files<File = File> + AllocGlobal>(rt: &R, path: &str) -> Option<String> {
    let mut file = File::open(rt, path).ok()?;
    let bytes = read_up_to(rt.alloc(), &mut file, TEXT).ok()?;
    String::from_utf8(bytes).ok()
}

/// The bytes that a file of the system allows. None if it can't be read, or has no number, as where
/// all may be used.
fn limit_in<R: Files<File = File> + AllocGlobal>(rt: &R, path: &str) -> Option<u64> {
    text_of(rt, path)?.as_str().trim().parse::<u64>().ok()
}

/// What the group of this process may use, in bytes.
fn group_limit<R: Files<File = File> + AllocGlobal>(rt: &R) -> Option<u64> {
    let groups = text_of(rt, "/proc/self/cgroup")?;
    for line in groups.as_str().lines() {
        if let Some(group) = line.strip_prefix("0::") {
            let mut path = String::from_str(rt.alloc(), "/sys/fs/cgroup").ok()?;
            path.push_str(group).ok()?;
            path.push_str("/memory.max").ok()?;
            return limit_in(rt, path.as_str());
        }
    }
    None
}

/// How many bytes of memory the machine has for this process. None if that isn't known.
pub(crate) fn machine_bytes<R: Files<File = File> + AllocGlobal>(rt: &R) -> Option<u64> {
    let all = match text_of(rt, "/proc/meminfo") {
        Some(text) => bytes_after(text.as_str(), "MemTotal:"),
        None => None,
    };
    least(all, group_limit(rt))
}

/// Refuses a recording that can need more bytes than the machine has, if that is known.
pub(crate) fn affordable(need: u64, have: Option<u64>) -> Result<(), MemoryFault>
    ensures ok { OnOk result (IfSome have (λ bytes. need ≤ bytes)) }
    ensures err { OnErr result (IsAbove need have) }
{
    match have {
        Some(bytes) if bytes < need => Err(MemoryFault::Little {
            need: need / 1_000_000 + 1,
            have: bytes / 1_000_000,
        }),
        _ => Ok(()),
    }
}
