//! Operations on the open record, if there is one.

ghost use Rattle.std.specs.Prelude.{◌≡◌, ◌≤◌, ◌<◌, ◌++◌, None, IfOk, IfSome, IfNone, IsOk, OnOk, OnErr, IsSome, option_to_list};
ghost use Rattle.std.specs.VecDeque.{deque_len, deque_capacity};
ghost use Rattle.dfr_recorder.specs.Parts.{IsWhole};
ghost use Rattle.dfr_recorder.specs.Kept.{scans_in};
ghost use Rattle.dfr_recorder.specs.Recording.{extent_of, met_by, placed, placed_if, longer_if, unless_last, if_last, ends_at};

use crate::marks::{Met, Newest};
use crate::recording::Recording;
use crate::ring::copies;
use crate::shelf::is_full;
use crate::{Extent, Limits, Record};
use circular_buffer::HeapCircularBuffer;
use comtrade_values::Memory;
use dfr_channels::Scan;
use std::alloc::Allocator;
use std::collections::VecDeque;

fn extent_of<A: Allocator>(recording: &Option<Recording<A>>) -> Option<Extent>
    ensures { result ≡ extent_of recording.now }
{
    match recording {
        Some(recording) => Some(recording.extent()),
        None => None,
    }
}

/// What a trigger meets: the newest record, the open one, and whether the shelf is full.
pub(crate) fn met_by<A: Allocator>(
    limits: Limits,
    newest: Newest,
    recording: &Option<Recording<A>>,
    shelf: &VecDeque<Record<A>, A>,
) -> Met
    ensures { result ≡ met_by limits newest recording.now shelf.now.items }
{
    Met {
        newest,
        full: is_full(shelf, limits),
        extent: extent_of(recording),
    }
}

/// How many scans a record with this extent has once it is finished.
fn room_for(extent: Extent) -> usize {
    (extent.last.saturating_sub(extent.first) as usize).saturating_add(1)
}

/// Opens a record: it gets copies of the ring's scans that belong to it, and room for the others.
/// The next scan has number `n`.
fn begin<A: Allocator + Copy>(
    ring: &HeapCircularBuffer<Scan<A>, A>,
    extent: Extent,
    n: u64,
) -> Result<Recording<A>, Memory>
    requires { extent.first ≤ n }
    ensures { IfOk result (λ r. r ≡ placed extent n ring.now.items None) }
{
    let scans = copies(ring, (n - extent.first) as usize, room_for(extent))?;
    Ok(Recording::new(extent, scans))
}

/// Gives the open record this extent, or opens a record with it. Allocates only to open one.
pub(crate) fn place<A: Allocator + Copy>(
    recording: &mut Option<Recording<A>>,
    extent: Option<Extent>,
    n: u64,
    ring: &HeapCircularBuffer<Scan<A>, A>,
) -> Result<(), Memory>
    requires begun { IfSome extent (λ e. e.first ≤ n) }
    requires none { IfNone extent (recording.old ≡ None) }
    ensures ok { OnOk result (recording.new ≡ placed_if extent n ring.now.items recording.old) }
    ensures err { OnErr result (recording.new ≡ recording.old) }
    ensures free { OnErr result ((recording.old ≡ None) × IsSome extent) }
{
    let Some(extent) = extent else {
        return Ok(());
    };
    match recording {
        Some(record) => {
            record.move_to(extent);
            Ok(())
        }
        None => {
            *recording = Some(begin(ring, extent, n)?);
            Ok(())
        }
    }
}

/// The same as `place`, and adds a copy of the scan numbered `n`. Without an extent it doesn't
/// allocate.
pub(crate) fn grow<A: Allocator + Copy>(
    recording: &mut Option<Recording<A>>,
    extent: Option<Extent>,
    n: u64,
    ring: &HeapCircularBuffer<Scan<A>, A>,
    scan: &Scan<A>,
) -> Result<(), Memory>
    requires begun { IfSome extent (λ e. e.first ≤ n) }
    requires none { IfNone extent (recording.old ≡ None) }
    ensures ok { OnOk result (recording.new ≡ longer_if scan.now (placed_if extent n ring.now.items recording.old)) }
    ensures err { OnErr result (recording.new ≡ recording.old) }
    ensures free { extent ≡ None → IsOk result }
{
    let Some(extent) = extent else {
        return Ok(());
    };
    let copy = scan.try_clone()?;
    match recording {
        Some(record) => {
            record.push(copy)?;
            record.move_to(extent);
            Ok(())
        }
        None => {
            let mut record = begin(ring, extent, n)?;
            record.push(copy)?;
            *recording = Some(record);
            Ok(())
        }
    }
}

/// Whether scan `n` is the open record's last.
fn ends_at<A: Allocator>(recording: &Option<Recording<A>>, n: u64) -> bool
    ensures { result ≡ ends_at n recording.now }
{
    match recording {
        Some(record) => record.extent().last == n,
        None => false,
    }
}

/// Moves the open record to the shelf if scan `n` is its last.
pub(crate) fn shelve<A: Allocator>(
    recording: &mut Option<Recording<A>>,
    n: u64,
    shelf: &mut VecDeque<Record<A>, A>,
)
    requires whole { IfSome recording.old (λ r. r.extent.last ≡ n → IsWhole r) }
    requires room { IfSome recording.old (λ r. deque_len shelf.old < deque_capacity shelf.old) }
    ensures going_on { recording.new ≡ unless_last n recording.old }
    ensures shelf { shelf.new.items ≡ shelf.old.items ++ if_last n recording.old }
    ensures room { deque_capacity shelf.new ≡ deque_capacity shelf.old }
{
    if !ends_at(recording, n) {
        return;
    }
    match recording.take() {
        Some(record) => shelf.push_back_reserved(record.close()),
        None => {}
    }
}

/// How many scans the open record has so far; 0 if there is none.
pub(crate) fn scans_so_far<A: Allocator>(recording: &Option<Recording<A>>) -> u64
    ensures { result ≡ scans_in (option_to_list recording.now) }
{
    match recording {
        Some(recording) => recording.len() as u64,
        None => 0,
    }
}
