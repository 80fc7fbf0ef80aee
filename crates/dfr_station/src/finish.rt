//! The record that is open when the input ends: it is closed with lost scans, and written.

ghost use Rattle.std.specs.Prelude.{◌≡◌, ◌⊎◌, List, Ok, Err, Some, false, true, IsTrue, MatchBool, IfSome, is_some, not};
ghost use Rattle.dfr_recorder.specs.Own.{is_own};
ghost use Rattle.dfr_recorder.specs.declared.step.Scanned.{Scanned as Accepted};
ghost use Rattle.dfr_live.specs.Devices.{files_of};
ghost use Rattle.dfr_station.specs.Dated.{layout_under, last_shown, Changes};
ghost use Rattle.dfr_station.specs.Finishing.{LosesScan, LosesScans, TriedLast, TriesLast, WritesLast, FinishesOpen, EndsOpen, Finishes, counted_last};

use crate::event::{Event, Trouble};
use crate::headers::Headers;
use crate::heading::{About, bytes_of, header_for};
use crate::intake::{Counts, Recorded};
use crate::naming::key_of;
use crate::outlet::{LAST_TRIES, pause_before};
use crate::run::{ended_event, print_one};
use crate::shown::{Redated, redated_by, shown_cfg};
use crate::station::{Printer, Store, Stored};
use crate::times::{Clocked, clock_state, is_told};
use comtrade_write::{Kind, pair_of};
use dfr_channels::Layout;
use dfr_clock::Timebase;
use dfr_folder::Key;
use dfr_recorder::{Extent, LostRefusal, Record, Recorder};
use std::alloc::Allocator;
use std::sync::Wait;
use std::time::Clock;

/// Makes a lost scan. If an allocation fails, tries again each second, a few times. Returns whether
/// it was made.
fn is_lost<A: Allocator + Copy, R: Wait + Clock>(rt: &R, recorder: &mut Recorder<A>) -> bool
    ensures lost { MatchBool result ((x : Accepted) × LosesScan recorder.old x recorder.new)
        (recorder.new ≡ recorder.old) }
    ensures layout { recorder.new.layout ≡ recorder.old.layout }
{
    for tries in 0..LAST_TRIES {
        pause_before(rt, tries);
        match recorder.lost() {
            Ok(_) => return true,
            Err(LostRefusal::ClockEnd) => return false,
            Err(LostRefusal::Memory) => {}
        }
    }
    false
}

/// Makes lost scans until no record is open. Returns false if one is still open: allocations
/// failed, the scans would be after the year 9999, or as many were made as the longest record has.
fn is_closed<A: Allocator + Copy, R: Wait + Clock>(rt: &R, recorder: &mut Recorder<A>) -> bool
    ensures closed { result ≡ not (is_some recorder.new.recording) }
    ensures lost { (lost : List Accepted) × LosesScans recorder.old lost recorder.new }
    ensures layout { recorder.new.layout ≡ recorder.old.layout }
{
    for _ in 0..recorder.limits().longest() {
        if !recorder.is_recording() || !is_lost(rt, recorder) {
            break;
        }
    }
    !recorder.is_recording()
}

/// How the last record is shown. None: as by the set-up.
fn last_redated<A: Allocator>(
    layout: &Layout<A>,
    extent: Extent,
    times: &mut Option<Timebase<A>>,
) -> Option<Redated>
    ensures { result ≡ last_shown times.old layout.now extent }
{
    match times {
        Some(timebase) => redated_by(layout, extent, timebase.date(extent.trigger)),
        None => None,
    }
}

/// Makes a record's pair as it is shown, with its header, and hands it to the store, once.
fn hand_over<K: Store, A: Allocator + Copy, R: Wait>(
    rt: &R,
    alloc: A,
    headers: Option<&Headers<A>>,
    clock: Clocked,
    layout: &Layout<A>,
    kind: Kind,
    taken: &Record<A>,
    key: Key,
    redated: Option<Redated>,
    store: &mut K,
) -> Result<Stored, Trouble>
    requires own { IsTrue (is_own layout.now taken.now) }
    requires redated { IfSome redated (λ r. Changes layout.now taken.now.extent r) }
    ensures { TriedLast K.stores key
        (files_of (layout_under layout.now redated) kind taken.now)
        store.old result store.new }
{
    let Ok(pair) = pair_of(alloc, layout, taken, kind) else {
        return Err(Trouble::Memory);
    };
    let about = About {
        extent: taken.extent(),
        redated,
        kind,
        clock: clock.state,
        is_told: clock.is_told,
        is_cut: true,
    };
    let Ok(header) = header_for(rt, alloc, headers, layout, about, &pair.dat) else {
        return Err(Trouble::Memory);
    };
    let header = bytes_of(&header);
    match redated {
        None => store.put(key, pair.cfg.as_slice(), pair.dat.as_slice(), header),
        Some(redated) => match shown_cfg(alloc, kind, redated, pair.cfg.as_slice()) {
            Ok(cfg) => store.put(key, cfg.as_slice(), pair.dat.as_slice(), header),
            Err(_) => Err(Trouble::Memory),
        },
    }
}

/// Hands a record's pair to the store, again each second, ten times in all, but once in a storm.
/// Reports what the store answers. The error is why it did not take the pair last.
fn stored<A: Allocator + Copy, K: Store, P: Printer, R: Wait + Clock>(
    rt: &R,
    alloc: A,
    headers: Option<&Headers<A>>,
    clock: Clocked,
    layout: &Layout<A>,
    kind: Kind,
    taken: &Record<A>,
    key: Key,
    redated: Option<Redated>,
    store: &mut K,
    printer: &mut P,
) -> Result<Stored, Trouble>
    requires own { IsTrue (is_own layout.now taken.now) }
    requires redated { IfSome redated (λ r. Changes layout.now taken.now.extent r) }
    ensures { TriesLast K.stores key
        (files_of (layout_under layout.now redated) kind taken.now)
        store.old result store.new }
{
    let mut told = None;
    for tries in 1..LAST_TRIES {
        match hand_over(
            rt, alloc, headers, clock, layout, kind, taken, key, redated, store,
        ) {
            Ok(stored) => {
                tell_over(rt, told, printer);
                return Ok(stored);
            }
            Err(trouble) => {
                if trouble.is_storm() {
                    return Err(trouble);
                }
                tell_trouble(rt, told, trouble, printer);
                told = Some(trouble);
                pause_before(rt, tries);
            }
        }
    }
    match hand_over(
        rt, alloc, headers, clock, layout, kind, taken, key, redated, store,
    ) {
        Ok(stored) => {
            tell_over(rt, told, printer);
            Ok(stored)
        }
        Err(last) => {
            if !last.is_storm() {
                tell_trouble(rt, told, last, printer);
            }
            Err(last)
        }
    }
}

/// Reports a trouble that is not the one that was told last.
fn tell_trouble<P: Printer, R: Clock>(
    rt: &R,
    told: Option<Trouble>,
    trouble: Trouble,
    printer: &mut P,
) {
    if told != Some(trouble) {
        print_one(rt, printer, Event::Trouble(trouble));
    }
}

/// Reports that the trouble that was told is over, if there was any.
fn tell_over<P: Printer, R: Clock>(rt: &R, told: Option<Trouble>, printer: &mut P) {
    if told.is_some() {
        print_one(rt, printer, Event::Over);
    }
}

/// Writes a record that was closed after the input had ended. Returns the counts with this record.
fn written<A: Allocator + Copy, K: Store, P: Printer, R: Wait + Clock>(
    rt: &R,
    alloc: A,
    headers: Option<&Headers<A>>,
    layout: &Layout<A>,
    kind: Kind,
    taken: &Record<A>,
    redated: Option<Redated>,
    clock: Clocked,
    counts: Counts,
    store: &mut K,
    printer: &mut P,
) -> Counts
    requires own { IsTrue (is_own layout.now taken.now) }
    requires redated { IfSome redated (λ r. Changes layout.now taken.now.extent r) }
    ensures { WritesLast K.stores layout.now kind redated taken.now
        counts store.old result store.new }
{
    let extent = taken.extent();
    let key = key_of(layout, extent, redated);
    match stored(
        rt, alloc, headers, clock, layout, kind, taken, key, redated, store, printer,
    ) {
        Ok(stored) => {
            let record = Event::Record {
                extent,
                key: stored.key,
                clock: clock.state,
                is_cut: true,
            };
            print_one(rt, printer, record);
            if stored.removed > 0 {
                print_one(rt, printer, Event::Removed(stored.removed));
            }
            Counts {
                records: counts.records.saturating_add(1),
                ..counts
            }
        }
        Err(why) => {
            print_one(rt, printer, Event::Unwritten { extent, key, why });
            Counts {
                unwritten: counts.unwritten.saturating_add(1),
                ..counts
            }
        }
    }
}

/// Closes the record that is open, if there is one, and writes it. Returns the counts with it.
fn with_open<A: Allocator + Copy, K: Store, P: Printer, R: Wait + Clock>(
    rt: &R,
    alloc: A,
    kind: Kind,
    headers: Option<&Headers<A>>,
    recorder: &mut Recorder<A>,
    times: &mut Option<Timebase<A>>,
    counts: Counts,
    store: &mut K,
    printer: &mut P,
) -> Counts
    ensures { Finishes K.stores kind times.old recorder.old counts store.old recorder.new result store.new }
{
    if !recorder.is_recording() {
        return counts;
    }
    if is_closed(rt, recorder)
        && let Some(taken) = recorder.take()
    {
        let layout = recorder.layout();
        let redated = last_redated(layout, taken.extent(), times);
        let clock = Clocked {
            state: clock_state(counts.clock, layout.start(), times.as_ref()),
            is_told: is_told(times.as_ref(), taken.extent().trigger),
        };
        return written(
            rt, alloc, headers, layout, kind, &taken, redated, clock, counts, store, printer,
        );
    }
    print_one(rt, printer, Event::Unfinished);
    Counts {
        unwritten: counts.unwritten.saturating_add(1),
        ..counts
    }
}

/// Closes the record that was open when the input ended, if there was one, and writes it. Then
/// prints the event of the end. What is left has the recorder and the counts after that.
pub fn finish_station<A: Allocator + Copy, K: Store, P: Printer, R: Wait + Clock>(
    rt: &R,
    alloc: A,
    kind: Kind,
    headers: Option<&Headers<A>>,
    left: &mut Recorded<A>,
    store: &mut K,
    printer: &mut P,
)
    ensures finished { Finishes K.stores kind left.old.times left.old.ended.recorder left.old.counts store.old
        left.new.ended.recorder left.new.counts store.new }
    ensures same { (left.new.ended.log ≡ left.old.ended.log) × (left.new.ended.left ≡ left.old.ended.left) }
{
    let counts = left.counts;
    let recorder = &mut left.ended.recorder;
    let times = &mut left.times;
    let counts = with_open(
        rt, alloc, kind, headers, recorder, times, counts, store, printer,
    );
    print_one(rt, printer, ended_event(counts));
    left.counts = counts;
}
