//! The lines of the scans, from the frames of a capture.

ghost use Rattle.std.specs.Prelude.{◌≡◌, ◌++◌, ◌≤◌, ◌<◌, ◌∷◌, [], length, Ok, IfOk, IfSome, OnOk};
ghost use Rattle.dfr_capture.specs.declared.feed.Event.TheVariants.{Skipped};
ghost use Rattle.dfr_bus.specs.SampledValues.{frame_at};
ghost use Rattle.dfr_bus.specs.Goose.{goose_at};
ghost use Rattle.dfr_bay.specs.Lines.{arrival};
ghost use Rattle.dfr_capture.specs.Streams.{stream_of};
ghost use Rattle.dfr_capture.specs.Contacts.{bits_of};
ghost use Rattle.dfr_capture.specs.Recordings as spec;
ghost use Rattle.dfr_capture.specs.Rows.{row, missing_in, each_scan};

use crate::feed::{Event, Feed, LostReading};
use crate::listening::Listening;
use crate::plan::Plan;
use crate::row::put_row;
use crate::stream::stream_of;
use crate::unit::Unit;
use dfr_bay::{Arrival, Bay};
use dfr_bus::{Asdu, Ethernet, Fault, read_ethernet, read_goose, read_sampled_values};
use std::alloc::{AllocError, Allocator, Global};
use std::marker::Model;

/// Makes the lines of the scans from the frames of a capture, in constant memory. Contracts see
/// what it keeps of the frames so far.
#[derive(Drop)]
pub struct Recorder<A: Allocator = Global> {
    alloc: A,
    plan: Plan<A>,
    bay: Bay<Unit<A>, A>,
    listening: Listening<A>,
}

impl<A: Allocator> Model for Recorder<A> {
    ghost use Rattle.dfr_capture.specs.Recordings.{Kept};

    ghost Value = { Kept };

    ghost view = { λ r. record { plan = r.plan; bay = r.bay; listening = r.listening } };
}

/// The frame that units come with.
#[derive(Drop)]
struct Origin<'a> {
    bytes: &'a [u8],
    time: u64,
    ethernet: Ethernet,
    app_id: u16,
    bits: &'a [bool],
}

impl<'a> Model for Origin<'a> {
    ghost use Rattle.dfr_capture.specs.Recordings.{From};

    ghost Value = { From };

    ghost view = { λ o. record {
      came = record { bytes = o.bytes.now; time = o.time };
      ethernet = o.ethernet;
      app_id = o.app_id;
      bits = o.bits.now;
    } };
}

/// Appends what scans give, one after the other.
fn put_scans<A: Allocator>(
    lines: &mut Vec<u8, A>,
    missing: &mut Vec<LostReading, A>,
    plan: &Plan<A>,
    scans: &[Option<Unit<A>>],
) -> Result<(), AllocError>
    ensures lines { OnOk result (lines.new.items ≡ lines.old.items ++ each_scan (row plan.now) (length plan.now.streams) scans.now) }
    ensures some { 1 ≤ length plan.now.streams }
    ensures missing { OnOk result (missing.new.items ≡ missing.old.items ++ each_scan (missing_in plan.now) (length plan.now.streams) scans.now) }
{
    let streams = plan.streams.len();
    let mut at = 0;
    while scans.len() - at >= streams {
        let scan = &scans[at..at + streams];
        put_row(lines, missing, plan, scan)?;
        at += streams;
    }
    Ok(())
}

/// Reports what becomes of a unit of a stream, if it isn't taken without a gap.
fn put_arrival<A: Allocator>(
    out: &mut Vec<Event, A>,
    stream: usize,
    arrival: Arrival,
) -> Result<(), AllocError>
    ensures { OnOk result (out.new.items ≡ out.old.items ++ spec.arrival_events stream arrival) }
{
    match arrival {
        Arrival::Taken(0) => {}
        other => out.push(Event::Stream(stream, other))?,
    }
    Ok(())
}

/// A frame that can't be read is skipped.
fn skip<A: Allocator>(out: &mut Vec<Event, A>, fault: Fault) -> Result<(), AllocError>
    ensures { OnOk result (out.new.items ≡ out.old.items ++ Skipped fault ∷ []) }
{
    out.push(Event::Skipped(fault))?;
    Ok(())
}

/// A unit as it is kept.
fn kept_unit<A: Allocator + Copy>(
    alloc: A,
    origin: &Origin<'_>,
    asdu: &Asdu,
) -> Result<Unit<A>, AllocError>
    ensures { IfOk result (λ u. u ≡ (spec.unit_at origin.now asdu.now 0).content) }
{
    let frame = Vec::from_slice(alloc, origin.bytes)?;
    let bits = Vec::from_slice(alloc, origin.bits)?;
    Ok(Unit {
        frame,
        asdu: *asdu,
        bits,
        time: origin.time,
    })
}

/// The first stream with a key that a unit has.
fn stream_in<A: Allocator>(plan: &Plan<A>, origin: &Origin<'_>, asdu: &Asdu) -> Option<usize>
    ensures value { result ≡ stream_of plan.now origin.now.came.bytes origin.now.ethernet origin.now.app_id asdu.now }
    ensures inside { IfSome result (λ n. n < length plan.now.streams) }
{
    stream_of(plan, origin.bytes, &origin.ethernet, origin.app_id, asdu)
}

/// A unit of stream n.
fn put_unit_of<A: Allocator + Copy>(
    alloc: A,
    plan: &Plan<A>,
    bay: &mut Bay<Unit<A>, A>,
    origin: &Origin<'_>,
    asdu: &Asdu,
    stream: usize,
    feed: &mut Feed<A>,
) -> Result<(), AllocError>
    requires { stream < length plan.now.streams }
    ensures { OnOk result (spec.FeedsAll plan.now bay.old (λ us. spec.unit_at origin.now asdu.now stream ∷ us)
        (λ us. spec.arrival_events stream (arrival plan.now.settings (spec.board_of plan.now us) (spec.unit_at origin.now asdu.now stream)))
        feed.old feed.new bay.new) }
{
    if stream >= bay.streams() {
        return Ok(());
    }
    let unit = kept_unit(alloc, origin, asdu)?;
    let mut scans = Vec::new(alloc);
    let arrival = bay.take_in(stream, asdu.smp_cnt, unit, &mut scans)?;
    put_arrival(&mut feed.events, stream, arrival)?;
    put_scans(&mut feed.lines, &mut feed.missing, plan, &scans)?;
    Ok(())
}

/// A unit, if it is of a stream.
fn put_unit<A: Allocator + Copy>(
    alloc: A,
    plan: &Plan<A>,
    bay: &mut Bay<Unit<A>, A>,
    origin: &Origin<'_>,
    asdu: &Asdu,
    feed: &mut Feed<A>,
) -> Result<(), AllocError>
    ensures { OnOk result (spec.FeedsAll plan.now bay.old (spec.with_unit plan.now origin.now asdu.now)
        (spec.unit_events plan.now origin.now asdu.now) feed.old feed.new bay.new) }
{
    match stream_in(plan, origin, asdu) {
        None => Ok(()),
        Some(stream) => put_unit_of(alloc, plan, bay, origin, asdu, stream, feed),
    }
}

/// The units of a frame, one after the other.
fn put_units<A: Allocator + Copy>(
    alloc: A,
    plan: &Plan<A>,
    bay: &mut Bay<Unit<A>, A>,
    origin: &Origin<'_>,
    asdus: &[Asdu],
    feed: &mut Feed<A>,
) -> Result<(), AllocError>
    ensures { OnOk result (spec.FeedsAll plan.now bay.old (spec.with_units plan.now origin.now asdus.now)
        (spec.units_events plan.now origin.now asdus.now) feed.old feed.new bay.new) }
{
    for asdu in asdus {
        put_unit(alloc, plan, bay, origin, asdu, feed)?;
    }
    Ok(())
}

/// A frame of sampled values.
fn put_sampled<A: Allocator + Copy>(
    alloc: A,
    plan: &Plan<A>,
    bay: &mut Bay<Unit<A>, A>,
    bits: &[bool],
    bytes: &[u8],
    time: u64,
    ethernet: &Ethernet,
    feed: &mut Feed<A>,
) -> Result<(), AllocError>
    requires order { ethernet.now.payload.from ≤ ethernet.now.payload.to }
    requires within { ethernet.now.payload.to ≤ length bytes.now }
    ensures { OnOk result (spec.FeedsAll plan.now bay.old
        (spec.sampled_units plan.now (spec.came_at bytes.now time) ethernet.now bits.now (frame_at bytes.now ethernet.now.payload.from ethernet.now.payload.to))
        (spec.sampled_events plan.now (spec.came_at bytes.now time) ethernet.now bits.now (frame_at bytes.now ethernet.now.payload.from ethernet.now.payload.to))
        feed.old feed.new bay.new) }
{
    let payload = ethernet.payload;
    match read_sampled_values(bytes, payload.from, payload.to) {
        Ok(sampled) => {
            let origin = Origin {
                bytes,
                time,
                ethernet: *ethernet,
                app_id: sampled.app_id,
                bits,
            };
            put_units(alloc, plan, bay, &origin, sampled.asdus(), feed)
        }
        Err(fault) => skip(&mut feed.events, fault),
    }
}

/// A frame of GOOSE.
fn take_goose<A: Allocator>(
    plan: &Plan<A>,
    listening: &mut Listening<A>,
    bytes: &[u8],
    time: u64,
    ethernet: &Ethernet,
    events: &mut Vec<Event, A>,
) -> Result<(), AllocError>
    requires order { ethernet.now.payload.from ≤ ethernet.now.payload.to }
    requires within { ethernet.now.payload.to ≤ length bytes.now }
    ensures state { OnOk result (listening.new ≡ spec.goose_heard plan.now (spec.came_at bytes.now time)
        (goose_at bytes.now ethernet.now.payload.from ethernet.now.payload.to) listening.old) }
    ensures events { OnOk result (events.new.items ≡ events.old.items ++ spec.goose_events plan.now (spec.came_at bytes.now time)
        (goose_at bytes.now ethernet.now.payload.from ethernet.now.payload.to) listening.old) }
{
    let payload = ethernet.payload;
    match read_goose(bytes, payload.from, payload.to) {
        Ok(goose) => listening.message(&plan.text, bytes, time, &goose, events),
        Err(fault) => skip(events, fault),
    }
}

/// What a frame carries.
fn take_payload<A: Allocator + Copy>(
    alloc: A,
    plan: &Plan<A>,
    bay: &mut Bay<Unit<A>, A>,
    listening: &mut Listening<A>,
    bytes: &[u8],
    time: u64,
    ethernet: &Ethernet,
    feed: &mut Feed<A>,
) -> Result<(), AllocError>
    requires order { ethernet.now.payload.from ≤ ethernet.now.payload.to }
    requires within { ethernet.now.payload.to ≤ length bytes.now }
    ensures state { OnOk result (listening.new ≡ spec.payload_heard plan.now (spec.came_at bytes.now time) (Ok ethernet.now) listening.old) }
    ensures fed { OnOk result (spec.FeedsAll plan.now bay.old
        (spec.payload_units plan.now (spec.came_at bytes.now time) (bits_of listening.old.held) (Ok ethernet.now))
        (spec.payload_events plan.now (spec.came_at bytes.now time) (Ok ethernet.now) listening.old) feed.old feed.new bay.new) }
{
    match ethernet.ether_type {
        0x88BA => {
            let bits = listening.bits(alloc)?;
            put_sampled(alloc, plan, bay, &bits, bytes, time, ethernet, feed)
        }
        0x88B8 => take_goose(plan, listening, bytes, time, ethernet, &mut feed.events),
        _ => Ok(()),
    }
}

/// A frame.
fn take_frame<A: Allocator + Copy>(
    alloc: A,
    plan: &Plan<A>,
    bay: &mut Bay<Unit<A>, A>,
    listening: &mut Listening<A>,
    bytes: &[u8],
    time: u64,
    feed: &mut Feed<A>,
) -> Result<(), AllocError>
    ensures { OnOk result (spec.TakesAll plan.now (spec.came_at bytes.now time) bay.old listening.old feed.old feed.new bay.new listening.new) }
{
    listening.pass(time, &mut feed.events)?;
    match read_ethernet(bytes, 0, bytes.len()) {
        Ok(ethernet) => {
            take_payload(alloc, plan, bay, listening, bytes, time, &ethernet, feed)?;
            Ok(())
        }
        Err(fault) => {
            skip(&mut feed.events, fault)?;
            Ok(())
        }
    }
}

impl<A: Allocator + Copy> Recorder<A> {
    ghost use Rattle.std.specs.Prelude.{◌≡◌, [], OnOk, IfOk};
    ghost use Rattle.dfr_capture.specs.Recordings as spec;

    /// Before the first frame.
    #[tactic(auto, unfolding(crate::specs::Recordings::listening, crate::specs::Recordings::units))]
    pub fn new(alloc: A, plan: Plan<A>) -> Result<Recorder<A>, AllocError>
        ensures plan { IfOk result (λ r. r.plan ≡ plan) }
        ensures kept { IfOk result (λ r. spec.IsKept [] r) }
    {
        let bay = Bay::new(alloc, plan.settings, plan.streams.len())?;
        let listening = Listening::new(alloc, &plan)?;
        Ok(Recorder {
            alloc,
            plan,
            bay,
            listening,
        })
    }

    /// Takes in a frame that came at this nanosecond since 1970. A feed grows by just what the
    /// definitions over all frames have more with it. The error is that memory ran out; then nothing
    /// is promised.
    pub fn take_in(&mut self, bytes: &[u8], time: u64, feed: &mut Feed<A>) -> Result<(), AllocError>
        ensures { OnOk result (spec.IsTaken self.old (spec.came_at bytes.now time) feed.old feed.new self.new) }
    {
        take_frame(
            self.alloc,
            &self.plan,
            &mut self.bay,
            &mut self.listening,
            bytes,
            time,
            feed,
        )?;
        Ok(())
    }
}
