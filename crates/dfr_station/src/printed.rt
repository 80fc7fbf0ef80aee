//! The lines of events: the instant of printing, what happened, and its numbers with their names.

ghost use Rattle.std.specs.Prelude.{◌≡◌, ◌++◌, OnOk};
ghost use Rattle.dfr_station.specs.Printed as spec;

use crate::event::{Asked, ClockState, Event, Replied, Trouble};
use crate::intake::Why;
use crate::spelled::{
    put_clock, put_instant, put_refused, put_seconds, put_skipped, put_trouble_word, put_why,
};
use comtrade_values::{put, put_with};
use dfr_folder::{Key, put_key};
use dfr_recorder::{Cause, Extent, Hit, TriggerFault};
use std::alloc::{AllocError, Allocator};

fn put_hit<A: Allocator>(out: &mut Vec<u8, A>, hit: Hit) -> Result<(), AllocError>
    ensures { OnOk result (out.new.items ≡ out.old.items ++ spec.hit_text hit) }
{
    match hit {
        Hit::Opened(n) => put_with(out, "opened ", n),
        Hit::Extended(n) => put_with(out, "extended ", n),
        Hit::AtLimit(n) => put_with(out, "at-limit ", n),
        Hit::ShelfFull => put(out, "refused shelf-full"),
    }
}

fn put_answer<A: Allocator>(
    out: &mut Vec<u8, A>,
    answer: Result<Hit, TriggerFault>,
) -> Result<(), AllocError>
    ensures { OnOk result (out.new.items ≡ out.old.items ++ spec.answer_text answer) }
{
    match answer {
        Ok(hit) => put_hit(out, hit),
        Err(TriggerFault::NoScan) => put(out, "refused no-scan"),
        Err(TriggerFault::ShelfFull) => put(out, "refused shelf-full"),
        Err(TriggerFault::Covered) => put(out, "refused covered"),
        Err(TriggerFault::Memory) => put(out, "refused memory"),
    }
}

fn put_replied<A: Allocator>(out: &mut Vec<u8, A>, reply: Replied) -> Result<(), AllocError>
    ensures { OnOk result (out.new.items ≡ out.old.items ++ spec.replied_text reply) }
{
    match reply {
        Replied::Trigger(answer) => {
            put(out, "trigger ")?;
            put_answer(out, answer)
        }
        Replied::Rules(true) => put(out, "rules set"),
        Replied::Rules(false) => put(out, "rules refused no-channel"),
        Replied::Stop => put(out, "stop"),
    }
}

fn asked_word(asked: Asked) -> &'static str
    ensures { result.now ≡ spec.asked_word asked }
{
    match asked {
        Asked::Input => "input at ",
        Asked::Operator => "operator at ",
    }
}

#[tactic(auto, unfolding(crate::specs::Printed::reply_text))]
fn put_reply<A: Allocator>(
    out: &mut Vec<u8, A>,
    asked: Asked,
    at: u64,
    reply: Replied,
) -> Result<(), AllocError>
    ensures { OnOk result (out.new.items ≡ out.old.items ++ spec.reply_text asked at reply) }
{
    put_with(out, asked_word(asked), at)?;
    put(out, " ")?;
    put_replied(out, reply)
}

fn put_cause<A: Allocator>(out: &mut Vec<u8, A>, cause: Cause) -> Result<(), AllocError>
    ensures { OnOk result (out.new.items ≡ out.old.items ++ spec.cause_text cause) }
{
    match cause {
        Cause::Manual => put(out, " manual"),
        Cause::Rule(rule) => put_with(out, " rule ", rule as u64),
    }
}

/// Appends a word and a record's number, first scan, trigger, last scan and cause.
#[tactic(auto, unfolding(crate::specs::Printed::extent_text))]
fn put_extent<A: Allocator>(
    out: &mut Vec<u8, A>,
    word: &str,
    extent: Extent,
) -> Result<(), AllocError>
    ensures { OnOk result (out.new.items ≡ out.old.items ++ spec.extent_text word.now extent) }
{
    put_with(out, word, extent.number)?;
    put_with(out, " first ", extent.first)?;
    put_with(out, " trigger ", extent.trigger)?;
    put_with(out, " last ", extent.last)?;
    put_cause(out, extent.cause)
}

#[tactic(auto, unfolding(crate::specs::Printed::counts_text))]
fn put_counts<A: Allocator>(
    out: &mut Vec<u8, A>,
    word: &str,
    scans: u64,
    lost: u64,
    records: u64,
) -> Result<(), AllocError>
    ensures { OnOk result (out.new.items ≡ out.old.items ++ spec.counts_text word.now scans lost records) }
{
    put_with(out, word, scans)?;
    put_with(out, " lost ", lost)?;
    put_with(out, " records ", records)
}

#[tactic(auto, unfolding(crate::specs::Printed::losses_text))]
fn put_losses<A: Allocator>(
    out: &mut Vec<u8, A>,
    first: u64,
    last: u64,
    count: u64,
    why: Why,
) -> Result<(), AllocError>
    ensures { OnOk result (out.new.items ≡ out.old.items ++ spec.losses_text first last count why) }
{
    put_with(out, "lost ", count)?;
    put_with(out, " from ", first)?;
    put_with(out, " to ", last)?;
    put(out, " ")?;
    put_why(out, why)
}

fn put_end<A: Allocator>(out: &mut Vec<u8, A>, is_cut: bool) -> Result<(), AllocError>
    ensures { OnOk result (out.new.items ≡ out.old.items ++ spec.cut_text is_cut) }
{
    put(out, if is_cut { " cut" } else { "" })
}

#[tactic(auto, unfolding(crate::specs::Printed::record_text))]
fn put_record<A: Allocator>(
    out: &mut Vec<u8, A>,
    extent: Extent,
    key: Key,
    clock: Option<ClockState>,
    is_cut: bool,
) -> Result<(), AllocError>
    ensures { OnOk result (out.new.items ≡ out.old.items ++ spec.record_text extent key clock is_cut) }
{
    put_extent(out, "record ", extent)?;
    put(out, " ")?;
    put_key(out, key)?;
    put(out, ".cfg ")?;
    put_key(out, key)?;
    put(out, ".dat")?;
    put_clock(out, clock)?;
    put_end(out, is_cut)
}

#[tactic(auto, unfolding(crate::specs::Printed::unwritten_text))]
fn put_unwritten<A: Allocator>(
    out: &mut Vec<u8, A>,
    extent: Extent,
    key: Key,
    why: Trouble,
) -> Result<(), AllocError>
    ensures { OnOk result (out.new.items ≡ out.old.items ++ spec.unwritten_text extent key why) }
{
    put_extent(out, "unwritten ", extent)?;
    put(out, " ")?;
    put_key(out, key)?;
    put(out, " ")?;
    put_trouble_word(out, why)
}

#[tactic(auto, unfolding(crate::specs::Printed::started_text))]
fn put_started<A: Allocator>(out: &mut Vec<u8, A>, start: i64, rate: u32) -> Result<(), AllocError>
    ensures { OnOk result (out.new.items ≡ out.old.items ++ spec.started_text start rate) }
{
    put(out, "start ")?;
    put_instant(out, start)?;
    put_with(out, " rate ", rate as u64)
}

#[tactic(auto, unfolding(crate::specs::Printed::minute_text))]
fn put_minute<A: Allocator>(
    out: &mut Vec<u8, A>,
    scans: u64,
    lost: u64,
    records: u64,
    waiting: u64,
    missed: u64,
    clock: Option<ClockState>,
) -> Result<(), AllocError>
    ensures { OnOk result (out.new.items ≡ out.old.items ++ spec.minute_text scans lost records waiting missed clock) }
{
    put_counts(out, "minute scans ", scans, lost, records)?;
    put_with(out, " waiting ", waiting)?;
    put_with(out, " missed ", missed)?;
    put_clock(out, clock)
}

#[tactic(auto, unfolding(crate::specs::Printed::ended_text))]
fn put_ended<A: Allocator>(
    out: &mut Vec<u8, A>,
    scans: u64,
    lost: u64,
    records: u64,
    left: u64,
) -> Result<(), AllocError>
    ensures { OnOk result (out.new.items ≡ out.old.items ++ spec.ended_text scans lost records left) }
{
    put_counts(out, "end scans ", scans, lost, records)?;
    put_with(out, " left ", left)
}

/// Appends that the store did not take a pair.
fn put_trouble<A: Allocator>(out: &mut Vec<u8, A>, trouble: Trouble) -> Result<(), AllocError>
    ensures { OnOk result (out.new.items ≡ out.old.items ++ spec.trouble_text trouble) }
{
    put(out, "trouble ")?;
    put_trouble_word(out, trouble)
}

/// Appends what happened.
fn put_what<A: Allocator>(out: &mut Vec<u8, A>, event: Event) -> Result<(), AllocError>
    ensures { OnOk result (out.new.items ≡ out.old.items ++ spec.what_text event) }
{
    match event {
        Event::Started { start, rate } => put_started(out, start, rate),
        Event::Lost {
            first,
            last,
            count,
            why,
        } => put_losses(out, first, last, count, why),
        Event::Line { line, why } => put_skipped(out, line, why),
        Event::Order(why) => put_refused(out, why),
        Event::Reply { asked, at, reply } => put_reply(out, asked, at, reply),
        Event::Record {
            extent,
            key,
            clock,
            is_cut,
        } => put_record(out, extent, key, clock, is_cut),
        Event::Unwritten { extent, key, why } => put_unwritten(out, extent, key, why),
        Event::ShelfFull(waiting) => put_with(out, "shelf full ", waiting as u64),
        Event::ShelfFree => put(out, "shelf free"),
        Event::Unopened(count) => put_with(out, "missed triggers ", count),
        Event::Trouble(trouble) => put_trouble(out, trouble),
        Event::Over => put(out, "trouble over"),
        Event::Removed(count) => put_with(out, "removed ", count),
        Event::Unfinished => put(out, "unfinished record"),
        Event::Cut(bytes) => put_with(out, "cut frame ", bytes),
        Event::Noise(at) => put_with(out, "noise after ", at),
        Event::Broken => put(out, "input broken"),
        Event::Memory => put(out, "memory"),
        Event::Silent(seconds) => put_with(out, "silent ", seconds),
        Event::Heard => put(out, "silent over"),
        Event::Undated => put(out, "undated"),
        Event::ClockSet(micros) => put_seconds(out, "clock set ", micros),
        Event::Missed(count) => put_with(out, "missed lines ", count),
        Event::Minute {
            scans,
            lost,
            records,
            waiting,
            missed,
            clock,
        } => put_minute(out, scans, lost, records, waiting, missed, clock),
        Event::Ended {
            scans,
            lost,
            records,
            left,
        } => put_ended(out, scans, lost, records, left),
    }
}

/// Appends an event's line. `at` is the instant of printing, in microseconds since 1970-01-01
/// 00:00:00 UTC.
#[tactic(auto, unfolding(crate::specs::Printed::event_line))]
pub fn put_event<A: Allocator>(
    out: &mut Vec<u8, A>,
    at: i64,
    event: Event,
) -> Result<(), AllocError>
    ensures { OnOk result (out.new.items ≡ out.old.items ++ spec.event_line at event) }
{
    put_instant(out, at)?;
    put(out, " ")?;
    put_what(out, event)?;
    put(out, "\n")
}
