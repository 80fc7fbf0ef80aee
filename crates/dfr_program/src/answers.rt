//! What each command prints.

ghost use Rattle.std.specs.Prelude.{◌≡◌, ◌≢◌, ◌++◌, OnOk, Err};
ghost use Rattle.dfr_program.specs.FaultTexts as words;
ghost use Rattle.dfr_program.specs.Texts as spec;

use comtrade_values::{put, put_number, put_with};
use dfr_channels::RuleFault;
use dfr_recorder::{Cause, Extent, Hit, LostRefusal, ScanRefusal, Scanned, TriggerFault};
use std::alloc::{AllocError, Allocator};

fn put_hit<A: Allocator>(out: &mut Vec<u8, A>, hit: Hit) -> Result<(), AllocError>
    ensures { OnOk result (out.new.items ≡ out.old.items ++ spec.hit_text hit) }
{
    match hit {
        Hit::Opened(record) => put_with(out, "opened ", record),
        Hit::Extended(record) => put_with(out, "extended ", record),
        Hit::AtLimit(record) => put_with(out, "at-limit ", record),
        Hit::ShelfFull => put(out, "shelf-full"),
    }
}

/// Appends what the trigger of a scan did, where a rule fired.
fn put_fired<A: Allocator>(out: &mut Vec<u8, A>, trigger: Option<Hit>) -> Result<(), AllocError>
    ensures { OnOk result (out.new.items ≡ out.old.items ++ spec.fired_text trigger) }
{
    match trigger {
        Some(hit) => {
            put(out, " ")?;
            put_hit(out, hit)
        }
        None => Ok(()),
    }
}

/// Appends the record that closed with a scan, where one did.
fn put_closed<A: Allocator>(out: &mut Vec<u8, A>, closed: Option<u64>) -> Result<(), AllocError>
    ensures { OnOk result (out.new.items ≡ out.old.items ++ spec.closed_text closed) }
{
    match closed {
        Some(record) => put_with(out, " closed ", record),
        None => Ok(()),
    }
}

/// Appends `scan K`, what a trigger did where a rule fired, and ` closed R` where a record closed.
#[tactic(auto, unfolding(crate::specs::Texts::scanned_text))]
pub(crate) fn put_scanned<A: Allocator>(
    out: &mut Vec<u8, A>,
    scanned: Scanned,
) -> Result<(), AllocError>
    ensures { OnOk result (out.new.items ≡ out.old.items ++ spec.scanned_text scanned) }
{
    put_with(out, "scan ", scanned.number)?;
    put_fired(out, scanned.trigger)?;
    put_closed(out, scanned.closed)?;
    put(out, "\n")
}

/// Appends why a scan was refused. `Memory` has no text: it fails.
#[tactic(auto, unfolding(crate::specs::Texts::scan_refusal_text))]
pub(crate) fn put_scan_refusal<A: Allocator>(
    out: &mut Vec<u8, A>,
    refusal: ScanRefusal,
) -> Result<(), AllocError>
    ensures text { OnOk result (out.new.items ≡ out.old.items ++ spec.scan_refusal_text refusal) }
    ensures named { OnOk result (refusal ≢ ScanRefusal.Memory) }
{
    match refusal {
        ScanRefusal::Shape => put(out, "scan refused shape\n"),
        ScanRefusal::Range(i) => {
            put_with(out, "scan refused range ", u64::from(i))?;
            put(out, "\n")
        }
        ScanRefusal::ClockEnd => put(out, "scan refused clock-end\n"),
        ScanRefusal::Memory => Err(AllocError),
    }
}

/// Appends `lost K`, and ` closed R` where a record closed; or why the lost scan was refused.
/// `Memory` has no text: it fails.
#[tactic(auto, unfolding(crate::specs::Texts::lost_text))]
pub(crate) fn put_lost<A: Allocator>(
    out: &mut Vec<u8, A>,
    answer: Result<Scanned, LostRefusal>,
) -> Result<(), AllocError>
    ensures text { OnOk result (out.new.items ≡ out.old.items ++ spec.lost_text answer) }
    ensures named { OnOk result (answer ≢ Err LostRefusal.Memory) }
{
    match answer {
        Ok(lost) => {
            put_with(out, "lost ", lost.number)?;
            put_closed(out, lost.closed)?;
            put(out, "\n")
        }
        Err(LostRefusal::ClockEnd) => put(out, "lost refused clock-end\n"),
        Err(LostRefusal::Memory) => Err(AllocError),
    }
}

/// Appends what a trigger did, or why it did nothing. `Memory` has no text: it fails.
#[tactic(auto, unfolding(crate::specs::Texts::trigger_text))]
pub(crate) fn put_trigger<A: Allocator>(
    out: &mut Vec<u8, A>,
    answer: Result<Hit, TriggerFault>,
) -> Result<(), AllocError>
    ensures text { OnOk result (out.new.items ≡ out.old.items ++ spec.trigger_text answer) }
    ensures named { OnOk result (answer ≢ Err TriggerFault.Memory) }
{
    match answer {
        Ok(hit) => {
            put(out, "trigger ")?;
            put_hit(out, hit)?;
            put(out, "\n")
        }
        Err(TriggerFault::NoScan) => put(out, "trigger refused no-scan\n"),
        Err(TriggerFault::Covered) => put(out, "trigger refused covered\n"),
        Err(TriggerFault::ShelfFull) => put(out, "trigger refused shelf-full\n"),
        Err(TriggerFault::Memory) => Err(AllocError),
    }
}

#[tactic(auto, unfolding(crate::specs::FaultTexts::rule_word))]
pub(crate) fn rule_word(fault: RuleFault) -> &'static str
    ensures { result.now ≡ words.rule_word fault }
{
    match fault {
        RuleFault::TooMany => "too-many",
        RuleFault::NoChannel(_) => "no-channel",
    }
}

#[tactic(auto, unfolding(crate::specs::Texts::rules_refused_text))]
pub(crate) fn put_rules_refused<A: Allocator>(
    out: &mut Vec<u8, A>,
    fault: RuleFault,
) -> Result<(), AllocError>
    ensures { OnOk result (out.new.items ≡ out.old.items ++ spec.rules_refused_text fault) }
{
    put(out, "rules refused ")?;
    put(out, rule_word(fault))?;
    put(out, "\n")
}

/// Appends what opened a record, and a line end.
fn put_cause<A: Allocator>(out: &mut Vec<u8, A>, cause: Cause) -> Result<(), AllocError>
    ensures { OnOk result (out.new.items ≡ out.old.items ++ spec.cause_text cause) }
{
    match cause {
        Cause::Manual => put(out, " manual\n"),
        Cause::Rule(rule) => {
            put_with(out, " rule ", u64::from(rule))?;
            put(out, "\n")
        }
    }
}

/// Appends `record N FIRST TRIGGER LAST`, and the cause.
#[tactic(auto, unfolding(crate::specs::Texts::extent_text))]
pub(crate) fn put_extent<A: Allocator>(
    out: &mut Vec<u8, A>,
    extent: Extent,
) -> Result<(), AllocError>
    ensures { OnOk result (out.new.items ≡ out.old.items ++ spec.extent_text extent) }
{
    put_with(out, "record ", extent.number)?;
    put_with(out, " ", extent.first)?;
    put_with(out, " ", extent.trigger)?;
    put_with(out, " ", extent.last)?;
    put_cause(out, extent.cause)
}

/// Appends the name of a file, its length in bytes, and a line end.
#[tactic(auto, unfolding(crate::specs::Texts::length_text))]
pub(crate) fn put_length<A: Allocator>(
    out: &mut Vec<u8, A>,
    name: &str,
    length: usize,
) -> Result<(), AllocError>
    ensures { OnOk result (out.new.items ≡ out.old.items ++ spec.length_text name.now length) }
{
    put(out, name)?;
    put_number(out, length as u64)?;
    put(out, "\n")
}
