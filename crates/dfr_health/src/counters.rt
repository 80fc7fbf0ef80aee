//! The metrics of records, and of what else is counted.

ghost use Rattle.std.specs.Prelude.{◌≡◌, ◌++◌, OnOk};
ghost use Rattle.dfr_health.specs.Page as spec;

use crate::counts::Unwritten;
use crate::metrics::{put_counter, put_head};
use crate::reasons::put_unwritten;
use crate::standing::Standing;
use std::alloc::{AllocError, Allocator};

/// Appends how many records were stored.
#[tactic(auto, unfolding(crate::specs::Page::recorded_text))]
fn put_recorded<A: Allocator>(
    out: &mut Vec<u8, A>,
    station: &[u8],
    count: u64,
) -> Result<(), AllocError>
    ensures { OnOk result (out.new.items ≡ out.old.items ++ spec.recorded_text station.now count) }
{
    let help = "Records that were stored.";
    put_counter(out, station, "dfrd_records_total", help, count)
}

/// Appends a metric of the records that were given up, by the reason.
fn put_by_reason<A: Allocator>(
    out: &mut Vec<u8, A>,
    station: &[u8],
    name: &str,
    help: &str,
    given_up: Unwritten,
) -> Result<(), AllocError>
    ensures { OnOk result (out.new.items ≡ out.old.items ++ spec.by_reason_text station.now name.now help.now given_up) }
{
    put_head(out, name, "counter", help)?;
    put_unwritten(out, name, station, given_up)
}

/// Appends how many records were given up.
#[tactic(auto, unfolding(crate::specs::Page::given_up_text))]
fn put_given_up<A: Allocator>(
    out: &mut Vec<u8, A>,
    station: &[u8],
    given_up: Unwritten,
) -> Result<(), AllocError>
    ensures { OnOk result (out.new.items ≡ out.old.items ++ spec.given_up_text station.now given_up) }
{
    let help = "Records that were given up, by the reason.";
    put_by_reason(out, station, "dfrd_unwritten_total", help, given_up)
}

/// Appends how many records were stored, and how many were given up.
pub(crate) fn put_records<A: Allocator>(
    out: &mut Vec<u8, A>,
    station: &[u8],
    standing: &Standing,
) -> Result<(), AllocError>
    ensures { OnOk result (out.new.items ≡ out.old.items ++ spec.records_text station.now standing.now) }
{
    put_recorded(out, station, standing.records.total())?;
    put_given_up(out, station, standing.unwritten)
}

/// Appends how many old pairs were deleted.
#[tactic(auto, unfolding(crate::specs::Page::removed_text))]
fn put_removed<A: Allocator>(
    out: &mut Vec<u8, A>,
    station: &[u8],
    count: u64,
) -> Result<(), AllocError>
    ensures { OnOk result (out.new.items ≡ out.old.items ++ spec.removed_text station.now count) }
{
    let help = "Old pairs that were deleted.";
    put_counter(out, station, "dfrd_removed_total", help, count)
}

/// Appends at how many scans a rule fired in vain.
#[tactic(auto, unfolding(crate::specs::Page::unopened_text))]
fn put_unopened<A: Allocator>(
    out: &mut Vec<u8, A>,
    station: &[u8],
    count: u64,
) -> Result<(), AllocError>
    ensures { OnOk result (out.new.items ≡ out.old.items ++ spec.unopened_text station.now count) }
{
    let help = "Scans at which a rule fired while the shelf was full.";
    put_counter(out, station, "dfrd_missed_triggers_total", help, count)
}

/// Appends how many lines were not printed.
#[tactic(auto, unfolding(crate::specs::Page::unprinted_text))]
fn put_unprinted<A: Allocator>(
    out: &mut Vec<u8, A>,
    station: &[u8],
    count: u64,
) -> Result<(), AllocError>
    ensures { OnOk result (out.new.items ≡ out.old.items ++ spec.unprinted_text station.now count) }
{
    let help = "Lines that were not printed.";
    put_counter(out, station, "dfrd_missed_lines_total", help, count)
}

/// Appends the counts of pairs that were deleted, triggers that were missed and lines that were not
/// printed.
pub(crate) fn put_others<A: Allocator>(
    out: &mut Vec<u8, A>,
    station: &[u8],
    standing: &Standing,
) -> Result<(), AllocError>
    ensures { OnOk result (out.new.items ≡ out.old.items ++ spec.others_text station.now standing.now) }
{
    put_removed(out, station, standing.removed)?;
    put_unopened(out, station, standing.unopened.total())?;
    put_unprinted(out, station, standing.missed)
}
