//! What a header tells of the record itself: why there is one, which scans it has, and what of them
//! is lost.

ghost use Rattle.std.specs.Prelude.{◌≡◌, ◌++◌, OnOk, option_copied};
ghost use Rattle.dfr_header.specs.Headers as spec;

use crate::lines::{end_line, put_number_line, put_scan_line};
use crate::rules::put_why;
use comtrade_values::put;
use dfr_channels::{Layout, Rule};
use dfr_recorder::{Cause, Extent};
use std::alloc::{AllocError, Allocator};

/// Appends a line that says what opened the record.
fn put_trigger<A: Allocator>(
    out: &mut Vec<u8, A>,
    layout: &Layout<A>,
    rules: Option<&[Rule]>,
    cause: Cause,
) -> Result<(), AllocError>
    ensures { OnOk result (out.new.items ≡ out.old.items
        ++ spec.trigger_text layout.now (option_copied rules.entry) cause) }
{
    put(out, "Trigger: ")?;
    put_why(out, layout, rules, cause)?;
    end_line(out)
}

/// Appends the record's number, and what opened it.
pub(crate) fn put_reason<A: Allocator>(
    out: &mut Vec<u8, A>,
    layout: &Layout<A>,
    rules: Option<&[Rule]>,
    extent: Extent,
) -> Result<(), AllocError>
    ensures { OnOk result (out.new.items ≡ out.old.items
        ++ spec.reason_text layout.now (option_copied rules.entry) extent) }
{
    put_number_line(out, "Record: ", extent.number, "")?;
    put_trigger(out, layout, rules, extent.cause)
}

/// Appends which scans the record has.
pub(crate) fn put_scans<A: Allocator>(
    out: &mut Vec<u8, A>,
    extent: Extent,
    first: Option<i64>,
    trigger: Option<i64>,
) -> Result<(), AllocError>
    ensures { OnOk result (out.new.items ≡ out.old.items ++ spec.scans_text extent first trigger) }
{
    put_scan_line(out, "First scan: ", extent.first, first)?;
    put_scan_line(out, "Trigger at scan: ", extent.trigger, trigger)?;
    put_scan_line(out, "Last scan: ", extent.last, None)?;
    Ok(())
}

fn put_empty<A: Allocator>(out: &mut Vec<u8, A>, empty: Option<u64>) -> Result<(), AllocError>
    ensures { OnOk result (out.new.items ≡ out.old.items ++ spec.empty_text empty) }
{
    match empty {
        Some(n) => put_number_line(out, "Scans lost, or without a sample: ", n, ""),
        None => Ok(()),
    }
}

fn put_cut<A: Allocator>(out: &mut Vec<u8, A>, is_cut: bool) -> Result<(), AllocError>
    ensures { OnOk result (out.new.items ≡ out.old.items ++ spec.cut_text is_cut) }
{
    if is_cut {
        put(out, "The input ended before the record did.\r\n")
    } else {
        Ok(())
    }
}

/// Appends what is missing in the record.
pub(crate) fn put_losses<A: Allocator>(
    out: &mut Vec<u8, A>,
    empty: Option<u64>,
    is_cut: bool,
) -> Result<(), AllocError>
    ensures { OnOk result (out.new.items ≡ out.old.items ++ (spec.empty_text empty ++ spec.cut_text is_cut)) }
{
    put_empty(out, empty)?;
    put_cut(out, is_cut)
}
