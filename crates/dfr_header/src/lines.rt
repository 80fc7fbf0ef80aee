//! The lines of a header, each of which ends in CR LF.

ghost use Rattle.std.specs.Prelude.{◌≡◌, ◌++◌, true, OnOk};
ghost use Rattle.comtrade_format.specs.Shape.{is_writable};
ghost use Rattle.dfr_header.specs.Lines as spec;

use comtrade_values::{has_date, put, put_civil, put_number, put_padded};
use std::alloc::{AllocError, Allocator};

/// Appends CR LF.
pub(crate) fn end_line<A: Allocator>(out: &mut Vec<u8, A>) -> Result<(), AllocError>
    ensures { OnOk result (out.new.items ≡ out.old.items ++ spec.line_end) }
{
    out.extend_from_slice(b"\r\n")
}

/// Appends a line of a name and a text.
#[tactic(auto, unfolding(crate::specs::Lines::text_line))]
pub(crate) fn put_text_line<A: Allocator>(
    out: &mut Vec<u8, A>,
    name: &str,
    text: &[u8],
) -> Result<(), AllocError>
    ensures { OnOk result (out.new.items ≡ out.old.items ++ spec.text_line name.now text.now) }
{
    put(out, name)?;
    out.extend_from_slice(text)?;
    end_line(out)
}

/// Appends a line of a name and a number, with what it counts.
#[tactic(auto, unfolding(crate::specs::Lines::number_line))]
pub(crate) fn put_number_line<A: Allocator>(
    out: &mut Vec<u8, A>,
    name: &str,
    n: u64,
    unit: &str,
) -> Result<(), AllocError>
    ensures { OnOk result (out.new.items ≡ out.old.items ++ spec.number_line name.now n unit.now) }
{
    put(out, name)?;
    put_number(out, n)?;
    put(out, unit)?;
    end_line(out)
}

/// Appends an instant of a file, in microseconds since 1970-01-01 00:00:00 UTC.
fn put_instant<A: Allocator>(out: &mut Vec<u8, A>, instant: i64) -> Result<(), AllocError>
    requires { is_writable instant ≡ true }
    ensures { OnOk result (out.new.items ≡ out.old.items ++ spec.instant_text instant) }
{
    put(out, " at ")?;
    put_civil(out, instant, b' ')?;
    put(out, " UTC")
}

/// Appends an instant, if there is one that a file can show.
fn put_at<A: Allocator>(out: &mut Vec<u8, A>, instant: Option<i64>) -> Result<(), AllocError>
    ensures { OnOk result (out.new.items ≡ out.old.items ++ spec.at_text instant) }
{
    match instant {
        Some(instant) if has_date(instant) => put_instant(out, instant),
        _ => Ok(()),
    }
}

/// Appends a line of a scan's number and its instant.
#[tactic(auto, unfolding(crate::specs::Lines::scan_line))]
pub(crate) fn put_scan_line<A: Allocator>(
    out: &mut Vec<u8, A>,
    name: &str,
    scan: u64,
    instant: Option<i64>,
) -> Result<(), AllocError>
    ensures { OnOk result (out.new.items ≡ out.old.items ++ spec.scan_line name.now scan instant) }
{
    put(out, name)?;
    put_number(out, scan)?;
    put_at(out, instant)?;
    end_line(out)
}

fn put_sign<A: Allocator>(out: &mut Vec<u8, A>, is_negative: bool) -> Result<(), AllocError>
    ensures { OnOk result (out.new.items ≡ out.old.items ++ spec.sign_text is_negative) }
{
    put(out, if is_negative { "-" } else { "+" })
}

/// Appends a line of a name and a time in seconds, from its sign and its microseconds.
#[tactic(auto, unfolding(crate::specs::Lines::seconds_line))]
pub(crate) fn put_seconds_line<A: Allocator>(
    out: &mut Vec<u8, A>,
    name: &str,
    micros: i64,
) -> Result<(), AllocError>
    ensures { OnOk result (out.new.items ≡ out.old.items ++ spec.seconds_line name.now micros) }
{
    let size = micros.unsigned_abs();
    put(out, name)?;
    put_sign(out, micros < 0)?;
    put_number(out, size / 1_000_000)?;
    put(out, ".")?;
    put_padded(out, size % 1_000_000, 6)?;
    put(out, " s")?;
    end_line(out)
}

/// Appends a line of a name and parts per million, from the parts per billion.
#[tactic(auto, unfolding(crate::specs::Lines::parts_line))]
pub(crate) fn put_parts_line<A: Allocator>(
    out: &mut Vec<u8, A>,
    name: &str,
    parts: i64,
) -> Result<(), AllocError>
    ensures { OnOk result (out.new.items ≡ out.old.items ++ spec.parts_line name.now parts) }
{
    let size = parts.unsigned_abs();
    put(out, name)?;
    put_sign(out, parts < 0)?;
    put_number(out, size / 1_000)?;
    put(out, ".")?;
    put_padded(out, size % 1_000, 3)?;
    put(out, " ppm")?;
    end_line(out)
}
