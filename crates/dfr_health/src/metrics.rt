//! Metrics as Prometheus reads them: each has its help, its type, and samples that name the
//! station.

ghost use Rattle.std.specs.Prelude.{◌≡◌, ◌++◌, OnOk, codes};
ghost use Rattle.dfr_health.specs.Metrics as spec;

use comtrade_values::{put, put_padded, put_with};
use std::alloc::{AllocError, Allocator};

/// Appends a station's name as the value of a label: quotes and backslashes have a backslash before
/// them, and a line feed is `\n`.
pub fn put_escaped<A: Allocator>(out: &mut Vec<u8, A>, name: &[u8]) -> Result<(), AllocError>
    ensures { OnOk result (out.new.items ≡ out.old.items ++ spec.escaped name.now) }
{
    for b in name {
        put_escaped_byte(out, *b)?;
    }
    Ok(())
}

fn put_escaped_byte<A: Allocator>(out: &mut Vec<u8, A>, b: u8) -> Result<(), AllocError>
    ensures { OnOk result (out.new.items ≡ out.old.items ++ spec.escaped_byte b) }
{
    if b == b'\n' {
        return out.extend_from_slice(b"\\n");
    }
    if b == b'"' || b == b'\\' {
        out.push(b'\\')?;
    }
    out.push(b)?;
    Ok(())
}

/// Appends the help of a metric and its type.
#[tactic(auto, unfolding(crate::specs::Metrics::head_text))]
pub(crate) fn put_head<A: Allocator>(
    out: &mut Vec<u8, A>,
    name: &str,
    kind: &str,
    help: &str,
) -> Result<(), AllocError>
    ensures { OnOk result (out.new.items ≡ out.old.items ++ spec.head_text name.now kind.now help.now) }
{
    put(out, "# HELP ")?;
    put(out, name)?;
    put(out, " ")?;
    put(out, help)?;
    put(out, "\n# TYPE ")?;
    put(out, name)?;
    put(out, " ")?;
    put(out, kind)?;
    put(out, "\n")
}

/// Appends a metric's name and its labels: the station's name, which is escaped, and then others.
#[tactic(auto, unfolding(crate::specs::Metrics::labels_text))]
pub(crate) fn put_labels<A: Allocator>(
    out: &mut Vec<u8, A>,
    name: &str,
    station: &[u8],
    more: &str,
) -> Result<(), AllocError>
    ensures { OnOk result (out.new.items ≡ out.old.items ++ spec.labels_text name.now station.now more.now) }
{
    put(out, name)?;
    put(out, "{station=\"")?;
    out.extend_from_slice(station)?;
    put(out, "\"")?;
    put(out, more)?;
    put(out, "} ")
}

/// Appends a sample.
#[tactic(auto, unfolding(crate::specs::Metrics::sample_text))]
pub(crate) fn put_sample<A: Allocator>(
    out: &mut Vec<u8, A>,
    name: &str,
    station: &[u8],
    more: &str,
    value: u64,
) -> Result<(), AllocError>
    ensures { OnOk result (out.new.items ≡ out.old.items ++ spec.sample_text name.now station.now more.now value) }
{
    put_labels(out, name, station, more)?;
    put_with(out, "", value)?;
    put(out, "\n")
}

/// Appends a counter.
pub(crate) fn put_counter<A: Allocator>(
    out: &mut Vec<u8, A>,
    station: &[u8],
    name: &str,
    help: &str,
    value: u64,
) -> Result<(), AllocError>
    ensures { OnOk result (out.new.items ≡ out.old.items ++ spec.counter_text station.now name.now help.now value) }
{
    put_head(out, name, "counter", help)?;
    put_sample(out, name, station, "", value)
}

/// Appends a gauge.
pub(crate) fn put_gauge<A: Allocator>(
    out: &mut Vec<u8, A>,
    station: &[u8],
    name: &str,
    help: &str,
    value: u64,
) -> Result<(), AllocError>
    ensures { OnOk result (out.new.items ≡ out.old.items ++ spec.gauge_text station.now name.now help.now value) }
{
    put_head(out, name, "gauge", help)?;
    put_sample(out, name, station, "", value)
}

fn put_sign<A: Allocator>(out: &mut Vec<u8, A>, is_negative: bool) -> Result<(), AllocError>
    ensures { OnOk result (out.new.items ≡ out.old.items ++ spec.sign_text is_negative) }
{
    if is_negative { put(out, "-") } else { Ok(()) }
}

/// Appends a gauge in seconds, from its sign and its microseconds.
pub(crate) fn put_seconds<A: Allocator>(
    out: &mut Vec<u8, A>,
    station: &[u8],
    name: &str,
    help: &str,
    is_negative: bool,
    micros: u64,
) -> Result<(), AllocError>
    ensures { OnOk result (out.new.items
        ≡ out.old.items ++ spec.seconds_text station.now name.now help.now is_negative micros) }
{
    put_head(out, name, "gauge", help)?;
    put_labels(out, name, station, "")?;
    put_sign(out, is_negative)?;
    put_with(out, "", micros / 1_000_000)?;
    put(out, ".")?;
    put_padded(out, micros % 1_000_000, 6)?;
    put(out, "\n")?;
    Ok(())
}

/// Appends a gauge from its sign and its thousandths.
pub(crate) fn put_thousandths<A: Allocator>(
    out: &mut Vec<u8, A>,
    station: &[u8],
    name: &str,
    help: &str,
    is_negative: bool,
    thousandths: u64,
) -> Result<(), AllocError>
    ensures { OnOk result (out.new.items
        ≡ out.old.items ++ spec.thousandths_text station.now name.now help.now is_negative thousandths) }
{
    put_head(out, name, "gauge", help)?;
    put_labels(out, name, station, "")?;
    put_sign(out, is_negative)?;
    put_with(out, "", thousandths / 1_000)?;
    put(out, ".")?;
    put_padded(out, thousandths % 1_000, 3)?;
    put(out, "\n")?;
    Ok(())
}
