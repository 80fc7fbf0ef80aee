//! The lines of a scan.

ghost use Rattle.std.specs.Prelude.{◌≡◌, ◌≤◌, ◌+◌, ◌++◌, map, OnOk};
ghost use Rattle.std.specs.List.{All};
ghost use Rattle.dfr_capture.specs.Plans.{has_divisor};
ghost use Rattle.dfr_capture.specs.Rows as spec;

use crate::feed::LostReading;
use crate::plan::{Dating, Plan};
use crate::unit::{Unit, sample_in};
use comtrade_values::{put, put_number};
use dfr_bay::{Channel, Lost};
use std::alloc::{AllocError, Allocator};

/// The reading of a channel in a scan.
fn reading_in<A: Allocator>(scan: &[Option<Unit<A>>], channel: &Channel) -> Result<i32, Lost>
    requires { 1 ≤ channel.now.divisor }
    ensures { result ≡ spec.reading_in scan.now channel.now }
{
    channel.reading(sample_in(scan, channel.stream, channel.index))
}

/// Appends a reading, or an asterisk where there is none.
fn put_reading<A: Allocator>(
    out: &mut Vec<u8, A>,
    reading: Result<i32, Lost>,
) -> Result<(), AllocError>
    ensures { OnOk result (out.new.items ≡ out.old.items ++ spec.reading_text reading) }
{
    match reading {
        Ok(value) => put_number(out, value),
        Err(_) => put(out, "*"),
    }
}

/// Appends a comma, but before the first.
fn put_comma<A: Allocator>(out: &mut Vec<u8, A>, n: usize) -> Result<(), AllocError>
    ensures { OnOk result (out.new.items ≡ out.old.items ++ spec.comma n) }
{
    if n > 0 { put(out, ",") } else { Ok(()) }
}

/// Appends the reading of channel n, if it is missing.
fn put_lost<A: Allocator>(
    out: &mut Vec<LostReading, A>,
    n: usize,
    reading: Result<i32, Lost>,
) -> Result<(), AllocError>
    ensures { OnOk result (out.new.items ≡ out.old.items ++ spec.lost_of n reading) }
{
    if let Err(why) = reading {
        out.push(LostReading { channel: n, why })?;
    }
    Ok(())
}

/// Appends the reading of channel n, and tells if it is missing.
fn put_channel<A: Allocator>(
    out: &mut Vec<u8, A>,
    missing: &mut Vec<LostReading, A>,
    scan: &[Option<Unit<A>>],
    n: usize,
    channel: &Channel,
) -> Result<(), AllocError>
    requires { 1 ≤ channel.now.divisor }
    ensures text { OnOk result (out.new.items ≡ out.old.items ++ (spec.comma n ++ spec.reading_text (spec.reading_in scan.now channel.now))) }
    ensures told { OnOk result (missing.new.items ≡ missing.old.items ++ spec.lost_of n (spec.reading_in scan.now channel.now)) }
{
    let reading = reading_in(scan, channel);
    put_comma(out, n)?;
    put_reading(out, reading)?;
    put_lost(missing, n, reading)
}

/// Appends the readings of all channels, and tells those that are missing.
fn put_readings<A: Allocator>(
    out: &mut Vec<u8, A>,
    missing: &mut Vec<LostReading, A>,
    scan: &[Option<Unit<A>>],
    channels: &[Channel],
) -> Result<(), AllocError>
    requires { All has_divisor channels.now }
    ensures text { OnOk result (out.new.items ≡ out.old.items ++ spec.readings_text scan.now 0 channels.now) }
    ensures told { OnOk result (missing.new.items ≡ missing.old.items ++ spec.lost_readings scan.now 0 channels.now) }
{
    for n in 0..channels.len() {
        put_channel(out, missing, scan, n, &channels[n])?;
    }
    Ok(())
}

/// Appends the states of the contacts.
fn put_bits<A: Allocator>(out: &mut Vec<u8, A>, bits: &[bool]) -> Result<(), AllocError>
    ensures { OnOk result (out.new.items ≡ out.old.items ++ map spec.bit_text bits.now) }
{
    for bit in bits {
        out.push(if *bit { b'1' } else { b'0' })?;
    }
    Ok(())
}

/// Appends the line of a scan, with these states of the contacts, and tells the readings that are
/// missing in it.
#[tactic(auto, unfolding(crate::specs::Rows::scan_text))]
fn put_scan<A: Allocator>(
    out: &mut Vec<u8, A>,
    missing: &mut Vec<LostReading, A>,
    plan: &Plan<A>,
    scan: &[Option<Unit<A>>],
    bits: &[bool],
) -> Result<(), AllocError>
    ensures text { OnOk result (out.new.items ≡ out.old.items ++ spec.scan_text plan.now scan.now bits.now) }
    ensures told { OnOk result (missing.new.items ≡ missing.old.items ++ spec.lost_readings scan.now 0 plan.now.channels) }
{
    put(out, "scan ")?;
    put_readings(out, missing, scan, &plan.channels)?;
    put(out, "/")?;
    put_bits(out, bits)?;
    put(out, "\n")
}

/// The second nearest to a nanosecond, in microseconds.
fn second_of(time: u64) -> u64
    ensures { result ≡ spec.second_of time }
{
    let seconds = (u128::from(time) + 500_000_000) / 1_000_000_000;
    seconds as u64 * 1_000_000
}

/// The instant of a scan that has this unit, if it is told.
#[tactic(auto, unfolding(crate::specs::Rows::told_by))]
fn told_by<A: Allocator>(dating: Dating, unit: &Unit<A>) -> Option<u64>
    ensures { result ≡ spec.told_by dating unit.now }
{
    if unit.asdu.smp_cnt != 0 {
        return None;
    }
    match dating {
        Dating::Synchronised if unit.asdu.smp_synch == 2 => Some(second_of(unit.time)),
        Dating::Synchronised => None,
        Dating::Stamps => Some(unit.time / 1000),
    }
}

/// Appends the line that tells an instant.
fn put_time<A: Allocator>(out: &mut Vec<u8, A>, instant: Option<u64>) -> Result<(), AllocError>
    ensures { OnOk result (out.new.items ≡ out.old.items ++ spec.time_text instant) }
{
    let Some(instant) = instant else {
        return Ok(());
    };
    put(out, "time ")?;
    put_number(out, instant)?;
    put(out, "\n")
}

/// Appends the lines of a scan whose first unit this is, and tells the readings that are missing.
#[tactic(auto, unfolding(crate::specs::Rows::row_by))]
fn put_unit_row<A: Allocator>(
    out: &mut Vec<u8, A>,
    missing: &mut Vec<LostReading, A>,
    plan: &Plan<A>,
    scan: &[Option<Unit<A>>],
    unit: &Unit<A>,
) -> Result<(), AllocError>
    ensures text { OnOk result (out.new.items ≡ out.old.items ++ spec.row_by plan.now scan.now (Some unit.now)) }
    ensures told { OnOk result (missing.new.items ≡ missing.old.items ++ spec.missing_by plan.now scan.now (Some unit.now)) }
{
    put_time(out, told_by(plan.dating, unit))?;
    put_scan(out, missing, plan, scan, &unit.bits)
}

/// Appends the lines of a scan, and tells the readings that are missing in it, unless it is lost.
#[tactic(auto, using(crate::proofs::Firsts::first_steps))]
pub(crate) fn put_row<A: Allocator>(
    out: &mut Vec<u8, A>,
    missing: &mut Vec<LostReading, A>,
    plan: &Plan<A>,
    scan: &[Option<Unit<A>>],
) -> Result<(), AllocError>
    ensures text { OnOk result (out.new.items ≡ out.old.items ++ spec.row plan.now scan.now) }
    ensures told { OnOk result (missing.new.items ≡ missing.old.items ++ spec.missing_in plan.now scan.now) }
{
    for sample in scan {
        if let Some(unit) = sample {
            return put_unit_row(out, missing, plan, scan, unit);
        }
    }
    put(out, "lost\n")?;
    Ok(())
}
