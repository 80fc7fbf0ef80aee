//! The metrics that count by a reason.

ghost use Rattle.std.specs.Prelude.{◌≡◌, ◌++◌, OnOk};
ghost use Rattle.dfr_health.specs.Metrics as spec;

use crate::counts::{Lost, Unwritten};
use crate::metrics::put_sample;
use std::alloc::{AllocError, Allocator};

/// Appends how many scans were lost that could not be used.
fn put_unusable<A: Allocator>(
    out: &mut Vec<u8, A>,
    name: &str,
    station: &[u8],
    lost: Lost,
) -> Result<(), AllocError>
    ensures { OnOk result (out.new.items ≡ out.old.items ++ spec.unusable_text station.now name.now lost) }
{
    put_sample(out, name, station, ",reason=\"told\"", lost.told)?;
    put_sample(out, name, station, ",reason=\"unread\"", lost.unread)?;
    put_sample(out, name, station, ",reason=\"shape\"", lost.shape)?;
    put_sample(out, name, station, ",reason=\"range\"", lost.range)?;
    Ok(())
}

/// Appends how many scans were lost that found no room, or did not come.
fn put_missing<A: Allocator>(
    out: &mut Vec<u8, A>,
    name: &str,
    station: &[u8],
    lost: Lost,
) -> Result<(), AllocError>
    ensures { OnOk result (out.new.items ≡ out.old.items ++ spec.missing_text station.now name.now lost) }
{
    put_sample(out, name, station, ",reason=\"full\"", lost.full)?;
    put_sample(out, name, station, ",reason=\"memory\"", lost.memory)?;
    put_sample(out, name, station, ",reason=\"counted\"", lost.counted)?;
    put_sample(out, name, station, ",reason=\"silent\"", lost.silent)?;
    Ok(())
}

/// Appends how many scans were lost for each reason.
pub(crate) fn put_lost<A: Allocator>(
    out: &mut Vec<u8, A>,
    name: &str,
    station: &[u8],
    lost: Lost,
) -> Result<(), AllocError>
    ensures { OnOk result (out.new.items ≡ out.old.items ++ spec.lost_text station.now name.now lost) }
{
    put_unusable(out, name, station, lost)?;
    put_missing(out, name, station, lost)
}

/// Appends how many records were given up since the store took no pair.
fn put_refused<A: Allocator>(
    out: &mut Vec<u8, A>,
    name: &str,
    station: &[u8],
    given_up: Unwritten,
) -> Result<(), AllocError>
    ensures { OnOk result (out.new.items ≡ out.old.items ++ spec.refused_text station.now name.now given_up) }
{
    put_sample(out, name, station, ",reason=\"full\"", given_up.full)?;
    put_sample(out, name, station, ",reason=\"gone\"", given_up.gone)?;
    put_sample(out, name, station, ",reason=\"denied\"", given_up.denied)?;
    put_sample(out, name, station, ",reason=\"memory\"", given_up.memory)?;
    Ok(())
}

/// Appends how many records were given up for another reason.
fn put_dropped<A: Allocator>(
    out: &mut Vec<u8, A>,
    name: &str,
    station: &[u8],
    given_up: Unwritten,
) -> Result<(), AllocError>
    ensures { OnOk result (out.new.items ≡ out.old.items ++ spec.dropped_text station.now name.now given_up) }
{
    put_sample(out, name, station, ",reason=\"other\"", given_up.other)?;
    put_sample(out, name, station, ",reason=\"storm\"", given_up.storm)?;
    let reason = ",reason=\"unfinished\"";
    put_sample(out, name, station, reason, given_up.unfinished)?;
    Ok(())
}

/// Appends how many records were given up for each reason.
pub(crate) fn put_unwritten<A: Allocator>(
    out: &mut Vec<u8, A>,
    name: &str,
    station: &[u8],
    given_up: Unwritten,
) -> Result<(), AllocError>
    ensures { OnOk result (out.new.items ≡ out.old.items ++ spec.unwritten_text station.now name.now given_up) }
{
    put_refused(out, name, station, given_up)?;
    put_dropped(out, name, station, given_up)
}
