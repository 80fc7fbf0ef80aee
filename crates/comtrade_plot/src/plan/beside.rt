//! Which row of one record goes with a time of another.

ghost use Rattle.std.specs.Prelude.{◌≡◌, IfOk};
ghost use Rattle.std.specs.List.{AllZip};
ghost use Rattle.comtrade_plot.specs.Beside.{IsBeside, StandsBeside};

use crate::plan::course::Moment;
use std::alloc::{AllocError, Allocator};

/// The index of the last moment that is not after a time; None where all are after it.
pub fn place_of(moments: &[Moment], time: i64) -> Option<usize>
    ensures { StandsBeside moments.now time result }
{
    let first = moments.first()?;
    if time < first.time {
        return None;
    }
    let mut low = 0usize;
    let mut high = moments.len();
    while low + 1 < high {
        let middle = low + (high - low) / 2;
        if moments[middle].time <= time {
            low = middle;
        } else {
            high = middle;
        }
    }
    Some(low)
}

/// The same for a row that may have no time.
fn place_beside(moments: &[Moment], time: Option<i64>) -> Option<usize>
    ensures { IsBeside moments.now time result }
{
    match time {
        Some(time) => place_of(moments, time),
        None => None,
    }
}

/// For each row of one record, the index of the other's last moment that is not after it.
pub fn places_of<A: Allocator>(
    alloc: A,
    moments: &[Moment],
    times: &[Option<i64>],
) -> Result<Vec<Option<usize>, A>, AllocError>
    ensures { IfOk result (λ places. AllZip (IsBeside moments.now) times.now places.items) }
{
    let mut places = Vec::new(alloc);
    for time in times {
        places.push(place_beside(moments, *time))?;
    }
    Ok(places)
}
