//! The rows of a record in the order of their times.

ghost use Rattle.std.specs.Prelude.{◌≡◌, IfOk, IsTrue, length};
ghost use Rattle.std.specs.List.{All, AllAdjacentBelow};
ghost use Rattle.comtrade_plot.specs.Beside.{IsAfter, IsEarlier, IsRow};

use std::alloc::{AllocError, Allocator};

/// A row, counted from 0, and when it was taken.
#[derive(Clone, Copy, Debug, PartialEq, Eq)]
pub struct Moment {
    pub time: i64,
    pub row: usize,
}

/// Whether a time is after all moments.
fn is_next(moments: &[Moment], time: i64) -> bool
    ensures { IsTrue result → IsAfter moments.now time }
{
    match moments.last() {
        Some(last) => last.time < time,
        None => true,
    }
}

/// The rows that have a time, each later than those before it; a row that is not later is left out.
pub fn course_of<A: Allocator>(
    alloc: A,
    times: &[Option<i64>],
) -> Result<Vec<Moment, A>, AllocError>
    ensures rows { IfOk result (λ moments. All (IsRow times.now) moments.items) }
    ensures order { IfOk result (λ moments. AllAdjacentBelow IsEarlier moments.items (length moments.items)) }
{
    let mut moments: Vec<Moment, A> = Vec::new(alloc);
    for (row, time) in times.iter().enumerate() {
        if let Some(time) = *time {
            if is_next(&moments, time) {
                moments.push(Moment { time, row })?;
            }
        }
    }
    Ok(moments)
}
