//! A record, or the part of it that is asked for.

use comtrade_format::File;
use comtrade_io::{Part, ToolFault, put_safe};
use comtrade_values::put;
use comtrade_views::{Cut, PartFault, is_whole, part_of, times_since_trigger};
use std::alloc::{AllocError, Allocator};

/// A record or a part of it, the times of its rows (nanoseconds since its trigger), and the number
/// of rows before the part.
#[derive(Drop)]
pub(crate) struct Taken<A: Allocator> {
    pub(crate) file: File<A>,
    pub(crate) times: Vec<Option<i64>, A>,
    pub(crate) before: usize,
}

/// Puts why a record has no such part, unless that is a failed allocation.
pub(crate) fn put_part_fault<A: Allocator + Copy>(
    said: &mut Vec<u8, A>,
    fault: PartFault<'_>,
) -> Result<(), AllocError> {
    if fault == PartFault::Memory {
        return Err(AllocError);
    }
    let text = format!(in *said.allocator(); "{fault}")?;
    put(said, "comtrade: ")?;
    put_safe(said, text.as_str().as_bytes())?;
    put(said, "\n")
}

/// The part, with its times among those of all rows.
fn timed<A: Allocator>(
    alloc: A,
    cut: Cut<A>,
    times: &[Option<i64>],
) -> Result<Taken<A>, AllocError> {
    let times = Vec::from_slice(alloc, times.get(cut.from..cut.to).unwrap_or(&[]))?;
    Ok(Taken {
        file: cut.file,
        times,
        before: cut.from,
    })
}

/// The part of a file whose rows have these times; None if it is refused, with the error in `said`.
fn cut_of<A: Allocator + Copy>(
    alloc: A,
    file: &File<A>,
    times: &[Option<i64>],
    part: Part<'_>,
    said: &mut Vec<u8, A>,
) -> Result<Option<Taken<A>>, ToolFault> {
    match part_of(alloc, file, part) {
        Ok(cut) => Ok(Some(timed(alloc, cut, times)?)),
        Err(fault) => {
            put_part_fault(said, fault)?;
            Ok(None)
        }
    }
}

/// The part of a file that is asked for; None if it is refused, with the error in `said`.
pub(crate) fn taken_of<A: Allocator + Copy>(
    alloc: A,
    file: File<A>,
    part: Part<'_>,
    said: &mut Vec<u8, A>,
) -> Result<Option<Taken<A>>, ToolFault> {
    let times = times_since_trigger(alloc, &file)?;
    if !is_whole(part) {
        return cut_of(alloc, &file, &times, part, said);
    }
    Ok(Some(Taken {
        file,
        times,
        before: 0,
    }))
}
