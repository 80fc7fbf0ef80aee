//! Checks before anything is written that no repair was made without a note.

use crate::own_data::{Form, own_of};
use crate::said::{all_said, has, layout_of};
use crate::untold::first_untold;
use comtrade_dialects::{ImportFault, Key, Note, Samples, narrow};
use comtrade_format::File;
use comtrade_values::Memory as NoMemory;
use std::alloc::{AllocError, Allocator};
use thiserror::Error;

/// What changed without a note: a defect of this crate. Rows and channels are counted from 1.
#[derive(Clone, Copy, Debug, PartialEq, Eq, Error)]
pub enum Silent {
    #[error("row {row} of channel {channel} differs from the data file, and no note names it")]
    Sample { row: u64, channel: u64 },
    #[error("{own} rows of the data file became {written}, and no note names them")]
    Rows { own: u64, written: u64 },
    #[error("the new pair reads as something else than the given one, and there is no note")]
    Content,
}

/// Why a pair cannot be imported.
#[derive(Clone, Copy, Debug, Error)]
pub enum Refusal {
    /// The files are the reason.
    #[error("{0}")]
    Fault(ImportFault),
    /// A repair would be silent, which is a defect of this crate.
    #[error("{0}; this is a defect of comtrade: please report it, with the files")]
    Silent(Silent),
}

/// Converts any error that means out of memory.
impl<E: Drop> From<E> for Refusal
where
    ImportFault: From<E>,
{
    fn from(e: E) -> Refusal {
        Refusal::Fault(ImportFault::from(e))
    }
}

/// The number of a row or channel, from its index. No list is so long that this saturates.
fn number(index: usize) -> u64 {
    (index as u64).saturating_add(1)
}

/// The data have another number of rows than what is written.
fn rows_differ(own: usize, written: usize) -> Silent {
    Silent::Rows {
        own: own as u64,
        written: written as u64,
    }
}

/// The text of a UTF-16 data file, else the data as they are.
fn text_in<'a, A: Allocator>(narrowed: &'a Option<Vec<u8, A>>, dat: &'a [u8]) -> &'a [u8] {
    match narrowed {
        Some(text) => text.as_slice(),
        None => dat,
    }
}

/// Compares a repaired file with the samples of its data, decoded a second time: the first sample
/// that differs and that no note covers.
pub(crate) fn silent_in<A: Allocator + Copy>(
    alloc: A,
    dat: &[u8],
    file: &File<A>,
    notes: &[Note<A>],
    samples: Samples,
) -> Result<Option<Silent>, AllocError> {
    let layout = layout_of(&file.head, notes, samples);
    let narrowed = match layout.form {
        Form::Text { .. } => narrow(alloc, dat)?,
        _ => None,
    };
    let own = own_of(alloc, text_in(&narrowed, dat), layout)?;
    let rows = file.rows.items();
    let is_cut = has(notes, Key::RowCut) && own.rows.len().checked_sub(1) == Some(rows.len());
    let whole = if is_cut { rows.len() } else { own.rows.len() };
    if whole != rows.len() {
        return Ok(Some(rows_differ(own.rows.len(), rows.len())));
    }
    let Some(own_rows) = own.rows.get(..whole) else {
        return Ok(Some(rows_differ(own.rows.len(), rows.len())));
    };
    let said = all_said(alloc, notes)?;
    let place = first_untold(own_rows, rows, &said, &own.unfit);
    Ok(place.map(|place| Silent::Sample {
        row: number(place.row),
        channel: number(place.channel),
    }))
}
