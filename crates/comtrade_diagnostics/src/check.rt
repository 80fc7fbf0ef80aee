//! Describes the first error of a pair of files, or states that the pair has none.

ghost use Rattle.std.specs.Prelude.{◌≡◌, OnErr, OnOk};
ghost use Rattle.comtrade_diagnostics.specs.Puts.{PutsLine};

use crate::counts::{Counts, rows_of};
use crate::describe::put_cfg_fault;
use crate::describe_data::put_dat_fault;
use crate::line::put_line;
use crate::remarks::put_remarks;
use comtrade_format::File;
use comtrade_io::{kind_name, put_safe};
use comtrade_read::{Fault, Part, read_cfg};
use comtrade_values::{put, put_count};
use std::alloc::{AllocError, Allocator};

/// The bytes of both files, and the names to print for them.
#[derive(Clone, Copy, Debug)]
pub struct Pair<'a> {
    pub cfg_name: &'a [u8],
    pub cfg: &'a [u8],
    pub dat_name: &'a [u8],
    pub dat: &'a [u8],
}

/// Describes an error: the file, the line, the field, what was found and what was expected.
fn put_fault_words<A: Allocator + Copy>(
    alloc: A,
    out: &mut Vec<u8, A>,
    pair: Pair<'_>,
    found: Fault,
) -> Result<(), AllocError> {
    match found.part {
        Part::Cfg => {
            put_safe(out, pair.cfg_name)?;
            put(out, ": ")?;
            put_cfg_fault(alloc, out, pair.cfg, found.fault)
        }
        Part::Dat => {
            put_safe(out, pair.dat_name)?;
            put(out, ": ")?;
            match read_cfg(alloc, pair.cfg) {
                Ok(head) => put_dat_fault(alloc, out, &head, pair.dat, found.fault),
                Err(_) => Err(AllocError),
            }
        }
    }
}

/// Appends one line on an error: the file, the line, the field, what was found and what
/// was expected.
pub fn put_fault<A: Allocator + Copy>(
    alloc: A,
    out: &mut Vec<u8, A>,
    pair: Pair<'_>,
    found: Fault,
) -> Result<(), AllocError>
    ensures line { OnOk result (PutsLine out.old.items out.new.items) }
    ensures kept { OnErr result (out.new.items ≡ out.old.items) }
{
    let mut line = Vec::new(alloc);
    put_fault_words(alloc, &mut line, pair, found)?;
    put_line(out, &mut line)
}

/// Appends a line on a pair without errors, then a note for each kind of oddity in its file.
pub fn put_no_fault<A: Allocator + Copy>(
    out: &mut Vec<u8, A>,
    pair: Pair<'_>,
    file: &File<A>,
) -> Result<(), AllocError> {
    let counts = Counts::of(&file.head);
    put_safe(out, pair.cfg_name)?;
    put(out, ", ")?;
    put_safe(out, pair.dat_name)?;
    put(out, ": no errors; ")?;
    put(out, kind_name(file.head.kind))?;
    put(out, " data, ")?;
    put_count(
        out,
        counts.analog,
        " analogue channel, ",
        " analogue channels, ",
    )?;
    put_count(
        out,
        counts.status,
        " status channel, ",
        " status channels, ",
    )?;
    put_count(out, rows_of(&file.head), " row\n", " rows\n")?;
    put_remarks(out, pair, file)
}
