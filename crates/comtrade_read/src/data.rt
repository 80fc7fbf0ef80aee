//! Reads a data file under its head.

ghost use Rattle.std.specs.Prelude.{◌≡◌, ◌≢◌, ◌+◌, ◌<◌, length, IfOk, IfErr};
ghost use Rattle.comtrade_read.specs.declared.fault.ReadFault.TheVariants as faults;
ghost use Rattle.comtrade_read.specs.Head.{last_sample};
ghost use Rattle.comtrade_read.specs.Reads.{ReadsRows, FaultyData, Nothing};
ghost use Rattle.comtrade_read.specs.Inner.LineFaults.{Is};
ghost use Rattle.comtrade_read.specs.Inner.RowValues.{rows_as, rows_under};

use crate::ascii::ascii_rows;
use crate::binary::binary_rows;
use crate::fault::ReadFault;
use comtrade_format::{File, Head, Kind, Rate, Row};
use comtrade_values::Items;
use std::alloc::Allocator;

/// The `endsamp` of the last rate, or 0 if there is none.
fn last_sample(rates: &[Rate]) -> u64
    ensures { result ≡ last_sample rates.now }
{
    match rates {
        [.., last] => last.endsamp,
        [] => 0,
    }
}

/// Reads the rows of data of this kind.
fn rows_as<A: Allocator + Copy>(
    alloc: A,
    kind: Kind,
    dat: &[u8],
    k: usize,
    m: usize,
    count: u64,
) -> Result<Vec<Row<A>, A>, ReadFault>
    requires k { k < 1000000 }
    requires m { m < 1000000 }
    ensures { Is (λ v. v.items) (rows_as kind k m count dat.now) result }
{
    match kind {
        Kind::Ascii => ascii_rows(alloc, dat, k as u32, m as u32, count),
        Kind::Binary => binary_rows(alloc, dat, k, m, count),
    }
}

/// Reads the rows of data under this head.
fn rows_of<A: Allocator + Copy>(
    alloc: A,
    head: &Head<A>,
    dat: &[u8],
) -> Result<Vec<Row<A>, A>, ReadFault>
    requires { length head.now.analog + length head.now.status < 1000000 }
    ensures { Is (λ v. v.items) (rows_under head.now dat.now) result }
{
    let k = head.analog.items().len();
    let m = head.status.items().len();
    let count = last_sample(head.rates.items());
    rows_as(alloc, head.kind, dat, k, m, count)
}

/// Reads a data file under its head, in the head's kind (C37.111-1999, clause 6). The file must
/// have as many rows as the last rate's `endsamp`, or none if the head has no rate. The head must
/// have at most 999,999 channels, as every head from `read_cfg` has.
///
/// An error is the first of the data file, or `Memory` if an allocation failed. The head is
/// returned with it.
pub fn read_dat<A: Allocator + Copy>(
    alloc: A,
    head: Head<A>,
    dat: &[u8],
) -> Result<File<A>, (ReadFault, Head<A>)>
    requires { length head.analog + length head.status < 1000000 }
    ensures head { IfOk result (λ f. f.head ≡ head) }
    ensures rows { IfOk result (λ f. ReadsRows head dat.now f.rows) }
    ensures fault { IfErr result (λ x. x.0 ≢ faults.Memory → FaultyData head dat.now x.0) }
    ensures unread { IfErr result (λ x. x.0 ≢ faults.Memory → Nothing (ReadsRows head dat.now)) }
    ensures back { IfErr result (λ x. x.1 ≡ head) }
{
    match rows_of(alloc, &head, dat) {
        Ok(rows) => Ok(File {
            head,
            rows: Items::of(rows),
        }),
        Err(fault) => Err((fault, head)),
    }
}
