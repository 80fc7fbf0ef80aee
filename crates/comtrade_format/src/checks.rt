//! Finds the first value, row number or time stamp that a data file can't hold.

ghost use Rattle.std.specs.Prelude.{◌≡◌, ◌<◌, ◌+◌, true, length};
ghost use Rattle.std.specs.List.{list_all};
ghost use Rattle.comtrade_format.specs.declared.fault.WriteFault.TheVariants.{Stamp};
ghost use Rattle.comtrade_values.specs.Faults.{◌or◌, fault_unless};
ghost use Rattle.comtrade_format.specs.Refusals as spec;
ghost use Rattle.comtrade_format.specs.Shape.{row_shaped};

use crate::bounds::Bounds;
use crate::fault::WriteFault;
use crate::file::Row;
use crate::parts::values_of;
use dfr_channels::Reading;
use std::alloc::Allocator;

fn takes_reading(m: Bounds, reading: Reading) -> bool
    ensures { result ≡ spec.takes_reading m reading }
{
    match reading {
        Reading::Value(x) => m.low <= x && x <= m.high,
        Reading::Missing => true,
    }
}

fn takes_stamp(m: Bounds, stamp: Option<u64>) -> bool
    ensures { result ≡ spec.takes_stamp m stamp }
{
    match stamp {
        Some(t) => t <= m.stamp,
        None => true,
    }
}

fn takes_times<A: Allocator>(m: Bounds, row: &Row<A>) -> bool
    ensures { result ≡ spec.takes_times m row.now }
{
    row.number <= m.number && takes_stamp(m, row.stamp)
}

/// Whether all values are in range. It checks them without a branch, since nearly every row passes.
fn takes_all(m: Bounds, values: &[Reading]) -> bool
    ensures { result ≡ list_all (spec.takes_reading m) values.now }
{
    let mut all = true;
    for reading in values {
        all = all & takes_reading(m, *reading);
    }
    all
}

/// Whether a row's values, number and stamp are in range.
pub(crate) fn takes_row<A: Allocator>(m: Bounds, row: &Row<A>) -> bool
    ensures { result ≡ spec.takes_row m row.now }
{
    takes_all(m, values_of(row)) && takes_times(m, row)
}

fn values_fault(m: Bounds, row: u64, values: &[Reading]) -> Option<WriteFault>
    requires { length values.now < 1000000 }
    ensures { result ≡ spec.values_refusal m row values.now }
{
    if takes_all(m, values) {
        return None;
    }
    for (i, reading) in values.iter().enumerate() {
        if !takes_reading(m, *reading) {
            return Some(WriteFault::Value(row, 1 + i as u32));
        }
    }
    None
}

/// The earlier `Stamp` error if there is one, else that of this row.
fn with_stamp<A: Allocator>(
    m: Bounds,
    late: Option<WriteFault>,
    i: u64,
    row: &Row<A>,
) -> Option<WriteFault>
    ensures { result ≡ (late or fault_unless (spec.takes_times m row.now) (Stamp i)) }
{
    match late {
        Some(fault) => Some(fault),
        None => {
            if takes_times(m, row) {
                None
            } else {
                Some(WriteFault::Stamp(i))
            }
        }
    }
}

/// The first value out of range, else the first row number or stamp out of range, in one pass.
pub(crate) fn rows_fault<A: Allocator>(
    m: Bounds,
    k: usize,
    n: usize,
    rows: &[Row<A>],
) -> Option<WriteFault>
    requires few { k < 1000000 }
    requires shaped { list_all (row_shaped k n) rows.now ≡ true }
    ensures { result ≡ spec.rows_refusal m rows.now }
{
    let mut late = None;
    for (i, row) in rows.iter().enumerate() {
        if let Some(fault) = values_fault(m, 1 + i as u64, values_of(row)) {
            return Some(fault);
        }
        late = with_stamp(m, late, 1 + i as u64, row);
    }
    late
}
