//! Functions that return one part of a file.

ghost use Rattle.std.specs.Prelude.{◌≡◌};

use crate::file::{File, Head, Kind, Row};
use dfr_channels::{AnalogChannel, Reading, StatusChannel};
use std::alloc::Allocator;

pub(crate) fn head_of<A: Allocator>(file: &File<A>) -> &Head<A>
    ensures { result.now ≡ file.now.head }
{
    &file.head
}

pub(crate) fn rows_of<A: Allocator>(file: &File<A>) -> &[Row<A>]
    ensures { result.now ≡ file.now.rows }
{
    file.rows.items()
}

pub(crate) fn station_of<A: Allocator>(head: &Head<A>) -> &[u8]
    ensures { result.now ≡ head.now.station }
{
    head.station.items()
}

pub(crate) fn device_of<A: Allocator>(head: &Head<A>) -> &[u8]
    ensures { result.now ≡ head.now.device }
{
    head.device.items()
}

pub(crate) fn analog_of<A: Allocator>(head: &Head<A>) -> &[AnalogChannel<A>]
    ensures { result.now ≡ head.now.analog }
{
    head.analog.items()
}

pub(crate) fn status_of<A: Allocator>(head: &Head<A>) -> &[StatusChannel<A>]
    ensures { result.now ≡ head.now.status }
{
    head.status.items()
}

pub(crate) fn kind_of<A: Allocator>(head: &Head<A>) -> Kind
    ensures { result ≡ head.now.kind }
{
    head.kind
}

pub(crate) fn values_of<A: Allocator>(row: &Row<A>) -> &[Reading]
    ensures { result.now ≡ row.now.values }
{
    row.values.items()
}
