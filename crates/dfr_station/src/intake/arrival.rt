//! What comes with the input.

ghost use Rattle.std.specs.Prelude.{◌≡◌};
ghost use Rattle.dfr_station.specs.Lines as spec;

use crate::event::Skipped;
use crate::intake::feed::Why;
use dfr_channels::{Layout, Scan, ScanFault};
use dfr_live::Order;
use std::alloc::{Allocator, Global};

/// What came, in order.
#[derive(Drop, Debug)]
pub enum Arrival<A: Allocator = Global> {
    /// A scan, which fits the layout.
    Scan(Scan<A>),
    /// A scan that is lost, and why.
    Lost(Why),
    /// An order: the number of its line, from 1, and how many scans came before it.
    Order { line: u64, at: u64, order: Order<A> },
    /// The number of a line, from 1, and the instant that it tells of the next scan, in microseconds
    /// since 1970-01-01 00:00:00 UTC.
    Time { line: u64, instant: u64 },
    /// The number of a line, from 1, that is skipped, and why.
    Skipped { line: u64, why: Skipped },
    /// Bytes that are no frame, where counted frames come. The next one is looked for.
    Noise,
}

/// Why a scan is lost that doesn't fit the layout.
fn why_of(fault: ScanFault) -> Why
    ensures { result ≡ spec.why_of fault }
{
    match fault {
        ScanFault::Shape => Why::Shape,
        ScanFault::Range(i) => Why::Range(i),
    }
}

/// A scan that was read: it is lost if it doesn't fit the layout.
pub(crate) fn arrival_of_scan<A: Allocator>(layout: &Layout<A>, scan: Scan<A>) -> Arrival<A>
    ensures { spec.parts_of result ≡ spec.of_scan layout.now scan }
{
    match layout.check(&scan) {
        Ok(()) => Arrival::Scan(scan),
        Err(fault) => Arrival::Lost(why_of(fault)),
    }
}
