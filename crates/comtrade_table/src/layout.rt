//! How the rows of a BINARY data file lie (C37.111-1999, clause 6).

ghost use Rattle.std.specs.Prelude.{◌≡◌, ◌+◌, ◌<◌, ◌≤◌, ◌⊎◌, length, None, IfSome};
ghost use Rattle.comtrade_format.specs.declared.file.Kind.TheVariants as kinds;
ghost use Rattle.comtrade_read.specs.Head.{last_sample};
ghost use Rattle.comtrade_read.specs.Reads.{row_size};

use crate::binary::{MOST, last_sample, row_size};
use comtrade_format::{Head, Kind};
use std::alloc::Allocator;

/// How the rows of a BINARY data file lie.
#[derive(Clone, Copy, Debug, PartialEq, Eq)]
pub struct Layout {
    /// The bytes of a row.
    pub size: usize,
    /// How many rows there are by the head.
    pub rows: u64,
}

/// How the rows of the data file under a head lie. None if the data are ASCII, or if the head has
/// more than 999,999 channels, as none from a file has (clause 5.3.2).
pub fn layout_of<A: Allocator>(head: &Head<A>) -> Option<Layout>
    ensures binary { IfSome result (λ _. head.now.kind ≡ kinds.Binary) }
    ensures few { IfSome result (λ _. length head.now.analog + length head.now.status < 1000000) }
    ensures size { IfSome result (λ l. l.size ≡ row_size (length head.now.analog) (length head.now.status)) }
    ensures rows { IfSome result (λ l. l.rows ≡ last_sample head.now.rates) }
    ensures none { result ≡ None → (head.now.kind ≡ kinds.Ascii)
        ⊎ (1000000 ≤ length head.now.analog + length head.now.status) }
{
    match head.kind {
        Kind::Ascii => return None,
        Kind::Binary => {}
    }
    let analog = head.analog.items().len();
    let status = head.status.items().len();
    if analog > MOST || status > MOST - analog {
        return None;
    }
    Some(Layout {
        size: row_size(analog, status),
        rows: last_sample(head.rates.items()),
    })
}
