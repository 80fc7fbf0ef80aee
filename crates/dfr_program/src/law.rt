//! A law on a recording in threads and its files.

ghost use Rattle.std.specs.Prelude.{List};
ghost use Rattle.dfr_live.specs.Seen.{InnerParts, SourceParts, TokenParts};
ghost use Rattle.dfr_live.specs.Ends.{Ends};
ghost use Rattle.dfr_program.specs.Recording.{IsOneThread};

use crate::read_back::records_read_back;
use dfr_live::Ended;
use std::alloc::Allocator;

/// A law on what `end` leaves when it returns Ok, and so on what `run_live` reports. The calls of
/// all threads are in one list of steps, each once and in its caller's order. Each reply is the
/// answer of a recorder in one thread at that point of the list. Every record that such a recorder
/// gives, after any history, reads back from its two files, of either kind. The function does
/// nothing: its contract is the law.
pub fn as_one_thread<A: Allocator>(ended: &Ended<A>)
    ensures { (x : InnerParts) (source : SourceParts) (tokens : List TokenParts)
        → Ends x source tokens ended.now → IsOneThread x source tokens ended.now }
{
    ended.one_list();
    records_read_back(&ended.recorder);
}
