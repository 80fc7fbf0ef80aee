//! Error messages for pairs of COMTRADE files (C37.111-1999): where the error is, what was found
//! and what was expected. Also imports files as relays and programs write them (1991, 1999, 2013):
//! a file of 1999 with the same contents, a note on each repair, and two texts that read back to
//! it. The crate `comtrade_dialects` interprets the dialects.
#![tactic(auto)]

mod check;
mod counts;
mod covers;
mod describe;
mod describe_data;
mod forms;
mod hints;
mod importing;
mod intended;
mod line;
mod names;
mod own_data;
mod own_numbers;
mod refuse;
mod remarks;
mod said;
mod silent;
mod single;
mod untold;
mod verdict;

pub use check::{Pair, put_fault, put_no_fault};
pub use comtrade_dialects::{Choices, ImportFault, Key, Note, Order, Samples, Zone};
pub use hints::{put_hint, put_single};
pub use importing::{Imported, Repaired, import, import_single, repaired_pair};
pub use intended::{Intended, Texts, intended_of};
pub use refuse::put_refusal;
pub use remarks::put_remarks;
pub use silent::{Refusal, Silent};
pub use single::repaired_single;
pub use verdict::check_over;
