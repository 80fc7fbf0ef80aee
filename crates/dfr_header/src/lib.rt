//! The header file of a record (C37.111-1999, clause 4): a text for people, next to the record's pair.
#![tactic(auto)]

mod clock;
mod header;
mod lines;
mod record;
mod rows;
mod rules;

pub use clock::{Clock, Dates};
pub use header::{Header, put_header};
pub use rows::rows_without_samples;
