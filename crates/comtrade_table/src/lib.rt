//! The rows of a data file where they stand: nothing is copied, and each answer is that of the rows
//! to which the bytes read.
#![tactic(auto)]

mod binary;
mod bytes;
mod laws;
mod layout;

pub use binary::{BinaryTable, TableFault};
pub use laws::read_in_pieces;
pub use layout::{Layout, layout_of};
