//! Sequence of events: which changes of the contacts are told, of all scans of a recording, and the
//! lines of a file of them.
#![tactic(auto)]

mod change;
mod contact;
mod laws;
mod line;
mod place;
mod sequence;

pub use change::{Change, Flip, Limit};
pub use laws::{each_change_once, few_in_a_second};
pub use line::{EVENT_HEAD, put_change, put_missing};
pub use place::Place;
pub use sequence::Sequence;
