//! Where on a line a fault is, by the voltages and currents of one end.
#![tactic(auto)]

mod line;
mod line_file;
mod loops;
mod place;
mod primary;
mod range;
mod turned;

pub use line::Line;
pub use line_file::{LineData, LineFault, line_of};
pub use loops::{Loop, loop_of};
pub use place::{Place, place_of};
pub use primary::factor_of;
pub use range::{Range, Seen, Unplaced, range_of};
pub use turned::Three;
