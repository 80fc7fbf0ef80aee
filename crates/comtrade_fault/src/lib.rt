//! The disturbances of a record as values: faults with inception, type and clearing, and what was
//! no fault. Integers over the rows, with contracts. Nothing here is text.
#![tactic(auto)]

mod bounds;
mod departure;
mod dips;
mod disturbance;
mod ends;
mod form;
mod kind;
mod of_file;
mod place;
mod scan;
mod scans;
mod sizes;
mod turn;
mod types;
mod weights;

pub use bounds::Bounds;
pub use disturbance::{Disturbance, disturbances_in};
pub use ends::Ends;
pub use form::{Form, level, most_over, sum_over};
pub use kind::{Cause, Doubts, Evidence, Kind};
pub use of_file::{Found, cycle_rows, disturbances_of};
pub use place::{Place, is_current, is_voltage, places_in};
pub use scan::{NOTHING, Scan, Signal, Weights, ZERO, minus_of, plus_of};
pub use scans::scans_of;
pub use sizes::{Changes, Phases, Sizes};
pub use turn::Remainder;
pub use types::FaultType;
pub use weights::weights_of;
