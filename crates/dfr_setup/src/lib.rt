//! The set-up of a station: the lines of a script up to `go`, and lines `detect`, each of which
//! makes a status channel that a detector computes.
#![tactic(auto)]

mod addend;
mod fault;
mod level;
mod line;
mod over;
mod plan;
mod plans;
mod prepared;
mod quantity;
mod refusal;
mod rules_file;
mod tested;
mod text;
mod unit;
mod wish;

pub use fault::{DetectorFault, DetectorRefusal};
pub use over::{Planned, detectors_over};
pub use plan::Plan;
pub use prepared::{Prepared, prepared_of};
pub use refusal::SetupRefusal;
pub use rules_file::{filled_of, rules_path};
pub use tested::Test;
