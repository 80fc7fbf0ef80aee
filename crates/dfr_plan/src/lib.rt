//! What is recorded of a process bus, from the lines of a set-up below `go`.
#![tactic(auto)]

mod address;
mod contact;
mod draft;
mod fault;
mod line;
mod number;
mod plan;
mod setting;
mod stream;
mod value;

pub use fault::{PlanFault, PlanRefusal};
pub use plan::plan_of;
