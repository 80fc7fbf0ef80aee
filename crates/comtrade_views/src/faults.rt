//! The faults of a record: what they are, how they went, and what that rests on.

mod block;
mod both;
mod contacts;
mod fault;
mod known;
mod lack;
mod members;
mod missing;
mod none;
mod of_record;
mod parts;
mod phasors;
mod place;
mod place_text;
mod role;
mod signs;
mod table;
mod told;
mod witness;
mod wording;
mod words;

pub use members::RecordFaults;
pub use of_record::{faults_of, first_fault_of};
pub use told::{Faults, put_fault_blocks, put_fault_lines, put_faults_html, put_faults_json};
