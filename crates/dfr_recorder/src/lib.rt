//! A recorder with pre-trigger memory. It keeps the scans around each trigger as a record, within
//! limits on the length of records and on how many finished ones wait.
#![tactic(auto)]

mod laws;
mod limits;
mod lost;
mod marks;
mod one_step;
mod open_record;
mod record;
mod recorder;
mod recording;
mod refusals;
mod ring;
mod sequence;
mod shelf;
mod step;

pub use laws::{no_scan_shared, scans_may_be_shared};
pub use limits::{LimitFault, Limits};
pub use record::{Cause, Extent, Record};
pub use recorder::Recorder;
pub use sequence::{Ran, run};
pub use step::{Answer, Hit, LostRefusal, ScanRefusal, Scanned, Step, TriggerFault};
