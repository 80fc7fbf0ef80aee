//! What a capture of the process bus has: its streams of sampled values and its GOOSE control
//! blocks.
#![tactic(auto)]

mod block_text;
mod counter;
mod entry;
mod flow;
mod look;
mod report;
mod setup_text;
mod skipped;
mod stream_text;
mod talk;
mod through;
mod track;
mod unit;
mod words;

pub use entry::Entry;
pub use flow::{Flow, Synchs};
pub use look::{Counts, Look};
pub use report::put_report;
pub use skipped::{REASONS, Tally, number_of};
pub use talk::{Message, Talk, Turn, message_of};
pub use through::{Looked, look_through};
pub use track::{Step, Track};
pub use unit::{Unit, unit_of};
