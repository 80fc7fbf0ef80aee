//! sampled values and of GOOSE.
#![tactic(auto)]

mod contact;
mod element;
mod feed;
mod listened;
mod listening;
mod plan;
mod recorder;
mod row;
mod stream;
mod unit;

pub use contact::Held;
pub use feed::{Event, Feed, LostReading};
pub use listened::{Heard, Listened};
pub use plan::{Block, Contact, Dating, Doubt, Key, Plan};
pub use recorder::Recorder;
