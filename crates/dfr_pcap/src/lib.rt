//! The packets of a capture that comes in pieces, in the form of libpcap or in the form pcapng.
#![tactic(auto)]

mod block;
mod blocks;
mod flaw;
mod laws;
mod moment;
mod numbers;
mod option;
mod packet;
mod pieces;
mod translation;

pub use blocks::TranslateFault;
pub use flaw::Flaw;
pub use pieces::{AddFault, Pieces, Step, nanosecond_of};
pub use translation::Translation;
