//! A capture that comes in pieces, as the lines of scans that `dfrd` reads.
#![tactic(auto)]

mod conversion;
mod reader;
mod teller;
mod words;

pub use conversion::{Conversion, Stop};
pub use reader::CaptureLines;
pub use teller::{End, Teller};
pub use words::Words;
