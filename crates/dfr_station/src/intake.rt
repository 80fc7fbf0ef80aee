//! What a station takes in. Each frame becomes one step of the source: a scan that is offered, or a
//! lost one. Lines become the commands of a script. Here is also the result of a recording.

mod arrival;
mod arrivals;
mod buffer;
mod counted;
mod counted_cutter;
mod cutter;
mod ended;
mod feed;
mod frame;
mod line;

pub(crate) use arrival::Arrival;
pub(crate) use arrivals::{Arrivals, Ending, Next};
pub use buffer::{Buffer, ROOM};
pub use counted::HEAD;
pub(crate) use counted::scans_counted;
pub use ended::{Counts, Recorded, RunFault};
pub use feed::Why;
pub(crate) use feed::missing_scan;
pub use frame::{frame_len, scan_of_frame};
pub use line::{is_damaged, is_scan_line};
pub(crate) use line::{is_word, skipped_of_line, skipped_of_rules};
