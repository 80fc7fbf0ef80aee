//! The numbers of a file, for computation: scaled samples as floats and as text, decimals as floats,
//! the times of rows, and rows per cycle.

mod aligned;
mod border;
mod clock;
mod cycle;
mod nearest;
mod places;
mod scale;

pub use aligned::{AlignedScale, LONGEST_VALUE, aligned_scale_of, write_shortened};
pub use border::{Border, BorderSearch, border_of, search_in, search_of};
pub use clock::{Clock, clock_in, clock_of, clock_with};
pub use cycle::{Cycle, CycleFault, cycle_of};
pub use nearest::nearest_f64;
pub use scale::{Scale, scale_of};
