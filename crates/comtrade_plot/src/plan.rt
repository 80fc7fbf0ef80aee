//! The layout rules of pictures: which times of a record are drawn, the positions of times and
//! values, which row of one record goes with which time of another, which channels match, and how
//! much they differ.

mod beside;
mod course;
mod cycle;
mod differences;
mod down;
mod equal;
mod frame;
mod windows;

pub use beside::{place_of, places_of};
pub use course::{Moment, course_of};
pub use cycle::Cycle;
pub use differences::{Differences, between};
pub use down::Down;
pub use equal::{is_equal, partners_of};
pub use frame::{ACROSS, Frame, LEFT, Panel, RIGHT, WIDTH};
pub use windows::{later_change, window_of};
