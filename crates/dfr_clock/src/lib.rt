//! True time: the instants of scans, from readings of the clock.
#![tactic(auto)]

mod course;
mod drift;
mod follower;
mod gap;
mod laws;
mod reading;
mod settings;
mod timebase;
mod windows;

pub use course::Course;
pub use drift::Drift;
pub use laws::{
    dates_in_order, error_ends, error_shrinks, least_is_true, slew_is_bounded, time_runs_onward,
    window_keeps_least,
};
pub use reading::{Answer, Jump, Reading};
pub use settings::{Settings, SettingsFault};
pub use timebase::Timebase;
