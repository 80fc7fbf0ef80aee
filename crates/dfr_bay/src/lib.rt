//! A bay: the frames of sampled values become scans.
#![tactic(auto)]

mod arrival;
mod bay;
mod channel;
mod laws;
mod names;
mod queues;
mod settings;

pub use arrival::Arrival;
pub use bay::Bay;
pub use channel::{Channel, Lost, OutOfRange};
pub use laws::{complete_scans_are_given, sample_has_its_count};
pub use names::{has_source, has_sv_id};
pub use settings::{Settings, SettingsFault};
