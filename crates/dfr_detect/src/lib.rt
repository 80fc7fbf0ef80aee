//! Detectors: bits computed from the samples of the last scans.
#![tactic(auto)]

mod crossings;
mod cycle;
mod detector;
mod detectors;
mod level;
mod lost;
mod other;
mod ring;
mod run;
mod sample;
mod settings;
mod shares;
mod spans;
mod sum;
mod turns;
mod watch;
mod wave_test;
mod waves;
mod window;

pub use cycle::{CycleFault, CycleScans, cycle_scans};
pub use detector::Detector;
pub use detectors::Detectors;
pub use run::bits_of;
pub use sample::Sample;
pub use settings::{
    Condition, FrequencyIs, FrequencyTest, HarmonicTest, Sequence, Settings, SettingsFault,
    WaveTest,
};
pub use watch::Watch;
