//! Measurements in a record: rms values, phasors at the line frequency, harmonics and dc over whole
//! cycles, sequence components of three phases, and fault inception.

mod around;
mod course;
mod current;
mod fault;
mod fit;
mod frequency;
mod length;
mod phases;
mod readings;
mod reference;
mod rms;
mod unit;
mod window;

pub(crate) use around::{cycle_ahead, cycle_to};
pub use around::{Around, rms_around};
pub use comtrade_analysis::{Measured, Phasor};
pub use course::courses_of;
pub use current::{Course, Followed};
pub use fault::MeasureFault;
pub use fit::{measured_at, measures_of};
pub use frequency::Frequency;
pub(crate) use frequency::frequency_of;
pub use phases::{Components, Three, components_of, phasor_in, threes_in};
pub(crate) use reference::place_of;
pub use reference::reference_in;
pub(crate) use unit::{amperes_of, is_current_unit};
pub use window::{Window, first_cycle_end, last_cycle, spans_of, whole_cycles};
