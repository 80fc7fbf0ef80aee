//! The process bus: frames of sampled values and of GOOSE, read from a capture.
#![tactic(auto)]

mod asdu;
mod ber;
mod capture;
mod datum;
mod fault;
mod frame;
mod goose;
mod laws;
mod numbers;
mod pdu;
mod sampled_values;
mod span;

pub use asdu::{Asdu, Sample};
pub use capture::{Capture, Order, Packet, Unit, read_head, read_packet};
pub use datum::{Datum, Kind, read_datum};
pub use fault::{Fault, Wrong};
pub use frame::{Ethernet, read_ethernet};
pub use goose::{Goose, read_goose};
pub use laws::{elements, packets};
pub use pdu::read_sampled_values;
pub use sampled_values::SampledValues;
pub use span::Span;
