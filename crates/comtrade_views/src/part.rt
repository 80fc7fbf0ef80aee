//! A part of a record: the rows between two moments, channels by name, values of one side of the
//! transformers; and the encoding of its texts.

mod cut;
mod encoding;
mod fault;
mod moment;
mod names;
mod reach;
mod record;
mod rows;
mod side;

pub use encoding::{spell_for_views, spell_in_utf8};
pub use fault::PartFault;
pub use moment::nanos_in;
pub(crate) use moment::{Moment, moment_of};
pub(crate) use names::fits;
pub(crate) use reach::{Reach, reach_of};
pub use record::{Cut, CutPlan, is_whole, part_of, plan_of};
