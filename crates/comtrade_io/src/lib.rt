//! What the programs share: the version, the command line of `comtrade`, and their input and output:
//! bytes up to a limit, texts of a file as printable characters, the records that a replay printed,
//! and the errors that stop a program.
#![tactic(auto)]

mod command_line;
mod fault;
mod input;
mod output;
mod records;
mod seen;
mod text;
mod version;
mod words;

pub use command_line::{Answer, answer_of};
pub use fault::{ToolFault, fault_of};
pub use input::read_up_to;
pub use output::{flush_if_full, write_out};
pub use records::{Next, Printed, next_record};
pub use seen::seen_len;
pub use text::{kind_name, put_quoted, put_safe};
pub use version::VERSION;
pub use words::{
    Asked, Batch, Batched, Compared, Converted, Cursor, Diagnosed, Form, Importing, Names, Part,
    Picture, Reported, Survey, Surveyed, View, Viewed, batch_of, new_names, survey_of, view_of,
};
