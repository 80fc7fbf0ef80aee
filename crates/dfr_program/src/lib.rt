//! What `dfr` does: it replays a script or records it in threads, and reads a pair of COMTRADE
//! files. Readers, writers and the sink of files are passed in.
#![tactic(auto)]

mod answers;
mod command;
mod commands;
mod fault;
mod faults;
mod input;
mod law;
mod live;
mod output;
mod plan;
mod prepared;
mod read_back;
mod reading;
mod records;
mod replay;
mod report;

pub use command::{Command, command_of};
pub use comtrade_values::InputFault;
pub use fault::RunFault;
pub use input::read_all;
pub use law::as_one_thread;
pub use live::live_of;
pub use read_back::{read_of_record, read_of_run, records_read_back, run_and_read};
pub use reading::read_over;
pub use replay::replay_over;
