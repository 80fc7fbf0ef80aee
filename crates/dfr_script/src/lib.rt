//! Reads the script of a recorder: its set-up, and the commands to make on it.
#![tactic(auto)]

mod channel_line;
mod command;
mod draft;
mod fault;
mod fields;
mod limit_line;
mod line;
mod plain;
mod plain_bits;
mod recorder;
mod rule_line;
mod scan_line;
mod script;
mod set_up;
mod setting;

pub use command::{Command, command_of_line};
pub use draft::Draft;
pub use fault::{LineFault, LineRefusal, ScriptFault, ScriptRefusal, Word};
pub use limit_line::LimitNumbers;
pub use recorder::{RecorderFault, RecorderRefusal, recorder_of};
pub use scan_line::ScanSize;
pub use script::{Script, script_of};
pub use set_up::{RecorderSetup, set_up_of, setting_of_line};
