//! The folder of records: pairs of files are put into it, given up and recovered, so that whatever
//! stops the writer, whoever sees a configuration file finds its whole pair.
#![tactic(auto)]

mod call;
mod checked;
mod choice;
mod dated;
mod directory;
mod folder;
mod log;
mod name;
mod opened;
mod order;
mod pairs;
mod recorded;
mod recovery;
mod removal;
mod seen;
mod system;
mod text;

pub use call::Call;
pub use checked::{discard, discard_next, put_new};
pub use choice::{Keep, is_full, is_short, surplus};
pub use dated::{key_at, names_sort};
pub use directory::{Directory, Fault};
pub use folder::{give_up, keep, put, recover};
pub use name::{Ending, Key, Name, Names, Seen};
pub use opened::{Mended, Put, mend, open_folder, put_for, put_or_mend};
pub use order::sort_oldest_first;
pub use recorded::Recorded;
pub use system::{Start, System, Unknown};
pub use text::{name_in, put_key, put_name};
