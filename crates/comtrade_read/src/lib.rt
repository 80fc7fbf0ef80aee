//! Reads COMTRADE files (C37.111-1999). `specs/Reads` defines which bytes read to which file, and
//! which error comes first if they read to none. `specs/Head` defines the lines of a configuration
//! file, and `specs/Ascii` the rows of ASCII data.
#![tactic(auto)]

mod ascii;
mod binary;
mod cells;
mod channels;
mod convert;
mod data;
mod fault;
mod fields;
mod file;
mod head;
mod instant;
mod laws;
mod left;
mod numbers;
mod pair;
mod plain_rows;
mod settings;
mod verdict;

pub use binary::row_size;
pub use convert::{ConvertFault, Written, converted, written_of};
pub use data::read_dat;
pub use fault::ReadFault;
pub use file::read_of_file;
pub use head::read_cfg;
pub use laws::{file_reads_back, one_file, read_back};
pub use pair::{Part, read};
pub use verdict::{Fault, verdict_of};
