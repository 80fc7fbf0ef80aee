//! The COMTRADE files of a record (C37.111-1999): its `File`, and the bytes of its two files.
//! `comtrade_format` defines what a `File` is and how it is written. Its names for that are
//! exported here too.
#![tactic(auto)]

mod of_record;
mod pair;

pub use comtrade_format::{
    File, Head, Kind, Rate, Row, WriteFault, ascii_bytes, binary_bytes, cfg_bytes, dat_bytes,
    put_decimal, write_all_of,
};
pub use of_record::{FileFault, file_of};
pub use pair::{Pair, pair_of};
