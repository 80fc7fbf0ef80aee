//! COMTRADE files (C37.111-1999) as values: the content of a configuration file and its data file,
//! the bytes written for them, and their numbers in forms that a program can compute with.
#![tactic(auto)]

mod bounds;
mod bytes;
mod cfg;
mod checks;
mod fault;
mod fields;
mod file;
mod packed;
mod parts;
mod rows_ascii;
mod rows_binary;
mod shape;
mod texts;
mod value_text;
mod values;

pub use bytes::{ascii_bytes, binary_bytes, cfg_bytes, dat_bytes};
pub use comtrade_values::{civil_of, exact_value, put_decimal, without_zeros, write_all_of};
pub use fault::WriteFault;
pub use file::{File, Head, Kind, Rate, Row};
pub use packed::{packed_bits, packed_values};
pub use values::{
    AlignedScale, Border, BorderSearch, Clock, Cycle, CycleFault, LONGEST_VALUE, Scale,
    aligned_scale_of, border_of, clock_in, clock_of, clock_with, cycle_of, nearest_f64, scale_of,
    search_in, search_of, write_shortened,
};
