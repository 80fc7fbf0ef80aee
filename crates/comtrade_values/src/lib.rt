//! The basic values of the recorder and of COMTRADE files: lists and the out-of-memory error;
//! lines and fields of a text; decimals, how they are spelled, and their arithmetic; instants as
//! text; input up to a limit, and output.
#![tactic(auto)]

mod arithmetic;
mod decimal;
mod exact;
mod fields;
mod input;
mod instant;
mod items;
mod lines;
mod memory;
mod number;
mod output;
mod plain;
mod plain_bits;
mod plain_numbers;
mod sample_numbers;
mod text;
mod writing;

pub use arithmetic::{exact_value, with_places, without_zeros};
pub use decimal::{Decimal, decimal_is_number, numeral_of};
pub use exact::{Exact, whole_of};
pub use fields::{bit_of, free_bit_of, free_scale_of, natural_of};
pub use input::{InputFault, read_up_to};
pub use instant::{civil_of, has_date, put_civil, put_instant};
pub use items::{Items, TryClone, copies_of};
pub use lines::{Lines, fields_of, lines_of, without_blank_end};
pub use memory::Memory;
pub use number::{integer_of, short_number};
pub use output::write_all_of;
pub use plain::is_plain;
pub use plain_bits::are_bits;
pub use plain_numbers::plain_number;
pub use sample_numbers::sample_number;
pub use text::{is_blank, is_word, trim};
pub use writing::{
    put, put_both, put_count, put_decimal, put_exact, put_number, put_padded, put_with,
};
