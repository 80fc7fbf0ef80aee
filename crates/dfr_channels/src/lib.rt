//! What the recorder and the file crates share: channels, scans and trigger rules, and the basic
//! values of `comtrade_values`.
#![tactic(auto)]

mod channel;
mod layout;
mod numbers;
mod rule;
mod rules;
mod scan;
mod setup;

pub use channel::{AnalogChannel, Side, StatusChannel, side_of};
pub use comtrade_values::{
    Decimal, Items, Lines, Memory, TryClone, bit_of, copies_of, decimal_is_number, fields_of,
    free_bit_of, free_scale_of, integer_of, is_plain, lines_of, numeral_of, plain_number,
    sample_number, trim, without_blank_end,
};
pub use layout::{Layout, ScanFault};
pub use numbers::{channels_have_numbers, layout_has_numbers};
pub use rule::Rule;
pub use rules::{RuleFault, Rules};
pub use scan::{Reading, Scan};
pub use setup::{Place, Setup, SetupFault};
