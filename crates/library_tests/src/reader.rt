//! Configuration and data files read. What each line and each cut of them reads to, `dfr read` and
//! `comtrade convert` print: `cases/dfr/read`, `cases/comtrade/convert`.

mod in_place;
mod no_rates;
mod read_back;
pub mod same;
