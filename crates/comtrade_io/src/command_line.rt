//! The command line of `comtrade`: what the words after the program's name ask for, and the texts of help.

mod asked;
mod commands;
mod matched;
mod options;

pub use asked::{Answer, answer_of};
