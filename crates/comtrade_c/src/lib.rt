//! The calls below `examples/embedding/comtrade.h`, which read and write COMTRADE files for C. Each
//! call takes a pair of files as bytes, and puts its results into variables and buffers of the
//! caller. Nothing stays in memory after a call.
#![tactic(auto)]

mod answer;
mod binary;
mod channels;
mod cycles;
mod import;
mod measure;
mod rows;
mod summary;
mod texts;
mod times;
mod values;
mod words;
mod write;
