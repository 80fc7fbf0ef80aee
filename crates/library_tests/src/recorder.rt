//! The one-thread recorder: that its calls succeed, which no clause says, and that it holds no memory besides what contracts see. More
//! runs, by script, are the cases of `dfr replay`.

pub mod memory;
mod records;
mod runs;
