//! Texts in the encodings that files are written in, as UTF-8: Latin-1, code pages, GBK, Shift JIS.
#![tactic(auto)]

mod code_pages;
mod encoding;
mod gbk;
mod letter;
mod shift_jis;
mod text;

pub use encoding::Encoding;
pub use text::{in_utf8, put_escaped};
