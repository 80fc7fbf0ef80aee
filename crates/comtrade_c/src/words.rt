//! Describes the first error of a pair in words.

ghost use Rattle.std.specs.Prelude.{◌≡◌, ◌≢◌, ◌⊎◌, IfOk};
ghost use Rattle.comtrade_c.specs.Words.{AreWords, Says, LacksRoom};

use crate::answer::{DONE, NO_MEMORY, NO_ROOM, put_front};
use bumpalo::Bump;
use comtrade_diagnostics::{Pair, put_fault};
use comtrade_read::verdict_of;
use std::alloc::{AllocError, Global};

/// The line that describes a pair's first error; empty if it has none.
fn words_of<'a>(lists: &'a Bump, pair: Pair<'_>) -> Result<Vec<u8, &'a Bump>, AllocError>
    ensures { IfOk result (λ words.
        AreWords pair.entry.cfg.now pair.entry.dat.now words.items) }
{
    let mut words = Vec::new(lists);
    match verdict_of(lists, pair.cfg, pair.dat) {
        Ok(None) => {}
        Ok(Some(found)) => put_fault(lists, &mut words, pair, found)?,
        Err(_) => return Err(AllocError),
    }
    Ok(words)
}

/// Describes the first error of a pair in a line: the file, the line, the field, what was found and
/// what was expected. The line is at the start of `text`. `count` is its length in bytes with the
/// line feed at its end, 0 if the pair has no error.
///
/// Returns `DONE`, `NO_ROOM` if `text` is shorter than the `count` that is set, or `NO_MEMORY`.
#[unsafe(no_mangle)]
pub extern "C" fn comtrade_core_words(
    alloc: Global,
    cfg: &[u8],
    dat: &[u8],
    text: &mut [u8],
    count: &mut usize,
) -> i32
    ensures answer { (result ≡ DONE) ⊎ (result ≡ NO_ROOM) ⊎ (result ≡ NO_MEMORY) }
    ensures done { result ≡ DONE → Says cfg.now dat.now text.old text.new count.new }
    ensures room { result ≡ NO_ROOM → LacksRoom cfg.now dat.now text.old count.new }
    ensures text_kept { (result ≢ DONE) → text.new ≡ text.old }
    ensures count_kept { result ≡ NO_MEMORY → count.new ≡ count.old }
{
    let pair = Pair {
        cfg_name: b"the configuration file",
        cfg,
        dat_name: b"the data file",
        dat,
    };
    let lists = Bump::new(alloc); // as in `rows`: so the reader of rows stands in the library once, in one piece
    let Ok(words) = words_of(&lists, pair) else {
        return NO_MEMORY;
    };
    *count = words.len();
    if text.len() < words.len() {
        return NO_ROOM;
    }
    put_front(text, &words);
    DONE
}
