//! The words of a line.

ghost use Rattle.std.specs.Prelude.{◌≡◌, IfOk, position};
ghost use Rattle.std.specs.List.{after_first};
ghost use Rattle.comtrade_values.specs.Lines.{texts, field};
ghost use Rattle.comtrade_values.specs.Spelling as spelling;
ghost use Rattle.dfr_setup.specs.Wishes as spec;

use comtrade_values::{is_blank, is_word, trim};
use std::alloc::{AllocError, Allocator};

fn word_end(line: &[u8]) -> Option<usize>
    ensures { result ≡ position spelling.is_blank line.now }
{
    line.iter().position(|b| is_blank(*b))
}

/// The text before the first blank.
#[tactic(auto, using(comtrade_values::proofs::Cuts::cuts))]
pub(crate) fn first_word(line: &[u8]) -> &[u8]
    ensures { result.now ≡ spec.first_word line.now }
{
    match word_end(line) {
        Some(end) => &line[..end],
        None => line,
    }
}

/// The text after the first blank, without the blanks around it.
#[tactic(auto, using(comtrade_values::proofs::Cuts::cuts))]
pub(crate) fn rest_of(line: &[u8]) -> &[u8]
    ensures { result.now ≡ spelling.trimmed (after_first spelling.is_blank line.now) }
{
    match word_end(line) {
        Some(end) => trim(&line[end + 1..]),
        None => &[],
    }
}

/// Whether the line asks for detectors.
pub(crate) fn is_detect(line: &[u8]) -> bool
    ensures { result ≡ spec.is_detect line.now }
{
    is_word(first_word(line), "detect")
}

/// Whether the set-up ends at the line.
pub(crate) fn is_go(line: &[u8]) -> bool
    ensures { result ≡ spec.is_go line.now }
{
    is_word(first_word(line), "go")
}

/// The words of the line, separated by blanks.
pub(crate) fn words_of<'a, A: Allocator>(
    alloc: A,
    line: &'a [u8],
) -> Result<Vec<&'a [u8], A>, AllocError>
    ensures { IfOk result (λ v. texts v.items ≡ spec.words line.now) }
{
    line.split(|b| is_blank(*b))
        .filter(|word| !word.is_empty())
        .collect(alloc)
}

/// Word `i`, from 0; empty if there is none.
pub(crate) fn word_at<'a>(words: &[&'a [u8]], i: usize) -> &'a [u8]
    ensures { result.now ≡ field (texts words.now) i }
{
    if i < words.len() { words[i] } else { &[] }
}

/// Whether word `i`, from 0, is this text.
pub(crate) fn says(words: &[&[u8]], i: usize, text: &str) -> bool
    ensures { result ≡ spec.says (texts words.now) i text.now }
{
    is_word(word_at(words, i), text)
}
