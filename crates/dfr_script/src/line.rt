//! The first word of a line, and the rest of the line.

ghost use Rattle.std.specs.Prelude.{◌≡◌, position};
ghost use Rattle.comtrade_values.specs.Lines.{is_blank_line};
ghost use Rattle.dfr_script.specs.Words as spec;

use comtrade_values::{is_blank, trim};

fn place_of_blank(line: &[u8]) -> Option<usize>
    ensures { result ≡ position spec.is_blank line.now }
{
    line.iter().position(|b| is_blank(*b))
}

/// The text before the first blank, and the rest without surrounding blanks. Most lines are scans,
/// which are recognized by their first five bytes.
#[inline(always)]
#[tactic(auto, unfolding(crate::specs::Words::word, crate::specs::Words::rest))]
pub(crate) fn cut(line: &[u8]) -> (&[u8], &[u8])
    ensures word { result.0.now ≡ spec.word line.now }
    ensures rest { result.1.now ≡ spec.rest line.now }
{
    match line {
        [b's', b'c', b'a', b'n', b' ', rest @ ..] => (&line[..4], trim(rest)),
        _ => cut_at_blank(line),
    }
}

/// The same, for a line that begins with any word.
#[tactic(auto, using(comtrade_values::proofs::Cuts::cuts), unfolding(crate::specs::Words::word, crate::specs::Words::rest))]
fn cut_at_blank(line: &[u8]) -> (&[u8], &[u8])
    ensures word { result.0.now ≡ spec.word line.now }
    ensures rest { result.1.now ≡ spec.rest line.now }
{
    match place_of_blank(line) {
        None => (line, &[]),
        Some(at) => (&line[..at], trim(&line[at + 1..])),
    }
}

/// Whether a text is empty or has only blanks.
pub(crate) fn is_bare(text: &[u8]) -> bool
    ensures { result ≡ is_blank_line text.now }
{
    match text {
        [first, ..] if !is_blank(*first) => false,
        _ => trim(text).is_empty(),
    }
}

/// Whether the line is skipped: it is blank, or a comment, which begins with `#`.
#[tactic(auto, unfolding(crate::specs::Words::is_silent))]
pub(crate) fn is_silent(line: &[u8]) -> bool
    ensures { result ≡ spec.is_silent line.now }
{
    match line {
        [b'#', ..] => true,
        _ => is_bare(line),
    }
}
