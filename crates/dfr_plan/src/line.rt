//! The words and fields of a line.

ghost use Rattle.std.specs.Prelude.{◌≡◌, position};
ghost use Rattle.std.specs.List.{after_first};
ghost use Rattle.std.specs.Str.{bytes_eq};
ghost use Rattle.comtrade_values.specs.Lines.{texts, field};
ghost use Rattle.comtrade_values.specs.Spelling as spelling;
ghost use Rattle.dfr_plan.specs.Words as spec;

use comtrade_values::trim;

/// Whether the byte is a space or a tab.
fn is_blank(b: u8) -> bool
    ensures { result ≡ spelling.is_blank b }
{
    b == b' ' || b == b'\t'
}

fn word_end(line: &[u8]) -> Option<usize>
    ensures { result ≡ position spelling.is_blank line.now }
{
    line.iter().position(|b| is_blank(*b))
}

/// The text before the first blank.
#[tactic(auto, using(comtrade_values::proofs::Cuts::cuts))]
fn first_word(line: &[u8]) -> &[u8]
    ensures { result.now ≡ spec.first_word line.now }
{
    match word_end(line) {
        Some(end) => &line[..end],
        None => line,
    }
}

/// The text after the first blank, without the blanks around it.
#[tactic(auto, using(comtrade_values::proofs::Cuts::cuts))]
pub(crate) fn rest_of(line: &[u8]) -> &[u8]
    ensures { result.now ≡ spec.rest line.now }
{
    match word_end(line) {
        Some(end) => trim(&line[end + 1..]),
        None => &[],
    }
}

/// Whether the text is exactly this word.
pub(crate) fn is_word(text: &[u8], word: &str) -> bool
    ensures { result ≡ bytes_eq text.now word.now }
{
    text == word.as_bytes()
}

/// Whether the line begins with this word.
pub(crate) fn begins(line: &[u8], word: &str) -> bool
    ensures { result ≡ spec.begins word.now line.now }
{
    is_word(first_word(line), word)
}

/// Whether the set-up ends at the line.
pub(crate) fn is_go(line: &[u8]) -> bool
    ensures { result ≡ spec.is_go line.now }
{
    is_word(first_word(line), "go")
}

/// Whether the line says nothing: it is blank, a comment, or one that only the service reads.
pub(crate) fn is_silent(line: &[u8]) -> bool
    ensures { result ≡ spec.is_silent line.now }
{
    trim(line).is_empty()
        || line.starts_with(b"#")
        || is_word(first_word(line), "input")
        || is_word(first_word(line), "options")
}

/// Field `i`, from 0; empty if there is none.
pub(crate) fn field_at<'a>(fields: &[&'a [u8]], i: usize) -> &'a [u8]
    ensures { result.now ≡ field (texts fields.now) i }
{
    if i < fields.len() { fields[i] } else { &[] }
}
