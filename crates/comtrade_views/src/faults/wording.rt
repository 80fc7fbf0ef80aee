//! Whole words in the names of channels.

ghost use Rattle.std.specs.Prelude.{◌≡◌, ◌≤◌, length};
ghost use Rattle.comtrade_views.specs.Wording as spec;

/// Whether a byte is a letter. Those above 127 belong to letters of other alphabets.
fn is_letter(byte: u8) -> bool
    ensures { result ≡ spec.is_letter byte }
{
    is_lower(byte) || is_upper(byte) || 128 <= byte
}

/// Whether it is a digit.
fn is_digit(byte: u8) -> bool
    ensures { result ≡ spec.is_digit byte }
{
    48 <= byte && byte <= 57
}

/// Whether it is a small letter from a to z.
fn is_lower(byte: u8) -> bool
    ensures { result ≡ spec.is_lower byte }
{
    97 <= byte && byte <= 122
}

/// Whether it is a capital letter from A to Z.
fn is_upper(byte: u8) -> bool
    ensures { result ≡ spec.is_upper byte }
{
    65 <= byte && byte <= 90
}

/// Whether two bytes next to each other are of one word: two letters, or two digits. A capital
/// letter after a small one begins a word.
fn are_joined(one: u8, other: u8) -> bool
    ensures { result ≡ spec.are_joined one other }
{
    (is_letter(one) && is_letter(other) || is_digit(one) && is_digit(other))
        && !(is_lower(one) && is_upper(other))
}

/// Whether no word goes on at a place of a text, from before it to after it.
fn is_border(text: &[u8], at: usize) -> bool
    requires { at ≤ length text.now }
    ensures { result ≡ spec.is_border text.now at }
{
    at == 0 || at == text.len() || !are_joined(text[at - 1], text[at])
}

/// Whether a byte of a name is that of a pattern: in upper or lower case, and a space stands for any
/// byte that is of no word.
fn is_same(byte: u8, wanted: u8) -> bool {
    if wanted == b' ' {
        !is_letter(byte) && !is_digit(byte)
    } else {
        byte.eq_ignore_ascii_case(&wanted)
    }
}

/// Whether the bytes of a name are those of a pattern.
fn are_same(part: &[u8], wanted: &[u8]) -> bool {
    part.iter()
        .zip(wanted.iter())
        .all(|(byte, wanted)| is_same(*byte, *wanted))
}

/// Words to look for; the first may go on before them, and the last after them.
#[derive(Clone, Copy)]
struct Pattern<'a> {
    words: &'a [u8],
    is_open_before: bool,
    is_open_after: bool,
}

/// The pattern that a text writes: `trip` a whole word, `reclos*` the beginning of one, and `*ausl*`
/// a part of one.
fn pattern_of(text: &str) -> Pattern<'_> {
    let bytes = text.as_bytes();
    let (is_open_before, rest) = match bytes.strip_prefix(b"*") {
        Some(rest) => (true, rest),
        None => (false, bytes),
    };
    let (is_open_after, words) = match rest.strip_suffix(b"*") {
        Some(words) => (true, words),
        None => (false, rest),
    };
    Pattern {
        words,
        is_open_before,
        is_open_after,
    }
}

/// Whether a pattern stands at a place of a text.
fn is_at(text: &[u8], pattern: Pattern<'_>, at: usize) -> bool
    requires { at ≤ length text.now }
{
    let Some(part) = text[at..].get(..pattern.words.len()) else {
        return false;
    };
    are_same(part, pattern.words)
        && (pattern.is_open_before || is_border(text, at))
        && (pattern.is_open_after || is_border(text, at + part.len()))
}

/// Whether a text has one of these patterns.
pub(crate) fn has_one(text: &[u8], patterns: &[&str]) -> bool {
    for written in patterns {
        let pattern = pattern_of(written);
        for at in 0..text.len() {
            if is_at(text, pattern, at) {
                return true;
            }
        }
    }
    false
}
