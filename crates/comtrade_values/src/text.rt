ghost use Rattle.std.specs.Prelude.{◌≡◌};
ghost use Rattle.std.specs.Str.{bytes_eq};
ghost use Rattle.comtrade_values.specs.Spelling as spelling;

/// The text without the blanks (spaces and tabs) at both ends.
#[inline(always)]
pub fn trim(text: &[u8]) -> &[u8]
    ensures { result.now ≡ spelling.trimmed text.now }
{
    let mut inner = text;
    while let [b' ' | b'\t', rest @ ..] = inner {
        inner = rest;
    }
    while let [rest @ .., b' ' | b'\t'] = inner {
        inner = rest;
    }
    inner
}

/// Whether the byte is a space or a tab.
pub fn is_blank(b: u8) -> bool
    ensures { result ≡ spelling.is_blank b }
{
    b == b' ' || b == b'\t'
}

/// Whether the word is exactly this text.
pub fn is_word(word: &[u8], text: &str) -> bool
    ensures { result ≡ bytes_eq word.now text.now }
{
    word == text.as_bytes()
}
