//! Units of currents.

ghost use Rattle.std.specs.Prelude.{◌≡◌};
ghost use Rattle.comtrade_views.specs.Spellings as spec;

/// The names of the unit of currents.
const NAMES: [&str; 8] = [
    "A", "Amp", "Amps", "Ampere", "Amperes", "Arms", "Apri", "Asec",
];

/// The words that may follow the unit.
const REMARKS: [&str; 10] = [
    "rms",
    "eff",
    "peak",
    "pk",
    "pri",
    "prim",
    "primary",
    "sec",
    "secondary",
    "inst",
];

/// Whether a word is one of these, in any case.
fn is_one(word: &[u8], names: &[&str]) -> bool {
    for name in names {
        if name.as_bytes().eq_ignore_ascii_case(word) {
            return true;
        }
    }
    false
}

/// Whether a word is a unit of currents: A, Amps .., with or without a prefix.
fn is_ampere(word: &[u8]) -> bool {
    match word {
        [b'k' | b'K' | b'm' | b'M' | b'u' | b'U', rest @ ..] if is_one(rest, &NAMES) => true,
        _ => is_one(word, &NAMES),
    }
}

/// The letters before the first other byte, and the text after that byte.
fn cut_word(text: &[u8]) -> (&[u8], &[u8]) {
    match text.iter().position(|b| !b.is_ascii_alphabetic()) {
        Some(at) => (&text[..at], &text[at + 1..]),
        None => (text, &[]),
    }
}

/// Whether each byte is a letter, or one that may stand between words.
fn has_words(text: &[u8]) -> bool {
    for b in text {
        if !matches!(
            *b,
            b'A'..=b'Z' | b'a'..=b'z' | b' ' | b'.' | b',' | b'_' | b'-' | b'(' | b')' | b'[' | b']'
        ) {
            return false;
        }
    }
    true
}

/// A unit without the sign of micro at its start, in UTF-8 or Latin-1.
fn without_micro(unit: &[u8]) -> &[u8]
    ensures { result.now ≡ spec.without_micro unit.now }
{
    match unit {
        [0xC2, 0xB5, rest @ ..] => rest,
        [0xB5, rest @ ..] => rest,
        _ => unit,
    }
}

/// Whether a unit is that of currents: A, Amps and the like, in any case, with or without a prefix,
/// also followed by words such as `rms` or `sec`.
pub(crate) fn is_current_unit(unit: &[u8]) -> bool {
    let text = without_micro(unit);
    if !has_words(text) {
        return false;
    }
    let mut rest = text;
    let mut is_found = false;
    for _ in 0..text.len() {
        let (word, back) = cut_word(rest);
        rest = back;
        if word.is_empty() {
            continue;
        }
        let is_known = if is_found {
            is_one(word, &REMARKS)
        } else {
            is_ampere(word)
        };
        if !is_known {
            return false;
        }
        is_found = true;
    }
    is_found
}

/// How many amperes a unit of currents is, by its prefix. `MA` is a milliampere in capitals.
pub(crate) fn amperes_of(unit: &[u8]) -> f64 {
    let text = without_micro(unit);
    if text.len() != unit.len() {
        return 1e-6;
    }
    let (word, _) = cut_word(text);
    match word {
        [b'k' | b'K', rest @ ..] if is_one(rest, &NAMES) => 1e3,
        [b'm' | b'M', rest @ ..] if is_one(rest, &NAMES) => 1e-3,
        [b'u' | b'U', rest @ ..] if is_one(rest, &NAMES) => 1e-6,
        _ => 1.0,
    }
}
