//! How tables of values are written.

ghost use Rattle.std.specs.Prelude.{◌≡◌};
ghost use Rattle.comtrade_views.specs.Spellings as spec;

/// The separator of cells, and the decimal sign.
#[derive(Clone, Copy, Debug, PartialEq, Eq)]
pub struct Spelling {
    pub separator: u8,
    pub decimal: u8,
}

impl Spelling {
    /// The spelling that a user asks for: one printable character or `tab` as separator, a point or
    /// a comma as decimal sign; without words a comma and a point. None for anything else, or for
    /// the same sign as both.
    pub fn of(separator: Option<&str>, decimal: Option<&str>) -> Option<Spelling> {
        let separator = match separator {
            Some(text) => separator_of(text)?,
            None => b',',
        };
        let decimal = match decimal {
            Some(text) => decimal_sign_of(text)?,
            None => b'.',
        };
        if separator == decimal {
            return None;
        }
        Some(Spelling { separator, decimal })
    }
}

fn separator_of(text: &str) -> Option<u8> {
    match text.as_bytes() {
        b"tab" => Some(b'\t'),
        [b] if is_sign(*b) => Some(*b),
        _ => None,
    }
}

fn decimal_sign_of(text: &str) -> Option<u8> {
    match text.as_bytes() {
        b"." => Some(b'.'),
        b"," => Some(b','),
        _ => None,
    }
}

/// A printable character that cannot be part of a number and is not a quotation mark.
fn is_sign(b: u8) -> bool
    ensures { result ≡ spec.is_sign b }
{
    33 <= b && b <= 126 && !b.is_ascii_alphanumeric() && b != b'"' && b != b'-'
}
