//! Which texts a file can hold.

ghost use Rattle.std.specs.Prelude.{◌≡◌};
ghost use Rattle.comtrade_values.specs.Spelling.{is_blank};
ghost use Rattle.comtrade_values.specs.Texts as spec;

fn has_length(low: usize, high: usize, text: &[u8]) -> bool
    ensures { result ≡ spec.has_length low high text.now }
{
    low <= text.len() && text.len() <= high
}

fn is_printable(text: &[u8]) -> bool
    ensures { result ≡ spec.is_printable text.now }
{
    text.iter().all(|b| 32 <= *b && *b <= 126 && *b != b',')
}

fn is_blank(b: u8) -> bool
    ensures { result ≡ is_blank b }
{
    b == b' ' || b == b'\t'
}

fn has_blank_end(text: &[u8]) -> bool
    ensures { result ≡ spec.has_blank_end text.now }
{
    if text.is_empty() {
        return false;
    }
    is_blank(text[0]) || is_blank(text[text.len() - 1])
}

/// Whether a file can hold the text: `low` to `high` bytes, each from hexadecimal 20 to 7E but no
/// comma, and no blank at either end. The bounds are 0 and 64 for station, device, id and
/// component, 0 and 2 for the phase, 1 and 32 for the unit.
#[tactic(auto, unfolding(crate::specs::Texts::is_plain))]
pub fn is_plain(low: usize, high: usize, text: &[u8]) -> bool
    ensures { result ≡ spec.is_plain low high text.now }
{
    has_length(low, high, text) && is_printable(text) && !has_blank_end(text)
}
