//! Bits in plain spelling: one digit each.

ghost use Rattle.std.specs.Prelude.{◌≡◌, ◌*◌, ◌+◌, length, true};
ghost use Rattle.comtrade_values.specs.PlainBits.{AreBits};

/// Whether a text of this length is `count` digits 0 and 1, separated by commas. It has no branch.
pub fn are_bits(text: &[u8], count: usize) -> bool
    requires { length text.now + 1 ≡ 2 * count }
    ensures { result ≡ true → AreBits text.now count }
{
    let mut all = true;
    for i in 0..count - 1 {
        let digit = text[2 * i];
        all = all & (digit == b'0' || digit == b'1') & (text[2 * i + 1] == b',');
    }
    let last = text[2 * (count - 1)];
    all & (last == b'0' || last == b'1')
}
