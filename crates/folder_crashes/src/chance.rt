//! Numbers by chance, as xorshift64 makes them.

ghost use Rattle.std.specs.Prelude.{◌≡◌, ◌<◌};

#[derive(Clone, Copy)]
pub struct Chance {
    state: u64,
}

impl Chance {
    /// The numbers of a seed.
    pub fn of(seed: u64) -> Chance {
        Chance {
            state: seed.wrapping_mul(0x9E37_79B9_7F4A_7C15) | 1,
        }
    }

    /// A number below this one, or 0.
    pub fn below(&mut self, n: u64) -> u64
        ensures none { n ≡ 0 → result ≡ 0 }
        ensures less { 0 < n → result < n }
    {
        let mut x = self.state;
        x ^= x << 13;
        x ^= x >> 7;
        x ^= x << 17;
        self.state = x;
        let high = x >> 11;
        if n == 0 { 0 } else { high % n }
    }

    /// One of two.
    pub fn coin(&mut self) -> bool {
        self.below(2) == 0
    }
}
