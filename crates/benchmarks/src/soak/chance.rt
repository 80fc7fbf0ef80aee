//! Numbers by chance, as xorshift64 makes them.

use std::thread;

#[derive(Clone, Copy)]
pub struct Chance {
    state: u64,
}

impl Chance {
    /// Numbers of its own for each user of a seed.
    pub fn of(seed: u64, user: u64) -> Chance {
        let spread = seed.wrapping_mul(0x9E37_79B9_7F4A_7C15);
        let mixed = (spread ^ user.wrapping_mul(0xBF58_476D_1CE4_E5B9)) | 1;
        Chance { state: mixed }
    }

    /// A number below this one, or 0.
    pub fn below(&mut self, n: u64) -> u64 {
        let mut x = self.state;
        x ^= x << 13;
        x ^= x >> 7;
        x ^= x << 17;
        self.state = x;
        let high = x >> 11;
        if n == 0 { 0 } else { high % n }
    }

    /// Lets other threads go on, mostly not at all, for up to so many turns.
    pub fn pause(&mut self, turns: u64) {
        if self.below(8) == 0 {
            for _ in 0..self.below(turns) {
                thread::yield_now();
            }
        }
    }
}
