//! How much is measured.

/// How often each measure is made; over little, and not printed, where no number is asked for.
#[derive(Clone, Copy)]
pub struct Amount {
    pub runs: u32,
    pub is_full: bool,
}

impl Amount {
    /// So many runs, or one over little.
    pub fn of(runs: Option<u32>) -> Amount {
        Amount {
            runs: runs.unwrap_or(1),
            is_full: runs.is_some(),
        }
    }

    pub fn over(self, full: u32, little: u32) -> u32 {
        if self.is_full { full } else { little }
    }
}
