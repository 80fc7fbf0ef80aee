//! Heights and vertical positions.

ghost use Rattle.std.specs.Prelude.{◌≡◌, ◌≤◌, ◌+◌, ◌-◌, min};

/// The greatest height, in tenths of a pixel: 100 million pixels.
const MOST: u32 = 1_000_000_000;

/// A height, or a vertical position, which is the height above it, in tenths of a pixel. A picture
/// of more channels than it has room for ends at the greatest height: they are drawn at its edge.
#[derive(Clone, Copy, Debug)]
pub struct Down {
    pub tenths: u32,
    ghost has_room: { tenths ≤ 1000000000 },
}

impl Down {
    pub const fn at(tenths: u32) -> Down
        requires { tenths ≤ 1000000000 }
        ensures { result.tenths ≡ tenths }
    {
        Down { tenths }
    }

    /// The position this much lower.
    pub fn below(self, height: u32) -> Down
        requires { height ≤ 1000000000 }
        ensures { result.tenths ≡ min (self.tenths + height) 1000000000 }
    {
        Down {
            tenths: (self.tenths + height).min(MOST),
        }
    }

    /// The position lower by a height.
    pub fn after(self, height: Down) -> Down
        ensures { result.tenths ≡ min (self.tenths + height.tenths) 1000000000 }
    {
        self.below(height.tenths)
    }

    /// The position this much higher; the picture's upper edge where there is less above it.
    pub fn above(self, height: u32) -> Down
        ensures { result.tenths ≡ self.tenths - height }
    {
        // (the difference of natural numbers that the contract names)
        Down {
            tenths: self.tenths.saturating_sub(height),
        }
    }

    /// The greater height.
    pub fn max(self, other: Down) -> Down {
        if self.tenths < other.tenths {
            other
        } else {
            self
        }
    }
}
