//! A part of a frame, by its places.

ghost use Rattle.std.specs.Prelude.{◌≡◌, ◌≤◌, length, slice_range, IfSome, IfNone};

/// The bytes from one place to another, the second not included.
#[derive(Clone, Copy, Debug, PartialEq, Eq)]
pub struct Span {
    /// The place of the first byte.
    pub from: usize,
    /// The place after the last byte.
    pub to: usize,
}

impl Span {
    /// The bytes there, if there are so many.
    pub fn of(self, bytes: &[u8]) -> Option<&[u8]>
        ensures some { IfSome result (λ part. (self.from ≤ self.to) × (self.to ≤ length bytes.now)
            × (part.now ≡ slice_range bytes.now self.from self.to)) }
        ensures none { IfNone result (self.from ≤ self.to → self.to ≤ length bytes.now → ⊥) }
    {
        if self.from > self.to || self.to > bytes.len() {
            return None;
        }
        Some(&bytes[self.from..self.to])
    }
}
