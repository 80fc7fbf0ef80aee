//! The bits of the newest scan that the queue took. A lost scan has them too.

ghost use Rattle.std.specs.Prelude.{◌≡◌, IfOk, map};

use dfr_channels::Layout;
use std::alloc::{AllocError, Allocator, Global};
use std::mem;

/// The most status channels.
const BITS: usize = 256;

/// The bits of the newest scan that the queue took, or the channels' normal states if there is
/// none.
#[derive(Drop)]
pub(crate) struct Filler<A: Allocator = Global> {
    bits: Vec<bool, A>,
    /// The bits of the scan that was given last.
    next: Vec<bool, A>,
}

impl<A: Allocator> Filler<A> {
    /// Notes the bits of a scan that is given.
    pub(crate) fn note(&mut self, bits: &[bool]) -> Result<(), AllocError>
        ensures noted { IfOk result (λ _. self.new.next.items ≡ bits.now) }
        ensures kept { self.new.bits ≡ self.old.bits }
    {
        self.next.clear();
        self.next.extend_from_slice(bits)
    }

    /// The queue took that scan.
    pub(crate) fn keep(&mut self)
        ensures { (self.new.bits ≡ self.old.next) × (self.new.next ≡ self.old.bits) }
    {
        mem::swap(&mut self.bits, &mut self.next);
    }

    pub(crate) fn bits(&self) -> &[bool]
        ensures { result.now ≡ self.now.bits.items }
    {
        &self.bits
    }
}

impl<A: Allocator + Copy> Filler<A> {
    pub(crate) fn new(alloc: A, layout: &Layout<A>) -> Result<Filler<A>, AllocError>
        ensures { IfOk result (λ f. f.bits.items ≡ map (λ c. c.normal) layout.now.status) }
    {
        let mut bits = Vec::with_capacity(alloc, BITS)?;
        for channel in layout.status() {
            bits.push(channel.normal)?;
        }
        Ok(Filler {
            bits,
            next: Vec::with_capacity(alloc, BITS)?,
        })
    }
}
