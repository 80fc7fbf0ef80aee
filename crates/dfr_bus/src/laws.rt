//! Laws of the definitions that the decoder follows. Nothing is done here.

ghost use Rattle.std.specs.Prelude.{◌≡◌, ◌≤◌, ℕ, List, Ok};
ghost use Rattle.dfr_bus.specs.declared.span.Span.{Span};
ghost use Rattle.dfr_bus.specs.declared.capture.Capture.{Capture};
ghost use Rattle.dfr_bus.specs.declared.capture.Packet as packet;
ghost use Rattle.dfr_bus.specs.Ber.{element_at};
ghost use Rattle.dfr_bus.specs.Elements.{IsElement};
ghost use Rattle.dfr_bus.specs.Captures.{ArePackets};

/// What is read as an element is one, and each element is read.
pub fn elements()
    ensures meaning { (bytes : List ℕ) (at end tag : ℕ) (content : Span) → at ≤ end
        → element_at bytes at end tag ≡ Ok content → IsElement bytes at end tag content }
    ensures read { (bytes : List ℕ) (at end tag : ℕ) (content : Span)
        → IsElement bytes at end tag content → element_at bytes at end tag ≡ Ok content }
{}

/// A capture has one list of packets.
pub fn packets()
    ensures { (c : Capture) (bytes : List ℕ) (at end : ℕ) (ps qs : List packet.Packet)
        → ArePackets c bytes at end ps → ArePackets c bytes at end qs → ps ≡ qs }
{}
