//! Laws of the definitions: what the pieces give is what the whole capture has. Nothing is done here.

ghost use Rattle.std.specs.Prelude.{◌≡◌, ◌≤◌, ℕ, List, [], ◌++◌, length, Some, None, false};
ghost use Rattle.dfr_bus.specs.declared.capture.Capture.{Capture};
ghost use Rattle.dfr_bus.specs.Captures.{head_at, packet_at};
ghost use Rattle.dfr_pcap.specs.Pieces.{PiecesParts, added, begun, passed, step};
ghost use Rattle.dfr_pcap.specs.Wholes.{IsOf, is_cut, step_at};

/// Whatever pieces a capture comes in: each step is what the whole capture has at that place.
pub fn in_pieces()
    ensures new { IsOf [] (record { capture = None; passed = 0; bytes = [] }) }
    ensures added { (came piece : List ℕ) (p : PiecesParts) → IsOf came p → IsOf (came ++ piece) (added piece p) }
    ensures begun { (came : List ℕ) (p : PiecesParts) → IsOf came p → IsOf came (begun p) }
    ensures passed { (came : List ℕ) (p : PiecesParts) (c : Capture) (n : ℕ) → n ≤ length p.bytes
        → p.capture ≡ Some c → IsOf came p → IsOf came (passed n p) }
    ensures step { (came : List ℕ) (p : PiecesParts) → IsOf came p → step p ≡ step_at came p.capture p.passed }
{}

/// What was read, and was not cut short, stays when more bytes come.
pub fn more_bytes()
    ensures head { (came more : List ℕ) → is_cut (head_at came (length came)) ≡ false
        → head_at (came ++ more) (length (came ++ more)) ≡ head_at came (length came) }
    ensures packet { (c : Capture) (came more : List ℕ) (at : ℕ) → is_cut (packet_at c came at (length came)) ≡ false
        → packet_at c (came ++ more) at (length (came ++ more)) ≡ packet_at c came at (length came) }
{}
