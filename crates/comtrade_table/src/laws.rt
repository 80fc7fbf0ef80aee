//! Laws about rows, stated as functions that do nothing.

ghost use Rattle.std.specs.Prelude.{ℕ, List, ◌++◌};
ghost use Rattle.comtrade_format.specs.Parts.{RowParts};
ghost use Rattle.comtrade_read.specs.Reads.{ReadsBinary};

/// What BINARY data read to, they read to piece by piece: bytes that read to some rows, and bytes
/// behind them that read to others, read together to all of these rows, in their order.
pub fn read_in_pieces()
    ensures { (k m : ℕ) (front back : List ℕ) (xs ys : List RowParts)
        → ReadsBinary k m front xs → ReadsBinary k m back ys → ReadsBinary k m (front ++ back) (xs ++ ys) }
{}
