//! The data of a line.

use comtrade_analysis::Phasor;

/// The impedances of a whole line, in ohms, on the side on which it is measured.
#[derive(Clone, Copy, Debug)]
pub struct Line {
    /// R1 + jX1, of the positive sequence.
    pub positive: Phasor,
    /// R0 + jX0, of the zero sequence.
    pub zero: Phasor,
}
