//! What a scan gives a detector.

/// The value of one signal, or the samples of three phases.
#[derive(Clone, Copy, Debug, PartialEq, Eq)]
pub struct Sample {
    /// The signal, or phase A.
    pub a: i64,
    /// Phase B, 0 for one signal.
    pub b: i64,
    /// Phase C, 0 for one signal.
    pub c: i64,
}
