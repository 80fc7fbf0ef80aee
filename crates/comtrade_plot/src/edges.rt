//! The values at the edges of a panel.

/// The bounds, extended by others.
pub(crate) fn spread(bounds: Option<(f64, f64)>, more: Option<(f64, f64)>) -> Option<(f64, f64)> {
    match (bounds, more) {
        (Some((low, high)), Some((least, greatest))) => Some((
            if least < low { least } else { low },
            if high < greatest { greatest } else { high },
        )),
        (None, more) => more,
        (bounds, None) => bounds,
    }
}

/// The values at a panel's edges, with a margin of a twentieth of their span above and below; a
/// constant is in the middle.
pub(crate) fn with_edges(low: f64, high: f64) -> (f64, f64) {
    let size = if high.abs() < low.abs() {
        low.abs()
    } else {
        high.abs()
    };
    let span = high - low;
    if size * 1e-9 < span {
        return (low - span * 0.05, high + span * 0.05);
    }
    if size <= 0.0 {
        return (-1.1, 1.1);
    }
    (low - size * 0.05, high + size * 0.05)
}
