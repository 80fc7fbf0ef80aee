//! Values of channels in volts or amperes of the primary side.

ghost use Rattle.std.specs.Prelude.{◌≡◌};
ghost use Rattle.comtrade_distance.specs.Primary as spec;

use dfr_channels::Side;

const ONE: f64 = 1.0;

const THOUSAND: f64 = 1000.0;

const THOUSANDTH: f64 = 0.001;

/// How many volts or amperes a unit is, by its first letter: its prefix, or V or A.
fn size_by(letter: u8) -> Option<f64>
    ensures { result ≡ spec.size_by letter }
{
    if letter == b'k' || letter == b'K' {
        Some(THOUSAND)
    } else if letter == b'm' {
        Some(THOUSANDTH)
    } else if letter == b'V' || letter == b'v' || letter == b'A' || letter == b'a' {
        Some(ONE)
    } else {
        None
    }
}

/// How many volts or amperes a unit of voltages or currents is.
fn unit_size(unit: &[u8]) -> Option<f64>
    ensures { result ≡ spec.unit_size unit.now }
{
    match unit.first() {
        Some(letter) => size_by(*letter),
        None => None,
    }
}

/// Whether a ratio is more than what files have that know none.
fn is_told(ratio: f64) -> bool
    ensures { result ≡ spec.is_told ratio }
{
    if !ratio.is_finite() {
        false
    } else if 0.0 < ratio {
        ratio != ONE
    } else {
        false
    }
}

/// The ratio of a channel, if it tells one.
fn told(primary: f64, secondary: f64) -> Option<f64>
    ensures { result ≡ spec.told primary secondary }
{
    let ratio = primary / secondary;
    if is_told(ratio) { Some(ratio) } else { None }
}

/// How many primary units one of a channel is: for a secondary one the ratio that is given, else the
/// channel's own.
fn ratio_of(side: Side, primary: f64, secondary: f64, given: Option<f64>) -> Option<f64>
    ensures { result ≡ spec.ratio side primary secondary given }
{
    match (side, given) {
        (Side::Primary, _) => Some(ONE),
        (Side::Secondary, Some(ratio)) => Some(ratio),
        (Side::Secondary, None) => told(primary, secondary),
    }
}

/// How many volts or amperes of the primary side one unit of a channel is, by its unit, its side, its
/// ratio and the ratio that is given in place of that. None where the prefix is not k or m, or no
/// ratio is told.
pub fn factor_of(
    unit: &[u8],
    side: Side,
    primary: f64,
    secondary: f64,
    given: Option<f64>,
) -> Option<f64>
    ensures { result ≡ spec.factor unit.now side primary secondary given }
{
    let size = unit_size(unit)?;
    let ratio = ratio_of(side, primary, secondary, given)?;
    Some(size * ratio)
}
