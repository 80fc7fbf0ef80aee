//! Phasors: rms magnitudes with angles.

ghost use Rattle.std.specs.Prelude.{◌≡◌};
ghost use Rattle.comtrade_analysis.specs.Phasors as spec;

/// A magnitude and an angle, as the coordinates of a point.
#[derive(Clone, Copy, Debug)]
pub struct Phasor {
    pub re: f64,
    pub im: f64,
}

impl Phasor {
    /// The phasor of magnitude 1 at an angle in radians.
    pub fn unit(angle: f64) -> Phasor {
        Phasor {
            re: angle.cos(),
            im: angle.sin(),
        }
    }

    pub fn plus(self, other: Phasor) -> Phasor
        ensures { result ≡ spec.plus self other }
    {
        Phasor {
            re: self.re + other.re,
            im: self.im + other.im,
        }
    }

    pub fn minus(self, other: Phasor) -> Phasor
        ensures { result ≡ spec.minus self other }
    {
        Phasor {
            re: self.re - other.re,
            im: self.im - other.im,
        }
    }

    /// The product: magnitudes are multiplied, angles added.
    pub fn times(self, other: Phasor) -> Phasor
        ensures { result ≡ spec.times self other }
    {
        Phasor {
            re: self.re * other.re - self.im * other.im,
            im: self.im * other.re + self.re * other.im,
        }
    }

    pub fn scaled(self, factor: f64) -> Phasor
        ensures { result ≡ spec.scaled factor self }
    {
        Phasor {
            re: self.re * factor,
            im: self.im * factor,
        }
    }

    /// The same magnitude, and the angle with the other sign.
    pub fn mirrored(self) -> Phasor
        ensures { result ≡ spec.mirrored self }
    {
        Phasor {
            re: self.re,
            im: -self.im,
        }
    }

    /// How far it lies across from another one, times the other's magnitude: 0 where they are in
    /// phase.
    pub fn across(self, other: Phasor) -> f64
        ensures { result ≡ spec.across self other }
    {
        self.im * other.re - self.re * other.im
    }

    pub fn magnitude(self) -> f64 {
        self.re.hypot(self.im)
    }

    /// Its angle relative to another one, positive when it leads: in degrees, above -180 and at
    /// most 180.
    pub fn degrees_from(self, other: Phasor) -> f64 {
        let turned = self.times(other.mirrored());
        let degrees = turned.im.atan2(turned.re).to_degrees();
        if degrees <= -180.0 { 180.0 } else { degrees }
    }
}
