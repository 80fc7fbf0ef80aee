//! Decimal numbers for computing: more digits than a [`Decimal`] holds, and any number of places.

ghost use Rattle.std.specs.Prelude.{◌≡◌, pos};
ghost use Rattle.std.specs.Option.{SomeIff};
ghost use Rattle.comtrade_values.specs.Exact as spec;

use crate::Decimal;

/// The number units / 10^places; `places` may be negative.
#[derive(Clone, Copy, Debug)]
pub struct Exact {
    pub units: i128,
    pub places: i32,
}

/// The least number with 35 digits. No zeros are added to such a number.
const LONG: u128 = 10_000_000_000_000_000_000_000_000_000_000_000;

/// The least number with 38 digits. The sum of two numbers below it fits 128 bits.
const MOST: u128 = 10_000_000_000_000_000_000_000_000_000_000_000_000;

fn power(n: i32) -> Option<i128> {
    10i128.checked_pow(u32::try_from(n).ok()?)
}

impl Exact {
    /// The same number.
    pub fn of(decimal: Decimal) -> Exact
        ensures units { result.units ≡ decimal.units }
        ensures places { result.places ≡ pos decimal.places }
    {
        Exact {
            units: decimal.units(),
            places: i32::from(decimal.places()),
        }
    }

    /// The product, exactly; None if its units exceed 128 bits, or its places 32 bits.
    pub fn times(self, other: Exact) -> Option<Exact>
        ensures { SomeIff result (spec.HasProduct self other) (spec.product self other) }
    {
        Some(Exact {
            units: self.units.checked_mul(other.units)?,
            places: self.places.checked_add(other.places)?,
        })
    }

    /// The same number with this many decimal places. None if it has more, or if the units then
    /// exceed 128 bits. Zero may have any number of places.
    fn with_places(self, places: i32) -> Option<Exact> {
        if self.units == 0 {
            return Some(Exact { units: 0, places });
        }
        let more = places.checked_sub(self.places)?;
        Some(Exact {
            units: self.units.checked_mul(power(more)?)?,
            places,
        })
    }

    /// The sum, exactly; None if it can't be held.
    pub fn plus(self, other: Exact) -> Option<Exact> {
        let (a, b) = (self.short(), other.short());
        let places = a.places.max(b.places);
        let a = a.with_places(places)?;
        let b = b.with_places(places)?;
        Some(Exact {
            units: a.units.checked_add(b.units)?,
            places,
        })
    }

    /// The same number without trailing zeros, also those before the point.
    pub fn short(self) -> Exact {
        let mut short = self;
        if short.units == 0 {
            return Exact {
                units: 0,
                places: 0,
            };
        }
        for _ in 0..40 {
            if short.units % 10 != 0 {
                break;
            }
            short = short.dropped();
        }
        short
    }

    /// The same number as a decimal, without trailing zeros; None if a decimal can't hold it.
    pub fn decimal(self) -> Option<Decimal> {
        let short = self.short();
        if short.places < 0 {
            return Decimal::new(short.with_places(0)?.units, 0);
        }
        Decimal::new(short.units, u8::try_from(short.places).ok()?)
    }

    /// The number without its last digit.
    fn dropped(self) -> Exact {
        Exact {
            units: self.units / 10,
            places: self.places.saturating_sub(1),
        }
    }

    /// The number with its units below `most`; further digits are dropped.
    pub fn cut(self, most: u128) -> Exact {
        let mut cut = self;
        for _ in 0..40 {
            if cut.units.unsigned_abs() < most {
                break;
            }
            cut = cut.dropped();
        }
        cut
    }

    /// A magnitude of three digits that is at least the magnitude of this number.
    pub fn rounded_up(self) -> Exact {
        let mut near = Exact {
            units: self.units.saturating_abs(),
            places: self.places,
        };
        for _ in 0..40 {
            if near.units < 1_000 {
                break;
            }
            near = Exact {
                units: near.units.saturating_add(9) / 10,
                places: near.places.saturating_sub(1),
            };
        }
        near.short()
    }

    /// The number rounded to six digits, halves away from zero.
    pub fn to_six_digits(self) -> Exact {
        let seven = self.cut(10_000_000);
        if seven.units.unsigned_abs() < 1_000_000 {
            return seven;
        }
        let half = if seven.units < 0 { -5 } else { 5 };
        Exact {
            units: seven.units.saturating_add(half),
            places: seven.places,
        }
        .dropped()
    }

    /// With zeros added to the units until there are this many places, or 35 digits.
    fn lengthened(self, places: i32) -> Exact {
        let mut long = self;
        for _ in 0..80 {
            if places <= long.places || LONG <= long.units.unsigned_abs() {
                break;
            }
            long = Exact {
                units: long.units.saturating_mul(10),
                places: long.places.saturating_add(1),
            };
        }
        long
    }

    /// With digits dropped until there are this many places.
    fn shortened(self, places: i32) -> Exact {
        let mut short = self;
        for _ in 0..160 {
            if short.places <= places {
                break;
            }
            short = short.dropped();
        }
        short
    }

    /// The sum, from at most 37 digits of each number. It is exact where the number with fewer
    /// places has at most 35 digits once it has the places of the other; else digits of the finer
    /// number are dropped.
    pub fn near_sum(self, other: Exact) -> Exact {
        let (a, b) = (self.cut(MOST), other.cut(MOST));
        let (coarse, fine) = if a.places > b.places { (b, a) } else { (a, b) };
        let coarse = coarse.lengthened(fine.places);
        let fine = fine.shortened(coarse.places);
        Exact {
            units: coarse.units.saturating_add(fine.units),
            places: coarse.places,
        }
    }
}

/// The decimal as an integer, if it is one.
pub fn whole_of(decimal: Decimal) -> Option<i128> {
    let short = Exact::of(decimal).short();
    if short.places < 1 {
        Some(short.with_places(0)?.units)
    } else {
        None
    }
}
