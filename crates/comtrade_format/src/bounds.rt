//! The limits of the numbers in a data file (C37.111-1999, clause 6).

ghost use Rattle.std.specs.Prelude.{◌≡◌};
ghost use Rattle.comtrade_format.specs.Refusals as spec;

/// The limits for one kind of data file. Values are from `low` to `high`, row numbers at most
/// `number`, time stamps at most `stamp`.
#[derive(Clone, Copy)]
pub struct Bounds {
    pub low: i32,
    pub high: i32,
    pub number: u64,
    pub stamp: u64,
}

pub(crate) fn ascii_bounds() -> Bounds
    ensures { result ≡ spec.ascii_bounds }
{
    Bounds {
        low: -99_999,
        high: 99_998,
        number: 9_999_999_999,
        stamp: 9_999_999_999,
    }
}

pub(crate) fn binary_bounds() -> Bounds
    ensures { result ≡ spec.binary_bounds }
{
    Bounds {
        low: -32_767,
        high: 32_767,
        number: 4_294_967_295,
        stamp: 4_294_967_294,
    }
}
