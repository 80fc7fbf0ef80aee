//! Whole numbers nearest to a quotient.

/// The whole number nearest to n / part, for a positive part; halves are rounded away from 0. None
/// if 128 bits cannot hold n and half a part.
pub(crate) fn rounded(n: i128, part: i128) -> Option<i128> {
    let half = part / 2;
    let up = if n < 0 {
        n.checked_sub(half)?
    } else {
        n.checked_add(half)?
    };
    up.checked_div(part)
}

/// The same of numbers of 64 bits; None if those cannot hold it.
pub(crate) fn over(n: i64, part: i64) -> Option<i64> {
    i64::try_from(rounded(i128::from(n), i128::from(part))?).ok()
}
