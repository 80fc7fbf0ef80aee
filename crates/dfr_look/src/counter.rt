//! Counters. They stop at the largest number that they can hold.

ghost use Rattle.std.specs.Prelude.{◌≡◌, ◌<◌, ◌^◌};
ghost use Rattle.dfr_look.specs.Tracks.{up};

/// A count and so many more.
pub(crate) fn up(count: u64, more: u64) -> u64
    ensures { result ≡ up count more }
{
    count.saturating_add(more)
}

/// The same where more may be a larger number.
pub(crate) fn up_wide(count: u64, more: u128) -> u64
    requires { more < 2 ^ 100 }
    ensures { result ≡ up count more }
{
    let sum = u128::from(count) + more;
    if sum > u128::from(u64::MAX) {
        u64::MAX
    } else {
        sum as u64
    }
}
