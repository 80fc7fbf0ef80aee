//! The coefficients of a correlation with a wave.

ghost use Rattle.std.specs.Prelude.{◌≡◌, ◌≤◌, ◌<◌, ◌^◌, pos, unsigned_abs, IfOk};
ghost use Rattle.dfr_detect.specs.Turns as spec;

use comtrade_values::Memory;
use std::alloc::Allocator;

/// A cosine and a sine, in 16384ths.
#[derive(Clone, Copy, Debug)]
pub(crate) struct Turn {
    pub(crate) cosine: i32,
    pub(crate) sine: i32,
}

/// The coefficients of a wave for the samples of three phases.
#[derive(Clone, Copy, Debug)]
pub(crate) struct Weights {
    pub(crate) a: Turn,
    pub(crate) b: Turn,
    pub(crate) c: Turn,
}

/// How many periods a wave has in the window, and how many thirds of a turn on phases B and C are
/// looked at.
#[derive(Clone, Copy, Debug, PartialEq, Eq)]
pub(crate) struct Shape {
    pub(crate) order: u32,
    pub(crate) b: u32,
    pub(crate) c: u32,
}

/// The coefficients of two waves.
#[derive(Clone, Copy, Debug)]
pub(crate) struct Pair {
    pub(crate) first: Weights,
    pub(crate) other: Weights,
}

/// `c` less a share of `a`, in 32768ths.
fn less_share(c: u64, share: u64, a: u64) -> u64
    requires share { share ≤ 32_768 }
    requires less { a ≤ c }
    requires small { c ≤ 2 ^ 16 }
    ensures value { result ≡ spec.less_share c share a }
    ensures bound { result ≤ c }
{
    c - share * a / 32_768
}

/// The sine of a part of a quarter turn, in 32768ths of it.
fn sine(z: u64) -> i32
    requires { z ≤ 32_768 }
    ensures value { result ≡ pos (spec.sine z) }
    ensures bound { unsigned_abs result ≤ 2 ^ 14 }
{
    let square = z * z / 32_768;
    let inner = less_share(21_162, square, less_share(2_600, square, 140));
    let size = (z * less_share(51_470, square, inner) + 32_768) / 65_536;
    size.min(16_384) as i32
}

/// The sine of so many quarter turns and a part of one.
fn wave(quarter: u64, z: u64) -> i32
    requires { z ≤ 32_768 }
    ensures { result ≡ spec.wave quarter z }
{
    match quarter % 4 {
        0 => sine(z),
        1 => sine(32_768 - z),
        2 => -sine(z),
        _ => -sine(32_768 - z),
    }
}

/// The coefficients at `i` of `n` parts of a turn.
#[tactic(auto, unfolding(crate::specs::Turns::turn_of))]
fn turn_of(n: u64, i: u64) -> Turn
    requires some { 1 ≤ n }
    requires few { n ≤ 2 ^ 14 }
    requires within { i < n }
    ensures { result ≡ spec.turn_of n i }
{
    let quarter = 4 * i / n;
    let z = 32_768 * (4 * i % n) / n;
    Turn {
        cosine: wave(quarter + 1, z),
        sine: wave(quarter, z),
    }
}

/// The coefficients for the sample with number `i` of `n`.
fn turn_at(n: u64, order: u32, thirds: u32, i: u64) -> Turn
    requires some { 1 ≤ n }
    requires few { n ≤ 2 ^ 12 }
    requires within { i < n }
    ensures { result ≡ spec.turn_at n order thirds i }
{
    let place = 3 * u64::from(order) * i + u64::from(thirds) * n;
    turn_of(3 * n, place % (3 * n))
}

/// Those of a wave for each phase.
fn weights_of(n: u64, shape: Shape, i: u64) -> Weights
    requires some { 1 ≤ n }
    requires few { n ≤ 2 ^ 12 }
    requires within { i < n }
    ensures { result ≡ spec.weights_of n shape i }
{
    Weights {
        a: turn_at(n, shape.order, 0, i),
        b: turn_at(n, shape.order, shape.b, i),
        c: turn_at(n, shape.order, shape.c, i),
    }
}

/// The coefficients of two waves for the samples of a window.
pub(crate) fn table<A: Allocator>(
    alloc: A,
    n: u64,
    first: Shape,
    other: Shape,
) -> Result<Vec<Pair, A>, Memory>
    requires some { 1 ≤ n }
    requires few { n ≤ 2 ^ 12 }
    ensures { IfOk result (λ table. spec.IsTable n n first other table.items) }
{
    let mut table = Vec::new(alloc);
    for i in 0..n {
        table.push(Pair {
            first: weights_of(n, first, i),
            other: weights_of(n, other, i),
        })?;
    }
    Ok(table)
}
