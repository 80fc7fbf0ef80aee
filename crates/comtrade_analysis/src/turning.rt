//! Sums over rows, weighted by the cosines and sines of the harmonics.

ghost use Rattle.std.specs.Prelude.{◌≡◌, ◌-◌, ◌*◌, ◌^◌, ◌<◌, ◌≤◌};
ghost use Rattle.comtrade_analysis.specs.Angles.{next_angle};

use crate::matrix::{Matrix, at, zeros};
use crate::phasor::Phasor;
use comtrade_format::Cycle;
use std::alloc::{AllocError, Allocator};
use std::f64::consts::TAU;
use std::num::nearest_u64_to_f64;

/// The angle of the fundamental, row by row, exactly: `at` of `cycle.rows` parts of a turn.
#[derive(Clone, Copy)]
pub(crate) struct Turning {
    cycle: Cycle,
    at: u64,
    ghost within: { at < cycle.rows },
    ghost slow: { cycle.cycles ≤ cycle.rows },
}

impl Turning {
    pub(crate) fn new(cycle: Cycle) -> Turning
        requires some { 0 < cycle.rows }
        requires slow { cycle.cycles ≤ cycle.rows }
        ensures cycle { result.cycle ≡ cycle }
        ensures start { result.at ≡ 0 }
    {
        Turning { cycle, at: 0 }
    }

    /// The phasor of the row's angle.
    pub(crate) fn phasor(self) -> Phasor {
        let share = nearest_u64_to_f64(self.at) / nearest_u64_to_f64(self.cycle.rows);
        Phasor::unit(share * TAU)
    }

    /// The angle of the next row.
    pub(crate) fn next(self) -> Turning
        ensures cycle { result.cycle ≡ self.cycle }
        ensures angle { result.at ≡ next_angle self.cycle.cycles self.cycle.rows self.at }
    {
        let left = self.cycle.rows - self.at;
        let at = if self.cycle.cycles < left {
            self.at + self.cycle.cycles
        } else {
            self.cycle.cycles - left
        };
        Turning {
            cycle: self.cycle,
            at,
        }
    }
}

fn add_to(list: &mut [f64], place: usize, number: f64) {
    if let Some(sum) = list.get_mut(place) {
        *sum += number;
    }
}

/// The index of the sum weighted by the cosine of an order; that by the sine follows it. Index 0
/// has the plain sum.
pub(crate) fn place_of(order: usize) -> usize
    requires some { 0 < order }
    requires few { order < 2 ^ 63 }
    ensures { result ≡ 2 * order - 1 }
{
    2 * order - 1
}

/// Adds a row's value, and the value times the cosine and the sine of each order.
pub(crate) fn add_row(sums: &mut [f64], turn: Phasor, value: f64) {
    add_to(sums, 0, value);
    let mut power = turn;
    for below in 0..sums.len() / 2 {
        let place = place_of(below + 1);
        add_to(sums, place, value * power.re);
        add_to(sums, place + 1, value * power.im);
        power = power.times(turn);
    }
}

/// The sums of this many orders over so many rows, each with the value 1.
fn ones<A: Allocator>(
    alloc: A,
    cycle: Cycle,
    rows: usize,
    orders: usize,
) -> Result<Vec<f64, A>, AllocError>
    requires few { orders ≤ 50 }
    requires some { 0 < cycle.rows }
    requires slow { cycle.cycles ≤ cycle.rows }
{
    let mut sums = zeros(alloc, 2 * orders + 1)?;
    let mut turning = Turning::new(cycle);
    for _ in 0..rows {
        add_row(&mut sums, turning.phasor(), 1.0);
        turning = turning.next();
    }
    Ok(sums)
}

/// The sum of the cosines of an order, and that of the sines; the order may be negative.
fn pair_at(sums: &[f64], order: usize, less: usize) -> Phasor
    requires first { order ≤ 50 }
    requires second { less ≤ 50 }
{
    let size = order.abs_diff(less);
    if size == 0 {
        return Phasor {
            re: at(sums, 0),
            im: 0.0,
        };
    }
    let place = place_of(size);
    let sine = at(sums, place + 1);
    Phasor {
        re: at(sums, place),
        im: if order < less { -sine } else { sine },
    }
}

/// The products of two orders' cosines and sines: cos j cos k = (cos (j-k) + cos (j+k)) / 2, and so
/// on.
fn put_products<A: Allocator>(matrix: &mut Matrix<A>, sums: &[f64], j: usize, k: usize)
    requires some_j { 0 < j }
    requires few_j { j ≤ 25 }
    requires some_k { 0 < k }
    requires few_k { k ≤ 25 }
{
    let less = pair_at(sums, j, k);
    let more = pair_at(sums, j + k, 0);
    let (row, column) = (place_of(j), place_of(k));
    let (below, right) = (row + 1, column + 1);
    matrix.put(row, column, (less.re + more.re) / 2.0);
    matrix.put(below, right, (less.re - more.re) / 2.0);
    matrix.put(below, column, (more.im + less.im) / 2.0);
    matrix.put(row, right, (more.im - less.im) / 2.0);
}

/// The matrix of the equations for dc and the orders over so many rows.
pub(crate) fn equations<A: Allocator + Copy>(
    alloc: A,
    cycle: Cycle,
    rows: usize,
    orders: usize,
) -> Result<Matrix<A>, AllocError>
    requires few { orders ≤ 25 }
    requires some { 0 < cycle.rows }
    requires slow { cycle.cycles ≤ cycle.rows }
{
    let sums = ones(alloc, cycle, rows, 2 * orders)?;
    let mut matrix = Matrix::new(alloc, 2 * orders + 1)?;
    matrix.put(0, 0, at(&sums, 0));
    for i in 0..orders {
        let j = i + 1;
        let first = pair_at(&sums, j, 0);
        matrix.put(place_of(j), 0, first.re);
        matrix.put(place_of(j) + 1, 0, first.im);
        for h in 0..j {
            put_products(&mut matrix, &sums, j, h + 1);
        }
    }
    Ok(matrix)
}
