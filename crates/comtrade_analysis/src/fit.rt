//! Measures signals over whole cycles by least squares: the dc component, the cosines and sines of
//! the orders, and a line where the dc component decays.

ghost use Rattle.std.specs.Prelude.{◌≡◌, ◌+◌, ◌*◌, ◌^◌, ◌<◌, ◌≤◌, length, false, IfOk, IfSome};
ghost use Rattle.std.specs.Float.{float_with_sign};
ghost use Rattle.comtrade_analysis.specs.Fits as spec;
ghost use Rattle.comtrade_analysis.specs.Peaks.{IsPeak};

use crate::decay::{Line, height_at};
use crate::matrix::{Matrix, at, zeros};
use crate::measured::Measured;
use crate::phasor::Phasor;
use crate::samples::{Peak, peak_of};
use crate::turning::{Turning, add_row, equations, place_of};
use comtrade_format::{Cycle, Scale, nearest_f64};
use comtrade_values::{Decimal, Memory};
use dfr_channels::AnalogChannel;
use std::alloc::{AllocError, Allocator};
use std::f64::consts::{SQRT_2, TAU};
use std::num::nearest_usize_to_f64;

/// The highest order that is measured.
const HIGHEST: u128 = 25;

/// The number of orders that are measured: those below half the rows of a cycle, at most 25.
pub fn orders_in(cycle: Cycle) -> usize
    requires { 0 < cycle.cycles }
    ensures { result ≡ spec.orders_in cycle }
{
    let rows = cycle.rows_in(1);
    if rows == 0 {
        return 0;
    }
    HIGHEST.min((rows - 1) / 2) as usize
}

/// What fits signals over so many rows: the factored equations, and a line.
#[derive(Drop)]
pub struct Fit<A: Allocator> {
    cycle: Cycle,
    orders: usize,
    matrix: Matrix<A>,
    line: Line<A>,
    ghost some: { 0 < cycle.rows },
    ghost slow: { cycle.cycles ≤ cycle.rows },
    ghost few: { orders ≤ 25 },
}

/// The totals of a signal: its products with the functions of the fit and with the line, and the
/// sum of its squares.
#[derive(Drop)]
struct Totals<A: Allocator> {
    sums: Vec<f64, A>,
    line: f64,
    squares: f64,
}

/// The parts of a signal, and what they leave of it.
#[derive(Drop)]
struct Parts<A: Allocator> {
    parts: Vec<f64, A>,
    fall: Option<f64>,
    /// The sum of squares that is left, and the mean square of the whole signal.
    left: f64,
    square: f64,
}

/// The phasor of an order, from the solved equations.
fn phasor_at(parts: &[f64], order: usize) -> Phasor
    requires some { 0 < order }
    requires few { order < 2 ^ 63 }
{
    let place = place_of(order);
    Phasor {
        re: at(parts, place) / SQRT_2,
        im: -at(parts, place + 1) / SQRT_2,
    }
}

/// The mean square of a signal: of its parts without a line, and of what they leave.
fn mean_square(parts: &[f64], left: f64) -> f64 {
    let dc = at(parts, 0);
    let mut square = dc * dc + left;
    for below in 0..parts.len() / 2 {
        let size = phasor_at(parts, below + 1).magnitude();
        square += size * size;
    }
    square
}

impl<A: Allocator + Copy> Fit<A> {
    /// The fit of signals over so many rows, by their cycle. None if the rows cannot separate the
    /// orders.
    pub fn new(alloc: A, cycle: Cycle, rows: usize) -> Result<Option<Fit<A>>, Memory>
        requires some { 0 < cycle.cycles }
        requires long { 3 * cycle.cycles ≤ cycle.rows }
        ensures { IfOk result (λ found. IfSome found (λ fit. fit.orders ≡ spec.orders_in cycle)) }
    {
        let orders = orders_in(cycle);
        let mut matrix = equations(alloc, cycle, rows, orders)?;
        if !matrix.factor() {
            return Ok(None);
        }
        let line = Line::new(alloc, cycle, rows, &matrix)?;
        Ok(Some(Fit {
            cycle,
            orders,
            matrix,
            line,
        }))
    }

    /// The totals of the values of these samples.
    fn totals(&self, alloc: A, samples: &[i32], scale: Scale) -> Result<Totals<A>, AllocError> {
        let mut totals = Totals {
            sums: zeros(alloc, self.matrix.side)?,
            line: 0.0,
            squares: 0.0,
        };
        let mut turning = Turning::new(self.cycle);
        for (place, sample) in samples.iter().enumerate() {
            let value = scale.value(*sample);
            add_row(&mut totals.sums, turning.phasor(), value);
            totals.line += value * height_at(place, samples.len());
            totals.squares += value * value;
            turning = turning.next();
        }
        Ok(totals)
    }

    /// The parts of a signal of so many rows, with a line where its dc part decays.
    fn parts(
        &self,
        alloc: A,
        totals: &Totals<A>,
        peak: f64,
        rows: usize,
    ) -> Result<Parts<A>, AllocError> {
        let mut parts = Vec::from_slice(alloc, &totals.sums)?;
        self.matrix.solve(&mut parts);
        let mut rest = totals.squares;
        for (i, sum) in totals.sums.iter().enumerate() {
            rest -= sum * at(&parts, i);
        }
        let left = rest.max(0.0);
        let square = mean_square(&parts, left / nearest_usize_to_f64(rows));
        let line = self.line.part(totals.line, &totals.sums);
        let mean = at(&parts, 0) - self.line.less(line, 0);
        let decay = self.line.decay(line, left, mean, peak);
        if !decay.is_line() {
            let fall = None;
            return Ok(Parts {
                parts,
                fall,
                left,
                square,
            });
        }
        for (i, part) in parts.iter_mut().enumerate() {
            *part -= self.line.less(line, i);
        }
        Ok(Parts {
            parts,
            fall: Some(decay.fall),
            left: decay.after,
            square,
        })
    }

    /// Measures the signal of these samples. `first` is the index of the first one's row, and `skew`
    /// turns the phasor.
    pub fn measured(
        &self,
        alloc: A,
        samples: &[i32],
        first: usize,
        scale: Scale,
        skew: Phasor,
    ) -> Result<Measured<A>, Memory>
        requires some { 0 < length samples.now }
        requires room { first + length samples.now < 2 ^ 64 }
        ensures orders { IfOk result (λ m. length m.orders.items ≡ self.now.orders) }
        ensures peak { IfOk result (λ m. spec.IsPeakOf scale samples.now first m.peak m.peak_row) }
        ensures step { IfOk result (λ m. m.step ≡ float_with_sign false scale.a) }
    {
        let Peak { value, index } = peak_of(samples, scale);
        let totals = self.totals(alloc, samples, scale)?;
        let parts = self.parts(alloc, &totals, value, samples.len())?;
        Ok(Measured {
            rms: parts.square.sqrt(),
            phasor: phasor_at(&parts.parts, 1).times(skew),
            dc: at(&parts.parts, 0),
            fall: parts.fall,
            peak: value,
            peak_row: first + index,
            residual: (parts.left / nearest_usize_to_f64(samples.len())).sqrt(),
            step: scale.a.abs(),
            orders: self.sizes(alloc, &parts.parts)?,
        })
    }

    /// The rms values of the orders.
    fn sizes(&self, alloc: A, parts: &[f64]) -> Result<Vec<f64, A>, AllocError>
        ensures { IfOk result (λ sizes. length sizes.items ≡ self.now.orders) }
    {
        let mut sizes = Vec::new(alloc);
        for below in 0..self.orders {
            sizes.push(phasor_at(parts, below + 1).magnitude())?;
        }
        Ok(sizes)
    }
}

/// The phasor that corrects an angle for the channel's skew (C37.111-1999, 5.3.3).
pub fn skew_of<A: Allocator + Copy>(
    alloc: A,
    channel: &AnalogChannel<A>,
    frequency: Decimal,
) -> Result<Phasor, Memory> {
    let micros = nearest_f64(alloc, channel.skew)?;
    let frequency = nearest_f64(alloc, frequency)?;
    Ok(Phasor::unit(-(micros * 1e-6 * frequency * TAU)))
}
