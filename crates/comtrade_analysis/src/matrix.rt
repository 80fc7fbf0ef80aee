//! Square matrices, and the solution of their linear equations.

use std::alloc::{AllocError, Allocator};

/// A number of a list; 0 after its end.
pub(crate) fn at(list: &[f64], place: usize) -> f64 {
    match list.get(place) {
        Some(number) => *number,
        None => 0.0,
    }
}

/// This many zeros.
pub(crate) fn zeros<A: Allocator>(alloc: A, count: usize) -> Result<Vec<f64, A>, AllocError> {
    let mut list = Vec::with_capacity(alloc, count)?;
    for _ in 0..count {
        list.push(0.0)?;
    }
    Ok(list)
}

/// A square matrix, row by row.
#[derive(Drop)]
pub(crate) struct Matrix<A: Allocator> {
    pub(crate) side: usize,
    rows: Vec<Vec<f64, A>, A>,
}

impl<A: Allocator> Matrix<A> {
    /// A matrix of zeros.
    pub(crate) fn new(alloc: A, side: usize) -> Result<Matrix<A>, AllocError>
    where
        A: Copy,
    {
        let mut rows = Vec::with_capacity(alloc, side)?;
        for _ in 0..side {
            rows.push(zeros(alloc, side)?)?;
        }
        Ok(Matrix { side, rows })
    }

    /// A cell; 0 outside the matrix.
    fn cell(&self, row: usize, column: usize) -> f64 {
        match self.rows.get(row) {
            Some(cells) => at(cells, column),
            None => 0.0,
        }
    }

    pub(crate) fn put(&mut self, row: usize, column: usize, number: f64) {
        if let Some(cells) = self.rows.get_mut(row) {
            replace(cells, column, number);
        }
    }

    /// A cell minus the products of both rows in the columns before it.
    fn reduced(&self, row: usize, column: usize) -> f64 {
        let mut rest = self.cell(row, column);
        for i in 0..column {
            rest -= self.cell(row, i) * self.cell(column, i);
        }
        rest
    }

    /// Factors a symmetric matrix, of which only the lower half is used, into a lower triangle
    /// times its transpose (Cholesky). False where the equations have no single solution: each
    /// diagonal cell must keep at least a 10^10th of its value.
    pub(crate) fn factor(&mut self) -> bool {
        for column in 0..self.side {
            let least = self.cell(column, column) * 1e-10;
            let square = self.reduced(column, column);
            if !(least < square) {
                return false;
            }
            let root = square.sqrt();
            self.put(column, column, root);
            for row in column + 1..self.side {
                let number = self.reduced(row, column) / root;
                self.put(row, column, number);
            }
        }
        true
    }

    /// Solves the equations of a factored matrix; the solution replaces the right-hand sides.
    pub(crate) fn solve(&self, sides: &mut [f64]) {
        for row in 0..self.side {
            let mut rest = at(sides, row);
            for i in 0..row {
                rest -= self.cell(row, i) * at(sides, i);
            }
            replace(sides, row, rest / self.cell(row, row));
        }
        for back in 0..self.side {
            let row = self.side - 1 - back;
            let mut rest = at(sides, row);
            for i in row + 1..self.side {
                rest -= self.cell(i, row) * at(sides, i);
            }
            replace(sides, row, rest / self.cell(row, row));
        }
    }
}

fn replace(list: &mut [f64], place: usize, number: f64) {
    if let Some(cell) = list.get_mut(place) {
        *cell = number;
    }
}
