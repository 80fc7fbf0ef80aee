//! A current that is followed over the rows.

use crate::cycles::length::Length;
use crate::cycles::readings::value_in;
use comtrade_format::{Row, Scale};
use std::alloc::{AllocError, Allocator, Global};

/// Where a current departs from its earlier waveform.
#[derive(Clone, Copy, Debug)]
pub struct Course {
    /// The index of the row.
    pub row: usize,
    /// The rms value of the cycle before it; None where that cycle has no other one before it in its
    /// rate, to which it could be compared: then the fault may have begun in it.
    pub before: Option<f64>,
    /// For how many cycles of the line frequency the cycle that ends in a row has more than twice
    /// the greatest rms value before it or an earlier departure, and more than the bound.
    pub above: f64,
    /// The greatest rms value of a cycle until the current keeps to a waveform again.
    pub greatest: f64,
}

/// What was found of the current of a channel, whose index is counted from 0: whether a cycle has
/// all its readings; how many readings are missing; its first departure, and the later ones after
/// which it is above.
#[derive(Debug, Drop)]
pub struct Followed<A: Allocator = Global> {
    pub place: usize,
    pub is_known: bool,
    pub missing: u64,
    pub courses: Vec<Course, A>,
}

/// A row of one rate, its index among these rows and in the record, and the rows next to the
/// instants one and two cycles before it, if they are there.
#[derive(Drop)]
pub(crate) struct Place<'a, A: Allocator> {
    row: usize,
    index: usize,
    now: &'a Row<A>,
    near: Option<&'a Row<A>>,
    far: Option<&'a Row<A>>,
    twice_near: Option<&'a Row<A>>,
    twice_far: Option<&'a Row<A>>,
}

impl<'a, A: Allocator> Place<'a, A> {
    pub(crate) fn new(
        rows: &'a [Row<A>],
        row: usize,
        now: &'a Row<A>,
        length: Length,
        index: usize,
    ) -> Place<'a, A> {
        let (before, twice) = (length.back(row), length.twice_back(row));
        Place {
            row,
            index,
            now,
            near: before.and_then(|near| rows.get(near)),
            far: before.and_then(|near| rows.get(near.checked_sub(1)?)),
            twice_near: twice.and_then(|near| rows.get(near)),
            twice_far: twice.and_then(|near| rows.get(near.checked_sub(1)?)),
        }
    }
}

/// A current that is followed over the rows.
#[derive(Drop)]
pub(crate) struct Current<A: Allocator> {
    place: usize,
    scale: Scale,
    missing: u64,
    /// The greatest magnitude in the first cycle, and in all rows.
    begun: f64,
    greatest: f64,
    /// The current departs where its value differs by more than this from that of one cycle before.
    bound: f64,
    /// The sum of squares of the last cycle's whole rows, and the last row with a missing reading.
    sum: f64,
    hole: Option<usize>,
    /// The mean square of the last cycle with all its readings, while the current keeps to its
    /// waveform; and the greatest of these before a departure.
    before: Option<f64>,
    usual: f64,
    /// The departure after which it does not keep to a waveform yet, with mean squares in place of
    /// rms values, and the number of rows since it last departed or was above.
    course: Option<Course>,
    calm: u128,
    courses: Vec<Course, A>,
}

impl<A: Allocator> Current<A> {
    pub(crate) fn new(alloc: A, place: usize, scale: Scale) -> Current<A> {
        Current {
            place,
            scale,
            missing: 0,
            begun: 0.0,
            greatest: 0.0,
            bound: 0.0,
            sum: 0.0,
            hole: None,
            before: None,
            usual: 0.0,
            course: None,
            calm: 0,
            courses: Vec::new(alloc),
        }
    }

    /// Records its magnitude in a row.
    pub(crate) fn look(&mut self, row: &Row<A>, is_begun: bool) {
        let Some(value) = value_in(row, self.place, self.scale) else {
            // (there are fewer rows than a number of 64 bits)
            self.missing = self.missing.saturating_add(1);
            return;
        };
        let size = value.abs();
        self.greatest = self.greatest.max(size);
        if is_begun {
            self.begun = self.begun.max(size);
        }
    }

    /// Sets the bound: the greatest of a quarter of the greatest magnitude in the first cycle, a
    /// fiftieth of the greatest of all, and four steps of the samples.
    pub(crate) fn settle(&mut self) {
        self.bound = (self.begun / 4.0)
            .max(self.greatest / 50.0)
            .max(self.scale.a.abs() * 4.0);
    }

    /// Begins with the first row of a rate.
    pub(crate) fn restart(&mut self) {
        self.sum = 0.0;
        self.hole = None;
    }

    /// Its value in a row.
    fn value(&self, row: Option<&Row<A>>) -> Option<f64> {
        value_in(row?, self.place, self.scale)
    }

    /// Adds a row to the last cycle, and takes out the one that has left it; returns the mean
    /// square of the cycle. None where a reading is missing or the cycle is not whole.
    fn slide(
        &mut self,
        place: &Place<'_, A>,
        length: Length,
        now: Option<f64>,
        near: Option<f64>,
    ) -> Option<f64> {
        match now {
            Some(value) => self.sum += value * value,
            None => self.hole = Some(place.row),
        }
        if let Some(value) = near {
            self.sum -= value * value;
        }
        if place.row < length.last_within() {
            return None;
        }
        match self.hole {
            Some(hole) if place.row.abs_diff(hole) <= length.last_within() => None,
            _ => length.mean_square(self.sum, near),
        }
    }

    /// Whether it departs in a row from its waveform. The value differs from that of one cycle
    /// before, and by more than the waveform turns from cycle to cycle where the frequency is not
    /// nominal: the difference is not that of the cycle before; half as large again, where that is
    /// not known.
    fn departs(
        &self,
        place: &Place<'_, A>,
        length: Length,
        now: Option<f64>,
        near: Option<f64>,
    ) -> bool {
        let earlier = length.earlier(near, self.value(place.far));
        let (Some(now), Some(earlier)) = (now, earlier) else {
            return false;
        };
        if !(self.bound < (now - earlier).abs()) {
            return false;
        }
        let twice = length.twice_earlier(self.value(place.twice_near), self.value(place.twice_far));
        match twice {
            Some(twice) => self.bound < (now - earlier - (earlier - twice)).abs(),
            None => self.bound * 1.5 < (now - earlier).abs(),
        }
    }

    /// Records a departure, unless one is open or no cycle before has all its readings; whether the
    /// cycle before it was compared to another one.
    fn depart(&mut self, index: usize, is_compared: bool) {
        if self.course.is_some() {
            return;
        }
        let Some(before) = self.before else {
            return;
        };
        self.usual = self.usual.max(before);
        self.calm = 0;
        self.course = Some(Course {
            row: index,
            before: if is_compared { Some(before) } else { None },
            above: 0.0,
            greatest: 0.0,
        });
    }

    /// Takes the mean square of the last cycle into the open departure; whether it is above.
    fn raise(&mut self, square: f64, step: f64) -> bool {
        let bound = (self.usual * 4.0).max(self.bound * self.bound);
        let Some(course) = &mut self.course else {
            return false;
        };
        course.greatest = course.greatest.max(square);
        if bound < square {
            course.above += step;
        }
        bound < square
    }

    /// Ends the open departure. The first one is kept, and those in which the current was above.
    fn close(&mut self) -> Result<(), AllocError> {
        if let Some(course) = self.course {
            if self.courses.is_empty() || 0.0 < course.above {
                self.courses.push(Course {
                    before: course.before.map(|square| square.sqrt()),
                    greatest: course.greatest.sqrt(),
                    ..course
                })?;
            }
        }
        self.course = None;
        Ok(())
    }

    /// Follows it to a row. A departure ends when the current has neither departed nor been above
    /// for more than a cycle.
    pub(crate) fn follow(
        &mut self,
        place: &Place<'_, A>,
        length: Length,
    ) -> Result<(), AllocError> {
        let now = self.value(Some(place.now));
        let near = self.value(place.near);
        let square = self.slide(place, length, now, near);
        let departs = self.departs(place, length, now, near);
        if departs {
            self.depart(place.index, length.twice_back(place.row).is_some());
        }
        let Some(square) = square else {
            return Ok(());
        };
        if self.course.is_none() {
            self.before = Some(square);
            return Ok(());
        }
        if self.raise(square, length.step) || departs {
            self.calm = 0;
            return Ok(());
        }
        if (length.last_within() as u128) < self.calm {
            self.before = Some(square);
            return self.close();
        }
        self.calm += 1;
        Ok(())
    }

    /// What was found after the last row.
    pub(crate) fn followed(self) -> Result<Followed<A>, AllocError> {
        let mut current = self;
        current.close()?;
        Ok(Followed {
            place: current.place,
            is_known: current.before.is_some(),
            missing: current.missing,
            courses: current.courses,
        })
    }
}
