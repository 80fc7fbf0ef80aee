//! The labels of values at the left of a panel, at round numbers.

use crate::plan::{Down, LEFT, Panel, RIGHT};
use crate::sheet::Sheet;
use crate::units::power_of_ten;
use std::alloc::Allocator;
use std::num::{nearest_i64_to_f64, nearest_u64_to_f64, saturating_f64_to_i64};

/// The first digit of a step.
#[derive(Clone, Copy)]
enum Digit {
    One,
    Two,
    Five,
}

impl Digit {
    fn size(self) -> f64 {
        match self {
            Digit::One => 1.0,
            Digit::Two => 2.0,
            Digit::Five => 5.0,
        }
    }

    /// A number of steps as a number of units of the digit's place.
    fn units(self, steps: i64) -> i128 {
        let steps = i128::from(steps);
        match self {
            Digit::One => steps,
            Digit::Two => 2 * steps,
            Digit::Five => 5 * steps,
        }
    }
}

/// A step of 1, 2 or 5 times a power of ten: its size, and the decimal places of its digit.
#[derive(Clone, Copy)]
struct LevelStep {
    digit: Digit,
    places: i32,
    size: f64,
}

/// The smallest such step of at least this size, from 1E-16 on.
fn step_of(least: f64) -> LevelStep {
    let mut power = 1e-16;
    for exponent in 0..36u8 {
        for digit in [Digit::One, Digit::Two, Digit::Five] {
            let size = power * digit.size();
            if least <= size {
                return LevelStep {
                    digit,
                    places: 16 - i32::from(exponent),
                    size,
                };
            }
        }
        power *= 10.0;
    }
    LevelStep {
        digit: Digit::One,
        places: -20,
        size: power,
    }
}

/// A level's line and its value, which is compressed where it has more than ten characters.
fn put_level<A: Allocator + Copy>(sheet: &mut Sheet<A>, step: LevelStep, tick: i64, y: Down) {
    sheet.text("<path class=\"g\" stroke=\"#e2e2e2\" d=\"");
    sheet.point("M", LEFT, y.tenths);
    sheet.along("H", RIGHT);
    sheet.text("\"/>");
    let mut label = sheet.another();
    label.scaled(step.digit.units(tick), step.places);
    let narrow = " text-anchor=\"end\" textLength=\"68\" lengthAdjust=\"spacingAndGlyphs\"";
    let rest = if 10 < label.len() {
        narrow
    } else {
        " text-anchor=\"end\""
    };
    sheet.begin_text(LEFT - 60, y.below(40), rest);
    sheet.append(&label);
    sheet.end_text();
}

/// The level lines of a panel, with values divided by a power of ten: one for each 20 pixels, at
/// most five.
pub(crate) fn put_levels<A: Allocator + Copy>(sheet: &mut Sheet<A>, panel: Panel, exponent: i16) {
    let power = power_of_ten(exponent);
    let (low, high) = (panel.low / power, panel.high / power);
    let steps = u64::from((panel.height.tenths / 200).clamp(1, 5));
    let step = step_of((high - low) / nearest_u64_to_f64(steps));
    // (a step is at least a fifth of the values' span, so this is a small number)
    let before = saturating_f64_to_i64(low / step.size);
    for tick in (before..=i64::MAX).take(7) {
        let value = nearest_i64_to_f64(tick) * step.size;
        if high < value {
            break;
        }
        if value < low - step.size * 1e-6 {
            continue;
        }
        put_level(sheet, step, tick, panel.level(value * power));
    }
}
