//! Values with their unit, to four digits.

use crate::sheet::Sheet;
use crate::units::{power_of_ten, put_unit, shown_exponent, unit_of};
use std::alloc::Allocator;
use std::num::saturating_f64_to_i64;

/// A value with its unit, to four digits; digits before the point are all kept.
pub(crate) fn put_quantity<A: Allocator>(sheet: &mut Sheet<A>, value: f64, unit: &[u8]) {
    let unit = unit_of(unit);
    let exponent = shown_exponent(unit, value.abs());
    let number = value / power_of_ten(exponent);
    let size = number.abs();
    let places: i16 = if size < 1.0 {
        4
    } else if size < 10.0 {
        3
    } else if size < 100.0 {
        2
    } else if size < 1000.0 {
        1
    } else {
        0
    };
    let half = if number < 0.0 { -0.5 } else { 0.5 };
    // (a size of 10^18 and more in its unit is shown as the nearest number of 64 bits)
    let units = saturating_f64_to_i64(number * power_of_ten(places) + half);
    sheet.scaled(i128::from(units), i32::from(places));
    sheet.text(" ");
    put_unit(sheet, unit, exponent);
}
