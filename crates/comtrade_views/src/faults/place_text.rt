//! Where a fault is, as text.

use crate::faults::members::{FaultMembers, PlaceMembers};
use crate::float::{put_float, put_places};
use comtrade_values::{put, put_number};
use std::alloc::AllocError;

/// `16.71 to 16.89`, with so many places.
fn put_range(out: &mut Vec<u8>, least: f64, greatest: f64, places: u8) -> Result<(), AllocError> {
    put_places(out, least, places)?;
    put(out, " to ")?;
    put_places(out, greatest, places)
}

/// The range in kilometres, `-` where there is none.
pub(crate) fn put_place_cell(
    out: &mut Vec<u8>,
    place: Option<&PlaceMembers>,
) -> Result<(), AllocError> {
    match place {
        Some(place) => {
            put_range(out, place.least_km, place.greatest_km, 2)?;
            put(out, if place.doubtful { "?" } else { "" })
        }
        None => put(out, "-"),
    }
}

/// The range, and the length of the line.
fn put_where(out: &mut Vec<u8>, place: &PlaceMembers) -> Result<(), AllocError> {
    put(out, "place      ")?;
    put_range(out, place.least_km, place.greatest_km, 2)?;
    put(out, " km from the measured end, ")?;
    put_range(out, place.least_percent, place.greatest_percent, 1)?;
    put(out, " % of ")?;
    put_float(out, place.line_km, 0.0)?;
    put(out, " km\n")
}

/// The loop, the method, and what it gives for the reference itself.
fn put_method(out: &mut Vec<u8>, place: &PlaceMembers) -> Result<(), AllocError> {
    put(out, "           loop ")?;
    put(out, place.fault_loop.as_str())?;
    put(out, if place.doubtful { ", doubtful" } else { "" })?;
    put(out, ", method of ")?;
    put(out, place.method.as_str())?;
    put(out, ", likely ")?;
    put_places(out, place.likely_km, 2)?;
    put(out, " km; by the reactance of the loop ")?;
    put_places(out, place.reactance_km, 2)?;
    put(out, " km\n")
}

/// What it rests on.
fn put_grounds(out: &mut Vec<u8>, place: &PlaceMembers) -> Result<(), AllocError> {
    put(out, "rests on   rows ")?;
    put_number(out, place.first_row)?;
    put(out, " to ")?;
    put_number(out, place.last_row)?;
    put(out, "; the current through the fault within ")?;
    put_float(out, place.degrees, 0.0)?;
    put(out, " degrees of ")?;
    put(out, place.reference.as_str())?;
    put(out, "\n")
}

/// Where a fault is, and what that rests on; or why that is not told.
pub(crate) fn put_place(out: &mut Vec<u8>, fault: &FaultMembers) -> Result<(), AllocError> {
    if let Some(place) = fault.place.as_ref() {
        put_where(out, place)?;
        put_method(out, place)?;
        put_grounds(out, place)?;
    }
    if let Some(reason) = fault.no_place.as_ref() {
        put(out, "place      none: ")?;
        put(out, reason.as_str())?;
        put(out, "\n")?;
    }
    Ok(())
}
