//! Measures the channels of a file over a window's whole cycles.

use crate::cycles::fault::MeasureFault;
use crate::cycles::rms::rms_over;
use crate::cycles::window::Window;
use comtrade_analysis::{Factors, Fit, Measured, samples_in, skew_of};
use comtrade_format::{File, scale_of};
use dfr_channels::AnalogChannel;
use std::alloc::Allocator;

/// What was measured of the channel at this index, if it has all its readings.
pub fn measured_at<A: Allocator>(
    measures: &[Option<Measured<A>>],
    place: usize,
) -> Option<&Measured<A>> {
    match measures.get(place) {
        Some(Some(measured)) => Some(measured),
        _ => None,
    }
}

/// The rms value of a channel over a window's rows, from the exact sum of squares. None where the
/// cycles have a fraction of a row, or that sum has too many digits: the fit then has the rms value.
fn exact_rms<A: Allocator + Copy>(
    alloc: A,
    file: &File<A>,
    window: Window,
    place: usize,
    channel: &AnalogChannel<A>,
) -> Result<Option<f64>, MeasureFault> {
    match file.rows.items().get(window.from..window.to) {
        Some(rows) if window.is_even() => {
            Ok(rms_over(alloc, rows, place, &Factors::of(channel))?)
        }
        _ => Ok(None),
    }
}

/// Measures one channel over a window's rows.
fn measure<A: Allocator + Copy>(
    alloc: A,
    file: &File<A>,
    window: Window,
    place: usize,
    channel: &AnalogChannel<A>,
    fit: &Fit<A>,
) -> Result<Option<Measured<A>>, MeasureFault> {
    let Some(samples) = samples_in(alloc, file.rows.items(), place, window.rows())? else {
        return Ok(None);
    };
    if samples.is_empty() {
        return Ok(None);
    }
    let scale = scale_of(alloc, channel)?;
    let skew = skew_of(alloc, channel, file.head.line_freq)?;
    let mut measured = fit.measured(alloc, &samples, window.from, scale, skew)?;
    if let Some(rms) = exact_rms(alloc, file, window, place, channel)? {
        measured.rms = rms;
    }
    Ok(Some(measured))
}

/// What fits signals over a window. `Slow`: the rows cannot separate the orders.
fn fit_over<A: Allocator + Copy>(alloc: A, window: Window) -> Result<Fit<A>, MeasureFault> {
    match Fit::new(alloc, window.cycle, window.rows().rows)? {
        Some(fit) => Ok(fit),
        None => Err(MeasureFault::Slow),
    }
}

/// Measures the channel at this index over whole cycles, as `measures_of` does. None also where
/// there is no such channel.
pub(crate) fn measure_at<A: Allocator + Copy>(
    alloc: A,
    file: &File<A>,
    window: Window,
    place: usize,
) -> Result<Option<Measured<A>>, MeasureFault> {
    let Some(channel) = file.head.analog.items().get(place) else {
        return Ok(None);
    };
    let fit = fit_over(alloc, window)?;
    measure(alloc, file, window, place, channel, &fit)
}

/// Measures the analogue channels of a file over whole cycles by least squares: the dc component,
/// the cosines and sines of the orders, and a line where the dc component decays. None for a channel
/// with a missing reading. `Slow`: the rows cannot separate the orders.
pub fn measures_of<A: Allocator + Copy>(
    alloc: A,
    file: &File<A>,
    window: Window,
) -> Result<Vec<Option<Measured<A>>, A>, MeasureFault> {
    let fit = fit_over(alloc, window)?;
    let mut measures = Vec::new(alloc);
    for (place, channel) in file.head.analog.items().iter().enumerate() {
        measures.push(measure(alloc, file, window, place, channel, &fit)?)?;
    }
    Ok(measures)
}
