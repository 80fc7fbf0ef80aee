//! Laws of the course of time. These functions do nothing: their contracts state the laws.

ghost use Rattle.dfr_clock.specs.Truth.{DateLaw, EndLaw, LeastLaw, NearLaw, OnwardLaw, SlewLaw, ToldLaw, WindowLaw};

/// What is followed keeps the least instant of all readings of the window.
pub fn window_keeps_least()
    ensures { WindowLaw }
{}

/// The least instant of a window is true up to the drift over the window and the delay of its
/// promptest reading, however late the others are.
pub fn least_is_true()
    ensures { LeastLaw }
{}

/// The next course of a run begins where the one before it is, and gains or loses at most the slew.
pub fn slew_is_bounded()
    ensures { SlewLaw }
{}

/// A course never runs back.
pub fn time_runs_onward()
    ensures { OnwardLaw }
{}

/// The error of a course shrinks by the slew in each window, less the drift, until only that of the
/// least instant and the drift is left.
pub fn error_shrinks()
    ensures { NearLaw }
{}

/// How many windows that takes.
pub fn error_ends()
    ensures { EndLaw }
{}

/// The dates of two scans are in order, unless the clock was set between.
pub fn dates_in_order()
    ensures { DateLaw }
{}

/// What the converter tells is exact, for the next scan and those that follow it by the rate.
pub fn told_is_exact()
    ensures { ToldLaw }
{}
