//! Windows: where a course begins, and the course of the next window.

ghost use Rattle.std.specs.Prelude.{◌≡◌, ◌≤◌, ◌+◌, ◌-◌, ◌*◌, ◌^◌};
ghost use Rattle.dfr_clock.specs.Settings.{Fits};
ghost use Rattle.dfr_clock.specs.Courses.{IsCourse, place};
ghost use Rattle.dfr_clock.specs.Following as spec;

use crate::course::{Course, place};
use crate::follower::{Follower, Mode, Turn};
use crate::gap::by_clock;
use crate::reading::{Answer, Reading};
use crate::settings::Settings;

/// A course that begins at a place with this instant, and runs as the scans do.
pub(crate) fn level(
    settings: &Settings,
    place: u128,
    instant: u128,
    era: u128,
    is_told: bool,
) -> Course
    requires { instant ≤ 2 ^ 64 }
    ensures { result ≡ spec.level settings.now place instant era is_told }
{
    Course {
        at: place,
        from: instant,
        to: instant + u128::from(settings.window),
        era,
        run: place,
        is_told,
    }
}

/// Begins anew: the newest scan has the instant of the clock, and the scans from `first` on are
/// dated back from it.
pub(crate) fn anew(
    settings: &Settings,
    first: u128,
    newest: u128,
    reading: Reading,
    era: u128,
) -> Follower
    requires settings { Fits settings.now }
    requires first { first ≤ 2 ^ 66 }
    requires newest { newest + 1 ≤ 2 ^ 65 }
    ensures value { result ≡ spec.anew settings.now first newest reading era }
    ensures sound { spec.IsSound settings.now result }
{
    let at = place(settings.rate, first);
    let instant = by_clock(at, place(settings.rate, newest), reading.wall);
    Follower {
        course: level(settings, at, instant, era, false),
        best: instant,
        mode: Mode::Settling,
        scans: newest + 1,
        wall: reading.wall,
        mono: reading.mono,
    }
}

/// The course of the next window. It goes on from this instant towards the goal, with bounded slew.
fn towards(settings: &Settings, place: u128, from: u128, goal: u128, course: Course) -> Course
    requires settings { Fits settings.now }
    requires place { place ≤ 2 ^ 86 }
    requires from { from ≤ 2 ^ 64 + 2 * place }
    ensures value { result ≡ spec.towards settings.now place from goal course }
    ensures sound { IsCourse settings.now.window result }
{
    let window = u128::from(settings.window);
    let slewed = settings.slewed();
    let least = from + (window - slewed);
    let most = from + window + slewed;
    Course {
        at: place,
        from,
        to: goal.min(most).max(least),
        era: course.era,
        run: course.run,
        is_told: false,
    }
}

/// In the first window after a beginning, the course follows the least instant at once.
pub(crate) fn settled(settings: &Settings, mode: Mode, course: Course, best: u128) -> Course
    requires best { best ≤ 2 ^ 64 }
    requires course { IsCourse settings.now.window course }
    ensures value { result ≡ spec.settled settings.now mode course best }
    ensures sound { IsCourse settings.now.window result }
    ensures place { result.at ≡ course.at }
{
    match mode {
        Mode::Settling => level(settings, course.at, best, course.era, false),
        Mode::Following | Mode::Told => course,
    }
}

/// The course of the next window, which begins at this place. `instant` is where the place would be
/// by the least instant of the window before.
fn next_course(settings: &Settings, course: Course, instant: u128, place: u128) -> Course
    requires settings { Fits settings.now }
    requires course { IsCourse settings.now.window course }
    requires instant { instant ≤ 2 ^ 90 }
    requires place { (course.at ≤ place) × (place ≤ 2 ^ 86) }
    ensures value { result ≡ spec.next_course settings.now course instant place }
    ensures sound { IsCourse settings.now.window result }
{
    let from = course.instant(settings.window, place);
    let goal = instant + u128::from(settings.window);
    towards(settings, place, from, goal, course)
}

/// What a reading does that ends the window. `instant` is that of the newest scan by the least
/// instant of the window.
pub(crate) fn window_ended(
    settings: &Settings,
    course: Course,
    instant: u128,
    lost: u32,
    reading: Reading,
) -> Turn
    requires settings { Fits settings.now }
    requires course { IsCourse settings.now.window course }
    requires instant { instant ≤ 2 ^ 90 }
    requires scans { 1 ≤ reading.scans }
    requires place { course.at ≤ place settings.now.rate (reading.scans - 1) }
    ensures value { result ≡ spec.window_ended settings.now course instant lost reading }
    ensures sound { spec.IsSoundTurn settings.now result }
{
    let newest = u128::from(reading.scans - 1) + u128::from(lost);
    Turn {
        follower: Follower {
            course: next_course(settings, course, instant, place(settings.rate, newest)),
            best: u128::from(reading.wall),
            mode: Mode::Following,
            scans: newest + 1,
            wall: reading.wall,
            mono: reading.mono,
        },
        closed: Some(course),
        answer: Answer { lost, jump: None },
    }
}
