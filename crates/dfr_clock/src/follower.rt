//! Follows the clock.

ghost use Rattle.std.specs.Prelude.{◌≡◌, ◌≤◌, ◌+◌, ◌-◌, ◌*◌, ◌^◌};
ghost use Rattle.dfr_clock.specs.Settings.{Fits};
ghost use Rattle.dfr_clock.specs.Courses.{place};
ghost use Rattle.dfr_clock.specs.Following as spec;

use crate::course::{Course, place, since};
use crate::gap::{by_clock, jump_between, lost_for, missing_between, told_jump, told_lost};
use crate::reading::{Answer, Jump, Reading};
use crate::settings::Settings;
use crate::windows::{anew, level, settled, window_ended};

/// How the clock is followed.
#[derive(Clone, Copy, Debug, PartialEq, Eq)]
pub enum Mode {
    /// In the first window after a beginning. The least delay counts at once.
    Settling,
    /// The course follows the window before, with bounded slew.
    Following,
    /// The converter tells the time, and the clock is not asked.
    Told,
}

/// What is known of the course of time.
#[derive(Clone, Copy, Debug, PartialEq, Eq)]
pub struct Follower {
    pub course: Course,
    /// The least instant of the course's place by the readings of the window.
    pub best: u128,
    pub mode: Mode,
    /// How many scans had come at the last reading.
    pub scans: u128,
    /// The wall clock then.
    pub wall: u64,
    /// The monotonic clock then.
    pub mono: u64,
}

/// What a reading does and tells.
#[derive(Clone, Copy, Debug, PartialEq, Eq)]
pub(crate) struct Turn {
    pub(crate) follower: Follower,
    /// The course that has ended.
    pub(crate) closed: Option<Course>,
    pub(crate) answer: Answer,
}

impl Follower {
    ghost use Rattle.std.specs.Prelude.{◌≡◌, ◌≤◌, ◌<◌, ◌+◌, ◌-◌, ◌^◌};
    ghost use Rattle.dfr_clock.specs.Settings.{Fits};
    ghost use Rattle.dfr_clock.specs.Courses.{IsCourse};
    ghost use Rattle.dfr_clock.specs.Following.{IsSound, IsSoundTurn, begun, followed, turn, told, jump_at, unset_clock, missing_at, begun_again, ended_anew};

    /// Begins with the first reading.
    pub(crate) fn begun(settings: &Settings, reading: Reading) -> Follower
        requires settings { Fits settings.now }
        requires scans { 1 ≤ reading.scans }
        ensures value { result ≡ begun settings.now reading }
        ensures sound { IsSound settings.now result }
    {
        anew(settings, 0, u128::from(reading.scans - 1), reading, 0)
    }

    /// Follows the clock by a reading with new scans.
    fn followed(&self, settings: &Settings, reading: Reading) -> Turn
        requires settings { Fits settings.now }
        requires sound { IsSound settings.now self.now }
        requires scans { 1 ≤ reading.scans }
        ensures value { result ≡ followed settings.now self.now reading }
        ensures sound { IsSoundTurn settings.now result }
    {
        let newest = place(settings.rate, u128::from(reading.scans - 1));
        let dated = by_clock(self.course.at, newest, reading.wall);
        let best = self.best.min(dated);
        let course = settled(settings, self.mode, self.course, best);
        if newest < self.course.at + u128::from(settings.window) {
            return Turn {
                follower: Follower {
                    course,
                    best,
                    mode: self.mode,
                    scans: u128::from(reading.scans),
                    wall: reading.wall,
                    mono: reading.mono,
                },
                closed: None,
                answer: Answer {
                    lost: 0,
                    jump: None,
                },
            };
        }
        let instant = best + (newest - self.course.at);
        let due = course.instant(settings.window, newest);
        let missing = missing_between(settings, u128::from(settings.apart), due, instant);
        if missing > u128::from(settings.most) {
            return self.ended_anew(settings, course, reading);
        }
        let lost = missing as u32;
        window_ended(settings, course, instant, lost, reading)
    }

    /// By how much the clock was set since the reading before.
    fn jump_at(&self, settings: &Settings, reading: Reading) -> Option<Jump>
        ensures { result ≡ jump_at settings.now self.now reading }
    {
        let clock = u128::from(reading.wall) + u128::from(self.mono);
        let mono = u128::from(self.wall) + u128::from(reading.mono);
        jump_between(settings.step, clock, mono)
    }

    /// The clock as if it had not been set.
    fn unset_clock(&self, reading: Reading, jump: Option<Jump>) -> u128
        ensures value { result ≡ unset_clock self.now reading jump }
        ensures bound { result ≤ 2 ^ 66 }
    {
        match jump {
            None => u128::from(reading.wall),
            Some(_) => {
                let gone = since(u128::from(self.mono), u128::from(reading.mono));
                u128::from(self.wall) + gone
            }
        }
    }

    /// How many scans are missing before a reading.
    fn missing_at(&self, settings: &Settings, reading: Reading, jump: Option<Jump>) -> u128
        requires settings { Fits settings.now }
        requires sound { IsSound settings.now self.now }
        requires scans { 1 ≤ reading.scans }
        requires jump { jump ≡ jump_at settings.now self.now reading }
        ensures { result ≡ missing_at settings.now self.now reading }
    {
        let newest = place(settings.rate, u128::from(reading.scans - 1));
        let due = self.course.instant(settings.window, newest);
        let clock = self.unset_clock(reading, jump);
        missing_between(settings, u128::from(settings.late), due, clock)
    }

    /// Begins anew after a gap, with the scans after it, or where the clock was set, with the newest
    /// scan.
    fn begun_again(
        &self,
        settings: &Settings,
        reading: Reading,
        lost: u32,
        jump: Option<Jump>,
    ) -> Follower
        requires settings { Fits settings.now }
        requires sound { IsSound settings.now self.now }
        requires scans { 1 ≤ reading.scans }
        ensures value { result ≡ begun_again settings.now self.now reading lost jump }
        ensures sound { IsSound settings.now result }
    {
        let lost = u128::from(lost);
        let newest = u128::from(reading.scans - 1) + lost;
        match jump {
            None => {
                let first = self.scans + lost;
                anew(settings, first, newest, reading, self.course.era)
            }
            Some(_) => {
                let era = place(settings.rate, newest);
                anew(settings, newest, newest, reading, era)
            }
        }
    }

    /// What a reading does and tells that ends the window and shows a gap for which too few lost scans
    /// may stand: the scans after it begin anew.
    fn ended_anew(&self, settings: &Settings, course: Course, reading: Reading) -> Turn
        requires settings { Fits settings.now }
        requires sound { IsSound settings.now self.now }
        requires course { IsCourse settings.now.window course }
        requires scans { 1 ≤ reading.scans }
        ensures value { result ≡ ended_anew settings.now self.now course reading }
        ensures sound { IsSoundTurn settings.now result }
    {
        let lost = settings.most;
        Turn {
            follower: self.begun_again(settings, reading, lost, None),
            closed: Some(course),
            answer: Answer { lost, jump: None },
        }
    }

    /// What a reading does and tells.
    pub(crate) fn turn(&self, settings: &Settings, reading: Reading) -> Turn
        requires settings { Fits settings.now }
        requires sound { IsSound settings.now self.now }
        ensures value { result ≡ turn settings.now self.now reading }
        ensures sound { IsSoundTurn settings.now result }
    {
        if self.mode == Mode::Told || u128::from(reading.scans) <= self.scans {
            return Turn {
                follower: *self,
                closed: None,
                answer: Answer {
                    lost: 0,
                    jump: None,
                },
            };
        }
        let jump = self.jump_at(settings, reading);
        let missing = self.missing_at(settings, reading, jump);
        if jump.is_none() && missing == 0 {
            return self.followed(settings, reading);
        }
        let lost = lost_for(settings, missing);
        Turn {
            follower: self.begun_again(settings, reading, lost, jump),
            closed: Some(self.course),
            answer: Answer { lost, jump },
        }
    }

    /// What the converter tells: the next scan, after so many, has this instant.
    pub(crate) fn told(&self, settings: &Settings, scans: u64, instant: u64) -> Turn
        requires settings { Fits settings.now }
        requires sound { IsSound settings.now self.now }
        ensures value { result ≡ told settings.now self.now scans instant }
        ensures sound { IsSoundTurn settings.now result }
    {
        let instant = u128::from(instant);
        let next = place(settings.rate, u128::from(scans));
        let due = self.course.instant(settings.window, next);
        let lost = told_lost(
            settings,
            self.mode,
            since(self.course.at, next),
            due,
            instant,
        );
        let jump = told_jump(settings, self.mode, due, instant);
        let scans = u128::from(scans) + u128::from(lost);
        let at = place(settings.rate, scans);
        let era = if instant < due { at } else { self.course.era };
        Turn {
            follower: Follower {
                course: level(settings, at, instant, era, true),
                best: instant,
                mode: Mode::Told,
                scans,
                wall: self.wall,
                mono: self.mono,
            },
            closed: Some(self.course),
            answer: Answer { lost, jump },
        }
    }
}
