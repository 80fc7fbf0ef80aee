//! The instants of scans.

use crate::course::{Course, place, since};
use crate::drift::{Drift, drift_between};
use crate::follower::{Follower, Turn};
use crate::reading::{Answer, Reading};
use crate::settings::Settings;
use circular_buffer::HeapCircularBuffer;
use std::alloc::{AllocError, Allocator, Global};
use std::marker::Model;

/// A date that was given.
#[derive(Clone, Copy, Debug, PartialEq, Eq)]
pub(crate) struct Dated {
    pub(crate) era: u128,
    pub(crate) instant: u128,
}

/// Gives scans their instants. Contracts see what it keeps.
#[derive(Drop)]
pub struct Timebase<A: Allocator = Global> {
    settings: Settings,
    follower: Follower,
    past: HeapCircularBuffer<Course, A>,
    last: Option<Dated>,
}

impl<A: Allocator> Model for Timebase<A> {
    ghost use Rattle.dfr_clock.specs.Dating.{Kept, kept_by, IsTimebase};

    ghost Value = { Kept };

    ghost view = { λ a. kept_by a.settings a.follower a.past.items a.past.capacity a.last };

    ghost invariant = { λ a. IsTimebase (kept_by a.settings a.follower a.past.items a.past.capacity a.last) };
}

impl Dated {
    ghost use Rattle.std.specs.Prelude.{◌≡◌};
    ghost use Rattle.dfr_clock.specs.Dating.{not_before};

    /// An instant, but not before the last date, unless the clock was set between.
    fn not_before(last: Option<Dated>, era: u128, instant: u128) -> u128
        ensures { result ≡ not_before last era instant }
    {
        match last {
            None => instant,
            Some(dated) => {
                if dated.era == era {
                    dated.instant.max(instant)
                } else {
                    instant
                }
            }
        }
    }
}

impl<A: Allocator> Timebase<A> {
    ghost use Rattle.std.specs.Prelude.{◌≡◌, ◌≤◌, ◌<◌, ◌+◌, ◌^◌, [], None, IfOk, IfSome, slice_get};
    ghost use Rattle.dfr_clock.specs.Settings.{settings_fault};
    ghost use Rattle.dfr_clock.specs.Courses.{IsCourse};
    ghost use Rattle.dfr_clock.specs.Following.{begun, turn, told, IsSoundTurn};
    ghost use Rattle.dfr_clock.specs.Dating.{kept_by, turned, course_of, instant_of, is_told_at, date_of, dated, offset_of, drift_between, oldest_of_run};

    /// Begins with the first reading. So many courses are kept for scans that are dated later.
    pub fn new(
        alloc: A,
        settings: Settings,
        first: Reading,
        kept: usize,
    ) -> Result<Timebase<A>, AllocError>
        requires fits { settings_fault settings ≡ None }
        requires some { 1 ≤ first.scans }
        ensures { IfOk result (λ timebase. timebase ≡ kept_by settings (begun settings first) [] kept None) }
    {
        let past = HeapCircularBuffer::with_capacity(alloc, kept)?;
        Ok(Timebase {
            settings,
            follower: Follower::begun(&settings, first),
            past,
            last: None,
        })
    }

    /// Keeps what a turn leaves.
    fn take_over(&mut self, turn: Turn)
        requires { IsSoundTurn self.old.settings turn }
        ensures { self.new ≡ turned self.old turn }
    {
        self.follower = turn.follower;
        if let Some(course) = turn.closed {
            let _ = self.past.push_front(course);
        }
    }

    /// Takes in a reading, and says what it tells. The lost scans of the answer come before the
    /// scans that are new with this reading, and later readings count them.
    pub fn read(&mut self, reading: Reading) -> Answer
        ensures answer { result ≡ (turn self.old.settings self.old.follower reading).answer }
        ensures kept { self.new ≡ turned self.old (turn self.old.settings self.old.follower reading) }
    {
        let turn = self.follower.turn(&self.settings, reading);
        self.take_over(turn);
        turn.answer
    }

    /// The converter tells the time: the next scan, after so many, has this instant. Says how many
    /// lost scans come before it, and by how much the clock was set.
    pub fn told(&mut self, scans: u64, instant: u64) -> Answer
        ensures answer { result ≡ (told self.old.settings self.old.follower scans instant).answer }
        ensures kept { self.new ≡ turned self.old (told self.old.settings self.old.follower scans instant) }
    {
        let turn = self.follower.told(&self.settings, scans, instant);
        self.take_over(turn);
        turn.answer
    }

    /// The course that has ended so many courses ago.
    fn older(&self, i: usize) -> Option<Course>
        ensures value { result ≡ slice_get self.now.past i }
        ensures sound { IfSome result (IsCourse self.now.settings.window) }
    {
        self.past.get(i).copied()
    }

    /// The course of a place.
    fn course_of(&self, place: u128) -> Course
        ensures value { result ≡ course_of self.now place }
        ensures sound { IsCourse self.now.settings.window result }
    {
        let mut found = self.follower.course;
        for i in 0..self.past.len() {
            if found.at <= place {
                return found;
            }
            match self.older(i) {
                Some(older) => found = older,
                None => unreachable!(),
            }
        }
        found
    }

    /// The instant of scan k, in microseconds since 1970-01-01 00:00:00 UTC.
    pub fn instant(&self, k: u64) -> u128
        ensures { result ≡ instant_of self.now k }
    {
        let place = place(self.settings.rate, u128::from(k));
        self.course_of(place).instant(self.settings.window, place)
    }

    /// The date of scan k: its instant, but not before the date given last, unless the clock was
    /// set between.
    pub fn date(&mut self, k: u64) -> u128
        ensures date { result ≡ date_of self.old k }
        ensures kept { self.new ≡ dated self.old k }
    {
        let place = place(self.settings.rate, u128::from(k));
        let course = self.course_of(place);
        let instant = course.instant(self.settings.window, place);
        let era = course.era;
        let instant = Dated::not_before(self.last, era, instant);
        self.last = Some(Dated { era, instant });
        instant
    }

    /// Whether the converter told the time by which scan k has its instant.
    pub fn is_told(&self, k: u64) -> bool
        ensures { result ≡ is_told_at self.now k }
    {
        self.course_of(place(self.settings.rate, u128::from(k)))
            .is_told
    }

    /// By how many microseconds the newest scan is later than by the rate alone, if scan 0 was at
    /// this instant.
    pub fn offset(&self, start: u64) -> i128
        ensures { result ≡ offset_of self.now start }
    {
        let newest = since(1, self.follower.scans);
        let place = place(self.settings.rate, newest);
        let instant = self.course_of(place).instant(self.settings.window, place);
        instant as i128 - (u128::from(start) + place) as i128
    }

    /// The oldest course that is known since following began anew.
    fn oldest_of_run(&self) -> Course
        ensures value { result ≡ oldest_of_run self.now.follower.course self.now.past }
        ensures sound { IsCourse self.now.settings.window result }
    {
        let mut found = self.follower.course;
        for i in 0..self.past.len() {
            match self.older(i) {
                Some(older) => {
                    if older.run != found.run {
                        return found;
                    }
                    found = older;
                }
                None => unreachable!(),
            }
        }
        found
    }

    /// How far the scans drift from the clock, over the courses that are known since following
    /// began anew. None before the first window has ended, and while the converter tells the time.
    pub fn drift(&self) -> Option<Drift>
        ensures { result ≡ drift_between (oldest_of_run self.now.follower.course self.now.past) self.now.follower.course }
    {
        drift_between(
            self.settings.window,
            self.oldest_of_run(),
            self.follower.course,
        )
    }
}
