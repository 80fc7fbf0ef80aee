//! The scans that come: each is given to the recorder as one step, or it is lost. Counts them, and
//! reports lost ones.

ghost use Rattle.std.specs.Prelude.{◌≡◌, MatchOption};
ghost use Rattle.dfr_station.specs.Input.{one_more};
ghost use Rattle.dfr_station.specs.Acquiring.{settled, Drops, IsFilled, GivesLost, GivesScan};

use crate::contacts::Contacts;
use crate::detection::detected;
use crate::event::Event;
use crate::filler::Filler;
use crate::intake::{Why, missing_scan};
use crate::losses::{KINDS, Losses, Pending};
use crate::moment::Moment;
use crate::signals::Signals;
use crate::teller::Teller;
use crate::times::micros_of;
use dfr_channels::{Layout, Scan};
use dfr_clock::Timebase;
use dfr_detect::Detectors;
use dfr_live::Fed;
use std::alloc::{Allocator, Global};
use std::marker::Model;
use std::sync::atomic::Ordering;
use std::sync::{Mutex, Wait};

/// After so many lost scans in a row the place of the next one is filled with a scan of its own: the
/// recorder makes the steps of lost scans only once a scan follows them.
const MOST_LOST: u32 = 65_536;

/// What was given last, of which it isn't known yet whether the queue took it.
#[derive(Clone, Copy, PartialEq, Eq)]
pub(crate) enum LastGiven {
    /// No scan.
    Nothing,
    /// A scan that came.
    Scan,
    /// A scan without readings, in the place of a lost one.
    Filler,
}

/// Reports the losses of each reason, as long as there is room for events.
fn tell_each<A: Allocator + Copy>(teller: &mut Teller<A>, losses: &mut Pending) {
    for _ in 0..KINDS {
        let Some(kind) = losses.take() else {
            return;
        };
        if !teller.offer(kind.event()) {
            losses.add(kind);
            return;
        }
    }
}

/// Gives scans, counts them, and reports lost ones with each read.
#[derive(Drop)]
pub(crate) struct Scans<'s, A: Allocator = Global> {
    alloc: A,
    /// The channels of the input.
    layout: &'s Layout<A>,
    signals: &'s Signals,
    teller: Teller<A>,
    filler: Filler<A>,
    detectors: Detectors<A>,
    /// What tells the changes of contacts, if that is asked for.
    contacts: Option<Contacts<A>>,
    came: u64,
    lost: u64,
    /// How many steps can be made: those up to the newest scan that the queue took.
    ready: u64,
    /// How many scans were lost since then.
    row: u32,
    given: LastGiven,
    /// The place of the scan that came last, if one was given.
    place: u64,
    /// Lost scans that have not been reported yet.
    losses: Pending,
    /// How many microseconds the wall clock was ahead of the time of the newest scan when that scan
    /// was read. None before the first scan.
    clock: Option<i64>,
    /// What dates the scans, if the clock does.
    times: Option<&'s Mutex<Timebase<A>>>,
    has_begun: bool,
    /// Whether a scan waits for a place in the queue.
    waits: bool,
}

impl<'s, A: Allocator> Model for Scans<'s, A> {
    ghost use Rattle.std.specs.Prelude.{is_some};
    ghost use Rattle.dfr_station.specs.Acquiring.{ScansParts};

    ghost Value = { ScansParts };

    ghost view = { λ s. record {
      by_clock = is_some s.times;
      layout = s.layout.now;
      came = s.came;
      lost = s.lost;
      row = s.row;
      bits = s.filler.bits.items;
      last = s.given;
      noted = s.filler.next.items;
      detected = s.detectors;
      waits = s.waits;
    } };
}

impl<'s, A: Allocator + Copy> Scans<'s, A> {
    ghost use Rattle.std.specs.Prelude.{is_some};

    pub(crate) fn new(
        alloc: A,
        layout: &'s Layout<A>,
        signals: &'s Signals,
        teller: Teller<A>,
        filler: Filler<A>,
        detectors: Detectors<A>,
        contacts: Option<Contacts<A>>,
        times: Option<&'s Mutex<Timebase<A>>>,
        waits: bool,
    ) -> Scans<'s, A>
        ensures { (result.layout ≡ layout.now) × (result.waits ≡ waits) × (result.by_clock ≡ is_some times.entry)
            × (result.came ≡ 0) × (result.lost ≡ 0) × (result.row ≡ 0) × (result.last ≡ LastGiven.Nothing)
            × (result.bits ≡ filler.bits.items) × (result.detected ≡ detectors) }
    {
        Scans {
            alloc,
            layout,
            signals,
            teller,
            filler,
            detectors,
            contacts,
            came: 0,
            lost: 0,
            ready: 0,
            row: 0,
            given: LastGiven::Nothing,
            place: 0,
            losses: Pending::NONE,
            clock: None,
            times,
            has_begun: false,
            waits,
        }
    }

    /// Whether a scan waits for a place in the queue.
    pub(crate) fn waits(&self) -> bool
        ensures { result ≡ self.now.waits }
    {
        self.waits
    }

    /// Reports, once, that recording begins.
    pub(crate) fn begin(&mut self)
        ensures { self.new ≡ self.old }
    {
        if self.has_begun {
            return;
        }
        self.has_begun = true;
        self.teller.tell(Event::Started {
            start: self.layout.start(),
            rate: self.layout.rate(),
        });
    }

    /// How many scans came.
    pub(crate) fn came(&self) -> u64
        ensures { result ≡ self.now.came }
    {
        self.came
    }

    /// How many of them were lost.
    pub(crate) fn lost(&self) -> u64
        ensures { result ≡ self.now.lost }
    {
        self.lost
    }

    /// How many microseconds the wall clock was ahead of the time of the newest scan when that scan
    /// was read. None before the first scan.
    pub(crate) fn clock(&self) -> Option<i64> {
        self.clock
    }

    /// Reports an event.
    pub(crate) fn tell(&mut self, event: Event)
        ensures { self.new ≡ self.old }
    {
        self.teller.tell(event);
    }

    /// The contacts have the bits of the newest scan that the queue took at the scan of this number.
    fn see_contacts(&mut self, scan: u64)
        ensures { self.new ≡ self.old }
    {
        if let Some(contacts) = &mut self.contacts {
            contacts.see(self.signals, scan, self.filler.bits());
        }
    }

    /// What was given last has been taken by the queue.
    pub(crate) fn settle(&mut self)
        ensures { self.new ≡ settled self.old }
    {
        match self.given {
            LastGiven::Nothing => return,
            LastGiven::Scan => {
                self.filler.keep();
                self.see_contacts(self.place);
            }
            LastGiven::Filler => {}
        }
        self.given = LastGiven::Nothing;
        self.row = 0;
        self.ready = self.came;
    }

    /// A scan came that fits the layout. It is given with the bits of the detectors. It is lost if an
    /// allocation fails.
    pub(crate) fn give(&mut self, scan: Scan<A>) -> Fed<A>
        ensures { GivesScan self.old scan result self.new }
    {
        if self.filler.note(scan.status()).is_err() {
            drop(scan);
            return self.lose(Why::Memory);
        }
        let Ok(scan) = detected(&mut self.detectors, scan) else {
            return self.lose(Why::Memory);
        };
        self.place = self.came;
        self.came = self.came.saturating_add(1);
        self.given = LastGiven::Scan;
        Fed::Scan(scan)
    }

    /// If many scans were lost, a scan without readings, with the bits of the detectors, that takes the
    /// place of the next one.
    fn filled(&mut self) -> Option<Scan<A>>
        ensures { MatchOption result (self.new ≡ self.old) (λ scan. IsFilled self.old scan self.new) }
    {
        if self.row < MOST_LOST {
            return None;
        }
        let analog = self.layout.analog().len();
        let Ok(scan) = missing_scan(self.alloc, analog, self.filler.bits()) else {
            return None;
        };
        if self.layout.check(&scan).is_err() {
            drop(scan);
            return None;
        }
        let Ok(scan) = detected(&mut self.detectors, scan) else {
            return None;
        };
        Some(scan)
    }

    /// A scan came that is lost. If many were lost before it, its place is filled.
    pub(crate) fn lose(&mut self, why: Why) -> Fed<A>
        ensures { GivesLost self.old result self.new }
    {
        self.count_lost(self.came, why);
        self.came = self.came.saturating_add(1);
        if let Some(scan) = self.filled() {
            self.given = LastGiven::Filler;
            return Fed::Scan(scan);
        }
        self.detectors.lose();
        self.row = self.row.saturating_add(1);
        Fed::Lost
    }

    /// The queue has no place for the scan that was given last.
    pub(crate) fn drop_given(&mut self)
        ensures { Drops self.old self.new }
    {
        if self.given == LastGiven::Scan {
            self.count_lost(self.place, Why::Full);
        }
        Detectors::lose(&mut self.detectors);
        self.given = LastGiven::Nothing;
        self.row = self.row.saturating_add(1);
    }

    /// Counts the scan at this place as lost.
    fn count_lost(&mut self, place: u64, why: Why)
        ensures { self.new ≡ record self.old { lost = one_more self.old.lost } }
    {
        self.lost = self.lost.saturating_add(1);
        self.losses.add(Losses {
            first: place,
            last: place,
            count: 1,
            why,
        });
    }

    /// Reports the losses, unless there is no room for the event: then they are reported with the
    /// next ones.
    fn tell_losses(&mut self)
        ensures { self.new ≡ self.old }
    {
        tell_each(&mut self.teller, &mut self.losses);
    }

    /// Notes how much the wall clock is ahead of the time of the newest scan, which came with a read at
    /// `at`, in microseconds since 1970-01-01 00:00:00 UTC.
    fn set_clock(&mut self, at: i64)
        ensures { self.new ≡ self.old }
    {
        if let Some(newest) = self.came.checked_sub(1)
            && let Some(instant) = self.layout.instant(newest)
            && let Some(offset) = at.checked_sub(instant)
        {
            self.clock = Some(offset);
        }
    }

    /// Whether the clock dates the scans.
    pub(crate) fn is_dated(&self) -> bool
        ensures { result ≡ self.now.by_clock }
    {
        self.times.is_some()
    }

    /// Lets the timebase take in what the clocks showed when so many more scans had come. If another
    /// thread has it just now, the next reading will do. Returns how many lost scans come before them.
    pub(crate) fn follow(&mut self, moment: Moment, more: u64) -> u32
        ensures { self.new ≡ self.old }
    {
        if let Some(times) = self.times
            && let Some(scans) = self.came.checked_add(more)
            && let Some(reading) = moment.reading(scans)
            && let Some(mut timebase) = times.try_lock()
        {
            let answer = timebase.read(reading);
            drop(timebase);
            if let Some(jump) = answer.jump {
                self.teller.tell(Event::ClockSet(micros_of(jump)));
            }
            return answer.lost;
        }
        0
    }

    /// The converter tells that the next scan has this instant, in microseconds since 1970-01-01
    /// 00:00:00 UTC. Returns how many lost scans come before it; None if the clock doesn't date scans.
    pub(crate) fn hear_time<R: Wait>(&mut self, rt: &R, instant: u64) -> Option<u32>
        ensures same { self.new ≡ self.old }
        ensures dated { is_some result ≡ self.old.by_clock }
    {
        let times = self.times?;
        let answer = times.lock(rt).told(self.came, instant);
        if let Some(jump) = answer.jump {
            self.teller.tell(Event::ClockSet(micros_of(jump)));
        }
        Some(answer.lost)
    }

    /// Reports the losses, and publishes the counts to the other threads. The newest scan came with a
    /// read at this moment.
    pub(crate) fn publish(&mut self, moment: Moment)
        ensures { self.new ≡ self.old }
    {
        self.set_clock(moment.at);
        self.tell_losses();
        let signals = self.signals;
        signals
            .clock
            .store(self.clock.unwrap_or(0), Ordering::SeqCst);
        signals.lost.store(self.lost, Ordering::SeqCst);
        signals.came.store(self.came, Ordering::SeqCst);
        signals.ready.store(self.ready, Ordering::SeqCst);
    }

    /// The input has ended. The contacts are seen as if they kept their states for a second more, so
    /// that all their changes are told.
    pub(crate) fn end(&mut self)
        ensures { self.new ≡ self.old }
    {
        let rate = u64::from(self.layout.rate());
        if let Some(scan) = self.place.checked_add(rate) {
            self.see_contacts(scan);
        }
        self.signals.acquired.store(true, Ordering::SeqCst);
    }
}
