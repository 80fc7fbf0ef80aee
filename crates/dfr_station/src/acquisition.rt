//! What the acquisition thread reads: each scan that comes is one step, and each order is put into a
//! queue.

ghost use Rattle.std.specs.Prelude.{◌≡◌, ◌≤◌, ◌+◌, length, IsTrue};
ghost use Rattle.rtrb.specs.Ring.{sent, known_free};
ghost use Rattle.dfr_live.specs.Lane.{lane_in};
ghost use Rattle.dfr_station.specs.Acquiring.{Gave, FindsGap};

use crate::desk::{Office, Placed};
use crate::event::{Event, Skipped};
use crate::intake::{Arrival, Arrivals, Counts, Ending, Next, Why};
use crate::scans::Scans;
use crate::station::Recording;
use dfr_channels::Scan;
use dfr_live::{Fed, Intake};
use rtrb::Producer;
use std::alloc::{Allocator, Global};
use std::io::Read;
use std::marker::Model;
use std::sync::Wait;
use std::time::Clock;

/// The input, and what is made of it.
#[derive(Drop)]
pub(crate) struct Acquisition<'s, 'x, I, R, A: Allocator = Global> {
    rt: &'s R,
    arrivals: Arrivals<'x, I, A>,
    scans: Scans<'s, A>,
    orders: Producer<Placed<A>, A>,
    /// The input couldn't be read to its end.
    is_broken: bool,
}

impl<'s, 'x, I, R, A: Allocator> Model for Acquisition<'s, 'x, I, R, A> {
    ghost use Rattle.std.specs.Prelude.{◌≤◌, ◌+◌, length};
    ghost use Rattle.rtrb.specs.Ring.{sent, known_free};
    ghost use Rattle.dfr_live.specs.Lane.{lane_in};
    ghost use Rattle.dfr_station.specs.Acquiring.{Acquired};
    ghost use Rattle.dfr_station.specs.declared.intake.arrivals.Arrivals.{Arrivals as Arriving};

    ghost Value = { Acquired (Arriving I A) A };

    ghost view = { λ a. record {
      incoming = a.arrivals;
      scans = a.scans;
      orders = record { lane = lane_in a.orders; items = sent a.orders };
    } };

    // The queue has 1,024 places.
    ghost invariant = { λ a. 1_024 ≤ known_free a.orders + length (sent a.orders) };
}

impl<'s, 'x, I, R, A: Allocator + Copy> Acquisition<'s, 'x, I, R, A> {
    pub(crate) fn new(
        rt: &'s R,
        arrivals: Arrivals<'x, I, A>,
        scans: Scans<'s, A>,
        orders: Producer<Placed<A>, A>,
    ) -> Acquisition<'s, 'x, I, R, A>
        requires places { 1_024 ≤ known_free orders + length (sent orders) }
        ensures { result ≡ record {
          incoming = arrivals.entry;
          scans = scans.entry;
          orders = record { lane = lane_in orders; items = sent orders };
        } }
    {
        Acquisition {
            rt,
            arrivals,
            scans,
            orders,
            is_broken: false,
        }
    }

    /// Whether the desk took all orders that were put into its queue.
    pub(crate) fn is_heard_by(&mut self, desk: &mut Office<'_, A>) -> bool
        requires one { self.old.orders.lane ≡ desk.old.lane }
        ensures all { IsTrue result → desk.old.taken ≡ self.old.orders.items }
        ensures same { (self.new ≡ self.old) × (desk.new ≡ desk.old) }
    {
        desk.has_all(&mut self.orders)
    }

    /// The input.
    pub(crate) fn into_input(self) -> I
        ensures { result ≡ self.entry.incoming.input }
    {
        self.arrivals.input
    }

    /// What came until now. Records are not counted here.
    pub(crate) fn counts(&self) -> Counts
        ensures { (result.scans ≡ self.now.scans.came) × (result.lost ≡ self.now.scans.lost) }
    {
        Counts {
            scans: self.scans.came(),
            lost: self.scans.lost(),
            left: 0,
            records: 0,
            unwritten: 0,
            clock: self.scans.clock(),
            is_broken: self.is_broken,
        }
    }

    /// Reports a line that is skipped.
    fn skip(&mut self, line: u64, why: Skipped)
        ensures { self.new ≡ self.old }
    {
        self.scans.tell(Event::Line { line, why });
    }

    /// What came: a step, or none.
    fn step_of(&mut self, arrival: Arrival<A>) -> Option<Fed<A>>
        ensures { Gave self.old (Next.Arrival arrival) result self.new }
    {
        match arrival {
            Arrival::Scan(scan) => Some(self.scans.give(scan)),
            Arrival::Lost(why) => Some(self.scans.lose(why)),
            Arrival::Order { line, at: _, order } => {
                let at = self.scans.came();
                if self.orders.push(Placed { line, at, order }).is_err() {
                    self.skip(line, Skipped::Busy);
                }
                None
            }
            // the loop below hears it
            Arrival::Time { .. } => None,
            Arrival::Skipped { line, why } => {
                self.skip(line, why);
                None
            }
            Arrival::Noise => {
                self.scans.tell(Event::Noise(self.scans.came()));
                None
            }
        }
    }

    /// Bytes have come. If the clock says that scans are missing before them, lost ones come first.
    fn find_gap(&mut self)
        requires none { self.old.incoming.gap ≡ 0 }
        ensures { FindsGap self.old self.new }
    {
        let more = self.arrivals.waiting();
        let lost = self.scans.follow(self.arrivals.at(), more);
        self.arrivals.stand_still(lost);
    }

    /// The input has ended.
    fn end(&mut self, ending: Ending)
        ensures { self.new ≡ self.old }
    {
        match ending {
            Ending::Whole => {}
            Ending::Cut(bytes) => self.scans.tell(Event::Cut(bytes)),
            Ending::Broken => {
                self.is_broken = true;
                self.scans.tell(Event::Broken);
            }
        }
        self.scans.end();
    }
}

impl<I, R: Wait, A: Allocator + Copy> Acquisition<'_, '_, I, R, A> {
    /// A line tells the time of the next scan. If scans are missing before it, lost ones come first.
    fn hear_time(&mut self, line: u64, instant: u64)
        requires none { self.old.incoming.gap ≡ 0 }
        ensures { FindsGap self.old self.new }
    {
        match self.scans.hear_time(self.rt, instant) {
            Some(lost) => self.arrivals.stand_still(lost),
            None => self.skip(line, Skipped::Undated),
        }
    }
}

impl<I: Read, R: Wait + Clock, A: Allocator + Copy> Intake<A, Recording>
    for Acquisition<'_, '_, I, R, A> {
    ghost use Rattle.dfr_station.specs.Acquiring.{AcquisitionGives, AcquisitionLoses};
    ghost use Rattle.dfr_station.specs.Arrivals.{HandsNext};

    ghost gives = { λ s r t. AcquisitionGives (HandsNext I.remaining) s r t };

    ghost loses = { λ s t. AcquisitionLoses s t };

    fn next(&mut self, spare: &mut Option<Scan<A>>) -> Result<Fed<A>, u32> {
        self.scans.begin();
        self.scans.settle();
        for _ in self.rt.forever() {
            match self.arrivals.next(self.rt, spare) {
                Next::Arrival(Arrival::Time { line, instant }) => self.hear_time(line, instant),
                Next::Arrival(arrival) => {
                    if let Some(fed) = self.step_of(arrival) {
                        return Ok(fed);
                    }
                }
                Next::Gap => {
                    if self.scans.is_dated() {
                        return Ok(self.scans.lose(Why::Silent));
                    }
                }
                Next::Read => self.find_gap(),
                Next::Drained => self.scans.publish(self.arrivals.at()),
                Next::End(ending) => {
                    self.scans.publish(self.arrivals.at());
                    self.end(ending);
                    return Ok(Fed::Done);
                }
            }
        }
        unreachable!()
    }

    fn is_lost(&mut self) -> bool {
        if self.scans.waits() {
            return false;
        }
        self.scans.drop_given();
        true
    }
}
