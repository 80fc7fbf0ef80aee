//! The orders: those of the input come at their places, an operator's as they arrive.

ghost use Rattle.std.specs.Prelude.{◌≡◌, ℕ, ◌≤◌, [], ⊤, None, is_some, IsTrue, IfSome, MatchBool, MatchOption};
ghost use Rattle.rtrb.specs.Ring.{sent, received, known_free};
ghost use Rattle.dfr_live.specs.Lane.{lane_in, lane_out};
ghost use Rattle.dfr_station.specs.Desks as spec;

use crate::event::{Asked, Event, Replied, Skipped};
use crate::headers::{Headers, Scribe};
use crate::operator::Operator;
use crate::signals::Signals;
use crate::station::{Control, Recording};
use crate::teller::Teller;
use dfr_channels::Layout;
use dfr_live as live;
use dfr_live::{Desk, Order, Reply, Standing};
use rtrb::{Consumer, Producer};
use std::alloc::{Allocator, Global};
use std::marker::Model;
use std::sync::atomic::Ordering;

/// An order of the input: its line, and how many scans came before it.
#[derive(Drop)]
pub(crate) struct Placed<A: Allocator = Global> {
    pub(crate) line: u64,
    pub(crate) at: u64,
    pub(crate) order: Order<A>,
}

/// The orders of the input and of an operator.
#[derive(Drop)]
pub(crate) struct Office<'s, A: Allocator = Global> {
    pub(crate) alloc: A,
    pub(crate) layout: &'s Layout<A>,
    signals: &'s Signals,
    orders: Consumer<Placed<A>, A>,
    /// The next order of the input, if it was taken off the queue before it was due.
    next: Option<Placed<A>>,
    pub(crate) operator: Option<Operator<A>>,
    pub(crate) has_operator: bool,
    pub(crate) teller: Teller<A>,
    scribe: Scribe<'s, A>,
    /// The line of the order that was handed out last. None if an operator gave it.
    line: Option<u64>,
    /// How many finished records may wait.
    shelf: u32,
    /// The same, if steps wait for room on the shelf.
    awaited: Option<u32>,
    /// Whether the shelf was full when it was last looked at.
    is_full: bool,
    /// At how many scans a rule fired while the shelf was full, as far as that has been reported.
    told: u64,
    /// How many steps had been made when the desk was asked last.
    pub(crate) steps: u64,
}

impl<'s, A: Allocator> Model for Office<'s, A> {
    ghost use Rattle.rtrb.specs.Ring.{received};
    ghost use Rattle.dfr_live.specs.Lane.{lane_out};
    ghost use Rattle.dfr_station.specs.Desks.{DeskParts};

    ghost Value = { DeskParts A };

    ghost view = { λ o. record {
      lane = lane_out o.orders;
      taken = received o.orders;
      waits = o.next;
      line = o.line;
      has_operator = o.has_operator;
      shelf = o.awaited;
    } };
}

impl<'s, A: Allocator + Copy> Office<'s, A> {
    pub(crate) fn new(
        alloc: A,
        layout: &'s Layout<A>,
        signals: &'s Signals,
        orders: Consumer<Placed<A>, A>,
        operator: Option<Control<A>>,
        teller: Teller<A>,
        headers: Option<&'s Headers<A>>,
        shelf: u32,
        waits: bool,
    ) -> Office<'s, A>
        ensures { result ≡ record {
          lane = lane_out orders;
          taken = received orders;
          waits = None;
          line = None;
          has_operator = is_some operator;
          shelf = spec.awaited waits shelf;
        } }
    {
        Office {
            alloc,
            layout,
            signals,
            orders,
            next: None,
            has_operator: operator.is_some(),
            operator: operator.map(|control| Operator::new(alloc, control)),
            teller,
            scribe: Scribe::new(headers),
            line: None,
            shelf,
            awaited: waits.then_some(shelf),
            is_full: false,
            told: 0,
            steps: 0,
        }
    }

    /// Whether all orders were taken off the queue that were put into it at its other end.
    pub(crate) fn has_all(&mut self, orders: &mut Producer<Placed<A>, A>) -> bool
        requires one { lane_in orders.old ≡ self.old.lane }
        ensures all { IsTrue result → self.old.taken ≡ sent orders.old }
        ensures same { self.new ≡ self.old }
        ensures queue { (lane_in orders.new ≡ lane_in orders.old) × (sent orders.new ≡ sent orders.old)
            × (known_free orders.old ≤ known_free orders.new) }
    {
        self.orders.slots_beside(orders) == 0
    }

    /// How many steps had been made when the desk was asked last.
    pub(crate) fn steps(&self) -> u64 {
        self.steps
    }
}

impl<A: Allocator + Copy> Office<'_, A> {
    /// Takes the next order of the input off the queue, unless that was done.
    fn take_off(&mut self)
        ensures { spec.HandsOut self.old [] self.new }
    {
        if self.next.is_some() {
            return;
        }
        if let Ok(placed) = self.orders.pop() {
            self.next = Some(placed);
        }
    }

    /// Whether the next order of the input is due after so many steps.
    fn is_due(&self, pumped: u64) -> bool
        ensures { MatchBool result ⊤ (spec.IsEarly pumped self.now) }
    {
        match &self.next {
            Some(placed) => placed.at <= pumped,
            None => false,
        }
    }

    /// Hands out the next order of the input, if there is one.
    fn hand_next(&mut self) -> Option<live::Asked<A>>
        ensures { MatchOption result ((self.new ≡ self.old) × (self.old.waits ≡ None))
            (λ asked. (pumped : ℕ) → spec.Answers pumped self.old asked self.new) }
    {
        match self.next.take() {
            Some(Placed { line, at, order }) => {
                self.scribe.hear(&order);
                self.line = Some(line);
                Some(live::Asked::Order(at, order))
            }
            None => None,
        }
    }

    /// Hands out the next order of the input, if it is due after so many steps.
    fn hand_due(&mut self, pumped: u64) -> Option<live::Asked<A>>
        ensures { MatchOption result
            (spec.HandsOut self.old [] self.new × spec.IsEarly pumped self.new)
            (λ asked. spec.Answers pumped self.old asked self.new) }
    {
        self.take_off();
        if self.is_due(pumped) {
            self.hand_next()
        } else {
            None
        }
    }

    /// Hands out the next order of the operator, if its line has come whole.
    fn hand_operators(&mut self, at: u64) -> Option<live::Asked<A>>
        ensures { MatchOption result (self.new ≡ self.old)
            (λ asked. spec.Answers at self.old asked self.new) }
    {
        match self.hear_operator() {
            Some(order) => {
                self.scribe.hear(&order);
                self.line = None;
                Some(live::Asked::Order(at, order))
            }
            None => None,
        }
    }

    /// How many steps may be made before the desk is asked again: those that can be made, up to the
    /// next order.
    fn free_steps(&self, ready: u64) -> u64
        ensures { IfSome self.now.waits (λ placed. result ≤ placed.at) }
    {
        match &self.next {
            Some(placed) => placed.at.min(ready),
            None => ready,
        }
    }

    /// Reports at how many more scans a rule fired while the shelf was full, since the last such
    /// report.
    fn tell_missed(&mut self, missed: u64)
        ensures { self.new ≡ self.old }
    {
        if missed > self.told {
            let more = missed - self.told;
            self.told = missed;
            self.teller.tell(Event::Unopened(more));
        }
    }

    /// Publishes the numbers of waiting records and missed triggers. Reports when the shelf gets
    /// full or has room again, unless that is waited for.
    fn watch_shelf(&mut self, standing: Standing)
        ensures { self.new ≡ self.old }
    {
        let waiting = standing.waiting;
        self.signals.waiting.store(waiting as u64, Ordering::SeqCst);
        self.signals.missed.store(standing.missed, Ordering::SeqCst);
        let is_full = waiting >= self.shelf;
        if is_full == self.is_full {
            return;
        }
        self.is_full = is_full;
        if self.awaited.is_some() {
            return;
        }
        if is_full {
            self.teller.tell(Event::ShelfFull(waiting));
        } else {
            self.teller.tell(Event::ShelfFree);
            self.tell_missed(standing.missed);
        }
    }

    /// How many steps there may have been before the desk is asked again, if the shelf is waited for
    /// or not. None while it is full.
    fn most_steps(&self, standing: Standing) -> Option<u64>
        ensures held { result ≡ None → spec.IsHeld self.now.shelf standing }
        ensures room { IfSome result (λ most. spec.IsRoom self.now.shelf standing most) }
    {
        let Some(shelf) = self.awaited else {
            return Some(u64::MAX);
        };
        if standing.waiting >= shelf {
            return None;
        }
        // fewer steps at the greatest u64 are few enough
        Some(
            standing
                .pumped
                .saturating_add((shelf - standing.waiting) as u64),
        )
    }

    /// What to do after so many steps: an order that is due, or of the operator; more steps, up to
    /// the next order; and at the end the orders that are left.
    fn asked_at(&mut self, pumped: u64) -> live::Asked<A>
        ensures { spec.Answers pumped self.old result self.new }
    {
        let acquired = self.signals.acquired.load(Ordering::SeqCst);
        let ready = self.signals.ready.load(Ordering::SeqCst);
        if let Some(order) = self.hand_due(pumped) {
            return order;
        }
        if let Some(order) = self.hand_operators(pumped) {
            return order;
        }
        if acquired && pumped >= ready {
            return match self.hand_next() {
                Some(order) => order,
                None => live::Asked::Done,
            };
        }
        self.turn_operator();
        live::Asked::NotYet(self.free_steps(ready))
    }
}

/// An answer, but with no more than `most` steps.
fn within<A: Allocator>(asked: live::Asked<A>, most: u64) -> live::Asked<A>
    ensures { result ≡ spec.within most asked }
{
    match asked {
        live::Asked::NotYet(steps) => live::Asked::NotYet(steps.min(most)),
        other => other,
    }
}

/// What is reported of an order of that line of the input, or of an operator.
fn event_of(line: Option<u64>, at: u64, reply: Option<Reply>) -> Event
    ensures { result ≡ spec.told_of line at reply }
{
    let reply = match reply {
        Some(Reply::Trigger(hit)) => Replied::Trigger(hit),
        Some(Reply::SetRules(are_set)) => Replied::Rules(are_set),
        Some(Reply::Take(_)) | None => {
            let why = Skipped::Memory;
            return match line {
                Some(line) => Event::Line { line, why },
                None => Event::Order(why),
            };
        }
    };
    let asked = match line {
        Some(_) => Asked::Input,
        None => Asked::Operator,
    };
    Event::Reply { asked, at, reply }
}

impl<A: Allocator + Copy> Desk<A, Recording> for Office<'_, A> {
    ghost use Rattle.dfr_station.specs.Desks.{DeskAsks, DeskHears};

    ghost asks = { λ s standing asked t. DeskAsks s standing asked t };

    ghost hears = { λ s at reply goes_on t. DeskHears s at reply goes_on t };

    fn next(&mut self, standing: Standing) -> live::Asked<A> {
        self.steps = standing.pumped;
        self.watch_shelf(standing);
        let Some(most) = self.most_steps(standing) else {
            return live::Asked::NotYet(standing.pumped);
        };
        let asked = self.asked_at(standing.pumped);
        if let live::Asked::Done = asked {
            self.tell_missed(standing.missed);
        }
        within(asked, most)
    }

    fn answered(&mut self, at: u64, reply: Option<Reply>) -> bool {
        self.scribe.note(at, reply);
        if self.line.is_none()
            && let Some(operator) = &mut self.operator
        {
            operator.answered(reply);
        }
        self.teller.tell(event_of(self.line, at, reply));
        true
    }
}
