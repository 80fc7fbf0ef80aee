//! Which records were taken, as proofs remember it: a word for each goes through a ring from the
//! recorder's lock to who takes them. Nothing is read from the words. A record is taken only if the
//! ring has room and all earlier words came out of it, which holds wherever one thread takes.

ghost use Rattle.std.specs.Prelude.{◌≡◌, ◌++◌, [], length, Some, None, IfSome, IsTrue, option_to_list};
ghost use Rattle.rtrb.specs.Ring.{sent, received, known_items};
ghost use Rattle.dfr_live.specs.Lane.{lane_in, lane_out};
ghost use Rattle.dfr_live.specs.Gone.{Adds, HasRoom, IsUpTo};

use crate::recalled::Recalled;
use crate::session::Session;
use crate::token::Token;
use dfr_recorder::Record;
use rtrb::{Consumer, Producer};
use std::alloc::{Allocator, Global};
use std::marker::{Model, PhantomData};

/// Stands for a record that was taken, and holds nothing of it.
#[derive(Drop)]
pub(crate) struct Gone<A: Allocator = Global> {
    taken: Recalled<Record<A>>,
    // An item of a ring has a size.
    mark: u8,
}

impl<A: Allocator> Model for Gone<A> {
    ghost use Rattle.dfr_recorder.specs.Parts.{RecordParts};

    ghost Value = { RecordParts };

    ghost view = { λ g. g.taken.value };
}

impl<A: Allocator> Gone<A> {
    fn of(taken: &Record<A>) -> Gone<A>
        ensures { result ≡ taken.now }
    {
        Gone {
            taken: Recalled::of(taken),
            mark: 0,
        }
    }
}

/// Where the recorder notes the records that are taken, if anyone wants to know.
#[derive(Drop)]
pub(crate) struct Outbox<A: Allocator = Global> {
    ring: Option<Producer<Gone<A>, A>>,
}

impl<A: Allocator> Model for Outbox<A> {
    ghost use Rattle.std.specs.Prelude.{Option, option_map};
    ghost use Rattle.rtrb.specs.Ring.{sent, known_free};
    ghost use Rattle.dfr_live.specs.Lane.{lane_in};
    ghost use Rattle.dfr_live.specs.Gone.{OutboxParts};

    ghost Value = { Option (OutboxParts A) };

    ghost view = { λ b. option_map
        (λ p. record { name = lane_in p; sent = sent p; free = known_free p }) b.ring };
}

impl<A: Allocator> Outbox<A> {
    /// Notes records in this ring if `noted`, else none.
    pub(crate) fn of(ring: Producer<Gone<A>, A>, noted: bool) -> Outbox<A>
        ensures { IfSome result (λ b. (b.name ≡ lane_in ring) × (b.sent ≡ sent ring)) }
    {
        if noted {
            return Outbox { ring: Some(ring) };
        }
        drop(ring);
        Outbox { ring: None }
    }

    /// Whether one more record can be noted.
    pub(crate) fn is_ready(&mut self) -> bool
        ensures same { Adds self.old [] self.new }
        ensures room { IsTrue result → HasRoom self.new }
    {
        match &mut self.ring {
            Some(ring) => !ring.is_full(),
            None => true,
        }
    }

    /// Notes the record that was taken, if one was.
    pub(crate) fn remember(&mut self, taken: &Option<Record<A>>)
        requires { HasRoom self.old }
        ensures { Adds self.old (option_to_list taken.now) self.new }
    {
        let Some(record) = taken else {
            return;
        };
        if let Some(ring) = &mut self.ring {
            ring.push_reserved(Gone::of(record));
        }
    }
}

/// Where what the recorder notes comes out, if it does. Contracts see the records.
#[derive(Drop)]
pub(crate) struct Outgoing<N: Session<A>, A: Allocator = Global> {
    ring: Option<Consumer<Gone<A>, A>>,
    of: PhantomData<N>,
}

/// Who takes records: a token, and where what is taken comes out.
#[derive(Drop)]
pub(crate) struct Taker<N: Session<A>, A: Allocator = Global> {
    pub(crate) token: Token<A>,
    pub(crate) gone: Outgoing<N, A>,
}

impl<N: Session<A>, A: Allocator> Model for Outgoing<N, A> {
    ghost use Rattle.std.specs.Prelude.{◌≡◌, List, Option, option_map, IfSome};
    ghost use Rattle.rtrb.specs.Ring.{received};
    ghost use Rattle.dfr_recorder.specs.Parts.{RecordParts};
    ghost use Rattle.dfr_live.specs.Lane.{lane_out};

    ghost Value = { Option (List RecordParts) };

    ghost view = { λ o. option_map (λ c. received c) o.ring };

    ghost invariant = { λ o. IfSome o.ring (λ c. lane_out c ≡ N.lane.gone) };
}

impl<N: Session<A>, A: Allocator> Outgoing<N, A> {
    pub(crate) fn none() -> Outgoing<N, A>
        ensures { result ≡ None }
    {
        Outgoing {
            ring: None,
            of: PhantomData,
        }
    }

    pub(crate) fn of(ring: Consumer<Gone<A>, A>) -> Outgoing<N, A>
        requires { lane_out ring ≡ N.lane.gone }
        ensures { result ≡ Some (received ring) }
    {
        Outgoing {
            ring: Some(ring),
            of: PhantomData,
        }
    }

    /// Whether all that was noted has come out here, if anything does.
    pub(crate) fn is_up_to(&mut self, outbox: &mut Outbox<A>) -> bool
        requires { IfSome outbox.old (λ b. b.name ≡ N.lane.gone) }
        ensures out { self.new ≡ self.old }
        ensures outbox { Adds outbox.old [] outbox.new }
        ensures room { HasRoom outbox.old → HasRoom outbox.new }
        ensures all { IsTrue result → IsUpTo outbox.new self.new }
    {
        let Some(out) = &mut self.ring else {
            return true;
        };
        let Some(ring) = &mut outbox.ring else {
            return false;
        };
        if out.slots_beside(ring) != 0 {
            return false;
        }
        true
    }

    /// Lets all come out that was noted.
    pub(crate) fn catch_up(&mut self, outbox: &mut Outbox<A>)
        requires { IfSome outbox.old (λ b. b.name ≡ N.lane.gone) }
        ensures none { self.old ≡ None → self.new ≡ None }
        ensures outbox { Adds outbox.old [] outbox.new }
        ensures all { IfSome outbox.old (λ b. IfSome self.old (λ _. self.new ≡ Some b.sent)) }
    {
        let Some(out) = &mut self.ring else {
            return;
        };
        let Some(ring) = &mut outbox.ring else {
            return;
        };
        let waiting = out.slots_beside(ring);
        let_out(out, waiting);
    }
}

/// Lets all items come out that are known to be in the ring.
fn let_out<A: Allocator>(out: &mut Consumer<Gone<A>, A>, waiting: usize)
    requires { waiting ≡ length (known_items out.old) }
    ensures ring { lane_out out.new ≡ lane_out out.old }
    ensures all { received out.new ≡ received out.old ++ known_items out.old }
{
    for _ in 0..waiting {
        drop(out.pop_known());
    }
}
