//! Taking records under the lock.

use crate::calls::{extent_in, has_room, note};
use crate::entry::{Call, Reply};
use crate::gone::Outgoing;
use crate::inner::Inner;
use crate::session::Session;
use crate::token::Token;
use comtrade_values::Memory;
use dfr_recorder::Record;
use std::alloc::Allocator;

impl<N: Session<A>, A: Allocator + Copy> Inner<N, A> {
    ghost use Rattle.std.specs.Prelude.{◌≡◌, IsTrue, IfOk, IfSome};
    ghost use Rattle.dfr_live.specs.Seen.{IsSound, history};
    ghost use Rattle.dfr_live.specs.Calls.{Takes, IsOwnTaken, NotesTake};
    ghost use Rattle.dfr_live.specs.Gone.{Follows, records_taken};

    /// Takes the oldest finished record, with a token; None where none waits. The record matches
    /// the layout. Where an allocation for the entry failed (`Memory`), nothing has changed.
    pub fn take_as(&mut self, token: &mut Token<A>) -> Result<Option<Record<A>>, Memory>
        ensures takes { Takes self.old token.old result self.new token.new }
        ensures own { IfOk result (λ taken. IsOwnTaken self.old.opening taken) }
        ensures sound { IsSound self.new.opening self.new.stepped self.new.log self.new.recorder }
        ensures named { self.new.opening ≡ N.opening }
    {
        self.take_into(token, &mut Outgoing::none())
    }

    /// As `take_as`. What is taken also comes out of `gone`.
    fn take_into(
        &mut self,
        token: &mut Token<A>,
        gone: &mut Outgoing<N, A>,
    ) -> Result<Option<Record<A>>, Memory>
        ensures takes { Takes self.old token.old result self.new token.new }
        ensures own { IfOk result (λ taken. IsOwnTaken self.old.opening taken) }
        ensures sound { IsSound self.new.opening self.new.stepped self.new.log self.new.recorder }
        ensures named { self.new.opening ≡ N.opening }
        ensures gone { Follows gone.old result gone.new }
    {
        if !gone.is_up_to(&mut self.outbox) {
            return Err(Memory);
        }
        if !has_room(&mut self.log, &mut token.made) {
            return Err(Memory);
        }
        if !self.outbox.is_ready() {
            return Err(Memory);
        }
        let record = self.recorder.take();
        self.outbox.remember(&record);
        gone.catch_up(&mut self.outbox);
        note(
            &mut self.log,
            &mut token.made,
            token.seat,
            self.steps,
            (Call::Take, Call::Take),
            Reply::Take(extent_in(&record)),
        );
        Ok(record)
    }

    /// As `take_as`, and says what it leaves in the token, whatever the recorder held. What is taken
    /// also comes out of `gone`.
    pub(crate) fn take_noted(
        &mut self,
        token: &mut Token<A>,
        gone: &mut Outgoing<N, A>,
    ) -> Result<Option<Record<A>>, Memory>
        ensures noted { NotesTake N.opening token.old result token.new }
        ensures gone { Follows gone.old result gone.new }
    {
        self.take_into(token, gone)
    }

    /// Whether the records that came out of `gone` are those that the one list of steps takes.
    pub(crate) fn is_all_gone(&mut self, gone: &mut Outgoing<N, A>) -> bool
        ensures same { (self.new ≡ self.old) × (gone.new ≡ gone.old) }
        ensures all { IsTrue result → IfSome gone.old
            (λ out. out ≡ records_taken N.opening (history self.old)) }
    {
        gone.is_up_to(&mut self.outbox)
    }
}
