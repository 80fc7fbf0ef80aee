//! What the messages of the control blocks come to.

ghost use Rattle.std.specs.Prelude.{◌≡◌, ◌<◌, ◌++◌, Some, OnOk, IfSome, length, slice_get};
ghost use Rattle.dfr_capture.specs.Listening as spec;

use crate::contact::{Held, all_resting, bits_of, put_no_states, take_doubt, take_message};
use crate::feed::Event;
use crate::listened::{Heard, Listened, all_unheard, heard_at, is_doubtful, is_over, passed_block};
use crate::plan::{Plan, part};
use dfr_bus::Goose;
use std::alloc::{AllocError, Allocator, Global};
use std::marker::Model;

/// The control blocks and the contacts.
#[derive(Drop)]
pub(crate) struct Listening<A: Allocator = Global> {
    blocks: Vec<Listened, A>,
    held: Vec<Held, A>,
}

impl<A: Allocator> Model for Listening<A> {
    ghost use Rattle.dfr_capture.specs.Listening.{Listening};

    ghost Value = { Listening };

    ghost view = { λ s. record { blocks = s.blocks.items; held = s.held.items } };
}

/// Reports what the number of a message's state says of those before it.
fn put_turn<A: Allocator>(
    out: &mut Vec<Event, A>,
    n: usize,
    heard: Option<Heard>,
    goose: &Goose,
) -> Result<(), AllocError>
    ensures { OnOk result (out.new.items ≡ out.old.items ++ spec.turn_events n heard goose.now) }
{
    let Some(heard) = heard else {
        return Ok(());
    };
    if goose.st_num < heard.state {
        out.push(Event::Back(n))?;
    } else if goose.st_num - heard.state > 1 {
        out.push(Event::StatesLost(n, goose.st_num - heard.state - 1))?;
    }
    Ok(())
}

/// The first control block that a message is of.
fn block_of(text: &[u8], bytes: &[u8], goose: &Goose, blocks: &[Listened]) -> Option<usize>
    ensures value { result ≡ spec.block_in text.now bytes.now goose.now blocks.now }
    ensures inside { IfSome result (λ n. n < length blocks.now) }
{
    let name = part(bytes, goose.gocb_ref);
    blocks.iter().position(|l| part(text, l.block.name) == name)
}

/// Reports that the time to live of block n is over, if it is.
fn put_over<A: Allocator>(
    out: &mut Vec<Event, A>,
    time: u64,
    n: usize,
    listened: Listened,
) -> Result<(), AllocError>
    ensures { OnOk result (out.new.items ≡ out.old.items ++ spec.over_events time n (Some listened)) }
{
    if is_over(time, listened.heard) {
        out.push(Event::Expired(n))?;
    }
    Ok(())
}

/// The contacts when the time to live of block n is over, if it is.
fn pass_held(held: &mut [Held], time: u64, n: usize, listened: Listened)
    ensures { held.new ≡ spec.passed_held time n listened held.old }
{
    if is_over(time, listened.heard) {
        take_doubt(held, n, listened.block.doubt);
    }
}

/// Block n by this time.
fn pass_block<A: Allocator>(
    blocks: &mut [Listened],
    held: &mut [Held],
    time: u64,
    n: usize,
    out: &mut Vec<Event, A>,
) -> Result<(), AllocError>
    requires { n < length blocks.old }
    ensures state { OnOk result (spec.listening_of blocks.new held.new ≡ spec.over_by time n (slice_get blocks.old n) (spec.listening_of blocks.old held.old)) }
    ensures events { OnOk result (out.new.items ≡ out.old.items ++ spec.over_events time n (slice_get blocks.old n)) }
    ensures long { length blocks.new ≡ length blocks.old }
{
    let listened = blocks[n];
    put_over(out, time, n, listened)?;
    blocks[n] = passed_block(time, listened);
    pass_held(held, time, n, listened);
    Ok(())
}

/// All blocks by this time.
fn pass_blocks<A: Allocator>(
    blocks: &mut [Listened],
    held: &mut [Held],
    time: u64,
    out: &mut Vec<Event, A>,
) -> Result<(), AllocError>
    ensures state { OnOk result (spec.listening_of blocks.new held.new ≡ spec.passed time (length blocks.old) (spec.listening_of blocks.old held.old)) }
    ensures events { OnOk result (out.new.items ≡ out.old.items ++ spec.passed_events time (length blocks.old) (spec.listening_of blocks.old held.old)) }
{
    for n in 0..blocks.len() {
        pass_block(blocks, held, time, n, out)?;
    }
    Ok(())
}

/// Reports what a message says of its contacts.
fn put_states<A: Allocator>(
    out: &mut Vec<Event, A>,
    bytes: &[u8],
    goose: &Goose,
    n: usize,
    held: &[Held],
) -> Result<(), AllocError>
    ensures { OnOk result (out.new.items ≡ out.old.items ++ spec.state_events bytes.now goose.now n held.now) }
{
    if is_doubtful(goose) {
        out.push(Event::Doubtful(n))?;
        return Ok(());
    }
    put_no_states(out, held, bytes, goose.all_data, n)
}

/// The contacts after a message of block n.
fn take_states(held: &mut [Held], bytes: &[u8], goose: &Goose, n: usize, listened: Listened)
    ensures { held.new ≡ spec.held_after bytes.now goose.now n listened held.old }
{
    if is_doubtful(goose) {
        take_doubt(held, n, listened.block.doubt);
    } else {
        take_message(held, bytes, goose.all_data, n);
    }
}

/// A message of block n.
fn take_block<A: Allocator>(
    blocks: &mut [Listened],
    held: &mut [Held],
    bytes: &[u8],
    time: u64,
    goose: &Goose,
    n: usize,
    out: &mut Vec<Event, A>,
) -> Result<(), AllocError>
    requires { n < length blocks.old }
    ensures state { OnOk result (spec.listening_of blocks.new held.new ≡ spec.message_by bytes.now time goose.now n (slice_get blocks.old n) (spec.listening_of blocks.old held.old)) }
    ensures events { OnOk result (out.new.items ≡ out.old.items ++ spec.message_events_by bytes.now goose.now n (slice_get blocks.old n) (spec.listening_of blocks.old held.old)) }
{
    let listened = blocks[n];
    put_turn(out, n, listened.heard, goose)?;
    put_states(out, bytes, goose, n, held)?;
    blocks[n] = Listened {
        heard: Some(heard_at(time, goose)),
        ..listened
    };
    take_states(held, bytes, goose, n, listened);
    Ok(())
}

impl<A: Allocator + Copy> Listening<A> {
    ghost use Rattle.std.specs.Prelude.{◌≡◌, IfOk};
    ghost use Rattle.dfr_capture.specs.Listening as spec;
    ghost use Rattle.dfr_capture.specs.Contacts as contacts;

    /// Before the first message.
    pub(crate) fn new(alloc: A, plan: &Plan<A>) -> Result<Listening<A>, AllocError>
        ensures { IfOk result (λ s. s ≡ spec.beginning plan.now) }
    {
        let blocks = all_unheard(alloc, &plan.blocks)?;
        let held = all_resting(alloc, &plan.contacts)?;
        Ok(Listening { blocks, held })
    }

    /// The states of the contacts.
    pub(crate) fn bits(&self, alloc: A) -> Result<Vec<bool, A>, AllocError>
        ensures { IfOk result (λ v. v.items ≡ contacts.bits_of self.now.held) }
    {
        bits_of(alloc, &self.held)
    }
}

impl<A: Allocator> Listening<A> {
    ghost use Rattle.std.specs.Prelude.{◌≡◌, ◌++◌, OnOk, length};
    ghost use Rattle.dfr_capture.specs.Listening as spec;

    /// All blocks by this time.
    pub(crate) fn pass(&mut self, time: u64, events: &mut Vec<Event, A>) -> Result<(), AllocError>
        ensures state { OnOk result (self.new ≡ spec.passed time (length self.old.blocks) self.old) }
        ensures events { OnOk result (events.new.items ≡ events.old.items ++ spec.passed_events time (length self.old.blocks) self.old) }
    {
        pass_blocks(&mut self.blocks, &mut self.held, time, events)
    }

    /// A message.
    pub(crate) fn message(
        &mut self,
        text: &[u8],
        bytes: &[u8],
        time: u64,
        goose: &Goose,
        events: &mut Vec<Event, A>,
    ) -> Result<(), AllocError>
        ensures state { OnOk result (self.new ≡ spec.with_message text.now bytes.now time goose.now self.old) }
        ensures events { OnOk result (events.new.items ≡ events.old.items ++ spec.message_events text.now bytes.now goose.now self.old) }
    {
        match block_of(text, bytes, goose, &self.blocks) {
            None => Ok(()),
            Some(n) => take_block(
                &mut self.blocks,
                &mut self.held,
                bytes,
                time,
                goose,
                n,
                events,
            ),
        }
    }
}
