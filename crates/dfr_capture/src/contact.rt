//! The states of the contacts.

ghost use Rattle.std.specs.Prelude.{◌≡◌, ◌++◌, map, IfOk, OnOk};
ghost use Rattle.dfr_capture.specs.Contacts as spec;

use crate::element::state_in;
use crate::feed::Event;
use crate::plan::{Contact, Doubt};
use dfr_bus::Span;
use std::alloc::{AllocError, Allocator};

/// A contact and its state.
#[derive(Clone, Copy, Debug, PartialEq, Eq)]
pub struct Held {
    /// The contact.
    pub contact: Contact,
    /// Its state.
    pub on: bool,
}

/// A contact in its normal state.
fn resting(contact: Contact) -> Held
    ensures { result ≡ spec.resting contact }
{
    Held {
        contact,
        on: contact.normal,
    }
}

/// All contacts in their normal states.
pub(crate) fn all_resting<A: Allocator + Copy>(
    alloc: A,
    contacts: &[Contact],
) -> Result<Vec<Held, A>, AllocError>
    ensures { IfOk result (λ v. v.items ≡ map spec.resting contacts.now) }
{
    let mut held = Vec::new(alloc);
    for contact in contacts {
        held.push(resting(*contact))?;
    }
    Ok(held)
}

/// The states.
pub(crate) fn bits_of<A: Allocator + Copy>(
    alloc: A,
    held: &[Held],
) -> Result<Vec<bool, A>, AllocError>
    ensures { IfOk result (λ v. v.items ≡ spec.bits_of held.now) }
{
    let mut bits = Vec::new(alloc);
    for one in held {
        bits.push(one.on)?;
    }
    Ok(bits)
}

/// A contact after a message of a control block with this content.
fn after_message(held: Held, bytes: &[u8], content: Span, block: usize) -> Held
    ensures { result ≡ spec.after_message bytes.now content block held }
{
    if held.contact.block != block {
        return held;
    }
    match state_in(bytes, content, held.contact.element) {
        None => held,
        Some(on) => Held { on, ..held },
    }
}

/// A contact, which returns to normal if it is of this control block.
fn at_rest(held: Held, block: usize) -> Held
    ensures { result ≡ spec.at_rest block held }
{
    if held.contact.block == block {
        resting(held.contact)
    } else {
        held
    }
}

/// All contacts after a message.
pub(crate) fn take_message(held: &mut [Held], bytes: &[u8], content: Span, block: usize)
    ensures { held.new ≡ map (spec.after_message bytes.now content block) held.old }
{
    for one in held.iter_mut() {
        *one = after_message(*one, bytes, content, block);
    }
}

/// All contacts, where a control block is in doubt.
pub(crate) fn take_doubt(held: &mut [Held], block: usize, doubt: Doubt)
    ensures { held.new ≡ spec.doubted block doubt held.old }
{
    if doubt == Doubt::Stays {
        return;
    }
    for one in held.iter_mut() {
        *one = at_rest(*one, block);
    }
}

/// Reports contact n, if there is no state for it.
fn put_stateless<A: Allocator>(
    out: &mut Vec<Event, A>,
    n: usize,
    state: Option<bool>,
) -> Result<(), AllocError>
    ensures { OnOk result (out.new.items ≡ out.old.items ++ spec.stateless n state) }
{
    match state {
        None => out.push(Event::NoState(n))?,
        Some(_) => {}
    }
    Ok(())
}

/// Reports contact n, if it is of the control block and this content has no state for it.
fn put_no_state<A: Allocator>(
    out: &mut Vec<Event, A>,
    n: usize,
    held: Held,
    bytes: &[u8],
    content: Span,
    block: usize,
) -> Result<(), AllocError>
    ensures { OnOk result (out.new.items ≡ out.old.items ++ spec.no_state bytes.now content block n held) }
{
    if held.contact.block != block {
        return Ok(());
    }
    put_stateless(out, n, state_in(bytes, content, held.contact.element))
}

/// Reports the contacts of a control block for which this content has no state.
pub(crate) fn put_no_states<A: Allocator>(
    out: &mut Vec<Event, A>,
    held: &[Held],
    bytes: &[u8],
    content: Span,
    block: usize,
) -> Result<(), AllocError>
    ensures { OnOk result (out.new.items ≡ out.old.items ++ spec.no_states bytes.now content block 0 held.now) }
{
    for n in 0..held.len() {
        put_no_state(out, n, held[n], bytes, content, block)?;
    }
    Ok(())
}
