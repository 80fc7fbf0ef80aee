//! The lines of control blocks and of contacts: `goose GOCBREF[,stays|normal]` and
//! `contact ID,BLOCK,ELEMENT`.

ghost use Rattle.std.specs.Prelude.{◌≡◌, slice_get};
ghost use Rattle.std.specs.List.{list_any};
ghost use Rattle.comtrade_values.specs.Lines.{texts};
ghost use Rattle.dfr_plan.specs.Refusing.{Makes};
ghost use Rattle.dfr_plan.specs.Contacts as spec;

use crate::PlanFault;
use crate::draft::{Draft, part, put_name};
use crate::fault::LineRefusal;
use crate::line::{field_at, is_word};
use crate::value::{numbered, up_to};
use dfr_capture::{Block, Contact, Doubt};
use dfr_channels::{Layout, StatusChannel};
use std::alloc::Allocator;

/// Whether a control block has this name.
fn is_block(text: &[u8], name: &[u8], block: &Block) -> bool
    ensures { result ≡ spec.is_block text.now name.now block.now }
{
    part(text, block.name) == name
}

/// Whether a control block has this name.
fn has_block(text: &[u8], name: &[u8], blocks: &[Block]) -> bool
    ensures { result ≡ list_any (spec.is_block text.now name.now) blocks.now }
{
    blocks.iter().any(|block| is_block(text, name, block))
}

/// Why no further control block may have this name.
fn block_fault<A: Allocator>(draft: &Draft<A>, name: &[u8]) -> Option<PlanFault>
    ensures { result ≡ spec.block_fault draft.now name.now }
{
    if name.is_empty() {
        Some(PlanFault::Name)
    } else if has_block(&draft.text, name, &draft.blocks) {
        Some(PlanFault::SameBlock)
    } else {
        None
    }
}

/// What becomes of contacts in doubt.
fn doubt_of(fields: &[&[u8]]) -> Result<Doubt, PlanFault>
    ensures { result ≡ spec.doubt_in (texts fields.now) }
{
    if fields.len() == 1 || is_word(field_at(fields, 1), "stays") {
        Ok(Doubt::Stays)
    } else if is_word(field_at(fields, 1), "normal") {
        Ok(Doubt::Normal)
    } else {
        Err(PlanFault::Doubt)
    }
}

/// Adds the control block of these fields.
pub(crate) fn add_goose<A: Allocator>(
    draft: &mut Draft<A>,
    fields: &[&[u8]],
) -> Result<(), LineRefusal>
    ensures { Makes (spec.with_goose draft.old (texts fields.now)) draft.new result }
{
    if fields.len() < 1 || fields.len() > 2 {
        return Err(LineRefusal::Fault(PlanFault::Fields));
    }
    let doubt = doubt_of(fields)?;
    let wanted = field_at(fields, 0);
    if let Some(fault) = block_fault(draft, wanted) {
        return Err(LineRefusal::Fault(fault));
    }
    let name = put_name(&mut draft.text, wanted)?;
    draft.blocks.push(Block { name, doubt })?;
    Ok(())
}

/// Whether a status channel has this name.
fn is_named<A: Allocator>(name: &[u8], channel: &StatusChannel<A>) -> bool
    ensures { result ≡ spec.is_named name.now channel.now }
{
    channel.id.items() == name
}

/// Whether a status channel has this name.
fn has_name<A: Allocator>(channels: &[StatusChannel<A>], name: &[u8]) -> bool
    ensures { result ≡ list_any (spec.is_named name.now) channels.now }
{
    channels.iter().any(|c| is_named(name, c))
}

/// The normal state of status channel `n`, the next one, if it has this name.
fn next_normal<A: Allocator>(
    channels: &[StatusChannel<A>],
    n: usize,
    name: &[u8],
) -> Result<bool, PlanFault>
    ensures { result ≡ spec.next_normal channels.now name.now (slice_get channels.now n) }
{
    if n >= channels.len() {
        return Err(PlanFault::ManyContacts);
    }
    let next = &channels[n];
    if is_named(name, next) {
        Ok(next.normal)
    } else if has_name(channels, name) {
        Err(PlanFault::ContactOrder)
    } else {
        Err(PlanFault::Contact)
    }
}

/// The contact of these fields, where there are so many control blocks.
fn contact_of(blocks: usize, fields: &[&[u8]], normal: bool) -> Result<Contact, PlanFault>
    ensures { result ≡ spec.contact_of blocks (texts fields.now) normal }
{
    let block = numbered(blocks, PlanFault::Block, field_at(fields, 1))?;
    let element = up_to(1023, PlanFault::Element, field_at(fields, 2))?;
    Ok(Contact {
        block,
        element,
        normal,
    })
}

/// Adds the contact of these fields.
pub(crate) fn add_contact<A: Allocator>(
    layout: &Layout<A>,
    draft: &mut Draft<A>,
    fields: &[&[u8]],
) -> Result<(), LineRefusal>
    ensures { Makes (spec.with_fields layout.now draft.old (texts fields.now)) draft.new result }
{
    if fields.len() != 3 {
        return Err(LineRefusal::Fault(PlanFault::Fields));
    }
    let normal = next_normal(layout.status(), draft.contacts.len(), field_at(fields, 0))?;
    let contact = contact_of(draft.blocks.len(), fields, normal)?;
    draft.contacts.push(contact)?;
    Ok(())
}
