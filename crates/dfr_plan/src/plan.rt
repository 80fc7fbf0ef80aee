//! The plan in the lines of a set-up below `go`.

ghost use Rattle.std.specs.Prelude.{◌≡◌, ◌≤◌, length, None, IfOk};
ghost use Rattle.comtrade_values.specs.Lines.{texts};
ghost use Rattle.dfr_bay.specs.Settings.{settings_fault};
ghost use Rattle.dfr_plan.specs.Refusing.{Makes, IsAt};
ghost use Rattle.dfr_plan.specs.Plans as spec;

use crate::contact::{add_contact, add_goose};
use crate::draft::Draft;
use crate::fault::LineRefusal;
use crate::line::{begins, is_go, is_silent, rest_of};
use crate::setting::{add_clock, add_follow, dating_in, settings_in};
use crate::stream::add_stream;
use crate::value::add_value;
use crate::{PlanFault, PlanRefusal};
use comtrade_values::{Lines, fields_of};
use dfr_bay::Settings;
use dfr_capture::{Dating, Plan};
use dfr_channels::Layout;
use std::alloc::{AllocError, Allocator};

/// The texts between the commas after the first word.
fn line_fields<'a, A: Allocator>(alloc: A, line: &'a [u8]) -> Result<Vec<&'a [u8], A>, AllocError>
    ensures { IfOk result (λ v. texts v.items ≡ spec.line_fields line.now) }
{
    fields_of(alloc, rest_of(line))
}

/// Adds a line, whose fields these are.
#[tactic(auto, unfolding(crate::specs::Plans::with_fields))]
fn add_fields<A: Allocator>(
    layout: &Layout<A>,
    draft: &mut Draft<A>,
    line: &[u8],
    fields: &[&[u8]],
) -> Result<(), LineRefusal>
    ensures { Makes (spec.with_fields layout.now draft.old line.now (texts fields.now)) draft.new result }
{
    if begins(line, "stream") {
        add_stream(draft, fields)
    } else if begins(line, "value") {
        add_value(layout, draft, fields)
    } else if begins(line, "goose") {
        add_goose(draft, fields)
    } else if begins(line, "contact") {
        add_contact(layout, draft, fields)
    } else if begins(line, "follow") {
        add_follow(layout, draft, fields)
    } else if begins(line, "clock") {
        add_clock(draft, fields)
    } else {
        Err(LineRefusal::Fault(PlanFault::Word))
    }
}

/// Adds a line.
fn add_line<A: Allocator + Copy>(
    alloc: A,
    layout: &Layout<A>,
    draft: &mut Draft<A>,
    line: &[u8],
) -> Result<(), LineRefusal>
    ensures { Makes (spec.with_line layout.now draft.old line.now) draft.new result }
{
    if is_silent(line) {
        return Ok(());
    }
    let fields = line_fields(alloc, line)?;
    add_fields(layout, draft, line, &fields)
}

/// What the lines below the first line `go` say. A refusal has the number of its line, from 1.
fn draft_of<A: Allocator + Copy>(
    alloc: A,
    layout: &Layout<A>,
    text: &[u8],
) -> Result<Draft<A>, (u64, LineRefusal)>
    ensures { IsAt (spec.said layout.now text.now) result }
{
    let mut draft = Draft::new(alloc);
    let mut lines = Lines::of(text);
    let mut number = 0;
    let mut is_below = false;
    while let Some(line) = lines.next() {
        number += 1;
        if !is_below {
            is_below = is_go(line);
        } else if let Err(refusal) = add_line(alloc, layout, &mut draft, line) {
            return Err((number, refusal));
        }
    }
    Ok(draft)
}

/// What has no line, if something hasn't.
fn missing<A: Allocator>(layout: &Layout<A>, draft: &Draft<A>) -> Option<PlanRefusal>
    ensures { result ≡ spec.missing layout.now draft.now }
{
    if draft.channels.len() < layout.analog().len() {
        Some(PlanRefusal::FewValues)
    } else if draft.contacts.len() < layout.status().len() {
        Some(PlanRefusal::FewContacts)
    } else {
        None
    }
}

/// The plan of all lines, with these settings.
fn plan_in<A: Allocator>(draft: Draft<A>, settings: Settings, dating: Dating) -> Plan<A>
    requires some { 1 ≤ length draft.streams }
    requires fits { settings_fault settings ≡ None }
    ensures { result ≡ spec.parts_with settings dating draft }
{
    Plan {
        text: draft.text,
        settings,
        dating,
        streams: draft.streams,
        channels: draft.channels,
        blocks: draft.blocks,
        contacts: draft.contacts,
    }
}

/// The plan of all lines.
fn finished<A: Allocator>(layout: &Layout<A>, draft: Draft<A>) -> Result<Plan<A>, PlanRefusal>
    ensures { result ≡ spec.finished layout.now draft }
{
    if draft.streams.is_empty() {
        return Err(PlanRefusal::NoStream);
    }
    if let Some(refusal) = missing(layout, &draft) {
        return Err(refusal);
    }
    let settings = settings_in(layout.rate(), &draft);
    let dating = dating_in(&draft);
    match settings.fault() {
        Some(fault) => Err(PlanRefusal::Rate(fault)),
        None => Ok(plan_in(draft, settings, dating)),
    }
}

/// The refusal of a line with this number.
fn refusal_of(refused: (u64, LineRefusal)) -> PlanRefusal
    ensures { result ≡ spec.refusal_at refused.0 refused.1 }
{
    match refused.1 {
        LineRefusal::Fault(fault) => PlanRefusal::Line(refused.0, fault),
        LineRefusal::Memory => PlanRefusal::Memory,
    }
}

/// The plan in the lines of a set-up below its first line `go`, over the channels of the set-up.
/// `PlanRefusal::Memory`: an allocation failed.
pub fn plan_of<A: Allocator + Copy>(
    alloc: A,
    layout: &Layout<A>,
    text: &[u8],
) -> Result<Plan<A>, PlanRefusal>
    ensures { spec.Gives (spec.planned layout.now text.now) result }
{
    match draft_of(alloc, layout, text) {
        Ok(draft) => finished(layout, draft),
        Err(refused) => Err(refusal_of(refused)),
    }
}
