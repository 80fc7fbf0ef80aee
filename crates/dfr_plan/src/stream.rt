//! The lines of streams: `stream SVID`, or `stream APPID,MAC`.

ghost use Rattle.std.specs.Prelude.{◌≡◌};
ghost use Rattle.std.specs.List.{list_any};
ghost use Rattle.comtrade_values.specs.Lines.{texts};
ghost use Rattle.dfr_plan.specs.Refusing.{Makes};
ghost use Rattle.dfr_plan.specs.Streams as spec;

use crate::PlanFault;
use crate::address::address_of;
use crate::draft::{Draft, part, put_name};
use crate::fault::{LineRefusal, needed};
use crate::line::field_at;
use crate::number::number_of;
use dfr_capture::Key;
use std::alloc::Allocator;

/// Whether the stream has this svID.
fn is_sv_id(text: &[u8], name: &[u8], key: &Key) -> bool
    ensures { result ≡ spec.is_sv_id text.now name.now key.now }
{
    match *key {
        Key::SvId(span) => part(text, span) == name,
        Key::Source(_, _) => false,
    }
}

/// Whether the stream is of this application and address.
fn is_source(text: &[u8], app: u16, mac: &[u8], key: &Key) -> bool
    ensures { result ≡ spec.is_source text.now app mac.now key.now }
{
    match *key {
        Key::SvId(_) => false,
        Key::Source(other, span) => other == app && part(text, span) == mac,
    }
}

/// Whether a stream has this svID.
fn has_sv_id(text: &[u8], name: &[u8], streams: &[Key]) -> bool
    ensures { result ≡ list_any (spec.is_sv_id text.now name.now) streams.now }
{
    streams.iter().any(|key| is_sv_id(text, name, key))
}

/// Whether a stream is of this application and address.
fn has_source(text: &[u8], app: u16, mac: &[u8], streams: &[Key]) -> bool
    ensures { result ≡ list_any (spec.is_source text.now app mac.now) streams.now }
{
    streams.iter().any(|key| is_source(text, app, mac, key))
}

/// Why no further stream may have this svID.
fn sv_id_fault<A: Allocator>(draft: &Draft<A>, name: &[u8]) -> Option<PlanFault>
    ensures { result ≡ spec.sv_id_fault draft.now name.now }
{
    if name.is_empty() {
        Some(PlanFault::Name)
    } else if draft.streams.len() >= 256 {
        Some(PlanFault::Streams)
    } else if has_sv_id(&draft.text, name, &draft.streams) {
        Some(PlanFault::SameStream)
    } else {
        None
    }
}

/// Why no further stream may be of this application and address.
fn source_fault<A: Allocator>(draft: &Draft<A>, app: u16, mac: &[u8]) -> Option<PlanFault>
    ensures { result ≡ spec.source_fault draft.now app mac.now }
{
    if draft.streams.len() >= 256 {
        Some(PlanFault::Streams)
    } else if has_source(&draft.text, app, mac, &draft.streams) {
        Some(PlanFault::SameStream)
    } else {
        None
    }
}

/// Adds the stream of the svID in the first field.
fn add_sv_id<A: Allocator>(draft: &mut Draft<A>, fields: &[&[u8]]) -> Result<(), LineRefusal>
    ensures { Makes (spec.with_sv_id draft.old (texts fields.now)) draft.new result }
{
    let name = field_at(fields, 0);
    if let Some(fault) = sv_id_fault(draft, name) {
        return Err(LineRefusal::Fault(fault));
    }
    let span = put_name(&mut draft.text, name)?;
    draft.streams.push(Key::SvId(span))?;
    Ok(())
}

/// The number of an application.
fn app_id_of(text: &[u8]) -> Result<u16, PlanFault>
    ensures { result ≡ spec.app_id text.now }
{
    let number = needed(number_of(text), PlanFault::Number)?;
    if number <= 65535 {
        Ok(number as u16)
    } else {
        Err(PlanFault::AppId)
    }
}

/// Adds the stream of this application and address.
fn put_source<A: Allocator>(draft: &mut Draft<A>, app: u16, mac: &[u8]) -> Result<(), LineRefusal>
    ensures { Makes (spec.of_source draft.old app mac.now) draft.new result }
{
    if let Some(fault) = source_fault(draft, app, mac) {
        return Err(LineRefusal::Fault(fault));
    }
    let span = put_name(&mut draft.text, mac)?;
    draft.streams.push(Key::Source(app, span))?;
    Ok(())
}

/// Adds the stream of the application and the address in the first two fields.
fn add_source<A: Allocator>(draft: &mut Draft<A>, fields: &[&[u8]]) -> Result<(), LineRefusal>
    ensures { Makes (spec.with_source draft.old (texts fields.now)) draft.new result }
{
    let app = app_id_of(field_at(fields, 0))?;
    let mac = needed(address_of(field_at(fields, 1)), PlanFault::Address)?;
    put_source(draft, app, &mac)
}

/// Adds the stream of these fields.
pub(crate) fn add_stream<A: Allocator>(
    draft: &mut Draft<A>,
    fields: &[&[u8]],
) -> Result<(), LineRefusal>
    ensures { Makes (spec.with_fields draft.old (texts fields.now)) draft.new result }
{
    if fields.len() == 1 {
        add_sv_id(draft, fields)
    } else if fields.len() == 2 {
        add_source(draft, fields)
    } else {
        Err(LineRefusal::Fault(PlanFault::Fields))
    }
}
