//! The lines of settings: `follow LATE,REACH,CONFIRM,LIMIT` and `clock global|capture`.

ghost use Rattle.std.specs.Prelude.{◌≡◌};
ghost use Rattle.comtrade_values.specs.Lines.{texts};
ghost use Rattle.dfr_plan.specs.Refusing.{Makes};
ghost use Rattle.dfr_plan.specs.Settings as spec;

use crate::PlanFault;
use crate::draft::Draft;
use crate::fault::{LineRefusal, needed};
use crate::line::{field_at, is_word};
use crate::number::number_of;
use dfr_bay::Settings;
use dfr_capture::Dating;
use dfr_channels::Layout;
use std::alloc::Allocator;

/// How streams of this rate are followed if no line says it.
fn default_settings(rate: u32) -> Settings
    ensures { result ≡ spec.default_settings rate }
{
    let limit = (u64::from(rate) * 3 / 1000) as u32 + 1;
    Settings {
        rate,
        late: (rate / 4).max(1),
        reach: rate / 2,
        confirm: 8,
        limit,
    }
}

/// The settings, if streams can be followed by them.
fn checked(settings: Settings) -> Result<Settings, PlanFault>
    ensures { result ≡ spec.checked settings }
{
    match settings.fault() {
        None => Ok(settings),
        Some(fault) => Err(PlanFault::Follow(fault)),
    }
}

/// The number of 32 bits in field `i`.
fn number_at(fields: &[&[u8]], i: usize) -> Result<u32, PlanFault>
    ensures { result ≡ spec.number_at (texts fields.now) i }
{
    needed(number_of(field_at(fields, i)), PlanFault::Number)
}

/// The settings of these fields.
fn settings_of(rate: u32, fields: &[&[u8]]) -> Result<Settings, PlanFault>
    ensures { result ≡ spec.settings_of rate (texts fields.now) }
{
    let late = number_at(fields, 0)?;
    let reach = number_at(fields, 1)?;
    let confirm = number_at(fields, 2)?;
    let limit = number_at(fields, 3)?;
    checked(Settings {
        rate,
        late,
        reach,
        confirm,
        limit,
    })
}

/// Adds how streams are followed.
pub(crate) fn add_follow<A: Allocator>(
    layout: &Layout<A>,
    draft: &mut Draft<A>,
    fields: &[&[u8]],
) -> Result<(), LineRefusal>
    ensures { Makes (spec.with_follow layout.now draft.old (texts fields.now)) draft.new result }
{
    if draft.follow.is_some() {
        return Err(LineRefusal::Fault(PlanFault::Twice));
    }
    if fields.len() != 4 {
        return Err(LineRefusal::Fault(PlanFault::Fields));
    }
    let settings = settings_of(layout.rate(), fields)?;
    draft.follow = Some(settings);
    Ok(())
}

/// What dates the scans.
fn dating_of(fields: &[&[u8]]) -> Result<Dating, PlanFault>
    ensures { result ≡ spec.dating_of (texts fields.now) }
{
    if is_word(field_at(fields, 0), "global") {
        Ok(Dating::Synchronised)
    } else if is_word(field_at(fields, 0), "capture") {
        Ok(Dating::Stamps)
    } else {
        Err(PlanFault::Clock)
    }
}

/// Adds what dates the scans.
pub(crate) fn add_clock<A: Allocator>(
    draft: &mut Draft<A>,
    fields: &[&[u8]],
) -> Result<(), LineRefusal>
    ensures { Makes (spec.with_clock draft.old (texts fields.now)) draft.new result }
{
    if draft.dating.is_some() {
        return Err(LineRefusal::Fault(PlanFault::Twice));
    }
    if fields.len() != 1 {
        return Err(LineRefusal::Fault(PlanFault::Fields));
    }
    let dating = dating_of(fields)?;
    draft.dating = Some(dating);
    Ok(())
}

/// How streams of this rate are followed.
pub(crate) fn settings_in<A: Allocator>(rate: u32, draft: &Draft<A>) -> Settings
    ensures { result ≡ spec.settings_in rate draft.now }
{
    match draft.follow {
        Some(settings) => settings,
        None => default_settings(rate),
    }
}

/// What dates the scans.
pub(crate) fn dating_in<A: Allocator>(draft: &Draft<A>) -> Dating
    ensures { result ≡ spec.dating_in draft.now }
{
    match draft.dating {
        Some(dating) => dating,
        None => Dating::Synchronised,
    }
}
