//! What the status channels of a record told around a fault, by their names.

use crate::faults::role::{Role, role_of};
use comtrade_analysis::{Event, events_of};
use comtrade_format::File;
use comtrade_values::Memory;
use std::alloc::Allocator;

/// What a change of a status channel tells.
#[derive(Clone, Copy, Debug, PartialEq, Eq)]
pub(crate) enum Sign {
    Start,
    Trip,
    /// The breaker's contact says that it is open.
    Opened,
    /// It says that it is closed again, or a close command is given.
    Reclosed,
}

/// A change of a status channel that tells something. Both count from 0.
#[derive(Clone, Copy, Debug, PartialEq, Eq)]
pub(crate) struct Told {
    pub(crate) sign: Sign,
    pub(crate) channel: usize,
    pub(crate) row: usize,
}

/// What a change to this state tells of a channel with such a role. A command is given where the
/// state is not the normal one.
fn sign_of(role: Role, closed: bool, normal: bool) -> Option<Sign> {
    let state = match role {
        Role::Start | Role::Trip | Role::Reclose => closed != normal,
        Role::Open | Role::Closed => closed,
    };
    match (role, state) {
        (Role::Start, true) => Some(Sign::Start),
        (Role::Trip, true) => Some(Sign::Trip),
        (Role::Open, true) | (Role::Closed, false) => Some(Sign::Opened),
        (Role::Open, false) | (Role::Closed, true) | (Role::Reclose, true) => Some(Sign::Reclosed),
        _ => None,
    }
}

/// What an event tells, by the name of its channel.
fn told_by<A: Allocator>(file: &File<A>, event: Event) -> Option<Told> {
    let channel = file.head.status.items().get(event.channel)?;
    let sign = sign_of(role_of(channel.id.items())?, event.closed, channel.normal)?;
    Some(Told {
        sign,
        channel: event.channel,
        row: event.row,
    })
}

/// All that the status channels of a record told, in the order of its rows.
pub(crate) fn told_in<A: Allocator + Copy>(
    alloc: A,
    file: &File<A>,
) -> Result<Vec<Told, A>, Memory> {
    let mut list = Vec::new(alloc);
    let contacts = file.head.status.items().len();
    for event in events_of(alloc, file.rows.items(), contacts)?.iter() {
        if let Some(told) = told_by(file, *event) {
            list.push(told)?;
        }
    }
    Ok(list)
}

/// The first such sign from a row on and before another.
pub(crate) fn first_told(list: &[Told], sign: Sign, from: usize, to: usize) -> Option<Told> {
    for told in list {
        if told.sign == sign && from <= told.row && told.row < to {
            return Some(*told);
        }
    }
    None
}
