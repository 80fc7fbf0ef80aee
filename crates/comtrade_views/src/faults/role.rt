//! What a status channel tells, by the words in its name.

use crate::faults::wording::has_one;

/// What a status channel tells of a fault.
#[derive(Clone, Copy, Debug, PartialEq, Eq)]
pub(crate) enum Role {
    /// A protection function has picked up.
    Start,
    /// A trip command.
    Trip,
    /// The breaker is closed (52a).
    Closed,
    /// The breaker is open (52b).
    Open,
    /// A close command of the automatic reclosing.
    Reclose,
}

/// Words of supervision and of commands that are kept back, which tell no trip, and those that say
/// that something is not so.
const NOT: [&str; 14] = [
    "block*",
    "superv*",
    "fail*",
    "alarm*",
    "circuit*",
    "no trip*",
    "not trip*",
    "non trip*",
    "no start*",
    "no pick*",
    "no reclos*",
    "not reclos*",
    "not open*",
    "not closed",
];

const RECLOSE: [&str; 5] = [
    "reclos*",
    "autoreclos*",
    "ar close",
    "79 close",
    "close cmd",
];

const TRIP: [&str; 9] = [
    "trip",
    "trips",
    "tripped",
    "tripping",
    "tripa",
    "tripb",
    "tripc",
    "intertrip*",
    "*ausl*",
];

const START: [&str; 8] = [
    "start",
    "started",
    "starting",
    "pickup",
    "pickups",
    "pick up",
    "picked up",
    "*anreg*",
];

const BREAKER: [&str; 3] = ["cb", "breaker", "52"];

/// What a status channel of this name tells; None if no word tells it.
pub(crate) fn role_of(name: &[u8]) -> Option<Role> {
    if has_one(name, &NOT) {
        return None;
    }
    if has_one(name, &RECLOSE) {
        return Some(Role::Reclose);
    }
    if has_one(name, &TRIP) {
        return Some(Role::Trip);
    }
    if has_one(name, &START) {
        return Some(Role::Start);
    }
    if has_one(name, &["52b"]) || has_one(name, &BREAKER) && has_one(name, &["open", "opened"]) {
        return Some(Role::Open);
    }
    if has_one(name, &["52a"]) || has_one(name, &BREAKER) && has_one(name, &["closed"]) {
        return Some(Role::Closed);
    }
    None
}
