//! What is told of a contact.

use crate::Place;

/// A change of a contact.
#[derive(Clone, Copy, Debug, PartialEq, Eq)]
pub struct Flip {
    /// The scan that has the new state.
    pub place: Place,
    /// The new state.
    pub on: bool,
}

/// How many changes of a contact are told at most: so many at the scans of a second.
#[derive(Clone, Copy, Debug, PartialEq, Eq)]
pub struct Limit {
    /// The most changes, at least 1.
    pub most: usize,
    /// The scans per second.
    pub rate: u32,
}

/// What is told of a contact: its newest change, and for how many changes it stands.
#[derive(Clone, Copy, Debug, PartialEq, Eq)]
pub struct Change {
    /// The contact, counted from 0.
    pub channel: usize,
    /// Its newest change.
    pub flip: Flip,
    /// How many changes are told so: those since the one that was told before, with the newest.
    /// A number above 4,294,967,295 is told as this.
    pub count: u32,
}
