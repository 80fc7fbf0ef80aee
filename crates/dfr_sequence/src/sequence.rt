//! All contacts of a recording, scan after scan.

ghost use Rattle.std.specs.Prelude.{◌≡◌, ◌≤◌, ◌+◌, ◌++◌, [], IfOk, length, map, vec_len, vec_capacity};
ghost use Rattle.dfr_sequence.specs.Contacts.{kept};
ghost use Rattle.dfr_sequence.specs.Sequences.{AreSteps, all_wanted, listed};

use crate::contact::Contact;
use crate::place::place_after;
use crate::{Change, Limit, Place};
use comtrade_values::Memory;
use std::alloc::{Allocator, Global};
use std::marker::Model;

/// Tells the changes of contacts, scan after scan, in constant time and memory for each. Contracts
/// see what it keeps of the scans so far.
#[derive(Drop)]
pub struct Sequence<A: Allocator = Global> {
    /// The number of the newest scan.
    newest: Option<u64>,
    contacts: Vec<Contact<A>, A>,
}

impl<A: Allocator> Model for Sequence<A> {
    ghost use Rattle.dfr_sequence.specs.Sequences.{Kept, kept_by};

    ghost Value = { Kept };

    ghost view = { λ a. kept_by a.newest a.contacts.items };
}

/// The contacts of which no scan has come.
fn contacts_of<A: Allocator + Copy>(
    alloc: A,
    limit: Limit,
    normal: &[bool],
) -> Result<Vec<Contact<A>, A>, Memory>
    requires some { 1 ≤ limit.most }
    ensures { IfOk result (λ made. made.items ≡ map (λ w. kept w []) (all_wanted limit 0 normal.now)) }
{
    let mut contacts = Vec::with_capacity(alloc, normal.len())?;
    for (channel, normal) in normal.iter().enumerate() {
        let contact = Contact::new(alloc, channel, limit, *normal)?;
        contacts.push(contact)?;
    }
    Ok(contacts)
}

/// Appends what is told, if anything is.
fn push_told<A: Allocator>(changes: &mut Vec<Change, A>, told: Option<Change>)
    requires { vec_len changes.old + 1 ≤ vec_capacity changes.old }
    ensures items { changes.new.items ≡ changes.old.items ++ listed told }
    ensures few { vec_len changes.new ≤ vec_len changes.old + 1 }
    ensures room { vec_capacity changes.old ≤ vec_capacity changes.new }
{
    if let Some(change) = told {
        let Ok(()) = changes.push(change) else {
            unreachable!()
        };
    }
}

/// Each contact takes in a scan. What is told of them stands after what was there.
fn step_each<A: Allocator>(
    contacts: &mut [Contact<A>],
    place: Place,
    bits: &[bool],
    changes: &mut Vec<Change, A>,
)
    requires { vec_len changes.old + length contacts.old ≤ vec_capacity changes.old }
    ensures { AreSteps contacts.old place bits.now changes.old.items changes.new.items contacts.new }
{
    for contact in contacts.iter_mut() {
        let told = contact.step(place, bits);
        push_told(changes, told);
    }
}

impl<A: Allocator + Copy> Sequence<A> {
    ghost use Rattle.std.specs.Prelude.{◌≡◌, ◌≤◌, [], OnOk, OnErr, IfOk};
    ghost use Rattle.dfr_sequence.specs.Sequences.{all_wanted, sequence, IsTold};

    /// A sequence of events of which no scan has come. A contact is told of by its number, counted
    /// from 0, and begins in its normal state.
    pub fn new(alloc: A, limit: Limit, normal: &[bool]) -> Result<Sequence<A>, Memory>
        requires some { 1 ≤ limit.most }
        ensures { IfOk result (λ made. made ≡ sequence (all_wanted limit 0 normal.now) []) }
    {
        let contacts = contacts_of(alloc, limit, normal)?;
        Ok(Sequence {
            newest: None,
            contacts,
        })
    }

    /// Takes in the bits of a scan that came, and appends what is told of the contacts at it. The
    /// numbers between those of the scans that came are those of lost scans. After `Memory` nothing
    /// has changed: the scan counts as lost.
    pub fn step(
        &mut self,
        scan: u64,
        bits: &[bool],
        changes: &mut Vec<Change, A>,
    ) -> Result<(), Memory>
        ensures ok { OnOk result (IsTold self.old scan bits.now changes.old.items changes.new.items self.new) }
        ensures err { OnErr result (self.new ≡ self.old) }
        ensures err_changes { OnErr result (changes.new.items ≡ changes.old.items) }
    {
        changes.try_reserve(self.contacts.len())?;
        let place = place_after(self.newest, scan);
        step_each(&mut self.contacts, place, bits, changes);
        self.newest = Some(scan);
        Ok(())
    }
}
