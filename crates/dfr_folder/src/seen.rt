//! Which files there are, as a list.

ghost use Rattle.std.specs.Prelude.{◌≡◌, ◌⊎◌, ◌&&◌, Some, None, is_some, true, false, OnOk, OnErr, IfOk, IfErr, List, Contains, All};
ghost use Rattle.dfr_folder.specs.declared.name.Name.{Name};
ghost use Rattle.dfr_folder.specs.declared.name.Ending.TheVariants as ending;
ghost use Rattle.dfr_folder.specs.Pairs.{name as named, is_leftover as leftover};
ghost use Rattle.dfr_folder.specs.Found.{AreAll};
ghost use Rattle.dfr_folder.specs.Events.{is_not_false, ending_number, same_name, state_of};

use crate::directory::Fault;
use crate::name::{Ending, Key, Name, Names, Seen};
use crate::system::System;
use std::alloc::{AllocError, Global};

/// The number of an ending.
fn number_of(ending: Ending) -> u8
    ensures { result ≡ ending_number ending }
{
    match ending {
        Ending::Config => 0,
        Ending::Data => 1,
        Ending::ConfigPart => 2,
        Ending::DataPart => 3,
        Ending::Gone => 4,
    }
}

/// Whether two names are the same.
#[tactic(auto, unfolding(crate::specs::Events::same_name))]
fn is_same(a: Name, b: Name) -> bool
    ensures { result ≡ same_name a b }
{
    a.key.date == b.key.date
        && a.key.time == b.key.time
        && a.key.micros == b.key.micros
        && a.key.number == b.key.number
        && a.key.copy == b.key.copy
        && number_of(a.ending) == number_of(b.ending)
}

/// Whether a file of this name is among them, and whether its bytes are on the disk.
pub(crate) fn state_in(names: &[Seen], name: Name) -> Option<bool>
    ensures { result ≡ state_of names.now name }
{
    for seen in names {
        if is_same(seen.name, name) {
            return Some(seen.synced);
        }
    }
    None
}

/// Takes a name off the list.
pub(crate) fn forget(names: &mut Vec<Seen>, name: Name)
    ensures gone { state_of names.new.items name ≡ None }
    ensures elsewhere { (n : Name) → (n ≡ name → ⊥)
        → state_of names.new.items n ≡ state_of names.old.items n }
{
    names.retain(|seen| !is_same(seen.name, name));
}

/// Adds a name that is not on the list.
pub(crate) fn add(names: &mut Vec<Seen>, name: Name, synced: bool) -> Result<(), AllocError>
    requires new { state_of names.old.items name ≡ None }
    ensures there { OnOk result (state_of names.new.items name ≡ Some synced) }
    ensures elsewhere { (n : Name) → (n ≡ name → ⊥)
        → state_of names.new.items n ≡ state_of names.old.items n }
    ensures err { OnErr result (names.new.items ≡ names.old.items) }
{
    names.push(Seen { name, synced })?;
    Ok(())
}

/// Whether a file of this ending is one that is being written or removed.
fn is_leftover(ending: Ending) -> bool
    ensures { result ≡ leftover ending }
{
    match ending {
        Ending::Config | Ending::Data => false,
        Ending::ConfigPart | Ending::DataPart | Ending::Gone => true,
    }
}

/// The keys of the files that are being written or removed.
pub(crate) fn leftovers_in(alloc: Global, names: &[Seen]) -> Result<Vec<Key>, AllocError>
    ensures { IfOk result (λ keys. (n : Name) → leftover n.ending ≡ true
        → (state_of names.now n ≡ None → ⊥) → Contains keys.items n.key) }
{
    let mut keys = Vec::new(alloc);
    for seen in names {
        if !is_leftover(seen.name.ending) {
            continue;
        }
        keys.push(seen.name.key)?;
    }
    Ok(keys)
}

/// Which files of a key there are.
pub(crate) fn names_in(names: &[Seen], key: Key) -> Names
    ensures cfg { result.cfg ≡ is_some (state_of names.now (named key ending.Config)) }
    ensures dat { result.dat ≡ is_some (state_of names.now (named key ending.Data)) }
    ensures cfg_part { result.cfg_part ≡ is_some (state_of names.now (named key ending.ConfigPart)) }
    ensures dat_part { result.dat_part ≡ is_some (state_of names.now (named key ending.DataPart)) }
    ensures gone { result.gone ≡ is_some (state_of names.now (named key ending.Gone)) }
{
    let is_there = |ending: Ending| state_in(names, Name { key, ending }).is_some();
    Names {
        cfg: is_there(Ending::Config),
        dat: is_there(Ending::Data),
        cfg_part: is_there(Ending::ConfigPart),
        dat_part: is_there(Ending::DataPart),
        gone: is_there(Ending::Gone),
    }
}

/// Whether the bytes of each file of a key are on the disk.
pub(crate) fn are_synced_in(names: &[Seen], key: Key) -> bool
    ensures { result ≡ (is_not_false (state_of names.now (named key ending.Config))
        && is_not_false (state_of names.now (named key ending.Data))
        && is_not_false (state_of names.now (named key ending.ConfigPart))
        && is_not_false (state_of names.now (named key ending.DataPart))
        && is_not_false (state_of names.now (named key ending.Gone))) }
{
    is_synced(names, key, Ending::Config)
        && is_synced(names, key, Ending::Data)
        && is_synced(names, key, Ending::ConfigPart)
        && is_synced(names, key, Ending::DataPart)
        && is_synced(names, key, Ending::Gone)
}

/// Whether the bytes of a file are on the disk, or there is no such file.
fn is_synced(names: &[Seen], key: Key, ending: Ending) -> bool
    ensures { result ≡ is_not_false (state_of names.now (named key ending)) }
{
    match state_in(names, Name { key, ending }) {
        Some(synced) => synced,
        None => true,
    }
}

/// The files of a folder, and whether the bytes of each are on the disk.
#[derive(Drop)]
pub(crate) struct Found {
    pub(crate) names: Vec<Seen>,
    pub(crate) are_synced: bool,
}

/// Adds a file.
fn add_found(found: &mut Found, name: Name, synced: bool) -> Result<(), AllocError>
    requires { AreAll found.old }
    ensures { OnOk result (AreAll found.new) }
{
    found.names.push(Seen { name, synced })?;
    found.are_synced = found.are_synced & synced;
    Ok(())
}

/// The files of a folder. Those whose bytes may not be on the disk are synced, if that is possible.
pub(crate) fn found_in<C: System>(alloc: Global, system: &mut C) -> Result<Found, Fault>
    ensures { IfOk result AreAll }
{
    let names = system.list(alloc)?;
    let mut found = Found {
        names: Vec::new(alloc),
        are_synced: true,
    };
    for seen in &names {
        let synced = seen.synced || system.sync(seen.name).is_ok();
        match add_found(&mut found, seen.name, synced) {
            Ok(()) => {}
            Err(_) => return Err(Fault::Memory),
        }
    }
    Ok(found)
}

/// Writes a file that is not on the list. After an error of the system it is on the list.
pub(crate) fn write_in<C: System>(
    system: &mut C,
    names: &mut Vec<Seen>,
    name: Name,
    bytes: &[u8],
) -> Result<(), Fault>
    requires new { state_of names.old.items name ≡ None }
    ensures there { OnOk result (state_of names.new.items name ≡ Some false) }
    ensures part { IfErr result (λ fault. (fault ≡ Fault.Memory)
        ⊎ (state_of names.new.items name ≡ Some false)) }
    ensures elsewhere { (n : Name) → (n ≡ name → ⊥)
        → state_of names.new.items n ≡ state_of names.old.items n }
{
    if add(names, name, false).is_err() {
        return Err(Fault::Memory);
    }
    system.write(name, bytes)
}

/// Removes a file.
pub(crate) fn remove_in<C: System>(
    system: &mut C,
    names: &mut Vec<Seen>,
    name: Name,
) -> Result<(), Fault>
    ensures gone { OnOk result (state_of names.new.items name ≡ None) }
    ensures elsewhere { (n : Name) → (n ≡ name → ⊥)
        → state_of names.new.items n ≡ state_of names.old.items n }
    ensures err { OnErr result ((n : Name)
        → state_of names.new.items n ≡ state_of names.old.items n) }
{
    system.remove(name)?;
    forget(names, name);
    Ok(())
}

/// Notes that the bytes of a file are on the disk.
fn note_sync(names: &mut [Seen], name: Name)
    requires there { state_of names.old name ≡ None → ⊥ }
    ensures there { state_of names.new name ≡ Some true }
    ensures elsewhere { (n : Name) → (n ≡ name → ⊥)
        → state_of names.new n ≡ state_of names.old n }
{
    for seen in names.iter_mut() {
        if is_same(seen.name, name) {
            seen.synced = true;
            return;
        }
    }
}

/// Syncs a file that is on the list. After an error the list is as it was.
pub(crate) fn sync_in<C: System>(
    system: &mut C,
    names: &mut Vec<Seen>,
    name: Name,
) -> Result<(), Fault>
    requires there { state_of names.old.items name ≡ None → ⊥ }
    ensures there { OnOk result (state_of names.new.items name ≡ Some true) }
    ensures elsewhere { (n : Name) → (n ≡ name → ⊥)
        → state_of names.new.items n ≡ state_of names.old.items n }
    ensures err { OnErr result (names.new.items ≡ names.old.items) }
{
    system.sync(name)?;
    note_sync(names, name);
    Ok(())
}

/// Renames a file to a name that is not on the list.
pub(crate) fn rename_in<C: System>(
    system: &mut C,
    names: &mut Vec<Seen>,
    from: Name,
    to: Name,
) -> Result<(), Fault>
    requires new { state_of names.old.items to ≡ None }
    ensures there { OnOk result (state_of names.new.items to ≡ state_of names.old.items from) }
    ensures left { OnOk result (state_of names.new.items from ≡ None) }
    ensures elsewhere { (n : Name) → (n ≡ from → ⊥) → (n ≡ to → ⊥)
        → state_of names.new.items n ≡ state_of names.old.items n }
    ensures err { OnErr result ((n : Name)
        → state_of names.new.items n ≡ state_of names.old.items n) }
{
    let Some(synced) = state_in(names, from) else {
        return Err(Fault::Failed);
    };
    if add(names, to, synced).is_err() {
        return Err(Fault::Memory);
    }
    match system.rename(from, to) {
        Ok(()) => {
            forget(names, from);
            Ok(())
        }
        Err(fault) => {
            forget(names, to);
            Err(fault)
        }
    }
}
