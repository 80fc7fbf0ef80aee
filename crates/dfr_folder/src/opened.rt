//! What is done with what a crash or a call that failed left of pairs.

ghost use Rattle.std.specs.Prelude.{◌≡◌, ◌⊎◌, ◌≤◌, ◌↔◌, ◌∷◌, ℕ, List, true, None, IfOk, OnOk};
ghost use Rattle.dfr_folder.specs.declared.directory.Fault.{Fault};
ghost use Rattle.dfr_folder.specs.declared.name.Ending.{Ending};
ghost use Rattle.dfr_folder.specs.declared.name.Ending.TheVariants as ending;
ghost use Rattle.dfr_folder.specs.declared.name.Key.{Key};
ghost use Rattle.dfr_folder.specs.declared.name.Name.{Name};
ghost use Rattle.dfr_folder.specs.Directory.{Content, IsKept, IsSettled, LeavesNow, LeavesOnly, HasCause};
ghost use Rattle.dfr_folder.specs.Events.{failed, left_since};
ghost use Rattle.dfr_folder.specs.Opened.{HasNoLeftover, log_of, names_of};
ghost use Rattle.dfr_folder.specs.Pairs.{AllWhole, AreSynced, Mends, MendsOne, OthersStay, Rests, found, is_leftover, name as named, pair, seen, tidied, under};

use crate::checked::{discard_next, put_new};
use crate::directory::{Directory, Fault};
use crate::folder::recover;
use crate::name::{Ending, Key, Name};
use crate::recorded::Recorded;
use crate::recovery::tidy;
use crate::system::{Start, System};
use std::alloc::Global;

/// Removes what was being written under a key.
fn drop_parts<D: Directory>(directory: &mut D, key: Key) -> Result<(), Fault>
    ensures whole { (records : List (Key × List ℕ × List ℕ))
        → LeavesNow (D.may_leave directory.old) (AllWhole records)
        → LeavesOnly D.may_leave D.left_since directory.old directory.new (AllWhole records) }
    ensures others { LeavesOnly D.may_leave D.left_since directory.old directory.new
        (OthersStay D.may_leave directory.old key) }
    ensures config { D.files directory.new (named key ending.Config)
        ≡ D.files directory.old (named key ending.Config) }
    ensures settled { OnOk result (IsSettled D.files D.may_leave directory.new) }
    ensures elsewhere { (n : Name) → (n.key ≡ key → ⊥)
        → D.files directory.new n ≡ D.files directory.old n }
    ensures cause { HasCause (D.failures directory.old) (D.failures directory.new) result }
{
    let cfg_part = Name {
        key,
        ending: Ending::ConfigPart,
    };
    directory.remove(cfg_part)?;
    let dat_part = Name {
        key,
        ending: Ending::DataPart,
    };
    directory.remove(dat_part)?;
    directory.sync_names()
}

/// What was made of the rest of a pair.
#[derive(Clone, Copy, Debug, PartialEq, Eq)]
pub enum Mended {
    /// There is a pair, for good.
    There,
    /// There is none.
    Gone,
    /// Nothing is done: a file has its name, and the bytes of another may not be on the disk. That one
    /// may be its other half.
    Left,
}

/// Completes or removes what a crash or a call that failed left of a pair.
pub fn mend<D: Directory>(directory: &mut D, key: Key) -> Result<Mended, Fault>
    // If each pair was whole before, a crash at any moment leaves whole pairs.
    ensures whole { (records : List (Key × List ℕ × List ℕ))
        → LeavesNow (D.may_leave directory.old) (AllWhole records)
        → LeavesOnly D.may_leave D.left_since directory.old directory.new (AllWhole records) }
    // A crash at any moment leaves all other files as before the call.
    ensures others { LeavesOnly D.may_leave D.left_since directory.old directory.new
        (OthersStay D.may_leave directory.old key) }
    // It recovers the pair, if the bytes of its files are on the disk.
    ensures tidied { IfOk result (λ mended. AreSynced D.files directory.old key
        → (end : Ending) → seen D.files directory.new key end
        ≡ tidied (seen D.files directory.old key) end) }
    ensures there { IfOk result (λ mended. mended ≡ Mended.There
        → (c : Content) → D.may_leave directory.new c → found (under c key) ≡ None → ⊥) }
    ensures none { IfOk result (λ mended. mended ≡ Mended.Gone
        → (c : Content) → D.may_leave directory.new c → found (under c key) ≡ None) }
    ensures left { IfOk result (λ mended. mended ≡ Mended.Left
        → IsKept D.files D.may_leave directory.old directory.new) }
    ensures elsewhere { (n : Name) → (n.key ≡ key → ⊥)
        → D.files directory.new n ≡ D.files directory.old n }
    // It doesn't give up by itself.
    ensures cause { HasCause (D.failures directory.old) (D.failures directory.new) result }
{
    if !directory.are_synced(key)? {
        let there = directory.look(key)?;
        if there.cfg || there.dat {
            return Ok(Mended::Left);
        }
        drop_parts(directory, key)?;
        return Ok(Mended::Gone);
    }
    directory.sync_names()?;
    tidy(directory, key)?;
    let names = directory.look(key)?;
    if names.cfg {
        return Ok(Mended::There);
    }
    Ok(Mended::Gone)
}

/// What became of a pair that was to be put.
#[derive(Clone, Copy, Debug, PartialEq, Eq)]
pub enum Put {
    /// It is there for good.
    There,
    /// It is there for good, though a call failed.
    Completed(Fault),
    /// Its key is in use.
    Taken,
    /// A call failed, and there is no pair.
    Failed(Fault),
    /// A call failed, and files may be left. `mend` completes or removes them.
    Left(Fault),
}

/// Puts a pair into the folder, if its key is free. If that fails, completes or removes what is
/// left of it.
pub fn put_or_mend<D: Directory>(directory: &mut D, key: Key, cfg: &[u8], dat: &[u8]) -> Put
    // If each pair was whole before, a crash at any moment leaves whole pairs, this one among them
    // or not.
    ensures whole { (records : List (Key × List ℕ × List ℕ))
        → LeavesNow (D.may_leave directory.old) (AllWhole records)
        → LeavesOnly D.may_leave D.left_since directory.old directory.new
        (AllWhole ((key, cfg.now, dat.now) ∷ records)) }
    // A crash at any moment leaves all other files as before the call.
    ensures others { LeavesOnly D.may_leave D.left_since directory.old directory.new
        (OthersStay D.may_leave directory.old key) }
    // If no call fails, it is put exactly if there is no file of the key.
    ensures able { D.failures directory.new ≤ D.failures directory.old → (result ≡ Put.There)
        ↔ ((end : Ending) → D.files directory.old (named key end) ≡ None) }
    ensures stored { result ≡ Put.There
        → Rests D.files D.may_leave directory.new key (pair cfg.now dat.now) }
    ensures settled { result ≡ Put.There → IsSettled D.files D.may_leave directory.new }
    ensures taken { result ≡ Put.Taken → IsKept D.files D.may_leave directory.old directory.new
        × (((end : Ending) → D.files directory.old (named key end) ≡ None) → ⊥) }
    ensures completed { (fault : Fault) → result ≡ Put.Completed fault
        → (c : Content) → D.may_leave directory.new c → found (under c key) ≡ None → ⊥ }
    ensures failed { (fault : Fault) → result ≡ Put.Failed fault
        → (c : Content) → D.may_leave directory.new c → found (under c key) ≡ None }
    ensures later { D.failures directory.old ≤ D.failures directory.new }
    ensures elsewhere { (n : Name) → (n.key ≡ key → ⊥)
        → D.files directory.new n ≡ D.files directory.old n }
{
    match put_new(directory, key, cfg, dat) {
        Ok(true) => Put::There,
        Ok(false) => Put::Taken,
        Err(fault) => match mend(directory, key) {
            Ok(Mended::There) => Put::Completed(fault),
            Ok(Mended::Gone) => Put::Failed(fault),
            Ok(Mended::Left) => Put::Left(fault),
            Err(_) => Put::Left(fault),
        },
    }
}

/// Puts a pair as `put_or_mend` does, and then gives up another one, for which the folder need not be
/// synced again. Returns whether that was done. It isn't tried if a call failed before.
pub fn put_for<D: Directory>(
    directory: &mut D,
    key: Key,
    cfg: &[u8],
    dat: &[u8],
    oldest: Key,
) -> (Put, bool)
    // If each pair was whole before, a crash at any moment leaves whole pairs, this one among them
    // or not.
    ensures whole { (records : List (Key × List ℕ × List ℕ))
        → LeavesNow (D.may_leave directory.old) (AllWhole records)
        → LeavesOnly D.may_leave D.left_since directory.old directory.new
        (AllWhole ((key, cfg.now, dat.now) ∷ records)) }
    // At any moment the new pair is there, or all others are as before the call.
    ensures first { (key ≡ oldest → ⊥) → LeavesOnly D.may_leave D.left_since
        directory.old directory.new (λ c. OthersStay D.may_leave directory.old key c
        ⊎ ((end : Ending) → c (named key end) ≡ pair cfg.now dat.now end)) }
    ensures able { D.failures directory.new ≤ D.failures directory.old → (result.0 ≡ Put.There)
        ↔ ((end : Ending) → D.files directory.old (named key end) ≡ None) }
    ensures stored { (key ≡ oldest → ⊥) → result.0 ≡ Put.There
        → Rests D.files D.may_leave directory.new key (pair cfg.now dat.now) }
    // If the new pair isn't there, no other is given up.
    ensures kept { (result.0 ≡ Put.There → ⊥) → (n : Name) → (n.key ≡ key → ⊥)
        → D.files directory.new n ≡ D.files directory.old n }
    ensures taken { result.0 ≡ Put.Taken → IsKept D.files D.may_leave directory.old directory.new
        × (((end : Ending) → D.files directory.old (named key end) ≡ None) → ⊥) }
    ensures completed { (fault : Fault) → result.0 ≡ Put.Completed fault
        → (c : Content) → D.may_leave directory.new c → found (under c key) ≡ None → ⊥ }
    ensures failed { (fault : Fault) → result.0 ≡ Put.Failed fault
        → (c : Content) → D.may_leave directory.new c → found (under c key) ≡ None }
    ensures gone { result.1 ≡ true → (c : Content) → D.may_leave directory.new c
        → found (under c oldest) ≡ None }
    ensures elsewhere { (n : Name) → (n.key ≡ key → ⊥) → (n.key ≡ oldest → ⊥)
        → D.files directory.new n ≡ D.files directory.old n }
{
    match put_or_mend(directory, key, cfg, dat) {
        Put::There => match discard_next(directory, oldest) {
            Ok(is_gone) => (Put::There, is_gone),
            Err(_) => (Put::There, false),
        },
        put => (put, false),
    }
}

/// Completes or removes what is left of each pair by itself. What can't be done is left.
fn mend_each<D: Directory>(directory: &mut D, alloc: Global)
    ensures whole { (records : List (Key × List ℕ × List ℕ))
        → LeavesNow (D.may_leave directory.old) (AllWhole records)
        → LeavesOnly D.may_leave D.left_since directory.old directory.new (AllWhole records) }
    ensures later { D.failures directory.old ≤ D.failures directory.new }
{
    let Ok(mut keys) = directory.leftovers(alloc) else {
        return;
    };
    while let Some(key) = keys.pop() {
        let _ = mend(directory, key);
    }
}

/// Completes or removes what is left of each pair. What can't be done is left.
fn recover_all<D: Directory>(directory: &mut D, alloc: Global, are_synced: bool)
    requires synced { are_synced ≡ true → (key : Key) → AreSynced D.files directory.old key }
    ensures whole { (records : List (Key × List ℕ × List ℕ))
        → LeavesNow (D.may_leave directory.old) (AllWhole records)
        → LeavesOnly D.may_leave D.left_since directory.old directory.new (AllWhole records) }
    ensures from { are_synced ≡ true → D.failures directory.new ≤ D.failures directory.old
        → LeavesOnly D.may_leave D.left_since directory.old directory.new (MendsOne
        D.may_leave directory.old) }
    ensures clean { are_synced ≡ true → D.failures directory.new ≤ D.failures directory.old
        → (n : Name) → is_leftover n.ending ≡ true → D.files directory.new n ≡ None }
{
    if !are_synced {
        mend_each(directory, alloc);
        return;
    }
    match recover(directory, alloc) {
        Ok(()) => {}
        Err(_) => mend_each(directory, alloc),
    }
}

/// Opens a folder, and completes or removes whatever a crash left in it. A file that can't be
/// renamed or removed is left, with those of its pair. If the folder can't be read, hands it back.
pub fn open_folder<C: System, S: Start>(
    alloc: Global,
    system: C,
) -> Result<Recorded<C, S>, (Fault, C)>
    // If each pair was whole before, a crash at any moment since has left whole pairs.
    ensures whole { IfOk result (λ opened. (records : List (Key × List ℕ × List ℕ))
        → LeavesNow S.may_leave (AllWhole records)
        → LeavesNow (left_since S.bytes S.may_leave 0 (log_of opened)) (AllWhole records)) }
    // If no call failed, recovery makes the same of what a crash has left since as of what there was,
    ensures from { IfOk result (λ opened. failed (log_of opened) ≡ 0
        → LeavesNow (left_since S.bytes S.may_leave 0 (log_of opened)) (Mends S.may_leave)) }
    // and no leftover is there.
    ensures clean { IfOk result (λ opened. failed (log_of opened) ≡ 0
        → HasNoLeftover (names_of opened)) }
{
    let (mut opened, are_synced) = Recorded::open(alloc, system)?;
    recover_all(&mut opened, alloc, are_synced);
    opened.note_opened(are_synced);
    Ok(opened)
}
