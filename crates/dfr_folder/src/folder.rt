//! The folder of records: whatever stops the program, each configuration file has its whole pair.

ghost use Rattle.std.specs.Prelude.{◌≡◌, ◌⊎◌, ◌≤◌, ◌∷◌, ◌++◌, ℕ, List, length, None, Some, OnOk, Contains};
ghost use Rattle.dfr_folder.specs.declared.name.Ending.{Ending};
ghost use Rattle.dfr_folder.specs.declared.name.Key.{Key};
ghost use Rattle.dfr_folder.specs.declared.name.Name.{Name};
ghost use Rattle.dfr_folder.specs.Directory.{Content, IsSettled, LeavesNow, LeavesOnly, HasCause};
ghost use Rattle.dfr_folder.specs.Pairs.{AllMend, AllWhole, AreSynced, Beside, GivesUp, IsAtRest, IsDistinct, IsFree, IsNoneOr, IsTidy, MendsOne, Rests, found, pair, recovered, seen, tidied, under};

use crate::directory::{Directory, Fault};
use crate::name::Key;
use crate::pairs::write_pair;
use crate::recovery::tidy_all;
use crate::removal::remove_pair;
use std::alloc::Global;

/// Puts a pair into the folder under a key that is not in use. At `Ok` the pair is there for good.
pub fn put<D: Directory>(directory: &mut D, key: Key, cfg: &[u8], dat: &[u8]) -> Result<(), Fault>
    requires free { IsFree D.files D.may_leave directory.old key }
    // If each pair was whole before, a crash at any moment leaves whole pairs, this one among them
    // or not.
    ensures whole { (records : List (Key × List ℕ × List ℕ))
        → LeavesNow (D.may_leave directory.old) (AllWhole records)
        → LeavesOnly D.may_leave D.left_since directory.old directory.new
        (AllWhole ((key, cfg.now, dat.now) ∷ records)) }
    // A crash at any moment leaves the whole pair or none, and all other files as before the call.
    ensures any_moment { LeavesOnly D.may_leave D.left_since directory.old directory.new
        (Beside D.may_leave directory.old key (IsNoneOr (Some (cfg.now, Some dat.now)))) }
    ensures stored { OnOk result (Rests D.files D.may_leave directory.new key
        (pair cfg.now dat.now)) }
    ensures settled { OnOk result (IsSettled D.files D.may_leave directory.new) }
    ensures elsewhere { (n : Name) → (n.key ≡ key → ⊥)
        → D.files directory.new n ≡ D.files directory.old n }
    // It doesn't give up by itself.
    ensures cause { HasCause (D.failures directory.old) (D.failures directory.new) result }
{
    write_pair(directory, key, cfg, dat)
}

/// Gives up a pair. After an error it may be there, or not.
pub fn give_up<D: Directory>(directory: &mut D, key: Key) -> Result<(), Fault>
    requires rests { IsAtRest D.files D.may_leave directory.old key }
    requires tidy { IsTidy (seen D.files directory.old key) }
    // If each pair was whole before, a crash at any moment leaves whole pairs.
    ensures whole { (records : List (Key × List ℕ × List ℕ))
        → LeavesNow (D.may_leave directory.old) (AllWhole records)
        → LeavesOnly D.may_leave D.left_since directory.old directory.new (AllWhole records) }
    // A crash at any moment leaves the whole pair or none, and all other files as before the call.
    ensures any_moment { LeavesOnly D.may_leave D.left_since directory.old directory.new
        (Beside D.may_leave directory.old key (IsNoneOr (found (seen D.files directory.old key)))) }
    ensures gone { OnOk result ((c : Content) → D.may_leave directory.new c
        → (found (under c key) ≡ None) × (recovered (under c key) ≡ None)) }
    ensures seen { OnOk result ((end : Ending) → seen D.files directory.new key end ≡ None) }
    ensures elsewhere { (n : Name) → (n.key ≡ key → ⊥)
        → D.files directory.new n ≡ D.files directory.old n }
    // It doesn't give up by itself.
    ensures cause { HasCause (D.failures directory.old) (D.failures directory.new) result }
{
    remove_pair(directory, key)
}

/// Gives up the oldest pairs, the first of the list, until it has at most so many. After an error
/// the pair that was to go is off the list too: it may be there, or not.
pub fn keep<D: Directory>(directory: &mut D, keys: &mut Vec<Key>, most: usize) -> Result<(), Fault>
    requires differ { IsDistinct keys.old.items }
    requires rests { (key : Key) → Contains keys.old.items key → IsAtRest D.files
        D.may_leave directory.old key }
    requires tidy { (key : Key) → Contains keys.old.items key → IsTidy (seen
        D.files directory.old key) }
    // If each pair was whole before, a crash at any moment leaves whole pairs.
    ensures whole { (records : List (Key × List ℕ × List ℕ))
        → LeavesNow (D.may_leave directory.old) (AllWhole records)
        → LeavesOnly D.may_leave D.left_since directory.old directory.new (AllWhole records) }
    // At any moment the pairs that are gone are the oldest.
    ensures any_moment { LeavesOnly D.may_leave D.left_since directory.old directory.new
        (GivesUp D.files D.may_leave directory.old keys.old.items) }
    ensures oldest { (front : List Key) × (keys.old.items ≡ front ++ keys.new.items) }
    ensures enough { OnOk result (length keys.new.items ≤ most) }
    // It doesn't give up by itself.
    ensures cause { HasCause (D.failures directory.old) (D.failures directory.new) result }
{
    while most < keys.len() {
        let key = keys.remove(0);
        give_up(directory, key)?;
    }
    Ok(())
}

/// Completes or removes whatever a crash left in the folder. It may crash too.
pub fn recover<D: Directory>(directory: &mut D, alloc: Global) -> Result<(), Fault>
    // The bytes of each file are on the disk, as after a restart. The names need not be.
    requires synced { (key : Key) → AreSynced D.files directory.old key }
    // If each pair was whole before, a crash at any moment leaves whole pairs.
    ensures whole { (records : List (Key × List ℕ × List ℕ))
        → LeavesNow (D.may_leave directory.old) (AllWhole records)
        → LeavesOnly D.may_leave D.left_since directory.old directory.new (AllWhole records) }
    // A crash at any moment leaves what it might have left before, or what recovery makes the same
    // of as of what is seen.
    ensures any_moment { LeavesOnly D.may_leave D.left_since directory.old directory.new
        (λ c. D.may_leave directory.old c ⊎ AllMend D.files directory.old c) }
    // That is also the same as of what a crash might have left before.
    ensures from { LeavesOnly D.may_leave D.left_since directory.old directory.new (MendsOne
        D.may_leave directory.old) }
    ensures rests { OnOk result ((key : Key) → IsAtRest D.files D.may_leave directory.new key) }
    // No leftover stays.
    ensures clean { OnOk result ((key : Key) (end : Ending)
        → seen D.files directory.new key end ≡ tidied (seen D.files directory.old key) end) }
    // It doesn't give up by itself, whatever it finds.
    ensures cause { HasCause (D.failures directory.old) (D.failures directory.new) result }
{
    directory.sync_names()?;
    tidy_all(directory, alloc)?;
    Ok(())
}
