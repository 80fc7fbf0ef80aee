//! Calls that look first whether the files of the folder allow them. Only `discard_next` has a
//! premise: that the names are on the disk.

ghost use Rattle.std.specs.Prelude.{◌≡◌, ◌⊎◌, ◌∷◌, ◌↔◌, ℕ, List, true, false, Some, None, IfOk};
ghost use Rattle.dfr_folder.specs.declared.name.Ending.{Ending};
ghost use Rattle.dfr_folder.specs.declared.name.Key.{Key};
ghost use Rattle.dfr_folder.specs.declared.name.Name.{Name};
ghost use Rattle.dfr_folder.specs.Directory.{Content, IsKept, IsSettled, LeavesNow, LeavesOnly, HasCause};
ghost use Rattle.dfr_folder.specs.Pairs.{AllWhole, AreSynced, Beside, IsAtRest, IsFree, IsNoneOr, IsTidy, IsWhole, OthersStay, Rests, found, name as named, pair, recovered, seen, under};

use crate::directory::{Directory, Fault};
use crate::folder::{give_up, put};
use crate::name::{Key, Names};

/// Whether there is a file.
fn is_used(names: Names) -> bool
    ensures cfg { result ≡ false → names.cfg ≡ false }
    ensures dat { result ≡ false → names.dat ≡ false }
    ensures cfg_part { result ≡ false → names.cfg_part ≡ false }
    ensures dat_part { result ≡ false → names.dat_part ≡ false }
    ensures gone { result ≡ false → names.gone ≡ false }
    ensures some { names.cfg ≡ false → names.dat ≡ false → names.cfg_part ≡ false
        → names.dat_part ≡ false → names.gone ≡ false → result ≡ false }
{
    names.cfg || names.dat || names.cfg_part || names.dat_part || names.gone
}

/// Whether there is a configuration file, and no file that is being written or removed.
fn is_tidy(names: Names) -> bool
    ensures cfg { result ≡ true → names.cfg ≡ true }
    ensures cfg_part { result ≡ true → names.cfg_part ≡ false }
    ensures dat_part { result ≡ true → names.dat_part ≡ false }
    ensures gone { result ≡ true → names.gone ≡ false }
    ensures all { names.cfg ≡ true → names.cfg_part ≡ false → names.dat_part ≡ false
        → names.gone ≡ false → result ≡ true }
{
    names.cfg && !names.cfg_part && !names.dat_part && !names.gone
}

/// Finds out whether a key is free. If it is, no crash leaves a file of it.
fn claim<D: Directory>(directory: &mut D, key: Key) -> Result<bool, Fault>
    ensures free { IfOk result (λ is_free. is_free ≡ true
        → IsFree D.files D.may_leave directory.new key) }
    ensures used { IfOk result (λ is_free. is_free ≡ false
        → ((end : Ending) → D.files directory.old (named key end) ≡ None) → ⊥) }
    ensures any_moment { LeavesOnly D.may_leave D.left_since directory.old directory.new
        (D.may_leave directory.old) }
    ensures same { (n : Name) → D.files directory.new n ≡ D.files directory.old n }
    ensures cause { HasCause (D.failures directory.old) (D.failures directory.new) result }
{
    let names = directory.look(key)?;
    if is_used(names) {
        return Ok(false);
    }
    directory.sync_names()?;
    Ok(true)
}

/// Finds out whether a key has a pair whose bytes are on the disk, and no other file.
fn is_whole<D: Directory>(directory: &mut D, key: Key) -> Result<bool, Fault>
    ensures synced { IfOk result (λ is_one. is_one ≡ true → AreSynced D.files directory.new key) }
    ensures tidy { IfOk result (λ is_one. is_one ≡ true → IsTidy (seen D.files directory.new key)) }
    ensures exact { IfOk result (λ is_one. (is_one ≡ true) ↔ IsWhole D.files directory.old key) }
    ensures any_moment { LeavesOnly D.may_leave D.left_since directory.old directory.new
        (D.may_leave directory.old) }
    ensures same { (n : Name) → D.files directory.new n ≡ D.files directory.old n }
    ensures cause { HasCause (D.failures directory.old) (D.failures directory.new) result }
{
    let names = directory.look(key)?;
    let are_synced = directory.are_synced(key)?;
    Ok(is_tidy(names) & are_synced)
}

/// Finds out whether a key has a pair that is on the disk under its names, and no other file.
fn is_resting<D: Directory>(directory: &mut D, key: Key) -> Result<bool, Fault>
    ensures rests { IfOk result (λ is_one. is_one ≡ true
        → IsAtRest D.files D.may_leave directory.new key) }
    ensures tidy { IfOk result (λ is_one. is_one ≡ true → IsTidy (seen D.files directory.new key)) }
    ensures exact { IfOk result (λ is_one. (is_one ≡ true) ↔ IsWhole D.files directory.old key) }
    ensures any_moment { LeavesOnly D.may_leave D.left_since directory.old directory.new
        (D.may_leave directory.old) }
    ensures same { (n : Name) → D.files directory.new n ≡ D.files directory.old n }
    ensures cause { HasCause (D.failures directory.old) (D.failures directory.new) result }
{
    if !is_whole(directory, key)? {
        return Ok(false);
    }
    directory.sync_names()?;
    Ok(true)
}

/// Puts a pair into the folder, if its key is free. Returns false if it isn't. At `Ok(true)` the
/// pair is there for good. After an error `mend` completes it, or removes what is left.
pub fn put_new<D: Directory>(
    directory: &mut D,
    key: Key,
    cfg: &[u8],
    dat: &[u8],
) -> Result<bool, Fault>
    // If each pair was whole before, a crash at any moment leaves whole pairs, this one among them
    // or not.
    ensures whole { (records : List (Key × List ℕ × List ℕ))
        → LeavesNow (D.may_leave directory.old) (AllWhole records)
        → LeavesOnly D.may_leave D.left_since directory.old directory.new
        (AllWhole ((key, cfg.now, dat.now) ∷ records)) }
    // A crash at any moment leaves what it might have left before; or the whole pair or none, and all
    // other files as before the call.
    ensures any_moment { LeavesOnly D.may_leave D.left_since directory.old directory.new
        (λ c. D.may_leave directory.old c ⊎ Beside D.may_leave directory.old key (IsNoneOr
        (Some (cfg.now, Some dat.now))) c) }
    ensures stored { IfOk result (λ is_put. is_put ≡ true
        → Rests D.files D.may_leave directory.new key (pair cfg.now dat.now)) }
    // It is put exactly if there is no file of the key. If not, nothing is done.
    ensures able { IfOk result (λ is_put. (is_put ≡ true)
        ↔ ((end : Ending) → D.files directory.old (named key end) ≡ None)) }
    ensures refused { IfOk result (λ is_put. is_put ≡ false → IsKept D.files D.may_leave
        directory.old directory.new) }
    ensures settled { IfOk result (λ is_put. is_put ≡ true
        → IsSettled D.files D.may_leave directory.new) }
    ensures elsewhere { (n : Name) → (n.key ≡ key → ⊥)
        → D.files directory.new n ≡ D.files directory.old n }
    // It doesn't give up by itself.
    ensures cause { HasCause (D.failures directory.old) (D.failures directory.new) result }
{
    if !claim(directory, key)? {
        return Ok(false);
    }
    put(directory, key, cfg, dat)?;
    Ok(true)
}

/// Gives up a pair, if it is on the disk and no other file of its key is there. Returns false if
/// not. After an error it may be there, or not.
pub fn discard<D: Directory>(directory: &mut D, key: Key) -> Result<bool, Fault>
    // If each pair was whole before, a crash at any moment leaves whole pairs.
    ensures whole { (records : List (Key × List ℕ × List ℕ))
        → LeavesNow (D.may_leave directory.old) (AllWhole records)
        → LeavesOnly D.may_leave D.left_since directory.old directory.new (AllWhole records) }
    // A crash at any moment leaves all other files as before the call.
    ensures others { LeavesOnly D.may_leave D.left_since directory.old directory.new
        (OthersStay D.may_leave directory.old key) }
    // It is given up exactly if there is a configuration file, all its key's files are on the disk,
    // and no leftover is there. If not, nothing is done.
    ensures able { IfOk result (λ is_gone. (is_gone ≡ true) ↔ IsWhole D.files directory.old key) }
    ensures refused { IfOk result (λ is_gone. is_gone ≡ false → IsKept D.files D.may_leave
        directory.old directory.new) }
    ensures gone { IfOk result (λ is_gone. is_gone ≡ true
        → (c : Content) → D.may_leave directory.new c
        → (found (under c key) ≡ None) × (recovered (under c key) ≡ None)) }
    ensures elsewhere { (n : Name) → (n.key ≡ key → ⊥)
        → D.files directory.new n ≡ D.files directory.old n }
    // It doesn't give up by itself.
    ensures cause { HasCause (D.failures directory.old) (D.failures directory.new) result }
{
    if !is_resting(directory, key)? {
        return Ok(false);
    }
    give_up(directory, key)?;
    Ok(true)
}

/// Gives up a pair as `discard` does, in a folder whose names are on the disk, as after `put_new`.
/// So it need not be synced first.
pub fn discard_next<D: Directory>(directory: &mut D, key: Key) -> Result<bool, Fault>
    requires settled { IsSettled D.files D.may_leave directory.old }
    // If each pair was whole before, a crash at any moment leaves whole pairs.
    ensures whole { (records : List (Key × List ℕ × List ℕ))
        → LeavesNow (D.may_leave directory.old) (AllWhole records)
        → LeavesOnly D.may_leave D.left_since directory.old directory.new (AllWhole records) }
    // A crash at any moment leaves all other files as before the call.
    ensures others { LeavesOnly D.may_leave D.left_since directory.old directory.new
        (OthersStay D.may_leave directory.old key) }
    // It is given up exactly if there is a configuration file, all its key's files are on the disk,
    // and no leftover is there. If not, nothing is done.
    ensures able { IfOk result (λ is_gone. (is_gone ≡ true) ↔ IsWhole D.files directory.old key) }
    ensures refused { IfOk result (λ is_gone. is_gone ≡ false → IsKept D.files D.may_leave
        directory.old directory.new) }
    ensures gone { IfOk result (λ is_gone. is_gone ≡ true
        → (c : Content) → D.may_leave directory.new c
        → (found (under c key) ≡ None) × (recovered (under c key) ≡ None)) }
    ensures elsewhere { (n : Name) → (n.key ≡ key → ⊥)
        → D.files directory.new n ≡ D.files directory.old n }
    // It doesn't give up by itself.
    ensures cause { HasCause (D.failures directory.old) (D.failures directory.new) result }
{
    if !is_whole(directory, key)? {
        return Ok(false);
    }
    give_up(directory, key)?;
    Ok(true)
}
