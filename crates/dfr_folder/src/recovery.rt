//! What a crash left of a pair is completed or removed. A crash at any moment of that leaves what
//! recovery makes the same of.

ghost use Rattle.std.specs.Prelude.{◌≡◌, true, false, None, OnOk};
ghost use Rattle.dfr_folder.specs.declared.name.Ending.{Ending};
ghost use Rattle.dfr_folder.specs.declared.name.Ending.TheVariants as ending;
ghost use Rattle.dfr_folder.specs.declared.name.Key.{Key};
ghost use Rattle.dfr_folder.specs.declared.name.Name.{Name};
ghost use Rattle.dfr_folder.specs.declared.recovery.Recovery.TheVariants as recovery;
ghost use Rattle.dfr_folder.specs.Directory.{LeavesOnly, HasCause};
ghost use Rattle.dfr_folder.specs.Pairs.{AllMend, AreNames, IsAtRest, IsMending, MendsOne, Beside, found, recovered, seen, tidied};

use crate::directory::{Directory, Fault};
use crate::name::{Ending, Key, Name, Names};
use crate::pairs::settle;
use std::alloc::Global;

/// Which file of a pair gets its name.
#[derive(Clone, Copy, Debug, PartialEq, Eq)]
enum Recovery {
    /// The data file: the configuration file has its own.
    NameData,
    /// The configuration file: the data file has its own, so both are whole.
    NameConfig,
    /// None.
    Nothing,
}

/// Which file of a pair gets its name.
fn recovery_of(names: Names) -> Recovery
    ensures data_file { result ≡ recovery.NameData
        → (names.cfg ≡ true) × (names.dat ≡ false) × (names.dat_part ≡ true) }
    ensures config { result ≡ recovery.NameConfig
        → (names.cfg ≡ false) × (names.dat ≡ true) × (names.gone ≡ false)
        × (names.cfg_part ≡ true) }
    ensures no_data { result ≡ recovery.Nothing
        → names.cfg ≡ true → names.dat ≡ false → names.dat_part ≡ false }
    ensures no_config { result ≡ recovery.Nothing
        → names.cfg ≡ false → names.dat ≡ true → names.gone ≡ false → names.cfg_part ≡ false }
{
    if names.cfg {
        if !names.dat && names.dat_part {
            return Recovery::NameData;
        }
        return Recovery::Nothing;
    }
    if !names.gone && names.dat && names.cfg_part {
        return Recovery::NameConfig;
    }
    Recovery::Nothing
}

/// Gives a file of the pair its name, if it lost the way to it.
fn complete<D: Directory>(directory: &mut D, key: Key, names: Names) -> Result<(), Fault>
    requires rests { IsAtRest D.files D.may_leave directory.old key }
    requires names { AreNames (seen D.files directory.old key) names }
    ensures any_moment { LeavesOnly D.may_leave D.left_since directory.old directory.new
        (Beside D.may_leave directory.old key (IsMending (seen D.files directory.old key))) }
    ensures rests { OnOk result (IsAtRest D.files D.may_leave directory.new key) }
    ensures mends { OnOk result (IsMending (seen D.files directory.old key) (seen
        D.files directory.new key)) }
    ensures named { OnOk result (found (seen D.files directory.new key) ≡ recovered (seen
        D.files directory.new key)) }
    ensures same { OnOk result ((end : Ending) → tidied (seen D.files directory.new key) end
        ≡ tidied (seen D.files directory.old key) end) }
    ensures elsewhere { (n : Name) → (n.key ≡ key → ⊥)
        → D.files directory.new n ≡ D.files directory.old n }
    ensures cause { HasCause (D.failures directory.old) (D.failures directory.new) result }
{
    match recovery_of(names) {
        Recovery::NameData => {
            let part = Name {
                key,
                ending: Ending::DataPart,
            };
            let name = Name {
                key,
                ending: Ending::Data,
            };
            settle(directory, part, name)?;
            Ok(())
        }
        Recovery::NameConfig => {
            let part = Name {
                key,
                ending: Ending::ConfigPart,
            };
            let name = Name {
                key,
                ending: Ending::Config,
            };
            settle(directory, part, name)?;
            Ok(())
        }
        Recovery::Nothing => Ok(()),
    }
}

/// Removes what was being written.
fn clear_parts<D: Directory>(directory: &mut D, key: Key) -> Result<(), Fault>
    requires rests { IsAtRest D.files D.may_leave directory.old key }
    requires named { found (seen D.files directory.old key) ≡ recovered (seen
        D.files directory.old key) }
    ensures any_moment { LeavesOnly D.may_leave D.left_since directory.old directory.new
        (Beside D.may_leave directory.old key (IsMending (seen D.files directory.old key))) }
    ensures rests { OnOk result (IsAtRest D.files D.may_leave directory.new key) }
    ensures mends { OnOk result (IsMending (seen D.files directory.old key) (seen
        D.files directory.new key)) }
    ensures same { OnOk result ((end : Ending) → tidied (seen D.files directory.new key) end
        ≡ tidied (seen D.files directory.old key) end) }
    ensures cfg_part { OnOk result (seen D.files directory.new key ending.ConfigPart ≡ None) }
    ensures dat_part { OnOk result (seen D.files directory.new key ending.DataPart ≡ None) }
    ensures elsewhere { (n : Name) → (n.key ≡ key → ⊥)
        → D.files directory.new n ≡ D.files directory.old n }
    ensures cause { HasCause (D.failures directory.old) (D.failures directory.new) result }
{
    let cfg_part = Name {
        key,
        ending: Ending::ConfigPart,
    };
    directory.remove(cfg_part)?;
    let dat_part = Name {
        key,
        ending: Ending::DataPart,
    };
    directory.remove(dat_part)?;
    directory.sync_names()?;
    Ok(())
}

/// Ends a removal: the configuration file under its last name goes, and before it the data file if
/// there is no other configuration file.
fn clear_rest<D: Directory>(directory: &mut D, key: Key) -> Result<(), Fault>
    requires rests { IsAtRest D.files D.may_leave directory.old key }
    requires cfg_part { seen D.files directory.old key ending.ConfigPart ≡ None }
    requires dat_part { seen D.files directory.old key ending.DataPart ≡ None }
    ensures any_moment { LeavesOnly D.may_leave D.left_since directory.old directory.new
        (Beside D.may_leave directory.old key (IsMending (seen D.files directory.old key))) }
    ensures rests { OnOk result (IsAtRest D.files D.may_leave directory.new key) }
    ensures clean { OnOk result ((end : Ending) → seen D.files directory.new key end ≡ tidied
        (seen D.files directory.old key) end) }
    ensures elsewhere { (n : Name) → (n.key ≡ key → ⊥)
        → D.files directory.new n ≡ D.files directory.old n }
    ensures cause { HasCause (D.failures directory.old) (D.failures directory.new) result }
{
    let there = directory.look(key)?;
    if !there.gone {
        return Ok(());
    }
    let gone = Name {
        key,
        ending: Ending::Gone,
    };
    if there.cfg {
        directory.remove(gone)?;
        directory.sync_names()?;
        return Ok(());
    }
    let dat_name = Name {
        key,
        ending: Ending::Data,
    };
    directory.remove(dat_name)?;
    directory.remove(gone)?;
    directory.sync_names()?;
    Ok(())
}

/// Whether there is no leftover.
fn is_clean(names: Names) -> bool
    ensures cfg_part { result ≡ true → names.cfg_part ≡ false }
    ensures dat_part { result ≡ true → names.dat_part ≡ false }
    ensures gone { result ≡ true → names.gone ≡ false }
{
    !names.cfg_part && !names.dat_part && !names.gone
}

/// Completes or removes what a crash left of a pair. It may crash too.
pub(crate) fn tidy<D: Directory>(directory: &mut D, key: Key) -> Result<(), Fault>
    // After a restart, what is seen is what is on the disk.
    requires rests { IsAtRest D.files D.may_leave directory.old key }
    // A crash at any moment leaves what recovery makes the same of, and all other files as before.
    ensures any_moment { LeavesOnly D.may_leave D.left_since directory.old directory.new
        (Beside D.may_leave directory.old key (IsMending (seen D.files directory.old key))) }
    ensures rests { OnOk result (IsAtRest D.files D.may_leave directory.new key) }
    // No leftover stays.
    ensures clean { OnOk result ((end : Ending) → seen D.files directory.new key end ≡ tidied
        (seen D.files directory.old key) end) }
    ensures elsewhere { (n : Name) → (n.key ≡ key → ⊥)
        → D.files directory.new n ≡ D.files directory.old n }
    // It doesn't give up by itself.
    ensures cause { HasCause (D.failures directory.old) (D.failures directory.new) result }
{
    let names = directory.look(key)?;
    if is_clean(names) {
        return Ok(());
    }
    complete(directory, key, names)?;
    clear_parts(directory, key)?;
    clear_rest(directory, key)?;
    Ok(())
}

/// Completes or removes whatever a crash left in the folder. It may crash too.
pub(crate) fn tidy_all<D: Directory>(directory: &mut D, alloc: Global) -> Result<(), Fault>
    // After a restart, what is seen is what is on the disk.
    requires rests { (key : Key) → IsAtRest D.files D.may_leave directory.old key }
    // A crash at any moment leaves what recovery makes the same of.
    ensures any_moment { LeavesOnly D.may_leave D.left_since directory.old directory.new (AllMend
        D.files directory.old) }
    // That is also the same as of what a crash might have left before.
    ensures from { LeavesOnly D.may_leave D.left_since directory.old directory.new (MendsOne
        D.may_leave directory.old) }
    ensures rests { OnOk result ((key : Key) → IsAtRest D.files D.may_leave directory.new key) }
    // No leftover stays.
    ensures clean { OnOk result ((key : Key) (end : Ending)
        → seen D.files directory.new key end ≡ tidied (seen D.files directory.old key) end) }
    // It doesn't give up by itself, whatever it finds.
    ensures cause { HasCause (D.failures directory.old) (D.failures directory.new) result }
{
    let mut keys = directory.leftovers(alloc)?;
    while let Some(key) = keys.pop() {
        tidy(directory, key)?;
    }
    Ok(())
}
