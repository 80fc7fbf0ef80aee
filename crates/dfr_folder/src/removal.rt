//! A pair is removed. Its configuration file loses its name first, and the folder is synced before
//! anything is removed. If the removal can't go on, the file gets its name back.

ghost use Rattle.std.specs.Prelude.{◌≡◌, None, OnOk};
ghost use Rattle.dfr_folder.specs.declared.name.Ending.{Ending};
ghost use Rattle.dfr_folder.specs.declared.name.Ending.TheVariants as ending;
ghost use Rattle.dfr_folder.specs.declared.name.Name.{Name};
ghost use Rattle.dfr_folder.specs.Directory.{Content, Stays, LeavesOnly, HasCause};
ghost use Rattle.dfr_folder.specs.Pairs.{IsAtRest, IsNoneOr, IsTidy, Beside, found, name as named, recovered, seen, under};

use crate::directory::{Directory, Fault};
use crate::name::{Ending, Key, Name};

/// The configuration file of a pair loses its name, and the folder is synced. If it can't be
/// synced, the file gets its name back.
fn lose_name<D: Directory>(directory: &mut D, key: Key) -> Result<(), Fault>
    requires rests { IsAtRest D.files D.may_leave directory.old key }
    requires tidy { IsTidy (seen D.files directory.old key) }
    // A crash at any moment leaves the whole pair or none, and all other files as before the call.
    ensures any_moment { LeavesOnly D.may_leave D.left_since directory.old directory.new
        (Beside D.may_leave directory.old key (IsNoneOr (found (seen D.files directory.old key)))) }
    ensures there { OnOk result (D.files directory.new (named key ending.Gone)
        ≡ D.files directory.old (named key ending.Config)) }
    ensures left { OnOk result (D.files directory.new (named key ending.Config) ≡ None) }
    ensures others { OnOk result ((n : Name) → (n ≡ named key ending.Config → ⊥)
        → (n ≡ named key ending.Gone → ⊥) → D.files directory.new n ≡ D.files directory.old n) }
    ensures stays { OnOk result ((c : Content) → D.may_leave directory.new c
        → (n : Name) → Stays (D.files directory.new n) (c n)) }
    ensures elsewhere { (n : Name) → (n.key ≡ key → ⊥)
        → D.files directory.new n ≡ D.files directory.old n }
    ensures cause { HasCause (D.failures directory.old) (D.failures directory.new) result }
{
    let cfg_name = Name {
        key,
        ending: Ending::Config,
    };
    let gone = Name {
        key,
        ending: Ending::Gone,
    };
    directory.rename(cfg_name, gone)?;
    match directory.sync_names() {
        Ok(()) => Ok(()),
        Err(fault) => {
            let _ = directory.rename(gone, cfg_name);
            Err(fault)
        }
    }
}

/// Removes a pair.
pub(crate) fn remove_pair<D: Directory>(directory: &mut D, key: Key) -> Result<(), Fault>
    requires rests { IsAtRest D.files D.may_leave directory.old key }
    requires tidy { IsTidy (seen D.files directory.old key) }
    // A crash at any moment leaves the whole pair or none, and all other files as before the call.
    ensures any_moment { LeavesOnly D.may_leave D.left_since directory.old directory.new
        (Beside D.may_leave directory.old key (IsNoneOr (found (seen D.files directory.old key)))) }
    ensures gone { OnOk result ((c : Content) → D.may_leave directory.new c
        → (found (under c key) ≡ None) × (recovered (under c key) ≡ None)) }
    ensures seen { OnOk result ((end : Ending) → seen D.files directory.new key end ≡ None) }
    ensures elsewhere { (n : Name) → (n.key ≡ key → ⊥)
        → D.files directory.new n ≡ D.files directory.old n }
    // It doesn't give up by itself.
    ensures cause { HasCause (D.failures directory.old) (D.failures directory.new) result }
{
    lose_name(directory, key)?;
    let cfg_name = Name {
        key,
        ending: Ending::Config,
    };
    let dat_name = Name {
        key,
        ending: Ending::Data,
    };
    let gone = Name {
        key,
        ending: Ending::Gone,
    };
    match directory.remove(dat_name) {
        Ok(()) => {
            directory.remove(gone)?;
            Ok(())
        }
        Err(fault) => {
            directory.sync_names()?;
            directory.rename(gone, cfg_name)?;
            Err(fault)
        }
    }
}
