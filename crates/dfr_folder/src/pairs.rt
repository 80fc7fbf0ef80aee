//! A pair is written: both files are written and synced under other names. Then each
//! gets its name, the data file first, and the folder is synced after each.

ghost use Rattle.std.specs.Prelude.{◌≡◌, ◌⊎◌, None, Some, OnOk, OnErr};
ghost use Rattle.dfr_folder.specs.declared.name.Name.{Name};
ghost use Rattle.dfr_folder.specs.Directory.{Content, SameBut, Moved, Stays, IsFresh, IsSettled, LeavesOnly, HasCause, on_disk};
ghost use Rattle.dfr_folder.specs.Pairs.{IsFree, IsNoneOr, Beside, Rests, pair};

use crate::directory::{Directory, Fault};
use crate::name::{Ending, Key, Name};

/// Writes a new file and syncs it.
pub(crate) fn store<D: Directory>(directory: &mut D, name: Name, bytes: &[u8]) -> Result<(), Fault>
    requires fresh { IsFresh D.files D.may_leave directory.old name }
    ensures any_moment { LeavesOnly D.may_leave D.left_since directory.old directory.new
        (λ c. (d : Content) × D.may_leave directory.old d × SameBut name d c) }
    ensures synced { OnOk result (D.files directory.new name ≡ on_disk bytes.now) }
    ensures kept { OnOk result ((c : Content) → D.may_leave directory.new c
        → (c name ≡ None) ⊎ (c name ≡ Some bytes.now)) }
    ensures elsewhere { (n : Name) → (n ≡ name → ⊥)
        → D.files directory.new n ≡ D.files directory.old n }
    ensures cause { HasCause (D.failures directory.old) (D.failures directory.new) result }
{
    directory.write(name, bytes)?;
    directory.sync(name, bytes)
}

/// Renames a file and syncs the folder.
pub(crate) fn settle<D: Directory>(directory: &mut D, from: Name, to: Name) -> Result<(), Fault>
    requires fresh { IsFresh D.files D.may_leave directory.old to }
    ensures any_moment { LeavesOnly D.may_leave D.left_since directory.old directory.new
        (λ c. D.may_leave directory.old c ⊎ ((d : Content) × D.may_leave directory.old d
        × Moved from to d c)) }
    ensures there { OnOk result (D.files directory.new to ≡ D.files directory.old from) }
    ensures left { OnOk result (D.files directory.new from ≡ None) }
    ensures elsewhere { (n : Name) → (n ≡ from → ⊥) → (n ≡ to → ⊥)
        → D.files directory.new n ≡ D.files directory.old n }
    ensures stays { OnOk result ((c : Content) → D.may_leave directory.new c
        → (n : Name) → Stays (D.files directory.new n) (c n)) }
    ensures cause { HasCause (D.failures directory.old) (D.failures directory.new) result }
{
    directory.rename(from, to)?;
    directory.sync_names()
}

/// Writes a pair under a key that is not in use.
pub(crate) fn write_pair<D: Directory>(
    directory: &mut D,
    key: Key,
    cfg: &[u8],
    dat: &[u8],
) -> Result<(), Fault>
    requires free { IsFree D.files D.may_leave directory.old key }
    // A crash at any moment leaves the whole pair or none, and all other files as before the call.
    ensures any_moment { LeavesOnly D.may_leave D.left_since directory.old directory.new
        (Beside D.may_leave directory.old key (IsNoneOr (Some (cfg.now, Some dat.now)))) }
    ensures stored { OnOk result (Rests D.files D.may_leave directory.new key
        (pair cfg.now dat.now)) }
    ensures settled { OnOk result (IsSettled D.files D.may_leave directory.new) }
    ensures elsewhere { (n : Name) → (n.key ≡ key → ⊥)
        → D.files directory.new n ≡ D.files directory.old n }
    // It doesn't give up by itself.
    ensures cause { HasCause (D.failures directory.old) (D.failures directory.new) result }
{
    let dat_part = Name {
        key,
        ending: Ending::DataPart,
    };
    let cfg_part = Name {
        key,
        ending: Ending::ConfigPart,
    };
    let dat_name = Name {
        key,
        ending: Ending::Data,
    };
    let cfg_name = Name {
        key,
        ending: Ending::Config,
    };
    store(directory, dat_part, dat)?;
    store(directory, cfg_part, cfg)?;
    settle(directory, dat_part, dat_name)?;
    settle(directory, cfg_part, cfg_name)?;
    Ok(())
}
