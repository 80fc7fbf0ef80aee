//! A directory as the folder of records uses it: what each name has, and what a crash may leave.

ghost use Rattle.std.specs.Prelude.{◌≡◌, ◌⊎◌, ◌≤◌, ◌↔◌, ℕ, List, Option, None, Some, true, IfOk, OnOk, OnErr, Contains};
ghost use Rattle.dfr_folder.specs.declared.name.Name.{Name};
ghost use Rattle.dfr_folder.specs.Directory.{File, Content, Follows, SameBut, Moved, Removed, Stays, IsFresh, Elapses, HasCause, unsynced, on_disk};
ghost use Rattle.dfr_folder.specs.Pairs.{AreNames, AreSynced, is_leftover, seen};

use crate::name::{Key, Name, Names};
use std::alloc::Global;

/// Why a call failed.
#[derive(Clone, Copy, Debug, PartialEq, Eq)]
pub enum Fault {
    /// An allocation failed.
    Memory,
    /// The disk is full.
    Full,
    /// Any other error.
    Failed,
}

/// A directory. Until it is synced, a crash may undo each write, rename and removal, each by
/// itself. A file's bytes may be any after a crash, until the file is synced.
pub trait Directory {
    /// What each name has now.
    ghost files: { Self → Name → Option File };

    /// What a crash at this moment may leave.
    ghost may_leave: { Self → Content → Type 0 };

    /// The moment, as a number that doesn't fall.
    ghost moment: { Self → ℕ };

    /// What a crash at some moment since a start might have left, during a call or between two.
    ghost left_since: { Self → Self → Content → Type 0 };

    /// How often a call has failed, for want of memory too.
    ghost failures: { Self → ℕ };

    /// Writes a new file. After an error there may be a part of it.
    fn write(&mut self, name: Name, bytes: &[u8]) -> Result<(), Fault>
        requires fresh { IsFresh files may_leave self.old name }
        ensures written { OnOk result (files self.new name ≡ unsynced bytes.now) }
        ensures elsewhere { (n : Name) → (n ≡ name → ⊥) → files self.new n ≡ files self.old n }
        ensures crash { Follows (SameBut name) (may_leave self.old) (may_leave self.new) }
        ensures time { Elapses moment may_leave left_since self.old self.new }
        ensures cause { HasCause (failures self.old) (failures self.new) result };

    /// Syncs a file that was written. After an error nothing is known of its bytes.
    fn sync(&mut self, name: Name, bytes: &[u8]) -> Result<(), Fault>
        requires written { files self.old name ≡ unsynced bytes.now }
        ensures synced { OnOk result (files self.new name ≡ on_disk bytes.now) }
        ensures kept { OnOk result ((c : Content) → may_leave self.new c
            → (c name ≡ None) ⊎ (c name ≡ Some bytes.now)) }
        ensures elsewhere { (n : Name) → (n ≡ name → ⊥) → files self.new n ≡ files self.old n }
        ensures crash { (c : Content) → may_leave self.new c → may_leave self.old c }
        ensures time { Elapses moment may_leave left_since self.old self.new }
        ensures cause { HasCause (failures self.old) (failures self.new) result };

    /// Renames a file to a name that is not in use.
    fn rename(&mut self, from: Name, to: Name) -> Result<(), Fault>
        requires unused { files self.old to ≡ None }
        ensures there { OnOk result (files self.new to ≡ files self.old from) }
        ensures left { OnOk result (files self.new from ≡ None) }
        ensures elsewhere { (n : Name) → (n ≡ from → ⊥) → (n ≡ to → ⊥)
            → files self.new n ≡ files self.old n }
        ensures err { OnErr result ((n : Name) → files self.new n ≡ files self.old n) }
        ensures crash { Follows (Moved from to) (may_leave self.old) (may_leave self.new) }
        ensures time { Elapses moment may_leave left_since self.old self.new }
        ensures cause { HasCause (failures self.old) (failures self.new) result };

    /// Removes a file, if there is one.
    fn remove(&mut self, name: Name) -> Result<(), Fault>
        ensures gone { OnOk result (files self.new name ≡ None) }
        ensures elsewhere { (n : Name) → (n ≡ name → ⊥) → files self.new n ≡ files self.old n }
        ensures err { OnErr result ((n : Name) → files self.new n ≡ files self.old n) }
        ensures crash { Follows (Removed name) (may_leave self.old) (may_leave self.new) }
        ensures time { Elapses moment may_leave left_since self.old self.new }
        ensures cause { HasCause (failures self.old) (failures self.new) result };

    /// Syncs the directory: each name stays as it is.
    fn sync_names(&mut self) -> Result<(), Fault>
        ensures stays { OnOk result ((c : Content) → may_leave self.new c
            → (n : Name) → Stays (files self.old n) (c n)) }
        ensures same { (n : Name) → files self.new n ≡ files self.old n }
        ensures crash { (c : Content) → may_leave self.new c → may_leave self.old c }
        ensures time { Elapses moment may_leave left_since self.old self.new }
        ensures cause { HasCause (failures self.old) (failures self.new) result };

    /// Which files of a key there are.
    fn look(&mut self, key: Key) -> Result<Names, Fault>
        ensures names { IfOk result (λ names. AreNames (seen files self.old key) names) }
        ensures same { (n : Name) → files self.new n ≡ files self.old n }
        ensures crash { (c : Content) → may_leave self.new c → may_leave self.old c }
        ensures time { Elapses moment may_leave left_since self.old self.new }
        ensures cause { HasCause (failures self.old) (failures self.new) result };

    /// Whether the bytes of each file of a key are on the disk.
    fn are_synced(&mut self, key: Key) -> Result<bool, Fault>
        ensures synced { IfOk result (λ are. (are ≡ true) ↔ AreSynced files self.old key) }
        ensures same { (n : Name) → files self.new n ≡ files self.old n }
        ensures crash { (c : Content) → may_leave self.new c → may_leave self.old c }
        ensures time { Elapses moment may_leave left_since self.old self.new }
        ensures cause { HasCause (failures self.old) (failures self.new) result };

    /// The keys of all files that are being written or removed.
    fn leftovers(&mut self, alloc: Global) -> Result<Vec<Key>, Fault>
        ensures keys { IfOk result (λ keys. (n : Name) → is_leftover n.ending ≡ true
            → (files self.old n ≡ None → ⊥) → Contains keys.items n.key) }
        ensures same { (n : Name) → files self.new n ≡ files self.old n }
        ensures crash { (c : Content) → may_leave self.new c → may_leave self.old c }
        ensures time { Elapses moment may_leave left_since self.old self.new }
        ensures cause { HasCause (failures self.old) (failures self.new) result };

    /// This moment is one of those since an earlier one.
    ghost counts_now: { (start directory : Self) (c : Content)
        → moment start ≤ moment directory → may_leave directory c → left_since start directory c };

    /// Since this moment there is no other.
    ghost only_now: { (directory : Self) (c : Content) → left_since directory directory c
        → may_leave directory c };
}
