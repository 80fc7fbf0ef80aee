//! Laws about scans that records share. These functions do nothing: their contracts state the laws.

ghost use Rattle.dfr_recorder.specs.Sharing.{SharingLaw};
ghost use Rattle.dfr_recorder.specs.Unshared.{UnsharedLaw};

/// Under unshared limits no scan is in two records, whatever the history: each record begins after
/// the last scan of every record opened before it.
pub fn no_scan_shared()
    ensures { UnsharedLaw }
{}

/// Without `unshared`, each record begins `pre` scans before its trigger or at scan 0, whatever
/// records came before, and no trigger is refused as covered. All records and answers of every
/// history then follow rules that don't know `unshared`.
pub fn scans_may_be_shared()
    ensures { SharingLaw }
{}
