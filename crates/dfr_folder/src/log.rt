//! What was asked of a folder, as a list that only proofs read.

ghost use Rattle.std.specs.Prelude.{◌≡◌, ℕ, List, [], ◌∷◌};
ghost use Rattle.std.specs.Borrow.{ftrue};
ghost use Rattle.dfr_folder.specs.declared.call.Call.{Call};
ghost use Rattle.dfr_folder.specs.declared.name.Seen.{Seen};
ghost use Rattle.dfr_folder.specs.Events.{Event, event_of};

use crate::call::Call;
use crate::name::Seen;
use std::marker::{Model, PhantomData};

/// The calls so far, the newest first.
#[derive(Drop)]
pub struct Log {
    marker: PhantomData<u8>,
    pub ghost calls: { List Event },
}

impl Model for Log {
    ghost also_owns = { λ _. ftrue };
}

// It holds nothing of the calls.
unsafe impl Send for Log {}

impl Log {
    /// No call.
    pub(crate) fn new() -> Log
        ensures { result.calls ≡ [] }
    {
        Log {
            marker: PhantomData,
        }
    }

    /// Adds a call, the first of the slice, with the files that there were and the bytes.
    pub(crate) fn note(&mut self, _call: &[Call], _there: &[Seen], _bytes: &[u8])
        ensures { self.new.calls ≡ event_of _call.now _there.now _bytes.now ∷ self.old.calls }
    {}
}
