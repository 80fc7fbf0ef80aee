//! What the three threads tell each other.

use crate::devices::Pace;
use crate::report::LiveFault;
use std::sync::OnceLock;
use std::sync::atomic::{AtomicBool, Ordering};

/// What the three threads tell each other.
#[derive(Drop)]
pub(crate) struct Signals {
    /// How many scan steps the lane was given in all, once no more scans come.
    pub(crate) given: OnceLock<u64>,
    /// The trigger thread has ended.
    pub(crate) triggered: AtomicBool,
    /// A thread has an error.
    failed: AtomicBool,
}

impl Signals {
    ghost use Rattle.std.specs.Prelude.{◌≡◌, ◌+◌, min, IfErr};

    pub(crate) fn new() -> Signals {
        Signals {
            given: OnceLock::new(),
            triggered: AtomicBool::new(false),
            failed: AtomicBool::new(false),
        }
    }

    /// Tells the other threads that this one has an error.
    pub(crate) fn fail(&self) {
        self.failed.store(true, Ordering::SeqCst);
    }

    /// Counts one turn without progress in `idle`, and waits as the pace has it. False where another
    /// thread has an error.
    pub(crate) fn turn(&self, pace: &impl Pace, idle: &mut u64) -> Result<bool, LiveFault>
        ensures counted { idle.new ≡ min (idle.old + 1) u64.MAX }
        ensures turns { IfErr result (λ fault. fault ≡ LiveFault.Turns) }
    {
        *idle = idle.saturating_add(1);
        if self.failed.load(Ordering::SeqCst) {
            return Ok(false);
        }
        pace.idle(*idle)?;
        Ok(true)
    }

    /// An allocation failed: waits as the pace has it. False where another thread has an error.
    pub(crate) fn short(&self, pace: &impl Pace) -> Result<bool, LiveFault>
        ensures { IfErr result (λ fault. fault ≡ LiveFault.Memory) }
    {
        if self.failed.load(Ordering::SeqCst) {
            return Ok(false);
        }
        pace.short()?;
        Ok(true)
    }
}
