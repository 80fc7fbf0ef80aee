//! Why a run ended without a result.

ghost use Rattle.std.specs.Prelude.{◌≡◌};
ghost use Rattle.dfr_program.specs.Inputs.{run_fault};
ghost use Rattle.dfr_program.specs.declared.fault.RunFault.TheVariants.{Memory};

use comtrade_values::{InputFault, Memory};
use std::alloc::AllocError;
use thiserror::Error;

/// Why a run ended without a result. Its text goes to standard error.
#[derive(Clone, Copy, Debug, PartialEq, Eq, Error)]
pub enum RunFault {
    /// The input could not be read, or has more than 16,777,216 bytes.
    #[error("dfr: input")]
    Input,
    /// A write failed.
    #[error("dfr: output")]
    Output,
    /// An allocation failed.
    #[error("dfr: memory")]
    Memory,
}

impl From<InputFault> for RunFault {
    ghost from_gives = { λ fault e. e ≡ run_fault fault };

    fn from(fault: InputFault) -> RunFault {
        match fault {
            InputFault::Failed | InputFault::Long => RunFault::Input,
            InputFault::Memory => RunFault::Memory,
        }
    }
}

impl From<AllocError> for RunFault {
    ghost from_gives = { λ _ e. e ≡ Memory };

    fn from(_error: AllocError) -> RunFault {
        RunFault::Memory
    }
}

impl From<Memory> for RunFault {
    ghost from_gives = { λ _ e. e ≡ Memory };

    fn from(_error: Memory) -> RunFault {
        RunFault::Memory
    }
}
