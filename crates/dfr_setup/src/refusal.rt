//! Why a set-up file is refused.

ghost use Rattle.std.specs.Prelude.{◌≡◌};
ghost use Rattle.dfr_setup.specs.SetupFiles as spec;

use crate::DetectorFault;
use comtrade_values::Memory;
use dfr_channels::{RuleFault, SetupFault};
use dfr_recorder::LimitFault;
use dfr_script::{RecorderFault, ScriptRefusal, Word};
use std::alloc::AllocError;
use thiserror::Error;

/// Why a set-up file is refused. A line of another kind than `detect` is named first.
#[derive(Clone, Copy, Debug, PartialEq, Eq, Error)]
pub enum SetupRefusal {
    /// The line with this number, from 1, has an unknown or misplaced word, is a second line of a
    /// setting that is allowed once, or has text after a word that takes none.
    #[error("line {0}: unknown or misplaced word, repeated setting, or extra text at the end")]
    Word(u64),
    /// The line has a wrong number of fields.
    #[error("line {0}: wrong number of fields")]
    Fields(u64),
    /// A field of the line can't be read.
    #[error("line {0}: a field that cannot be read")]
    Number(u64),
    /// A required line is missing.
    #[error("a line is missing: station, device, freq, rate and limits are required")]
    Missing,
    /// The layout is refused.
    #[error("{0}")]
    Setup(SetupFault),
    /// The `detect` line with this number is refused.
    #[error("line {0}: {1}")]
    Detector(u64, DetectorFault),
    /// The limits are refused.
    #[error("{0}")]
    Limits(LimitFault),
    /// The rules are refused.
    #[error("{0}")]
    Rules(RuleFault),
    /// An allocation failed.
    #[error("out of memory")]
    Memory,
}

impl From<ScriptRefusal> for SetupRefusal {
    ghost from_gives = { λ refusal e. e ≡ spec.of_script refusal };

    fn from(refusal: ScriptRefusal) -> SetupRefusal {
        match refusal {
            ScriptRefusal::Fault(fault) => match fault.word {
                Word::Word => SetupRefusal::Word(fault.line),
                Word::Fields => SetupRefusal::Fields(fault.line),
                Word::Number => SetupRefusal::Number(fault.line),
                Word::Setup => SetupRefusal::Missing,
            },
            ScriptRefusal::Memory => SetupRefusal::Memory,
        }
    }
}

impl From<Memory> for SetupRefusal {
    ghost use Rattle.dfr_setup.specs.declared.refusal.SetupRefusal.TheVariants as refusal;

    ghost from_gives = { λ _ e. e ≡ refusal.Memory };

    fn from(_error: Memory) -> SetupRefusal {
        SetupRefusal::Memory
    }
}

impl From<AllocError> for SetupRefusal {
    ghost use Rattle.dfr_setup.specs.declared.refusal.SetupRefusal.TheVariants as refusal;

    ghost from_gives = { λ _ e. e ≡ refusal.Memory };

    fn from(_error: AllocError) -> SetupRefusal {
        SetupRefusal::Memory
    }
}

/// The refusal of a set-up with this fault.
pub(crate) fn refusal_of(fault: RecorderFault) -> SetupRefusal
    ensures { result ≡ spec.of_fault fault }
{
    match fault {
        RecorderFault::Setup(fault) => SetupRefusal::Setup(fault),
        RecorderFault::Limits(fault) => SetupRefusal::Limits(fault),
        RecorderFault::Rules(fault) => SetupRefusal::Rules(fault),
    }
}
