//! Why a script is refused.

ghost use Rattle.std.specs.Prelude.{◌≡◌, ◌+◌, ◌<◌, ◌^◌};
ghost use Rattle.dfr_script.specs.declared.fault.LineRefusal.TheVariants.{Memory};
ghost use Rattle.dfr_script.specs.declared.fault.ScriptRefusal.TheVariants.{Fault};
ghost use Rattle.dfr_script.specs.Scripts as spec;

use std::alloc::{AllocError, AllocFailed};

/// What is wrong with a line, in the order of the tests.
#[derive(Clone, Copy, Debug, PartialEq, Eq)]
pub enum LineFault {
    /// An unknown or misplaced word, a second line of a setting that is allowed once, or text after
    /// a word that takes none.
    Word,
    /// The wrong number of fields in a line, of words in a rule, or of slashes in a scan.
    Fields,
    /// A field or a word of a rule can't be read, or a number doesn't fit its type.
    Number,
}

/// What is wrong with a script: the fault of a line, or a line that is missing.
#[derive(Clone, Copy, Debug, PartialEq, Eq)]
pub enum Word {
    /// As [`LineFault::Word`]; also text after `go`.
    Word,
    /// As [`LineFault::Fields`].
    Fields,
    /// As [`LineFault::Number`].
    Number,
    /// A line of the set-up is missing.
    Setup,
}

/// The first fault of a script.
#[derive(Clone, Copy, Debug, PartialEq, Eq)]
pub struct ScriptFault {
    /// The number of its line, from 1.
    pub line: u64,
    /// What is wrong with the line.
    pub word: Word,
}

/// Why a script could not be read.
#[derive(Clone, Copy, Debug, PartialEq, Eq)]
pub enum ScriptRefusal {
    /// The script's first fault.
    Fault(ScriptFault),
    /// An allocation failed.
    Memory,
}

/// Why a line could not be read.
#[derive(Clone, Copy, Debug, PartialEq, Eq)]
pub enum LineRefusal {
    /// What is wrong with the line.
    Fault(LineFault),
    /// An allocation failed.
    Memory,
}

/// The fault of the line at index `place`, from 0.
pub(crate) fn fault_at(place: usize, word: Word) -> ScriptRefusal
    requires { place + 1 < 2 ^ 64 }
    ensures { result ≡ Fault (spec.fault_at place word) }
{
    ScriptRefusal::Fault(ScriptFault {
        line: place as u64 + 1,
        word,
    })
}

/// The script's word for the fault of a line.
fn word_of(fault: LineFault) -> Word
    ensures { result ≡ spec.word_of fault }
{
    match fault {
        LineFault::Word => Word::Word,
        LineFault::Fields => Word::Fields,
        LineFault::Number => Word::Number,
    }
}

/// The refusal of the line at index `place`, from 0.
pub(crate) fn refused_at(place: usize, refusal: LineRefusal) -> ScriptRefusal
    requires { place + 1 < 2 ^ 64 }
    ensures { result ≡ spec.refused_at place refusal }
{
    match refusal {
        LineRefusal::Fault(fault) => fault_at(place, word_of(fault)),
        LineRefusal::Memory => ScriptRefusal::Memory,
    }
}

impl From<AllocError> for LineRefusal {
    ghost from_gives = { λ _ e. e ≡ Memory };

    fn from(_error: AllocError) -> LineRefusal {
        LineRefusal::Memory
    }
}

impl<T: Drop> From<AllocFailed<T>> for LineRefusal {
    ghost from_gives = { λ _ e. e ≡ Memory };

    fn from(_error: AllocFailed<T>) -> LineRefusal {
        LineRefusal::Memory
    }
}
