//! Why a record does not tell where a fault is.

use comtrade_distance::Unplaced;
use comtrade_values::Memory;

/// Why no place is told.
#[derive(Clone, Copy, Debug, PartialEq, Eq)]
pub(crate) enum Lack {
    Memory,
    Evolving,
    Type,
    Cycle,
    Voltages,
    Missing,
    Primary,
    Distorted,
    Unplaced(Unplaced),
}

impl From<Memory> for Lack {
    fn from(_memory: Memory) -> Lack {
        Lack::Memory
    }
}

impl From<Unplaced> for Lack {
    fn from(unplaced: Unplaced) -> Lack {
        Lack::Unplaced(unplaced)
    }
}

/// Why a range is none.
fn unplaced_words(unplaced: Unplaced) -> &'static str {
    match unplaced {
        Unplaced::Open => "the current of the loop does not bound it",
        Unplaced::Wide => "the range is wider than the line",
        Unplaced::Behind => "the fault is not on the line: it is behind the measured end",
        Unplaced::Beyond => "the fault is not on the line: it is beyond the far end",
    }
}

/// The words for why no place is told.
pub(crate) fn lack_words(lack: Lack) -> &'static str {
    match lack {
        Lack::Memory => "memory is out",
        Lack::Evolving => "the fault evolves, so its loop changes",
        Lack::Type => "the voltages look like another type, so the loop is not known",
        Lack::Cycle => "no whole cycle of the fault, or none before it, can be measured",
        Lack::Voltages => "there are no voltages",
        Lack::Missing => "samples are missing in the cycles that are measured",
        Lack::Primary => {
            "primary values are not known: a unit is not V, kV, A or kA, or a secondary channel has \
                no ratio"
        }
        Lack::Distorted => {
            "a current is distorted by over 5 %: a transformer saturates, or the fault changes"
        }
        Lack::Unplaced(unplaced) => unplaced_words(unplaced),
    }
}
