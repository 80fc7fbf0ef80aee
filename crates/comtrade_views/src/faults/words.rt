//! The words for fault types, causes and doubts.

use crate::faults::witness::Witness;
use comtrade_distance::Loop;
use comtrade_fault::{Cause, Doubts, FaultType};

/// The name of a fault type.
pub(crate) fn type_name(fault: FaultType) -> &'static str {
    match fault {
        FaultType::AG => "AG",
        FaultType::BG => "BG",
        FaultType::CG => "CG",
        FaultType::AB => "AB",
        FaultType::BC => "BC",
        FaultType::CA => "CA",
        FaultType::ABG => "ABG",
        FaultType::BCG => "BCG",
        FaultType::CAG => "CAG",
        FaultType::ABC => "ABC",
        FaultType::ABCG => "ABCG",
    }
}

/// Which phases take part, and whether earth does.
pub(crate) fn type_words(fault: FaultType) -> &'static str {
    match fault {
        FaultType::AG => "phase A to earth",
        FaultType::BG => "phase B to earth",
        FaultType::CG => "phase C to earth",
        FaultType::AB => "phases A and B",
        FaultType::BC => "phases B and C",
        FaultType::CA => "phases C and A",
        FaultType::ABG => "phases A and B to earth",
        FaultType::BCG => "phases B and C to earth",
        FaultType::CAG => "phases C and A to earth",
        FaultType::ABC => "all three phases",
        FaultType::ABCG => "all three phases to earth",
    }
}

/// Whether phase A, B and C take part.
pub(crate) fn phases_of(fault: FaultType) -> (bool, bool, bool) {
    match fault {
        FaultType::AG => (true, false, false),
        FaultType::BG => (false, true, false),
        FaultType::CG => (false, false, true),
        FaultType::AB | FaultType::ABG => (true, true, false),
        FaultType::BC | FaultType::BCG => (false, true, true),
        FaultType::CA | FaultType::CAG => (true, false, true),
        FaultType::ABC | FaultType::ABCG => (true, true, true),
    }
}

/// What a disturbance is that is no fault; whether live voltages tell of it.
pub(crate) fn cause_words(cause: Cause, has_voltages: bool) -> &'static str {
    match cause {
        Cause::Inrush => "inrush: a quarter of the current or more is second harmonic",
        Cause::Drop => {
            "load falls, poles open, or a fault ends whose inception is not seen: no current rises"
        },
        Cause::Load if has_voltages => "load rises: the voltages do not dip as in a fault",
        Cause::Load => "load rises: no current is twice that before, and no voltages tell more",
    }
}

/// That a ratio is near its bound.
pub(crate) const RATIO: &str = "the ratios of the phases are near those of another type";

/// That currents and voltages differ.
pub(crate) const VOLTAGES: &str = "the voltages look like another type than the currents";

/// That a phase takes part later which does not at first.
pub(crate) const EVOLVES: &str = "another phase carries fault current later: the fault evolves";

/// That it may have begun before.
pub(crate) const OLDER: &str =
    "it may have begun before the first row that is examined, and last longer";

/// That samples are missing.
pub(crate) const MISSING: &str = "samples are missing around the inception";

/// That there are no voltages.
pub(crate) const NO_VOLTAGES: &str = "there are no voltages to confirm it";

/// That the voltages cannot be compared with one another.
pub(crate) const UNLIKE_VOLTAGES: &str =
    "the factors of the voltages differ in sign or have too many digits, so they confirm nothing";

/// That the voltages were dead.
pub(crate) const DEAD_VOLTAGES: &str =
    "the voltages were dead before it, less than half of those after, so they confirm nothing";

/// That the voltages change little.
pub(crate) const LEVEL: &str = "the voltages change hardly enough for a fault";

/// The words for a doubt on how much the voltages change.
pub(crate) fn level_words(witness: Witness) -> &'static str {
    match witness {
        Witness::Absent => NO_VOLTAGES,
        Witness::Unlike => UNLIKE_VOLTAGES,
        Witness::Dead => DEAD_VOLTAGES,
        Witness::Live => LEVEL,
    }
}

/// Whether anything is doubtful.
pub(crate) fn has_doubt(doubts: Doubts) -> bool {
    doubts.ratio || doubts.voltages || doubts.level || doubts.missing
}

/// The name of a loop: its phases, and E for earth.
pub(crate) fn loop_name(fault_loop: Loop) -> &'static str {
    match fault_loop {
        Loop::A => "A-E",
        Loop::B => "B-E",
        Loop::C => "C-E",
        Loop::AB => "A-B",
        Loop::BC => "B-C",
        Loop::CA => "C-A",
    }
}

/// What the current through the fault is compared with.
pub(crate) fn reference_words(fault_loop: Loop) -> &'static str {
    match fault_loop {
        Loop::A | Loop::B | Loop::C => "the sum of the currents",
        Loop::AB => "the change of A - B",
        Loop::BC => "the change of B - C",
        Loop::CA => "the change of C - A",
    }
}
