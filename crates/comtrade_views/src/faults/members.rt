//! The faults of a record as values: what is printed as text, and as JSON.

use serde::Serialize;

/// A change of a status channel: when, in milliseconds since the trigger and since the inception.
#[derive(Drop, Serialize)]
pub(crate) struct ContactMembers {
    pub(crate) n: u128,
    pub(crate) id: String,
    pub(crate) row: u128,
    pub(crate) ms: Option<f64>,
    pub(crate) after_ms: Option<f64>,
}

/// The greatest sample of a current in a fault.
#[derive(Drop, Serialize)]
pub(crate) struct PeakMembers {
    pub(crate) n: u128,
    pub(crate) id: String,
    pub(crate) unit: String,
    pub(crate) value: f64,
    pub(crate) ms: Option<f64>,
}

/// A channel in a cycle before the fault and in one of the fault: rms values of the fundamental,
/// and angles in degrees from the reference.
#[derive(Drop, Serialize)]
pub(crate) struct PhasorMembers {
    pub(crate) n: u128,
    pub(crate) id: String,
    pub(crate) unit: String,
    pub(crate) before: Option<f64>,
    pub(crate) before_angle: Option<f64>,
    pub(crate) fault: Option<f64>,
    pub(crate) fault_angle: Option<f64>,
}

/// Where on a line a fault is, in kilometres from the measured end and in percent of the line: by
/// Takagi's method from the least to the greatest, if the current through the fault is at most so
/// many degrees from the reference, and by the reactance of the loop alone. The loop is doubtful where
/// the type is. The rows were measured.
#[derive(Drop, Serialize)]
pub(crate) struct PlaceMembers {
    pub(crate) fault_loop: String,
    pub(crate) doubtful: bool,
    pub(crate) method: String,
    pub(crate) line_km: f64,
    pub(crate) least_km: f64,
    pub(crate) greatest_km: f64,
    pub(crate) likely_km: f64,
    pub(crate) reactance_km: f64,
    pub(crate) least_percent: f64,
    pub(crate) greatest_percent: f64,
    pub(crate) likely_percent: f64,
    pub(crate) reactance_percent: f64,
    pub(crate) reference: String,
    pub(crate) degrees: f64,
    pub(crate) first_row: u128,
    pub(crate) last_row: u128,
}

/// When the current of each faulted phase keeps to its course again, in milliseconds since the
/// trigger.
#[derive(Drop, Serialize)]
pub(crate) struct EndMembers {
    pub(crate) a: Option<f64>,
    pub(crate) b: Option<f64>,
    pub(crate) c: Option<f64>,
}

/// How much the currents change, from the cycle before the inception to that from it on: each phase
/// and their sum, in percent of the phase that changes most.
#[derive(Drop, Serialize)]
pub(crate) struct ChangeMembers {
    pub(crate) a: Option<f64>,
    pub(crate) b: Option<f64>,
    pub(crate) c: Option<f64>,
    pub(crate) sum: Option<f64>,
}

/// A close command or a breaker that closes after a fault. It holds where no fault follows in the
/// next five cycles; None where the record ends before.
#[derive(Drop, Serialize)]
pub(crate) struct RecloseMembers {
    pub(crate) contact: ContactMembers,
    pub(crate) holds: Option<bool>,
}

/// A fault.
#[derive(Drop, Serialize)]
pub(crate) struct FaultMembers {
    pub(crate) fault: String,
    pub(crate) phases: String,
    pub(crate) doubts: Vec<String>,
    pub(crate) instant: Option<String>,
    pub(crate) inception_ms: Option<f64>,
    pub(crate) inception_row: u128,
    pub(crate) cleared_ms: Option<f64>,
    pub(crate) cleared_row: Option<u128>,
    pub(crate) lasts_ms: Option<f64>,
    pub(crate) ends: EndMembers,
    pub(crate) start: Option<ContactMembers>,
    pub(crate) trip: Option<ContactMembers>,
    pub(crate) breaker: Option<ContactMembers>,
    pub(crate) breaker_ms: Option<f64>,
    pub(crate) reclose: Option<RecloseMembers>,
    pub(crate) peak: Option<PeakMembers>,
    pub(crate) currents: Vec<String>,
    pub(crate) voltages: Vec<String>,
    pub(crate) change: ChangeMembers,
    pub(crate) voltage_change: Option<f64>,
    pub(crate) place: Option<PlaceMembers>,
    pub(crate) no_place: Option<String>,
    pub(crate) reference: Option<String>,
    pub(crate) phasors: Vec<PhasorMembers>,
}

/// A disturbance that is no fault.
#[derive(Drop, Serialize)]
pub(crate) struct OtherMembers {
    pub(crate) what: String,
    pub(crate) doubtful: bool,
    pub(crate) ms: Option<f64>,
    pub(crate) row: u128,
}

/// A record, its faults, what else happened, and why it has no fault.
#[derive(Drop, Serialize)]
pub struct RecordFaults {
    pub(crate) record: String,
    pub(crate) station: String,
    pub(crate) device: String,
    pub(crate) trigger: String,
    pub(crate) faults: Vec<FaultMembers>,
    pub(crate) others: Vec<OtherMembers>,
    pub(crate) none: Option<String>,
}

/// A record that cannot be read, and why.
#[derive(Drop, Serialize)]
pub(crate) struct UnreadMembers {
    pub(crate) record: String,
    pub(crate) fault: String,
}

/// All records.
#[derive(Drop, Serialize)]
pub(crate) struct AllMembers {
    pub(crate) records: Vec<RecordFaults>,
    pub(crate) unread: Vec<UnreadMembers>,
}
