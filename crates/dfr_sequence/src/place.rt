//! The place of a scan in its recording.

ghost use Rattle.std.specs.Prelude.{◌≡◌};
ghost use Rattle.dfr_sequence.specs.Scans as spec;

/// The place of a scan that came.
#[derive(Clone, Copy, Debug, PartialEq, Eq)]
pub struct Place {
    /// The number of the scan, counted from 0.
    pub scan: u64,
    /// How many scans were lost between the scan that came before it and this one.
    pub lost: u64,
}

/// The place of a scan that comes after the newest one.
pub(crate) fn place_after(newest: Option<u64>, scan: u64) -> Place
    ensures { result ≡ spec.place_after newest scan }
{
    let lost = match newest {
        None => scan,
        Some(newest) if newest < scan => scan - newest - 1,
        Some(_) => 0,
    };
    Place { scan, lost }
}
