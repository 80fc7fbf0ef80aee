//! A store that takes at most so many pairs of each hour, so that a rule that keeps firing can't
//! fill the disk.

ghost use Rattle.std.specs.Prelude.{◌≡◌, ℕ, List, [], ◌∷◌};
ghost use Rattle.dfr_station.specs.Storms as spec;

use crate::event::Trouble;
use crate::station::{Store, Stored};
use dfr_folder::Key;

/// How many pairs of one hour may be stored, and how many of the newest hour were.
#[derive(Clone, Copy, Debug, PartialEq, Eq, Drop)]
pub struct HourLimit {
    /// None if there is no limit.
    most: Option<u64>,
    /// The hour of the pair that was stored last.
    hour: u64,
    /// How many pairs of that hour were stored in a row.
    count: u64,
}

/// The hour of a record's trigger, as yyyymmddhh.
fn hour_of(key: Key) -> u64
    ensures { result ≡ spec.hour_of key }
{
    key.date as u64 * 100 + key.time as u64 / 10_000
}

impl HourLimit {
    /// Before any pair.
    pub fn new(most: Option<u64>) -> HourLimit
        ensures most { result.most ≡ most }
        ensures none { spec.IsLimitOf [] result }
    {
        HourLimit {
            most,
            hour: 0,
            count: 0,
        }
    }

    /// How many pairs of this hour were stored in a row.
    fn row(&self, hour: u64) -> u64
        ensures { result ≡ spec.row_in self.now hour }
    {
        if self.hour == hour { self.count } else { 0 }
    }

    /// Whether a pair of this hour may be stored.
    pub fn admits(&self, hour: u64) -> bool
        ensures value { result ≡ spec.admits self.now hour }
        ensures all { (hours : List ℕ) → spec.IsLimitOf hours self.now → result ≡ spec.may_store self.now.most hour hours }
    {
        match self.most {
            Some(most) => self.row(hour) < most,
            None => true,
        }
    }

    /// A pair of this hour was stored.
    pub fn note(&mut self, hour: u64)
        ensures value { self.new ≡ spec.noted self.old hour }
        ensures all { (hours : List ℕ) → spec.IsLimitOf hours self.old → spec.IsLimitOf (hour ∷ hours) self.new }
    {
        // a limit is at most 2^64 - 1, so a count that stops there still refuses
        self.count = self.row(hour).saturating_add(1);
        self.hour = hour;
    }
}

/// A law: where each pair was admitted after those before it, and their hours are in order, no hour
/// has more pairs than the limit. This function does nothing.
pub fn hours_have_most()
    ensures { spec.MostLaw }
{}

/// A store behind such a limit. A pair that is over it is refused with `Storm`.
#[derive(Drop)]
pub struct Limited<K> {
    store: K,
    limit: HourLimit,
}

impl<K> Limited<K> {
    /// A store that takes at most `most` pairs of each hour.
    pub fn new(store: K, most: Option<u64>) -> Limited<K>
        ensures { (result.store ≡ store) × (result.limit.most ≡ most) × spec.IsLimitOf [] result.limit }
    {
        Limited {
            store,
            limit: HourLimit::new(most),
        }
    }

    /// The store.
    pub fn into_store(self) -> K
        ensures { result ≡ self.store }
    {
        self.store
    }
}

impl<K: Store> Store for Limited<K> {
    ghost use Rattle.dfr_station.specs.Storms.{LimitedPut};

    ghost stores = { λ s key cfg dat r t. LimitedPut K.stores s key cfg dat r t };

    fn put(
        &mut self,
        key: Key,
        cfg: &[u8],
        dat: &[u8],
        header: Option<&[u8]>,
    ) -> Result<Stored, Trouble> {
        let hour = hour_of(key);
        if !self.limit.admits(hour) {
            return Err(Trouble::Storm);
        }
        let stored = self.store.put(key, cfg, dat, header);
        if stored.is_ok() {
            self.limit.note(hour);
        }
        stored
    }
}
