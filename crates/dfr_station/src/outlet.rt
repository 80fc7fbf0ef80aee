//! Where finished records go: the pair of each is handed to the store until the store takes it.

ghost use Rattle.std.specs.Prelude.{◌≡◌};
ghost use Rattle.dfr_station.specs.Storing.{TriedPair, StoredOrGivenUp};

use crate::event::Trouble;
use crate::headers::Headers;
use crate::heading::bytes_of;
use crate::naming::key_of;
use crate::shown::Redated;
use crate::signals::Signals;
use crate::station::{Recording, Store};
use crate::teller::Teller;
use comtrade_write::Kind;
use dfr_channels::Layout;
use dfr_clock::Timebase;
use dfr_folder::Key;
use dfr_live::{Outlet, Short};
use dfr_recorder::Extent;
use std::alloc::{Allocator, Global};
use std::marker::Model;
use std::sync::{Mutex, Wait};
use std::thread;
use std::time::{Clock, Duration};

/// How long it waits before it tries a record again, in milliseconds.
pub(crate) const RETRY: u64 = 1_000;

/// The most times pairs are tried after the input has ended, for all records together. Each record
/// that is left then is tried once. A second lies between two tries, so this takes ten seconds. An
/// allocation that fails at the very end is tried as often.
pub(crate) const LAST_TRIES: u32 = 10;

/// Before a try that is not the first, sleeps for a second.
pub(crate) fn pause_before(rt: &(impl Wait + Clock), tries: u32) {
    if tries > 0 {
        thread::sleep(rt, Duration::from_millis(RETRY));
    }
}

/// The store, and what is reported of it.
#[derive(Drop)]
pub(crate) struct Exports<'s, K, R, A: Allocator = Global> {
    pub(crate) rt: &'s R,
    pub(crate) alloc: A,
    pub(crate) layout: &'s Layout<A>,
    pub(crate) kind: Kind,
    /// What dates the records, if the clock does.
    pub(crate) times: Option<&'s Mutex<Timebase<A>>>,
    /// What headers tell, if records have them.
    pub(crate) headers: Option<&'s Headers<A>>,
    pub(crate) signals: &'s Signals,
    store: K,
    pub(crate) teller: Teller<A>,
    /// Why the store did not take the last pair.
    pub(crate) trouble: Option<Trouble>,
    /// How often a pair was tried in vain since the input has ended.
    pub(crate) last_tries: u32,
    /// How many records the store took.
    pub(crate) records: u64,
    /// How many records were given up.
    pub(crate) unwritten: u64,
}

impl<'s, K, R, A: Allocator> Model for Exports<'s, K, R, A> {
    ghost use Rattle.std.specs.Prelude.{is_some};
    ghost use Rattle.dfr_station.specs.Storing.{Exporting};

    ghost Value = { Exporting K };

    ghost view = { λ e. record {
      store = e.store;
      records = e.records;
      unwritten = e.unwritten;
      dating = record { layout = e.layout.now; kind = e.kind; by_clock = is_some e.times };
    } };
}

impl<'s, K, R, A: Allocator> Exports<'s, K, R, A> {
    ghost use Rattle.std.specs.Prelude.{is_some};

    pub(crate) fn new(
        rt: &'s R,
        alloc: A,
        layout: &'s Layout<A>,
        kind: Kind,
        times: Option<&'s Mutex<Timebase<A>>>,
        headers: Option<&'s Headers<A>>,
        signals: &'s Signals,
        store: K,
        teller: Teller<A>,
    ) -> Exports<'s, K, R, A>
        ensures { result ≡ record {
          store = store;
          records = 0;
          unwritten = 0;
          dating = record { layout = layout.now; kind = kind; by_clock = is_some times.entry };
        } }
    {
        Exports {
            rt,
            alloc,
            layout,
            kind,
            times,
            headers,
            signals,
            store,
            teller,
            trouble: None,
            last_tries: 0,
            records: 0,
            unwritten: 0,
        }
    }

    /// The store.
    pub(crate) fn into_store(self) -> K
        ensures { result ≡ self.entry.store }
    {
        self.store
    }

    /// How many records the store took.
    pub(crate) fn records(&self) -> u64
        ensures { result ≡ self.now.records }
    {
        self.records
    }

    /// How many records were given up.
    pub(crate) fn unwritten(&self) -> u64
        ensures { result ≡ self.now.unwritten }
    {
        self.unwritten
    }
}

/// What came of trying to store a pair once.
#[derive(Clone, Copy, PartialEq, Eq)]
pub(crate) enum Tried {
    /// The store took it.
    Stored,
    /// It is tried again.
    Again,
    /// The record is given up.
    GivenUp,
}

impl<K: Store, R: Wait + Clock, A: Allocator> Exports<'_, K, R, A> {
    /// Hands a pair to the store once.
    fn tried(
        &mut self,
        key: Key,
        extent: Extent,
        cfg: &[u8],
        dat: &[u8],
        header: Option<&[u8]>,
    ) -> Tried
        ensures { TriedPair K.stores key (record { extent = extent; cfg = cfg.now; dat = dat.now })
            self.old result self.new }
    {
        match self.store.put(key, cfg, dat, header) {
            Ok(stored) => {
                self.tell_stored(extent, stored);
                Tried::Stored
            }
            Err(trouble) => {
                if self.tries_again(key, extent, trouble) {
                    Tried::Again
                } else {
                    Tried::GivenUp
                }
            }
        }
    }

    /// Hands a pair to the store until the store takes it or the record is given up.
    fn keep_offering(
        &mut self,
        key: Key,
        extent: Extent,
        cfg: &[u8],
        dat: &[u8],
        header: Option<&[u8]>,
    )
        ensures { StoredOrGivenUp K.stores key
            (record { extent = extent; cfg = cfg.now; dat = dat.now }) self.old self.new }
    {
        for _ in self.rt.forever() {
            match self.tried(key, extent, cfg, dat, header) {
                Tried::Stored => return,
                Tried::GivenUp => return,
                Tried::Again => {}
            }
        }
        unreachable!()
    }
}

impl<K: Store, R: Wait + Clock, A: Allocator + Copy> Exports<'_, K, R, A> {
    /// Hands a pair, with its header, to the store until the store takes it or the record is given up.
    fn hand_on(
        &mut self,
        key: Key,
        extent: Extent,
        redated: Option<Redated>,
        cfg: &[u8],
        dat: &[u8],
    )
        ensures { StoredOrGivenUp K.stores key
            (record { extent = extent; cfg = cfg.now; dat = dat.now }) self.old self.new }
    {
        let header = self.header(extent, redated, dat);
        self.keep_offering(key, extent, cfg, dat, bytes_of(&header));
    }
}

impl<K: Store, R: Wait + Clock, A: Allocator + Copy> Outlet<Recording> for Exports<'_, K, R, A> {
    ghost use Rattle.dfr_station.specs.Storing.{PutsPair, LacksPair};

    ghost puts = { λ s files r t. PutsPair K.stores s files r t };

    ghost lacks = { λ s _ short t. LacksPair s short t };

    fn put(&mut self, extent: Extent, cfg: &[u8], dat: &[u8]) -> Result<(), u32> {
        match self.shown(extent, cfg) {
            Some((redated, shown)) => {
                let key = key_of(self.layout, extent, Some(redated));
                self.hand_on(key, extent, Some(redated), &shown, dat);
                Ok(())
            }
            None => {
                let key = key_of(self.layout, extent, None);
                self.hand_on(key, extent, None, cfg, dat);
                Ok(())
            }
        }
    }

    fn no_memory(&mut self, extent: Extent) -> Short {
        let name = key_of(self.layout, extent, self.dated(extent));
        if self.tries_again(name, extent, Trouble::Memory) {
            Short::Again
        } else {
            Short::GiveUp
        }
    }
}
