//! What is made of a record before it goes to the store: its configuration file with the instants of the
//! clock, and its header.

ghost use Rattle.std.specs.Prelude.{◌≡◌, IfSome, Some};
ghost use Rattle.dfr_station.specs.Dated.{Shows, AreWritable, changed_cfg};

use crate::event::Trouble;
use crate::heading::{About, header_for};
use crate::outlet::{Exports, LAST_TRIES, RETRY, pause_before};
use crate::shown::{Redated, redated_by, shown_cfg};
use dfr_recorder::Extent;
use std::alloc::Allocator;
use std::sync::Wait;
use std::sync::atomic::Ordering;
use std::thread;
use std::time::{Clock, Duration};

impl<K, R: Wait + Clock, A: Allocator + Copy> Exports<'_, K, R, A> {
    /// How a record is shown. None: as by the set-up.
    pub(crate) fn dated(&self, extent: Extent) -> Option<Redated>
        ensures { Shows self.now.dating extent result }
    {
        let times = self.times?;
        let date = times.lock(self.rt).date(extent.trigger);
        redated_by(self.layout, extent, date)
    }

    /// Whether the converter told the time by which its trigger has a date.
    fn is_told(&self, extent: Extent) -> bool {
        match self.times {
            Some(times) => times.lock(self.rt).is_told(extent.trigger),
            None => false,
        }
    }

    /// A configuration file after this change. As long as there is no memory, it is tried again; after
    /// the input has ended, a few times in all.
    fn changed(&mut self, redated: Redated, cfg: &[u8]) -> Option<Vec<u8, A>>
        requires was { AreWritable redated.was }
        requires is { AreWritable redated.is }
        ensures same { self.new ≡ self.old }
        ensures changed { IfSome result (λ changed.
            changed.items ≡ changed_cfg self.old.dating.kind redated cfg.now) }
    {
        for _ in self.rt.forever() {
            if let Ok(changed) = shown_cfg(self.alloc, self.kind, redated, cfg) {
                return Some(changed);
            }
            if self.is_last() {
                return None;
            }
            self.tell_trouble(Trouble::Memory);
            thread::sleep(self.rt, Duration::from_millis(RETRY));
        }
        unreachable!()
    }

    /// How a record is shown, and its configuration file so. None: as by the set-up.
    pub(crate) fn shown(&mut self, extent: Extent, cfg: &[u8]) -> Option<(Redated, Vec<u8, A>)>
        ensures same { self.new ≡ self.old }
        ensures dated { IfSome result (λ shown. Shows self.old.dating extent (Some shown.0)) }
        ensures shown { IfSome result (λ shown.
            shown.1.items ≡ changed_cfg self.old.dating.kind shown.0 cfg.now) }
    {
        let redated = self.dated(extent)?;
        let cfg = self.changed(redated, cfg)?;
        Some((redated, cfg))
    }

    /// The header of a record that is shown so, if records have headers. If there is no memory, it is
    /// tried again each second, ten times in all; then the pair goes without a header.
    pub(crate) fn header(
        &self,
        extent: Extent,
        redated: Option<Redated>,
        dat: &[u8],
    ) -> Option<Vec<u8, A>> {
        let about = About {
            extent,
            redated,
            kind: self.kind,
            clock: self.clock_state(),
            is_told: self.is_told(extent),
            is_cut: false,
        };
        for tries in 0..LAST_TRIES {
            pause_before(self.rt, tries);
            let made = header_for(self.rt, self.alloc, self.headers, self.layout, about, dat);
            if let Ok(header) = made {
                return header;
            }
            self.signals.short.fetch_add(1, Ordering::SeqCst);
        }
        None
    }
}
