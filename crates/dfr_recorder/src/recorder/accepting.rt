//! How a recorder accepts a scan that passed the tests.

use crate::Scanned;
use crate::marks::{mark_if, scanned};
use crate::open_record::{grow, met_by, shelve};
use crate::recorder::Recorder;
use crate::ring::keep;
use dfr_channels::Scan;
use std::alloc::Allocator;

impl<A: Allocator + Copy> Recorder<A> {
    ghost use Rattle.std.specs.Prelude.{◌≡◌, ◌≤◌, None, IfOk, IfErr, MatchResult, IsTrue, is_some};
    ghost use Rattle.dfr_channels.specs.Setups.{end_of_time};
    ghost use Rattle.dfr_recorder.specs.History.{refusal};
    ghost use Rattle.dfr_recorder.specs.Kept.{leaving};
    ghost use Rattle.dfr_recorder.specs.Recording.{fired_mark, IsAccepted};

    /// Accepts a scan that fires this rule, or none, and hands out the scan that leaves the ring.
    /// Out of memory it hands the new scan back; only an open record, or opening one, needs memory.
    #[inline(always)] // with what it calls, for speed: as a call it costs a scan a third more instructions
    pub(super) fn accept(
        &mut self,
        scan: Scan<A>,
        fired: Option<u32>,
        leaves: &mut Option<Scan<A>>,
    ) -> Result<Scanned, Scan<A>>
        requires fits { refusal self.old.layout self.old.scans scan ≡ None }
        requires early { self.old.scans ≤ end_of_time }
        ensures ok { IfOk result (λ scanned. IsAccepted self.old scan fired scanned self.new) }
        ensures back { IfErr result (λ back. (back ≡ scan) × (self.new ≡ self.old)) }
        ensures memory { IfErr result (λ _. IsTrue (is_some (fired_mark self.old fired).extent)) }
        ensures leaves { MatchResult result (λ _. leaves.new ≡ leaving self.old scan) (λ _. leaves.new ≡ leaves.old) }
    {
        if fired.is_none() && self.recording.is_none() {
            return Ok(self.pass(scan, leaves));
        }
        self.record(scan, fired, leaves)
    }

    /// Accepts a scan that no record gets.
    #[inline(always)]
    fn pass(&mut self, scan: Scan<A>, leaves: &mut Option<Scan<A>>) -> Scanned
        requires idle { self.old.recording ≡ None }
        requires fits { refusal self.old.layout self.old.scans scan ≡ None }
        requires early { self.old.scans ≤ end_of_time }
        ensures accepted { IsAccepted self.old scan None result self.new }
        ensures leaves { leaves.new ≡ leaving self.old scan }
    {
        let n = self.count;
        *leaves = keep(&mut self.ring, scan);
        self.count += 1;
        Scanned {
            number: n,
            trigger: None,
            closed: None,
        }
    }

    /// Accepts a scan that the open record may get, or that may open one.
    fn record(
        &mut self,
        scan: Scan<A>,
        fired: Option<u32>,
        leaves: &mut Option<Scan<A>>,
    ) -> Result<Scanned, Scan<A>>
        requires fits { refusal self.old.layout self.old.scans scan ≡ None }
        requires early { self.old.scans ≤ end_of_time }
        ensures ok { IfOk result (λ scanned. IsAccepted self.old scan fired scanned self.new) }
        ensures back { IfErr result (λ back. (back ≡ scan) × (self.new ≡ self.old)) }
        ensures memory { IfErr result (λ _. IsTrue (is_some (fired_mark self.old fired).extent)) }
        ensures leaves { MatchResult result (λ _. leaves.new ≡ leaving self.old scan) (λ _. leaves.new ≡ leaves.old) }
    {
        let n = self.count;
        let met = met_by(self.limits, self.newest, &self.recording, &self.shelf);
        let marked = mark_if(self.limits, n, fired, met);
        if grow(&mut self.recording, marked.extent, n, &self.ring, &scan).is_err() {
            return Err(scan);
        }
        shelve(&mut self.recording, n, &mut self.shelf);
        *leaves = keep(&mut self.ring, scan);
        self.count = n + 1;
        self.newest = marked.newest;
        Ok(scanned(n, marked))
    }
}
