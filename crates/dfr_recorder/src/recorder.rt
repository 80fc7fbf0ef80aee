//! The recorder.

mod accepting;

use crate::lost::{lost_refusal, lost_scan};
use crate::marks::{Newest, is_covered, mark, refused_when_full};
use crate::open_record::{met_by, place, scans_so_far};
use crate::recording::Recording;
use crate::refusals::refusal;
use crate::ring::fires;
use crate::shelf::scans_in;
use crate::{Cause, Hit, Limits, LostRefusal, Record, ScanRefusal, Scanned, TriggerFault};
use circular_buffer::HeapCircularBuffer;
use comtrade_values::Memory;
use dfr_channels::{Layout, Rules, Scan};
use std::alloc::{Allocator, Global};
use std::collections::VecDeque;
use std::marker::Model;

/// A recorder with pre-trigger memory. It holds the last `pre + 1` scans in a ring, the open
/// record, and the finished records that wait on the shelf until they are taken. These are at most
/// `pre + 1 + longest * shelf` scans. Contracts see what it keeps of the steps that it made.
#[derive(Drop)]
pub struct Recorder<A: Allocator = Global> {
    layout: Layout<A>,
    limits: Limits,
    rules: Rules<A>,
    count: u64,
    ring: HeapCircularBuffer<Scan<A>, A>,
    newest: Newest,
    recording: Option<Recording<A>>,
    shelf: VecDeque<Record<A>, A>,
}

impl<A: Allocator> Model for Recorder<A> {
    ghost use Rattle.std.specs.VecDeque.{deque_capacity};
    ghost use Rattle.dfr_recorder.specs.Kept.{Kept, kept_by};
    ghost use Rattle.dfr_recorder.specs.Sound.{IsSoundBody};

    ghost Value = { Kept };

    ghost view = { λ a. kept_by a.layout a.limits a.rules a.count a.ring.items a.newest a.recording a.shelf.items };

    ghost invariant = { λ a. IsSoundBody (kept_by a.layout a.limits a.rules a.count a.ring.items a.newest a.recording a.shelf.items) a.ring.capacity (deque_capacity a.shelf) };
}

impl<A: Allocator> Recorder<A> {
    ghost use Rattle.std.specs.Prelude.{◌≡◌, ◌≤◌, ◌+◌, ◌*◌, List, [], true, false, IfErr, IfSome, OnOk, length, is_ok, is_some, IsTrue};
    ghost use Rattle.dfr_channels.specs.Firing.{rules_fit};
    ghost use Rattle.dfr_recorder.specs.Limits.{has_stamps};
    ghost use Rattle.dfr_recorder.specs.Own.{is_own};
    ghost use Rattle.dfr_recorder.specs.Steps.{StepParts};
    ghost use Rattle.dfr_recorder.specs.Steps as step;
    ghost use Rattle.dfr_recorder.specs.Answers as answer;
    ghost use Rattle.dfr_recorder.specs.History.{Opening, opening, past, waiting, is_open};
    ghost use Rattle.dfr_recorder.specs.Kept.{kept, held, IsStep};

    /// The layout of its channels, which never changes.
    pub fn layout(&self) -> &Layout<A>
        ensures { result.now ≡ self.now.layout }
    {
        &self.layout
    }

    /// Its limits, which fit its layout and never change.
    pub fn limits(&self) -> Limits
        ensures value { result ≡ self.now.limits }
        ensures fit { IsTrue (has_stamps self.now.layout.rate self.now.limits.longest) }
    {
        self.limits
    }

    /// The rules in force from the next scan on, which fit its layout.
    pub fn rules(&self) -> &Rules<A>
        ensures value { result.now ≡ self.now.rules }
        ensures fit { IsTrue (rules_fit self.now.layout self.now.rules) }
    {
        &self.rules
    }

    /// How many scans were accepted, including those for lost scans. If there are none, the
    /// recorder is as new over its layout, limits and rules.
    pub fn scans(&self) -> u64
        ensures value { result ≡ self.now.scans }
        ensures fresh { result ≡ 0 → self.now ≡ kept (opening self.now.layout self.now.limits self.now.rules) [] }
    {
        self.count
    }

    /// How many finished records wait on the shelf.
    pub fn waiting(&self) -> u32
        ensures value { result ≡ length self.now.shelf }
        ensures history { (o : Opening) (h : List StepParts) → kept o h ≡ self.now → result ≡ waiting (past o h) }
    {
        self.shelf.len() as u32
    }

    /// Whether a record is open.
    pub fn is_recording(&self) -> bool
        ensures value { result ≡ is_some self.now.recording }
        ensures history { (o : Opening) (h : List StepParts) → kept o h ≡ self.now → result ≡ is_open (past o h) }
    {
        self.recording.is_some()
    }

    /// How many scans the ring, the open record and the shelf hold. No contract can say that
    /// nothing else is held: a test measures the memory in use over many scans and records.
    pub fn held(&self) -> u64
        ensures value { result ≡ held self.now }
        ensures bound { result ≤ self.now.limits.pre + 1 + self.now.limits.longest * self.now.limits.shelf }
    {
        self.ring.len() as u64 + scans_so_far(&self.recording) + scans_in(&self.shelf)
    }

    /// Takes the oldest finished record off the shelf; None if none waits. Its scans pass the
    /// layout's check, its last scan has an instant, and its last row's time stamp can be written.
    /// Doesn't allocate.
    pub fn take(&mut self) -> Option<Record<A>>
        ensures step { IsStep self.old step.Take (answer.Take result) self.new }
        ensures opening { (self.new.layout ≡ self.old.layout) × (self.new.limits ≡ self.old.limits) }
        ensures own { IfSome result (λ r. IsTrue (is_own self.old.layout r)) }
    {
        self.shelf.pop_front()
    }

    /// Sets the rules in force from the next scan on. Rules that don't fit the layout are handed
    /// back, and nothing changes. Doesn't allocate.
    pub fn set_rules(&mut self, rules: Rules<A>) -> Result<(), Rules<A>>
        ensures ok { OnOk result (IsStep self.old (step.SetRules rules) (answer.SetRules true) self.new) }
        ensures opening { (self.new.layout ≡ self.old.layout) × (self.new.limits ≡ self.old.limits) }
        ensures refused { IfErr result (λ _. IsStep self.old (step.SetRules rules) (answer.SetRules false) self.new) }
        ensures back { IfErr result (λ back. (back ≡ rules) × (self.new ≡ self.old)) }
        ensures exact { is_ok result ≡ rules_fit self.old.layout rules }
    {
        if !rules.fits(&self.layout) {
            return Err(rules);
        }
        self.rules = rules;
        Ok(())
    }
}

impl<A: Allocator + Copy> Recorder<A> {
    ghost use Rattle.std.specs.Prelude.{◌≡◌, ◌≢◌, [], IfOk, IfErr, OnErr, MatchResult, IsTrue};
    ghost use Rattle.dfr_channels.specs.Firing.{rules_fit};
    ghost use Rattle.dfr_recorder.specs.Limits.{has_stamps};
    ghost use Rattle.dfr_recorder.specs.Steps as step;
    ghost use Rattle.dfr_recorder.specs.Answers as answer;
    ghost use Rattle.dfr_recorder.specs.History.{opening};
    ghost use Rattle.dfr_recorder.specs.Kept.{kept, leaving, IsStep};
    ghost use Rattle.dfr_recorder.specs.Memory.{GrowsRecord, AddsLost, OpensRecord};

    /// A new recorder. The limits and the rules must fit the layout. This allocates the room of
    /// ring and shelf; if that fails, layout and rules are handed back.
    pub fn new(
        alloc: A,
        layout: Layout<A>,
        limits: Limits,
        rules: Rules<A>,
    ) -> Result<Recorder<A>, (Memory, Layout<A>, Rules<A>)>
        requires limits { IsTrue (has_stamps layout.rate limits.longest) }
        requires rules { IsTrue (rules_fit layout rules) }
        ensures made { IfOk result (λ recorder. recorder ≡ kept (opening layout limits rules) []) }
        ensures back { IfErr result (λ refused. (refused.1 ≡ layout) × (refused.2 ≡ rules)) }
    {
        let Ok(ring) = HeapCircularBuffer::with_capacity(alloc, limits.pre() as usize + 1) else {
            return Err((Memory, layout, rules));
        };
        let Ok(shelf) = VecDeque::with_capacity(alloc, limits.shelf() as usize) else {
            return Err((Memory, layout, rules));
        };
        Ok(Recorder {
            layout,
            limits,
            rules,
            count: 0,
            ring,
            newest: Newest { number: 0, end: 0 },
            recording: None,
            shelf,
        })
    }

    /// Processes a scan. A refused scan is handed back and nothing changes. Memory is needed only
    /// for an open record, or to open one.
    pub fn scan(&mut self, scan: Scan<A>) -> Result<Scanned, (ScanRefusal, Scan<A>)>
        ensures ok { IfOk result (λ scanned. IsStep self.old (step.Scan scan) (answer.Scan (Ok scanned)) self.new) }
        ensures refused { IfErr result (λ refused. refused.0 ≢ ScanRefusal.Memory → IsStep self.old (step.Scan scan) (answer.Scan (Err refused.0)) self.new) }
        ensures back { IfErr result (λ refused. (refused.1 ≡ scan) × (self.new ≡ self.old)) }
        ensures opening { (self.new.layout ≡ self.old.layout) × (self.new.limits ≡ self.old.limits) }
        ensures memory { IfErr result (λ refused. refused.0 ≡ ScanRefusal.Memory → GrowsRecord self.old scan) }
    {
        let mut leaves = None;
        self.scan_leaving(scan, &mut leaves)
    }

    /// Processes a scan as [`Recorder::scan`] does, and sets `leaves` to the scan that leaves the
    /// ring for it, if any. The thread that made that scan can then free its memory. A refused scan
    /// leaves `leaves` unchanged.
    #[inline(always)] // for speed, as `accept` is
    pub fn scan_leaving(
        &mut self,
        scan: Scan<A>,
        leaves: &mut Option<Scan<A>>,
    ) -> Result<Scanned, (ScanRefusal, Scan<A>)>
        ensures ok { IfOk result (λ scanned. IsStep self.old (step.Scan scan) (answer.Scan (Ok scanned)) self.new) }
        ensures refused { IfErr result (λ refused. refused.0 ≢ ScanRefusal.Memory → IsStep self.old (step.Scan scan) (answer.Scan (Err refused.0)) self.new) }
        ensures back { IfErr result (λ refused. (refused.1 ≡ scan) × (self.new ≡ self.old)) }
        ensures opening { (self.new.layout ≡ self.old.layout) × (self.new.limits ≡ self.old.limits) }
        ensures memory { IfErr result (λ refused. refused.0 ≡ ScanRefusal.Memory → GrowsRecord self.old scan) }
        ensures leaves { MatchResult result (λ _. leaves.new ≡ leaving self.old scan) (λ _. leaves.new ≡ leaves.old) }
    {
        match refusal(&self.layout, self.count, &scan) {
            Some(refused) => return Err((refused, scan)),
            None => {}
        }
        let fired = fires(&self.rules, &self.ring, &scan);
        match self.accept(scan, fired, leaves) {
            Ok(scanned) => Ok(scanned),
            Err(scan) => Err((ScanRefusal::Memory, scan)),
        }
    }

    /// Fills the place of a lost scan, so that later scans keep their instants. Every reading is
    /// missing; the bits are those of the scan before, or each channel's normal state if there is
    /// none. It fires no rule, but can close a record. It always allocates.
    pub fn lost(&mut self) -> Result<Scanned, LostRefusal>
        ensures step { result ≢ Err LostRefusal.Memory → IsStep self.old step.Lost (answer.Lost result) self.new }
        ensures same { OnErr result (self.new ≡ self.old) }
        ensures opening { (self.new.layout ≡ self.old.layout) × (self.new.limits ≡ self.old.limits) }
        ensures memory { result ≡ Err LostRefusal.Memory → AddsLost self.old }
    {
        match lost_refusal(&self.layout, self.count) {
            Some(refused) => return Err(refused),
            None => {}
        }
        let Ok(scan) = lost_scan(&self.layout, &self.ring) else {
            return Err(LostRefusal::Memory);
        };
        let mut leaves = None;
        let Ok(accepted) = self.accept(scan, None, &mut leaves) else {
            return Err(LostRefusal::Memory);
        };
        Ok(accepted)
    }

    /// A manual trigger, at the last scan. A refused one changes nothing. Allocates only to open a
    /// record.
    pub fn trigger(&mut self) -> Result<Hit, TriggerFault>
        ensures step { result ≢ Err TriggerFault.Memory → IsStep self.old step.Trigger (answer.Trigger result) self.new }
        ensures same { OnErr result (self.new ≡ self.old) }
        ensures held { IfOk result (λ hit. hit ≢ Hit.ShelfFull) }
        ensures opening { (self.new.layout ≡ self.old.layout) × (self.new.limits ≡ self.old.limits) }
        ensures memory { result ≡ Err TriggerFault.Memory → OpensRecord self.old }
    {
        let n = self.count;
        if n == 0 {
            return Err(TriggerFault::NoScan);
        }
        let met = met_by(self.limits, self.newest, &self.recording, &self.shelf);
        if is_covered(self.limits, n - 1, met) {
            return Err(TriggerFault::Covered);
        }
        let marked = mark(self.limits, n - 1, Cause::Manual, met);
        if place(&mut self.recording, marked.extent, n, &self.ring).is_err() {
            return Err(TriggerFault::Memory);
        }
        self.newest = marked.newest;
        refused_when_full(marked.hit)
    }
}
