//! How long records are, and how many finished ones may wait.

ghost use Rattle.std.specs.Prelude.{◌≡◌, ◌≤◌, ◌+◌};

use dfr_channels::Layout;
use std::alloc::Allocator;
use thiserror::Error;

/// A record has up to `pre` scans before its trigger and `post` after it. Later triggers can
/// extend it to at most `longest` scans in all. At most `shelf` finished records wait. If
/// `unshared` holds, each scan is in at most one record.
#[derive(Clone, Copy, Debug, PartialEq, Eq)]
pub struct Limits {
    pre: u32,
    post: u32,
    longest: u32,
    shelf: u32,
    unshared: bool,
    ghost some: { (1 ≤ post) × (1 ≤ shelf) },
    ghost fit: { (pre + 1 + post ≤ longest) × (longest ≤ 1_000_000) },
    ghost few: { shelf ≤ 64 },
    ghost early: { pre ≤ 100_000 },
}

/// Why limits are refused, in the order of the tests.
#[derive(Clone, Copy, Debug, PartialEq, Eq, Error)]
pub enum LimitFault {
    /// `pre` is over 100,000.
    #[error("more than 100000 scans before the trigger")]
    Pre,
    /// `post` is 0.
    #[error("no scan after the trigger")]
    Post,
    /// Not `pre + 1 + post <= longest <= 1,000,000`.
    #[error("the longest record is too short, or longer than 1000000 scans")]
    Longest,
    /// `shelf` is not 1 to 64.
    #[error("the queue of finished records does not have room for 1 to 64")]
    Shelf,
    /// The last row of the longest record would have a time stamp over 4,294,967,294 microseconds.
    #[error("the longest record would have a time stamp above 4294967294 microseconds")]
    Stamp,
}

const LONGEST_PRE: u32 = 100_000;

const LONGEST: u32 = 1_000_000;

const MOST_WAITING: u32 = 64;

/// The highest time stamp that a binary data file can hold, in microseconds. FFFFFFFF marks a
/// missing one (C37.111-1999, clause 6).
const LAST_STAMP: u64 = 4_294_967_294;

impl Limits {
    ghost use Rattle.std.specs.Prelude.{◌≡◌, ◌≤◌, Some, None, IfOk, IfErr, true, false};
    ghost use Rattle.dfr_recorder.specs.Limits.{limit_fault, has_stamps};

    /// Whether the time stamps of `longest` rows can be written at this rate, in scans a second.
    fn has_stamps(rate: u32, longest: u32) -> bool
        requires low { 1 ≤ rate }
        requires some { 1 ≤ longest }
        ensures { result ≡ has_stamps rate longest }
    {
        (longest as u64 - 1) * 1_000_000 / rate as u64 <= LAST_STAMP
    }

    /// Checks the limits of records over this layout; the records may share scans. The error is the
    /// first test that fails. Doesn't allocate.
    pub fn new<A: Allocator>(
        layout: &Layout<A>,
        pre: u32,
        post: u32,
        longest: u32,
        shelf: u32,
    ) -> Result<Limits, LimitFault>
        ensures lawful { IfOk result (λ _. limit_fault layout.now.rate pre post longest shelf ≡ None) }
        ensures made { IfOk result (λ limits. (limits.pre ≡ pre) × (limits.post ≡ post) × (limits.longest ≡ longest) × (limits.shelf ≡ shelf)) }
        ensures shared { IfOk result (λ limits. limits.unshared ≡ false) }
        ensures fault { IfErr result (λ fault. limit_fault layout.now.rate pre post longest shelf ≡ Some fault) }
    {
        if pre > LONGEST_PRE {
            return Err(LimitFault::Pre);
        }
        if post == 0 {
            return Err(LimitFault::Post);
        }
        if pre as u64 + 1 + post as u64 > longest as u64 {
            return Err(LimitFault::Longest);
        }
        if longest > LONGEST {
            return Err(LimitFault::Longest);
        }
        if shelf == 0 {
            return Err(LimitFault::Shelf);
        }
        if shelf > MOST_WAITING {
            return Err(LimitFault::Shelf);
        }
        if !Limits::has_stamps(layout.rate(), longest) {
            return Err(LimitFault::Stamp);
        }
        Ok(Limits {
            pre,
            post,
            longest,
            shelf,
            unshared: false,
        })
    }

    /// The same limits for records that share no scan: a record begins after the last scan of the
    /// one opened before it. A manual trigger at a scan of a closed record is refused. Doesn't
    /// allocate.
    pub fn unshared(self) -> Limits
        ensures { result ≡ record self { unshared = true } }
    {
        Limits {
            pre: self.pre,
            post: self.post,
            longest: self.longest,
            shelf: self.shelf,
            unshared: true,
        }
    }

    /// Whether each scan is in at most one record.
    pub fn is_unshared(&self) -> bool
        ensures { result ≡ self.now.unshared }
    {
        self.unshared
    }

    /// Whether the time stamps of the longest record can be written at this layout's rate.
    pub fn fits<A: Allocator>(&self, layout: &Layout<A>) -> bool
        ensures { result ≡ has_stamps layout.now.rate self.now.longest }
    {
        Limits::has_stamps(layout.rate(), self.longest)
    }

    /// The most scans before a trigger, at most 100,000.
    pub fn pre(&self) -> u32
        ensures { result ≡ self.now.pre }
    {
        self.pre
    }

    /// The scans after a trigger, at least 1.
    pub fn post(&self) -> u32
        ensures { result ≡ self.now.post }
    {
        self.post
    }

    /// The most scans of a record, at most 1,000,000.
    pub fn longest(&self) -> u32
        ensures { result ≡ self.now.longest }
    {
        self.longest
    }

    /// The most finished records that may wait, from 1 to 64.
    pub fn shelf(&self) -> u32
        ensures { result ≡ self.now.shelf }
    {
        self.shelf
    }
}
