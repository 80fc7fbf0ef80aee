//! Whether the samples of a window meet a level.

ghost use Rattle.std.specs.Prelude.{◌≡◌, ◌+◌, ◌*◌, ◌≤◌, ◌^◌, ◌-ℤ◌, unsigned_abs};
ghost use Rattle.dfr_detect.specs.Levels as spec;

use crate::Condition;
use crate::window::Window;
use std::alloc::Allocator;

/// How many samples a condition over so many scans looks at.
pub(crate) fn span(condition: Condition, scans: u32) -> usize
    requires { scans ≤ 2 ^ 16 }
    ensures value { result ≡ spec.span condition scans }
    ensures bound { result ≤ 2 ^ 18 }
{
    let scans = scans as usize;
    match condition {
        Condition::RmsOver | Condition::RmsUnder => scans,
        Condition::Change => scans + 1,
        Condition::Jump => 2 * scans + 1,
        Condition::Frequency(_) | Condition::Waves(_) => 0,
    }
}

/// The sum of squares of so many samples whose rms value is the level.
#[inline(always)]
fn squares_at(scans: u32, level: u64) -> u128
    requires scans { scans ≤ 2 ^ 16 }
    requires level { level ≤ 2 ^ 40 }
    ensures { result ≡ scans * (level * level) }
{
    let level = u128::from(level);
    u128::from(scans) * (level * level)
}

/// The change over so many scans, up to the sample `end` scans before the newest.
#[inline(always)]
fn change<A: Allocator>(scans: usize, end: usize, window: &Window<A>) -> i64
    requires scans { scans ≤ 2 ^ 16 }
    requires end { end ≤ 2 ^ 16 }
    ensures value { result ≡ spec.change scans end window.now.items }
    ensures bound { unsigned_abs result ≤ 2 ^ 40 }
{
    window.ago(end) - window.ago(end + scans)
}

/// The difference between this change and the one before it.
#[inline(always)]
fn jump<A: Allocator>(scans: usize, window: &Window<A>) -> i64
    requires { scans ≤ 2 ^ 16 }
    ensures { result ≡ spec.change scans 0 window.now.items -ℤ spec.change scans scans window.now.items }
{
    change(scans, 0, window) - change(scans, scans, window)
}

/// Whether the samples meet the level, as many as the condition looks at.
#[inline(always)]
pub(crate) fn meets<A: Allocator>(
    condition: Condition,
    scans: u32,
    level: u64,
    window: &Window<A>,
) -> bool
    requires scans { scans ≤ 2 ^ 16 }
    requires level { level ≤ 2 ^ 40 }
    ensures { result ≡ spec.meets condition scans level window.now.items }
{
    match condition {
        Condition::RmsOver => squares_at(scans, level) <= window.squares(),
        Condition::RmsUnder => window.squares() <= squares_at(scans, level),
        Condition::Change => level <= change(scans as usize, 0, window).unsigned_abs(),
        Condition::Jump => level <= jump(scans as usize, window).unsigned_abs(),
        Condition::Frequency(_) | Condition::Waves(_) => false,
    }
}

/// Whether the window is full and its samples meet the level.
#[inline(always)]
pub(crate) fn is_met<A: Allocator>(
    condition: Condition,
    scans: u32,
    level: u64,
    window: &Window<A>,
) -> bool
    requires scans { scans ≤ 2 ^ 16 }
    requires level { level ≤ 2 ^ 40 }
    requires places { window.now.capacity ≡ spec.span condition scans }
    ensures { result ≡ spec.is_met condition scans level window.now.items }
{
    window.is_full() && meets(condition, scans, level, window)
}
