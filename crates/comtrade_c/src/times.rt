//! Computes when the rows of a pair were sampled.

ghost use Rattle.std.specs.Prelude.{◌≡◌, ◌≢◌, ◌⊎◌, length};
ghost use Rattle.comtrade_c.specs.declared.answer.TheConstants.{NO_MEMORY};
ghost use Rattle.comtrade_c.specs.Faults.{IsHeadFault, OfHead};
ghost use Rattle.comtrade_c.specs.Times as spec;

use crate::answer::{CFG_FAULT, DONE, Fault, NO_ROOM, head_of};
use crate::write::stamp_of;
use comtrade_format::{Border, Head, clock_with, search_of};
use std::alloc::{Allocator, Global};

/// The time of a row that has none, or whose time needs more than 63 bits.
const NO_TIME: i64 = i64::MIN;

fn time_in(nanos: Option<u128>) -> i64
    ensures { result ≡ spec.time_in nanos }
{
    match nanos {
        Some(n) if n < 9_223_372_036_854_775_808 => n as i64,
        _ => NO_TIME,
    }
}

/// Which rate gives the interval across the borders of rates, by the stamps of all rows.
fn border_in<A: Allocator>(head: &Head<A>, stamps: &[u64]) -> Border
    ensures { result ≡ spec.border_in head.now stamps.now }
{
    if head.rates.items().len() < 2 {
        return Border::Old;
    }
    let mut search = search_of(head);
    for (k, stamp) in stamps.iter().enumerate() {
        search = search.after(k as u64, stamp_of(*stamp));
    }
    search.border()
}

/// Computes the time of each row, starting with the first row of the file.
fn put_times<A: Allocator>(head: &Head<A>, stamps: &[u64], times: &mut [i64])
    requires { length times.old ≡ length stamps.now }
    ensures { times.new ≡ spec.times_in head.now stamps.now }
{
    let mut clock = clock_with(head, border_in(head, stamps));
    for (k, stamp) in stamps.iter().enumerate() {
        // a clock that starts some rows earlier is as fast
        if k % 256 == 0 {
            clock = clock.at(k as u64);
        }
        times[k] = time_in(clock.nanos(k as u64, stamp_of(*stamp)));
    }
}

/// Computes the times of the rows with these stamps, starting with the first row of the file, in
/// nanoseconds since that row. A row without a time gets -2^63.
///
/// Returns `DONE`, `NO_ROOM` if `times` isn't as long as `stamps`, `CFG_FAULT` with `fault` set, or
/// `NO_MEMORY`. Only `DONE` changes `times`.
#[unsafe(no_mangle)]
pub extern "C" fn comtrade_core_times(
    alloc: Global,
    cfg: &[u8],
    stamps: &[u64],
    times: &mut [i64],
    fault: &mut Fault,
) -> i32
    ensures answer { (result ≡ DONE) ⊎ (result ≡ CFG_FAULT) ⊎ (result ≡ NO_ROOM)
        ⊎ (result ≡ NO_MEMORY) }
    ensures done { result ≡ DONE → OfHead cfg.now (λ h.
        times.new ≡ spec.times_in h stamps.now) }
    ensures room { result ≡ NO_ROOM → length times.old ≢ length stamps.now }
    ensures cfg_fault { result ≡ CFG_FAULT → IsHeadFault cfg.now fault.new }
    ensures times_kept { (result ≢ DONE) → times.new ≡ times.old }
    ensures fault_kept { (result ≢ CFG_FAULT) → fault.new ≡ fault.old }
{
    if times.len() != stamps.len() {
        return NO_ROOM;
    }
    let head = match head_of(alloc, cfg, fault) {
        Ok(head) => head,
        Err(answer) => return answer,
    };
    put_times(&head, stamps, times);
    DONE
}
