//! What a trigger does to the newest record, in numbers of scans and records only.

ghost use Rattle.std.specs.Prelude.{◌≡◌, ◌+◌, ◌<◌, ◌^◌, IfSome};
ghost use Rattle.dfr_recorder.specs.Marks.{extended, first_scan, begun, mark, mark_if, is_covered, closed_by, scanned};
ghost use Rattle.dfr_recorder.specs.History.{refused_when_full};

use crate::{Cause, Extent, Hit, Limits, Scanned, TriggerFault};

/// The newest record: its number, and the number of the scan after its last. Both are 0 if no
/// record was opened.
#[derive(Clone, Copy, Debug)]
pub(crate) struct Newest {
    pub(crate) number: u64,
    pub(crate) end: u64,
}

/// What a trigger meets: the newest record, whether the shelf is full, and the open one's extent.
#[derive(Clone, Copy, Debug)]
pub(crate) struct Met {
    pub(crate) newest: Newest,
    pub(crate) full: bool,
    pub(crate) extent: Option<Extent>,
}

/// The effect of a trigger: what it did, the newest record after it, and the open one's extent.
#[derive(Clone, Copy, Debug)]
pub(crate) struct Marked {
    pub(crate) hit: Hit,
    pub(crate) newest: Newest,
    pub(crate) extent: Option<Extent>,
}

/// The effect of a scan, which may have fired no rule; otherwise as `Marked`.
#[derive(Clone, Copy, Debug)]
pub(crate) struct MarkedIf {
    pub(crate) hit: Option<Hit>,
    pub(crate) newest: Newest,
    pub(crate) extent: Option<Extent>,
}

/// A trigger at scan `k` extends the open record, as far as its greatest length allows.
fn extend(limits: Limits, k: u64, newest: Newest, extent: Extent) -> Marked
    requires early { k < 2 ^ 62 }
    requires begun { extent.first < 2 ^ 62 }
    ensures { result ≡ extended limits k newest extent }
{
    let asked = k + limits.post() as u64;
    let limit = extent.first + limits.longest() as u64 - 1;
    let hit = if asked > limit {
        Hit::AtLimit(newest.number)
    } else {
        Hit::Extended(newest.number)
    };
    let last = asked.min(limit);
    Marked {
        hit,
        newest: Newest {
            end: last + 1,
            ..newest
        },
        extent: Some(Extent { last, ..extent }),
    }
}

/// The first scan of a record that a trigger at scan `k` opens.
fn first_scan(limits: Limits, k: u64, newest: Newest) -> u64
    ensures { result ≡ first_scan limits k newest }
{
    let first = k.saturating_sub(limits.pre() as u64);
    if limits.is_unshared() {
        first.max(newest.end)
    } else {
        first
    }
}

/// A trigger at scan `k` opens a record.
fn begin(limits: Limits, k: u64, cause: Cause, newest: Newest) -> Marked
    requires early { k < 2 ^ 62 }
    requires few { newest.number < 2 ^ 62 }
    ensures { result ≡ begun limits k cause newest }
{
    let number = newest.number + 1;
    let last = k + limits.post() as u64;
    Marked {
        hit: Hit::Opened(number),
        newest: Newest {
            number,
            end: last + 1,
        },
        extent: Some(Extent {
            number,
            first: first_scan(limits, k, newest),
            trigger: k,
            last,
            cause,
        }),
    }
}

/// The effect of a trigger at scan `k`.
pub(crate) fn mark(limits: Limits, k: u64, cause: Cause, met: Met) -> Marked
    requires early { k < 2 ^ 62 }
    requires few { met.newest.number < 2 ^ 62 }
    requires begun { IfSome met.extent (λ e. e.first < 2 ^ 62) }
    ensures { result ≡ mark limits k cause met }
{
    match met.extent {
        Some(extent) => extend(limits, k, met.newest, extent),
        None => {
            if met.full {
                return Marked {
                    hit: Hit::ShelfFull,
                    newest: met.newest,
                    extent: None,
                };
            }
            begin(limits, k, cause, met.newest)
        }
    }
}

/// Whether a manual trigger at scan `k` would share a scan of a closed record, which unshared
/// limits forbid.
pub(crate) fn is_covered(limits: Limits, k: u64, met: Met) -> bool
    ensures { result ≡ is_covered limits k met }
{
    limits.is_unshared() && met.extent.is_none() && k < met.newest.end
}

/// Refuses a manual trigger that met a full shelf.
pub(crate) fn refused_when_full(hit: Hit) -> Result<Hit, TriggerFault>
    ensures { result ≡ refused_when_full hit }
{
    match hit {
        Hit::ShelfFull => Err(TriggerFault::ShelfFull),
        Hit::Opened(_) | Hit::Extended(_) | Hit::AtLimit(_) => Ok(hit),
    }
}

/// The effect of scan `n`, which may have fired a rule.
pub(crate) fn mark_if(limits: Limits, n: u64, fired: Option<u32>, met: Met) -> MarkedIf
    requires early { n < 2 ^ 62 }
    requires few { met.newest.number < 2 ^ 62 }
    requires begun { IfSome met.extent (λ e. e.first < 2 ^ 62) }
    ensures { result ≡ mark_if limits n fired met }
{
    match fired {
        Some(rule) => {
            let marked = mark(limits, n, Cause::Rule(rule), met);
            MarkedIf {
                hit: Some(marked.hit),
                newest: marked.newest,
                extent: marked.extent,
            }
        }
        None => MarkedIf {
            hit: None,
            newest: met.newest,
            extent: met.extent,
        },
    }
}

/// The number of the record that scan `n` closes, if any.
fn closed_by(n: u64, newest: Newest, extent: Option<Extent>) -> Option<u64>
    ensures { result ≡ closed_by n newest extent }
{
    match extent {
        Some(extent) => {
            if extent.last == n {
                Some(newest.number)
            } else {
                None
            }
        }
        None => None,
    }
}

/// The answer to the accepted scan `n`.
pub(crate) fn scanned(n: u64, marked: MarkedIf) -> Scanned
    ensures { result ≡ scanned n marked }
{
    Scanned {
        number: n,
        trigger: marked.hit,
        closed: closed_by(n, marked.newest, marked.extent),
    }
}
