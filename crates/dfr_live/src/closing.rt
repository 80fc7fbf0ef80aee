//! The end of a recording in three threads.

ghost use Rattle.std.specs.Prelude.{◌≡◌, ◌≢◌, ◌⊎◌, Ok, Err, IfOk, IfErr};
ghost use Rattle.dfr_live.specs.Ends.{Ends, EachSeatOnce};
ghost use Rattle.dfr_live.specs.Causes.{IsEnd};
ghost use Rattle.dfr_live.specs.Report.{Reports};

use crate::devices::Pace;
use crate::ended::{EndFault, Ended, end};
use crate::inner::Inner;
use crate::report::{LiveFault, LiveReport, first_fault, records_in};
use crate::session::Session;
use crate::source::Source;
use crate::token::Token;
use crate::works::Known;
use std::alloc::Allocator;
use std::sync::Wait;

/// The error of a thread, if it has one.
pub(crate) fn fault_in<O>(outcome: &Result<O, LiveFault>) -> Result<(), LiveFault>
    ensures { IfErr result (λ fault. outcome.now ≡ Err fault) }
{
    match outcome {
        Ok(_) => Ok(()),
        Err(fault) => Err(*fault),
    }
}

/// The error of a run of which a thread could not be started: that of another thread, if it comes
/// first in `LiveFault`, else `Memory`.
pub(crate) fn not_started(
    trigger: Result<(), LiveFault>,
    exports: Result<(), LiveFault>,
) -> Result<(), LiveFault>
    ensures fails { result ≢ Ok tt }
    ensures fault { IfErr result (λ fault. (fault ≡ LiveFault.Memory)
        ⊎ ((trigger ≡ Err fault) ⊎ (exports ≡ Err fault))) }
{
    first_fault(false, Ok(()), trigger, exports)
}

/// The error of a run whose threads were all started: that of a thread, the one that comes first in
/// `LiveFault`. Ok where no thread has one.
pub(crate) fn first_of<'s>(
    acquired: &Result<Known<'s>, LiveFault>,
    triggered: &Result<Known<'s>, LiveFault>,
    exported: &Result<bool, LiveFault>,
) -> Result<(), LiveFault>
    ensures { IfErr result (λ fault. (acquired.now ≡ Err fault)
        ⊎ ((triggered.now ≡ Err fault) ⊎ (exported.now ≡ Err fault))) }
{
    first_fault(
        true,
        fault_in(acquired),
        fault_in(triggered),
        fault_in(exported),
    )
}

/// Ends the recording, and counts what was done.
pub(crate) fn report<N: Session<A>, A: Allocator + Copy>(
    rt: &impl Wait,
    alloc: A,
    pace: &impl Pace,
    inner: Inner<N, A>,
    source: Source<N, A>,
    tokens: Vec<Token<A>, A>,
) -> Result<LiveReport<A>, LiveFault>
    requires seats { N.seats ≡ 2 }
    requires once { EachSeatOnce N.seats tokens.items }
    ensures ended { IfOk result (λ report. (reports : Reports N.opening report)
        × (reports.inner ≡ inner) × (reports.source ≡ source) × (reports.tokens ≡ tokens.items)) }
    ensures fault { IfErr result (λ fault. IsEnd fault) }
{
    let _ = inner.opening();
    let stepped = inner.steps();
    let ended = end_patiently(rt, alloc, pace, inner, source, tokens)?;
    let records = records_in(ended.log.as_slice());
    let refused = stepped - ended.recorder.scans();
    Ok(LiveReport {
        stepped,
        refused,
        records,
        ended,
    })
}

/// Ends the recording. If an allocation fails, it is tried again as the pace has it.
fn end_patiently<N: Session<A>, A: Allocator + Copy>(
    rt: &impl Wait,
    alloc: A,
    pace: &impl Pace,
    inner: Inner<N, A>,
    source: Source<N, A>,
    tokens: Vec<Token<A>, A>,
) -> Result<Ended<A>, LiveFault>
    requires { EachSeatOnce N.seats tokens.items }
    ensures ended { IfOk result (λ e. Ends inner source tokens.items e) }
    ensures fault { IfErr result (λ fault. IsEnd fault) }
{
    let mut parts = (inner, source, tokens);
    for _ in rt.forever() {
        let (inner, source, tokens) = parts;
        match end(alloc, inner, source, tokens) {
            Ok(ended) => return Ok(ended),
            Err((EndFault::Memory, inner, source, tokens)) => {
                parts = (inner, source, tokens);
                if pace.short().is_err() {
                    return Err(LiveFault::End(EndFault::Memory));
                }
            }
            Err((fault, _, _, _)) => return Err(LiveFault::End(fault)),
        }
    }
    unreachable!()
}
