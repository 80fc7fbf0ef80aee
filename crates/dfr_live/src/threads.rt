//! Runs works in threads of their own; the starter gets their results.

ghost use Rattle.std.specs.Prelude.{◌≡◌, IfOk, IfErr, IfSome};
ghost use Rattle.dfr_live.specs.Station.{Joins, JoinsOrHas};

use crate::signals::Signals;
use std::snapshot::Snapshot;
use std::sync::Wait;
use std::thread;
use std::thread::{Promise, PromisedHandle, Scope, Threads};

/// What one thread does.
pub(crate) trait Work {
    type Output;

    ghost can_run: { Self → Type 0 };

    ghost run_gives: { Self → Self.Output → Type 0 };

    fn run(self) -> Self::Output
        requires { can_run self }
        ensures { run_gives self result };
}

/// The promise that a work's result is what the work states.
#[derive(Drop)]
struct Promised<S>(Snapshot<S>);

impl<S: Work<Output = T>, T> Promise<T> for Promised<S> {
    ghost kept_by = { λ p r. S.run_gives p.0.value r };
}

/// Starts a work in a thread. Where it cannot be started, it tells the other threads, and does the
/// work here, which stops at its first turn. So what it was lent comes back.
fn start_or_run<'s, E, S: Work<Output = T> + Send + Drop + 's, T: Send + Drop + 's>(
    scope: &Scope<'s, E>,
    signals: &Signals,
    work: S,
) -> Result<PromisedHandle<T, Promised<S>>, T>
    requires { S.can_run work }
    ensures started { IfOk result (λ h. h.promise.0.value ≡ work) }
    ensures done { IfErr result (λ r. S.run_gives work r) }
{
    let promise = Promised(Snapshot::of(&work));
    let started = scope.spawn_with(
        promise,
        move || -> T
            requires { S.can_run work }
            ensures { S.run_gives work result }
        { work.run() },
    );
    match started {
        Ok(handle) => Ok(handle),
        Err(refused) => {
            signals.fail();
            Err((refused.value)())
        }
    }
}

/// Starts a work in a thread, if `goes_on`. None where it is not started. Where it cannot be
/// started, it tells the other threads.
fn start<'s, E, S: Work<Output = T> + Send + Drop + 's, T: Send + Drop + 's>(
    goes_on: bool,
    scope: &Scope<'s, E>,
    signals: &Signals,
    work: S,
) -> Option<PromisedHandle<T, Promised<S>>>
    requires { S.can_run work }
    ensures { IfSome result (λ h. h.promise.0.value ≡ work) }
{
    if !goes_on {
        return None;
    }
    let promise = Promised(Snapshot::of(&work));
    let started = scope.spawn_with(
        promise,
        move || -> T
            requires { S.can_run work }
            ensures { S.run_gives work result }
        { work.run() },
    );
    if started.is_err() {
        signals.fail();
    }
    started.ok()
}

/// Waits for a work that was started, and returns its result.
fn join<R: Threads, S: Work<Output = T>, T: Send + Drop>(
    rt: &R,
    started: Option<PromisedHandle<T, Promised<S>>>,
) -> Option<T>
    ensures { Joins (λ h r. S.run_gives h.promise.0.value r) started result }
{
    match started {
        Some(handle) => Some(handle.join(rt)),
        None => None,
    }
}

/// Waits for a work, if it was started, and returns its result.
fn join_or_take<R: Threads, S: Work<Output = T>, T: Send + Drop>(
    rt: &R,
    started: Result<PromisedHandle<T, Promised<S>>, T>,
) -> T
    ensures { JoinsOrHas (λ h r. S.run_gives h.promise.0.value r) started result }
{
    match started {
        Ok(handle) => handle.join(rt),
        Err(done) => done,
    }
}

/// Runs three works, each in a thread of its own, and waits for them. Where a work cannot be
/// started, those after it are not started either. None for the second and the third where they were
/// not; the first is then done here.
pub(crate) fn in_three_threads<
    R: Threads + Wait,
    S: Work<Output = X> + Send + Drop,
    T: Work<Output = Y> + Send + Drop,
    U: Work<Output = Z> + Send + Drop,
    X: Send + Drop,
    Y: Send + Drop,
    Z: Send + Drop,
>(rt: &R, signals: &Signals, first: S, second: T, third: U) -> (X, Option<Y>, Option<Z>)
    requires { S.can_run first × T.can_run second × U.can_run third }
    ensures first { S.run_gives first result.0 }
    ensures second { IfSome result.1 (λ r. T.run_gives second r) }
    ensures third { IfSome result.2 (λ r. U.run_gives third r) }
{
    thread::scope(
        thread::scope_env(),
        rt,
        |scope| -> (X, Option<Y>, Option<Z>)
            requires { S.can_run first × T.can_run second × U.can_run third }
            ensures first { S.run_gives first result.0 }
            ensures second { IfSome result.1 (λ r. T.run_gives second r) }
            ensures third { IfSome result.2 (λ r. U.run_gives third r) }
        {
            let first = start_or_run(scope, signals, first);
            let second = start(first.is_ok(), scope, signals, second);
            let third = start(second.is_some(), scope, signals, third);
            (join_or_take(rt, first), join(rt, second), join(rt, third))
        },
    )
}
