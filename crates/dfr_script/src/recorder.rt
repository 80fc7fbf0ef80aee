//! Makes the recorder that a set-up describes.

ghost use Rattle.std.specs.Prelude.{◌≡◌, IfOk, IfErr, IsTrue, MatchResult, Some, None, option_map, if◌then◌else◌, true};
ghost use Rattle.dfr_channels.specs.Firing.{rules_fault, rules_fit};
ghost use Rattle.dfr_channels.specs.Setups.{setup_fault};
ghost use Rattle.dfr_recorder.specs.Limits.{has_stamps};
ghost use Rattle.dfr_script.specs.declared.recorder.RecorderFault.TheVariants as fault;
ghost use Rattle.dfr_script.specs.Recorders as spec;

use crate::limit_line::LimitNumbers;
use crate::set_up::RecorderSetup;
use dfr_channels::{Layout, Rule, RuleFault, Rules, Setup, SetupFault};
use dfr_recorder::{LimitFault, Limits, Recorder};
use std::alloc::Allocator;

/// What is wrong with a set-up, in the order of the tests.
#[derive(Clone, Copy, Debug, PartialEq, Eq)]
pub enum RecorderFault {
    /// `Layout::new` refuses its channels, rate or start.
    Setup(SetupFault),
    /// `Limits::new` refuses its limits.
    Limits(LimitFault),
    /// `Rules::new` refuses its rules.
    Rules(RuleFault),
}

/// Why no recorder could be made.
#[derive(Clone, Copy, Debug, PartialEq, Eq)]
pub enum RecorderRefusal {
    /// The first fault of the set-up.
    Fault(RecorderFault),
    /// An allocation failed.
    Memory,
}

/// The limits, with the `unshared` choice where it is made.
fn with_choice(limits: Limits, unshared: bool) -> Limits
    ensures { result ≡ (if unshared then record limits { unshared = true } else limits) }
{
    if unshared { limits.unshared() } else { limits }
}

/// The limits with these numbers and this choice.
fn limits_of<A: Allocator>(layout: &Layout<A>, numbers: LimitNumbers) -> Result<Limits, LimitFault>
    ensures lawful { IfOk result (λ _. spec.number_fault layout.now.rate numbers ≡ None) }
    ensures stamps { IfOk result (λ limits. IsTrue (has_stamps layout.now.rate limits.longest)) }
    ensures same { IfOk result (spec.HasNumbers numbers) }
    ensures fault { IfErr result (λ fault. spec.number_fault layout.now.rate numbers ≡ Some fault) }
{
    let limits = Limits::new(
        layout,
        numbers.pre,
        numbers.post,
        numbers.longest,
        numbers.shelf,
    )?;
    Ok(with_choice(limits, numbers.unshared))
}

/// The layout of a set-up.
fn layout_of<A: Allocator>(setup: Setup<A>) -> Result<Layout<A>, RecorderRefusal>
    ensures { MatchResult result
        (λ layout. (setup_fault setup ≡ None) × (layout ≡ setup))
        (spec.Refuses (option_map fault.Setup (setup_fault setup))) }
{
    match Layout::new(setup) {
        Ok(layout) => Ok(layout),
        Err((fault, _)) => Err(RecorderRefusal::Fault(RecorderFault::Setup(fault))),
    }
}

/// The rules of a list, checked against the layout.
fn rules_in<A: Allocator>(
    layout: &Layout<A>,
    list: Vec<Rule, A>,
) -> Result<Rules<A>, RecorderRefusal>
    ensures fits { IfOk result (λ rules. IsTrue (rules_fit layout.now rules)) }
    ensures rules { MatchResult result
        (λ rules. (rules_fault layout.now list.items ≡ None) × (rules ≡ list.items))
        (spec.Refuses (option_map fault.Rules (rules_fault layout.now list.items))) }
{
    match Rules::new(layout, list) {
        Ok(rules) => Ok(rules),
        Err((fault, _)) => Err(RecorderRefusal::Fault(RecorderFault::Rules(fault))),
    }
}

/// Makes a recorder from a layout, the numbers of its limits, and its first rules.
fn recorder_over<A: Allocator + Copy>(
    alloc: A,
    layout: Layout<A>,
    numbers: LimitNumbers,
    list: Vec<Rule, A>,
) -> Result<Recorder<A>, RecorderRefusal>
    ensures { MatchResult result
        (λ recorder. (spec.limits_or_rules_fault layout numbers list.items ≡ None)
        × spec.IsMadeOf (record { setup = layout; limits = numbers; rules = list.items }) recorder)
        (spec.Refuses (spec.limits_or_rules_fault layout numbers list.items)) }
{
    let limits = match limits_of(&layout, numbers) {
        Ok(limits) => limits,
        Err(fault) => return Err(RecorderRefusal::Fault(RecorderFault::Limits(fault))),
    };
    let rules = rules_in(&layout, list)?;
    match Recorder::new(alloc, layout, limits, rules) {
        Ok(recorder) => Ok(recorder),
        Err(_) => Err(RecorderRefusal::Memory),
    }
}

/// Makes the recorder that a set-up describes, or finds the set-up's first fault: in its channels,
/// rate and start, then in its limits, then in its rules. `Memory`: an allocation failed.
pub fn recorder_of<A: Allocator + Copy>(
    alloc: A,
    set_up: RecorderSetup<A>,
) -> Result<Recorder<A>, RecorderRefusal>
    ensures { MatchResult result
        (λ recorder. (spec.set_up_fault set_up ≡ None) × spec.IsMadeOf set_up recorder)
        (spec.Refuses (spec.set_up_fault set_up)) }
{
    let RecorderSetup {
        setup,
        limits,
        rules,
    } = set_up;
    let layout = layout_of(setup)?;
    recorder_over(alloc, layout, limits, rules)
}
