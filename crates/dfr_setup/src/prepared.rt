//! Makes a recorder and its detectors from a set-up file.

ghost use Rattle.std.specs.Prelude.{◌≡◌, ◌++◌, [], None, Ok, IfOk, OnOk, MatchResult, map};
ghost use Rattle.std.specs.List.{All};
ghost use Rattle.comtrade_values.specs.Lines.{lines, cut_lines};
ghost use Rattle.dfr_channels.specs.Setups.{setup_fault};
ghost use Rattle.dfr_detect.specs.Detection.{detected, all_detected};
ghost use Rattle.dfr_detect.specs.Lost.{Works};
ghost use Rattle.dfr_script.specs.Recorders.{IsMadeOf, set_up_fault};
ghost use Rattle.dfr_script.specs.Scripts.{set_up};
ghost use Rattle.dfr_setup.specs.Plans.{wanted_of, status_of, with_channels, with_lines};
ghost use Rattle.dfr_setup.specs.SetupFiles as spec;

use crate::plan::Plan;
use crate::plans::plans_of;
use crate::refusal::refusal_of;
use crate::text::plain_of;
use crate::{DetectorRefusal, SetupRefusal};
use comtrade_values::{Items, Memory};
use dfr_channels::{Layout, Setup, StatusChannel};
use dfr_detect::{Detector, Detectors};
use dfr_recorder::Recorder;
use dfr_script::{RecorderRefusal, RecorderSetup, recorder_of, set_up_of};
use std::alloc::{Allocator, Global};

/// A station that may record.
#[derive(Drop)]
pub struct Prepared<A: Allocator = Global> {
    /// The recorder. Its last status channels are those of the detectors.
    pub recorder: Recorder<A>,
    /// The channels of the input: all but those of the detectors.
    pub inputs: Layout<A>,
    /// The detectors, in the order of their status channels.
    pub plans: Vec<Plan<A>, A>,
    /// The same, ready for the first scan.
    pub detectors: Detectors<A>,
}

/// The recorder of a set-up.
fn recorder_over<A: Allocator + Copy>(
    alloc: A,
    set_up: RecorderSetup<A>,
) -> Result<Recorder<A>, SetupRefusal>
    ensures { MatchResult result
        (λ recorder. (set_up_fault set_up ≡ None) × IsMadeOf set_up recorder)
        (spec.Refuses (spec.recorder_fault set_up)) }
{
    match recorder_of(alloc, set_up) {
        Ok(recorder) => Ok(recorder),
        Err(RecorderRefusal::Fault(fault)) => Err(refusal_of(fault)),
        Err(RecorderRefusal::Memory) => Err(SetupRefusal::Memory),
    }
}

/// The layout of a copy of the set-up.
fn layout_of<A: Allocator + Copy>(setup: &Setup<A>) -> Result<Layout<A>, SetupRefusal>
    ensures { MatchResult result
        (λ layout. (setup_fault setup.now ≡ None) × (layout ≡ setup.now))
        (spec.Refuses (spec.inputs_fault setup.now)) }
{
    match Layout::new(setup.try_clone()?) {
        Ok(layout) => Ok(layout),
        Err((fault, copy)) => {
            drop(copy);
            Err(SetupRefusal::Setup(fault))
        }
    }
}

/// The detectors that the lines ask for.
fn planned<A: Allocator + Copy>(
    alloc: A,
    setup: &Setup<A>,
    text: &[u8],
) -> Result<Vec<Plan<A>, A>, SetupRefusal>
    ensures { MatchResult result
        (λ plans. with_lines setup.now 1 [] (cut_lines text.now) ≡ Ok plans.items)
        (spec.Refuses (spec.lines_fault (with_lines setup.now 1 [] (cut_lines text.now)))) }
{
    match plans_of(alloc, setup, text) {
        Ok(plans) => Ok(plans),
        Err((line, DetectorRefusal::Fault(fault))) => Err(SetupRefusal::Detector(line, fault)),
        Err((_, DetectorRefusal::Memory)) => Err(SetupRefusal::Memory),
    }
}

/// The detector of a plan, which has seen no scan.
fn detector_of<A: Allocator + Copy>(alloc: A, plan: &Plan<A>) -> Result<Detector<A>, Memory>
    ensures new { IfOk result (λ detector. detector ≡ detected (wanted_of plan.now) []) }
    ensures works { Works (wanted_of plan.now) }
{
    let channels = plan.channels.try_clone()?;
    Detector::new(alloc, plan.settings, channels.into_vec())
}

/// The detectors of these plans, which have seen no scan.
pub(crate) fn detectors_of<A: Allocator + Copy>(
    alloc: A,
    plans: &[Plan<A>],
) -> Result<Detectors<A>, Memory>
    ensures new { IfOk result (λ detectors. detectors ≡ all_detected (map wanted_of plans.now) []) }
    ensures works { OnOk result (All Works (map wanted_of plans.now)) }
{
    let mut list = Vec::with_capacity(alloc, plans.len())?;
    for plan in plans {
        list.push(detector_of(alloc, plan)?)?;
    }
    Ok(Detectors::new(list))
}

/// Adds the status channels of these detectors.
fn add_channels<A: Allocator + Copy>(
    status: &mut Vec<StatusChannel<A>, A>,
    plans: &[Plan<A>],
) -> Result<(), Memory>
    ensures { OnOk result (status.new.items ≡ status.old.items ++ map status_of plans.now) }
{
    for plan in plans {
        status.push(plan.status()?)?;
    }
    Ok(())
}

/// The set-up with the detectors' status channels behind the contacts.
fn with_channels<A: Allocator + Copy>(
    setup: Setup<A>,
    plans: &[Plan<A>],
) -> Result<Setup<A>, Memory>
    ensures { IfOk result (λ all. all ≡ with_channels setup plans.now) }
{
    let Setup {
        station,
        device,
        analog,
        status,
        line_freq,
        rate,
        start,
    } = setup;
    let mut status = status.into_vec();
    add_channels(&mut status, plans)?;
    Ok(Setup {
        station,
        device,
        analog,
        status: Items::of(status),
        line_freq,
        rate,
        start,
    })
}

/// The recorder of a set-up and of the detectors' status channels.
fn recorder_with<A: Allocator + Copy>(
    alloc: A,
    set_up: RecorderSetup<A>,
    plans: &[Plan<A>],
) -> Result<Recorder<A>, SetupRefusal>
    ensures { MatchResult result
        (λ recorder. (set_up_fault (spec.with_plans set_up plans.now) ≡ None)
        × IsMadeOf (spec.with_plans set_up plans.now) recorder)
        (spec.Refuses (spec.recorder_fault (spec.with_plans set_up plans.now))) }
{
    let RecorderSetup {
        setup,
        limits,
        rules,
    } = set_up;
    let setup = with_channels(setup, plans)?;
    recorder_over(
        alloc,
        RecorderSetup {
            setup,
            limits,
            rules,
        },
    )
}

/// The recorder of all channels, and the detectors of these plans.
fn prepared_with<A: Allocator + Copy>(
    alloc: A,
    set_up: RecorderSetup<A>,
    inputs: Layout<A>,
    plans: Vec<Plan<A>, A>,
) -> Result<Prepared<A>, SetupRefusal>
    requires { inputs ≡ set_up.setup }
    ensures { MatchResult result
        (λ prepared. (set_up_fault (spec.with_plans set_up plans.items) ≡ None)
        × spec.IsPrepared set_up plans.items prepared)
        (spec.Refuses (spec.recorder_fault (spec.with_plans set_up plans.items))) }
{
    let detectors = detectors_of(alloc, &plans)?;
    let recorder = recorder_with(alloc, set_up, &plans)?;
    Ok(Prepared {
        recorder,
        inputs,
        plans,
        detectors,
    })
}

/// The recorder of all channels, and the detectors of the text's lines.
fn prepared_over<A: Allocator + Copy>(
    alloc: A,
    set_up: RecorderSetup<A>,
    text: &[u8],
) -> Result<Prepared<A>, SetupRefusal>
    ensures { MatchResult result
        (λ prepared. (spec.fault_of set_up (spec.said_of set_up text.now) ≡ None)
        × spec.IsPreparedOf set_up (spec.said_of set_up text.now) prepared)
        (spec.Refuses (spec.fault_of set_up (spec.said_of set_up text.now))) }
{
    let inputs = layout_of(&set_up.setup)?;
    let plans = planned(alloc, &set_up.setup, text)?;
    prepared_with(alloc, set_up, inputs, plans)
}

/// The recorder and the detectors of a set-up file. `start` is the instant of scan 0, in
/// microseconds since 1970-01-01 00:00:00 UTC. The file has the lines of a script up to `go`, or to
/// its end, and lines `detect`. Its `start` lines are skipped.
pub fn prepared_of<A: Allocator + Copy>(
    alloc: A,
    text: &[u8],
    start: i64,
) -> Result<Prepared<A>, SetupRefusal>
    ensures { MatchResult result
        (λ prepared. (spec.file_fault start text.now ≡ None) × spec.IsOf start text.now prepared)
        (spec.Refuses (spec.file_fault start text.now)) }
{
    let plain = plain_of(alloc, text)?;
    let set_up = set_up_of(alloc, &plain, start)?;
    prepared_over(alloc, set_up, text)
}
