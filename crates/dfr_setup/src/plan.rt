//! One detector of a set-up.

ghost use Rattle.std.specs.Prelude.{◌≡◌, ◌≤◌, ◌^◌, None, IfOk, length};
ghost use Rattle.comtrade_values.specs.Lines.{texts};
ghost use Rattle.dfr_detect.specs.Fitting.{settings_fault};
ghost use Rattle.dfr_setup.specs.Plans as spec;
ghost use Rattle.dfr_setup.specs.Refusing.{Is};

use crate::addend::{Sum, sum_of};
use crate::fault::needed;
use crate::quantity::{cycles_in, least_in, level_in, one_of, periods, reach, window_in};
use crate::tested::{Test, condition_of, has_phases};
use crate::unit::has_units;
use crate::wish::Wish;
use crate::{DetectorFault, DetectorRefusal};
use comtrade_values::{Decimal, Items, Memory};
use dfr_channels::{AnalogChannel, Setup, StatusChannel};
use dfr_detect::{Settings, SettingsFault};
use std::alloc::{Allocator, Global};
use std::marker::Model;

/// A detector of a set-up.
#[derive(Drop, Debug)]
pub struct Plan<A: Allocator = Global> {
    /// The name of its status channel.
    pub name: Items<u8, A>,
    /// What it tests.
    pub test: Test,
    /// The same, in samples and scans.
    pub settings: Settings,
    /// The analogue channels whose sum or sequence it looks at, by number from 0.
    pub channels: Items<usize, A>,
    /// The level of the set-up, in the channels' unit, in Hz or Hz a second, or in percent.
    pub level: Decimal,
    /// The level at which the bit stays 1, in the same.
    pub reset: Decimal,
    /// How deep a half wave has to be for a frequency, or the rms value of a wave for a share, in the
    /// channels' unit.
    pub least: Decimal,
}

impl<A: Allocator> Model for Plan<A> {
    ghost use Rattle.std.specs.Prelude.{◌≡◌, ◌≤◌, None, length};
    ghost use Rattle.dfr_detect.specs.Fitting.{settings_fault};
    ghost use Rattle.dfr_setup.specs.Plans.{PlanParts};

    ghost Value = { PlanParts };

    ghost view = { λ p. record {
      name = p.name;
      test = p.test;
      settings = p.settings;
      channels = p.channels;
      level = p.level;
      reset = p.reset;
      least = p.least;
    } };

    // Its settings have no fault, and it looks at 1 to 256 channels.
    ghost invariant = { λ p. (settings_fault p.settings ≡ None)
        × (1 ≤ length p.channels) × (length p.channels ≤ 256) };
}

/// The settings, if they have no fault.
fn checked(settings: Settings) -> Result<Settings, DetectorFault>
    ensures value { result ≡ spec.checked settings }
    ensures fits { IfOk result (λ s. settings_fault s ≡ None) }
{
    match settings.fault() {
        None => Ok(settings),
        Some(SettingsFault::Scans) => Err(DetectorFault::Window),
        Some(SettingsFault::Level) => Err(DetectorFault::Level),
        Some(SettingsFault::Reset) => Err(DetectorFault::Side),
        Some(SettingsFault::Row) => Err(DetectorFault::Row),
        Some(SettingsFault::Cycles) => Err(DetectorFault::Cycles),
        Some(SettingsFault::Rate) => Err(DetectorFault::Rate),
        Some(SettingsFault::Least) => Err(DetectorFault::Least),
        Some(SettingsFault::Period) => Err(DetectorFault::Period),
        Some(SettingsFault::Order) => Err(DetectorFault::Order),
        Some(SettingsFault::Short) => Err(DetectorFault::Short),
    }
}

/// The settings of a wish over channels with this multiplier, if there is one, and this greatest size
/// of their sum.
fn settings_of<A: Allocator>(
    setup: &Setup<A>,
    wish: &Wish,
    multiplier: Option<Decimal>,
    largest: u64,
) -> Result<Settings, DetectorFault>
    requires { largest ≤ 2 ^ 40 }
    ensures value { result ≡ spec.settings_of setup.now wish.now multiplier largest }
    ensures fits { IfOk result (λ s. settings_fault s ≡ None) }
{
    let test = wish.test;
    let most = reach(test, largest, setup.rate);
    let a = needed(multiplier, DetectorFault::Channel)?;
    let one = one_of(test, a);
    let level = needed(level_in(test, wish.level, one, most), DetectorFault::Level)?;
    let reset = needed(level_in(test, wish.reset, one, most), DetectorFault::Reset)?;
    let least = needed(least_in(test, wish.least, a, largest), DetectorFault::Least)?;
    let cycles = needed(cycles_in(wish.cycles), DetectorFault::Cycles)?;
    let window = window_in(
        wish.window,
        periods(test, cycles),
        setup.rate,
        setup.line_freq,
    );
    let scans = needed(window, DetectorFault::Window)?;
    checked(Settings {
        condition: condition_of(test, cycles, setup.rate, least),
        scans,
        level,
        reset,
        row: wish.row,
    })
}

/// The settings of a wish, which these words name, over channels with this multiplier and this greatest
/// size of their sum.
fn settings_over<A: Allocator>(
    setup: &Setup<A>,
    wish: &Wish,
    words: &[&[u8]],
    channels: &[usize],
    multiplier: Option<Decimal>,
    largest: u64,
) -> Result<Settings, DetectorFault>
    requires { largest ≤ 2 ^ 40 }
    ensures value { result
        ≡ spec.settings_over setup.now wish.now (texts words.now) channels.now multiplier largest }
    ensures fits { IfOk result (λ s. settings_fault s ≡ None) }
{
    if !has_units(wish.test, setup.analog.items(), channels, words, wish.units) {
        return Err(DetectorFault::Unit);
    }
    settings_of(setup, wish, multiplier, largest)
}

/// The sum, if its test takes so many channels.
fn counted<A: Allocator>(test: Test, sum: Sum<A>) -> Result<Sum<A>, DetectorRefusal>
    ensures value { Is (λ x. x) (spec.counted test sum) result }
    ensures some { IfOk result (λ s. 1 ≤ length s.channels) }
{
    if sum.channels.is_empty() {
        return Err(DetectorRefusal::Fault(DetectorFault::Channel));
    }
    if has_phases(test) && sum.channels.len() != 3 {
        return Err(DetectorRefusal::Fault(DetectorFault::Phases));
    }
    Ok(sum)
}

/// The sum of the channels that the text names, which the test takes.
fn whole_sum<A: Allocator + Copy>(
    alloc: A,
    channels: &[AnalogChannel<A>],
    test: Test,
    text: &[u8],
) -> Result<Sum<A>, DetectorRefusal>
    ensures value { Is (λ x. x) (spec.whole_sum channels.now test text.now) result }
    ensures some { IfOk result (λ s. 1 ≤ length s.channels) }
{
    let sum = sum_of(alloc, channels, test, text)?;
    counted(test, sum)
}

/// The detector of a wish, which these words name, with this name, over the sum that the text names.
pub(crate) fn plan_of<A: Allocator + Copy>(
    alloc: A,
    setup: &Setup<A>,
    wish: &Wish,
    words: &[&[u8]],
    name: Vec<u8, A>,
    text: &[u8],
) -> Result<Plan<A>, DetectorRefusal>
    ensures { Is (λ x. x)
        (spec.plan_of setup.now wish.now (texts words.now) name.items text.now) result }
{
    let Sum { channels, a, most } = whole_sum(alloc, setup.analog.items(), wish.test, text)?;
    let settings = settings_over(setup, wish, words, &channels, a, most)?;
    Ok(Plan {
        name: Items::of(name),
        test: wish.test,
        settings,
        channels: Items::of(channels),
        level: wish.level,
        reset: wish.reset,
        least: wish.least,
    })
}

impl<A: Allocator + Copy> Plan<A> {
    ghost use Rattle.std.specs.Prelude.{◌≡◌, IfOk};
    ghost use Rattle.dfr_setup.specs.Plans as spec;

    /// Its status channel.
    pub(crate) fn status(&self) -> Result<StatusChannel<A>, Memory>
        ensures { IfOk result (λ channel. channel ≡ spec.status_of self.now) }
    {
        let alloc = *self.name.allocator();
        Ok(StatusChannel {
            id: self.name.try_clone()?,
            phase: Items::of(Vec::new(alloc)),
            component: Items::of(Vec::new(alloc)),
            normal: false,
        })
    }
}
