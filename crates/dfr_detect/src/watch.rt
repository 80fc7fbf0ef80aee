//! The bit of one signal, scan after scan.

ghost use Rattle.std.specs.Prelude.{◌≡◌, ◌≤◌, ◌+◌, ◌^◌, if◌then◌else◌, min, [], ◌∷◌, take, length, IfOk};
ghost use Rattle.circular_buffer.specs.Buffer.{buffer};
ghost use Rattle.dfr_detect.specs.Crossings.{cycles_before};
ghost use Rattle.dfr_detect.specs.Fitting.{Fits, FitsCondition, most_level};
ghost use Rattle.dfr_detect.specs.Levels.{span as spec_span};
ghost use Rattle.dfr_detect.specs.Sums.{AreSmall};
ghost use Rattle.dfr_detect.specs.Watched.{pace_of, waves_of, next_pace, next_waves, met_by};

use crate::crossings::Crossings;
use crate::level::{is_met, span};
use crate::shares::{first_shape, meets, other_shape, plain};
use crate::waves::Waves;
use crate::window::Window;
use crate::{Condition, FrequencyIs, FrequencyTest, Sample, Settings};
use comtrade_values::Memory;
use std::alloc::{Allocator, Global};
use std::marker::Model;

/// Computes a bit from one signal, scan after scan, in constant time and memory. Contracts see what
/// it keeps of the signal's history.
#[derive(Drop)]
pub struct Watch<A: Allocator = Global> {
    settings: Settings,
    window: Window<A>,
    crossings: Crossings<A>,
    waves: Waves<A>,
    row: u32,
    on: bool,
}

impl<A: Allocator> Model for Watch<A> {
    ghost use Rattle.dfr_detect.specs.Watched.{Kept, kept_by, IsSound};

    ghost Value = { Kept };

    ghost view = { λ a. kept_by a.settings a.window.items a.crossings a.waves a.row a.on };

    ghost invariant = { λ a. IsSound a.settings a.window.items a.window.capacity a.row };
}

/// At how many scans in a row a level is met, up to as many as are asked.
#[inline(always)]
fn next_row(row: u32, asked: u32, met: bool) -> u32
    requires { row ≤ asked }
    ensures { result ≡ (if met then min asked (row + 1) else 0) }
{
    match met {
        true if row < asked => row + 1,
        true => asked,
        false => 0,
    }
}

/// How many cycles are looked at before the newest ones.
fn cycles_before(test: FrequencyTest) -> u32
    ensures { result ≡ cycles_before test }
{
    match test.test {
        FrequencyIs::Over | FrequencyIs::Under => 0,
        FrequencyIs::Changing => test.cycles,
    }
}

/// The crossings that a condition looks at.
fn crossings_of<A: Allocator + Copy>(
    alloc: A,
    condition: Condition,
    scans: u32,
) -> Result<Crossings<A>, Memory>
    requires fits { FitsCondition condition scans }
    requires some { 1 ≤ scans }
    requires few { scans ≤ 2 ^ 16 }
    ensures { IfOk result (λ made. made ≡ pace_of condition scans []) }
{
    match condition {
        Condition::Frequency(test) => {
            Crossings::with_places(alloc, test.least, scans, test.cycles, cycles_before(test))
        }
        _ => Crossings::with_places(alloc, 0, 1, 0, 0),
    }
}

/// The waves that a condition looks at.
fn waves_of<A: Allocator + Copy>(
    alloc: A,
    condition: Condition,
    scans: u32,
) -> Result<Waves<A>, Memory>
    requires { FitsCondition condition scans }
    ensures { IfOk result (λ made. made ≡ waves_of condition scans []) }
{
    match condition {
        Condition::Waves(test) => {
            Waves::with_scans(alloc, scans as usize, first_shape(test), other_shape(test))
        }
        _ => Waves::with_scans(alloc, 1, plain(1), plain(1)),
    }
}

/// Takes a sample into what the condition looks at.
#[inline(always)]
fn keep<A: Allocator>(
    settings: &Settings,
    window: &mut Window<A>,
    crossings: &mut Crossings<A>,
    waves: &mut Waves<A>,
    x: Sample,
)
    requires small { AreSmall x }
    requires places { window.old.capacity ≡ spec_span settings.now.condition settings.now.scans }
    requires few { length window.old.items ≤ window.old.capacity }
    ensures samples { window.new ≡ buffer (take window.old.capacity (x.a ∷ window.old.items)) window.old.capacity }
    ensures pace { crossings.new ≡ next_pace settings.now.condition crossings.old x.a }
    ensures waves { waves.new ≡ next_waves settings.now.condition waves.old x }
{
    match settings.condition {
        Condition::Frequency(_) => crossings.take_in(x.a),
        Condition::Waves(_) => waves.push(x),
        _ => window.push(x.a),
    }
}

/// Whether what is kept meets a level.
#[inline(always)]
fn is_met_by<A: Allocator>(
    settings: &Settings,
    level: u64,
    window: &Window<A>,
    crossings: &Crossings<A>,
    waves: &Waves<A>,
) -> bool
    requires fits { Fits settings.now }
    requires level { level ≤ most_level settings.now.condition }
    requires places { window.now.capacity ≡ spec_span settings.now.condition settings.now.scans }
    ensures { result ≡ met_by settings.now.condition settings.now.scans level window.now.items crossings.now waves.now }
{
    match settings.condition {
        Condition::Frequency(test) => crossings.meet(test, level),
        Condition::Waves(test) => meets(test, level, waves),
        condition => is_met(condition, settings.scans, level, window),
    }
}

impl<A: Allocator + Copy> Watch<A> {
    ghost use Rattle.std.specs.Prelude.{◌≡◌, [], None, IfOk};
    ghost use Rattle.dfr_detect.specs.Fitting.{settings_fault};
    ghost use Rattle.dfr_detect.specs.Watched.{kept};

    /// A watch that has seen no scan.
    pub fn new(alloc: A, settings: Settings) -> Result<Watch<A>, Memory>
        requires { settings_fault settings ≡ None }
        ensures { IfOk result (λ watch. watch ≡ kept settings []) }
    {
        let window = Window::with_places(alloc, span(settings.condition, settings.scans))?;
        let crossings = crossings_of(alloc, settings.condition, settings.scans)?;
        let waves = waves_of(alloc, settings.condition, settings.scans)?;
        Ok(Watch {
            settings,
            window,
            crossings,
            waves,
            row: 0,
            on: false,
        })
    }
}

impl<A: Allocator> Watch<A> {
    ghost use Rattle.std.specs.Prelude.{◌≡◌, IfSome};
    ghost use Rattle.dfr_detect.specs.Sums.{AreSmall};
    ghost use Rattle.dfr_detect.specs.Watched.{after_sample, after_gap, IsStep};

    /// Whether what is kept meets a level.
    #[inline(always)]
    fn meets(&self, level: u64) -> bool
        requires { level ≤ most_level self.now.settings.condition }
        ensures { result ≡ met_by self.now.settings.condition self.now.settings.scans level self.now.samples self.now.pace self.now.waves }
    {
        is_met_by(
            &self.settings,
            level,
            &self.window,
            &self.crossings,
            &self.waves,
        )
    }

    /// Takes in a sample.
    #[inline(always)]
    fn take_in(&mut self, x: Sample)
        requires { AreSmall x }
        ensures { self.new ≡ after_sample self.old x }
    {
        keep(
            &self.settings,
            &mut self.window,
            &mut self.crossings,
            &mut self.waves,
            x,
        );
        let met = self.meets(self.settings.level);
        let stays = self.on && self.meets(self.settings.reset);
        self.row = next_row(self.row, self.settings.row, met);
        self.on = self.row >= self.settings.row || stays;
    }

    /// Starts anew.
    fn start_anew(&mut self)
        ensures { self.new ≡ after_gap self.old }
    {
        self.window.clear();
        self.crossings.clear();
        self.waves.clear();
        self.row = 0;
        self.on = false;
    }

    /// Takes in what a scan gives, a sample or none, and returns the bit of this scan: that of the
    /// definition over all that was taken in.
    #[inline(always)]
    pub fn step(&mut self, sample: Option<Sample>) -> bool
        requires { IfSome sample (λ x. AreSmall x) }
        ensures { IsStep self.old sample result self.new }
    {
        match sample {
            Some(x) => self.take_in(x),
            None => self.start_anew(),
        }
        self.on
    }

    /// What is compared with the level.
    #[inline(always)]
    pub fn condition(&self) -> Condition
        ensures { result ≡ self.now.settings.condition }
    {
        self.settings.condition
    }

    /// The bit of the newest scan, false before the first.
    #[inline(always)]
    pub fn bit(&self) -> bool
        ensures { result ≡ self.now.on }
    {
        self.on
    }
}
