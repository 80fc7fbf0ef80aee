//! The set-up lines that were read so far.

ghost use Rattle.std.specs.Prelude.{◌≡◌, [], option_map, unwrap_or};
ghost use Rattle.dfr_script.specs.Faults.{Is};
ghost use Rattle.dfr_script.specs.Fields as fields;

use crate::channel_line::{analog_of, status_of};
use crate::fault::{LineFault, LineRefusal};
use crate::fields::{instant_of, natural_of, needed, text_of};
use crate::limit_line::{LimitNumbers, limits_of};
use crate::rule_line::rules_of;
use crate::set_up::RecorderSetup;
use crate::setting::Setting;
use comtrade_values::{Decimal, Items};
use dfr_channels::{AnalogChannel, Rule, Setup, StatusChannel};
use std::alloc::{Allocator, Global};
use std::marker::Model;

/// The lines of a set-up that were read so far. [`setting_of_line`](crate::setting_of_line) adds a
/// line, and [`Draft::finish`] gives the set-up.
#[derive(Drop, Debug)]
pub struct Draft<A: Allocator = Global> {
    station: Option<Items<u8, A>>,
    device: Option<Items<u8, A>>,
    analog: Vec<AnalogChannel<A>, A>,
    status: Vec<StatusChannel<A>, A>,
    line_freq: Option<Decimal>,
    rate: Option<u32>,
    start: Option<i64>,
    /// The start was given before any line; `start` lines are skipped.
    dated: bool,
    limits: Option<LimitNumbers>,
    rules: Option<Vec<Rule, A>>,
}

impl<A: Allocator> Model for Draft<A> {
    ghost use Rattle.std.specs.Prelude.{option_map};
    ghost use Rattle.dfr_script.specs.Parts.{DraftParts};

    ghost Value = { DraftParts };

    ghost view = { λ d. record {
      station = d.station;
      device = d.device;
      analog = d.analog.items;
      status = d.status.items;
      line_freq = d.line_freq;
      rate = d.rate;
      start = d.start;
      dated = d.dated;
      limits = d.limits;
      rules = option_map (λ v. v.items) d.rules;
    } };
}

/// The rules, or an empty list if no line gave any.
fn rules_or_none<A: Allocator>(alloc: A, rules: Option<Vec<Rule, A>>) -> Vec<Rule, A>
    ensures { result.items ≡ unwrap_or (option_map (λ v. v.items) rules) [] }
{
    match rules {
        Some(rules) => rules,
        None => Vec::new(alloc),
    }
}

/// The value that was read from a rest of one field. More fields have the fault `Fields`, a value
/// that could not be read has `Number`.
fn single<T: Drop>(rest: &[u8], read: Option<T>) -> Result<T, LineRefusal>
    ensures { Is (λ x. x) (fields.single rest.now read) result }
{
    if rest.contains(&b',') {
        return Err(LineRefusal::Fault(LineFault::Fields));
    }
    needed(read)
}

impl<A: Allocator + Copy> Draft<A> {
    ghost use Rattle.std.specs.Prelude.{◌≡◌, IfErr, MatchOption, Ok, Err};
    ghost use Rattle.dfr_script.specs.declared.fault.Word.TheVariants as word;
    ghost use Rattle.dfr_script.specs.Faults.{Is};
    ghost use Rattle.dfr_script.specs.Drafts as spec;

    /// A draft without lines.
    pub fn new(alloc: A) -> Draft<A>
        ensures { result ≡ spec.empty }
    {
        Draft {
            station: None,
            device: None,
            analog: Vec::new(alloc),
            status: Vec::new(alloc),
            line_freq: None,
            rate: None,
            start: None,
            dated: false,
            limits: None,
            rules: None,
        }
    }

    /// A draft without lines, whose set-up gets this start, in microseconds since 1970-01-01
    /// 00:00:00 UTC. Its `start` lines are skipped, whatever follows the word.
    pub fn dated(alloc: A, start: i64) -> Draft<A>
        ensures { result ≡ spec.dated start }
    {
        Draft {
            start: Some(start),
            dated: true,
            ..Draft::new(alloc)
        }
    }

    /// Whether lines of the setting are skipped.
    #[tactic(auto, unfolding(crate::specs::Drafts::skips))]
    fn skips(&self, setting: Setting) -> bool
        ensures { result ≡ spec.skips self.now setting }
    {
        match setting {
            Setting::Start => self.dated,
            _ => false,
        }
    }

    /// Whether the setting was given already and may not be given again.
    #[tactic(auto, unfolding(crate::specs::Drafts::has))]
    fn has(&self, setting: Setting) -> bool
        ensures { result ≡ spec.has self.now setting }
    {
        match setting {
            Setting::Station => self.station.is_some(),
            Setting::Device => self.device.is_some(),
            Setting::Analog | Setting::Status => false,
            Setting::Freq => self.line_freq.is_some(),
            Setting::Rate => self.rate.is_some(),
            Setting::Start => self.start.is_some(),
            Setting::Limits => self.limits.is_some(),
            Setting::Rules => self.rules.is_some(),
        }
    }

    /// Sets what the rest of a line gives. A fault leaves the draft unchanged.
    #[tactic(auto, unfolding(crate::specs::Drafts::put))]
    fn put(&mut self, alloc: A, setting: Setting, rest: &[u8]) -> Result<(), LineRefusal>
        ensures says { Is (λ _. self.new) (spec.put self.old setting rest.now) result }
        ensures kept { IfErr result (λ _. self.new ≡ self.old) }
    {
        match setting {
            Setting::Station => {
                let station = text_of(alloc, rest)?;
                self.station = Some(station);
            }
            Setting::Device => {
                let device = text_of(alloc, rest)?;
                self.device = Some(device);
            }
            Setting::Analog => {
                let channel = analog_of(alloc, rest)?;
                self.analog.push(channel)?;
            }
            Setting::Status => {
                let channel = status_of(alloc, rest)?;
                self.status.push(channel)?;
            }
            Setting::Freq => {
                let freq = single(rest, Decimal::read(rest))?;
                self.line_freq = Some(freq);
            }
            Setting::Rate => {
                let rate = single(rest, natural_of(rest))?;
                self.rate = Some(rate);
            }
            Setting::Start => {
                let start = single(rest, instant_of(rest))?;
                self.start = Some(start);
            }
            Setting::Limits => {
                let limits = limits_of(alloc, rest)?;
                self.limits = Some(limits);
            }
            Setting::Rules => {
                let rules = rules_of(alloc, rest)?;
                self.rules = Some(rules);
            }
        }
        Ok(())
    }

    /// Adds a line. A setting given twice has the fault `Word`. An error leaves the draft unchanged.
    #[tactic(auto, unfolding(crate::specs::Drafts::add))]
    pub(crate) fn add(&mut self, alloc: A, setting: Setting, rest: &[u8]) -> Result<(), LineRefusal>
        ensures says { Is (λ _. self.new) (spec.add self.old setting rest.now) result }
        ensures kept { IfErr result (λ _. self.new ≡ self.old) }
    {
        if self.skips(setting) {
            return Ok(());
        }
        if self.has(setting) {
            return Err(LineRefusal::Fault(LineFault::Word));
        }
        self.put(alloc, setting, rest)
    }

    /// The set-up of the lines that were read. None if a line is missing: each set-up has the
    /// lines `station`, `device`, `freq`, `rate`, `start` and `limits`.
    #[tactic(auto, unfolding(crate::specs::Drafts::whole))]
    pub fn finish(self, alloc: A) -> Option<RecorderSetup<A>>
        ensures { MatchOption result (spec.whole self ≡ Err word.Setup)
            (λ set_up. spec.whole self ≡ Ok set_up) }
    {
        let Draft {
            station,
            device,
            analog,
            status,
            line_freq,
            rate,
            start,
            dated: _,
            limits,
            rules,
        } = self;
        let rules = rules_or_none(alloc, rules);
        let station = station?;
        let device = device?;
        let line_freq = line_freq?;
        let rate = rate?;
        let start = start?;
        let limits = limits?;
        let setup = Setup {
            station,
            device,
            analog: Items::of(analog),
            status: Items::of(status),
            line_freq,
            rate,
            start,
        };
        Some(RecorderSetup {
            setup,
            limits,
            rules,
        })
    }
}
