//! Reads the lines of a set-up.

ghost use Rattle.std.specs.Prelude.{◌≡◌, ◌+◌, ◌<◌, ◌^◌, [], ◌∷◌, MatchOption, IfOk, IfErr, length, drop};
ghost use Rattle.std.specs.List.{position_or_len};
ghost use Rattle.comtrade_values.specs.Lines.{lines};
ghost use Rattle.dfr_script.specs.Faults as of_line;
ghost use Rattle.dfr_script.specs.Drafts.{with_line, whole};
ghost use Rattle.dfr_script.specs.Scripts as spec;

use crate::draft::Draft;
use crate::fault::{LineFault, LineRefusal, ScriptRefusal, Word, fault_at, refused_at};
use crate::limit_line::LimitNumbers;
use crate::line::{cut, is_silent};
use crate::setting::setting_of;
use comtrade_values::{Lines, is_word};
use dfr_channels::{Rule, Setup};
use std::alloc::{Allocator, Global};
use std::marker::Model;

/// What the lines of a set-up say. [`recorder_of`](crate::recorder_of) checks it.
#[derive(Drop, Debug)]
pub struct RecorderSetup<A: Allocator = Global> {
    /// The channels, the rate and the start.
    pub setup: Setup<A>,
    /// The numbers of the line `limits`.
    pub limits: LimitNumbers,
    /// The rules of the line `rules`; none if there is no such line.
    pub rules: Vec<Rule, A>,
}

impl<A: Allocator> Model for RecorderSetup<A> {
    ghost use Rattle.dfr_script.specs.Parts.{RecorderSetupParts};

    ghost Value = { RecorderSetupParts };

    ghost view = { λ s. record {
      setup = s.setup;
      limits = s.limits;
      rules = s.rules.items;
    } };
}

/// Adds a line of a set-up to the draft; a blank line or a comment adds nothing. `text` is the line
/// without its end. The fault is the first in the order word, fields, number; a setting that is
/// allowed once has the fault `Word` the second time. `Memory`: an allocation failed. An error
/// leaves the draft unchanged.
#[tactic(auto, unfolding(crate::specs::Drafts::with_line))]
pub fn setting_of_line<A: Allocator + Copy>(
    alloc: A,
    draft: &mut Draft<A>,
    text: &[u8],
) -> Result<(), LineRefusal>
    ensures says { of_line.Is (λ _. draft.new) (with_line draft.old text.now) result }
    ensures kept { IfErr result (λ _. draft.new ≡ draft.old) }
{
    if is_silent(text) {
        return Ok(());
    }
    let (word, rest) = cut(text);
    match setting_of(word) {
        Some(setting) => draft.add(alloc, setting, rest),
        None => Err(LineRefusal::Fault(LineFault::Word)),
    }
}

/// Whether the line's first word is `go`.
#[tactic(auto, unfolding(crate::specs::Scripts::is_go))]
fn is_go(line: &[u8]) -> bool
    ensures { result ≡ spec.is_go line.now }
{
    let (word, _) = cut(line);
    is_word(word, "go")
}

/// What was read of the lines up to `go`.
#[derive(Drop)]
pub(crate) struct Opening<'a, A: Allocator> {
    pub(crate) draft: Draft<A>,
    /// How many lines there are before `go`, or in all if it is missing.
    pub(crate) count: usize,
    pub(crate) go: Option<&'a [u8]>,
}

/// Adds the lines up to `go` to a draft.
pub(crate) fn opening_of<'a, A: Allocator + Copy>(
    alloc: A,
    first: Draft<A>,
    lines: &mut Lines<'a>,
) -> Result<Opening<'a, A>, ScriptRefusal>
    requires { length lines.old + 1 < 2 ^ 64 }
    ensures draft { spec.Is (λ o. o.draft)
        (spec.draft first lines.old (position_or_len spec.is_go lines.old)) result }
    ensures place { IfOk result (λ o. o.count ≡ position_or_len spec.is_go lines.old) }
    ensures left { IfOk result (λ o. MatchOption o.go (drop o.count lines.old ≡ [])
        (λ go. drop o.count lines.old ≡ go.now ∷ lines.new)) }
{
    let mut draft = first;
    let mut count = 0;
    while let Some(line) = lines.next() {
        if is_go(line) {
            let go = Some(line);
            return Ok(Opening { draft, count, go });
        }
        match setting_of_line(alloc, &mut draft, line) {
            Ok(()) => count += 1,
            Err(refusal) => return Err(refused_at(count, refusal)),
        }
    }
    Ok(Opening {
        draft,
        count,
        go: None,
    })
}

/// The set-up of the lines above index `place`, from 0. A missing line is a fault there.
fn set_up_at<A: Allocator + Copy>(
    alloc: A,
    draft: Draft<A>,
    place: usize,
) -> Result<RecorderSetup<A>, ScriptRefusal>
    requires { place + 1 < 2 ^ 64 }
    ensures { spec.Is (λ set_up. set_up) (spec.word_at place (whole draft)) result }
{
    match draft.finish(alloc) {
        Some(set_up) => Ok(set_up),
        None => Err(fault_at(place, Word::Setup)),
    }
}

/// The set-up of the lines above `go`, which is at index `place`, from 0.
#[tactic(auto, unfolding(crate::specs::Scripts::go))]
pub(crate) fn set_up_at_go<A: Allocator + Copy>(
    alloc: A,
    draft: Draft<A>,
    place: usize,
    go: &[u8],
) -> Result<RecorderSetup<A>, ScriptRefusal>
    requires { place + 1 < 2 ^ 64 }
    ensures { spec.Is (λ set_up. set_up) (spec.word_at place (spec.go draft go.now)) result }
{
    let (_, rest) = cut(go);
    if !rest.is_empty() {
        return Err(fault_at(place, Word::Word));
    }
    set_up_at(alloc, draft, place)
}

/// The set-up of these lines, with this start.
#[tactic(auto, unfolding(crate::specs::Scripts::set_up))]
fn set_up_in<A: Allocator + Copy>(
    alloc: A,
    lines: Lines,
    start: i64,
) -> Result<RecorderSetup<A>, ScriptRefusal>
    requires { length lines + 1 < 2 ^ 64 }
    ensures { spec.Is (λ set_up. set_up) (spec.set_up start lines.entry) result }
{
    let mut lines = lines;
    let Opening { draft, count, go } = opening_of(alloc, Draft::dated(alloc, start), &mut lines)?;
    match go {
        Some(go) => set_up_at_go(alloc, draft, count, go),
        None => set_up_at(alloc, draft, count),
    }
}

/// Reads the set-up in a text of its own: its lines up to `go`, or all if there is no `go`. Its
/// start is `start`, in microseconds since 1970-01-01 00:00:00 UTC; `start` lines are skipped. The
/// fault is the first, as in [`script_of`](crate::script_of); if a line is missing, it is `Setup`
/// at `go` or after the last line. `Memory`: an allocation failed.
pub fn set_up_of<A: Allocator + Copy>(
    alloc: A,
    text: &[u8],
    start: i64,
) -> Result<RecorderSetup<A>, ScriptRefusal>
    ensures { spec.Is (λ set_up. set_up) (spec.set_up start (lines text.now)) result }
{
    set_up_in(alloc, Lines::of(text).without_blank_end(), start)
}
