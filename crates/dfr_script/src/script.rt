//! Reads a whole script.

ghost use Rattle.std.specs.Prelude.{◌≡◌, ◌+◌, ◌<◌, ◌^◌, MatchResult, None, length, map};
ghost use Rattle.comtrade_values.specs.Lines.{lines};
ghost use Rattle.dfr_script.specs.Faults as of_line;
ghost use Rattle.dfr_script.specs.Commands.{parts_of, with_command};
ghost use Rattle.dfr_script.specs.Scripts as spec;

use crate::command::{Command, command_of_line};
use crate::draft::Draft;
use crate::fault::{LineRefusal, ScriptRefusal, Word, fault_at, refused_at};
use crate::limit_line::LimitNumbers;
use crate::scan_line::ScanSize;
use crate::set_up::{Opening, RecorderSetup, opening_of, set_up_at_go};
use comtrade_values::Lines;
use dfr_channels::{Rule, Setup};
use std::alloc::{Allocator, Global};
use std::marker::Model;

/// A script that was read. Its set-up, limits and rules are not checked here.
#[derive(Drop, Debug)]
pub struct Script<A: Allocator = Global> {
    /// The set-up, which `Layout::new` of `dfr_channels` checks.
    pub setup: Setup<A>,
    /// The numbers of the line `limits`.
    pub limits: LimitNumbers,
    /// The rules of the line `rules` before `go`; none if there is no such line.
    pub rules: Vec<Rule, A>,
    /// The commands after `go`, in order.
    pub commands: Vec<Command<A>, A>,
}

impl<A: Allocator> Model for Script<A> {
    ghost use Rattle.std.specs.Prelude.{map};
    ghost use Rattle.dfr_script.specs.Parts.{ScriptParts};
    ghost use Rattle.dfr_script.specs.Commands.{parts_of};

    ghost Value = { ScriptParts };

    ghost view = { λ s. record {
      setup = s.setup;
      limits = s.limits;
      rules = s.rules.items;
      commands = map parts_of s.commands.items;
    } };
}

/// Adds the command of line number `line`, unless the line is skipped.
fn add_command<A: Allocator + Copy>(
    alloc: A,
    list: &mut Vec<Command<A>, A>,
    line: u64,
    text: &[u8],
    size: ScanSize,
) -> Result<(), LineRefusal>
    ensures { of_line.Is (λ _. map parts_of list.new.items)
        (with_command (map parts_of list.old.items) line text.now) result }
{
    if let Some(command) = command_of_line(alloc, line, text, size)? {
        list.push(command)?;
    }
    Ok(())
}

/// Reads the commands of the lines that are left. `from` is the index of the first, from 0.
fn commands_of<A: Allocator + Copy>(
    alloc: A,
    lines: Lines,
    from: usize,
    size: ScanSize,
) -> Result<Vec<Command<A>, A>, ScriptRefusal>
    requires { from + length lines < 2 ^ 64 }
    ensures { spec.Is (λ list. map parts_of list.items)
        (spec.commands from lines.entry (length lines.entry)) result }
{
    let mut list = Vec::new(alloc);
    let mut lines = lines;
    let mut count = 0;
    while let Some(line) = lines.next() {
        let place = from + count;
        match add_command(alloc, &mut list, place as u64 + 1, line, size) {
            Ok(()) => count += 1,
            Err(refusal) => return Err(refused_at(place, refusal)),
        }
    }
    Ok(list)
}

/// How many readings and bits the scans of a set-up have.
fn size_of<A: Allocator>(set_up: &RecorderSetup<A>) -> ScanSize {
    ScanSize {
        analog: set_up.setup.analog.items().len(),
        status: set_up.setup.status.items().len(),
    }
}

/// The script with this set-up and these commands.
fn with_commands<A: Allocator>(set_up: RecorderSetup<A>, commands: Vec<Command<A>, A>) -> Script<A>
    ensures { result ≡ spec.script_of set_up (map parts_of commands.items) }
{
    let RecorderSetup {
        setup,
        limits,
        rules,
    } = set_up;
    Script {
        setup,
        limits,
        rules,
        commands,
    }
}

/// Reads the script of these lines.
#[tactic(auto, unfolding(crate::specs::Scripts::script))]
fn script_in<A: Allocator + Copy>(alloc: A, lines: Lines) -> Result<Script<A>, ScriptRefusal>
    requires { length lines + 1 < 2 ^ 64 }
    ensures { spec.Is (λ script. script) (spec.script lines.entry) result }
{
    let mut lines = lines;
    let Opening { draft, count, go } = opening_of(alloc, Draft::new(alloc), &mut lines)?;
    let Some(go) = go else {
        return Err(fault_at(count, Word::Setup));
    };
    let set_up = set_up_at_go(alloc, draft, count, go)?;
    let size = size_of(&set_up);
    let commands = commands_of(alloc, lines, count + 1, size)?;
    Ok(with_commands(set_up, commands))
}

/// Reads the script of a text, or finds its first fault: in the first line with one, and there in
/// the order word, fields, number. If a set-up line is missing, the fault is `Setup` at `go`; if
/// `go` is missing, `Setup` after the last line. Lines are cut as in a configuration file; blank
/// lines and comments are skipped. `Memory`: an allocation failed.
pub fn script_of<A: Allocator + Copy>(alloc: A, text: &[u8]) -> Result<Script<A>, ScriptRefusal>
    ensures { MatchResult result
        (λ script. (spec.script_fault (lines text.now) ≡ None) × (script ≡ spec.script_value (lines text.now)))
        (spec.Tells (spec.script_fault (lines text.now))) }
{
    script_in(alloc, Lines::of(text).without_blank_end())
}
