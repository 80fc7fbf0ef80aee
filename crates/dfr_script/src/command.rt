//! Reads the commands after `go`.

ghost use Rattle.std.specs.Prelude.{◌≡◌, true, Ok, None, Some, option_map, codes};
ghost use Rattle.std.specs.Str.{bytes_eq};
ghost use Rattle.dfr_script.specs.Faults.{Is};
ghost use Rattle.dfr_script.specs.Words as words;
ghost use Rattle.dfr_script.specs.Commands as spec;

use crate::fault::{LineFault, LineRefusal};
use crate::line::{cut, is_silent};
use crate::rule_line::rules_of;
use crate::scan_line::{ScanSize, scan_of};
use comtrade_values::is_word;
use dfr_channels::{Rule, Scan};
use std::alloc::{Allocator, Global};

/// What a line after `go` asks for.
#[derive(Drop, Debug)]
pub enum Command<A: Allocator = Global> {
    /// A scan to process.
    Scan(Scan<A>),
    /// A scan that was lost.
    Lost,
    /// A manual trigger.
    Trigger,
    /// Taking the oldest finished record.
    Take,
    /// Rules in force from the next scan on, and the number of their line, from 1.
    Rules { line: u64, list: Vec<Rule, A> },
}

/// The first words of commands.
#[derive(Clone, Copy, PartialEq, Eq)]
pub(crate) enum Verb {
    Scan,
    Lost,
    Trigger,
    Take,
    Rules,
}

/// Whether the word is `scan`, the first word of most lines. Compares four bytes.
fn is_scan(word: &[u8]) -> bool
    ensures { result ≡ bytes_eq word.now (codes "scan") }
{
    matches!(word, [b's', b'c', b'a', b'n'])
}

/// The command that the word names, if any.
#[tactic(auto, unfolding(crate::specs::Commands::verb))]
fn verb_of(word: &[u8]) -> Option<Verb>
    ensures { result ≡ spec.verb word.now }
{
    if is_scan(word) {
        Some(Verb::Scan)
    } else if is_word(word, "lost") {
        Some(Verb::Lost)
    } else if is_word(word, "trigger") {
        Some(Verb::Trigger)
    } else if is_word(word, "take") {
        Some(Verb::Take)
    } else if is_word(word, "rules") {
        Some(Verb::Rules)
    } else {
        None
    }
}

/// Checks that nothing follows a word; else the fault `Word`.
fn bare(rest: &[u8]) -> Result<(), LineRefusal>
    ensures { Is (λ x. x) (spec.bare tt rest.now) result }
{
    if rest.is_empty() {
        Ok(())
    } else {
        Err(LineRefusal::Fault(LineFault::Word))
    }
}

/// Reads the command of line number `line`.
fn command_in<A: Allocator + Copy>(
    alloc: A,
    line: u64,
    verb: Verb,
    rest: &[u8],
    size: ScanSize,
) -> Result<Command<A>, LineRefusal>
    ensures { Is spec.parts_of (spec.verb_says line (Some verb) rest.now) result }
{
    match verb {
        Verb::Scan => {
            let scan = scan_of(alloc, rest, size)?;
            Ok(Command::Scan(scan))
        }
        Verb::Lost => {
            bare(rest)?;
            Ok(Command::Lost)
        }
        Verb::Trigger => {
            bare(rest)?;
            Ok(Command::Trigger)
        }
        Verb::Take => {
            bare(rest)?;
            Ok(Command::Take)
        }
        Verb::Rules => {
            let list = rules_of(alloc, rest)?;
            Ok(Command::Rules { line, list })
        }
    }
}

/// Reads a line after `go`: its command, or None if the line is blank or a comment. `line` is its
/// number, from 1, which the command of a `rules` line keeps. `text` is the line without its end.
/// The fault is the first in the order word, fields, number. `Memory`: an allocation failed; a blank
/// line or a comment needs none.
#[tactic(auto, unfolding(crate::specs::Commands::command_line))]
pub fn command_of_line<A: Allocator + Copy>(
    alloc: A,
    line: u64,
    text: &[u8],
    size: ScanSize,
) -> Result<Option<Command<A>>, LineRefusal>
    ensures says { Is (option_map spec.parts_of) (spec.command_line line text.now) result }
    ensures silent { words.is_silent text.now ≡ true → result ≡ Ok None }
{
    if is_silent(text) {
        return Ok(None);
    }
    let (word, rest) = cut(text);
    let Some(verb) = verb_of(word) else {
        return Err(LineRefusal::Fault(LineFault::Word));
    };
    let command = command_in(alloc, line, verb, rest, size)?;
    Ok(Some(command))
}
