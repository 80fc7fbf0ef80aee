//! The arguments that commands share.

ghost use Rattle.std.specs.Prelude.{◌≡◌, IfOk, false};
ghost use Rattle.clap.specs.Words.{App, Rule, rule_of, with_rule};
ghost use Rattle.comtrade_io.specs.Commands.{IsCommand};
ghost use Rattle.comtrade_io.specs.Commands as Spec;

use clap::{Arg, ArgAction, Command};
use std::alloc::{AllocError, Global};

/// A required argument.
pub(crate) fn word<'a>(alloc: Global, name: &'a str, help: &'a str) -> Arg<'a>
    ensures rule { rule_of result ≡ Spec.word name.entry.now }
    ensures local { result.global ≡ false }
{
    free_word(alloc, name, help).required(true)
}

/// An optional argument.
pub(crate) fn free_word<'a>(alloc: Global, name: &'a str, help: &'a str) -> Arg<'a>
    ensures rule { rule_of result ≡ Spec.free_word name.entry.now }
    ensures local { result.global ≡ false }
{
    Arg::new(alloc, name).help(help)
}

/// An argument that takes one value or more.
pub(crate) fn words<'a>(alloc: Global, name: &'a str, help: &'a str) -> Arg<'a>
    ensures rule { rule_of result ≡ Spec.words name.entry.now }
    ensures local { result.global ≡ false }
{
    word(alloc, name, help).action(ArgAction::Append)
}

/// An option with a value.
pub(crate) fn option<'a>(alloc: Global, name: &'a str, value: &'a str, help: &'a str) -> Arg<'a>
    ensures rule { rule_of result ≡ Spec.option name.entry.now }
    ensures local { result.global ≡ false }
{
    free_word(alloc, name, help).long(name).value_name(value)
}

/// An option with a value, which may be given several times.
pub(crate) fn repeated<'a>(alloc: Global, name: &'a str, value: &'a str, help: &'a str) -> Arg<'a>
    ensures rule { rule_of result ≡ Spec.repeated name.entry.now }
    ensures local { result.global ≡ false }
{
    option(alloc, name, value, help).action(ArgAction::Append)
}

/// An option without a value.
pub(crate) fn flag<'a>(alloc: Global, name: &'a str, help: &'a str) -> Arg<'a>
    ensures rule { rule_of result ≡ Spec.flag name.entry.now }
    ensures local { result.global ≡ false }
{
    free_word(alloc, name, help)
        .long(name)
        .action(ArgAction::SetTrue)
}

/// The command with one more argument.
pub(crate) fn with<'a>(command: Command<'a>, arg: Arg<'a>) -> Result<Command<'a>, AllocError>
    ensures { (a : App) (r : Rule) → IsCommand a command.entry → rule_of arg.entry ≡ r → arg.entry.global ≡ false
        → IfOk result (IsCommand (with_rule a r)) }
{
    command.arg(arg)
}

/// With the option for the encoding of texts.
pub(crate) fn with_encoding(alloc: Global, command: Command<'_>) -> Result<Command<'_>, AllocError>
    ensures { (a : App) → IsCommand a command.entry → IfOk result (IsCommand (Spec.with_encoding a)) }
{
    let help = "The encoding of names that are not ASCII [possible values: utf-8, utf-16, \
        latin1, windows-1251, windows-1252, cp437, cp850, cp866, gbk, shift_jis]";
    with(command, option(alloc, "encoding", "NAME", help))
}

/// With the options that choose a part of a record.
pub(crate) fn with_part(alloc: Global, command: Command<'_>) -> Result<Command<'_>, AllocError>
    ensures { (a : App) → IsCommand a command.entry → IfOk result (IsCommand (Spec.with_part a)) }
{
    let from = "Start: ms since the trigger (-20), an instant (2024-07-01T10:30:00.35), or row N";
    let to = "End, in the same forms";
    let channels =
        "Only these, joined by commas: ids (with * as wildcard), 3 (analogue), D5 (status)";
    let one = with(command, option(alloc, "from", "MOMENT", from))?;
    let two = with(one, option(alloc, "to", "MOMENT", to))?;
    let three = with(two, option(alloc, "channels", "NAMES", channels))?;
    let changed = "Only the status channels that change";
    let four = with(three, flag(alloc, "changed", changed))?;
    let five = with(four, flag(alloc, "primary", "Values of the primary side"))?;
    let six = with(
        five,
        flag(alloc, "secondary", "Values of the secondary side"),
    )?;
    let strict = "Accept only files of 1999 as the standard spells them; repair nothing";
    let seven = with(six, flag(alloc, "strict", strict))?;
    with_encoding(alloc, seven)
}

/// With the options of a picture.
pub(crate) fn with_picture(alloc: Global, command: Command<'_>) -> Result<Command<'_>, AllocError>
    ensures { (a : App) → IsCommand a command.entry → IfOk result (IsCommand (Spec.with_picture a)) }
{
    let whole = "Draw all of a long record, not only the part around the trigger";
    let all = "Draw every status channel, also those that do not change";
    let one = with(command, flag(alloc, "whole", whole))?;
    let two = with(one, flag(alloc, "all", all))?;
    let three = with(two, option(alloc, "width", "PIXELS", "Width in pixels"))?;
    let height = "Height in pixels";
    let four = with(three, option(alloc, "height", "PIXELS", height))?;
    let print = "Draw black lines of different dashes on white, for paper";
    with(four, flag(alloc, "print", print))
}

/// The option for the file that is written.
fn output<'a>(alloc: Global) -> Arg<'a>
    ensures rule { rule_of result ≡ Spec.output }
    ensures local { result.global ≡ false }
{
    let help = "Write FILE in place of standard output; an existing file is never overwritten";
    option(alloc, "output", "FILE", help).short('o')
}

/// With the option for the file that is written.
pub(crate) fn with_output(alloc: Global, command: Command<'_>) -> Result<Command<'_>, AllocError>
    ensures { (a : App) → IsCommand a command.entry → IfOk result (IsCommand (Spec.with_output a)) }
{
    with(command, output(alloc))
}

/// The flag for folders within folders.
pub(crate) fn recursive<'a>(alloc: Global) -> Arg<'a>
    ensures rule { rule_of result ≡ Spec.recursive }
    ensures local { result.global ≡ false }
{
    flag(
        alloc,
        "recursive",
        "Also read the records of folders within folders",
    )
    .short('r')
}

/// With the options that choose records and events.
pub(crate) fn with_filter(alloc: Global, command: Command<'_>) -> Result<Command<'_>, AllocError>
    ensures { (a : App) → IsCommand a command.entry → IfOk result (IsCommand (Spec.with_filter a)) }
{
    let from = "Only from this instant on (2024-07-01T10:30 or 2024-07-01T10:30:00.35)";
    let to = "Only up to this instant";
    let station = "Only of the station with this name (with * as wildcard)";
    let one = with(command, option(alloc, "from", "INSTANT", from))?;
    let two = with(one, option(alloc, "to", "INSTANT", to))?;
    with(two, option(alloc, "station", "NAME", station))
}

/// With the option for JSON.
pub(crate) fn with_json(alloc: Global, command: Command<'_>) -> Result<Command<'_>, AllocError>
    ensures { (a : App) → IsCommand a command.entry → IfOk result (IsCommand (Spec.with_json a)) }
{
    with(command, flag(alloc, "json", "Print JSON, in one line"))
}
