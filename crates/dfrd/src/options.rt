//! The command line: the options and arguments of `dfrd`, and the texts of its help.

use clap::{Arg, ArgAction, Command};
use comtrade_io::VERSION;
use std::alloc::{AllocError, Global};

const ABOUT: &str =
    "Record disturbances: read scans from standard input, write a COMTRADE pair for each record";

const AFTER: &str = "\
Standard input has one line for each scan, as after `go` in a script of dfr. With --raw it has one
frame for each scan: each analogue channel in 2 bytes, then the status channels, sixteen in 2 bytes.
With --pcap it is a capture, as `tcpdump -w -` writes it.
dfrd prints one line for each event; docs/dfrd.md explains these lines.

`dfrd --pcap --look < CAPTURE` needs no SETUP and no DIR: it prints the streams of sampled values and
the GOOSE control blocks of a capture, and a set-up to start from.

Exit status: 0 recorded to the end of the input; 1 an error; 2 usage error.";

static KINDS: [&str; 2] = ["ascii", "binary"];

static FRAMES: [&str; 2] = ["raw", "counted"];

static TIMES: [&str; 2] = ["clock", "rate"];

/// A required argument.
fn word<'a>(alloc: Global, name: &'a str, help: &'a str) -> Arg<'a> {
    Arg::new(alloc, name).required(true).help(help)
}

/// An option with a value.
fn choice<'a>(alloc: Global, long: &'a str, value: &'a str, help: &'a str) -> Arg<'a> {
    Arg::new(alloc, long)
        .long(long)
        .value_name(value)
        .help(help)
}

/// An option without a value.
fn flag<'a>(alloc: Global, name: &'a str, help: &'a str) -> Arg<'a> {
    Arg::new(alloc, name)
        .long(name)
        .action(ArgAction::SetTrue)
        .help(help)
}

/// The command with one more argument.
fn with<'a>(command: Command<'a>, arg: Arg<'a>) -> Result<Command<'a>, AllocError> {
    command.arg(arg)
}

/// The command without options and arguments.
fn program<'a>(alloc: Global) -> Result<Command<'a>, AllocError> {
    Command::new(alloc, "dfrd")
        .version(VERSION)
        .about(ABOUT)
        .after_help(AFTER)
        .bin_name("dfrd")
}

/// Adds `--wait` and `--no-wait`.
fn with_pace<'a>(alloc: Global, command: Command<'a>) -> Result<Command<'a>, AllocError> {
    let wait =
        "Let the input wait, so that nothing is lost for want of speed (default: if it is a file)";
    let no_wait = "Do not let the input wait, even if it is a file";
    let one = with(command, flag(alloc, "wait", wait))?;
    with(one, flag(alloc, "no-wait", no_wait))
}

/// Adds `--kind`, `--raw`, `--frames`, `--clip`, `--start`, `--time` and `--gap`.
fn with_forms<'a>(alloc: Global, command: Command<'a>) -> Result<Command<'a>, AllocError> {
    let kind = choice(
        alloc,
        "kind",
        "KIND",
        "The form of the data files; ascii if not given",
    )
    .value_parser(KINDS.as_slice());
    let one = with(command, kind)?;
    let two = with(
        one,
        flag(alloc, "raw", "Read scans as frames of bytes, not as lines"),
    )?;
    let frames = "Read scans as frames: raw, as --raw, or counted, each with a mark and a counter";
    let frames = choice(alloc, "frames", "FRAMES", frames).value_parser(FRAMES.as_slice());
    let two = with(two, frames)?;
    let clip = "With frames, take a sample of -32768 as -32767, not as missing";
    let two = with(two, flag(alloc, "clip", clip))?;
    let start =
        "The time of the first scan: now (default) or microseconds since 1970-01-01 00:00:00 UTC";
    let three = with(two, choice(alloc, "start", "START", start))?;
    let time = "Date records by the clock (default without --start) or by the rate alone";
    let time = choice(alloc, "time", "TIME", time).value_parser(TIMES.as_slice());
    let four = with(three, time)?;
    let gap = "The most lost scans for a pause of the input (default 1000000)";
    with(four, choice(alloc, "gap", "N", gap))
}

/// Adds `--orders`, `--health`, `--keep`, `--keep-bytes`, `--most` and `--hdr`.
fn with_paths<'a>(alloc: Global, command: Command<'a>) -> Result<Command<'a>, AllocError> {
    let orders =
        "Read an operator's orders (`trigger`, `rules ..`, `stop`) from a FIFO or a growing file";
    let orders = choice(alloc, "orders", "PATH", orders);
    let health = "Write the recording's health into FILE every ten seconds, for Prometheus";
    let one = with(
        with(command, orders)?,
        choice(alloc, "health", "FILE", health),
    )?;
    let two = with(
        one,
        choice(
            alloc,
            "keep",
            "N",
            "Keep at most N records; delete the oldest",
        ),
    )?;
    let bytes = "Keep at most this many bytes of records; delete the oldest";
    let most = "Write at most N records for each hour; report each other one";
    let three = with(two, choice(alloc, "keep-bytes", "BYTES", bytes))?;
    let four = with(three, choice(alloc, "most", "N", most))?;
    let hdr = "Write a header file next to each pair: a text for people";
    with(four, flag(alloc, "hdr", hdr))
}

/// Adds `--pcap` and `--look`.
fn with_capture<'a>(alloc: Global, command: Command<'a>) -> Result<Command<'a>, AllocError> {
    let pcap = flag(
        alloc,
        "pcap",
        "Read scans from a capture of the process bus, by the plan below `go` of SETUP",
    );
    let look = "With --pcap alone: print what the capture has, and a set-up to start from";
    with(with(command, pcap)?, flag(alloc, "look", look))
}

/// Adds `--events` and `--chatter`.
fn with_events<'a>(alloc: Global, command: Command<'a>) -> Result<Command<'a>, AllocError> {
    let events = "Append each change of a contact to FILE, as a line with its instant";
    let one = with(command, choice(alloc, "events", "FILE", events))?;
    let chatter = "Append at most N lines for a contact in a second (default 20)";
    with(one, choice(alloc, "chatter", "N", chatter))
}

/// Adds `--check`, `--quiet` and `--journal`.
fn with_flags<'a>(alloc: Global, command: Command<'a>) -> Result<Command<'a>, AllocError> {
    let check = flag(alloc, "check", "Check SETUP and DIR, then exit");
    let quiet = flag(alloc, "quiet", "Do not print a line each minute");
    let journal = "Begin each line with its syslog level, as <6>, for journald";
    let journal = flag(alloc, "journal", journal);
    with(with(with(command, check)?, quiet)?, journal)
}

/// Adds the arguments SETUP and DIR.
fn with_names<'a>(alloc: Global, command: Command<'a>) -> Result<Command<'a>, AllocError> {
    let setup = word(
        alloc,
        "SETUP",
        "The set-up file: the lines of a script up to `go`",
    );
    let folder = word(alloc, "DIR", "The folder for the records, which must exist");
    with(with(command, setup)?, folder)
}

/// The command line of `dfrd`, which is parsed without the program's name.
pub(crate) fn dfrd<'a>(alloc: Global) -> Result<Command<'a>, AllocError> {
    let program = program(alloc)?.no_binary_name(true);
    let forms = with_forms(alloc, program)?;
    let captures = with_capture(alloc, forms)?;
    let pace = with_pace(alloc, captures)?;
    let paths = with_paths(alloc, pace)?;
    let events = with_events(alloc, paths)?;
    let flags = with_flags(alloc, events)?;
    with_names(alloc, flags)
}
