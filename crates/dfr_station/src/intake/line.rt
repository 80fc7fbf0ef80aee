//! What a line of the input is: a scan, a lost scan, an order, or a line that is skipped.

ghost use Rattle.std.specs.Prelude.{◌≡◌, MatchOption, position};
ghost use Rattle.std.specs.List.{list_all, list_any};
ghost use Rattle.std.specs.Str.{bytes_eq};
ghost use Rattle.dfr_channels.specs.Firing.{rules_fault};
ghost use Rattle.comtrade_values.specs.Lines.{without_cr};
ghost use Rattle.dfr_script.specs.Commands.{parts_of};
ghost use Rattle.dfr_script.specs.Words as words;
ghost use Rattle.dfr_station.specs.Lines as spec;

use crate::event::Skipped;
use crate::intake::arrival::{Arrival, arrival_of_scan};
use crate::intake::feed::Why;
use comtrade_values::{integer_of, trim};
use dfr_channels::{Layout, Rule, RuleFault, Rules};
use dfr_live::Order;
use dfr_script::{Command, LineFault, LineRefusal, ScanSize, command_of_line};
use memchr::memchr;
use std::alloc::{Allocator, Global};

/// The end of the year 9999, in microseconds since 1970-01-01 00:00:00 UTC.
const END_OF_TIME: i128 = 253_402_300_799_999_999;

/// A line: its number, from 1, how many scans came before it, and its text without its end.
#[derive(Clone, Copy, Debug)]
pub struct Line<'a> {
    pub number: u64,
    pub came: u64,
    pub text: &'a [u8],
}

/// What a line means.
#[derive(Drop, Debug)]
pub enum Meaning<A: Allocator = Global> {
    /// Nothing: the line is blank or a comment.
    Nothing,
    /// One arrival.
    One(Arrival<A>),
    /// The line is skipped, and a lost scan: it is probably a scan line that was damaged.
    Damaged(Skipped),
}

/// A line without the carriage return at its end.
pub(crate) fn without_return(line: &[u8]) -> &[u8]
    ensures { result.now ≡ without_cr line.now }
{
    match line {
        [front @ .., b'\r'] => front,
        _ => line,
    }
}

/// The first line of the bytes, without its end, and the number of its bytes with its end. None if
/// the bytes have no line feed.
pub(crate) fn first_line(bytes: &[u8]) -> Option<(&[u8], usize)>
    ensures { MatchOption result (spec.HasNoFeed bytes.now)
        (λ line. spec.IsFirstLine bytes.now line.0.now line.1) }
{
    let feed = memchr(b'\n', bytes)?;
    Some((without_return(&bytes[..feed]), feed + 1))
}

/// Where the first word of a line ends: at its first blank or control character.
fn word_end(line: &[u8]) -> Option<usize>
    ensures { result ≡ position spec.ends_word line.now }
{
    line.iter().position(|b| *b <= b' ')
}

/// The first word of a line.
#[tactic(auto, using(comtrade_values::proofs::Cuts::cuts))]
fn first_word(line: &[u8]) -> &[u8]
    ensures { result.now ≡ spec.first_word line.now }
{
    match word_end(line) {
        Some(end) => &line[..end],
        None => line,
    }
}

/// Whether the word is exactly this text.
pub(crate) fn is_word(word: &[u8], text: &str) -> bool
    ensures { result ≡ bytes_eq word.now text.now }
{
    word == text.as_bytes()
}

/// Whether a line is a scan line: it begins with the word `scan` or `lost`. Such a line counts as a
/// scan, even if it can't be read.
pub fn is_scan_line(line: &[u8]) -> bool
    ensures { result ≡ spec.is_scan_line line.now }
{
    let word = first_word(line);
    is_word(word, "scan") || is_word(word, "lost")
}

/// Whether the word is one of the input, or of the script language, with which no scan line begins.
fn is_other_word(word: &[u8]) -> bool
    ensures { result ≡ list_any (λ known. bytes_eq word.now known) spec.other_words }
{
    is_word(word, "time")
        || is_word(word, "trigger")
        || is_word(word, "rules")
        || is_word(word, "take")
        || is_word(word, "go")
        || is_word(word, "station")
        || is_word(word, "device")
        || is_word(word, "analog")
        || is_word(word, "status")
        || is_word(word, "freq")
        || is_word(word, "rate")
        || is_word(word, "start")
        || is_word(word, "limits")
}

/// Whether the line is a comment.
fn is_comment(line: &[u8]) -> bool
    ensures { result ≡ words.is_comment line.now }
{
    matches!(line, [b'#', ..])
}

/// Whether the line is blank.
fn is_blank(line: &[u8]) -> bool
    ensures { result ≡ list_all spec.is_blank line.now }
{
    line.iter().all(|b| matches!(*b, b' ' | b'\t' | b'\r'))
}

/// Whether a line is probably a scan line that was damaged: it is neither blank nor a comment, and
/// its first word is none that is known.
#[tactic(auto, unfolding(crate::specs::Lines::is_damaged))]
pub fn is_damaged(line: &[u8]) -> bool
    ensures { result ≡ spec.is_damaged line.now }
{
    let says = !is_comment(line) && !is_blank(line);
    says && !is_scan_line(line) && !is_other_word(first_word(line))
}

/// What stands behind the first word of a line, without the blanks around it.
#[tactic(auto, using(comtrade_values::proofs::Cuts::cuts), unfolding(crate::specs::Lines::behind_word))]
fn behind_word(line: &[u8]) -> &[u8]
    ensures { result.now ≡ spec.behind_word line.now }
{
    match word_end(line) {
        Some(end) => trim(&line[end + 1..]),
        None => &[],
    }
}

/// Reads an instant, in microseconds since 1970-01-01 00:00:00 UTC, up to the end of the year 9999.
#[tactic(auto, unfolding(crate::specs::Lines::told_instant))]
fn told_instant(text: &[u8]) -> Option<u64>
    ensures { result ≡ spec.told_instant text.now }
{
    match integer_of(text) {
        Some(n) if 0 <= n && n <= END_OF_TIME => Some(n as u64),
        _ => None,
    }
}

/// What a line means that tells the time.
fn arrival_of_time<A: Allocator>(line: u64, text: &[u8]) -> Arrival<A>
    ensures { spec.parts_of result ≡ spec.of_time line (spec.told_instant text.now) }
{
    match told_instant(text) {
        Some(instant) => Arrival::Time { line, instant },
        None => Arrival::Skipped {
            line,
            why: Skipped::Number,
        },
    }
}

/// A line that is no command: it tells the time of the next scan, or it can't be read.
fn no_command<A: Allocator>(line: Line<'_>, fault: LineFault) -> Meaning<A>
    ensures { spec.given_by line.entry.number result
        ≡ spec.no_command line.entry.number line.entry.came line.entry.text.now fault }
{
    if is_word(first_word(line.text), "time") {
        return Meaning::One(arrival_of_time(line.number, behind_word(line.text)));
    }
    refused(line, skipped_of_line(fault), Why::Unread)
}

/// Why a line with this fault is skipped.
pub(crate) fn skipped_of_line(fault: LineFault) -> Skipped
    ensures { result ≡ spec.skipped_of_line fault }
{
    match fault {
        LineFault::Word => Skipped::Word,
        LineFault::Fields => Skipped::Fields,
        LineFault::Number => Skipped::Number,
    }
}

/// Why a line with these rules is skipped.
pub(crate) fn skipped_of_rules(fault: RuleFault) -> Skipped
    ensures { result ≡ spec.skipped_of_rules fault }
{
    match fault {
        RuleFault::TooMany => Skipped::TooMany,
        RuleFault::NoChannel(_) => Skipped::NoChannel,
    }
}

/// An order to set these rules; the line is skipped if they don't fit the layout.
fn arrival_of_rules<A: Allocator>(
    layout: &Layout<A>,
    line: u64,
    at: u64,
    list: Vec<Rule, A>,
) -> Arrival<A>
    ensures { spec.parts_of result
        ≡ spec.of_rules (rules_fault layout.now list.items) line at list.items }
{
    match Rules::new(layout, list) {
        Ok(rules) => Arrival::Order {
            line,
            at,
            order: Order::SetRules(rules),
        },
        Err((fault, _)) => Arrival::Skipped {
            line,
            why: skipped_of_rules(fault),
        },
    }
}

/// What a command means.
fn arrival_of_command<A: Allocator>(
    layout: &Layout<A>,
    number: u64,
    came: u64,
    command: Command<A>,
) -> Arrival<A>
    ensures { spec.parts_of result ≡ spec.of_command layout.now number came (parts_of command) }
{
    match command {
        Command::Scan(scan) => arrival_of_scan(layout, scan),
        Command::Lost => Arrival::Lost(Why::Told),
        Command::Trigger => Arrival::Order {
            line: number,
            at: came,
            order: Order::Trigger,
        },
        Command::Take => Arrival::Skipped {
            line: number,
            why: Skipped::Word,
        },
        Command::Rules { line, list } => arrival_of_rules(layout, line, came, list),
    }
}

/// A line that can't be read. A scan line is a lost scan, and any other line is skipped. After the
/// first scan a damaged line is a lost scan as well, so that later scans keep their instants.
pub(crate) fn refused<A: Allocator>(line: Line<'_>, skipped: Skipped, why: Why) -> Meaning<A>
    ensures { spec.given_by line.entry.number result
        ≡ spec.refused line.entry.number line.entry.came line.entry.text.now skipped why }
{
    if is_scan_line(line.text) {
        return Meaning::One(Arrival::Lost(why));
    }
    if line.came > 0 && is_damaged(line.text) {
        return Meaning::Damaged(skipped);
    }
    Meaning::One(Arrival::Skipped {
        line: line.number,
        why: skipped,
    })
}

/// What a line means: the same as after the `go` of a script, but that `take` is not accepted, and
/// `time` tells the time of the next scan.
pub fn meaning_of<A: Allocator + Copy>(alloc: A, layout: &Layout<A>, line: Line<'_>) -> Meaning<A>
    ensures { spec.LineMeans layout.now line.entry.number line.entry.came line.entry.text.now
        (spec.given_by line.entry.number result) }
{
    let size = ScanSize {
        analog: layout.analog().len(),
        status: layout.status().len(),
    };
    match command_of_line(alloc, line.number, line.text, size) {
        Ok(None) => Meaning::Nothing,
        Ok(Some(command)) => Meaning::One(arrival_of_command(
            layout,
            line.number,
            line.came,
            command,
        )),
        Err(LineRefusal::Fault(fault)) => no_command(line, fault),
        Err(LineRefusal::Memory) => refused(line, Skipped::Memory, Why::Memory),
    }
}
