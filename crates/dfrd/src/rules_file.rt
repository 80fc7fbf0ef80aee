//! The file of a set-up's rules, which a line `rules @PATH` names: each line of it has rules as they
//! may stand behind the word `rules`. Blank lines and comments are skipped.

use crate::outcome::{complain, out_of_memory};
use comtrade_io::{ToolFault, fault_of, read_up_to};
use comtrade_values::{Memory, lines_of, put, trim};
use dfr_channels::RuleFault;
use dfr_script::{Command, LineFault, LineRefusal, ScanSize, command_of_line};
use dfr_setup::{SetupRefusal, filled_of, rules_path};
use std::alloc::{AllocError, Global};
use std::fs::File;
use std::rt::Files;
use thiserror::Error;

/// The greatest size of the file: 1 MiB.
const LIMIT: usize = 1_048_576;

/// The rules of a file.
#[derive(Drop)]
pub(crate) struct RulesFile {
    /// Its path.
    pub(crate) path: String,
    /// All of them, as they may stand behind one word `rules`.
    words: Vec<u8>,
    /// The line of each rule, from 1.
    lines: Vec<u64>,
}

/// Why the rules of a file are refused.
#[derive(Clone, Copy, Debug, Error)]
enum RulesFault {
    /// The path in the set-up is no text.
    #[error("the path of the rules is not valid UTF-8")]
    Path,
    /// The line with this number has a rule with this fault.
    #[error("line {0}: {1}")]
    Rule(u64, RuleFault),
}

/// The path of the file that a set-up names: relative to the set-up, unless it is absolute.
fn path_beside(alloc: Global, setup: &str, path: &str) -> Result<String, AllocError> {
    let mut whole = String::new(alloc);
    if !path.starts_with('/')
        && let Some((folder, _)) = setup.rsplit_once('/')
    {
        whole.push_str(folder)?;
        whole.push_str("/")?;
    }
    whole.push_str(path)?;
    Ok(whole)
}

/// How many rules the words of a line have.
fn count_in(alloc: Global, words: &[u8]) -> Result<usize, LineRefusal> {
    let mut line = Vec::new(alloc);
    put(&mut line, "rules ")?;
    line.extend_from_slice(words)?;
    let size = ScanSize {
        analog: 0,
        status: 0,
    };
    match command_of_line(alloc, 1, &line, size)? {
        Some(Command::Rules { line: _, list }) => Ok(list.len()),
        _ => Ok(0),
    }
}

/// Whether the words of a line are no rules: there are none, or they are a comment.
fn is_silent(words: &[u8]) -> bool {
    matches!(words, [] | [b'#', ..])
}

impl RulesFile {
    /// Adds the rules of the line with this number.
    fn add(&mut self, alloc: Global, number: u64, words: &[u8]) -> Result<(), LineRefusal> {
        for _ in 0..count_in(alloc, words)? {
            self.lines.push(number)?;
        }
        if !self.words.is_empty() {
            self.words.push(b';')?;
        }
        self.words.extend_from_slice(words)?;
        Ok(())
    }

    /// Adds the rules of a text. An error has the number of its line.
    fn add_all(&mut self, alloc: Global, text: &[u8]) -> Result<(), SetupRefusal> {
        let lines = lines_of(alloc, text)?;
        for (index, line) in lines.iter().enumerate() {
            let number = index as u64 + 1;
            let words = trim(line);
            if is_silent(words) {
                continue;
            }
            match self.add(alloc, number, words) {
                Ok(()) => {}
                Err(LineRefusal::Fault(fault)) => return Err(refusal_at(number, fault)),
                Err(LineRefusal::Memory) => return Err(SetupRefusal::Memory),
            }
        }
        Ok(())
    }
}

/// The refusal of a line.
fn refusal_at(number: u64, fault: LineFault) -> SetupRefusal {
    match fault {
        LineFault::Word => SetupRefusal::Word(number),
        LineFault::Fields => SetupRefusal::Fields(number),
        LineFault::Number => SetupRefusal::Number(number),
    }
}

/// Reads a file.
fn bytes_at<R: Files + AllocGlobal>(rt: &R, path: &str) -> Result<Vec<u8>, ToolFault> {
    match File::open(rt, path) {
        Ok(mut file) => read_up_to(rt.alloc(), &mut file, LIMIT),
        Err(error) => Err(fault_of(error.kind(), ToolFault::Input)),
    }
}

/// Reads the rules of the file with this path. What is wrong with it is printed, and the error is
/// the exit status.
fn file_at<R: Files + Eprint + AllocGlobal>(rt: &R, path: String) -> Result<RulesFile, u8> {
    let text = match bytes_at(rt, path.as_str()) {
        Ok(text) => text,
        Err(fault) => return Err(complain(rt, path.as_str(), fault)),
    };
    let mut file = RulesFile {
        path,
        words: Vec::new(rt.alloc()),
        lines: Vec::new(rt.alloc()),
    };
    match file.add_all(rt.alloc(), &text) {
        Ok(()) => Ok(file),
        Err(refusal) => Err(complain(rt, file.path.as_str(), refusal)),
    }
}

/// The rules of the file that a set-up names, if it names one. What is wrong with it is printed, and
/// the error is the exit status.
fn file_of<R: Files + Eprint + AllocGlobal>(
    rt: &R,
    setup: &str,
    text: &[u8],
) -> Result<Option<RulesFile>, u8> {
    let Some(path) = rules_path(text) else {
        return Ok(None);
    };
    let Ok(path) = str::from_utf8(path) else {
        return Err(complain(rt, setup, RulesFault::Path));
    };
    match path_beside(rt.alloc(), setup, path) {
        Ok(path) => Ok(Some(file_at(rt, path)?)),
        Err(_) => Err(out_of_memory(rt)),
    }
}

/// The set-up with this text and its rules in it, and the file of these rules, if it names one. What
/// is wrong with that is printed, and the error is the exit status.
pub(crate) fn with_rules<R: Files + Eprint + AllocGlobal>(
    rt: &R,
    setup: &str,
    text: Vec<u8>,
) -> Result<(Vec<u8>, Option<RulesFile>), u8> {
    let Some(file) = file_of(rt, setup, &text)? else {
        return Ok((text, None));
    };
    match filled_of(rt.alloc(), &text, &file.words) {
        Ok(whole) => Ok((whole, Some(file))),
        Err(_) => Err(out_of_memory(rt)),
    }
}

/// Prints why a set-up is refused. A fault of its rules is one of their file, if there is one.
/// Returns the exit status.
pub(crate) fn refuse<R: Eprint + AllocGlobal>(
    rt: &R,
    setup: &str,
    rules: Option<&RulesFile>,
    refusal: SetupRefusal,
) -> u8 {
    let (SetupRefusal::Rules(fault), Some(file)) = (refusal, rules) else {
        return complain(rt, setup, refusal);
    };
    let path = file.path.as_str();
    match fault {
        RuleFault::NoChannel(rule) => match file.lines.get(rule as usize) {
            Some(line) => complain(rt, path, RulesFault::Rule(*line, fault)),
            None => complain(rt, path, refusal),
        },
        RuleFault::TooMany => complain(rt, path, refusal),
    }
}
