//! A set-up whose rules stand in a file of their own, by a line `rules @PATH`.

ghost use Rattle.std.specs.Prelude.{◌≡◌, ◌++◌, IfOk, OnOk, option_copied};
ghost use Rattle.comtrade_values.specs.Lines.{cut_lines};
ghost use Rattle.dfr_setup.specs.RulesFiles as spec;

use crate::addend::parts_of;
use crate::line::{first_word, is_go, rest_of};
use comtrade_values::{Lines, is_word, put};
use std::alloc::{AllocError, Allocator};

/// The path behind an `@`.
fn behind_at(rest: &[u8]) -> Option<&[u8]>
    ensures { option_copied result ≡ spec.behind_at rest.now }
{
    match rest {
        [b'@', path @ ..] if !path.is_empty() => Some(path),
        _ => None,
    }
}

/// The path in a line `rules @PATH`.
fn path_in(line: &[u8]) -> Option<&[u8]>
    ensures { option_copied result ≡ spec.path_in line.now }
{
    if is_word(first_word(line), "rules") {
        behind_at(rest_of(line))
    } else {
        None
    }
}

/// The path of the file that has the rules of a set-up: that of its first line `rules @PATH` up to
/// `go`. None if there is no such line.
pub fn rules_path(text: &[u8]) -> Option<&[u8]>
    ensures { option_copied result ≡ spec.path_of (cut_lines text.now) }
{
    let mut lines = Lines::of(text);
    while let Some(line) = lines.next() {
        if is_go(line) {
            return None;
        }
        if let Some(path) = path_in(line) {
            return Some(path);
        }
    }
    None
}

/// Puts a line; one with a path has these rules instead.
fn put_filled<A: Allocator>(
    text: &mut Vec<u8, A>,
    rules: &[u8],
    line: &[u8],
) -> Result<(), AllocError>
    ensures { OnOk result (text.new.items ≡ text.old.items ++ spec.filled_line rules.now line.now) }
{
    if path_in(line).is_some() {
        put(text, "rules ")?;
        text.extend_from_slice(rules)?;
    } else {
        text.extend_from_slice(line)?;
    }
    text.push(b'\n')?;
    Ok(())
}

/// The same set-up with these rules in place of each path: what may stand behind the word `rules`.
pub fn filled_of<A: Allocator + Copy>(
    alloc: A,
    text: &[u8],
    rules: &[u8],
) -> Result<Vec<u8, A>, AllocError>
    ensures { IfOk result (λ all. all.items ≡ spec.filled rules.now text.now) }
{
    let lines = parts_of(alloc, text, b'\n')?;
    let mut all = Vec::new(alloc);
    let mut left = lines.as_slice();
    while let [line, rest @ ..] = left {
        put_filled(&mut all, rules, line)?;
        left = rest;
    }
    Ok(all)
}
