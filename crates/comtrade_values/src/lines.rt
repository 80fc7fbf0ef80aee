//! How a text is cut into lines, and a line into fields.

ghost use Rattle.std.specs.Prelude.{◌≡◌, ◌+◌, ◌≤◌, ℕ, List, [], ◌∷◌, ◌++◌, IfOk, length, option_copied};
ghost use Rattle.comtrade_values.specs.Lines.{without_cr, cut_lines, lines_left, drop_end, fields, texts, is_blank_line};

use crate::trim;
use memchr::{memchr, memrchr};
use std::alloc::{AllocError, Allocator};
use std::marker::Model;

/// Drops one carriage return at the end of the line, if there is one.
fn without_carriage_return(line: &[u8]) -> &[u8]
    ensures { result.now ≡ without_cr line.now }
{
    match line {
        [front @ .., b'\r'] => front,
        _ => line,
    }
}

/// Whether the line is empty or has only spaces and tabs.
fn is_blank(line: &[u8]) -> bool
    ensures { result ≡ is_blank_line line.now }
{
    trim(line).is_empty()
}

/// The first line of a text, and the text after its line feed, if it has one.
#[tactic(auto, using(crate::proofs::LineCuts::line_cuts))]
fn first_line(text: &[u8]) -> (&[u8], Option<&[u8]>)
    ensures { cut_lines text.now ≡ result.0.now ∷ lines_left (option_copied result.1) }
{
    match memchr(b'\n', text) {
        Some(at) => (without_carriage_return(&text[..at]), Some(&text[at + 1..])),
        None => (without_carriage_return(text), None),
    }
}

/// The text before the last line feed, if there is one, and the last line.
#[tactic(auto, using(crate::proofs::LineCuts::line_cuts))]
fn last_line(text: &[u8]) -> (Option<&[u8]>, &[u8])
    ensures { cut_lines text.now ≡ lines_left (option_copied result.0) ++ result.1.now ∷ [] }
{
    match memrchr(b'\n', text) {
        Some(at) => (Some(&text[..at]), without_carriage_return(&text[at + 1..])),
        None => (None, without_carriage_return(text)),
    }
}

/// The lines of a text, from first to last. Lines are separated by line feeds; one carriage return
/// at the end of a line is dropped.
#[derive(Debug, Drop)]
pub struct Lines<'a> {
    left: Option<&'a [u8]>,
}

impl<'a> Model for Lines<'a> {
    ghost Value = { List (List ℕ) };

    ghost view = { λ it. lines_left (option_copied it.left) };
}

impl<'a> Lines<'a> {
    /// All lines of a text: at least one, and at most one more than it has bytes.
    #[tactic(auto, using(crate::proofs::LineCuts::few_lines))]
    pub fn of(text: &'a [u8]) -> Lines<'a>
        ensures lines { result ≡ cut_lines text.now }
        ensures few { length result ≤ length text.now + 1 }
    {
        Lines { left: Some(text) }
    }

    /// The same lines without the blank ones at the end. A blank line is empty or has only spaces
    /// and tabs.
    pub fn without_blank_end(self) -> Lines<'a>
        ensures lines { result ≡ drop_end is_blank_line self.entry }
        ensures few { length result ≤ length self.entry }
    {
        let mut lines = self;
        while let Some(text) = lines.left {
            let (front, last) = last_line(text);
            if !is_blank(last) {
                break;
            }
            lines.left = front;
        }
        lines
    }
}

impl<'a> Iterator for Lines<'a> {
    ghost use Rattle.std.specs.Iterator.{YieldsFirstRef, item_count};

    type Item = &'a [u8];

    ghost next_gives = { YieldsFirstRef (λ left. left) };

    ghost remaining = { item_count (λ left. left) };

    #[inline]
    fn next(&mut self) -> Option<&'a [u8]> {
        let (line, left) = first_line(self.left?);
        self.left = left;
        Some(line)
    }
}

/// All lines of a text, as [`Lines::of`] cuts it. `AllocError`: an allocation failed.
pub fn lines_of<'a, A: Allocator>(alloc: A, text: &'a [u8]) -> Result<Vec<&'a [u8], A>, AllocError>
    ensures { IfOk result (λ v. texts v.items ≡ cut_lines text.now) }
{
    Lines::of(text).collect(alloc)
}

/// The lines without the blank ones at the end.
pub fn without_blank_end<'s, 'a>(lines: &'s [&'a [u8]]) -> &'s [&'a [u8]]
    ensures { texts result.now ≡ drop_end is_blank_line (texts lines.now) }
{
    let mut left = lines;
    while let [front @ .., last] = left {
        if !is_blank(last) {
            break;
        }
        left = front;
    }
    left
}

/// The fields of a line: the texts between its commas, each without surrounding blanks.
/// `AllocError`: an allocation failed.
pub fn fields_of<'a, A: Allocator>(alloc: A, line: &'a [u8]) -> Result<Vec<&'a [u8], A>, AllocError>
    ensures { IfOk result (λ v. texts v.items ≡ fields line.now) }
{
    line.split(|b| *b == b',')
        .map(|field| trim(field))
        .collect(alloc)
}
