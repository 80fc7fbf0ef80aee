//! The lines of a file that are still to be read.

ghost use Rattle.std.specs.Prelude.{◌≡◌, map};
ghost use Rattle.comtrade_values.specs.Lines.{texts, fields, lines};
ghost use Rattle.comtrade_read.specs.Line as spec;
ghost use Rattle.comtrade_read.specs.Inner.LineFaults.{Is};

use crate::fault::ReadFault;
use comtrade_values::{Lines, fields_of};
use std::alloc::Allocator;
use std::marker::Model;

/// A line's number, from 1, and its fields.
#[derive(Drop)]
pub(crate) struct Line<'a, A: Allocator> {
    pub(crate) number: u64,
    pub(crate) fields: Vec<&'a [u8], A>,
}

/// The lines of a file that are still to be read, and the number of the first of them.
#[derive(Drop)]
pub(crate) struct Left<'a> {
    lines: Lines<'a>,
    number: u64,
}

impl<'a> Model for Left<'a> {
    ghost use Rattle.std.specs.Prelude.{map, length, ◌+◌, ◌<◌, ◌^◌};
    ghost use Rattle.comtrade_values.specs.Lines.{fields};
    ghost use Rattle.comtrade_read.specs.Line.{Left};

    ghost Value = { Left };

    ghost view = { λ it. record { line = it.number; lines = map fields it.lines } };

    ghost invariant = { λ it. it.number + length it.lines < 2 ^ 64 };
}

impl<'a> Left<'a> {
    /// The lines of a text, without the blank ones at its end.
    pub(crate) fn of(text: &'a [u8]) -> Left<'a>
        ensures { result ≡ spec.from_first (map fields (lines text.now)) }
    {
        Left {
            lines: Lines::of(text).without_blank_end(),
            number: 1,
        }
    }

    /// Takes the next line: its number and its text. `Missing` if there is none.
    #[tactic(auto, unfolding(crate::specs::Line::taken))]
    pub(crate) fn next_text(&mut self) -> Result<(u64, &'a [u8]), ReadFault>
        ensures { Is {Y = spec.Taken}
            (λ x. record { line = x.0; fields = fields x.1.now; left = self.new })
            (spec.taken self.old) result }
    {
        let number = self.number;
        match self.lines.next() {
            Some(text) => {
                self.number = number + 1;
                Ok((number, text))
            }
            None => Err(ReadFault::Missing(number)),
        }
    }

    /// Takes the next line: its number and its fields. `Missing` if there is none.
    pub(crate) fn next_line<A: Allocator>(&mut self, alloc: A) -> Result<Line<'a, A>, ReadFault>
        ensures { Is {Y = spec.Taken}
            (λ x. record { line = x.number; fields = texts x.fields.items; left = self.new })
            (spec.taken self.old) result }
    {
        let (number, text) = self.next_text()?;
        let fields = fields_of(alloc, text)?;
        Ok(Line { number, fields })
    }

    /// Checks that no line is left; else `Extra`.
    #[tactic(auto, unfolding(crate::specs::Line::end))]
    pub(crate) fn end(&mut self) -> Result<(), ReadFault>
        ensures { Is (λ x. x) (spec.end self.old) result }
    {
        match self.lines.next() {
            Some(_) => Err(ReadFault::Extra(self.number)),
            None => Ok(()),
        }
    }
}
