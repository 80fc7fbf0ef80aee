//! Reads a `limits` line: its numbers, and the word `unshared` if it is there.

ghost use Rattle.std.specs.Prelude.{◌≡◌, if◌then◌else◌, length, Ok, Err};
ghost use Rattle.dfr_script.specs.declared.fault.LineFault.TheVariants as line_fault;
ghost use Rattle.dfr_script.specs.Faults.{Is};
ghost use Rattle.dfr_script.specs.Limits as spec;
ghost use Rattle.comtrade_values.specs.Lines.{texts};

use crate::fault::{LineFault, LineRefusal};
use crate::fields::natural_at;
use comtrade_values::{fields_of, is_word};
use std::alloc::Allocator;

/// The numbers of a `limits` line. They are not checked here: `Limits::new` of `dfr_recorder` does
/// that.
#[derive(Clone, Copy, Debug, PartialEq, Eq)]
pub struct LimitNumbers {
    /// Scans before a trigger.
    pub pre: u32,
    /// Scans after a trigger.
    pub post: u32,
    /// The most scans of a record.
    pub longest: u32,
    /// The most finished records that wait.
    pub shelf: u32,
    /// Whether each scan is in at most one record.
    pub unshared: bool,
}

/// Checks that the fifth of five fields is `unshared`; else the fault `Number`.
fn chosen(fields: &[&[u8]]) -> Result<(), LineRefusal>
    requires { length fields.now ≡ 5 }
    ensures { Is (λ x. x) (if spec.chooses (texts fields.now) then Ok tt else Err line_fault.Number) result }
{
    if is_word(fields[4], "unshared") {
        Ok(())
    } else {
        Err(LineRefusal::Fault(LineFault::Number))
    }
}

/// Reads four numbers, and `unshared` if there is a fifth field.
fn limits_in(fields: &[&[u8]]) -> Result<LimitNumbers, LineRefusal>
    ensures { Is (λ x. x) (spec.limits_fields (texts fields.now)) result }
{
    let unshared = fields.len() == 5;
    if unshared {
        chosen(fields)?;
    } else if fields.len() != 4 {
        return Err(LineRefusal::Fault(LineFault::Fields));
    }
    let pre = natural_at(fields, 0)?;
    let post = natural_at(fields, 1)?;
    let longest = natural_at(fields, 2)?;
    let shelf = natural_at(fields, 3)?;
    Ok(LimitNumbers {
        pre,
        post,
        longest,
        shelf,
        unshared,
    })
}

/// Reads the rest of a `limits` line.
pub(crate) fn limits_of<A: Allocator>(alloc: A, rest: &[u8]) -> Result<LimitNumbers, LineRefusal>
    ensures { Is (λ x. x) (spec.limits_line rest.now) result }
{
    let fields = fields_of(alloc, rest)?;
    limits_in(&fields)
}
