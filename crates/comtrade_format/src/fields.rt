//! Writes fields and lines of the configuration file (C37.111-1999, clause 5).

ghost use Rattle.std.specs.Prelude.{◌≡◌, ◌++◌, ◌∷◌, [], OnOk, decimal};
ghost use Rattle.std.specs.Fmt.{signed_decimal};
ghost use Rattle.comtrade_values.specs.Written.{decimal_text};
ghost use Rattle.comtrade_format.specs.Lines.{line, field};

use comtrade_values::{Decimal, put_decimal, put_number};
use std::alloc::{AllocError, Allocator};

pub(crate) fn end_line<A: Allocator>(out: &mut Vec<u8, A>) -> Result<(), AllocError>
    ensures { OnOk result (out.new.items ≡ out.old.items ++ 13 ∷ 10 ∷ []) }
{
    out.extend_from_slice(b"\r\n")
}

/// Writes a text and the comma after it. The next three functions do the same for numbers.
#[tactic(auto, unfolding(crate::specs::Lines::field))]
pub(crate) fn text_field<A: Allocator>(out: &mut Vec<u8, A>, text: &[u8]) -> Result<(), AllocError>
    ensures { OnOk result (out.new.items ≡ out.old.items ++ field text.now) }
{
    out.extend_from_slice(text)?;
    out.push(b',')?;
    Ok(())
}

#[tactic(auto, unfolding(crate::specs::Lines::field))]
pub(crate) fn decimal_field<A: Allocator>(
    out: &mut Vec<u8, A>,
    d: Decimal,
) -> Result<(), AllocError>
    ensures { OnOk result (out.new.items ≡ out.old.items ++ field (decimal_text d)) }
{
    put_decimal(out, d)?;
    out.push(b',')?;
    Ok(())
}

#[tactic(auto, unfolding(crate::specs::Lines::field))]
pub(crate) fn number_field<A: Allocator>(out: &mut Vec<u8, A>, n: u64) -> Result<(), AllocError>
    ensures { OnOk result (out.new.items ≡ out.old.items ++ field (decimal n)) }
{
    put_number(out, n)?;
    out.push(b',')?;
    Ok(())
}

#[tactic(auto, unfolding(crate::specs::Lines::field))]
pub(crate) fn signed_field<A: Allocator>(out: &mut Vec<u8, A>, n: i32) -> Result<(), AllocError>
    ensures { OnOk result (out.new.items ≡ out.old.items ++ field (signed_decimal n)) }
{
    put_number(out, n)?;
    out.push(b',')?;
    Ok(())
}

/// Writes a line whose only field is a decimal. The next function does the same for an integer.
#[tactic(auto, unfolding(crate::specs::Lines::line))]
pub(crate) fn decimal_line<A: Allocator>(out: &mut Vec<u8, A>, d: Decimal) -> Result<(), AllocError>
    ensures { OnOk result (out.new.items ≡ out.old.items ++ line (decimal_text d ∷ [])) }
{
    put_decimal(out, d)?;
    end_line(out)
}

#[tactic(auto, unfolding(crate::specs::Lines::line))]
pub(crate) fn number_line<A: Allocator>(out: &mut Vec<u8, A>, n: u64) -> Result<(), AllocError>
    ensures { OnOk result (out.new.items ≡ out.old.items ++ line (decimal n ∷ [])) }
{
    put_number(out, n)?;
    end_line(out)
}
