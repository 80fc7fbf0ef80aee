//! What holds for the numbers of every head.

ghost use Rattle.std.specs.List.{All};
ghost use Rattle.comtrade_values.specs.Spelling.{IsNumber};
ghost use Rattle.comtrade_read.specs.ReadBack.{HasNumbers};

use comtrade_format::{Head, Rate};
use comtrade_values::decimal_is_number;
use dfr_channels::channels_have_numbers;
use std::alloc::Allocator;

fn samps(rates: &[Rate])
    ensures { All (λ r. IsNumber r.samp) rates.now }
{
    for rate in rates {
        decimal_is_number(rate.samp);
    }
}

/// Every decimal number of a head is one that `Decimal` can hold.
pub(crate) fn numbers<A: Allocator>(head: &Head<A>)
    ensures { HasNumbers head.now }
{
    channels_have_numbers(head.analog.items());
    samps(head.rates.items());
    decimal_is_number(head.line_freq);
    decimal_is_number(head.timemult);
}
