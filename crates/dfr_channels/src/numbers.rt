//! Bounds on the numbers in channels and layouts. These functions compute nothing: their
//! contracts state the bounds.

ghost use Rattle.std.specs.List.{All};
ghost use Rattle.comtrade_values.specs.Spelling.{IsNumber};
ghost use Rattle.dfr_channels.specs.Decimals.{HasDecimals};

use crate::channel::AnalogChannel;
use crate::layout::Layout;
use comtrade_values::decimal_is_number;
use std::alloc::Allocator;

fn channel_has_numbers<A: Allocator>(channel: &AnalogChannel<A>)
    ensures { HasDecimals channel.now }
{
    decimal_is_number(channel.a);
    decimal_is_number(channel.b);
    decimal_is_number(channel.skew);
    decimal_is_number(channel.primary);
    decimal_is_number(channel.secondary);
}

/// Every decimal of the channels is within these bounds.
pub fn channels_have_numbers<A: Allocator>(channels: &[AnalogChannel<A>])
    ensures { All HasDecimals channels.now }
{
    for channel in channels {
        channel_has_numbers(channel);
    }
}

/// Every decimal of a layout's channels is within these bounds, and so is its line frequency.
pub fn layout_has_numbers<A: Allocator>(layout: &Layout<A>)
    ensures analog { All HasDecimals layout.now.analog }
    ensures line_freq { IsNumber layout.now.line_freq }
{
    channels_have_numbers(layout.analog());
    decimal_is_number(layout.line_freq());
}
