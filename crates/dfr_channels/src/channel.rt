//! Analogue and status channels.

ghost use Rattle.std.specs.Prelude.{◌≡◌, IfOk};
ghost use Rattle.dfr_channels.specs.LineFields as line_fields;
ghost use Rattle.dfr_channels.specs.Setups as spec;

use comtrade_values::{Decimal, Items, Memory, TryClone, is_plain};
use std::alloc::{Allocator, Global};
use std::marker::Model;

/// The side of the transformer that a channel's values refer to.
#[derive(Clone, Copy, Debug, PartialEq, Eq)]
pub enum Side {
    Primary,
    Secondary,
}

/// An analogue channel, with the fields of its line in a configuration file (C37.111-1999, 5.3.3).
/// A sample x has the value a·x + b in `unit`. `Layout::new` checks the lengths and ranges given
/// here.
#[derive(Drop, Debug)]
pub struct AnalogChannel<A: Allocator = Global> {
    /// The channel's identifier, at most 64 bytes.
    pub id: Items<u8, A>,
    /// The phase identification, at most 2 bytes.
    pub phase: Items<u8, A>,
    /// The monitored circuit component, at most 64 bytes.
    pub component: Items<u8, A>,
    /// The unit of the values, 1 to 32 bytes.
    pub unit: Items<u8, A>,
    /// The factor of a sample.
    pub a: Decimal,
    /// The offset, in `unit`.
    pub b: Decimal,
    /// The channel's time skew, in microseconds.
    pub skew: Decimal,
    /// The lowest sample, at least -32767.
    pub min: i32,
    /// The highest sample, at most 32767 and at least `min`.
    pub max: i32,
    /// The transformer's ratio is `primary` to `secondary`.
    pub primary: Decimal,
    pub secondary: Decimal,
    pub side: Side,
}

impl<A: Allocator> Model for AnalogChannel<A> {
    ghost use Rattle.dfr_channels.specs.Parts.{AnalogParts};

    ghost Value = { AnalogParts };

    ghost view = { λ c. record {
      id = c.id;
      phase = c.phase;
      component = c.component;
      unit = c.unit;
      a = c.a;
      b = c.b;
      skew = c.skew;
      min = c.min;
      max = c.max;
      primary = c.primary;
      secondary = c.secondary;
      side = c.side;
    } };
}

/// A status channel (contact), with the fields of its line in a configuration file (C37.111-1999,
/// 5.3.4). `Layout::new` checks the lengths given here.
#[derive(Drop, Debug)]
pub struct StatusChannel<A: Allocator = Global> {
    /// The channel's identifier, at most 64 bytes.
    pub id: Items<u8, A>,
    /// The phase identification, at most 2 bytes.
    pub phase: Items<u8, A>,
    /// The monitored circuit component, at most 64 bytes.
    pub component: Items<u8, A>,
    /// The bit in normal operation.
    pub normal: bool,
}

impl<A: Allocator> Model for StatusChannel<A> {
    ghost use Rattle.dfr_channels.specs.Parts.{StatusParts};

    ghost Value = { StatusParts };

    ghost view = { λ c. record { id = c.id; phase = c.phase; component = c.component; normal = c.normal } };
}

impl<A: Allocator + Copy> TryClone for AnalogChannel<A> {
    fn try_clone(&self) -> Result<AnalogChannel<A>, Memory> {
        let id = self.id.try_clone()?;
        let phase = self.phase.try_clone()?;
        let component = self.component.try_clone()?;
        let unit = self.unit.try_clone()?;
        Ok(AnalogChannel {
            id,
            phase,
            component,
            unit,
            a: self.a,
            b: self.b,
            skew: self.skew,
            min: self.min,
            max: self.max,
            primary: self.primary,
            secondary: self.secondary,
            side: self.side,
        })
    }
}

impl<A: Allocator + Copy> TryClone for StatusChannel<A> {
    fn try_clone(&self) -> Result<StatusChannel<A>, Memory> {
        let id = self.id.try_clone()?;
        let phase = self.phase.try_clone()?;
        let component = self.component.try_clone()?;
        let normal = self.normal;
        Ok(StatusChannel {
            id,
            phase,
            component,
            normal,
        })
    }
}

/// Whether a file can hold all texts of the channel.
#[tactic(auto, unfolding(crate::specs::Setups::has_analog_texts))]
pub(crate) fn has_analog_texts<A: Allocator>(channel: &AnalogChannel<A>) -> bool
    ensures { result ≡ spec.has_analog_texts channel.now }
{
    is_plain(0, 64, channel.id.items())
        && is_plain(0, 2, channel.phase.items())
        && is_plain(0, 64, channel.component.items())
        && is_plain(1, 32, channel.unit.items())
}

/// Whether a file can hold all texts of the channel.
#[tactic(auto, unfolding(crate::specs::Setups::has_status_texts))]
pub(crate) fn has_status_texts<A: Allocator>(channel: &StatusChannel<A>) -> bool
    ensures { result ≡ spec.has_status_texts channel.now }
{
    is_plain(0, 64, channel.id.items())
        && is_plain(0, 2, channel.phase.items())
        && is_plain(0, 64, channel.component.items())
}

/// Whether -32767 <= min <= max <= 32767.
pub(crate) fn has_span<A: Allocator>(channel: &AnalogChannel<A>) -> bool
    ensures { result ≡ spec.has_span channel.now }
{
    -32_767 <= channel.min && channel.min <= channel.max && channel.max <= 32_767
}

/// Reads a transformer side: P or S, in upper or lower case. None otherwise.
#[tactic(auto, unfolding(crate::specs::LineFields::side))]
pub fn side_of(text: &[u8]) -> Option<Side>
    ensures { result ≡ line_fields.side text.now }
{
    match text {
        [b'P' | b'p'] => Some(Side::Primary),
        [b'S' | b's'] => Some(Side::Secondary),
        _ => None,
    }
}
