//! What is recorded of a bus.

ghost use Rattle.std.specs.Prelude.{◌≡◌};
ghost use Rattle.dfr_capture.specs.Plans as spec;

use dfr_bay::{Channel, Settings};
use dfr_bus::Span;
use std::alloc::{Allocator, Global};
use std::marker::Model;

/// How the units of a stream are known.
#[derive(Clone, Copy, Debug)]
pub enum Key {
    /// By their svID, a part of the plan's text.
    SvId(Span),
    /// By the application's number, and the address that their frames come from: six bytes of the
    /// plan's text.
    Source(u16, Span),
}

/// What dates the scans.
#[derive(Clone, Copy, Debug, PartialEq, Eq)]
pub enum Dating {
    /// Sample 0 of a stream that is synchronised to a global clock is the top of a second.
    Synchronised,
    /// Sample 0 came when the capture says.
    Stamps,
}

/// What becomes of contacts whose control block is in doubt: its messages are tests, or none came
/// in its time to live.
#[derive(Clone, Copy, Debug, PartialEq, Eq)]
pub enum Doubt {
    /// They stay as they are.
    Stays,
    /// They return to their normal states.
    Normal,
}

/// A control block.
#[derive(Clone, Copy, Debug, PartialEq, Eq)]
pub struct Block {
    /// Its reference (gocbRef), a part of the plan's text.
    pub name: Span,
    /// What becomes of its contacts in doubt.
    pub doubt: Doubt,
}

/// A contact.
#[derive(Clone, Copy, Debug, PartialEq, Eq)]
pub struct Contact {
    /// The number of its control block.
    pub block: usize,
    /// Which element it is of the data.
    pub element: usize,
    /// Its normal state.
    pub normal: bool,
}

/// What is recorded of a bus.
#[derive(Drop)]
pub struct Plan<A: Allocator = Global> {
    /// The bytes that have the names and addresses.
    pub text: Vec<u8, A>,
    /// How the streams are followed.
    pub settings: Settings,
    /// What dates the scans.
    pub dating: Dating,
    /// The streams, 1 to 256.
    pub streams: Vec<Key, A>,
    /// The analogue channels, in their order.
    pub channels: Vec<Channel, A>,
    /// The control blocks.
    pub blocks: Vec<Block, A>,
    /// The contacts, in the order of the status channels.
    pub contacts: Vec<Contact, A>,
}

impl<A: Allocator> Model for Plan<A> {
    ghost use Rattle.dfr_capture.specs.Plans.{PlanParts, IsPlan};

    ghost Value = { PlanParts };

    ghost view = { λ p. record {
      text = p.text.items;
      settings = p.settings;
      dating = p.dating;
      streams = p.streams.items;
      channels = p.channels.items;
      blocks = p.blocks.items;
      contacts = p.contacts.items;
    } };

    ghost invariant = { λ p. IsPlan (record {
      text = p.text.items;
      settings = p.settings;
      dating = p.dating;
      streams = p.streams.items;
      channels = p.channels.items;
      blocks = p.blocks.items;
      contacts = p.contacts.items;
    }) };
}

/// The bytes of a part; none if there are not so many.
pub(crate) fn part(bytes: &[u8], span: Span) -> &[u8]
    ensures { result.now ≡ spec.part bytes.now span }
{
    if span.from > span.to || span.to > bytes.len() {
        return &[];
    }
    &bytes[span.from..span.to]
}
