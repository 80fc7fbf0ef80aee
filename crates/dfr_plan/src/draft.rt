//! What the lines of a plan said so far.

ghost use Rattle.std.specs.Prelude.{◌≡◌, ◌++◌, IfOk, OnOk};
ghost use Rattle.dfr_capture.specs.Plans.{part as part_of};
ghost use Rattle.dfr_plan.specs.Drafts as spec;

use dfr_bay::{Channel, Settings};
use dfr_bus::Span;
use dfr_capture::{Block, Contact, Dating, Key};
use std::alloc::{AllocError, Allocator, Global};
use std::marker::Model;

/// What the lines of a plan said so far.
#[derive(Drop)]
pub(crate) struct Draft<A: Allocator = Global> {
    /// The names, one after the other.
    pub(crate) text: Vec<u8, A>,
    pub(crate) streams: Vec<Key, A>,
    pub(crate) channels: Vec<Channel, A>,
    pub(crate) blocks: Vec<Block, A>,
    pub(crate) contacts: Vec<Contact, A>,
    pub(crate) follow: Option<Settings>,
    pub(crate) dating: Option<Dating>,
}

impl<A: Allocator> Model for Draft<A> {
    ghost use Rattle.dfr_plan.specs.Drafts.{DraftParts, IsDraft};

    ghost Value = { DraftParts };

    ghost view = { λ d. record {
      text = d.text.items;
      streams = d.streams.items;
      channels = d.channels.items;
      blocks = d.blocks.items;
      contacts = d.contacts.items;
      follow = d.follow;
      dating = d.dating;
    } };

    ghost invariant = { λ d. IsDraft (record {
      text = d.text.items;
      streams = d.streams.items;
      channels = d.channels.items;
      blocks = d.blocks.items;
      contacts = d.contacts.items;
      follow = d.follow;
      dating = d.dating;
    }) };
}

impl<A: Allocator + Copy> Draft<A> {
    ghost use Rattle.std.specs.Prelude.{◌≡◌};
    ghost use Rattle.dfr_plan.specs.Drafts as spec;

    /// Before the first line.
    pub(crate) fn new(alloc: A) -> Draft<A>
        ensures { result ≡ spec.empty }
    {
        Draft {
            text: Vec::new(alloc),
            streams: Vec::new(alloc),
            channels: Vec::new(alloc),
            blocks: Vec::new(alloc),
            contacts: Vec::new(alloc),
            follow: None,
            dating: None,
        }
    }
}

/// Puts a name after a text. Returns where it stands.
pub(crate) fn put_name<A: Allocator>(text: &mut Vec<u8, A>, name: &[u8]) -> Result<Span, AllocError>
    ensures place { IfOk result (λ span. span ≡ spec.span_after text.old.items name.now) }
    ensures text { OnOk result (text.new.items ≡ text.old.items ++ name.now) }
{
    let from = text.len();
    text.extend_from_slice(name)?;
    Ok(Span {
        from,
        to: text.len(),
    })
}

/// The bytes of a part; none if there are not so many.
pub(crate) fn part(bytes: &[u8], span: Span) -> &[u8]
    ensures { result.now ≡ part_of bytes.now span }
{
    if span.from > span.to || span.to > bytes.len() {
        return &[];
    }
    &bytes[span.from..span.to]
}
