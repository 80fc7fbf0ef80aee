//! What is kept of each stream and of each control block.

ghost use Rattle.std.specs.Prelude.{◌≡◌, ◌<◌, length, IfOk, IfSome};
ghost use Rattle.dfr_look.specs.Entries as spec;

use dfr_bus::Span;
use std::alloc::{AllocError, Allocator, Global};
use std::marker::Model;

/// A stream or a control block: its key, the first frame that has it, and what its units or
/// messages come to.
#[derive(Drop)]
pub struct Entry<T: Drop, A: Allocator = Global> {
    key: Vec<u8, A>,
    frame: Vec<u8, A>,
    content: T,
}

impl<T: Drop, A: Allocator> Model for Entry<T, A> {
    ghost use Rattle.dfr_look.specs.Entries.{Entry};

    ghost Value = { Entry T };

    ghost view = { λ e. record { key = e.key.items; frame = e.frame.items; content = e.content } };
}

/// At most so many streams, and so many control blocks, have a name.
pub(crate) const MOST: usize = 256;

/// The bytes of a part; none if there are not so many.
fn part(bytes: &[u8], span: Span) -> &[u8]
    ensures { result.now ≡ spec.part bytes.now span }
{
    if span.from > span.to || span.to > bytes.len() {
        return &[];
    }
    &bytes[span.from..span.to]
}

/// The key of a name.
pub(crate) fn key_of<A: Allocator>(
    alloc: A,
    bytes: &[u8],
    source: Span,
    app_id: u16,
    name: Span,
) -> Result<Vec<u8, A>, AllocError>
    ensures { IfOk result (λ key. key.items ≡ spec.key_of bytes.now source app_id name) }
{
    let mut key = Vec::new(alloc);
    key.extend_from_slice(part(bytes, source))?;
    key.push((app_id / 256) as u8)?;
    key.push((app_id % 256) as u8)?;
    key.extend_from_slice(part(bytes, name))?;
    Ok(key)
}

/// The place of the entry with this key.
pub(crate) fn place_of<T: Drop, A: Allocator>(entries: &[Entry<T, A>], key: &[u8]) -> Option<usize>
    ensures value { result ≡ spec.place_of entries.now key.now }
    ensures inside { IfSome result (λ i. i < length entries.now) }
{
    entries.iter().position(|entry| entry.has_key(key))
}

impl<T: Drop, A: Allocator> Entry<T, A> {
    ghost use Rattle.std.specs.Prelude.{◌≡◌, drop};
    ghost use Rattle.std.specs.Str.{bytes_eq};
    ghost use Rattle.dfr_look.specs.Entries.{with_content};

    /// Whether it has this key.
    fn has_key(&self, key: &[u8]) -> bool
        ensures { result ≡ bytes_eq self.now.key key.now }
    {
        self.key.as_slice() == key
    }

    /// The address that its frames come from, the application's number in two bytes, and its name.
    pub fn key(&self) -> &[u8]
        ensures { result.now ≡ self.now.key }
    {
        self.key.as_slice()
    }

    /// Its name.
    pub fn name(&self) -> &[u8]
        ensures { result.now ≡ drop 8 self.now.key }
    {
        let key = self.key.as_slice();
        if key.len() < 8 {
            return &[];
        }
        &key[8..]
    }

    /// Its first frame.
    pub fn frame(&self) -> &[u8]
        ensures { result.now ≡ self.now.frame }
    {
        self.frame.as_slice()
    }

    /// It gets another content.
    pub(crate) fn set(&mut self, content: T)
        ensures { self.new ≡ with_content content self.old }
    {
        self.content = content;
    }
}

impl<T: Drop + Copy, A: Allocator> Entry<T, A> {
    ghost use Rattle.std.specs.Prelude.{◌≡◌};

    /// What its units or messages come to.
    pub fn content(&self) -> T
        ensures { result ≡ self.now.content }
    {
        self.content
    }
}

impl<T: Drop, A: Allocator + Copy> Entry<T, A> {
    ghost use Rattle.std.specs.Prelude.{◌≡◌, IfOk};

    /// An entry of one frame.
    pub(crate) fn new(
        alloc: A,
        key: Vec<u8, A>,
        bytes: &[u8],
        content: T,
    ) -> Result<Entry<T, A>, AllocError>
        ensures { IfOk result (λ e. e ≡ record { key = key.items; frame = bytes.now; content = content }) }
    {
        let mut frame = Vec::new(alloc);
        frame.extend_from_slice(bytes)?;
        Ok(Entry {
            key,
            frame,
            content,
        })
    }
}
