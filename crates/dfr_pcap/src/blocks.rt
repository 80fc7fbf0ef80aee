//! A capture in the form pcapng that comes in pieces.

ghost use Rattle.std.specs.Prelude.{◌≡◌, ◌+◌, ◌-◌, ◌≤◌, ◌<◌, ◌^◌, ◌++◌, drop, take, length, OnOk};
ghost use Rattle.std.specs.Int.{w32, to_le_bytes};
ghost use Rattle.dfr_pcap.specs.declared.block.Outcome.TheVariants as outcomes;
ghost use Rattle.dfr_pcap.specs.Bounds.{HasContent, IsSound, IsInside};
ghost use Rattle.dfr_pcap.specs.Blocks as blocks;
ghost use Rattle.dfr_pcap.specs.Walks as spec;

use crate::block::{Found, News, Outcome, Place, needs, next};
use crate::flaw::Flaw;
use crate::moment::{Interface, Moment};
use crate::pieces::joined;
use dfr_bus::Order;
use std::alloc::{AllocError, Allocator, Global};
use std::marker::Model;
use thiserror::Error;

/// The first bytes of what is given: the head of a capture of libpcap.
pub(crate) const CLASSIC_HEAD: [u8; 24] = [
    77, 60, 178, 161, 2, 0, 4, 0, 0, 0, 0, 0, 0, 0, 0, 0, 0, 0, 4, 0, 1, 0, 0, 0,
];

/// Why a capture in the form pcapng is read no further.
#[derive(Clone, Copy, Debug, PartialEq, Eq, Error)]
pub enum TranslateFault {
    /// An allocation failed.
    #[error("out of memory")]
    Memory,
    /// The bytes from this one on are not what the form wants.
    #[error("the capture is damaged at byte {0}: {1}")]
    Damaged(u64, Flaw),
    /// The capture would have 2^63 bytes or more.
    #[error("the capture has 2^63 bytes or more")]
    Long,
}

impl From<AllocError> for TranslateFault {
    ghost use Rattle.std.specs.Prelude.{◌≡◌};
    ghost use Rattle.dfr_pcap.specs.declared.blocks.TranslateFault.TheVariants.{Memory};

    ghost from_gives = { λ _ e. e ≡ Memory };

    fn from(_error: AllocError) -> TranslateFault {
        TranslateFault::Memory
    }
}

/// What came of a capture in the form pcapng and was not passed yet.
#[derive(Drop)]
pub struct Blocks<A: Allocator = Global> {
    alloc: A,
    /// The order of the numbers of the section.
    order: Order,
    /// The interfaces of the section.
    interfaces: Vec<Interface, A>,
    /// What stands at the first byte that was not passed.
    place: Place,
    /// How many bytes of the capture came.
    came: u64,
    /// How many bytes were passed: also some that are still to come.
    passed: u64,
    bytes: Vec<u8, A>,
    /// How many of these bytes were passed.
    at: usize,
}

impl<A: Allocator> Model for Blocks<A> {
    ghost use Rattle.std.specs.Prelude.{◌≡◌, drop, length, ◌≤◌, ◌<◌, ◌+◌, ◌-◌, ◌^◌};
    ghost use Rattle.dfr_pcap.specs.Walks.{BlocksParts};

    ghost Value = { BlocksParts };

    ghost view = { λ b. record {
      state = record { order = b.order; interfaces = b.interfaces.items; place = b.place };
      came = b.came;
      passed = b.passed;
      bytes = drop b.at b.bytes.items;
    } };

    ghost invariant = { λ b. (b.at ≤ length b.bytes.items) × (length b.bytes.items - b.at ≡ b.came - b.passed)
        × (b.came < 2 ^ 63) × (b.passed ≤ b.came + 2 ^ 33) };
}

/// What is left of a piece behind so many bytes.
fn behind(piece: &[u8], count: u64) -> &[u8]
    ensures { result.now ≡ drop count piece.now }
{
    if count < piece.len() as u64 {
        &piece[count as usize..]
    } else {
        &piece[piece.len()..]
    }
}

/// How many of the bytes to come were passed.
fn ahead(passed: u64, came: u64) -> u64
    ensures { result ≡ passed - came }
{
    if passed > came { passed - came } else { 0 }
}

/// Writes a number of four bytes.
fn write_4<A: Allocator>(out: &mut Vec<u8, A>, number: u32) -> Result<(), AllocError>
    ensures { OnOk result (out.new.items ≡ out.old.items ++ to_le_bytes w32 number) }
{
    out.extend_from_slice(&number.to_le_bytes())
}

/// Writes a packet as libpcap does, with what was kept of it.
fn write_packet<A: Allocator>(
    out: &mut Vec<u8, A>,
    moment: Moment,
    kept: u32,
    all: u32,
    content: &[u8],
) -> Result<(), AllocError>
    ensures { OnOk result (out.new.items ≡ out.old.items ++ spec.packet_bytes moment kept all content.now) }
{
    write_4(out, moment.seconds)?;
    write_4(out, moment.nanoseconds)?;
    write_4(out, kept)?;
    write_4(out, all)?;
    out.extend_from_slice(content)?;
    Ok(())
}

/// Writes what a part of the capture says of packets.
fn write_news<A: Allocator>(out: &mut Vec<u8, A>, news: News, seen: &[u8]) -> Result<(), AllocError>
    requires { HasContent news (length seen.now) }
    ensures { OnOk result (out.new.items ≡ out.old.items ++ spec.classic seen.now news) }
{
    match news {
        News::Packet(moment, kept, all) => {
            write_packet(out, moment, kept, all, &seen[20..20 + kept as usize])
        }
        _ => Ok(()),
    }
}

impl<A: Allocator + Copy> Blocks<A> {
    ghost use Rattle.std.specs.Prelude.{◌≡◌, ◌≤◌, ◌<◌, ◌^◌, ◌++◌, [], length, Err, OnOk};
    ghost use Rattle.dfr_pcap.specs.declared.blocks.TranslateFault.TheVariants as faults;
    ghost use Rattle.dfr_pcap.specs.Bounds.{IsSound, IsInside};
    ghost use Rattle.dfr_pcap.specs.Blocks.{needs};
    ghost use Rattle.dfr_pcap.specs.declared.block.Outcome.TheVariants as outcomes;
    ghost use Rattle.dfr_pcap.specs.Walks as spec;

    /// Before the first piece.
    pub(crate) fn new(alloc: A) -> Blocks<A>
        ensures { result ≡ record { state = spec.start; came = 0; passed = 0; bytes = [] } }
    {
        Blocks {
            alloc,
            order: Order::Little,
            interfaces: Vec::new(alloc),
            place: Place::Head,
            came: 0,
            passed: 0,
            bytes: Vec::new(alloc),
            at: 0,
        }
    }

    /// What came and was not passed.
    pub(crate) fn left(&self) -> &[u8]
        ensures { result.now ≡ self.now.bytes }
    {
        &self.bytes[self.at..]
    }

    /// Puts a piece after what came.
    pub(crate) fn add(&mut self, piece: &[u8]) -> Result<(), TranslateFault>
        ensures { spec.Adds piece.now result self.old self.new }
    {
        if u128::from(self.came) + piece.len() as u128 >= 9_223_372_036_854_775_808 {
            return Err(TranslateFault::Long);
        }
        let new = behind(piece, ahead(self.passed, self.came));
        let Ok(bytes) = joined(self.alloc, &self.bytes[self.at..], new) else {
            return Err(TranslateFault::Memory);
        };
        self.bytes = bytes;
        self.at = 0;
        self.came += piece.len() as u64;
        Ok(())
    }

    /// Whether bytes came, or are still to come, that are no whole block.
    pub(crate) fn is_within(&self) -> bool
        ensures { result ≡ spec.is_within self.now }
    {
        match self.place {
            Place::Head => self.came != self.passed,
            _ => true,
        }
    }

    /// What comes next.
    fn next(&self) -> Outcome
        ensures value { result ≡ spec.next_of self.now }
        ensures sound { IsSound result (needs self.now.state.place) }
        ensures inside { IsInside result (needs self.now.state.place) (length self.now.bytes) }
    {
        next(
            self.order,
            &self.interfaces,
            self.place,
            &self.bytes[self.at..],
        )
    }

    /// Learns what a part of the capture says.
    fn learn(&mut self, found: &Found) -> Result<(), AllocError>
        ensures { OnOk result (self.new ≡ spec.learned found.now self.old) }
    {
        match found.news {
            News::Section(order) => {
                self.order = order;
                self.interfaces.clear();
            }
            News::Interface(interface) => self.interfaces.push(interface)?,
            _ => {}
        }
        self.place = found.place;
        Ok(())
    }

    /// Passes so many bytes.
    fn pass(&mut self, count: u64)
        requires { (count < 2 ^ 33) × (1 ≤ length self.old.bytes) }
        ensures { self.new ≡ spec.moved count self.old }
    {
        let left = self.bytes.len() - self.at;
        self.at += if count < left as u64 {
            count as usize
        } else {
            left
        };
        self.passed += count;
    }

    /// Takes in what stands at the front, and passes it.
    fn take(&mut self, found: &Found, out: &mut Vec<u8, A>) -> Result<(), AllocError>
        requires next { spec.next_of self.old ≡ outcomes.Pass found.now }
        requires sound { IsSound (outcomes.Pass found.now) (needs self.old.state.place) }
        requires inside { needs self.old.state.place ≤ length self.old.bytes }
        ensures passed { OnOk result (self.new ≡ spec.passed found.now self.old) }
        ensures given { OnOk result (out.new.items ≡ out.old.items ++ spec.classic (spec.seen self.old.state self.old.bytes) found.now.news) }
    {
        let count = needs(self.place);
        write_news(out, found.news, &self.left()[..count])?;
        self.learn(found)?;
        self.pass(found.length);
        Ok(())
    }

    /// Takes in what is whole, up to the first fault.
    pub(crate) fn go_on(&mut self, out: &mut Vec<u8, A>) -> Result<(), TranslateFault>
        ensures goes { spec.GoesUpTo result self.old self.new out.old.items out.new.items }
        ensures stops { spec.StopsAt result self.new }
        ensures short { result ≡ Err faults.Long → ⊥ }
    {
        loop {
            match self.next() {
                Outcome::Wait => return Ok(()),
                Outcome::Fault(at, flaw) => return Err(TranslateFault::Damaged(
                    self.passed + at,
                    flaw,
                )),
                Outcome::Pass(found) => match self.take(&found, out) {
                    Ok(()) => {}
                    Err(_) => return Err(TranslateFault::Memory),
                },
            }
        }
    }
}
