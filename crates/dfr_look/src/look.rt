//! What the frames of a capture come to.

ghost use Rattle.std.specs.Prelude.{◌≡◌, OnOk, IfOk};
ghost use Rattle.dfr_look.specs.Entries.{entered, is_named};
ghost use Rattle.dfr_look.specs.Flows.{first_flow, flow_after};
ghost use Rattle.dfr_look.specs.Talks.{first_talk, talk_after};

use crate::counter::up;
use crate::entry::{Entry, MOST, key_of, place_of};
use crate::flow::{Flow, counts};
use crate::skipped::{REASONS, Tally, noted};
use crate::talk::{Message, Talk, message_of};
use crate::unit::{Unit, unit_of};
use dfr_bus::{Asdu, Ethernet, Goose, read_ethernet, read_goose, read_sampled_values};
use std::alloc::{AllocError, Allocator, Global};
use std::marker::Model;

/// Numbers of frames, and of what they carry.
#[derive(Clone, Copy, Debug, PartialEq, Eq)]
pub struct Counts {
    /// Frames.
    pub frames: u64,
    /// Units of sampled values of streams without a name.
    pub units: u64,
    /// Messages of control blocks without a name.
    pub messages: u64,
    /// Frames of another EtherType.
    pub others: u64,
    /// Frames that end within their head.
    pub short: u64,
    /// Frames of sampled values that are skipped.
    pub sampled: Tally,
    /// Frames of GOOSE that are skipped.
    pub goose: Tally,
}

/// What the frames of a capture come to. Contracts see its streams, its control blocks, and the
/// numbers.
#[derive(Drop)]
pub struct Look<A: Allocator = Global> {
    streams: Vec<Entry<Flow, A>, A>,
    blocks: Vec<Entry<Talk, A>, A>,
    counts: Counts,
}

impl<A: Allocator> Model for Look<A> {
    ghost use Rattle.dfr_look.specs.Looks.{Seen};

    ghost Value = { Seen };

    ghost view = { λ a. record { streams = a.streams.items; blocks = a.blocks.items; counts = a.counts } };
}

/// Enters a unit. Returns whether its stream has a name.
fn enter_unit<A: Allocator + Copy>(
    alloc: A,
    streams: &mut Vec<Entry<Flow, A>, A>,
    key: Vec<u8, A>,
    bytes: &[u8],
    unit: Unit,
) -> Result<bool, AllocError>
    ensures streams { OnOk result (streams.new.items ≡ entered (λ f. flow_after f unit)
        (record { key = key.items; frame = bytes.now; content = first_flow unit }) streams.old.items) }
    ensures named { IfOk result (λ named. named ≡ is_named key.items streams.old.items) }
{
    match place_of(streams, &key) {
        Some(i) => {
            let flow = streams[i].content().after(unit);
            streams[i].set(flow);
            Ok(true)
        }
        None => {
            if streams.len() >= MOST {
                return Ok(false);
            }
            streams.push(Entry::new(alloc, key, bytes, Flow::new(unit))?)?;
            Ok(true)
        }
    }
}

/// Enters a message. Returns whether its control block has a name.
fn enter_message<A: Allocator + Copy>(
    alloc: A,
    blocks: &mut Vec<Entry<Talk, A>, A>,
    key: Vec<u8, A>,
    bytes: &[u8],
    message: Message,
) -> Result<bool, AllocError>
    ensures blocks { OnOk result (blocks.new.items ≡ entered (λ t. talk_after t message)
        (record { key = key.items; frame = bytes.now; content = first_talk message }) blocks.old.items) }
    ensures named { IfOk result (λ named. named ≡ is_named key.items blocks.old.items) }
{
    match place_of(blocks, &key) {
        Some(i) => {
            let talk = blocks[i].content().after(message);
            blocks[i].set(talk);
            Ok(true)
        }
        None => {
            if blocks.len() >= MOST {
                return Ok(false);
            }
            blocks.push(Entry::new(alloc, key, bytes, Talk::new(message))?)?;
            Ok(true)
        }
    }
}

impl<A: Allocator + Copy> Look<A> {
    ghost use Rattle.std.specs.Prelude.{◌≡◌, ◌≤◌, OnOk, IfOk, length};
    ghost use Rattle.dfr_look.specs.Looks as spec;

    /// Of no frame.
    pub fn new(alloc: A) -> Look<A>
        ensures { result ≡ spec.blank }
    {
        Look {
            streams: Vec::new(alloc),
            blocks: Vec::new(alloc),
            counts: Counts {
                frames: 0,
                units: 0,
                messages: 0,
                others: 0,
                short: 0,
                sampled: [0; REASONS],
                goose: [0; REASONS],
            },
        }
    }

    /// A unit of sampled values.
    #[tactic(auto, unfolding(crate::specs::Looks::unit_seen))]
    fn unit(
        &mut self,
        alloc: A,
        bytes: &[u8],
        frame: &Ethernet,
        app_id: u16,
        unit: &Asdu,
    ) -> Result<(), AllocError>
        ensures { OnOk result (self.new ≡ spec.unit_seen bytes.now frame.now app_id unit.now self.old) }
    {
        let key = key_of(alloc, bytes, frame.source, app_id, unit.sv_id)?;
        let is_named = enter_unit(alloc, &mut self.streams, key, bytes, unit_of(bytes, unit))?;
        self.counts.units = up(self.counts.units, counts(!is_named));
        Ok(())
    }

    /// Units of sampled values, one after the other.
    #[tactic(auto, using(crate::proofs::Looks::unit_steps))]
    fn units(
        &mut self,
        alloc: A,
        bytes: &[u8],
        frame: &Ethernet,
        app_id: u16,
        units: &[Asdu],
    ) -> Result<(), AllocError>
        ensures { OnOk result (self.new ≡ spec.units_seen bytes.now frame.now app_id units.now self.old) }
    {
        for unit in units {
            self.unit(alloc, bytes, frame, app_id, unit)?;
        }
        Ok(())
    }

    /// A message of GOOSE.
    #[tactic(auto, unfolding(crate::specs::Looks::message_seen))]
    fn message(
        &mut self,
        alloc: A,
        bytes: &[u8],
        time: u64,
        frame: &Ethernet,
        goose: &Goose,
    ) -> Result<(), AllocError>
        ensures { OnOk result (self.new ≡ spec.message_seen bytes.now time frame.now goose.now self.old) }
    {
        let key = key_of(alloc, bytes, frame.source, goose.app_id, goose.gocb_ref)?;
        let is_named = enter_message(alloc, &mut self.blocks, key, bytes, message_of(goose, time))?;
        self.counts.messages = up(self.counts.messages, counts(!is_named));
        Ok(())
    }

    /// What a frame carries.
    #[tactic(auto, unfolding(crate::specs::Looks::payload_seen, crate::specs::Looks::sampled_seen, crate::specs::Looks::goose_seen))]
    fn payload(
        &mut self,
        alloc: A,
        bytes: &[u8],
        time: u64,
        frame: &Ethernet,
    ) -> Result<(), AllocError>
        requires order { frame.now.payload.from ≤ frame.now.payload.to }
        requires within { frame.now.payload.to ≤ length bytes.now }
        ensures { OnOk result (self.new ≡ spec.payload_seen bytes.now time frame.now self.old) }
    {
        let payload = frame.payload;
        match frame.ether_type {
            0x88BA => match read_sampled_values(bytes, payload.from, payload.to) {
                Ok(sampled) => {
                    self.units(alloc, bytes, frame, sampled.app_id, sampled.asdus())?;
                }
                Err(fault) => self.counts.sampled = noted(self.counts.sampled, fault.wrong),
            },
            0x88B8 => match read_goose(bytes, payload.from, payload.to) {
                Ok(goose) => self.message(alloc, bytes, time, frame, &goose)?,
                Err(fault) => self.counts.goose = noted(self.counts.goose, fault.wrong),
            },
            _ => self.counts.others = up(self.counts.others, 1),
        }
        Ok(())
    }

    /// A frame.
    #[tactic(auto, unfolding(crate::specs::Looks::frame_seen, crate::specs::Looks::ethernet_seen))]
    fn frame(&mut self, alloc: A, bytes: &[u8], time: u64) -> Result<(), AllocError>
        ensures { OnOk result (self.new ≡ spec.frame_seen bytes.now time self.old) }
    {
        self.counts.frames = up(self.counts.frames, 1);
        match read_ethernet(bytes, 0, bytes.len()) {
            Ok(frame) => self.payload(alloc, bytes, time, &frame)?,
            Err(_) => self.counts.short = up(self.counts.short, 1),
        }
        Ok(())
    }

    /// Takes in a frame that came at this nanosecond since 1970. What it returns is what the
    /// definition over all frames names. The error is that memory ran out; then nothing is kept.
    #[tactic(auto, unfolding(crate::specs::Looks::look))]
    pub fn take_in(self, alloc: A, bytes: &[u8], time: u64) -> Result<Look<A>, AllocError>
        ensures { IfOk result (λ new. spec.IsLook self bytes.now time new) }
    {
        let mut look = self;
        look.frame(alloc, bytes, time)?;
        Ok(look)
    }
}

impl<A: Allocator> Look<A> {
    ghost use Rattle.std.specs.Prelude.{◌≡◌};

    /// The streams of sampled values, in the order of their first units.
    pub fn streams(&self) -> &[Entry<Flow, A>]
        ensures { result.now ≡ self.now.streams }
    {
        self.streams.as_slice()
    }

    /// The control blocks, in the order of their first messages.
    pub fn blocks(&self) -> &[Entry<Talk, A>]
        ensures { result.now ≡ self.now.blocks }
    {
        self.blocks.as_slice()
    }

    /// The numbers.
    pub fn counts(&self) -> Counts
        ensures { result ≡ self.now.counts }
    {
        self.counts
    }
}
