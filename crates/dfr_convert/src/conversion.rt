//! The lines of a capture that comes in pieces.

ghost use Rattle.std.specs.Prelude.{◌≡◌, ◌≤◌, length, Err, OnOk};
ghost use Rattle.dfr_pcap.specs.Pieces as pcap;
ghost use Rattle.dfr_pcap.specs.declared.pieces.Step.TheVariants as steps;
ghost use Rattle.dfr_convert.specs.declared.conversion.Stop.TheVariants.{Long};
ghost use Rattle.dfr_convert.specs.Conversions as spec;

use dfr_bus::{Packet, Wrong};
use dfr_capture::{Feed, Plan, Recorder};
use dfr_pcap::{AddFault, Pieces, Step, nanosecond_of};
use std::alloc::{AllocError, Allocator, Global};
use std::marker::Model;
use thiserror::Error;

/// Why a capture is read no further.
#[derive(Clone, Copy, Debug, PartialEq, Eq, Error)]
pub enum Stop {
    /// An allocation failed.
    #[error("out of memory")]
    Memory,
    /// The bytes from this one on are no packet.
    #[error("the capture is damaged at byte {0}: {1}")]
    Damaged(u64, Wrong),
    /// A packet's time doesn't fit 64 bits.
    #[error("the capture is damaged: a packet came after the year 2554")]
    Time,
    /// The capture has 2^64 bytes or more.
    #[error("the capture has 2^64 bytes or more")]
    Long,
}

impl From<AllocError> for Stop {
    ghost use Rattle.std.specs.Prelude.{◌≡◌};
    ghost use Rattle.dfr_convert.specs.declared.conversion.Stop.TheVariants.{Memory};

    ghost from_gives = { λ _ e. e ≡ Memory };

    fn from(_error: AllocError) -> Stop {
        Stop::Memory
    }
}

/// Makes the lines of scans from the pieces of a capture. What it keeps has a bound, however long the
/// capture is: a packet that isn't whole, and what the recorder keeps.
#[derive(Drop)]
pub struct Conversion<A: Allocator = Global> {
    pieces: Pieces<A>,
    recorder: Recorder<A>,
}

impl<A: Allocator> Model for Conversion<A> {
    ghost use Rattle.dfr_convert.specs.Conversions.{Kept};

    ghost Value = { Kept };

    ghost view = { λ c. record { pieces = c.pieces; recorder = c.recorder } };
}

/// When the frame came that gave the first lines: if that isn't known and there are lines, it is this
/// one, which came at `time`.
fn noted(first: Option<u64>, lines: &[u8], time: u64) -> Option<u64>
    ensures { result ≡ spec.noted first lines.now time }
{
    match first {
        Some(first) => Some(first),
        None if lines.is_empty() => None,
        None => Some(time),
    }
}

/// Takes in the packet at the front, and passes it.
fn take_packet<A: Allocator + Copy>(
    pieces: &mut Pieces<A>,
    recorder: &mut Recorder<A>,
    packet: &Packet,
    feed: &mut Feed<A>,
    first: &mut Option<u64>,
) -> Result<(), Stop>
    requires next { pcap.step pieces.old ≡ steps.Packet packet.now }
    requires order { packet.now.content.from ≤ packet.now.content.to }
    requires within { packet.now.content.to ≤ length pieces.old.bytes }
    ensures passed { OnOk result (pieces.new ≡ pcap.passed packet.now.content.to pieces.old) }
    ensures takes { spec.TakesUpTo result (spec.state (spec.kept pieces.old recorder.old) feed.old first.old)
        (spec.state (spec.kept pieces.new recorder.new) feed.new first.new) }
    ensures stops { spec.StopsAtError result pieces.new }
    ensures short { result ≡ Err Long → ⊥ }
    ensures first { spec.NotedAfter result packet.now feed.new.lines first.old first.new }
{
    let Some(time) = nanosecond_of(packet) else {
        return Err(Stop::Time);
    };
    let content = packet.content;
    match recorder.take_in(&pieces.left()[content.from..content.to], time, feed) {
        Ok(()) => {}
        Err(_) => return Err(Stop::Memory),
    }
    *first = noted(*first, &feed.lines, time);
    pieces.pass(content.to);
    Ok(())
}

/// Takes in the packets that are whole, up to the first fault.
#[tactic(auto, using(crate::proofs::Taken::takes_on, crate::proofs::Taken::takes_none, crate::proofs::Taken::up_to_on))]
fn take_packets<A: Allocator + Copy>(
    pieces: &mut Pieces<A>,
    recorder: &mut Recorder<A>,
    feed: &mut Feed<A>,
    first: &mut Option<u64>,
) -> Result<(), Stop>
    ensures takes { spec.TakesUpTo result (spec.state (spec.kept pieces.old recorder.old) feed.old first.old)
        (spec.state (spec.kept pieces.new recorder.new) feed.new first.new) }
    ensures stops { spec.StopsAt result pieces.new }
    ensures short { result ≡ Err Long → ⊥ }
    ensures first { spec.StaysKnown first.old first.new }
{
    loop {
        match pieces.step() {
            Step::Wait => return Ok(()),
            Step::Fault(at, wrong) => return Err(Stop::Damaged(at, wrong)),
            Step::Packet(packet) => match take_packet(pieces, recorder, &packet, feed, first) {
                Ok(()) => {}
                Err(stop) => return Err(stop),
            },
        }
    }
}

/// Puts a piece after what came, and passes the head of the capture once it came.
fn add<A: Allocator + Copy>(pieces: &mut Pieces<A>, piece: &[u8]) -> Result<(), Stop>
    ensures { spec.Adds piece.now result pieces.old pieces.new }
{
    match pieces.add(piece) {
        Ok(()) => {
            pieces.begin();
            Ok(())
        }
        Err(AddFault::Memory) => Err(Stop::Memory),
        Err(AddFault::Long) => Err(Stop::Long),
    }
}

impl<A: Allocator + Copy> Conversion<A> {
    ghost use Rattle.std.specs.Prelude.{◌≡◌, [], length, not, ◌==◌, IfOk};
    ghost use Rattle.dfr_convert.specs.Conversions as spec;

    /// Before the first piece.
    #[tactic(auto, using(crate::proofs::Taken::none_yet))]
    pub fn new(alloc: A, plan: Plan<A>) -> Result<Conversion<A>, AllocError>
        ensures plan { IfOk result (λ c. c.recorder.plan ≡ plan) }
        ensures kept { IfOk result (λ c. spec.IsSoFar [] [] c) }
    {
        let recorder = Recorder::new(alloc, plan)?;
        Ok(Conversion {
            pieces: Pieces::new(alloc),
            recorder,
        })
    }

    /// Takes in a piece: a feed grows by just what the definitions over all frames have more with the
    /// packets that are whole with it, up to the first fault. If memory ran out, nothing is promised of it.
    /// `first` gets the nanosecond at which the frame came that gave the first lines, unless it has one.
    #[tactic(auto, using(crate::proofs::Taken::piece_taken_up_to, crate::proofs::Taken::piece_taken))]
    pub fn take_in(
        &mut self,
        piece: &[u8],
        feed: &mut Feed<A>,
        first: &mut Option<u64>,
    ) -> Result<(), Stop>
        ensures takes { spec.TakesIn piece.now result (spec.state self.old feed.old first.old) (spec.state self.new feed.new first.new) }
        ensures stops { spec.StopsAt result self.new.pieces }
        ensures first { spec.StaysKnown first.old first.new }
    {
        match add(&mut self.pieces, piece) {
            Ok(()) => take_packets(&mut self.pieces, &mut self.recorder, feed, first),
            Err(stop) => Err(stop),
        }
    }

    /// Whether bytes are left that are no whole packet.
    pub fn is_within(&self) -> bool
        ensures { result ≡ not (length self.now.pieces.bytes == 0) }
    {
        !self.pieces.left().is_empty()
    }
}
