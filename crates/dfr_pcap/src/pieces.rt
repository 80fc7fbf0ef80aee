//! The packets of a capture that comes in pieces.

ghost use Rattle.std.specs.Prelude.{◌≡◌, ◌+◌, ◌-◌, ◌≤◌, ◌^◌, nat_le, length, IfSome, IfErr, IfOk};
ghost use Rattle.dfr_pcap.specs.Pieces as spec;

use dfr_bus::{Capture, Fault, Packet, Wrong, read_head, read_packet};
use std::alloc::{AllocError, Allocator, Global};
use std::marker::Model;
use thiserror::Error;

/// What comes next in a capture.
#[derive(Clone, Copy, Debug, PartialEq, Eq)]
pub enum Step {
    /// What came doesn't reach to the end of the next packet.
    Wait,
    /// This packet. Its places are those of the bytes that are left.
    Packet(Packet),
    /// What is wrong, and at which byte of the capture, counted from 0.
    Fault(u64, Wrong),
}

/// Why a piece isn't taken.
#[derive(Clone, Copy, Debug, PartialEq, Eq, Error)]
pub enum AddFault {
    /// An allocation failed.
    #[error("out of memory")]
    Memory,
    /// The capture would have 2^64 bytes or more.
    #[error("the capture has 2^64 bytes or more")]
    Long,
}

impl From<AllocError> for AddFault {
    ghost use Rattle.std.specs.Prelude.{◌≡◌};
    ghost use Rattle.dfr_pcap.specs.declared.pieces.AddFault.TheVariants.{Memory};

    ghost from_gives = { λ _ e. e ≡ Memory };

    fn from(_error: AllocError) -> AddFault {
        AddFault::Memory
    }
}

/// What came of a capture and was not passed yet.
#[derive(Drop)]
pub struct Pieces<A: Allocator = Global> {
    alloc: A,
    /// The head of the capture, once it was passed.
    capture: Option<Capture>,
    /// How many bytes of the capture were passed.
    passed: u64,
    bytes: Vec<u8, A>,
    /// How many of these bytes were passed.
    at: usize,
}

impl<A: Allocator> Model for Pieces<A> {
    ghost use Rattle.std.specs.Prelude.{drop, length, ◌≤◌, ◌<◌, ◌+◌, ◌-◌, ◌^◌};
    ghost use Rattle.dfr_pcap.specs.Pieces.{PiecesParts};

    ghost Value = { PiecesParts };

    ghost view = { λ p. record { capture = p.capture; passed = p.passed; bytes = drop p.at p.bytes.items } };

    ghost invariant = { λ p. (p.at ≤ length p.bytes.items) × (p.passed + (length p.bytes.items - p.at) < 2 ^ 64) };
}

/// Whether so many bytes that were passed, are left, and come are 2^64 or more.
fn is_long(passed: u64, left: usize, more: usize) -> bool
    ensures { result ≡ nat_le (2 ^ 64) (passed + left + more) }
{
    u128::from(passed) + left as u128 + more as u128 > u128::from(u64::MAX)
}

/// What is left, and a piece after it.
pub(crate) fn joined<A: Allocator + Copy>(
    alloc: A,
    left: &[u8],
    piece: &[u8],
) -> Result<Vec<u8, A>, AllocError>
    ensures { IfOk result (λ v. v.items ≡ spec.joined left.now piece.now) }
{
    let mut bytes = Vec::from_slice(alloc, left)?;
    bytes.extend_from_slice(piece)?;
    Ok(bytes)
}

/// The head at the front of these bytes, if it came and is one.
#[tactic(auto, using(crate::proofs::Heads::head_long))]
fn head_of(bytes: &[u8]) -> Option<Capture>
    ensures value { result ≡ spec.head_of bytes.now }
    ensures long { IfSome result (λ _. 24 ≤ length bytes.now) }
{
    match read_head(bytes) {
        Ok(capture) => Some(capture),
        Err(_) => None,
    }
}

/// The next packet, after the head.
#[tactic(auto, using(crate::proofs::Heads::packet_fault_inside))]
fn packet_in(capture: Capture, bytes: &[u8]) -> Result<Packet, Fault>
    ensures value { result ≡ spec.packet_in capture bytes.now }
    ensures inside { IfOk result (λ p. (1 ≤ p.content.from) × (p.content.from ≤ p.content.to) × (p.content.to ≤ length bytes.now)) }
    ensures fault { IfErr result (λ f. f.at ≤ length bytes.now) }
{
    read_packet(capture, bytes, 0, bytes.len())
}

/// What is wrong with the head, if it came and is none.
#[tactic(auto, using(crate::proofs::Heads::head_fault_inside))]
fn head_in(bytes: &[u8]) -> Result<Capture, Fault>
    ensures value { result ≡ spec.head_in bytes.now }
    ensures fault { IfErr result (λ f. f.at ≤ length bytes.now) }
{
    read_head(bytes)
}

/// The step at a fault after so many bytes.
fn fault_step(passed: u64, fault: Fault) -> Step
    requires { passed + fault.at ≤ 2 ^ 64 - 1 }
    ensures { result ≡ spec.fault_step passed fault }
{
    match fault.wrong {
        Wrong::CutShort => Step::Wait,
        wrong => Step::Fault(passed + fault.at as u64, wrong),
    }
}

/// The next step after so many bytes, where the head was passed.
fn packet_step(passed: u64, capture: Capture, bytes: &[u8]) -> Step
    requires { passed + length bytes.now ≤ 2 ^ 64 - 1 }
    ensures value { result ≡ spec.packet_step passed capture bytes.now }
    ensures inside { spec.IsInside result (length bytes.now) }
{
    match packet_in(capture, bytes) {
        Ok(packet) => Step::Packet(packet),
        Err(fault) => fault_step(passed, fault),
    }
}

/// The next step after so many bytes, where the head was not passed.
fn head_step(passed: u64, bytes: &[u8]) -> Step
    requires { passed + length bytes.now ≤ 2 ^ 64 - 1 }
    ensures value { result ≡ spec.head_step passed bytes.now }
    ensures inside { spec.IsInside result (length bytes.now) }
{
    match head_in(bytes) {
        Ok(_) => Step::Wait,
        Err(fault) => fault_step(passed, fault),
    }
}

/// The next step after so many bytes.
fn step_of(passed: u64, capture: Option<Capture>, bytes: &[u8]) -> Step
    requires { passed + length bytes.now ≤ 2 ^ 64 - 1 }
    ensures value { result ≡ spec.step_in passed capture bytes.now }
    ensures inside { spec.IsInside result (length bytes.now) }
{
    match capture {
        None => head_step(passed, bytes),
        Some(capture) => packet_step(passed, capture, bytes),
    }
}

/// The nanosecond since 1970 at which a packet came.
pub fn nanosecond_of(packet: &Packet) -> Option<u64>
    ensures { result ≡ spec.nanosecond packet.now }
{
    let seconds = u64::from(packet.seconds) * 1_000_000_000;
    seconds.checked_add(packet.nanoseconds)
}

impl<A: Allocator + Copy> Pieces<A> {
    ghost use Rattle.std.specs.Prelude.{◌≡◌, ◌≤◌, [], length, None};
    ghost use Rattle.dfr_pcap.specs.Pieces as spec;

    /// Before the first piece.
    pub fn new(alloc: A) -> Pieces<A>
        ensures { result ≡ record { capture = None; passed = 0; bytes = [] } }
    {
        Pieces {
            alloc,
            capture: None,
            passed: 0,
            bytes: Vec::new(alloc),
            at: 0,
        }
    }

    /// What came and was not passed.
    pub fn left(&self) -> &[u8]
        ensures { result.now ≡ self.now.bytes }
    {
        &self.bytes[self.at..]
    }

    /// Puts a piece after what came. After an error nothing has changed.
    pub fn add(&mut self, piece: &[u8]) -> Result<(), AddFault>
        ensures { spec.Adds self.old piece.now result self.new }
    {
        let left = &self.bytes[self.at..];
        if is_long(self.passed, left.len(), piece.len()) {
            return Err(AddFault::Long);
        }
        let bytes = joined(self.alloc, left, piece)?;
        self.bytes = bytes;
        self.at = 0;
        Ok(())
    }

    /// Passes the head of the capture, once it came.
    pub fn begin(&mut self)
        ensures { self.new ≡ spec.begun self.old }
    {
        if self.capture.is_some() {
            return;
        }
        if let Some(capture) = head_of(&self.bytes[self.at..]) {
            self.capture = Some(capture);
            self.passed += 24;
            self.at += 24;
        }
    }

    /// What comes next, once the head was passed.
    pub fn step(&self) -> Step
        ensures value { result ≡ spec.step self.now }
        ensures inside { spec.IsInside result (length self.now.bytes) }
    {
        step_of(self.passed, self.capture, &self.bytes[self.at..])
    }

    /// Passes so many bytes.
    pub fn pass(&mut self, count: usize)
        requires { count ≤ length self.old.bytes }
        ensures { self.new ≡ spec.passed count self.old }
    {
        self.at += count;
        self.passed += count as u64;
    }
}
