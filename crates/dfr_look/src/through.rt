//! All packets of a capture.

ghost use Rattle.std.specs.Prelude.{◌≡◌, ◌≤◌, length, Ok, Err, IfOk, IfErr};
ghost use Rattle.dfr_bus.specs.Captures.{head_at};
ghost use Rattle.dfr_look.specs.Throughs as spec;

use crate::counter::up;
use crate::look::Look;
use dfr_bus::{Capture, Fault, Packet, read_head, read_packet};
use std::alloc::{AllocError, Allocator, Global};

/// What a capture has.
#[derive(Drop)]
pub struct Looked<A: Allocator = Global> {
    /// Of the file.
    pub capture: Capture,
    /// What its frames come to.
    pub look: Look<A>,
    /// When the first and the last frame came, in nanoseconds since 1970.
    pub times: Option<(u64, u64)>,
    /// Where reading ended.
    pub end: usize,
    /// Why it ended there, if not because the bytes end.
    pub fault: Option<Fault>,
}

/// When a packet came, in nanoseconds since 1970.
fn time_of(packet: &Packet) -> u64
    ensures { result ≡ spec.time_of packet.now }
{
    up(
        u64::from(packet.seconds) * 1_000_000_000,
        packet.nanoseconds,
    )
}

/// The first and the last time, with one more.
fn with_time(times: Option<(u64, u64)>, time: u64) -> Option<(u64, u64)>
    ensures { result ≡ spec.with_time time times }
{
    match times {
        None => Some((time, time)),
        Some((first, _)) => Some((first, time)),
    }
}

/// What the packets of a capture come to, up to the first fault.
fn look_from<A: Allocator + Copy>(
    alloc: A,
    capture: Capture,
    bytes: &[u8],
) -> Result<Looked<A>, AllocError>
    requires { 24 ≤ length bytes.now }
    ensures capture { IfOk result (λ l. l.capture ≡ capture) }
    ensures seen { IfOk result (λ l. spec.IsSoFar capture bytes.now l.end l.look l.times) }
    ensures end { IfOk result (λ l. spec.EndsAt capture bytes.now l.end l.fault) }
{
    let mut look = Look::new(alloc);
    let mut times = None;
    let mut at = 24;
    while at < bytes.len() {
        let packet = match read_packet(capture, bytes, at, bytes.len()) {
            Ok(packet) => packet,
            Err(fault) => {
                return Ok(Looked {
                    capture,
                    look,
                    times,
                    end: at,
                    fault: Some(fault),
                });
            }
        };
        let time = time_of(&packet);
        let content = packet.content;
        look = look.take_in(alloc, &bytes[content.from..content.to], time)?;
        times = with_time(times, time);
        at = content.to;
    }
    Ok(Looked {
        capture,
        look,
        times,
        end: at,
        fault: None,
    })
}

/// What the capture in these bytes has: its packets one after the other, up to the end or to the
/// first fault. The outer error is that memory ran out; the inner one is the fault of its head.
#[tactic(auto, using(crate::proofs::Throughs::head_long))]
pub fn look_through<A: Allocator + Copy>(
    alloc: A,
    bytes: &[u8],
) -> Result<Result<Looked<A>, Fault>, AllocError>
    ensures head { IfOk result (λ r. IfOk r (λ l. head_at bytes.now (length bytes.now) ≡ Ok l.capture)) }
    ensures seen { IfOk result (λ r. IfOk r (λ l. spec.IsSoFar l.capture bytes.now l.end l.look l.times)) }
    ensures end { IfOk result (λ r. IfOk r (λ l. spec.EndsAt l.capture bytes.now l.end l.fault)) }
    ensures refused { IfOk result (λ r. IfErr r (λ f. head_at bytes.now (length bytes.now) ≡ Err f)) }
{
    match read_head(bytes) {
        Ok(capture) => Ok(Ok(look_from(alloc, capture, bytes)?)),
        Err(fault) => Ok(Err(fault)),
    }
}
