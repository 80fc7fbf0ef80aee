//! Which stream a unit of sampled values is of.

ghost use Rattle.std.specs.Prelude.{◌≡◌, ◌<◌, length, IfSome};
ghost use Rattle.dfr_capture.specs.Streams as spec;

use crate::plan::{Key, Plan, part};
use dfr_bay::{has_source, has_sv_id};
use dfr_bus::{Asdu, Ethernet};
use std::alloc::Allocator;

/// Whether a unit of a frame that comes from this application has the key.
fn is_key(text: &[u8], bytes: &[u8], frame: &Ethernet, app_id: u16, unit: &Asdu, key: &Key) -> bool
    ensures { result ≡ spec.is_key text.now bytes.now frame.now app_id unit.now key.now }
{
    match *key {
        Key::SvId(name) => has_sv_id(bytes, unit, part(text, name)),
        Key::Source(wanted, mac) => has_source(bytes, frame, app_id, wanted, part(text, mac)),
    }
}

/// The first stream with a key that the unit has.
pub(crate) fn stream_of<A: Allocator>(
    plan: &Plan<A>,
    bytes: &[u8],
    frame: &Ethernet,
    app_id: u16,
    unit: &Asdu,
) -> Option<usize>
    ensures value { result ≡ spec.stream_of plan.now bytes.now frame.now app_id unit.now }
    ensures inside { IfSome result (λ n. n < length plan.now.streams) }
{
    plan.streams
        .iter()
        .position(|key| is_key(&plan.text, bytes, frame, app_id, unit, key))
}
