//! Which stream a unit is of.

ghost use Rattle.std.specs.Prelude.{◌≡◌};
ghost use Rattle.dfr_bay.specs.Names as spec;

use dfr_bus::{Asdu, Ethernet, Span};

/// Whether a part of the bytes is this.
fn part_is(bytes: &[u8], span: Span, wanted: &[u8]) -> bool
    ensures { result ≡ spec.part_is bytes.now span wanted.now }
{
    if span.from > span.to || span.to > bytes.len() {
        return false;
    }
    &bytes[span.from..span.to] == wanted
}

/// Whether a unit has this svID. The bytes are those that the unit was read from.
pub fn has_sv_id(bytes: &[u8], unit: &Asdu, sv_id: &[u8]) -> bool
    ensures { result ≡ spec.part_is bytes.now unit.now.sv_id sv_id.now }
{
    part_is(bytes, unit.sv_id, sv_id)
}

/// Whether a frame of this application comes from this address. The bytes are those that the frame
/// was read from.
pub fn has_source(bytes: &[u8], frame: &Ethernet, app_id: u16, wanted: u16, mac: &[u8]) -> bool
    ensures { result ≡ spec.has_source bytes.now frame.now app_id wanted mac.now }
{
    app_id == wanted && part_is(bytes, frame.source, mac)
}
