//! Finds the first text that a configuration file can't hold.

ghost use Rattle.std.specs.Prelude.{◌≡◌, ◌<◌, ◌+◌, true, length};
ghost use Rattle.comtrade_values.specs.Texts.{is_plain};
ghost use Rattle.comtrade_format.specs.Numbered.{first_from};
ghost use Rattle.comtrade_format.specs.Refusals as spec;

use crate::fault::WriteFault;
use crate::file::Head;
use crate::parts::{analog_of, status_of};
use comtrade_values::is_plain;
use dfr_channels::{AnalogChannel, StatusChannel};
use std::alloc::Allocator;

fn text_fault(low: usize, high: usize, text: &[u8], line: u64, field: u32) -> Option<WriteFault>
    ensures { result ≡ spec.text_fault (is_plain low high text.now) line field }
{
    if is_plain(low, high, text) {
        None
    } else {
        Some(WriteFault::Text(line, field))
    }
}

#[tactic(auto, unfolding(crate::specs::Refusals::analog_refusal))]
fn analog_fault<A: Allocator>(line: u64, a: &AnalogChannel<A>) -> Option<WriteFault>
    ensures { result ≡ spec.analog_refusal line a.now }
{
    let id = text_fault(0, 64, a.id.items(), line, 2);
    let phase = text_fault(0, 2, a.phase.items(), line, 3);
    let component = text_fault(0, 64, a.component.items(), line, 4);
    let unit = text_fault(1, 32, a.unit.items(), line, 5);
    id.or(phase.or(component.or(unit)))
}

#[tactic(auto, unfolding(crate::specs::Refusals::status_refusal))]
fn status_fault<A: Allocator>(line: u64, s: &StatusChannel<A>) -> Option<WriteFault>
    ensures { result ≡ spec.status_refusal line s.now }
{
    let id = text_fault(0, 64, s.id.items(), line, 2);
    let phase = text_fault(0, 2, s.phase.items(), line, 3);
    let component = text_fault(0, 64, s.component.items(), line, 4);
    id.or(phase.or(component))
}

fn analogs_fault<A: Allocator>(channels: &[AnalogChannel<A>]) -> Option<WriteFault>
    requires { length channels.now < 1000000 }
    ensures { result ≡ first_from spec.analog_refusal 3 channels.now }
{
    for (i, channel) in channels.iter().enumerate() {
        if let Some(fault) = analog_fault(3 + i as u64, channel) {
            return Some(fault);
        }
    }
    None
}

fn statuses_fault<A: Allocator>(from: u64, channels: &[StatusChannel<A>]) -> Option<WriteFault>
    requires { from + length channels.now < 2000000 }
    ensures { result ≡ first_from spec.status_refusal from channels.now }
{
    for (i, channel) in channels.iter().enumerate() {
        if let Some(fault) = status_fault(from + i as u64, channel) {
            return Some(fault);
        }
    }
    None
}

fn names_fault<A: Allocator>(h: &Head<A>) -> Option<WriteFault>
    ensures { result ≡ spec.names_refusal h.now }
{
    let station = text_fault(0, 64, h.station.items(), 1, 1);
    let device = text_fault(0, 64, h.device.items(), 1, 2);
    station.or(device)
}

/// The first text that the configuration file can't hold.
pub(crate) fn first_text<A: Allocator>(h: &Head<A>) -> Option<WriteFault>
    requires { length h.now.analog + length h.now.status < 1000000 }
    ensures { result ≡ spec.text_refusal h.now }
{
    let analog = analog_of(h);
    let analogs = analogs_fault(analog);
    let statuses = statuses_fault(3 + analog.len() as u64, status_of(h));
    names_fault(h).or(analogs.or(statuses))
}
