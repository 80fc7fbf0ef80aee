//! Writes the lines of the configuration file (C37.111-1999, clause 5).

ghost use Rattle.std.specs.Prelude.{◌≡◌, ◌++◌, ◌∷◌, ◌<◌, ◌+◌, [], OnOk, length, map, decimal, true};
ghost use Rattle.std.specs.List.{flat_map};
ghost use Rattle.std.specs.Fmt.{signed_decimal};
ghost use Rattle.comtrade_values.specs.Written.{decimal_text};
ghost use Rattle.comtrade_format.specs.Lines.{line, field};
ghost use Rattle.comtrade_values.specs.Dates.{instant_fields};
ghost use Rattle.comtrade_format.specs.Numbered.{numbered};
ghost use Rattle.comtrade_format.specs.Shape.{is_writable};
ghost use Rattle.comtrade_format.specs.Cfg as spec;

use crate::fields::{
    decimal_field, decimal_line, end_line, number_field, number_line, signed_field, text_field,
};
use crate::file::{Head, Kind, Rate};
use crate::parts::{analog_of, device_of, station_of, status_of};
use comtrade_values::{Decimal, put_instant, put_number};
use dfr_channels::{AnalogChannel, Side, StatusChannel};
use std::alloc::{AllocError, Allocator};

fn put_station<A: Allocator>(
    out: &mut Vec<u8, A>,
    station: &[u8],
    device: &[u8],
) -> Result<(), AllocError>
    ensures { OnOk result (out.new.items ≡ out.old.items ++ line (spec.names_fields station.now device.now)) }
{
    text_field(out, station)?;
    text_field(out, device)?;
    out.extend_from_slice(b"1999")?;
    end_line(out)
}

fn put_counts<A: Allocator>(out: &mut Vec<u8, A>, k: usize, m: usize) -> Result<(), AllocError>
    requires { k + m < 1000000 }
    ensures { OnOk result (out.new.items ≡ out.old.items ++ line (spec.counts_fields k m)) }
{
    number_field(out, (k + m) as u64)?;
    put_number(out, k as u64)?;
    out.extend_from_slice(b"A,")?;
    put_number(out, m as u64)?;
    out.extend_from_slice(b"D\r\n")
}

fn put_top<A: Allocator>(
    out: &mut Vec<u8, A>,
    station: &[u8],
    device: &[u8],
    k: usize,
    m: usize,
) -> Result<(), AllocError>
    requires { k + m < 1000000 }
    ensures { OnOk result (out.new.items ≡ out.old.items ++ (line (spec.names_fields station.now device.now) ++ line (spec.counts_fields k m))) }
{
    put_station(out, station, device)?;
    put_counts(out, k, m)
}

/// Writes the first five fields of an analogue line: number, id, phase, component and unit.
fn analog_names<A: Allocator>(
    out: &mut Vec<u8, A>,
    n: u64,
    channel: &AnalogChannel<A>,
) -> Result<(), AllocError>
    ensures { OnOk result (out.new.items ≡ out.old.items ++ (field (decimal n) ++ (field channel.now.id
        ++ (field channel.now.phase ++ (field channel.now.component ++ field channel.now.unit))))) }
{
    number_field(out, n)?;
    text_field(out, channel.id.items())?;
    text_field(out, channel.phase.items())?;
    text_field(out, channel.component.items())?;
    text_field(out, channel.unit.items())
}

/// Writes the fields a, b, skew, min and max.
fn analog_scale<A: Allocator>(
    out: &mut Vec<u8, A>,
    channel: &AnalogChannel<A>,
) -> Result<(), AllocError>
    ensures { OnOk result (out.new.items ≡ out.old.items ++ (field (decimal_text channel.now.a) ++ (field (decimal_text channel.now.b)
        ++ (field (decimal_text channel.now.skew) ++ (field (signed_decimal channel.now.min) ++ field (signed_decimal channel.now.max)))))) }
{
    decimal_field(out, channel.a)?;
    decimal_field(out, channel.b)?;
    decimal_field(out, channel.skew)?;
    signed_field(out, channel.min)?;
    signed_field(out, channel.max)
}

fn put_side<A: Allocator>(out: &mut Vec<u8, A>, side: Side) -> Result<(), AllocError>
    ensures { OnOk result (out.new.items ≡ out.old.items ++ spec.side_text side) }
{
    match side {
        Side::Primary => out.extend_from_slice(b"P"),
        Side::Secondary => out.extend_from_slice(b"S"),
    }
}

fn put_analog<A: Allocator>(
    out: &mut Vec<u8, A>,
    n: u64,
    channel: &AnalogChannel<A>,
) -> Result<(), AllocError>
    ensures { OnOk result (out.new.items ≡ out.old.items ++ line (spec.analog_fields n channel.now)) }
{
    analog_names(out, n, channel)?;
    analog_scale(out, channel)?;
    decimal_field(out, channel.primary)?;
    decimal_field(out, channel.secondary)?;
    put_side(out, channel.side)?;
    end_line(out)
}

fn put_analogs<A: Allocator>(
    out: &mut Vec<u8, A>,
    channels: &[AnalogChannel<A>],
) -> Result<(), AllocError>
    requires { length channels.now < 1000000 }
    ensures { OnOk result (out.new.items ≡ out.old.items ++ flat_map line (numbered spec.analog_fields 1 channels.now)) }
{
    for (i, channel) in channels.iter().enumerate() {
        put_analog(out, i as u64 + 1, channel)?;
    }
    Ok(())
}

fn put_status<A: Allocator>(
    out: &mut Vec<u8, A>,
    n: u64,
    channel: &StatusChannel<A>,
) -> Result<(), AllocError>
    ensures { OnOk result (out.new.items ≡ out.old.items ++ line (spec.status_fields n channel.now)) }
{
    number_field(out, n)?;
    text_field(out, channel.id.items())?;
    text_field(out, channel.phase.items())?;
    text_field(out, channel.component.items())?;
    out.push(if channel.normal { b'1' } else { b'0' })?;
    end_line(out)
}

fn put_statuses<A: Allocator>(
    out: &mut Vec<u8, A>,
    channels: &[StatusChannel<A>],
) -> Result<(), AllocError>
    requires { length channels.now < 1000000 }
    ensures { OnOk result (out.new.items ≡ out.old.items ++ flat_map line (numbered spec.status_fields 1 channels.now)) }
{
    for (i, channel) in channels.iter().enumerate() {
        put_status(out, i as u64 + 1, channel)?;
    }
    Ok(())
}

fn put_channels<A: Allocator>(
    out: &mut Vec<u8, A>,
    station: &[u8],
    device: &[u8],
    analog: &[AnalogChannel<A>],
    status: &[StatusChannel<A>],
) -> Result<(), AllocError>
    requires { length analog.now + length status.now < 1000000 }
    ensures { OnOk result (out.new.items ≡ out.old.items ++ flat_map line (spec.channel_lines station.now device.now analog.now status.now)) }
{
    put_top(out, station, device, analog.len(), status.len())?;
    put_analogs(out, analog)?;
    put_statuses(out, status)?;
    Ok(())
}

/// Writes the lines up to the last channel's.
fn put_front<A: Allocator>(out: &mut Vec<u8, A>, head: &Head<A>) -> Result<(), AllocError>
    requires { length head.now.analog + length head.now.status < 1000000 }
    ensures { OnOk result (out.new.items ≡ out.old.items ++ flat_map line (spec.channel_lines head.now.station head.now.device head.now.analog head.now.status)) }
{
    put_channels(
        out,
        station_of(head),
        device_of(head),
        analog_of(head),
        status_of(head),
    )
}

fn put_rate<A: Allocator>(out: &mut Vec<u8, A>, rate: &Rate) -> Result<(), AllocError>
    ensures { OnOk result (out.new.items ≡ out.old.items ++ line (spec.rate_fields rate.now)) }
{
    decimal_field(out, rate.samp)?;
    put_number(out, rate.endsamp)?;
    end_line(out)
}

fn put_rates<A: Allocator>(out: &mut Vec<u8, A>, rates: &[Rate]) -> Result<(), AllocError>
    ensures { OnOk result (out.new.items ≡ out.old.items ++ flat_map line (map spec.rate_fields rates.now)) }
{
    for rate in rates {
        put_rate(out, rate)?;
    }
    Ok(())
}

fn put_rate_lines<A: Allocator>(
    out: &mut Vec<u8, A>,
    line_freq: Decimal,
    nrates: u32,
    rates: &[Rate],
) -> Result<(), AllocError>
    ensures { OnOk result (out.new.items ≡ out.old.items ++ flat_map line (spec.rate_lines line_freq nrates rates.now)) }
{
    decimal_line(out, line_freq)?;
    number_line(out, nrates as u64)?;
    put_rates(out, rates)
}

#[tactic(auto, unfolding(crate::specs::Lines::line, comtrade_values::specs::Dates::instant_text, comtrade_values::specs::Dates::instant_fields))]
fn instant_line<A: Allocator>(out: &mut Vec<u8, A>, instant: i64) -> Result<(), AllocError>
    requires { is_writable instant ≡ true }
    ensures { OnOk result (out.new.items ≡ out.old.items ++ line (instant_fields instant)) }
{
    put_instant(out, instant)?;
    end_line(out)
}

fn kind_line<A: Allocator>(out: &mut Vec<u8, A>, kind: Kind) -> Result<(), AllocError>
    ensures { OnOk result (out.new.items ≡ out.old.items ++ line (spec.kind_text kind ∷ [])) }
{
    match kind {
        Kind::Ascii => out.extend_from_slice(b"ASCII")?,
        Kind::Binary => out.extend_from_slice(b"BINARY")?,
    }
    end_line(out)
}

fn put_last_lines<A: Allocator>(
    out: &mut Vec<u8, A>,
    first: i64,
    trigger: i64,
    kind: Kind,
    timemult: Decimal,
) -> Result<(), AllocError>
    requires first { is_writable first ≡ true }
    requires trigger { is_writable trigger ≡ true }
    ensures { OnOk result (out.new.items ≡ out.old.items ++ flat_map line (spec.last_lines first trigger kind timemult)) }
{
    instant_line(out, first)?;
    instant_line(out, trigger)?;
    kind_line(out, kind)?;
    decimal_line(out, timemult)
}

/// Writes all lines.
pub(crate) fn put_head<A: Allocator>(out: &mut Vec<u8, A>, head: &Head<A>) -> Result<(), AllocError>
    requires few { length head.now.analog + length head.now.status < 1000000 }
    requires first { is_writable head.now.first ≡ true }
    requires trigger { is_writable head.now.trigger ≡ true }
    ensures { OnOk result (out.new.items ≡ out.old.items ++ spec.cfg head.now) }
{
    put_front(out, head)?;
    put_rate_lines(out, head.line_freq, head.nrates, head.rates.items())?;
    put_last_lines(out, head.first, head.trigger, head.kind, head.timemult)
}
