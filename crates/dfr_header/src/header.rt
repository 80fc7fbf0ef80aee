//! The header of a record.

ghost use Rattle.std.specs.Prelude.{◌≡◌, ◌++◌, OnOk, length};
ghost use Rattle.comtrade_format.specs.Cfg.{kind_text};
ghost use Rattle.comtrade_values.specs.Written.{decimal_text};
ghost use Rattle.dfr_header.specs.Headers as spec;

use crate::clock::{Clock, Dates, put_time};
use crate::lines::{end_line, put_number_line, put_text_line};
use crate::record::{put_losses, put_reason, put_scans};
use crate::rules::put_rules;
use comtrade_format::Kind;
use comtrade_values::{put, put_decimal};
use dfr_channels::{Layout, Rule};
use dfr_recorder::Extent;
use std::alloc::{AllocError, Allocator, Global};
use std::marker::Model;

/// What the header of a record tells. The program and its version are printable ASCII, so that all of
/// the header is: the standard wants no other characters.
#[derive(Drop)]
pub struct Header<'a, A: Allocator = Global> {
    /// The program that writes it.
    pub program: &'a str,
    pub version: &'a str,
    /// The set-up.
    pub layout: &'a Layout<A>,
    /// The rules in force at the trigger, if they are known.
    pub rules: Option<&'a [Rule]>,
    pub extent: Extent,
    /// The instant of the first scan as the configuration file shows it, in microseconds since
    /// 1970-01-01 00:00:00 UTC.
    pub first: Option<i64>,
    /// That of the trigger.
    pub trigger: Option<i64>,
    /// The form of the data file.
    pub kind: Kind,
    /// How many scans have no sample, if that is known.
    pub empty: Option<u64>,
    /// Whether the input ended before the record did.
    pub is_cut: bool,
    /// What gave the record its instants.
    pub dates: Dates,
    /// How the clock and the scans stand to each other, if that is known.
    pub clock: Option<Clock>,
}

impl<'a, A: Allocator> Model for Header<'a, A> {
    ghost use Rattle.std.specs.Prelude.{option_copied};
    ghost use Rattle.dfr_header.specs.Headers.{HeaderParts};

    ghost Value = { HeaderParts };

    ghost view = { λ h. record {
      program = h.program.now;
      version = h.version.now;
      layout = h.layout.now;
      rules = option_copied h.rules;
      extent = h.extent;
      first = h.first;
      trigger = h.trigger;
      kind = h.kind;
      empty = h.empty;
      is_cut = h.is_cut;
      dates = h.dates;
      clock = h.clock;
    } };
}

/// Appends the program and its version.
fn put_program<A: Allocator>(
    out: &mut Vec<u8, A>,
    program: &str,
    version: &str,
) -> Result<(), AllocError>
    ensures { OnOk result (out.new.items ≡ out.old.items ++ spec.program_text program.now version.now) }
{
    put(out, "Written by: ")?;
    put(out, program)?;
    put(out, " ")?;
    put(out, version)?;
    end_line(out)?;
    Ok(())
}

/// Appends the station and the device.
#[tactic(auto, unfolding(crate::specs::Headers::names_text))]
fn put_names<A: Allocator>(out: &mut Vec<u8, A>, layout: &Layout<A>) -> Result<(), AllocError>
    ensures { OnOk result (out.new.items ≡ out.old.items ++ spec.names_text layout.now) }
{
    put_text_line(out, "Station: ", layout.station())?;
    put_text_line(out, "Recording device: ", layout.device())
}

/// Appends who recorded, and with which program.
#[tactic(auto, unfolding(crate::specs::Headers::station_text))]
fn put_station<A: Allocator>(out: &mut Vec<u8, A>, header: &Header<'_, A>) -> Result<(), AllocError>
    ensures { OnOk result (out.new.items ≡ out.old.items ++ spec.station_text header.now) }
{
    put_names(out, header.layout)?;
    put_program(out, header.program, header.version)
}

/// Appends the rate.
#[tactic(auto, unfolding(crate::specs::Headers::rate_text))]
fn put_rate<A: Allocator>(out: &mut Vec<u8, A>, layout: &Layout<A>) -> Result<(), AllocError>
    ensures { OnOk result (out.new.items ≡ out.old.items ++ spec.rate_text layout.now) }
{
    put_number_line(
        out,
        "Sampling rate: ",
        layout.rate() as u64,
        " scans a second",
    )
}

#[tactic(auto, unfolding(crate::specs::Headers::frequency_text))]
fn put_frequency<A: Allocator>(out: &mut Vec<u8, A>, layout: &Layout<A>) -> Result<(), AllocError>
    ensures { OnOk result (out.new.items ≡ out.old.items ++ spec.frequency_text layout.now) }
{
    put(out, "Line frequency: ")?;
    put_decimal(out, layout.line_freq())?;
    put(out, " Hz\r\n")
}

fn put_kind<A: Allocator>(out: &mut Vec<u8, A>, kind: Kind) -> Result<(), AllocError>
    ensures { OnOk result (out.new.items ≡ out.old.items ++ spec.data_text kind) }
{
    match kind {
        Kind::Ascii => put(out, "Data: ASCII\r\n"),
        Kind::Binary => put(out, "Data: BINARY\r\n"),
    }
}

/// Appends the number of analogue channels.
fn put_analogs<A: Allocator>(out: &mut Vec<u8, A>, layout: &Layout<A>) -> Result<(), AllocError>
    ensures { OnOk result (out.new.items ≡ out.old.items ++ spec.analogs_text layout.now) }
{
    put_number_line(out, "Analogue channels: ", layout.analog().len() as u64, "")?;
    Ok(())
}

/// Appends the number of status channels.
fn put_statuses<A: Allocator>(out: &mut Vec<u8, A>, layout: &Layout<A>) -> Result<(), AllocError>
    ensures { OnOk result (out.new.items ≡ out.old.items ++ spec.statuses_text layout.now) }
{
    put_number_line(out, "Status channels: ", layout.status().len() as u64, "")?;
    Ok(())
}

/// Appends the set-up.
fn put_setup<A: Allocator>(out: &mut Vec<u8, A>, header: &Header<'_, A>) -> Result<(), AllocError>
    ensures { OnOk result (out.new.items ≡ out.old.items ++ spec.setup_text header.now) }
{
    put_rate(out, header.layout)?;
    put_frequency(out, header.layout)?;
    put_analogs(out, header.layout)?;
    put_statuses(out, header.layout)?;
    put_kind(out, header.kind)?;
    Ok(())
}

/// Appends what is told of the record itself.
#[tactic(auto, unfolding(crate::specs::Headers::record_text))]
fn put_record<A: Allocator>(out: &mut Vec<u8, A>, header: &Header<'_, A>) -> Result<(), AllocError>
    ensures { OnOk result (out.new.items ≡ out.old.items ++ spec.record_text header.now) }
{
    put_reason(out, header.layout, header.rules, header.extent)?;
    put_scans(out, header.extent, header.first, header.trigger)?;
    put_losses(out, header.empty, header.is_cut)
}

/// Appends how the record was made: the set-up, the clock and the rules.
fn put_making<A: Allocator>(out: &mut Vec<u8, A>, header: &Header<'_, A>) -> Result<(), AllocError>
    ensures { OnOk result (out.new.items ≡ out.old.items ++ spec.making_text header.now) }
{
    put_setup(out, header)?;
    end_line(out)?;
    put_time(out, header.dates, header.clock)?;
    end_line(out)?;
    put_rules(out, header.layout, header.rules)?;
    Ok(())
}

/// Appends the header file of a record (C37.111-1999, clause 4): lines of text, each of which ends in
/// CR LF. `AllocError`: an allocation failed; part of the text may then have been appended.
#[tactic(auto, unfolding(crate::specs::Headers::header_text))]
pub fn put_header<A: Allocator>(
    out: &mut Vec<u8, A>,
    header: &Header<'_, A>,
) -> Result<(), AllocError>
    ensures { OnOk result (out.new.items ≡ out.old.items ++ spec.header_text header.now) }
{
    put_station(out, header)?;
    end_line(out)?;
    put_record(out, header)?;
    end_line(out)?;
    put_making(out, header)
}
