//! The header of a record: what it tells, and its text.

ghost use Rattle.std.specs.Prelude.{◌≡◌, IfOk, IfSome, option_copied, option_map, length};
ghost use Rattle.dfr_header.specs.Headers.{header_text};
ghost use Rattle.dfr_header.specs.Rows as rows;
ghost use Rattle.dfr_station.specs.Headed as spec;

use crate::event::ClockState;
use crate::headers::{Headers, Sources};
use crate::naming::trigger_shown;
use crate::shown::Redated;
use comtrade_values::Memory;
use comtrade_write::Kind;
use dfr_channels::{Layout, Rule, Rules};
use dfr_header::{Clock, Dates, Header, put_header, rows_without_samples};
use dfr_recorder::Extent;
use std::alloc::{AllocError, Allocator};
use std::sync::Wait;

/// What a header tells of its record, beside what its data file says.
#[derive(Clone, Copy)]
pub(crate) struct About {
    pub(crate) extent: Extent,
    /// How it is shown. None: as by the set-up.
    pub(crate) redated: Option<Redated>,
    pub(crate) kind: Kind,
    pub(crate) clock: Option<ClockState>,
    /// The converter told the time by which its trigger has a date.
    pub(crate) is_told: bool,
    /// It was closed with lost scans after the input ended.
    pub(crate) is_cut: bool,
}

/// The instant of a record's first scan as it is shown.
fn first_shown<A: Allocator>(
    layout: &Layout<A>,
    extent: Extent,
    redated: Option<Redated>,
) -> Option<i64>
    ensures { result ≡ spec.first_shown layout.now redated extent }
{
    match redated {
        Some(redated) => Some(redated.is.first),
        None => layout.instant(extent.first),
    }
}

/// What gave a record its instants.
fn dates_of(sources: Sources, redated: Option<Redated>, is_told: bool) -> Dates
    ensures { result ≡ spec.dates_of sources redated is_told }
{
    match redated {
        None => Dates::Rate,
        Some(_) if is_told => sources.told,
        Some(_) => sources.followed,
    }
}

fn clock_of(state: ClockState) -> Clock
    ensures { result ≡ spec.clock_of state }
{
    match state.followed {
        Some(followed) => Clock {
            ahead: state.ahead,
            offset: Some(followed.offset),
            drift: followed.drift,
        },
        None => Clock {
            ahead: state.ahead,
            offset: None,
            drift: None,
        },
    }
}

fn clock_in(state: Option<ClockState>) -> Option<Clock>
    ensures { result ≡ option_map spec.clock_of state }
{
    match state {
        Some(state) => Some(clock_of(state)),
        None => None,
    }
}

/// In how many rows of a data file each sample is missing.
fn empty_rows<A: Allocator + Copy>(
    alloc: A,
    layout: &Layout<A>,
    kind: Kind,
    dat: &[u8],
) -> Result<Option<u64>, AllocError>
    ensures { IfOk result (λ empty. empty ≡ rows.rows_without_samples kind
        (length layout.now.analog) (length layout.now.status) dat.now) }
{
    // a lawful layout has at most 256 channels of each kind
    let _rate = layout.rate();
    let samples = layout.analog().len();
    let bits = layout.status().len();
    rows_without_samples(alloc, kind, samples, bits, dat)
}

/// The rules as a list, if they are known.
fn list_of<A: Allocator>(rules: Option<&Rules<A>>) -> Option<&[Rule]>
    ensures { option_copied result ≡ option_copied rules.entry }
{
    match rules {
        Some(rules) => Some(rules.list()),
        None => None,
    }
}

/// The text of a record's header.
fn header_of<A: Allocator + Copy>(
    alloc: A,
    program: &str,
    version: &str,
    sources: Sources,
    layout: &Layout<A>,
    rules: Option<&Rules<A>>,
    about: About,
    dat: &[u8],
) -> Result<Vec<u8, A>, AllocError>
    ensures { IfOk result (λ text. text.items ≡ header_text
        (spec.header_of program.now version.now sources layout.now (option_copied rules.entry) about dat.now)) }
{
    let header = Header {
        program,
        version,
        layout,
        rules: list_of(rules),
        extent: about.extent,
        first: first_shown(layout, about.extent, about.redated),
        trigger: trigger_shown(layout, about.extent, about.redated),
        kind: about.kind,
        empty: empty_rows(alloc, layout, about.kind, dat)?,
        is_cut: about.is_cut,
        dates: dates_of(sources, about.redated, about.is_told),
        clock: clock_in(about.clock),
    };
    let mut text = Vec::new(alloc);
    put_header(&mut text, &header)?;
    Ok(text)
}

/// The header of a record whose data file is this one, if the recording has headers.
pub(crate) fn header_for<A: Allocator + Copy, R: Wait>(
    rt: &R,
    alloc: A,
    headers: Option<&Headers<A>>,
    layout: &Layout<A>,
    about: About,
    dat: &[u8],
) -> Result<Option<Vec<u8, A>>, Memory> {
    let Some(headers) = headers else {
        return Ok(None);
    };
    let rules = headers.rules_at(rt, about.extent.trigger)?;
    let text = header_of(
        alloc,
        headers.program,
        headers.version,
        headers.sources,
        layout,
        rules.as_ref(),
        about,
        dat,
    )?;
    Ok(Some(text))
}

/// The bytes of a header, if there is one.
pub(crate) fn bytes_of<A: Allocator>(header: &Option<Vec<u8, A>>) -> Option<&[u8]> {
    match header {
        Some(text) => Some(text),
        None => None,
    }
}
