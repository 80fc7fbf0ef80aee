//! A picture of two records, overlaid.

use crate::axis::{put_cycles, put_gap_names, put_times, put_times_name};
use crate::compare_head::{put_compare_head, put_singles, singles_in};
use crate::compare_panels::{pairs_end, put_pairs};
use crate::contacts::{bars_of, contacts_height, put_contacts};
use crate::differing::{Beside, Laid};
use crate::head::put_tag;
use crate::joint::{drawn_of, own_panels, panels_beside, shifted};
use crate::layers::Layer;
use crate::layout::panel_count;
use crate::plan::{Down, LEFT, course_of, partners_of, places_of};
use crate::plot::PlotOptions;
use crate::record::{DrawnPart, DrawnRecord, Timed, chart_of, part_in, record_of};
use crate::sheet::Sheet;
use comtrade_format::File;
use comtrade_io::ToolFault;
use std::alloc::Allocator;
use std::io::Write;

/// How two records are aligned: by the instants of their rows, by their triggers, or by their faults,
/// which fall together where the second trigger is so many nanoseconds after the first.
#[derive(Clone, Copy, Debug, PartialEq, Eq)]
pub enum By {
    Instant,
    Trigger,
    Fault(i64),
}

/// How two records are drawn. `is_chosen`: the first record's channels were chosen by the user, so
/// the other's are not listed.
#[derive(Clone, Copy, Debug)]
pub struct CompareOptions {
    pub by: By,
    /// How many nanoseconds the second record is moved then.
    pub moved: i64,
    pub picture: PlotOptions,
    pub is_chosen: bool,
}

/// Why two records cannot be compared.
#[derive(Clone, Copy, Debug, PartialEq, Eq)]
pub enum Refusal {
    UntriggeredOne,
    UntriggeredOther,
    TimelessOne,
    TimelessOther,
    Apart,
    NoEqual,
}

impl Refusal {
    pub fn text(self) -> &'static str {
        match self {
            Refusal::UntriggeredOne => "A has no trigger time",
            Refusal::UntriggeredOther => "B has no trigger time",
            Refusal::TimelessOne => "A does not say when its rows were taken",
            Refusal::TimelessOther => "B does not say when its rows were taken",
            Refusal::Apart => {
                "A and B have no time in common; use --by trigger to align them by their triggers"
            }
            Refusal::NoEqual => {
                "A and B have no matching channel: same name, unit and side, and same phase and component where both give them"
            }
        }
    }
}

/// The vertical positions of the names, the panels, both groups of status channels and the times
/// below.
#[derive(Clone, Copy)]
struct RecordPlaces {
    names: Down,
    panels: Down,
    contacts: Down,
    others: Down,
    times: Down,
}

fn places_in<A: Allocator>(
    beside: &Beside<'_, A>,
    bars: &[bool],
    other_bars: &[bool],
) -> RecordPlaces {
    let names = Down::at(1380);
    let panels = names.below(40);
    let contacts = pairs_end(beside, panels).below(120);
    let others = contacts.after(contacts_height(beside.one, bars));
    let end = others.after(contacts_height(beside.other, other_bars));
    RecordPlaces {
        names,
        panels,
        contacts,
        others,
        times: end.below(170),
    }
}

/// The times above and below, the cycles, and the lengths of gaps.
fn put_scales<A: Allocator>(sheet: &mut Sheet<A>, beside: &Beside<'_, A>, places: RecordPlaces) {
    let one = beside.one;
    put_gap_names(sheet, one, places.names.above(150));
    put_times(sheet, one, places.names);
    put_times_name(sheet, one, places.names);
    put_times(sheet, one, places.times);
    put_times_name(sheet, one, places.times);
    put_cycles(sheet, one, places.times.below(70));
    sheet.label(
        LEFT,
        places.times.below(420),
        " class=\"f\" font-size=\"10.5\" fill=\"#55595f\"",
        "peak, A \u{2212} B: of what is drawn; rms: of the cycle that ends one cycle before the fault inception (else the trigger) \u{2192} of the first whole cycle after it",
    );
}

/// The picture of two records. No status channel of the other is drawn where none of the first was
/// asked for.
fn put_picture<A: Allocator + Copy>(
    sheet: &mut Sheet<A>,
    beside: &Beside<'_, A>,
    options: CompareOptions,
) -> Result<(), ToolFault> {
    let mut other_bars = bars_of(beside.other, options.picture.shows_all)?;
    let file = beside.one.file;
    if options.is_chosen && file.head.status.items().is_empty() {
        other_bars.clear();
    }
    let bars = bars_of(beside.one, options.picture.shows_all)?;
    let places = places_in(beside, &bars, &other_bars);
    let has_one = singles_in(beside.one) != 0;
    let has_other = !options.is_chosen && singles_in(beside.other) != 0;
    let first = places.times.below(590);
    let second = if has_one { first.below(160) } else { first };
    let end = if has_other { second.below(160) } else { second };
    put_tag(sheet, options.picture, end);
    put_compare_head(sheet, beside, options.picture.is_for_print);
    put_pairs(sheet, beside, places.panels);
    put_contacts(sheet, beside.one, &bars, places.contacts);
    put_contacts(sheet, beside.other, &other_bars, places.others);
    put_scales(sheet, beside, places);
    if has_one {
        put_singles(sheet, beside.one, beside.other, first);
    }
    if has_other {
        put_singles(sheet, beside.other, beside.one, second);
    }
    Ok(())
}

/// Both records with their parts of one frame, overlaid.
fn put_over<'a, A: Allocator + Copy>(
    alloc: A,
    sheet: &mut Sheet<A>,
    files: (&'a File<A>, &'a File<A>),
    records: (&'a DrawnRecord<A>, &'a DrawnRecord<A>),
    parts: (&'a DrawnPart<A>, &'a DrawnPart<A>),
    is_part: bool,
    options: CompareOptions,
) -> Result<(), ToolFault> {
    let one = chart_of(alloc, files.0, records.0, parts.0);
    let other = chart_of(alloc, files.1, records.1, parts.1);
    // (includes lost rows, which have no readings)
    let moments = course_of(alloc, &records.1.times)?;
    let places = places_of(alloc, &moments, &records.0.kept)?;
    let beside = Beside {
        one: &one,
        other: &other,
        times: &records.0.kept,
        moments: &moments,
        places: &places,
        most: records.0.cycle_or_usual().nanos.unsigned_abs() / 8,
        laid: Laid {
            by: options.by,
            moved: options.moved,
            is_part,
            is_whole: options.picture.is_whole,
        },
    };
    put_picture(sheet, &beside, options)
}

/// How many nanoseconds the second trigger is drawn after the first, where their instants are these
/// microseconds; None where that is no number of 64 bits, more than 292 years.
fn shift_of(options: CompareOptions, from: i64, to: i64) -> Option<i64> {
    let shift = match options.by {
        By::Trigger => 0,
        By::Instant => to.checked_sub(from)?.checked_mul(1000)?,
        By::Fault(shift) => shift,
    };
    shift.checked_add(options.moved)
}

/// Prints a picture of two records; or returns why they cannot be compared, and prints nothing.
pub fn compare_over<A: Allocator + Copy, W: Write>(
    alloc: A,
    one: Timed<'_, A>,
    other: Timed<'_, A>,
    options: CompareOptions,
    w: &mut W,
) -> Result<Option<Refusal>, ToolFault> {
    let (file, beside) = (one.file, other.file);
    let (from, to) = (file.head.trigger, beside.head.trigger);
    // an unknown instant is the first of 1970
    match (from, to) {
        (0, _) => return Ok(Some(Refusal::UntriggeredOne)),
        (_, 0) => return Ok(Some(Refusal::UntriggeredOther)),
        _ => {}
    }
    let Some(shift) = shift_of(options, from, to) else {
        return Ok(Some(Refusal::Apart));
    };
    let mut first = record_of(alloc, one)?;
    first.layer = Layer::One;
    let times = &shifted(alloc, other.times, shift)?;
    let mut second = record_of(alloc, Timed { times, ..other })?;
    second.layer = Layer::Other;
    second.trigger = shift;
    match (first.is_timed, second.is_timed) {
        (false, _) => Ok(Some(Refusal::TimelessOne)),
        (true, false) => Ok(Some(Refusal::TimelessOther)),
        (true, true) => draw(alloc, (file, beside), (&first, &second), options, w),
    }
}

fn draw<A: Allocator + Copy, W: Write>(
    alloc: A,
    files: (&File<A>, &File<A>),
    records: (&DrawnRecord<A>, &DrawnRecord<A>),
    options: CompareOptions,
    w: &mut W,
) -> Result<Option<Refusal>, ToolFault> {
    let (one, other) = files;
    let others = other.head.analog.items();
    let partners = partners_of(alloc, one.head.analog.items(), others)?;
    let panels = own_panels(alloc, &partners)?;
    if panel_count(&panels) == 0 {
        return Ok(Some(Refusal::NoEqual));
    }
    let is_whole = options.picture.is_whole;
    let Some(drawn) = drawn_of(one, records.0, records.1, is_whole) else {
        return Ok(Some(Refusal::Apart));
    };
    let beside = panels_beside(alloc, &partners, others.len())?;
    let first = part_in(alloc, one, records.0, drawn.frame, panels)?;
    let second = part_in(alloc, other, records.1, drawn.frame, beside)?;
    let mut sheet = Sheet::new(alloc);
    put_over(
        alloc,
        &mut sheet,
        files,
        records,
        (&first, &second),
        drawn.is_part,
        options,
    )?;
    sheet.text("</svg>\n");
    sheet.write(w)?;
    Ok(None)
}
