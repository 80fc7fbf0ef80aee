//! Times at round numbers with their lines through the panels, cycles, the trigger, gaps.

ghost use Rattle.std.specs.Prelude.{◌≤◌, ◌+◌};

use crate::gaps::TimeGap;
use crate::instant::{TimeUnit, put_duration, time_unit};
use crate::layout::{Band, Chart};
use crate::legend::NAMES;
use crate::plan::{Cycle, Down, Frame, LEFT, RIGHT};
use crate::sheet::Sheet;
use crate::ticks::{Ticks, round_step};
use std::alloc::Allocator;

/// The unit of the chart's times; the numbers of rows have no unit.
fn unit_of<A: Allocator>(chart: &Chart<'_, A>) -> TimeUnit {
    if chart.is_timed {
        return time_unit(chart.frame.span());
    }
    TimeUnit {
        nanos: 1,
        places: 0,
        name: "",
    }
}

/// The lines of the times through a panel.
pub(crate) fn put_grid<A: Allocator>(sheet: &mut Sheet<A>, frame: Frame, band: Band) {
    sheet.text("<path class=\"g\" stroke=\"#e2e2e2\" d=\"");
    for tick in Ticks::of(frame) {
        sheet.point("M", frame.across(tick), band.top.tenths);
        sheet.along("V", band.bottom().tenths);
    }
    sheet.text("\"/>\n");
}

/// The times at a vertical position.
pub(crate) fn put_times<A: Allocator>(sheet: &mut Sheet<A>, chart: &Chart<'_, A>, y: Down) {
    let unit = unit_of(chart);
    for tick in Ticks::of(chart.frame) {
        sheet.begin_text(chart.frame.across(tick), y, " text-anchor=\"middle\"");
        sheet.scaled(i128::from(tick), unit.places);
        sheet.end_text();
    }
}

/// The name of the times at a vertical position.
pub(crate) fn put_times_name<A: Allocator>(sheet: &mut Sheet<A>, chart: &Chart<'_, A>, y: Down) {
    if chart.is_timed {
        sheet.begin_text(NAMES, y, "");
        sheet.texts(&[unit_of(chart).name, " since ", chart.layer.trigger_name()]);
        sheet.end_text();
    } else {
        sheet.label(NAMES, y, "", "row; the file has no times");
    }
}

/// A mark at each cycle since the trigger, or at every few of them, below a vertical position, and
/// their numbers.
fn put_cycle_marks<A: Allocator>(sheet: &mut Sheet<A>, frame: Frame, cycle: Cycle, top: Down) {
    let cycles = frame.span() / cycle.nanos.unsigned_abs();
    let each = round_step(cycles.div_ceil(25).max(1));
    let step = each.and_then(|each| cycle.nanos.checked_mul(each));
    for tick in Ticks::by(frame, step, 40) {
        let x = frame.across(tick);
        sheet.text("<path class=\"e\" stroke=\"#8a8f96\" d=\"");
        sheet.point("M", x, top.tenths);
        sheet.text("v4\"/>");
        sheet.begin_text(
            x,
            top.below(140),
            " text-anchor=\"middle\" font-size=\"10\" class=\"f\" fill=\"#55595f\"",
        );
        sheet.signed(tick / cycle.nanos);
        sheet.end_text();
    }
}

/// The cycles of the line frequency below a vertical position, if it is known and the frame has a
/// whole cycle.
pub(crate) fn put_cycles<A: Allocator>(sheet: &mut Sheet<A>, chart: &Chart<'_, A>, top: Down) {
    let file = chart.file;
    let Some(cycle) = chart.cycle else {
        return;
    };
    if !chart.is_timed || chart.frame.span() < cycle.nanos.unsigned_abs() {
        return;
    }
    put_cycle_marks(sheet, chart.frame, cycle, top);
    sheet.begin_text(NAMES, top.below(140), " class=\"f\" fill=\"#55595f\"");
    sheet.text("cycles of ");
    sheet.decimal(file.head.line_freq);
    sheet.text(" Hz");
    sheet.end_text();
}

/// The trigger's line through a panel.
pub(crate) fn put_trigger<A: Allocator>(sheet: &mut Sheet<A>, chart: &Chart<'_, A>, band: Band) {
    if !chart.is_timed || !chart.frame.has(chart.trigger) {
        return;
    }
    let dashes = chart.layer.trigger_dashes();
    sheet.texts(&[
        "<path class=\"t\" stroke=\"#222222\" stroke-dasharray=\"",
        dashes,
        "\" d=\"",
    ]);
    sheet.point("M", chart.frame.across(chart.trigger), band.top.tenths);
    sheet.along("V", band.bottom().tenths);
    sheet.text("\"/>\n");
}

/// Where a gap begins, and the width it is drawn with: at least a pixel.
fn drawn_gap(frame: Frame, gap: TimeGap) -> (u32, u32)
    ensures left { 760 ≤ result.0 }
    ensures right { result.0 + 10 ≤ 9160 }
    ensures width { result.1 ≤ 8410 }
{
    let from = frame.across(gap.from);
    let to = frame.across(gap.to).max(from + 10);
    (from.min(RIGHT - 10), to - from)
}

/// The gaps as shaded areas in a panel; those less than a pixel apart are merged.
pub(crate) fn put_gaps<A: Allocator>(sheet: &mut Sheet<A>, chart: &Chart<'_, A>, band: Band) {
    if chart.gaps.is_empty() {
        return;
    }
    sheet.text("<path class=\"x\" fill=\"#dcd6c8\" d=\"");
    let mut end = 0u32;
    for gap in chart.gaps {
        let (x, width) = drawn_gap(chart.frame, *gap);
        if end <= x {
            sheet.point("M", x, band.top.tenths);
            sheet.along("h", width);
            sheet.along("V", band.bottom().tenths);
            sheet.along("H", x);
            sheet.text("z");
            end = x + width;
        }
    }
    sheet.text("\"/>\n");
}

/// The lengths of gaps at a vertical position, or their numbers of rows, as far as there is room.
pub(crate) fn put_gap_names<A: Allocator>(sheet: &mut Sheet<A>, chart: &Chart<'_, A>, y: Down) {
    let mut end = 0u32;
    for gap in chart.gaps {
        let (x, width) = drawn_gap(chart.frame, *gap);
        let middle = x + width / 2;
        if end <= middle {
            sheet.begin_text(
                middle.clamp(LEFT + 300, RIGHT - 300),
                y,
                " text-anchor=\"middle\" font-size=\"10.5\" class=\"f\" fill=\"#55595f\"",
            );
            sheet.text("gap ");
            if chart.is_timed {
                put_duration(sheet, gap.to.abs_diff(gap.from));
            } else {
                sheet.count(gap.rows, " row", " rows");
            }
            sheet.end_text();
            end = middle + 800;
        }
    }
}
