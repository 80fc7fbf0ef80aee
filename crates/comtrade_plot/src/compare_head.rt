//! The head of a picture of two records, and the channels that only one of them has.

use crate::compare::By;
use crate::differing::{Beside, is_exact};
use crate::head::{put_facts, put_station, style_of};
use crate::instant::{put_duration, put_range};
use crate::layers::Layer;
use crate::layout::{Chart, NOWHERE, panel_count};
use crate::legend::put_mark;
use crate::phases::Hue;
use crate::plan::{Down, LEFT};
use crate::sheet::Sheet;
use dfr_channels::AnalogChannel;
use std::alloc::Allocator;

const SMALL: &str = " class=\"f\" fill=\"#55595f\"";

/// The limit in bytes of the names of channels in a line.
const NAMED: usize = 60;

/// The description of the picture, for screen readers.
fn put_description<A: Allocator>(sheet: &mut Sheet<A>, beside: &Beside<'_, A>) {
    sheet.text("<desc id=\"desc\">Two records, A and B, in one picture. ");
    let pairs = panel_count(beside.one.panels);
    sheet.count(
        pairs as u64,
        " channel that both have",
        " channels that both have",
    );
    sheet.text(", from ");
    put_range(sheet, beside.one.frame.from, beside.one.frame.to);
    sheet.text(" since A's trigger.</desc>\n");
}

/// A record's letter with its trace's style, its names, and when its trigger was.
fn put_record<A: Allocator>(sheet: &mut Sheet<A>, chart: &Chart<'_, A>, letter: &str, y: Down) {
    let file = chart.file;
    sheet.label(LEFT, y, " font-size=\"15\"", letter);
    let layer = chart.layer;
    put_mark(sheet, layer, layer.hue(Hue::First), LEFT + 160, y);
    sheet.begin_text(LEFT + 420, y, " font-size=\"15\"");
    put_station(sheet, &file.head);
    sheet.end_text();
    put_facts(sheet, file, y.below(160));
}

/// Where the trigger of B is drawn.
fn put_shift<A: Allocator>(sheet: &mut Sheet<A>, shift: i64) {
    sheet.text(": the trigger of B is ");
    if shift == 0 {
        sheet.text("at the same instant");
    } else {
        put_duration(sheet, shift.unsigned_abs());
        sheet.text(if shift < 0 {
            " before that of A"
        } else {
            " after that of A"
        });
    }
}

/// How the records are aligned.
fn put_alignment<A: Allocator>(sheet: &mut Sheet<A>, beside: &Beside<'_, A>, y: Down) {
    sheet.begin_text(LEFT, y, SMALL);
    let (shift, moved) = (beside.other.trigger, beside.laid.moved);
    sheet.text(match beside.laid.by {
        By::Trigger => "aligned by trigger",
        By::Instant => "aligned by instant",
        By::Fault(_) => "aligned by the first fault of each",
    });
    if beside.laid.by != By::Trigger || moved != 0 {
        put_shift(sheet, shift);
    }
    if moved != 0 {
        sheet.text("; B was moved ");
        put_duration(sheet, moved.unsigned_abs());
        sheet.text(if moved < 0 { " back" } else { " ahead" });
    }
    sheet.end_text();
}

/// How differences are calculated, and which times are drawn.
fn put_method<A: Allocator>(sheet: &mut Sheet<A>, beside: &Beside<'_, A>, y: Down) {
    sheet.begin_text(LEFT, y, SMALL);
    sheet.text(if is_exact(beside) {
        "A \u{2212} B at A's rows; B has a row at each of these instants"
    } else {
        "A \u{2212} B at A's rows; B interpolated linearly between its rows"
    });
    if beside.laid.is_part {
        sheet.text("; drawn around A's trigger (--whole draws all of both)");
    } else if !beside.laid.is_whole {
        sheet.text("; drawn: the time that both cover");
    }
    sheet.end_text();
}

/// The head of a picture of two records, after its tag.
pub(crate) fn put_compare_head<A: Allocator>(
    sheet: &mut Sheet<A>,
    beside: &Beside<'_, A>,
    is_for_print: bool,
) {
    sheet.text("<title id=\"title\">");
    let (one, other) = (beside.one.file, beside.other.file);
    sheet.text("A: ");
    put_station(sheet, &one.head);
    sheet.text("; B: ");
    put_station(sheet, &other.head);
    sheet.text("</title>\n");
    put_description(sheet, beside);
    sheet.text(style_of(is_for_print));
    sheet.text("<rect class=\"p\" width=\"100%\" height=\"100%\" fill=\"#ffffff\"/>\n");
    put_record(sheet, beside.one, "A", Down::at(230));
    put_record(sheet, beside.other, "B", Down::at(620));
    put_alignment(sheet, beside, Down::at(960));
    put_method(sheet, beside, Down::at(1100));
}

/// Whether one of these channels has this name.
fn is_named<A: Allocator>(channels: &[AnalogChannel<A>], id: &[u8]) -> bool {
    for channel in channels {
        if channel.id.items() == id {
            return true;
        }
    }
    false
}

/// How many channels are not drawn.
pub(crate) fn singles_in<A: Allocator>(chart: &Chart<'_, A>) -> usize {
    let panels = chart.panels.iter();
    panels.filter(|panel| **panel == NOWHERE).count()
}

/// The channels that only one of two records has, at a vertical position, as far as there is room.
/// A channel whose name the other record has, too, gets the reason.
pub(crate) fn put_singles<A: Allocator + Copy>(
    sheet: &mut Sheet<A>,
    one: &Chart<'_, A>,
    other: &Chart<'_, A>,
    y: Down,
) {
    let (file, others) = (one.file, other.file);
    let mut names = sheet.another();
    let mut left = singles_in(one);
    for (channel, panel) in file.head.analog.items().iter().zip(one.panels.iter()) {
        if left == 0 || NAMED <= names.len() {
            break;
        }
        if *panel == NOWHERE {
            names.text(if names.len() == 0 { "" } else { ", " });
            names.name(channel.id.items());
            if is_named(others.head.analog.items(), channel.id.items()) {
                names.text(" (another unit, side, phase or component)");
            }
            left -= 1;
        }
    }
    sheet.begin_text(LEFT, y, SMALL);
    sheet.text(if one.layer == Layer::Other {
        "only in B: "
    } else {
        "only in A: "
    });
    sheet.append(&names);
    if left != 0 {
        sheet.text(", and ");
        sheet.number(left as u64);
        sheet.text(" more");
    }
    sheet.end_text();
}
