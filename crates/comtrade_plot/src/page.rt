//! A page that shows a record in a browser: one file with its data and the script that draws them.

use crate::blocks::{Bits, SampleBlocks, gather_bits, gather_samples, times_of_rows, write_block};
use crate::groups::hue_in;
use crate::head::put_station;
use crate::instant::put_instant;
use crate::record::{DrawnPart, DrawnRecord, DrawnTimes, Timed, choice_of, part_of, record_of};
use crate::script_text::script;
use crate::sheet::Sheet;
use crate::style_text::style;
use crate::survey::ChannelSpan;
use comtrade_format::{File, Head, Row};
use comtrade_io::ToolFault;
use dfr_channels::{AnalogChannel, Side, StatusChannel};
use std::alloc::{AllocError, Allocator};
use std::io::Write;

/// The part of a page between the record's names and its data.
const BODY: &str =
    "<p><button data-key=\"0\" title=\"show the whole record (key 0)\">whole record</button> \
<button data-key=\"t\" title=\"show the part around the trigger (key T)\">around the trigger</button> \
<button data-key=\"+\" title=\"zoom in (key +)\">+</button> <button data-key=\"-\" title=\"zoom out (key -)\">&minus;</button> \
<button data-key=\"p\" title=\"primary or secondary values (key P)\" id=\"side\"></button> <output id=\"cursors\"></output></p>\n\
<details><summary>Keys</summary><p>Zoom: wheel, pinch, + and &minus;. Move: drag, Page Up, Page Down, Home, End. \
Click sets cursor A, Shift and click cursor B; cursors can be dragged. A or B chooses the active cursor; the arrow keys move it by one row, \
with Shift by ten. 0 shows the whole record, T the part around the trigger. P switches between values as in the file, primary and secondary. \
Tab and Space show or hide channels. rms and phasor are of the cycle that ends at the active cursor, as in comtrade measure --at; \
angles are relative to the first channel shown that has one.</p></details>\n\
</header>\n<main><div><canvas id=\"picture\" tabindex=\"0\" role=\"img\" aria-label=\"waveforms and status channels\"></canvas></div>\n\
<aside><table><thead><tr><th></th><th>channel</th><th>A</th><th>B</th><th>B&minus;A</th><th>rms</th><th>phasor</th></tr></thead>\
<tbody id=\"channels\"></tbody></table></aside></main>\n";

fn put_flag<A: Allocator>(sheet: &mut Sheet<A>, name: &str, is_so: bool) {
    sheet.texts(&[",\"", name, "\":", if is_so { "true" } else { "false" }]);
}

/// A member of a JSON object whose value is a text of the file.
fn put_text<A: Allocator>(sheet: &mut Sheet<A>, before: &str, text: &[u8]) {
    sheet.text(before);
    sheet.json(text);
}

/// Whether a channel's samples need more than 16 bits.
fn is_wide(survey: ChannelSpan) -> bool {
    match survey.bounds {
        Some((least, greatest)) => least < -32_767 || 32_767 < greatest,
        None => false,
    }
}

/// The page's data about the analogue channel with this index.
fn put_analog<A: Allocator>(
    sheet: &mut Sheet<A>,
    channels: &[AnalogChannel<A>],
    part: &DrawnPart<A>,
    at: usize,
) {
    let (Some(channel), Some(panel), Some(survey)) = (
        channels.get(at),
        part.panels.get(at),
        part.surveys.get(at),
    ) else {
        return;
    };
    put_text(sheet, "{\"id\":", channel.id.items());
    put_text(sheet, ",\"phase\":", channel.phase.items());
    put_text(sheet, ",\"component\":", channel.component.items());
    put_text(sheet, ",\"unit\":", channel.unit.items());
    for (name, number) in [
        (",\"a\":", channel.a),
        (",\"b\":", channel.b),
        (",\"skew\":", channel.skew),
        (",\"primary\":", channel.primary),
        (",\"secondary\":", channel.secondary),
    ] {
        sheet.text(name);
        sheet.decimal(number);
    }
    sheet.text(match channel.side {
        Side::Primary => ",\"side\":\"P\"",
        Side::Secondary => ",\"side\":\"S\"",
    });
    let hue = hue_in(channels, &part.panels, at);
    sheet.texts(&[",\"hue\":\"", hue.class(), "\",\"panel\":"]);
    sheet.number(*panel as u64);
    put_flag(sheet, "wide", is_wide(*survey));
    sheet.text("}");
}

fn put_analogs<A: Allocator>(
    sheet: &mut Sheet<A>,
    channels: &[AnalogChannel<A>],
    part: &DrawnPart<A>,
) {
    sheet.text(",\"analog\":[");
    for i in 0..channels.len() {
        sheet.text(if i == 0 { "" } else { ",\n" });
        put_analog(sheet, channels, part, i);
    }
    sheet.text("]");
}

fn put_statuses<A: Allocator>(sheet: &mut Sheet<A>, channels: &[StatusChannel<A>]) {
    sheet.text(",\"status\":[");
    for (i, channel) in channels.iter().enumerate() {
        put_text(
            sheet,
            if i == 0 { "{\"id\":" } else { ",\n{\"id\":" },
            channel.id.items(),
        );
        sheet.text(if channel.normal {
            ",\"normal\":1}"
        } else {
            ",\"normal\":0}"
        });
    }
    sheet.text("]");
}

/// The rates, each with its last row; none where stamps alone give the times of rows.
fn put_rates<A: Allocator>(sheet: &mut Sheet<A>, head: &Head<A>) {
    sheet.text(",\"rates\":[");
    if head.nrates != 0 {
        for (i, rate) in head.rates.items().iter().enumerate() {
            sheet.text(if i == 0 { "[" } else { ",[" });
            sheet.decimal(rate.samp);
            sheet.text(",");
            sheet.number(rate.endsamp);
            sheet.text("]");
        }
    }
    sheet.text("]");
}

/// The record's head as JSON.
fn put_json<A: Allocator>(
    sheet: &mut Sheet<A>,
    file: &File<A>,
    record: &DrawnRecord<A>,
    part: &DrawnPart<A>,
    choice: DrawnTimes,
) {
    sheet.text("<script type=\"application/json\" id=\"head\">{\"rows\":");
    sheet.number(file.rows.items().len() as u64);
    sheet.text(",\"hertz\":");
    sheet.decimal(file.head.line_freq);
    put_rates(sheet, &file.head);
    put_flag(sheet, "isTimed", record.is_timed);
    if choice.is_part {
        sheet.text(",\"from\":");
        sheet.signed(choice.drawn.from);
        sheet.text(",\"to\":");
        sheet.signed(choice.drawn.to);
    }
    put_analogs(sheet, file.head.analog.items(), part);
    put_statuses(sheet, file.head.status.items());
    sheet.text("}</script>\n");
}

/// The page up to its data.
fn put_begin<A: Allocator>(sheet: &mut Sheet<A>, file: &File<A>) {
    sheet.text("<!doctype html>\n<html lang=\"en\"><head><meta charset=\"utf-8\">");
    sheet.text("<meta name=\"viewport\" content=\"width=device-width, initial-scale=1\"><title>");
    put_station(sheet, &file.head);
    sheet.texts(&[
        "</title>\n<style>\n",
        style(),
        "</style></head><body>\n<header><h1>",
    ]);
    put_station(sheet, &file.head);
    sheet.text("</h1><p>trigger ");
    put_instant(sheet, file.head.trigger);
    sheet.text(", ");
    sheet.number(file.rows.items().len() as u64);
    sheet.text(" rows</p>\n");
    sheet.text(BODY);
}

/// Starts the samples of a channel, if there is one at this index, in the memory of one that was
/// written.
fn begin_samples<A: Allocator + Copy>(
    alloc: A,
    channels: &mut Vec<SampleBlocks<A>, A>,
    place: usize,
    is_wide: bool,
    rows: usize,
) -> Result<(), AllocError> {
    if let Some(channel) = channels.get_mut(place) {
        channel.bytes.clear();
        channel.is_wide = is_wide;
        return Ok(());
    }
    let width = if is_wide { 4 } else { 2 };
    let size = rows.checked_mul(width).ok_or(AllocError)?;
    channels.push(SampleBlocks {
        bytes: Vec::with_capacity(alloc, size)?,
        is_wide,
    })?;
    Ok(())
}

/// How many channels are read in one pass over the rows.
const TOGETHER: usize = 8;

/// Writes the samples of all channels, several of them in one pass over the rows, whose readings
/// lie far apart.
fn write_samples<A: Allocator + Copy, W: Write>(
    alloc: A,
    rows: &[Row<A>],
    surveys: &[ChannelSpan],
    w: &mut W,
) -> Result<(), ToolFault> {
    let mut channels: Vec<SampleBlocks<A>, A> = Vec::with_capacity(alloc, TOGETHER)?;
    let firsts = (0..surveys.len()).step_by(TOGETHER);
    for (first, some) in firsts.zip(surveys.chunks(TOGETHER)) {
        for (i, survey) in some.iter().enumerate() {
            begin_samples(alloc, &mut channels, i, is_wide(*survey), rows.len())?;
        }
        let Some(channels) = channels.as_mut_slice().get_mut(..some.len()) else {
            break;
        };
        gather_samples(channels, rows, first)?;
        for (n, channel) in (first..surveys.len()).zip(channels.iter()) {
            write_block(alloc, "s", Some(n), &channel.bytes, w)?;
        }
    }
    Ok(())
}

/// Writes the bits of all status channels, in the same way.
fn write_bits<A: Allocator + Copy, W: Write>(
    alloc: A,
    file: &File<A>,
    w: &mut W,
) -> Result<(), ToolFault> {
    let channels = file.head.status.items();
    let firsts = (0..channels.len()).step_by(64);
    for (first, some) in firsts.zip(channels.chunks(64)) {
        let mut contacts = Vec::new(alloc);
        for _ in some {
            contacts.push(Bits {
                bytes: Vec::with_capacity(alloc, file.rows.items().len() / 8 + 1)?,
                byte: 0,
            })?;
        }
        gather_bits(&mut contacts, file.rows.items(), first)?;
        for (n, contact) in (first..channels.len()).zip(contacts.iter()) {
            write_block(alloc, "d", Some(n), &contact.bytes, w)?;
        }
    }
    Ok(())
}

/// Prints a page that shows a record in a browser, without a network.
pub fn page_over<A: Allocator + Copy, W: Write>(
    alloc: A,
    timed: Timed<'_, A>,
    w: &mut W,
) -> Result<(), ToolFault> {
    let file = timed.file;
    let record = record_of(alloc, timed)?;
    let choice = choice_of(file, &record, false);
    let part = part_of(alloc, file, &record, choice.whole)?;
    let mut sheet = Sheet::new(alloc);
    put_begin(&mut sheet, file);
    put_json(&mut sheet, file, &record, &part, choice);
    sheet.write(w)?;
    write_block(
        alloc,
        "times",
        None,
        &times_of_rows(alloc, &record.times)?,
        w,
    )?;
    write_samples(alloc, file.rows.items(), &part.surveys, w)?;
    write_bits(alloc, file, w)?;
    let mut end = Sheet::new(alloc);
    end.texts(&["<script>\n", script(), "</script>\n</body></html>\n"]);
    end.write(w)
}
