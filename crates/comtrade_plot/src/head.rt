//! The head of a picture: its size, its colours, its names, and its description in words.

use crate::instant::{put_instant, put_range};
use crate::layout::{Chart, panel_count};
use crate::legend::peak_of;
use crate::plan::{Down, LEFT, WIDTH};
use crate::plot::PlotOptions;
use crate::quantity::put_quantity;
use crate::sheet::Sheet;
use comtrade_format::{File, Head};
use std::alloc::Allocator;

/// Colours for dark pages, and line styles for print.
const STYLE: &str = "<style>@media (prefers-color-scheme:dark){\
svg{fill:#e8eaed}.p{fill:#14171c}.f{fill:#a9b0b8}.g{stroke:#2c323a}.e{stroke:#7b838d}.t{stroke:#e8eaed}\
.x{fill:#3d3a33}.k{fill:#4e7a5b}.o{fill:#7fd492}.q{stroke:#f0b429}\
.a{stroke:#ff4038}.b{stroke:#ffcc38}.c{stroke:#0089ff}.n{stroke:#f0f2ef}\
.u{stroke:#008c82}.v{stroke:#c0acff}.w{stroke:#a38d6a}.z{stroke:#f98abc}}\
@media print{.b{stroke-dasharray:8 2}.c{stroke-dasharray:3 2}.n{stroke-dasharray:8 2 2 2}\
.v{stroke-dasharray:8 2}.w{stroke-dasharray:3 2}.z{stroke-dasharray:8 2 2 2}}</style>\n";

/// Black lines of different dashes for paper, also on a dark page and without a browser. A second
/// record's traces have dashes of their own.
const PRINT_STYLE: &str =
    "<style>svg{fill:#000000}.f{fill:#000000}.g{stroke:#c8c8c8}.x{fill:#e0e0e0}\
.k{fill:#b0b0b0}.o{fill:#404040}.q{stroke:#000000}\
.a,.b,.c,.n,.u,.v,.w,.z{stroke:#000000}\
.b{stroke-dasharray:9 3}.c{stroke-dasharray:3 2}.n{stroke-dasharray:9 3 2 3}\
.w{stroke-dasharray:2 4}.z{stroke-dasharray:9 3 2 3}.u,.v{stroke-opacity:1}</style>\n";

/// The style of a picture on a screen, or for paper.
pub(crate) fn style_of(is_for_print: bool) -> &'static str {
    if is_for_print { PRINT_STYLE } else { STYLE }
}

/// The tag of a picture of this many pixels. It keeps its aspect ratio if only its width is given.
pub(crate) fn put_tag<A: Allocator>(sheet: &mut Sheet<A>, options: PlotOptions, height: Down) {
    // (without an option the picture's own width)
    let width = u64::from(options.width.unwrap_or(WIDTH / 10));
    let shown = match options.height {
        Some(shown) => u64::from(shown),
        None => width * u64::from(height.tenths) / 12_000,
    };
    sheet.text("<svg xmlns=\"http://www.w3.org/2000/svg\" width=\"");
    sheet.number(width);
    sheet.text("\" height=\"");
    sheet.number(shown.max(1));
    sheet.text("\" viewBox=\"0 0 1200 ");
    sheet.tenths(height.tenths);
    sheet.text(
        "\" role=\"img\" aria-labelledby=\"title desc\" font-family=\"sans-serif\" font-size=\"12\" fill=\"#1c1f23\">\n",
    );
}

pub(crate) fn put_station<A: Allocator>(sheet: &mut Sheet<A>, head: &Head<A>) {
    sheet.name(head.station.items());
    if !head.device.items().is_empty() {
        sheet.text(", ");
        sheet.name(head.device.items());
    }
}

/// The peaks of the first channels, in words.
fn put_peaks<A: Allocator>(sheet: &mut Sheet<A>, chart: &Chart<'_, A>) {
    let file = chart.file;
    let channels = file.head.analog.items();
    let known = chart.surveys.iter().zip(chart.scales.iter());
    sheet.text(" Peaks:");
    for (channel, (survey, scale)) in channels.iter().zip(known).take(12) {
        sheet.text(" ");
        sheet.name(channel.id.items());
        sheet.text(" ");
        match peak_of(*survey, *scale) {
            Some(peak) => put_quantity(sheet, peak, channel.unit.items()),
            None => sheet.text("no readings"),
        }
        sheet.text(";");
    }
    sheet.text(if 12 < channels.len() {
        " and others."
    } else {
        ""
    });
}

/// The description of the picture, for screen readers.
fn put_description<A: Allocator>(sheet: &mut Sheet<A>, chart: &Chart<'_, A>) {
    let file = chart.file;
    let head = &file.head;
    sheet.text("<desc id=\"desc\">Trigger ");
    put_instant(sheet, head.trigger);
    sheet.text(". ");
    let analog = head.analog.items().len() as u64;
    sheet.count(analog, " analogue channel", " analogue channels");
    sheet.text(" in ");
    sheet.count(panel_count(chart.panels) as u64, " panel", " panels");
    sheet.text(", ");
    let status = head.status.items().len() as u64;
    sheet.count(status, " contact", " contacts");
    if chart.is_timed {
        sheet.text(", from ");
        put_range(sheet, chart.frame.from, chart.frame.to);
        sheet.text(" since the trigger");
    }
    sheet.text(".");
    put_peaks(sheet, chart);
    sheet.text("</desc>\n");
}

/// When the trigger was, the number of rows, and their rates.
pub(crate) fn put_facts<A: Allocator>(sheet: &mut Sheet<A>, file: &File<A>, y: Down) {
    let head = &file.head;
    sheet.begin_text(LEFT, y, " class=\"f\" fill=\"#55595f\"");
    sheet.text("trigger ");
    put_instant(sheet, head.trigger);
    sheet.text(", ");
    sheet.count(file.rows.items().len() as u64, " row", " rows");
    if let [rate] = head.rates.items() {
        if rate.samp.units() != 0 {
            sheet.text(" at ");
            sheet.decimal(rate.samp);
            sheet.text(" Hz");
        }
    }
    sheet.end_text();
}

/// The head of a picture, after its tag.
pub(crate) fn put_head<A: Allocator>(
    sheet: &mut Sheet<A>,
    chart: &Chart<'_, A>,
    is_for_print: bool,
) {
    let file = chart.file;
    sheet.text("<title id=\"title\">");
    put_station(sheet, &file.head);
    sheet.text("</title>\n");
    put_description(sheet, chart);
    sheet.text(style_of(is_for_print));
    sheet.text("<rect class=\"p\" width=\"100%\" height=\"100%\" fill=\"#ffffff\"/>\n");
    sheet.begin_text(LEFT, Down::at(230), " font-size=\"15\"");
    put_station(sheet, &file.head);
    sheet.end_text();
    put_facts(sheet, file, Down::at(410));
}
