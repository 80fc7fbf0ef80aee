//! Texts and tables of text in HTML.

ghost use Rattle.std.specs.Prelude.{◌≡◌, ◌++◌, OnOk};
ghost use Rattle.comtrade_views.specs.Html.{html_byte, in_html};

use crate::table::{CELL, row_of};
use comtrade_values::put;
use std::alloc::{AllocError, Allocator};

/// A byte of a text.
fn put_html_byte<A: Allocator>(out: &mut Vec<u8, A>, b: u8) -> Result<(), AllocError>
    ensures { OnOk result (out.new.items ≡ out.old.items ++ html_byte b) }
{
    match b {
        b'&' => put(out, "&amp;"),
        b'<' => put(out, "&lt;"),
        b'>' => put(out, "&gt;"),
        b'"' => put(out, "&quot;"),
        _ => out.extend_from_slice(&[b]),
    }
}

/// A text in HTML, between tags or in an attribute in quotation marks.
pub fn put_html<A: Allocator>(out: &mut Vec<u8, A>, text: &[u8]) -> Result<(), AllocError>
    ensures { OnOk result (out.new.items ≡ out.old.items ++ in_html text.now) }
{
    for b in text {
        put_html_byte(out, *b)?;
    }
    Ok(())
}

/// The cells of a row, without the ends of the last one and of the row.
fn cells_of(line: &[u8]) -> &[u8] {
    match row_of(line) {
        [cells @ .., 0x1F] => cells,
        cells => cells,
    }
}

/// A row whose cells have these tags.
fn put_html_row<A: Allocator>(
    out: &mut Vec<u8, A>,
    line: &[u8],
    begin: &str,
    end: &str,
) -> Result<(), AllocError> {
    put(out, "<tr>")?;
    for cell in cells_of(line).split(|b| *b == CELL) {
        put(out, begin)?;
        put_html(out, cell)?;
        put(out, end)?;
    }
    put(out, "</tr>\n")
}

/// A table whose first row has the names of the columns.
pub(crate) fn put_html_table<A: Allocator>(
    out: &mut Vec<u8, A>,
    table: &[u8],
) -> Result<(), AllocError> {
    put(out, "<table><thead>\n")?;
    for (i, line) in table.split_inclusive(|b| *b == b'\n').enumerate() {
        if i == 0 {
            put_html_row(out, line, "<th scope=\"col\">", "</th>")?;
            put(out, "</thead><tbody>\n")?;
        } else {
            put_html_row(out, line, "<td>", "</td>")?;
        }
    }
    put(out, "</tbody></table>\n")
}
