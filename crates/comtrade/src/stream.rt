//! Prints the rows of a plain BINARY pair as comma-separated values, piece by piece: with no more
//! memory for more rows.

use crate::content::encoding_of;
use crate::find::Pairing;
use crate::output::named_file;
use crate::part::put_part_fault;
use crate::pieces::{Pieces, pieces_of, rows_of, set_rows};
use crate::plain::{Plain, border_in, is_meant, plain_of, under_of};
use crate::{complain, note_bytes, out_of_memory, say};
use comtrade_format::{Border, File, Head, Row};
use comtrade_io::{Part, ToolFault, Viewed};
use comtrade_table::Layout;
use comtrade_values::{Decimal, Items};
use comtrade_views::{
    CsvRows, CutPlan, PartFault, Spelling, is_whole, piece_times, plan_of, spell_for_views,
    spell_in_utf8,
};
use std::alloc::{AllocError, Global};
use std::io::{self, Read, Write};
use std::rt::Files;

/// The part that is asked for, or None for the whole record.
fn plan_in<'a>(
    alloc: Global,
    (head, rows): (&Head, u64),
    border: Border,
    part: Part<'a>,
) -> Result<Option<CutPlan>, PartFault<'a>> {
    if is_whole(part) {
        return Ok(None);
    }
    let Ok(count) = usize::try_from(rows) else {
        return Err(PartFault::Memory);
    };
    Ok(Some(plan_of(alloc, head, border, count, part)?))
}

/// The index of the first row that is printed, and that after the last one.
fn range_of(plan: &Option<CutPlan>, layout: Layout) -> (u64, u64) {
    match plan {
        Some(plan) => (plan.from as u64, plan.to as u64),
        None => (0, layout.rows),
    }
}

/// What is printed of a piece.
#[derive(Clone, Copy)]
struct Shown<'a> {
    alloc: Global,
    /// The head of the whole record, and which rate gives the interval across each border.
    head: &'a Head,
    border: Border,
    plan: &'a Option<CutPlan>,
}

/// Prints the rows of a piece, which begins at this index.
fn put_piece<W: Write>(
    shown: Shown<'_>,
    csv: &mut CsvRows<Global>,
    rows: Items<Row>,
    first: u64,
    w: &mut W,
) -> Result<(), ToolFault> {
    let Shown {
        alloc,
        head,
        border,
        plan,
    } = shown;
    let times = piece_times(alloc, head, border, rows.items(), first)?;
    let Some(plan) = plan else {
        return csv.put_rows(head, rows.items(), &times, w);
    };
    // (the part begins with row 1)
    let before = first.checked_sub(plan.from as u64).ok_or(ToolFault::Input)?;
    let number = before.checked_add(1).ok_or(ToolFault::Input)?;
    let cut = plan.rows(alloc, rows.items(), number)?;
    csv.put_rows(&plan.head, cut.items(), &times, w)
}

/// Prints the column names and the rows of these pieces.
fn put_pieces<F: Read + Drop, W: Write>(
    shown: Shown<'_>,
    (under, samp): (Head, Decimal),
    pieces: &mut Pieces<F>,
    spelling: Spelling,
    w: &mut W,
) -> Result<(), ToolFault> {
    let head = match shown.plan {
        Some(plan) => &plan.head,
        None => shown.head,
    };
    let mut csv = CsvRows::begun(shown.alloc, head, spelling, w)?;
    let mut under = under;
    for _ in 0..u64::MAX {
        let Some(piece) = pieces.next()? else {
            break;
        };
        set_rows(shown.alloc, &mut under, samp, piece.rows)?;
        let (back, rows) = rows_of(shown.alloc, under, piece.bytes)?;
        under = back;
        put_piece(shown, &mut csv, rows, piece.first, w)?;
    }
    csv.end(w)
}

/// Prints the rows that are asked for. The exit status.
fn put_plain<R: Files + Print + Eprint + AllocGlobal>(
    rt: &R,
    plain: &Plain<'_>,
    border: Border,
    spelling: Spelling,
    part: Part<'_>,
) -> u8 {
    let (dat, layout) = (plain.dat, plain.layout);
    let head = &plain.file.head;
    let plan = match plan_in(rt.alloc(), (head, layout.rows), border, part) {
        Ok(plan) => plan,
        Err(fault) => return refuse_part(rt, fault),
    };
    let under = match under_of(rt.alloc(), plain) {
        Ok(under) => under,
        Err(fault) => return complain(rt, dat, fault),
    };
    let mut pieces = match pieces_of(rt, dat, layout, range_of(&plan, layout)) {
        Ok(pieces) => pieces,
        Err(fault) => return complain(rt, dat, fault),
    };
    let shown = Shown {
        alloc: rt.alloc(),
        head,
        border,
        plan: &plan,
    };
    match put_pieces(
        shown,
        (under, plain.samp),
        &mut pieces,
        spelling,
        &mut io::writer(rt),
    ) {
        Ok(()) => 0,
        Err(ToolFault::Input) => complain(rt, dat, ToolFault::Input),
        Err(fault) => complain(rt, "standard output", fault),
    }
}

/// Prints why a record has no such part.
fn refuse_part<R: Eprint + AllocGlobal>(rt: &R, fault: PartFault<'_>) -> u8 {
    let mut said = Vec::new(rt.alloc());
    match put_part_fault(&mut said, fault) {
        Ok(()) => {
            say(rt, &said);
            1
        }
        Err(_) => out_of_memory(rt),
    }
}

/// Spells the texts of a head as they are shown; None for an unknown encoding.
fn spell(alloc: Global, file: &mut File, name: Option<&str>) -> Option<Result<(), AllocError>> {
    let encoding = encoding_of(name)?;
    if let Err(fault) = spell_in_utf8(alloc, file, encoding) {
        return Some(Err(fault));
    }
    Some(spell_for_views(alloc, file))
}

/// Prints the rows of a pair as comma-separated values on standard output, if it is a plain BINARY
/// pair that is meant as it reads, or read strictly. The exit status; None for any other pair, of
/// which nothing is printed.
pub(crate) fn csv_in_pieces<R: Files + Print + Eprint + Input + AllocGlobal>(
    rt: &R,
    is_watched: bool,
    names: &Pairing,
    viewed: Viewed<'_>,
) -> Option<u8> {
    if viewed.part.changed || named_file(viewed.output).is_some() {
        return None;
    }
    let spelling = Spelling::of(viewed.form.separator, viewed.form.decimal)?;
    let mut plain = plain_of(rt, names)?;
    let border = border_in(rt, &plain).ok()?;
    if !viewed.part.strict && !is_meant(rt, &plain, border).ok()? {
        return None;
    }
    if spell(rt.alloc(), &mut plain.file, viewed.part.encoding)?.is_err() {
        return Some(out_of_memory(rt));
    }
    note_bytes(rt, is_watched, plain.bytes);
    Some(put_plain(rt, &plain, border, spelling, viewed.part))
}
