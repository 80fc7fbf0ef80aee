//! Builds the bytes of a configuration file and of its data file.

ghost use Rattle.std.specs.Prelude.{◌≡◌, ◌<◌, None, true, IfOk};
ghost use Rattle.comtrade_format.specs.Refusals as refusals;
ghost use Rattle.comtrade_format.specs.Refusals.{Answers, GivesText, cfg_refusal, data_refusal, rows_refusal};
ghost use Rattle.comtrade_format.specs.Shape as shapes;
ghost use Rattle.comtrade_format.specs.Shape.{head_shaped};
ghost use Rattle.comtrade_format.specs.Cfg.{cfg};
ghost use Rattle.comtrade_format.specs.Ascii.{ascii};
ghost use Rattle.comtrade_format.specs.Binary.{binary};
ghost use Rattle.comtrade_format.specs.Data.{dat, dat_refusal};

use crate::bounds::{Bounds, ascii_bounds, binary_bounds};
use crate::cfg::put_head;
use crate::checks::rows_fault;
use crate::fault::WriteFault;
use crate::file::{File, Head, Kind, Row};
use crate::parts::{analog_of, head_of, kind_of, rows_of, status_of};
use crate::shape::is_shaped;
use crate::texts::first_text;
use crate::{rows_ascii, rows_binary};
use std::alloc::{AllocError, Allocator};

fn cfg_text<A: Allocator + Copy>(alloc: A, head: &Head<A>) -> Result<Vec<u8, A>, AllocError>
    requires { head_shaped head.now ≡ true }
    ensures { IfOk result (λ v. v.items ≡ cfg head.now) }
{
    let mut out = Vec::new(alloc);
    put_head(&mut out, head)?;
    Ok(out)
}

fn cfg_fault<A: Allocator>(file: &File<A>) -> Option<WriteFault>
    ensures { result ≡ cfg_refusal file.now }
{
    if !is_shaped(file) {
        return Some(WriteFault::Shape);
    }
    first_text(head_of(file))
}

/// The bytes of the configuration file (C37.111-1999, clause 5). Errors: `Shape`, else the first
/// `Text`; `Memory` if an allocation failed.
pub fn cfg_bytes<A: Allocator + Copy>(alloc: A, file: &File<A>) -> Result<Vec<u8, A>, WriteFault>
    ensures { Answers (λ v. v.items) result (cfg_refusal file.now) (cfg file.now.head) }
{
    if let Some(fault) = cfg_fault(file) {
        return Err(fault);
    }
    Ok(cfg_text(alloc, head_of(file))?)
}

fn data_fault<A: Allocator>(m: Bounds, file: &File<A>) -> Option<WriteFault>
    ensures { result ≡ data_refusal m file.now }
{
    if !is_shaped(file) {
        return Some(WriteFault::Shape);
    }
    let head = head_of(file);
    rows_fault(
        m,
        analog_of(head).len(),
        status_of(head).len(),
        rows_of(file),
    )
}

/// The most bytes that `rows` rows of k values and n bits take, with the byte that ends them. A row
/// has 24 for number, stamp and line end, 7 for each value and 2 for each bit.
fn ascii_size(k: usize, n: usize, rows: usize) -> usize
    requires many { k < 1000000 }
    requires few { n < 1000000 }
{
    (24 + 7 * k + 2 * n).saturating_mul(rows).saturating_add(1)
}

/// The rows in ASCII form; None if one of them is out of range.
fn ascii_text<A: Allocator + Copy>(
    alloc: A,
    file: &File<A>,
) -> Result<Option<Vec<u8, A>>, AllocError>
    requires { shapes.is_shaped file.now ≡ true }
    ensures { IfOk result (λ text. GivesText (λ v. v.items) text (rows_refusal refusals.ascii_bounds file.now.rows) (ascii file.now.rows)) }
{
    let head = head_of(file);
    let (k, n) = (analog_of(head).len(), status_of(head).len());
    let mut out = Vec::with_capacity(alloc, ascii_size(k, n, rows_of(file).len()))?;
    let all = rows_ascii::put_rows(&mut out, k, n, rows_of(file))?;
    out.extend_from_slice(b"\x1A")?;
    if all { Ok(Some(out)) } else { Ok(None) }
}

/// The bytes of the data file in ASCII form (C37.111-1999, clause 6), whatever kind the head
/// names. Errors: `Shape`, else the first `Value`, else the first `Stamp`; `Memory` if an
/// allocation failed.
pub fn ascii_bytes<A: Allocator + Copy>(alloc: A, file: &File<A>) -> Result<Vec<u8, A>, WriteFault>
    ensures { Answers (λ v. v.items) result (data_refusal refusals.ascii_bounds file.now) (ascii file.now.rows) }
{
    if !is_shaped(file) {
        return Err(WriteFault::Shape);
    }
    if let Some(text) = ascii_text(alloc, file)? {
        return Ok(text);
    }
    match data_fault(ascii_bounds(), file) {
        Some(fault) => Err(fault),
        None => unreachable!(),
    }
}

/// The bytes that `rows` rows of k values and n bits take.
fn binary_size(k: usize, n: usize, rows: usize) -> usize
    requires many { k < 1000000 }
    requires few { n < 1000000 }
{
    (8 + 2 * k + 2 * ((n + 15) / 16)).saturating_mul(rows)
}

/// The rows in BINARY form; None if one of them is out of range.
fn binary_text<A: Allocator + Copy>(
    alloc: A,
    file: &File<A>,
) -> Result<Option<Vec<u8, A>>, AllocError>
    requires { shapes.is_shaped file.now ≡ true }
    ensures { IfOk result (λ text. GivesText (λ v. v.items) text (rows_refusal refusals.binary_bounds file.now.rows) (binary file.now.rows)) }
{
    let head = head_of(file);
    let (k, n) = (analog_of(head).len(), status_of(head).len());
    let mut out = Vec::with_capacity(alloc, binary_size(k, n, rows_of(file).len()))?;
    let all = rows_binary::put_rows(&mut out, k, n, rows_of(file))?;
    if all { Ok(Some(out)) } else { Ok(None) }
}

/// The bytes of the data file in BINARY form (C37.111-1999, clause 6), whatever kind the head
/// names. Errors: as for `ascii_bytes`, within the limits of BINARY data.
pub fn binary_bytes<A: Allocator + Copy>(alloc: A, file: &File<A>) -> Result<Vec<u8, A>, WriteFault>
    ensures { Answers (λ v. v.items) result (data_refusal refusals.binary_bounds file.now) (binary file.now.rows) }
{
    if !is_shaped(file) {
        return Err(WriteFault::Shape);
    }
    if let Some(text) = binary_text(alloc, file)? {
        return Ok(text);
    }
    match data_fault(binary_bounds(), file) {
        Some(fault) => Err(fault),
        None => unreachable!(),
    }
}

/// The bytes of the data file in the form that the head's kind names (C37.111-1999, clause 6).
/// Errors: those of `ascii_bytes` or of `binary_bytes`.
pub fn dat_bytes<A: Allocator + Copy>(alloc: A, file: &File<A>) -> Result<Vec<u8, A>, WriteFault>
    ensures { Answers (λ v. v.items) result (dat_refusal file.now.head.kind file.now) (dat file.now.head.kind file.now) }
{
    match kind_of(head_of(file)) {
        Kind::Ascii => ascii_bytes(alloc, file),
        Kind::Binary => binary_bytes(alloc, file),
    }
}
