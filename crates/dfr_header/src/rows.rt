//! The rows of a data file in which each sample is missing: those of lost scans, and those of scans
//! that came without a sample.

ghost use Rattle.std.specs.Prelude.{◌≡◌, ◌==◌, ◌<◌, ◌≤◌, length, drop, position, IfOk, IfSome};
ghost use Rattle.std.specs.List.{repeat, count_by};
ghost use Rattle.comtrade_values.specs.Lines.{cut_lines};
ghost use Rattle.dfr_header.specs.Rows as spec;

use comtrade_format::Kind;
use comtrade_values::Lines;
use std::alloc::{AllocError, Allocator};

/// The bytes of `one`, `count` times.
fn repeated<A: Allocator>(alloc: A, one: &[u8], count: usize) -> Result<Vec<u8, A>, AllocError>
    ensures { IfOk result (λ all. all.items ≡ repeat count one.now) }
{
    let mut all = Vec::new(alloc);
    for _ in 0..count {
        all.extend_from_slice(one)?;
    }
    Ok(all)
}

/// The place of the first comma.
fn comma_in(text: &[u8]) -> Option<usize>
    ensures place { result ≡ position (λ b. b == 44) text.now }
    ensures within { IfSome result (λ at. at < length text.now) }
{
    text.iter().position(|b| *b == b',')
}

/// A text from its first comma on.
fn from_comma(text: &[u8]) -> &[u8]
    ensures { result.now ≡ spec.from_comma text.now }
{
    match comma_in(text) {
        Some(at) => &text[at..],
        None => &[],
    }
}

/// A text without its first byte.
fn behind_first(text: &[u8]) -> &[u8]
    ensures { result.now ≡ drop 1 text.now }
{
    match text {
        [_, rest @ ..] => rest,
        [] => text,
    }
}

/// Whether each sample is missing in a line of ASCII data.
fn is_empty_line(missing: &[u8], line: &[u8]) -> bool
    ensures { result ≡ spec.is_empty_line missing.now line.now }
{
    let stamp = behind_first(from_comma(line));
    from_comma(stamp).starts_with(missing)
}

/// Whether each sample is missing in a row of BINARY data.
fn is_empty_row(missing: &[u8], row: &[u8]) -> bool
    requires { 8 ≤ length row.now }
    ensures { result ≡ spec.is_empty_row missing.now row.now }
{
    row[8..].starts_with(missing)
}

/// How many lines of ASCII data have no sample.
fn empty_lines(missing: &[u8], dat: &[u8]) -> u64
    ensures { result ≡ count_by (spec.is_empty_line missing.now) (cut_lines dat.now) }
{
    Lines::of(dat)
        .filter(|line| is_empty_line(missing, line))
        .count() as u64
}

/// How many rows of BINARY data have no sample, each of `size` bytes.
#[tactic(auto, using(crate::proofs::EmptyRows::no_row, crate::proofs::EmptyRows::one_row))]
fn empty_rows(size: usize, missing: &[u8], dat: &[u8]) -> u64
    requires { 8 ≤ size }
    ensures { result ≡ spec.empty_rows size missing.now dat.now (length dat.now) }
{
    let mut left = dat;
    let mut count = 0;
    for row in 0..dat.len() {
        if left.len() < size {
            return count;
        }
        let (first, rest) = left.split_at(size);
        if is_empty_row(missing, first) {
            count += 1;
        }
        left = rest;
    }
    count
}

/// In how many rows of a data file each sample is missing (C37.111-1999, clause 6): 99999 in ASCII
/// data, 8000 (hexadecimal) in BINARY data. Rows have `samples` samples and `bits` bits. None if they
/// have no sample. `AllocError`: an allocation failed.
pub fn rows_without_samples<A: Allocator>(
    alloc: A,
    kind: Kind,
    samples: usize,
    bits: usize,
    dat: &[u8],
) -> Result<Option<u64>, AllocError>
    requires few { (samples ≤ 1_000_000) × (bits ≤ 1_000_000) }
    ensures { IfOk result (λ rows. rows ≡ spec.rows_without_samples kind samples bits dat.now) }
{
    if samples == 0 {
        return Ok(None);
    }
    Ok(Some(match kind {
        Kind::Ascii => empty_lines(&repeated(alloc, b",99999", samples)?, dat),
        Kind::Binary => {
            let size = 8 + 2 * samples + 2 * ((bits + 15) / 16);
            empty_rows(size, &repeated(alloc, &[0, 128], samples)?, dat)
        }
    }))
}
