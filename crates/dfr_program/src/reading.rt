//! Reads a pair of files, and prints what is in it.

#![tactic(auto, using(crate::proofs::Growing::growing))]

ghost use Rattle.std.specs.Prelude.{◌≡◌, ◌≢◌, ◌++◌, codes, length, true, false, Err, OnOk, IfOk, IfErr};
ghost use Rattle.std.specs.Io.KnownBytes.{Appends};
ghost use Rattle.dfr_program.specs.Pairs.{PrintsPair, CutsPair};
ghost use Rattle.dfr_program.specs.ReadTexts as spec;
ghost use Rattle.dfr_program.specs.Writing.{Cut};

use crate::fault::RunFault;
use crate::output::write_out;
use comtrade_read::{Part, ReadFault, read};
use comtrade_values::{put, put_number, put_with};
use comtrade_write::{File, Head, Row};
use std::alloc::{AllocError, Allocator};
use std::io::Write;

#[tactic(auto, unfolding(crate::specs::ReadTexts::line_text))]
fn put_line<A: Allocator>(out: &mut Vec<u8, A>, name: &str, text: &[u8]) -> Result<(), AllocError>
    ensures { OnOk result (out.new.items ≡ out.old.items ++ spec.line_text name.now text.now) }
{
    put(out, name)?;
    out.extend_from_slice(text)?;
    put(out, "\n")
}

fn put_names<A: Allocator>(out: &mut Vec<u8, A>, head: &Head<A>) -> Result<(), AllocError>
    ensures { OnOk result (out.new.items ≡ out.old.items
        ++ (spec.line_text (codes "station ") head.now.station
        ++ spec.line_text (codes "device ") head.now.device)) }
{
    put_line(out, "station ", head.station.items())?;
    put_line(out, "device ", head.device.items())
}

/// Appends the numbers of analogue and status channels.
#[tactic(auto, unfolding(crate::specs::ReadTexts::channels_text))]
fn put_channels<A: Allocator>(out: &mut Vec<u8, A>, head: &Head<A>) -> Result<(), AllocError>
    ensures { OnOk result (out.new.items ≡ out.old.items ++ spec.channels_text head.now) }
{
    put_with(out, "analog ", head.analog.items().len() as u64)?;
    put_with(out, " status ", head.status.items().len() as u64)
}

/// Appends the number of rows, and a line end.
#[tactic(auto, unfolding(crate::specs::ReadTexts::rows_text))]
fn put_rows<A: Allocator>(out: &mut Vec<u8, A>, rows: &[Row<A>]) -> Result<(), AllocError>
    ensures { OnOk result (out.new.items ≡ out.old.items ++ spec.rows_text (length rows.now)) }
{
    put_with(out, " rows ", rows.len() as u64)?;
    put(out, "\n")
}

/// Appends the instants of the first row and of the trigger, in microseconds since
/// 1970-01-01 00:00:00.
#[tactic(auto, unfolding(crate::specs::ReadTexts::instants_text))]
fn put_instants<A: Allocator>(out: &mut Vec<u8, A>, head: &Head<A>) -> Result<(), AllocError>
    ensures { OnOk result (out.new.items ≡ out.old.items ++ spec.instants_text head.now) }
{
    put(out, "first ")?;
    put_number(out, head.first)?;
    put(out, " trigger ")?;
    put_number(out, head.trigger)?;
    put(out, "\n")
}

/// Appends the names, the numbers of channels and rows, and the two instants.
#[tactic(auto, unfolding(crate::specs::ReadTexts::file_text))]
fn put_file<A: Allocator>(out: &mut Vec<u8, A>, file: &File<A>) -> Result<(), AllocError>
    ensures { OnOk result (out.new.items ≡ out.old.items ++ spec.file_text file.now) }
{
    put_names(out, &file.head)?;
    put_channels(out, &file.head)?;
    put_rows(out, file.rows.items())?;
    put_instants(out, &file.head)
}

/// Appends the word of an error, with its line and field. `Memory` has no word.
fn put_word<A: Allocator>(out: &mut Vec<u8, A>, fault: ReadFault) -> Result<(), AllocError>
    ensures text { OnOk result (out.new.items ≡ out.old.items ++ spec.word_text fault) }
    ensures named { OnOk result (fault ≢ ReadFault.Memory) }
{
    match fault {
        ReadFault::Revision => put(out, "revision"),
        ReadFault::Fields(line) => put_with(out, "fields ", line),
        ReadFault::Number(line, field) => {
            put_with(out, "number ", line)?;
            put_with(out, " ", u64::from(field))
        }
        ReadFault::Counts(line) => put_with(out, "counts ", line),
        ReadFault::Instant(line) => put_with(out, "instant ", line),
        ReadFault::Kind => put(out, "kind"),
        ReadFault::Missing(line) => put_with(out, "missing ", line),
        ReadFault::Extra(line) => put_with(out, "extra ", line),
        ReadFault::Length => put(out, "length"),
        ReadFault::Memory => Err(AllocError),
    }
}

fn put_part<A: Allocator>(out: &mut Vec<u8, A>, part: Part) -> Result<(), AllocError>
    ensures { OnOk result (out.new.items ≡ out.old.items ++ spec.part_text part) }
{
    match part {
        Part::Cfg => put(out, "cfg fault "),
        Part::Dat => put(out, "dat fault "),
    }
}

#[tactic(auto, unfolding(crate::specs::ReadTexts::read_fault_text))]
fn put_read_fault<A: Allocator>(
    out: &mut Vec<u8, A>,
    part: Part,
    fault: ReadFault,
) -> Result<(), AllocError>
    ensures text { OnOk result (out.new.items ≡ out.old.items ++ spec.read_fault_text part fault) }
    ensures named { OnOk result (fault ≢ ReadFault.Memory) }
{
    put_part(out, part)?;
    put_word(out, fault)?;
    put(out, "\n")
}

/// Prints what is in a pair of files.
fn print_file<A: Allocator, W: Write>(alloc: A, file: &File<A>, w: &mut W) -> Result<bool, RunFault>
    ensures text { OnOk result
        (Appends (W.contents w.old) (W.contents w.new) (spec.file_text file.now)) }
    ensures output { result ≡ Err RunFault.Output →
        Cut (W.contents w.old) (W.contents w.new) (spec.file_text file.now) }
    ensures memory { result ≡ Err RunFault.Memory → w.new ≡ w.old }
    ensures whole { IfOk result (λ done. done ≡ true) }
    ensures fault { IfErr result (λ fault. fault ≢ RunFault.Input) }
{
    let mut out = Vec::new(alloc);
    put_file(&mut out, file)?;
    write_out(w, &out)?;
    Ok(true)
}

/// Prints why a pair could not be read.
fn print_read_fault<A: Allocator, W: Write>(
    alloc: A,
    part: Part,
    fault: ReadFault,
    w: &mut W,
) -> Result<bool, RunFault>
    ensures text { OnOk result
        (Appends (W.contents w.old) (W.contents w.new) (spec.read_fault_text part fault)) }
    ensures output { result ≡ Err RunFault.Output → (fault ≢ ReadFault.Memory)
        × Cut (W.contents w.old) (W.contents w.new) (spec.read_fault_text part fault) }
    ensures memory { result ≡ Err RunFault.Memory → w.new ≡ w.old }
    ensures none { IfOk result (λ done. (done ≡ false) × (fault ≢ ReadFault.Memory)) }
    ensures fault { IfErr result (λ fault. fault ≢ RunFault.Input) }
{
    let mut out = Vec::new(alloc);
    put_read_fault(&mut out, part, fault)?;
    write_out(w, &out)?;
    Ok(false)
}

/// Reads a configuration file and its data file. Returns true where both were read, and printed
/// what is in them: four lines, as `cases/dfr/read` shows. Returns false where the pair is not
/// valid, and printed the line of its first error.
///
/// - `Output`: a write failed. Only part of the text was written.
/// - `Memory`: an allocation failed. Nothing was written.
///
/// It never returns `Input`.
pub fn read_over<A: Allocator + Copy, W: Write>(
    alloc: A,
    cfg: &[u8],
    dat: &[u8],
    w: &mut W,
) -> Result<bool, RunFault>
    ensures printed { IfOk result (λ done.
        PrintsPair cfg.now dat.now done (W.contents w.old) (W.contents w.new)) }
    ensures output { result ≡ Err RunFault.Output →
        CutsPair cfg.now dat.now (W.contents w.old) (W.contents w.new) }
    ensures memory { result ≡ Err RunFault.Memory → w.new ≡ w.old }
    ensures fault { IfErr result (λ fault. fault ≢ RunFault.Input) }
{
    match read(alloc, cfg, dat) {
        Ok(file) => print_file(alloc, &file, w),
        Err((part, fault)) => print_read_fault(alloc, part, fault, w),
    }
}
