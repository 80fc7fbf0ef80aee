//! The answer to `take`: a record with its two files.

ghost use Rattle.std.specs.Prelude.{◌≡◌, ◌++◌, [], OnOk, OnErr, Ok, codes};
ghost use Rattle.dfr_recorder.specs.Steps as step;
ghost use Rattle.dfr_program.specs.Answering.{PrintsStep};
ghost use Rattle.dfr_program.specs.Texts as spec;
ghost use Rattle.dfr_program.specs.Writing.{Printed};

use crate::answers::{put_extent, put_length};
use crate::fault::RunFault;
use crate::output::{is_much, send, write_out};
use comtrade_values::put;
use comtrade_write::{Kind, Pair, pair_of};
use dfr_recorder::{Extent, Recorder};
use std::alloc::{AllocError, Allocator};
use std::io::Write;

/// Appends what comes before the bytes of the data file.
#[tactic(auto, unfolding(crate::specs::Texts::front_text))]
fn put_front<A: Allocator>(
    line: &mut Vec<u8, A>,
    extent: Extent,
    pair: &Pair<A>,
) -> Result<(), AllocError>
    ensures { OnOk result (line.new.items ≡ line.old.items
        ++ spec.front_text extent pair.now.cfg.items pair.now.dat.items) }
{
    put_extent(line, extent)?;
    put_length(line, "cfg ", pair.cfg.len())?;
    line.extend_from_slice(&pair.cfg)?;
    put_length(line, "dat ", pair.dat.len())
}

/// Buffers `line`, the bytes of the data file, and a line end: all of it or nothing.
fn buffer_record<A: Allocator>(
    out: &mut Vec<u8, A>,
    line: &mut Vec<u8, A>,
    dat: &[u8],
) -> Result<(), AllocError>
    ensures text { OnOk result (out.new.items ≡ out.old.items
        ++ (line.old.items ++ dat.now ++ codes "\n")) }
    ensures same { OnErr result (out.new.items ≡ out.old.items) }
{
    line.extend_from_slice(dat)?;
    put(line, "\n")?;
    out.extend_from_slice(line)
}

/// Writes the buffer, `line`, the bytes of the data file, and a line end. It does not copy the
/// bytes of the data file.
fn write_record<A: Allocator, W: Write>(
    w: &mut W,
    out: &mut Vec<u8, A>,
    line: &[u8],
    dat: &[u8],
) -> Result<(), RunFault>
    ensures { Printed result (W.contents w.old) out.old.items
        (W.contents w.new) out.new.items (line.now ++ dat.now ++ codes "\n") }
{
    out.extend_from_slice(line)?;
    send(w, out)?;
    write_out(w, dat)?;
    write_out(w, "\n".as_bytes())
}

/// Prints a taken record and its two files.
fn print_record<A: Allocator, W: Write>(
    extent: Extent,
    pair: &Pair<A>,
    w: &mut W,
    out: &mut Vec<u8, A>,
    line: &mut Vec<u8, A>,
) -> Result<(), RunFault>
    requires { line.old.items ≡ [] }
    ensures { Printed result (W.contents w.old) out.old.items (W.contents w.new) out.new.items
        (spec.record_text extent pair.now.cfg.items pair.now.dat.items) }
{
    put_front(line, extent, pair)?;
    if is_much(pair.dat.len()) {
        return write_record(w, out, line, &pair.dat);
    }
    buffer_record(out, line, &pair.dat)?;
    Ok(())
}

/// Takes the oldest finished record, and prints it; `take none` where none waits.
pub(crate) fn answer_take<A: Allocator + Copy, W: Write>(
    alloc: A,
    recorder: &mut Recorder<A>,
    kind: Kind,
    w: &mut W,
    out: &mut Vec<u8, A>,
    line: &mut Vec<u8, A>,
) -> Result<(), RunFault>
    requires { line.old.items ≡ [] }
    ensures { PrintsStep result kind recorder.old (Ok step.Take) recorder.new
        (W.contents w.old) out.old.items (W.contents w.new) out.new.items }
{
    match recorder.take() {
        Some(record) => {
            let pair = pair_of(alloc, recorder.layout(), &record, kind)?;
            print_record(record.extent(), &pair, w, out, line)
        }
        None => {
            out.extend_from_slice("take none\n".as_bytes())?;
            Ok(())
        }
    }
}
