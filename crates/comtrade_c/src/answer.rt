//! The return codes and errors of the calls.

ghost use Rattle.std.specs.Prelude.{◌≡◌, ◌≢◌, ◌<◌, ◌≤◌, ◌⊎◌, ◌+◌, IfOk, IfErr, length};
ghost use Rattle.comtrade_read.specs.Reads.{ReadsHead};
ghost use Rattle.comtrade_c.specs.Buffers as buffers;
ghost use Rattle.comtrade_c.specs.Faults as faults;

use comtrade_format::{Head, WriteFault};
use comtrade_read::{ReadFault, read_cfg};
use std::alloc::Allocator;

/// The call has done its work.
pub(crate) const DONE: i32 = 0;
/// The configuration file has an error.
pub(crate) const CFG_FAULT: i32 = 1;
/// The data file has an error.
pub(crate) const DAT_FAULT: i32 = 2;
/// No file can hold the content to be written.
pub(crate) const WRITE_FAULT: i32 = 3;
/// An allocation failed.
pub(crate) const NO_MEMORY: i32 = 4;
/// A buffer is too short, or doesn't have the length that it must have.
pub(crate) const NO_ROOM: i32 = 5;
/// There is no such channel or rate.
pub(crate) const NO_ITEM: i32 = 6;
/// An argument is not one that the call accepts.
pub(crate) const BAD_CALL: i32 = 9;
/// The files cannot be converted to a pair of 1999.
pub(crate) const REFUSED: i32 = 10;
/// The file or the samples have no such measure.
pub(crate) const NO_MEASURE: i32 = 11;

/// An error: its kind, its line or row (`place`), and its field or channel (`field`). Places and
/// fields count from 1, and are 0 if the kind has none.
#[repr(C)]
#[derive(Clone, Copy)]
pub(crate) struct Fault {
    pub place: u64,
    pub field: u32,
    pub kind: u32,
}

fn fault_at(kind: u32, place: u64, field: u32) -> Fault
    ensures { result ≡ faults.at kind place field }
{
    Fault { place, field, kind }
}

pub(crate) fn of_read(why: ReadFault) -> Fault
    ensures { result ≡ faults.of_read why }
{
    match why {
        ReadFault::Revision => fault_at(1, 1, 0),
        ReadFault::Fields(line) => fault_at(2, line, 0),
        ReadFault::Number(line, field) => fault_at(3, line, field),
        ReadFault::Counts(line) => fault_at(4, line, 0),
        ReadFault::Instant(line) => fault_at(5, line, 0),
        ReadFault::Kind => fault_at(6, 0, 0),
        ReadFault::Missing(line) => fault_at(7, line, 0),
        ReadFault::Extra(line) => fault_at(8, line, 0),
        ReadFault::Length => fault_at(9, 0, 0),
        ReadFault::Memory => fault_at(0, 0, 0),
    }
}

pub(crate) fn of_write(why: WriteFault) -> Fault
    ensures { result ≡ faults.of_write why }
{
    match why {
        WriteFault::Shape => fault_at(10, 0, 0),
        WriteFault::Text(line, field) => fault_at(11, line, field),
        WriteFault::Value(row, channel) => fault_at(12, row, channel),
        WriteFault::Stamp(row) => fault_at(13, row, 0),
        WriteFault::Memory => fault_at(0, 0, 0),
    }
}

/// Reads a configuration file. An error is the call's return code, `CFG_FAULT` or `NO_MEMORY`; with
/// `CFG_FAULT` `said` is the first error of the file, else it is unchanged.
pub(crate) fn head_of<A: Allocator + Copy>(
    alloc: A,
    cfg: &[u8],
    said: &mut Fault,
) -> Result<Head<A>, i32>
    ensures found { IfOk result (ReadsHead cfg.now) }
    ensures few { IfOk result (λ h. length h.analog + length h.status < 1000000) }
    ensures answer { IfErr result (λ a. (a ≡ CFG_FAULT) ⊎ (a ≡ NO_MEMORY)) }
    ensures fault { IfErr result (λ a. a ≡ CFG_FAULT → faults.IsHeadFault cfg.now said.new) }
    ensures kept { IfErr result (λ a. (a ≢ CFG_FAULT) → said.new ≡ said.old) }
    ensures read { IfOk result (λ _. said.new ≡ said.old) }
{
    match read_cfg(alloc, cfg) {
        Ok(head) => Ok(head),
        Err(ReadFault::Memory) => Err(NO_MEMORY),
        Err(why) => {
            *said = of_read(why);
            Err(CFG_FAULT)
        }
    }
}

/// Copies a text to the start of a buffer that has room for it.
pub(crate) fn put_front(out: &mut [u8], text: &[u8])
    requires { length text.now ≤ length out.old }
    ensures { out.new ≡ buffers.put text.now out.old }
{
    out[..text.len()].copy_from_slice(text);
}
