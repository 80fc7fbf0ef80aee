//! Converts a pair of files to another kind of data.

ghost use Rattle.std.specs.Prelude.{◌≡◌, IfOk, IfErr};
ghost use Rattle.comtrade_values.specs.Faults.{◌or◌};
ghost use Rattle.comtrade_format.specs.Data.{dat_refusal};
ghost use Rattle.comtrade_format.specs.Refusals.{Fails, cfg_refusal};
ghost use Rattle.comtrade_read.specs.Reads.{Reads};
ghost use Rattle.comtrade_read.specs.Conversions.{Converts, of_kind, refuses};

use crate::fault::ReadFault;
use crate::laws::file_reads_back;
use crate::pair::read;
use crate::verdict::Fault;
use comtrade_format::{File, Kind, WriteFault, cfg_bytes, dat_bytes};
use std::alloc::Allocator;
use thiserror::Error;

/// The bytes of a configuration file and its data file.
#[derive(Drop)]
pub struct Written<A: Allocator> {
    /// The configuration file.
    pub cfg: Vec<u8, A>,
    /// The data file.
    pub dat: Vec<u8, A>,
}

/// Why a pair can't be converted.
#[derive(Clone, Copy, Debug, PartialEq, Eq, Error)]
pub enum ConvertFault {
    /// The pair can't be read: its first error.
    #[error("{0}")]
    Read(Fault),
    /// Files of this kind can't hold the content: the writers' first error.
    #[error("{0}")]
    Write(WriteFault),
    /// An allocation failed.
    #[error("out of memory")]
    Memory,
}

/// The same file with data of this kind.
fn with_kind<A: Allocator>(file: File<A>, kind: Kind) -> File<A>
    ensures { result ≡ of_kind kind file }
{
    let File { mut head, rows } = file;
    head.kind = kind;
    File { head, rows }
}

/// Writes both files of a `File`; they read back to it. Errors: those of `cfg_bytes`, else those of
/// `dat_bytes`. `Memory` (an allocation failed) can replace both.
pub fn written_of<A: Allocator + Copy>(alloc: A, file: &File<A>) -> Result<Written<A>, WriteFault>
    ensures reads { IfOk result (λ pair. Reads pair.cfg.items pair.dat.items file.now) }
    ensures fault { IfErr result (λ e. Fails e (cfg_refusal file.now or dat_refusal file.now.head.kind file.now)) }
{
    file_reads_back(file);
    let cfg = match cfg_bytes(alloc, file) {
        Ok(cfg) => cfg,
        Err(fault) => return Err(fault),
    };
    let dat = match dat_bytes(alloc, file) {
        Ok(dat) => dat,
        Err(fault) => return Err(fault),
    };
    Ok(Written { cfg, dat })
}

/// Converts a pair to this kind of data. The new pair reads to the same `File`, except for the
/// kind. Errors: `Read` if the pair can't be read, `Write` if the writers reject its content in
/// this kind, `Memory` if an allocation failed.
pub fn converted<A: Allocator + Copy>(
    alloc: A,
    cfg: &[u8],
    dat: &[u8],
    kind: Kind,
) -> Result<Written<A>, ConvertFault>
    ensures reads { IfOk result (λ pair. Converts cfg.now dat.now kind pair.cfg.items pair.dat.items) }
    ensures fault { IfErr result (refuses cfg.now dat.now kind) }
{
    let file = match read(alloc, cfg, dat) {
        Ok(file) => file,
        Err((_, ReadFault::Memory)) => return Err(ConvertFault::Memory),
        Err((part, fault)) => return Err(ConvertFault::Read(Fault { part, fault })),
    };
    let file = with_kind(file, kind);
    match written_of(alloc, &file) {
        Ok(pair) => Ok(pair),
        Err(fault) => match fault {
            WriteFault::Memory => Err(ConvertFault::Memory),
            _ => Err(ConvertFault::Write(fault)),
        },
    }
}
