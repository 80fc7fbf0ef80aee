//! Writes a file and reads it back.

ghost use Rattle.std.specs.Prelude.{◌≡◌, IfOk, IfErr};
ghost use Rattle.comtrade_values.specs.Faults.{◌or◌};
ghost use Rattle.comtrade_format.specs.Cfg.{cfg};
ghost use Rattle.comtrade_format.specs.Data.{dat, dat_refusal};
ghost use Rattle.comtrade_format.specs.Refusals.{Fails, cfg_refusal};
ghost use Rattle.comtrade_read.specs.Reads.{Reads};

use crate::fault::ReadFault;
use crate::laws::file_reads_back;
use crate::pair::read;
use comtrade_format::{File, WriteFault, cfg_bytes, dat_bytes};
use std::alloc::Allocator;

/// Writes both files of a `File` and reads them back, as a host does to check what it stores. The
/// result equals `file`. Errors: those of `cfg_bytes`, else those of `dat_bytes`. `Memory` (an
/// allocation failed) can replace both.
pub fn read_of_file<A: Allocator + Copy>(alloc: A, file: &File<A>) -> Result<File<A>, WriteFault>
    ensures same { IfOk result (λ f. f ≡ file.now) }
    ensures reads { IfOk result (λ f. Reads (cfg f.head) (dat f.head.kind f) f) }
    ensures fault { IfErr result (λ e. Fails e (cfg_refusal file.now or dat_refusal file.now.head.kind file.now)) }
{
    file_reads_back(file);
    let cfg = match cfg_bytes(alloc, file) {
        Ok(cfg) => cfg,
        Err(fault) => return Err(fault),
    };
    let dat = match dat_bytes(alloc, file) {
        Ok(dat) => dat,
        Err(fault) => return Err(fault),
    };
    match read(alloc, cfg.as_slice(), dat.as_slice()) {
        Ok(again) => Ok(again),
        Err((_, fault)) => match fault {
            ReadFault::Memory => Err(WriteFault::Memory),
            _ => unreachable!(),
        },
    }
}
