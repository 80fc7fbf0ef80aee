//! The two texts of a file, with a contract: they read back to that file.

ghost use Rattle.std.specs.Prelude.{IfOk, IfErr};
ghost use Rattle.comtrade_values.specs.Faults.{◌or◌};
ghost use Rattle.comtrade_format.specs.Data.{dat_refusal};
ghost use Rattle.comtrade_format.specs.Refusals.{Fails, cfg_refusal};
ghost use Rattle.comtrade_read.specs.Reads.{Reads};

use comtrade_format::{File, WriteFault, cfg_bytes, dat_bytes};
use comtrade_read::file_reads_back;
use std::alloc::Global;

/// A configuration file and its data file.
#[derive(Drop)]
pub struct Texts {
    /// The text of the configuration file.
    pub cfg: Vec<u8>,
    /// The bytes of the data file.
    pub dat: Vec<u8>,
}

/// Returns the two texts of a file. By the contract the reader gets exactly that file from them; or
/// the error is the first refusal of the writers. A wrong body, such as data of another kind, would
/// not be proved.
pub fn texts_of(alloc: Global, file: &File) -> Result<Texts, WriteFault>
    ensures read { IfOk result (λ texts. Reads texts.cfg.items texts.dat.items file.now) }
    ensures refused { IfErr result (λ fault.
        Fails fault (cfg_refusal file.now or dat_refusal file.now.head.kind file.now)) }
{
    file_reads_back(file);
    let cfg = cfg_bytes(alloc, file)?;
    let dat = dat_bytes(alloc, file)?;
    Ok(Texts { cfg, dat })
}
