//! Reads a configuration file and its data file.

ghost use Rattle.std.specs.Prelude.{◌≢◌, IfOk, IfErr};
ghost use Rattle.comtrade_read.specs.declared.fault.ReadFault.TheVariants as faults;
ghost use Rattle.comtrade_read.specs.Reads.{Reads, FaultyPair, IsNoFile};

use crate::data::read_dat;
use crate::fault::ReadFault;
use crate::head::read_cfg;
use comtrade_format::File;
use std::alloc::Allocator;
use std::fmt::{self, Display, Formatter, Write};

/// One file of a pair.
#[derive(Clone, Copy, Debug, PartialEq, Eq)]
pub enum Part {
    /// The configuration file.
    Cfg,
    /// The data file.
    Dat,
}

impl Display for Part {
    fn fmt<W: Write>(&self, f: &mut Formatter<W>) -> fmt::Result {
        f.write_str(match self {
            Part::Cfg => "the configuration file",
            Part::Dat => "the data file",
        })
    }
}

/// Reads a configuration file and its data file. An error comes with the part that has it, and is
/// the first of the pair: the data file is read only if the configuration file is valid. `Memory`:
/// an allocation failed.
pub fn read<A: Allocator + Copy>(
    alloc: A,
    cfg: &[u8],
    dat: &[u8],
) -> Result<File<A>, (Part, ReadFault)>
    ensures found { IfOk result (Reads cfg.now dat.now) }
    ensures fault { IfErr result (λ x. x.1 ≢ faults.Memory → FaultyPair cfg.now dat.now x.0 x.1) }
    ensures unread { IfErr result (λ x. x.1 ≢ faults.Memory → IsNoFile cfg.now dat.now) }
{
    match read_cfg(alloc, cfg) {
        Err(fault) => Err((Part::Cfg, fault)),
        Ok(head) => match read_dat(alloc, head, dat) {
            Ok(file) => Ok(file),
            Err((fault, _)) => Err((Part::Dat, fault)),
        },
    }
}
