//! Checks whether a pair of files can be read.

ghost use Rattle.std.specs.Prelude.{◌≡◌, None, IfOk, IfSome};
ghost use Rattle.comtrade_read.specs.Verdicts.{IsFile, IsFaultyPair};

use crate::fault::ReadFault;
use crate::pair::{Part, read};
use comtrade_values::Memory;
use std::alloc::Allocator;
use thiserror::Error;

/// The first error of a pair, and the file that has it.
#[derive(Clone, Copy, Debug, PartialEq, Eq, Error)]
#[error("{part}: {fault}")]
pub struct Fault {
    /// The file with the error.
    pub part: Part,
    /// The error.
    pub fault: ReadFault,
}

/// The first error of a pair, or None if the pair can be read. The configuration file comes first.
/// `Memory`: an allocation failed.
pub fn verdict_of<A: Allocator + Copy>(
    alloc: A,
    cfg: &[u8],
    dat: &[u8],
) -> Result<Option<Fault>, Memory>
    ensures sound { IfOk result (λ found. found ≡ None → IsFile cfg.now dat.now) }
    ensures faulty { IfOk result (λ found. IfSome found (λ x. IsFaultyPair cfg.now dat.now x.part x.fault)) }
{
    match read(alloc, cfg, dat) {
        Ok(_file) => Ok(None),
        Err((_, ReadFault::Memory)) => Err(Memory),
        Err((part, fault)) => Ok(Some(Fault { part, fault })),
    }
}
