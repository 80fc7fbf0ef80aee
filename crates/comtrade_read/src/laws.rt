//! Laws about reading and writing, stated as functions that do nothing.

ghost use Rattle.std.specs.Prelude.{◌≡◌, ℕ, None, List};
ghost use Rattle.comtrade_format.specs.Parts.{HeadParts};
ghost use Rattle.comtrade_format.specs.Cfg.{cfg};
ghost use Rattle.comtrade_format.specs.Data.{dat, dat_refusal};
ghost use Rattle.comtrade_format.specs.Refusals.{cfg_refusal};
ghost use Rattle.comtrade_read.specs.ReadBack.{ReadBackLaw};
ghost use Rattle.comtrade_read.specs.Reads.{ReadsHead, ReadsRows, Reads, AtMostOne};

use crate::numbers::numbers;
use comtrade_format::File;
use std::alloc::Allocator;

/// Reading is unambiguous. A configuration file reads to at most one head, data under a head to at
/// most one list of rows, and a pair to at most one file.
pub fn one_file()
    ensures head { (cfg : List ℕ) → AtMostOne (ReadsHead cfg) }
    ensures rows { (head : HeadParts) (dat : List ℕ) → AtMostOne (ReadsRows head dat) }
    ensures file { (cfg dat : List ℕ) → AtMostOne (Reads cfg dat) }
{}

/// A file that the writers accept is read back from the texts written for it.
pub fn read_back()
    ensures { ReadBackLaw }
{}

/// The law of reading back for one given file, whose type guarantees what the law needs of its
/// numbers. If the writers accept the file, the texts written for it read to it.
pub fn file_reads_back<A: Allocator>(file: &File<A>)
    ensures { cfg_refusal file.now ≡ None → dat_refusal file.now.head.kind file.now ≡ None
        → Reads (cfg file.now.head) (dat file.now.head.kind file.now) file.now }
{
    numbers(&file.head);
}
