//! Data under a head without rates, which no configuration file reads to.

ghost use Rattle.std.specs.Prelude.{◌+◌, ◌<◌, length, IfSome};

use super::same::is_same;
use crate::samples::FIRST_CFG;
use comtrade_read::{ReadFault, read_cfg, read_dat};
use comtrade_write::Head;
use dfr_channels::Items;
use std::alloc::Global;

/// The head of the configuration file, without its rates.
fn without_rates(alloc: Global) -> Option<Head>
    ensures { IfSome result (λ head. length head.analog + length head.status < 1000000) }
{
    let mut head = read_cfg(alloc, FIRST_CFG).ok()?;
    head.rates = Items::of(Vec::new(alloc));
    Some(head)
}

/// How many rows the data read to under a head without rates.
fn rows_without_rates(alloc: Global, dat: &[u8]) -> Option<usize> {
    match read_dat(alloc, without_rates(alloc)?, dat) {
        Ok(file) => {
            let count = file.rows.items().len();
            drop(file);
            Some(count)
        }
        Err((_, back)) => {
            drop(back);
            None
        }
    }
}

/// The fault, where the head comes back as it was.
fn fault_without_rates(alloc: Global, dat: &[u8], head: &Head) -> Option<ReadFault> {
    match read_dat(alloc, without_rates(alloc)?, dat) {
        Ok(file) => {
            drop(file);
            None
        }
        Err((fault, back)) => {
            let same = is_same(alloc, &back, head);
            drop(back);
            same.then_some(fault)
        }
    }
}

/// The fault of a row under a head without rates.
fn fault_of_a_row(alloc: Global) -> Option<ReadFault> {
    let head = without_rates(alloc)?;
    let fault = fault_without_rates(alloc, b"1,0,11", &head);
    drop(head);
    fault
}

#[test]
fn no_rates(rt: HostRuntime) {
    assert_eq!(rt; rows_without_rates(rt.alloc(), b""), Some(0));
    assert_eq!(rt; fault_of_a_row(rt.alloc()), Some(ReadFault::Extra(1)));
}
