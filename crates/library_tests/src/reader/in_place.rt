//! Rows read in place, and the same rows read into a `File`.

use crate::samples::{ASCII_CFG, pair_in};
use comtrade_read::{read, read_cfg};
use comtrade_table::{BinaryTable, TableFault};
use comtrade_write::{File, Kind, Row};
use dfr_channels::Reading;
use std::alloc::Global;

/// Two rows of two analogue channels and seventeen contacts, bytes written by hand from the
/// standard: the number, no stamp or a stamp, 258 and a missing value, and contacts 1 and 17; then
/// -2 and 32767, and contact 16.
const WIDE_CFG: &[u8] =
    b"Bay 1,DFR,1999\n19,2A,17D\n1,IA,A,,A,1,0,0,-32767,32767,1,1,P\n2,IB,B,,A,1,0,0,-32767,32767,1,1,P\n1,T,,,0\n2,T,,,0\n3,T,,,0\n4,T,,,0\n5,T,,,0\n6,T,,,0\n7,T,,,0\n8,T,,,0\n9,T,,,0\n10,T,,,0\n11,T,,,0\n12,T,,,0\n13,T,,,0\n14,T,,,0\n15,T,,,0\n16,T,,,0\n17,T,,,0\n50\n1\n1000,2\n01/01/1970,0:0:0\n01/01/1970,0:0:0\nBINARY\n1";

const WIDE_DAT: &[u8] =
    b"\x01\0\0\0\xFF\xFF\xFF\xFF\x02\x01\x00\x80\x01\x00\x01\x00\x02\0\0\0\xE8\x03\0\0\xFE\xFF\xFF\x7F\x00\x80\x00\x00";

fn is_same_row(table: &BinaryTable, row: usize, read: &Row) -> bool {
    let values = read.values.items();
    let bits = read.bits.items();
    table.number(row) == Some(read.number)
        && table.stamp(row) == read.stamp
        && (0..values.len() + 1).all(|i| table.reading(row, i) == values.get(i).copied())
        && (0..bits.len() + 1).all(|i| table.state(row, i) == bits.get(i).copied())
}

/// Whether the table has the rows of the file, and no more.
fn is_same(table: &BinaryTable, file: &File) -> bool {
    let rows = file.rows.items();
    table.len() == rows.len()
        && table.number(rows.len()).is_none()
        && rows
            .iter()
            .enumerate()
            .all(|(row, read)| is_same_row(table, row, read))
}

fn are_same(alloc: Global, cfg: &[u8], dat: &[u8]) -> bool {
    let Ok(file) = read(alloc, cfg, dat) else {
        return false;
    };
    match BinaryTable::of(&file.head, dat) {
        Ok(table) => is_same(&table, &file),
        Err(_) => false,
    }
}

#[test]
fn a_table_has_the_rows_of_the_file(rt: HostRuntime) {
    let pair = pair_in(Kind::Binary);
    assert!(rt; are_same(rt.alloc(), pair.cfg, pair.dat));
    assert!(rt; are_same(rt.alloc(), WIDE_CFG, WIDE_DAT));
}

fn wide_is_right(alloc: Global) -> bool {
    let Ok(head) = read_cfg(alloc, WIDE_CFG) else {
        return false;
    };
    let Ok(table) = BinaryTable::of(&head, WIDE_DAT) else {
        return false;
    };
    table.reading(0, 0) == Some(Reading::Value(258))
        && table.reading(0, 1) == Some(Reading::Missing)
        && table.reading(1, 0) == Some(Reading::Value(-2))
        && table.reading(1, 1) == Some(Reading::Value(32_767))
        && table.reading(1, 2).is_none()
        && table.stamp(0).is_none()
        && table.stamp(1) == Some(1000)
        && table.state(0, 0) == Some(true)
        && table.state(0, 16) == Some(true)
        && table.state(1, 15) == Some(true)
        && table.state(1, 0) == Some(false)
        && table.state(1, 17).is_none()
}

#[test]
fn values_of_bytes_written_by_hand(rt: HostRuntime) {
    assert!(rt; wide_is_right(rt.alloc()));
}

fn fault_of(alloc: Global, cfg: &[u8], dat: &[u8]) -> Option<TableFault> {
    match read_cfg(alloc, cfg) {
        Ok(head) => BinaryTable::of(&head, dat).err(),
        Err(_) => None,
    }
}

#[test]
fn faults_have_names(rt: HostRuntime) {
    let alloc = rt.alloc();
    assert!(rt; fault_of(alloc, ASCII_CFG, WIDE_DAT) == Some(TableFault::Ascii));
    assert!(rt; fault_of(alloc, WIDE_CFG, &WIDE_DAT[1..]) == Some(TableFault::Length));
    assert!(rt; fault_of(alloc, WIDE_CFG, WIDE_DAT).is_none());
}
