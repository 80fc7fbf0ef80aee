//! The writers at their borders: the file of a record, changed in one place or two, and what they answer in place of bytes.

use crate::refused::files::file;
use crate::writer::changes::{Change, is_changed};
use comtrade_write::{File, Kind, WriteFault, ascii_bytes, binary_bytes, cfg_bytes};
use std::alloc::Global;

/// What the writers of the configuration file, of ASCII and of BINARY data answer in place of bytes.
type Faults = [Option<WriteFault>; 3];

fn faults(alloc: Global, file: &File) -> Faults {
    [
        cfg_bytes(alloc, file).err(),
        ascii_bytes(alloc, file).err(),
        binary_bytes(alloc, file).err(),
    ]
}

/// Whether the three writers answer so of the file with these changes.
fn are_faults(alloc: Global, file: &mut File, changes: &[Change], wanted: Faults) -> bool {
    for change in changes {
        if !is_changed(alloc, file, *change) {
            return false;
        }
    }
    faults(alloc, file) == wanted
}

fn is_answered(alloc: Global, changes: &[Change], wanted: Faults) -> bool {
    is_some_and!(file(alloc, Kind::Ascii), |mut file| {
        are_faults(alloc, &mut file, changes, wanted)
    })
}

/// The first row that isn't answered so.
fn first_other(alloc: Global, rows: &[(&[Change], Faults)]) -> Option<usize> {
    for (place, (changes, wanted)) in rows.iter().enumerate() {
        if !is_answered(alloc, changes, *wanted) {
            return Some(place);
        }
    }
    None
}

const WRITTEN: Faults = [None; 3];

/// A text that the configuration file can't hold, in this line and field.
const fn text(line: u64, field: u32) -> Faults {
    [Some(WriteFault::Text(line, field)), None, None]
}

/// Not a shape that the writers can hold.
const SHAPE: Faults = [Some(WriteFault::Shape); 3];

const STAMP: Option<WriteFault> = Some(WriteFault::Stamp(2));

const VALUE: Option<WriteFault> = Some(WriteFault::Value(2, 1));

#[test]
fn texts(rt: HostRuntime) {
    let rows: [(&[Change], Faults); 6] = [
        (&[], WRITTEN),
        (&[Change::Station(b"a,b")], text(1, 1)),
        (&[Change::Device(b"a,b")], text(1, 2)),
        (&[Change::Analog(b"ABC", b"A")], text(3, 3)),
        (&[Change::Analog(b"A", b"")], text(3, 5)),
        (&[Change::Status(b"ABC")], text(4, 3)),
    ];
    assert_eq!(rt; first_other(rt.alloc(), &rows), None);
}

/// The first instant of the year 1.
const FIRST: i64 = -62135596800000000;

/// The last instant of the year 9999.
const LAST: i64 = 253402300799999999;

#[test]
fn shapes(rt: HostRuntime) {
    let rows: [(&[Change], Faults); 20] = [
        (&[Change::Short], SHAPE),
        (&[Change::Nrates(2)], SHAPE),
        (&[Change::Bare(0, 0)], SHAPE),
        (&[Change::Bare(0, 1)], WRITTEN),
        (&[Change::Bare(1, 1)], WRITTEN),
        (&[Change::Rates(1000, 5, 5)], SHAPE),
        (&[Change::Rates(999, 5, 5)], WRITTEN),
        (&[Change::Short, Change::Rates(2, 5, 4)], SHAPE),
        (&[Change::Short, Change::Rates(2, 4, 4)], WRITTEN),
        (&[Change::Width(1, 1)], WRITTEN),
        (&[Change::Width(2, 1)], SHAPE),
        (&[Change::Width(1, 2)], SHAPE),
        (&[Change::Instants(FIRST, LAST)], WRITTEN),
        (&[Change::Instants(-1, 0)], WRITTEN),
        (&[Change::Instants(FIRST - 1, 0)], SHAPE),
        (&[Change::Instants(0, LAST + 1)], SHAPE),
        (&[Change::Span(-99999, 99999)], WRITTEN),
        (&[Change::Span(-100000, 99999)], SHAPE),
        (&[Change::Span(-99999, 100000)], SHAPE),
        (&[Change::Nrates(0)], WRITTEN),
    ];
    assert_eq!(rt; first_other(rt.alloc(), &rows), None);
}

/// Values, numbers and stamps; of a value's fault and a stamp's the value's comes first.
#[test]
fn data(rt: HostRuntime) {
    let rows: [(&[Change], Faults); 10] = [
        (&[Change::NoStamp], WRITTEN),
        (&[Change::Row(1, 2, 1000, 32768)], [None, None, VALUE]),
        (&[Change::Row(1, 2, 1000, -32768)], [None, None, VALUE]),
        (&[Change::Row(1, 2, 4294967295, 12)], [None, None, STAMP]),
        (
            &[Change::Row(1, 2, 10000000000, 99999)],
            [None, VALUE, VALUE],
        ),
        (&[Change::Row(1, 2, 10000000000, 12)], [None, STAMP, STAMP]),
        (&[Change::Row(1, 4294967295, 1000, 13)], WRITTEN),
        (&[Change::Row(1, 4294967296, 1000, 13)], [None, None, STAMP]),
        (
            &[Change::Row(1, 10000000000, 1000, 13)],
            [None, STAMP, STAMP],
        ),
        (
            &[
                Change::Row(1, 2, 4294967295, 12),
                Change::Row(2, 3, 2000, 32768),
            ],
            [None, None, Some(WriteFault::Value(3, 1))],
        ),
    ];
    assert_eq!(rt; first_other(rt.alloc(), &rows), None);
}
