//! What files are called, at the borders of the calendar and of the numbers.

use dfr_folder::{Ending, Key, Name, key_at, name_in, put_name, sort_oldest_first};
use std::alloc::Global;

/// Instants, numbers of records, and names; instants were worked out with Python's `datetime`.
const NAMES: [(i64, u64, &[u8]); 4] = [
    (0, 1, b"19700101T000000.000000-1.cfg"),
    (951_827_696_789_012, 10, b"20000229T123456.789012-10.cfg"),
    (1_719_829_800_350_625, 7, b"20240701T103000.350625-7.cfg"),
    (
        253_402_300_799_999_999,
        9_999_999_999_999_999_999,
        b"99991231T235959.999999-9999999999999999999.cfg",
    ),
];

fn is_called(alloc: Global, key: Key, name: &[u8]) -> bool {
    let mut text = Vec::new(alloc);
    let ending = Ending::Config;
    put_name(&mut text, Name { key, ending }).is_ok() && text.as_slice() == name
}

/// The key of the configuration file with this name.
fn key_in(name: &[u8]) -> Option<Key> {
    match name_in(name) {
        Some(
            Name {
                key,
                ending: Ending::Config,
            },
        ) => Some(key),
        _ => None,
    }
}

#[test]
fn names_both_ways(rt: HostRuntime) {
    for (instant, number, name) in NAMES {
        let key = key_at(instant, number);
        assert!(rt; is_called(rt.alloc(), key, name), "{number}");
        assert_eq!(rt; key_in(name), Some(key));
    }
}

/// A name that was there already has a number at the end, and comes after it; other files are nobody's.
#[test]
fn other_names(rt: HostRuntime) {
    let one = key_in(b"20240701T103000.350625-9.cfg");
    let two = key_in(b"20240701T103000.350625-9-2.cfg");
    let ten = key_in(b"20240701T103000.350625-10.cfg");
    assert!(rt; one < two && two < ten && one.is_some());
    for name in [
        b"20240701T103000.350625-9-1.cfg".as_slice(),
        b"20240701T103000.350625-09.cfg",
        b"20240701T103000.350625-.cfg",
        b"20240701T103000.350625.cfg",
        b"20240701t103000.350625-9.cfg",
        b"20240701T103000.35062x-9.cfg",
        b"20240701T103000.350625-9",
        b"mine",
        b"",
    ] {
        assert_eq!(rt; key_in(name), None);
    }
}

/// Pairs are sorted by the instants in their names, whatever their numbers and sizes.
#[test]
fn oldest_first(rt: HostRuntime) {
    let mut pairs = [
        (key_at(253_402_300_799_999_999, 1), 10),
        (key_at(1_719_829_800_350_625, 2), 40),
        (key_at(0, 4), 20),
        (key_at(951_827_696_789_012, 3), 30),
    ];
    sort_oldest_first(&mut pairs);
    assert_eq!(rt; pairs.map(|(_, size)| size), [20, 30, 40, 10]);
}
