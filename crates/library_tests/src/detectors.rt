//! Detectors by worked examples: computed by hand, and the sag by numpy.

mod frequency;
mod random;
mod waves;

use dfr_channels::{Reading, Scan};
use dfr_detect::{Condition, Detector, Detectors, Settings, SettingsFault, bits_of};
use std::alloc::Global;

/// A detector of the sum of some channels.
fn detector(alloc: Global, settings: Settings, channels: &[usize]) -> Option<Detector> {
    if settings.fault().is_some() || channels.len() > 256 {
        return None;
    }
    let channels = Vec::from_slice(alloc, channels).ok()?;
    Detector::new(alloc, settings, channels).ok()
}

/// Settings without hysteresis, for one scan.
fn settings(condition: Condition, scans: u32, level: u64) -> Settings {
    Settings {
        condition,
        scans,
        level,
        reset: level,
        row: 1,
    }
}

/// The reading of a sample, or of a missing one.
fn reading(sample: Option<i32>) -> Reading {
    match sample {
        Some(x) => Reading::Value(x),
        None => Reading::Missing,
    }
}

/// The bits of a detector over scans of three channels, as text; `None` is a lost scan.
fn bits_over(
    alloc: Global,
    settings: Settings,
    channels: &[usize],
    scans: &[Option<[Option<i32>; 3]>],
) -> Option<String> {
    let mut detector = detector(alloc, settings, channels)?;
    let mut text = String::new(alloc);
    for scan in scans {
        let bit = match scan {
            Some([a, b, c]) => detector.step(&[reading(*a), reading(*b), reading(*c)]),
            None => detector.step(&[]),
        };
        text.push(if bit { '1' } else { '0' }).ok()?;
    }
    Some(text)
}

fn is_text(found: &Option<String>, wanted: &str) -> bool {
    match found {
        Some(text) => text.as_str() == wanted,
        None => false,
    }
}

/// A wave of rms value 1000, 10 scans a cycle, which falls to 600 at scan 20. Its rms value over a
/// cycle is 851.0 at scan 23 and 824.6 at scan 24.
const SAG: [i32; 40] = [
    0, 831, 1345, 1345, 831, 0, -831, -1345, -1345, -831, 0, 831, 1345, 1345, 831, 0, -831, -1345,
    -1345, -831, 0, 499, 807, 807, 499, 0, -499, -807, -807, -499, 0, 499, 807, 807, 499, 0, -499,
    -807, -807, -499,
];

#[test]
fn sag(rt: HostRuntime) {
    let scans = SAG.map(|x| Some([Some(x), None, None]));
    let settings = settings(Condition::RmsUnder, 10, 850);
    let found = bits_over(rt.alloc(), settings, &[0], &scans);
    assert!(rt; is_text(&found, "0000000000000000000000001111111111111111"));
}

#[test]
fn row_and_reset(rt: HostRuntime) {
    let scans = [10, 10, 7, 5, 4, 10, 5, 10, 10].map(|x| Some([Some(x), None, None]));
    let settings = Settings {
        reset: 5,
        row: 2,
        ..settings(Condition::RmsOver, 1, 10)
    };
    let found = bits_over(rt.alloc(), settings, &[0], &scans);
    assert!(rt; is_text(&found, "011100001"));
}

#[test]
fn residual(rt: HostRuntime) {
    let scans = [
        Some([Some(1), Some(2), Some(3)]),
        Some([Some(10), Some(-5), Some(1)]),
        None,
        Some([Some(6), Some(0), Some(0)]),
        Some([Some(0), Some(6), Some(0)]),
        Some([Some(0), None, Some(6)]),
        Some([Some(6), Some(0), Some(0)]),
        Some([Some(6), Some(0), Some(0)]),
    ];
    let settings = settings(Condition::RmsOver, 2, 6);
    let found = bits_over(rt.alloc(), settings, &[0, 1, 2], &scans);
    assert!(rt; is_text(&found, "01001001"));
}

/// The status bits of scans of two channels, with the bits of two detectors. A lost scan comes before
/// the last one.
fn three_scans(alloc: Global) -> Option<(Vec<bool>, Vec<bool>, Vec<bool>)> {
    let mut list = Vec::new(alloc);
    list.push(detector(alloc, settings(Condition::RmsOver, 1, 10), &[0])?)
        .ok()?;
    list.push(detector(alloc, settings(Condition::Change, 1, 5), &[1])?)
        .ok()?;
    let mut detectors = Detectors::new(list);
    let mut first = Vec::from_slice(alloc, &[true]).ok()?;
    detectors
        .step(&[Reading::Value(10), Reading::Value(0)], &mut first)
        .ok()?;
    let mut second = Vec::from_slice(alloc, &[false]).ok()?;
    detectors
        .step(&[Reading::Value(0), Reading::Value(5)], &mut second)
        .ok()?;
    detectors.lose();
    let mut last = Vec::from_slice(alloc, &[true]).ok()?;
    detectors
        .step(&[Reading::Value(10), Reading::Value(20)], &mut last)
        .ok()?;
    Some((first, second, last))
}

#[test]
fn status_bits(rt: HostRuntime) {
    let found = match three_scans(rt.alloc()) {
        Some((first, second, last)) => first.as_slice() == [true, true, false].as_slice()
            && second.as_slice() == [false, false, true].as_slice()
            && last.as_slice() == [true, true, false].as_slice(),
        None => false,
    };
    assert!(rt; found);
}

/// The bits of two scans of one channel, by one call.
fn run(alloc: Global) -> Option<Vec<bool>> {
    let mut detector = detector(alloc, settings(Condition::Change, 1, 5), &[0])?;
    let mut scans = Vec::new(alloc);
    for x in [0, 5] {
        let analog = Vec::from_slice(alloc, &[Reading::Value(x)]).ok()?;
        scans.push(Scan::new(analog, Vec::new(alloc))).ok()?;
    }
    bits_of(alloc, &mut detector, &scans).ok()
}

#[test]
fn runs(rt: HostRuntime) {
    let found = match run(rt.alloc()) {
        Some(bits) => bits.as_slice() == [false, true].as_slice(),
        None => false,
    };
    assert!(rt; found);
}

#[test]
fn faults(rt: HostRuntime) {
    let most = 1_099_511_627_776;
    for (condition, scans, level, reset, row, fault) in [
        (Condition::RmsOver, 1, 1, 1, 1, None),
        (Condition::RmsUnder, 65_536, most, most, 1, None),
        (Condition::RmsOver, 0, 0, 0, 0, Some(SettingsFault::Scans)),
        (
            Condition::RmsOver,
            65_537,
            1,
            1,
            1,
            Some(SettingsFault::Scans),
        ),
        (Condition::Change, 1, 0, 1, 1, Some(SettingsFault::Level)),
        (
            Condition::Change,
            1,
            most + 1,
            1,
            1,
            Some(SettingsFault::Level),
        ),
        (Condition::Jump, 1, 5, 6, 1, Some(SettingsFault::Reset)),
        (Condition::RmsUnder, 1, 5, 4, 0, Some(SettingsFault::Reset)),
        (Condition::RmsUnder, 1, 5, 6, 0, Some(SettingsFault::Row)),
    ] {
        let settings = Settings {
            condition,
            scans,
            level,
            reset,
            row,
        };
        assert_eq!(rt; settings.fault(), fault);
    }
}
