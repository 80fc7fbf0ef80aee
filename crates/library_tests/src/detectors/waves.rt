//! Detectors of waves by examples computed by hand: a wave of 10000 with 12 scans a period, whose rms
//! value is 7071, and harmonics of it.

use super::{bits_over, is_text, settings};
use dfr_detect::{Condition, HarmonicTest, Sequence, Settings, SettingsFault, WaveTest};
use std::alloc::Global;

/// A wave of 10000.
const WAVE: [i32; 12] = [
    0, 5000, 8660, 10000, 8660, 5000, 0, -5000, -8660, -10000, -8660, -5000,
];

/// The same with a second harmonic of 2000 (0, 1732, 1732, 0, -1732, -1732) and a third one of 1000
/// (0, 1000, 0, -1000).
const DISTORTED: [i32; 12] = [
    0, 7732, 10392, 9000, 6928, 4268, 0, -4268, -6928, -9000, -10392, -7732,
];

/// How many scans a history has.
const SCANS: usize = 30;

/// A value of a wave so many scans on.
fn at(wave: [i32; 12], k: usize) -> i32 {
    match wave.get(k % 12) {
        Some(x) => *x,
        None => 0,
    }
}

/// The bits over scans with these samples of three channels.
fn bits(
    alloc: Global,
    settings: Settings,
    channels: &[usize],
    scans: [[Option<i32>; 3]; SCANS],
) -> Option<String> {
    let scans = scans.map(|x| Some(x));
    bits_over(alloc, settings, channels, &scans)
}

/// A wave with both harmonics.
fn distorted() -> [[Option<i32>; 3]; SCANS] {
    let mut scans = [[None; 3]; SCANS];
    for k in 0..SCANS {
        scans[k] = [Some(at(DISTORTED, k)), None, None];
    }
    scans
}

/// Three phases, each a third of a period behind the one before.
fn balanced() -> [[Option<i32>; 3]; SCANS] {
    let mut scans = [[None; 3]; SCANS];
    for k in 0..SCANS {
        scans[k] = [
            Some(at(WAVE, k)),
            Some(at(WAVE, k + 8)),
            Some(at(WAVE, k + 4)),
        ];
    }
    scans
}

/// The bits from the first full window on, and none before.
const FROM_12: &str = "000000000001111111111111111111";

/// No bit.
const NEVER: &str = "000000000000000000000000000000";

fn harmonic(order: u32, least: u64) -> Condition {
    Condition::Waves(WaveTest::Harmonic(HarmonicTest { order, least }))
}

fn over(sequence: Sequence) -> Condition {
    Condition::Waves(WaveTest::SequenceOver(sequence))
}

fn unbalance(least: u64) -> Condition {
    Condition::Waves(WaveTest::Unbalance(least))
}

#[test]
fn harmonics(rt: HostRuntime) {
    for (order, least, level, wanted) in [
        (2, 7000, 199, FROM_12),
        (2, 7000, 201, NEVER),
        (2, 7080, 199, NEVER),
        (3, 7000, 99, FROM_12),
        (3, 7000, 101, NEVER),
        (4, 7000, 2, NEVER),
        (5, 7000, 2, NEVER),
    ] {
        let settings = settings(harmonic(order, least), 12, level);
        let found = bits(rt.alloc(), settings, &[0], distorted());
        assert!(rt; is_text(&found, wanted), "{order} {least} {level}");
    }
}

#[test]
fn sequences(rt: HostRuntime) {
    for (sequence, channels, level, wanted) in [
        (Sequence::Positive, [0, 1, 2], 7069, FROM_12),
        (Sequence::Positive, [0, 1, 2], 7073, NEVER),
        (Sequence::Positive, [1, 2, 0], 7069, FROM_12),
        (Sequence::Positive, [0, 2, 1], 10, NEVER),
        (Sequence::Negative, [0, 1, 2], 10, NEVER),
        (Sequence::Negative, [0, 2, 1], 7069, FROM_12),
        (Sequence::Negative, [2, 1, 0], 7073, NEVER),
        (Sequence::Zero, [0, 1, 2], 10, NEVER),
        (Sequence::Zero, [1, 1, 1], 7069, FROM_12),
        (Sequence::Zero, [1, 1, 1], 7073, NEVER),
    ] {
        let found = bits(
            rt.alloc(),
            settings(over(sequence), 12, level),
            &channels,
            balanced(),
        );
        assert!(rt; is_text(&found, wanted), "{level}");
    }
}

/// Phase A alone has a third of its rms value in each sequence, 2357.
#[test]
fn one_phase(rt: HostRuntime) {
    let scans = balanced().map(|[a, _, _]| [a, Some(0), Some(0)]);
    for (condition, level, wanted) in [
        (over(Sequence::Negative), 2355, FROM_12),
        (over(Sequence::Negative), 2359, NEVER),
        (unbalance(2355), 999, FROM_12),
        (unbalance(2359), 1, NEVER),
    ] {
        let found = bits(
            rt.alloc(),
            settings(condition, 12, level),
            &[0, 1, 2],
            scans,
        );
        assert!(rt; is_text(&found, wanted), "{level}");
    }
    let steady = bits(
        rt.alloc(),
        settings(unbalance(2355), 12, 1),
        &[0, 1, 2],
        balanced(),
    );
    assert!(rt; is_text(&steady, NEVER));
}

/// The positive sequence falls from 7071 to nothing at scan 15.
#[test]
fn sequence_under(rt: HostRuntime) {
    let mut scans = balanced();
    for k in 15..SCANS {
        scans[k] = [Some(0), Some(0), Some(0)];
    }
    let condition = Condition::Waves(WaveTest::SequenceUnder(Sequence::Positive));
    let found = bits(rt.alloc(), settings(condition, 12, 3), &[0, 1, 2], scans);
    assert!(rt; is_text(&found, "000000000000000000000000001111"));
}

/// A missing sample of one phase, and then a full window.
#[test]
fn missing_phase(rt: HostRuntime) {
    let mut scans = balanced();
    scans[15] = [Some(at(WAVE, 15)), None, Some(at(WAVE, 19))];
    let found = bits(
        rt.alloc(),
        settings(over(Sequence::Positive), 12, 7000),
        &[0, 1, 2],
        scans,
    );
    assert!(rt; is_text(&found, "000000000001111000000000000111"));
}

/// There are no sequences of two channels.
#[test]
fn two_channels(rt: HostRuntime) {
    let found = bits(
        rt.alloc(),
        settings(over(Sequence::Positive), 12, 1),
        &[0, 1],
        balanced(),
    );
    assert!(rt; is_text(&found, NEVER));
}

#[test]
fn wave_faults(rt: HostRuntime) {
    let most = 1_099_511_627_776;
    for (condition, scans, level, fault) in [
        (harmonic(2, 1), 12, 1000, None),
        (harmonic(5, most), 4096, 1, None),
        (over(Sequence::Zero), 12, most, None),
        (unbalance(1), 11, 1, Some(SettingsFault::Period)),
        (over(Sequence::Zero), 4097, 1, Some(SettingsFault::Period)),
        (harmonic(1, 1), 12, 1, Some(SettingsFault::Order)),
        (harmonic(6, 0), 12, 1, Some(SettingsFault::Order)),
        (harmonic(2, 0), 12, 0, Some(SettingsFault::Least)),
        (unbalance(most + 1), 12, 1, Some(SettingsFault::Least)),
        (harmonic(2, 1), 12, 1001, Some(SettingsFault::Level)),
        (unbalance(1), 12, 1001, Some(SettingsFault::Level)),
        (
            over(Sequence::Zero),
            12,
            most + 1,
            Some(SettingsFault::Level),
        ),
    ] {
        let settings = settings(condition, scans, level);
        assert_eq!(rt; settings.fault(), fault);
    }
}
