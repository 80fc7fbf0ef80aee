//! The course of time by worked examples: computed by hand.

use dfr_clock::{Answer, Drift, Jump, Reading, Settings, SettingsFault, Timebase};
use std::alloc::Global;

/// 1,000 scans a second, windows of 8 s.
const SETTINGS: Settings = Settings {
    rate: 1_000,
    window: 8_000_000,
    slew: 1_000,
    late: 2_500_000,
    apart: 50_000,
    step: 2_000,
    most: 1_000_000,
};

/// A reading so many microseconds after an instant, if the scans were read late by `delay`. The
/// times of the tests are short.
fn reading(scans: u64, micros: u32, delay: u32) -> Reading {
    let after = micros as u64 + delay as u64;
    Reading {
        scans,
        wall: after + 1_000_000_000_000,
        mono: after,
    }
}

/// The instants of two scans after the first reading and one later, and what the later one told.
fn after_one(alloc: Global, first: Reading, later: Reading) -> Option<(Answer, u128, u128)> {
    if SETTINGS.fault().is_some() || first.scans == 0 {
        return None;
    }
    let mut timebase = Timebase::new(alloc, SETTINGS, first, 4).ok()?;
    let answer = timebase.read(later);
    Some((answer, timebase.instant(0), timebase.instant(2_000)))
}

/// What a reading tells that shows neither a gap nor a clock that was set.
const NOTHING: Answer = Answer {
    lost: 0,
    jump: None,
};

#[test]
fn the_promptest_reading_counts(rt: HostRuntime) {
    // scan 0 at 0 s; the first reading is 300 ms late, the second 2 ms
    let first = reading(1_001, 1_000_000, 300_000);
    let later = reading(2_001, 2_000_000, 2_000);
    let found = after_one(rt.alloc(), first, later);
    assert!(rt; found == Some((NOTHING, 1_000_000_002_000, 1_000_002_002_000)));
}

#[test]
fn a_late_reading_counts_not(rt: HostRuntime) {
    let first = reading(1_001, 1_000_000, 0);
    let later = reading(2_001, 2_000_000, 2_000_000);
    let found = after_one(rt.alloc(), first, later);
    assert!(rt; found == Some((NOTHING, 1_000_000_000_000, 1_000_002_000_000)));
}

#[test]
fn a_gap_is_filled(rt: HostRuntime) {
    // the converter stood still for 5 s: 5,000 scans at this rate
    let first = reading(1_001, 1_000_000, 0);
    let later = reading(2_001, 7_000_000, 0);
    let told = Answer {
        lost: 5_000,
        jump: None,
    };
    let found = after_one(rt.alloc(), first, later);
    assert!(rt; found == Some((told, 1_000_000_000_000, 1_000_002_000_000)));
}

#[test]
fn a_clock_that_is_set_is_followed(rt: HostRuntime) {
    // set back by an hour between the readings
    let first = reading(1_001, 1_000_000, 0);
    let later = Reading {
        wall: 1_000_002_000_000 - 3_600_000_000,
        ..reading(2_001, 2_000_000, 0)
    };
    let told = Answer {
        lost: 0,
        jump: Some(Jump::Back(3_600_000_000)),
    };
    let found = after_one(rt.alloc(), first, later);
    let hour_before = 1_000_002_000_000 - 3_600_000_000;
    assert!(rt; found == Some((told, 1_000_000_000_000, hour_before)));
}

/// A timebase from scan 0 at the instant 0, with a reading each second and a crystal that is
/// 20 ppm slow.
fn drifting(alloc: Global, seconds: u64) -> Option<Timebase> {
    let first = reading(1, 0, 0);
    if SETTINGS.fault().is_some() || first.scans == 0 {
        return None;
    }
    let mut timebase = Timebase::new(alloc, SETTINGS, first, 100).ok()?;
    for second in 1..seconds {
        let scans = second.checked_mul(1_000)?.checked_add(1)?;
        let micros = u32::try_from(second.checked_mul(1_000_020)?).ok()?;
        let _ = timebase.read(reading(scans, micros, 0));
    }
    Some(timebase)
}

#[test]
fn a_drift_is_followed(rt: HostRuntime) {
    let Some(timebase) = drifting(rt.alloc(), 101) else {
        assert!(rt; false, "memory");
        return;
    };
    // the course of a window of 8 s is led by the least instant, the first, of the one before:
    // it is 160 to 320 microseconds early. Scan 100,000 came at 100.002 s
    let instant = timebase.instant(100_000);
    assert!(rt; 1_000_100_001_680 <= instant && instant <= 1_000_100_001_840);
    // the newest course begins at scan 96,000, by the drift of ten windows late: 1,600 of 96,000,000
    assert!(rt; timebase.drift() == Some(Drift::Slow(16_666)));
}

#[test]
fn the_converter_tells_the_time(rt: HostRuntime) {
    let Some(mut timebase) = drifting(rt.alloc(), 2) else {
        assert!(rt; false, "memory");
        return;
    };
    // scan 1,500 was due at 1.5 s
    let answer = timebase.told(1_500, 1_000_001_234_567);
    let set_back = Answer {
        lost: 0,
        jump: Some(Jump::Back(265_433)),
    };
    assert!(rt; answer == set_back);
    assert!(rt; timebase.instant(1_500) == 1_000_001_234_567);
    assert!(rt; timebase.instant(2_500) == 1_000_002_234_567);
    let answer = timebase.read(reading(3_001, 9_000_000, 0));
    assert!(rt; answer == NOTHING);
    assert!(rt; timebase.instant(2_500) == 1_000_002_234_567);
    // three seconds more than a thousand scans take: three thousand are missing
    let answer = timebase.told(2_500, 1_000_005_234_567);
    let gap = Answer {
        lost: 3_000,
        jump: None,
    };
    assert!(rt; answer == gap);
    assert!(rt; timebase.instant(5_500) == 1_000_005_234_567);
}

#[test]
fn dates_are_in_order(rt: HostRuntime) {
    // read 300 ms late, then promptly: the date given before stays the earliest
    let first = reading(1_001, 1_000_000, 300_000);
    if SETTINGS.fault().is_some() || first.scans == 0 {
        return;
    }
    let Ok(mut timebase) = Timebase::new(rt.alloc(), SETTINGS, first, 4) else {
        assert!(rt; false, "memory");
        return;
    };
    assert!(rt; timebase.date(1_000) == 1_000_001_300_000);
    let _ = timebase.read(reading(2_001, 2_000_000, 0));
    assert!(rt; timebase.date(1_100) == 1_000_001_300_000);
    assert!(rt; timebase.date(1_500) == 1_000_001_500_000);
}

#[test]
fn settings_are_refused(rt: HostRuntime) {
    let no_rate = Settings {
        rate: 0,
        ..SETTINGS
    };
    let no_window = Settings {
        window: 0,
        ..SETTINGS
    };
    let fast = Settings {
        slew: 1_000_001,
        ..SETTINGS
    };
    assert!(rt; no_rate.fault() == Some(SettingsFault::Rate));
    assert!(rt; no_window.fault() == Some(SettingsFault::Window));
    assert!(rt; fast.fault() == Some(SettingsFault::Slew));
    assert!(rt; SETTINGS.fault() == None);
}
