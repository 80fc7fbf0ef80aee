//! Detectors of the frequency by examples computed by hand.

use super::{bits_over, is_text};
use dfr_channels::Decimal;
use dfr_detect::{
    Condition, CycleFault, CycleScans, FrequencyIs, FrequencyTest, Settings, SettingsFault,
    cycle_scans,
};
use std::alloc::Global;

/// A test of one cycle at 100 scans a second.
fn test(is: FrequencyIs) -> FrequencyTest {
    FrequencyTest {
        test: is,
        cycles: 1,
        rate: 100,
        least: 1,
    }
}

/// Settings with this window and level.
fn settings(test: FrequencyTest, scans: u32, level: u64) -> Settings {
    Settings {
        condition: Condition::Frequency(test),
        scans,
        level,
        reset: level,
        row: 1,
    }
}

/// The bits over samples of one channel.
fn bits(alloc: Global, settings: Settings, samples: [Option<i32>; 12]) -> Option<String> {
    let scans = samples.map(|x| Some([x, None, None]));
    bits_over(alloc, settings, &[0], &scans)
}

/// Two cycles of 2 scans, which are 50 Hz, and one of 1.75 scans: the line from -10 to 30 meets 0
/// three quarters of a scan before the last sample, that from -10 to 10 half a scan. 100 / 1.75 is
/// 57.142857 Hz. From 50 Hz it has risen by 7.142857 Hz within 1.875 scans, 380.952 Hz a second.
const WAVE: [Option<i32>; 12] = [
    Some(-10),
    Some(10),
    Some(-10),
    Some(10),
    Some(-10),
    Some(10),
    Some(-10),
    Some(30),
    Some(30),
    Some(30),
    Some(30),
    Some(30),
];

#[test]
fn over_and_under(rt: HostRuntime) {
    for (is, level, wanted) in [
        (FrequencyIs::Over, 50_000, "000111111100"),
        (FrequencyIs::Over, 50_001, "000000011100"),
        (FrequencyIs::Over, 57_142, "000000011100"),
        (FrequencyIs::Over, 57_143, "000000000000"),
        (FrequencyIs::Under, 50_000, "000111100000"),
        (FrequencyIs::Under, 49_999, "000000000000"),
        (FrequencyIs::Under, 57_143, "000111111100"),
    ] {
        let found = bits(rt.alloc(), settings(test(is), 5, level), WAVE);
        assert!(rt; is_text(&found, wanted), "{level}");
    }
}

#[test]
fn rate_of_change(rt: HostRuntime) {
    for (scans, level, wanted) in [
        (5, 380_952, "000000010000"),
        (6, 380_952, "000000011000"),
        (6, 380_953, "000000000000"),
        (4, 380_952, "000000000000"),
    ] {
        let settings = settings(test(FrequencyIs::Changing), scans, level);
        let found = bits(rt.alloc(), settings, WAVE);
        assert!(rt; is_text(&found, wanted), "{level}");
    }
}

/// A crossing counts after a half wave that goes down to -10, and a gap starts anew.
#[test]
fn noise_and_gaps(rt: HostRuntime) {
    let noise = WAVE.map(|x| match x {
        Some(-10) => Some(-9),
        _ => x,
    });
    let mut gap = WAVE;
    gap[4] = None;
    for (least, samples, wanted) in [
        (10, WAVE, "000111111100"),
        (10, noise, "000000000000"),
        (9, noise, "000111111100"),
        (1, gap, "000100000000"),
    ] {
        let test = FrequencyTest {
            least,
            ..test(FrequencyIs::Over)
        };
        let found = bits(rt.alloc(), settings(test, 5, 40_000), samples);
        assert!(rt; is_text(&found, wanted), "{least}");
    }
}

#[test]
fn faults(rt: HostRuntime) {
    let good = test(FrequencyIs::Changing);
    for (test, level, fault) in [
        (good, 2_147_483_648, None),
        (good, 2_147_483_649, Some(SettingsFault::Level)),
        (
            FrequencyTest { cycles: 65, ..good },
            0,
            Some(SettingsFault::Cycles),
        ),
        (
            FrequencyTest { cycles: 0, ..good },
            1,
            Some(SettingsFault::Cycles),
        ),
        (
            FrequencyTest {
                rate: 1_000_001,
                ..good
            },
            1,
            Some(SettingsFault::Rate),
        ),
        (
            FrequencyTest { least: 0, ..good },
            1,
            Some(SettingsFault::Least),
        ),
    ] {
        assert_eq!(rt; settings(test, 5, level).fault(), fault);
    }
    let over = test(FrequencyIs::Over);
    for (test, scans, level, fault) in [
        (over, 2, 50_000, None),
        (over, 2, 49_999, Some(SettingsFault::Short)),
        (good, 3, 1, Some(SettingsFault::Short)),
    ] {
        assert_eq!(rt; settings(test, scans, level).fault(), fault);
    }
}

/// The nearest number of scans and the exact one, as its whole part and the rest.
fn scans_of(rate: u32, cycles: u32, frequency: &[u8]) -> Option<Result<CycleScans, CycleFault>> {
    Some(cycle_scans(rate, cycles, Decimal::read(frequency)?))
}

/// 4000 / 60 is 66 and 40 sixtieths; 10 cycles of 60.05 Hz are 40000 / 60.05, 666 and 667/6005 ths.
#[test]
fn cycles(rt: HostRuntime) {
    for (rate, cycles, frequency, nearest, whole, part, of) in [
        (4000, 1, "50", 80, 80, 0, 50),
        (4000, 1, "60", 67, 66, 40, 60),
        (4000, 10, "60.05", 666, 666, 670, 6005),
        (5, 1, "2", 3, 2, 1, 2),
    ] {
        let wanted = CycleScans {
            nearest,
            whole,
            part,
            of,
        };
        assert_eq!(rt;
            scans_of(rate, cycles, frequency.as_bytes()),
            Some(Ok(wanted))
        );
    }
    for (frequency, fault) in [
        ("0", CycleFault::Frequency),
        ("-50", CycleFault::Frequency),
        ("50.0000000000000000000", CycleFault::Places),
        ("0.01", CycleFault::Length),
        ("9000", CycleFault::Length),
    ] {
        assert_eq!(rt; scans_of(4000, 1, frequency.as_bytes()), Some(Err(fault)));
    }
}
