//! Detectors over histories that look random, against the definition written plainly over the whole
//! list of samples. `bench/detectors.py` has more and longer ones.

use super::{detector, reading};
use dfr_detect::{Condition, FrequencyIs, FrequencyTest, Settings};
use std::alloc::Global;

/// The sample so many scans before the newest, the last of a history.
fn ago(history: &[Option<i32>], scans: usize) -> Option<i64> {
    let place = history.len().checked_sub(scans)?.checked_sub(1)?;
    let sample = (*history.get(place)?)?;
    Some(i64::from(sample))
}

/// The sum of the squares of the last samples, if all of them are there.
fn squares(history: &[Option<i32>], scans: usize) -> Option<u128> {
    let mut sum: u128 = 0;
    for k in 0..scans {
        let size = u128::from(ago(history, k)?.unsigned_abs());
        sum = sum.checked_add(size.checked_mul(size)?)?;
    }
    Some(sum)
}

/// The sum of squares that a level stands for.
fn limit_of(level: u64, scans: u32) -> Option<u128> {
    let square = u128::from(level).checked_mul(u128::from(level))?;
    square.checked_mul(u128::from(scans))
}

/// Whether the last samples meet a level. None if they are not all there.
fn met(s: &Settings, level: u64, history: &[Option<i32>]) -> Option<bool> {
    let scans = s.scans as usize;
    let limit = limit_of(level, s.scans)?;
    let twice = scans.checked_mul(2)?;
    match s.condition {
        Condition::RmsOver => Some(limit <= squares(history, scans)?),
        Condition::RmsUnder => Some(squares(history, scans)? <= limit),
        Condition::Change => {
            squares(history, scans.checked_add(1)?)?;
            let change = ago(history, 0)?.checked_sub(ago(history, scans)?)?;
            Some(change.unsigned_abs() >= level)
        }
        Condition::Jump => {
            squares(history, twice.checked_add(1)?)?;
            let before = ago(history, scans)?;
            let change = ago(history, 0)?.checked_sub(before)?;
            let other = before.checked_sub(ago(history, twice)?)?;
            Some(change.checked_sub(other)?.unsigned_abs() >= level)
        }
        Condition::Frequency(test) => has_frequency(&test, s.scans, level, history),
        // waves have tests of their own
        Condition::Waves(_) => None,
    }
}

/// The size of the lowest sample of the half wave that ended so many scans before the newest.
fn depth(history: &[Option<i32>], scans: usize) -> u64 {
    let mut deepest: u64 = 0;
    for back in scans..history.len() {
        match ago(history, back) {
            Some(x) if x < 0 => deepest = deepest.max(x.unsigned_abs()),
            _ => break,
        }
    }
    deepest
}

/// How long before the newest sample the last crossing that counts was, after so many of them.
fn crossing(least: u64, history: &[Option<i32>], after: usize) -> Option<u128> {
    let mut left = after;
    for back in 0..history.len() {
        let (now, before) = (ago(history, back)?, ago(history, back + 1)?);
        if now < 0 || before >= 0 || depth(history, back + 1) < least {
            continue;
        }
        if left == 0 {
            let up = u128::from(now.unsigned_abs());
            let way = up.checked_add(u128::from(before.unsigned_abs()))?;
            let part = up.checked_mul(65_536)?.checked_div(way)?;
            return (back as u128).checked_mul(65_536)?.checked_add(part);
        }
        left -= 1;
    }
    None
}

/// Whether the frequency or its change meets a level: times of cycles, by their quotients. None if
/// they are not all there.
fn has_frequency(
    test: &FrequencyTest,
    scans: u32,
    level: u64,
    history: &[Option<i32>],
) -> Option<bool> {
    let cycles = test.cycles as usize;
    let before = match test.test {
        FrequencyIs::Changing => cycles,
        _ => 0,
    };
    let newest = crossing(test.least, history, 0)?;
    let middle = crossing(test.least, history, cycles)?;
    let oldest = crossing(test.least, history, cycles.checked_add(before)?)?;
    if oldest > u128::from(scans).checked_mul(65_536)? {
        return None;
    }
    let newer = middle.checked_sub(newest)?;
    let older = oldest.checked_sub(middle)?;
    let rate = u128::from(test.rate);
    let whole = (cycles as u128).checked_mul(rate)?.checked_mul(65_536_000)?;
    let scaled = u128::from(level).checked_mul(newer)?;
    match test.test {
        FrequencyIs::Over => Some(scaled <= whole),
        FrequencyIs::Under => Some(scaled >= whole),
        FrequencyIs::Changing => {
            let change = whole.checked_mul(newer.abs_diff(older))?.checked_mul(rate)?;
            is_changing(level, change, newer, older)
        }
    }
}

/// Whether the frequency changes by at least the level.
fn is_changing(level: u64, change: u128, newer: u128, older: u128) -> Option<bool> {
    let scale = newer
        .checked_mul(older)?
        .checked_mul(newer.checked_add(older)?)?;
    Some(u128::from(level).checked_mul(scale)? <= change.checked_mul(131_072)?)
}

/// The bit of the last scan of a history. None if its rows can't be counted.
fn bit(s: &Settings, history: &[Option<i32>]) -> Option<bool> {
    let mut row: u32 = 0;
    let mut on = false;
    for end in 0..history.len() {
        let so_far = &history[..end + 1];
        row = match met(s, s.level, so_far) {
            Some(true) => row.checked_add(1)?,
            _ => 0,
        };
        on = row >= s.row || (on && met(s, s.reset, so_far) == Some(true));
    }
    Some(on)
}

/// Numbers that look random.
#[derive(Drop)]
struct Dice {
    state: u64,
}

impl Dice {
    /// The next number of a generator modulo 2^64, as its definition wants.
    fn throw(&mut self) -> u64 {
        self.state = self
            .state
            .wrapping_mul(6_364_136_223_846_793_005)
            .wrapping_add(1_442_695_040_888_963_407);
        self.state >> 40
    }

    /// A sample: noise, a large or a saturated one, or none.
    fn sample(&mut self) -> Option<i32> {
        match self.throw() % 16 {
            0 => None,
            1 => Some(i32::MIN),
            2 | 3 => Some(i32::MAX),
            4 | 5 | 6 => Some(10),
            7 | 8 => Some(-10),
            _ => Some((self.throw() % 21) as i32 - 10),
        }
    }

    /// Settings of a test of the frequency, with levels near those of a few scans a cycle.
    fn frequency(&mut self, test: FrequencyIs) -> Settings {
        let level = (self.throw() % 40 + 20) * 1000;
        let other = (self.throw() % 40 + 20) * 1000;
        let reset = match test {
            FrequencyIs::Under => level.max(other),
            _ => level.min(other),
        };
        Settings {
            condition: Condition::Frequency(FrequencyTest {
                test,
                cycles: (self.throw() % 2) as u32 + 1,
                rate: 60,
                least: self.throw() % 12 + 1,
            }),
            scans: (self.throw() % 12) as u32 + 8,
            level,
            reset,
            row: (self.throw() % 3) as u32 + 1,
        }
    }

    fn settings(&mut self) -> Settings {
        let condition = match self.throw() % 7 {
            0 => Condition::RmsOver,
            1 => Condition::RmsUnder,
            2 => Condition::Change,
            3 => Condition::Jump,
            4 => return self.frequency(FrequencyIs::Over),
            5 => return self.frequency(FrequencyIs::Under),
            _ => return self.frequency(FrequencyIs::Changing),
        };
        let level = self.throw() % 12 + 1;
        let other = self.throw() % 12 + 1;
        let reset = match condition {
            Condition::RmsUnder => level.max(other),
            _ => level.min(other),
        };
        Settings {
            condition,
            scans: (self.throw() % 4) as u32 + 1,
            level,
            reset,
            row: (self.throw() % 3) as u32 + 1,
        }
    }
}

/// The first scan of a random history at which the bit is not that of the definition.
fn differs_at(alloc: Global, dice: &mut Dice) -> Option<Option<usize>> {
    let settings = dice.settings();
    let mut detector = detector(alloc, settings, &[0])?;
    let mut history = Vec::new(alloc);
    for k in 0..20 {
        let sample = dice.sample();
        history.push(sample).ok()?;
        if Some(detector.step(&[reading(sample)])) != bit(&settings, &history) {
            return Some(Some(k));
        }
    }
    Some(None)
}

#[test]
fn random_histories(rt: HostRuntime) {
    let mut dice = Dice { state: 1 };
    for number in 0..1_000 {
        let found = differs_at(rt.alloc(), &mut dice);
        assert_eq!(rt; found, Some(None), "history {number}");
    }
}
