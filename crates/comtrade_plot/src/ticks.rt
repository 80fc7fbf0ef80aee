//! Round numbers in a frame of times, cycles or rows.

ghost use Rattle.std.specs.Iterator.{at_most};

use crate::plan::Frame;

/// The least of 1, 2 and 5 times a power of ten that is not below this number; None where that is
/// no signed number of 64 bits.
pub(crate) fn round_step(least: u64) -> Option<i64> {
    let mut power = 1i64;
    for _ in 0..19 {
        for digit in [1, 2, 5] {
            let step = power.checked_mul(digit)?;
            if least <= step.unsigned_abs() {
                return Some(step);
            }
        }
        power = power.checked_mul(10)?;
    }
    None
}

/// The step between ticks of a frame, which has at most ten.
fn step_of(frame: Frame) -> Option<i64> {
    round_step(frame.span().div_ceil(10).max(1))
}

/// The first multiple of a step that is not before a time; None where that is no number of 64 bits.
fn first_tick(from: i64, step: i64) -> Option<i64> {
    let past = from.checked_rem_euclid(step)?;
    if past == 0 {
        Some(from)
    } else {
        from.checked_add(step.checked_sub(past)?)
    }
}

/// A frame's end, moved to a tick that is near.
fn moved(end: i64, tick: Option<i64>, near: u64) -> i64 {
    match tick {
        Some(tick) if end.abs_diff(tick) <= near => tick,
        _ => end,
    }
}

/// The frame, slightly extended where its ends are near ticks.
pub(crate) fn rounded_out(frame: Frame) -> Frame {
    let Some(step) = step_of(frame) else {
        return frame;
    };
    let near = frame.span() / 40;
    let first = first_tick(frame.from, step);
    let before = first.and_then(|tick| tick.checked_sub(step));
    Frame {
        from: moved(frame.from, before, near),
        to: moved(frame.to, first_tick(frame.to, step), near),
    }
}

/// The multiples of a step in a frame, in order, up to a number of them. A multiple that is no
/// number of 64 bits is in no frame.
#[derive(Drop)]
pub(crate) struct Ticks {
    next: Option<i64>,
    last: i64,
    step: Option<i64>,
    left: u32,
}

impl Ticks {
    /// The ticks of a frame's times.
    pub(crate) fn of(frame: Frame) -> Ticks {
        Ticks::by(frame, step_of(frame), 12)
    }

    /// The multiples of this step in a frame.
    pub(crate) fn by(frame: Frame, step: Option<i64>, most: u32) -> Ticks {
        Ticks {
            next: step.and_then(|step| first_tick(frame.from, step)),
            last: frame.to,
            step,
            left: most,
        }
    }
}

impl Iterator for Ticks {
    type Item = i64;

    ghost remaining = { λ ticks. at_most ticks.left };

    fn next(&mut self) -> Option<i64> {
        if self.left == 0 {
            return None;
        }
        self.left -= 1;
        let (tick, step) = (self.next?, self.step?);
        if self.last < tick {
            return None;
        }
        self.next = tick.checked_add(step);
        Some(tick)
    }
}
