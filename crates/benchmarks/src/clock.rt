//! Follows a clock by lines of standard input, and prints what each tells. `bench/clock.py` makes the lines and judges.
//!
//! The lines: `begin`, the settings, how many courses are kept, a start, a reading; `read` and `quiet` with a reading, the latter
//! printed only if it tells something; `told` and the instant of the next scan; `date` and `instant` of a scan; `mark` of a scan, and
//! `close`, which dates the oldest one marked; `state`. A reading is a count of scans, the wall clock, the monotonic clock. Scans are
//! counted without the lost ones that were asked for up to then. A line of another form ends the program with its number.

use crate::words::{number, small};
use anyhow::{Context, Result, bail};
use dfr_clock::{Answer, Drift, Jump, Reading, Settings, Timebase};
use std::alloc::AllocGlobal;
use std::collections::VecDeque;
use std::str::Split;

/// A timebase, and how many lost scans it asked for.
#[derive(Drop)]
struct Trace {
    timebase: Timebase,
    marks: VecDeque<u64>,
    start: u64,
    lost: u64,
}

fn settings_in(words: &mut Split<'_, char>) -> Result<Settings> {
    Ok(Settings {
        rate: small(words)?,
        window: small(words)?,
        slew: small(words)?,
        late: small(words)?,
        apart: small(words)?,
        step: small(words)?,
        most: small(words)?,
    })
}

/// The next number as a count of scans, with so many lost ones.
fn scans_in(words: &mut Split<'_, char>, lost: u64) -> Result<u64> {
    number(words)?.checked_add(lost).context("too many scans")
}

/// The next numbers as a reading.
fn reading_in(words: &mut Split<'_, char>, lost: u64) -> Result<Reading> {
    Ok(Reading {
        scans: scans_in(words, lost)?,
        wall: number(words)?,
        mono: number(words)?,
    })
}

/// A timebase by the words after `begin`.
fn begun<R: AllocGlobal>(rt: &R, words: &mut Split<'_, char>) -> Result<Trace> {
    let settings = settings_in(words)?;
    let kept = number(words)? as usize;
    let start = number(words)?;
    let first = reading_in(words, 0)?;
    if settings.fault().is_some() || first.scans == 0 {
        bail!("settings out of range, or no scan");
    }
    Ok(Trace {
        timebase: Timebase::new(rt.alloc(), settings, first, kept)?,
        marks: VecDeque::new(rt.alloc()),
        start,
        lost: 0,
    })
}

impl Trace {
    fn count(&mut self, lost: u32) -> Result<()> {
        let lost = u64::from(lost);
        self.lost = self.lost.checked_add(lost).context("too many lost scans")?;
        Ok(())
    }

    /// Prints what a reading or a told time tells.
    fn answer(&mut self, rt: &impl Print, Answer { lost, jump }: Answer) -> Result<()> {
        self.count(lost)?;
        let (forward, back) = match jump {
            Some(Jump::Forward(x)) => (x, 0),
            Some(Jump::Back(x)) => (0, x),
            None => (0, 0),
        };
        println!(rt; "lost {lost} forward {forward} back {back}")?;
        Ok(())
    }

    /// Takes in a reading, and prints what it tells.
    fn read(&mut self, rt: &impl Print, reading: Reading, is_quiet: bool) -> Result<()> {
        let answer = self.timebase.read(reading);
        if is_quiet && answer.lost == 0 && answer.jump.is_none() {
            return Ok(());
        }
        self.answer(rt, answer)
    }

    /// Prints what is kept.
    fn state(&self, rt: &impl Print) -> Result<()> {
        let offset = self.timebase.offset(self.start);
        let (slow, fast) = match self.timebase.drift() {
            Some(Drift::Slow(x)) => (x, 0),
            Some(Drift::Fast(x)) => (0, x),
            None => (0, 0),
        };
        println!(rt; "offset {offset} slow {slow} fast {fast}")?;
        Ok(())
    }

    fn date(&mut self, rt: &impl Print, scan: u64) -> Result<()> {
        println!(rt; "{}", self.timebase.date(scan))?;
        Ok(())
    }

    /// The converter tells when the next scan is.
    fn tell(&mut self, rt: &impl Print, scans: u64, instant: u64) -> Result<()> {
        let answer = self.timebase.told(scans, instant);
        self.answer(rt, answer)
    }

    /// Carries out a line of this word.
    fn take(&mut self, rt: &impl Print, word: &str, words: &mut Split<'_, char>) -> Result<()> {
        let lost = self.lost;
        match word {
            "read" => self.read(rt, reading_in(words, lost)?, false),
            "quiet" => self.read(rt, reading_in(words, lost)?, true),
            "told" => {
                let scans = scans_in(words, lost)?;
                self.tell(rt, scans, number(words)?)
            }
            "mark" => Ok(self.marks.push_back(scans_in(words, lost)?)?),
            "close" => {
                let scan = self.marks.pop_front().context("no scan is marked")?;
                self.date(rt, scan)
            }
            "date" => self.date(rt, scans_in(words, lost)?),
            "instant" => {
                println!(rt; "{}", self.timebase.instant(scans_in(words, lost)?))?;
                Ok(())
            }
            "state" => self.state(rt),
            _ => bail!("no such word"),
        }
    }
}

/// Carries out a line; `begin` starts anew.
fn follow_line<R: AllocGlobal + Print>(
    rt: &R,
    trace: Option<Trace>,
    line: &str,
) -> Result<Option<Trace>> {
    let mut words = line.split(' ');
    let word = words.next().context("an empty line")?;
    if word == "begin" {
        return Ok(Some(begun(rt, &mut words)?));
    }
    let mut trace = trace.context("nothing has begun")?;
    trace.take(rt, word, &mut words)?;
    Ok(Some(trace))
}

pub fn follow<R: Input + Print + AllocGlobal>(rt: &R) -> Result<()> {
    let mut trace = None;
    let mut at: u64 = 0;
    for line in rt.lines(rt.alloc()) {
        at = at.checked_add(1).context("too many lines")?;
        let line = line?;
        trace = follow_line(rt, trace, line.as_str()).context(format_args!("line {at}"))?;
    }
    Ok(())
}
