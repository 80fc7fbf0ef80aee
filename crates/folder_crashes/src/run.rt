//! Runs over a disk whose power is cut, and what each crash leaves.

use crate::chance::Chance;
use crate::disk::Disk;
use crate::files::{Files, any_bytes, copy_of};
use crate::judge::{
    Record, Stage, Wrong, is_done, is_mending, is_recovered, judge, judge_recovered,
};
use dfr_folder::{
    Directory, Fault, Key, Mended, Put, Recorded, Unknown, discard, mend, open_folder, put_for,
    put_or_mend,
};
use std::alloc::{AllocError, Global};

/// How many crashes were looked at, and the first that was wrong.
#[derive(Clone, Copy)]
pub struct Tally {
    pub crashes: u64,
    pub wrong: Option<Wrong>,
}

impl Tally {
    fn count(&mut self, wrong: Option<Wrong>) {
        self.crashes = self.crashes.saturating_add(1);
        if self.wrong.is_none() {
            self.wrong = wrong;
        }
    }
}

/// How a run goes on.
#[derive(Clone, Copy)]
pub struct Plan {
    /// How many records are put.
    pub records: u64,
    /// How many pairs are kept.
    pub keep: usize,
    /// At which call the power is cut.
    pub cut: u64,
    /// One call in so many fails; 0: none does.
    pub odds: u64,
    /// Whether the oldest pair is given up as the next one is put.
    pub swaps: bool,
    pub seed: u64,
}

/// The key of a record.
fn key_of(number: u64) -> Key {
    Key {
        date: 20_240_701,
        time: 103_000,
        micros: 0,
        number,
        copy: 1,
    }
}

/// The records so far.
type Records = Vec<Record>;

/// Adds a record that is to be put.
fn add_record(
    alloc: Global,
    records: &mut Records,
    number: u64,
    chance: &mut Chance,
) -> Result<(), AllocError> {
    let cfg = any_bytes(alloc, chance)?;
    let dat = any_bytes(alloc, chance)?;
    records.push(Record {
        key: key_of(number),
        cfg,
        dat,
        stage: Stage::Tried,
    })?;
    Ok(())
}

/// The oldest pair that has to go for a new one.
fn oldest_of(records: &[Record], most: usize) -> Option<usize> {
    let put = records.iter().filter(|record| record.stage == Stage::Put);
    if put.count() < most {
        return None;
    }
    records.iter().position(|record| record.stage == Stage::Put)
}

/// Puts the last record, and gives up the oldest pair for it, if there is one to be given up.
fn put<D: Directory>(folder: &mut D, records: &mut Records, oldest: Option<usize>) -> Option<Put> {
    let record = records.last()?;
    let (key, cfg, dat) = (record.key, &record.cfg, &record.dat);
    let Some(at) = oldest else {
        return Some(put_or_mend(folder, key, cfg, dat));
    };
    let old = records.get(at)?.key;
    let (put, is_gone) = put_for(folder, key, cfg, dat, old);
    if put == Put::There
        && let Some(old) = records.get_mut(at)
    {
        old.stage = if is_gone { Stage::Gone } else { Stage::GivenUp };
    }
    Some(put)
}

/// Puts the last record. If that fails, tries once more to complete it or to take it back.
fn put_last<D: Directory>(
    folder: &mut D,
    records: &mut Records,
    oldest: Option<usize>,
) -> Result<(), Fault> {
    let put = put(folder, records, oldest);
    let (Some(put), Some(record)) = (put, records.last_mut()) else {
        return Ok(());
    };
    match put {
        Put::There | Put::Completed(_) => record.stage = Stage::Put,
        Put::Taken => record.stage = Stage::Refused,
        Put::Failed(_) => {}
        Put::Left(_) => {
            if mend(folder, record.key)? == Mended::There {
                record.stage = Stage::Put;
            }
        }
    }
    Ok(())
}

/// Gives up the oldest pairs, until so many are left.
fn keep_newest<D: Directory>(
    folder: &mut D,
    records: &mut Records,
    most: usize,
) -> Result<(), Fault> {
    let put = records
        .iter()
        .filter(|record| record.stage == Stage::Put)
        .count();
    let mut surplus = put.saturating_sub(most);
    for record in records.iter_mut() {
        if surplus != 0 && record.stage == Stage::Put {
            surplus -= 1;
            record.stage = Stage::GivenUp;
            if discard(folder, record.key)? {
                record.stage = Stage::Gone;
            }
        }
    }
    Ok(())
}

/// Puts records into a folder until one is put no more.
fn write_on<D: Directory>(
    alloc: Global,
    folder: &mut D,
    records: &mut Records,
    plan: &Plan,
    chance: &mut Chance,
) -> Result<(), Fault> {
    for number in records.len() as u64..plan.records {
        if add_record(alloc, records, number, chance).is_err() {
            return Err(Fault::Memory);
        }
        let oldest = if plan.swaps {
            oldest_of(records, plan.keep)
        } else {
            None
        };
        put_last(folder, records, oldest)?;
        keep_newest(folder, records, plan.keep)?;
    }
    Ok(())
}

/// Opens the folder of a disk, and goes on with the plan. Returns the disk, and whether it was all
/// done.
fn session(
    alloc: Global,
    disk: Disk,
    records: &mut Records,
    plan: &Plan,
    chance: &mut Chance,
) -> (Disk, bool) {
    let opened: Result<Recorded<Disk, Unknown>, (Fault, Disk)> = open_folder(alloc, disk);
    match opened {
        Ok(mut folder) => {
            let done = write_on(alloc, &mut folder, records, plan, chance).is_ok();
            (folder.into_system(), done)
        }
        Err((_, disk)) => (disk, false),
    }
}

/// Recovers what a crash left, and may crash meanwhile. Looks at both, and at what recovery ends in.
fn recover_all(
    alloc: Global,
    left: Files,
    records: &[Record],
    chance: &mut Chance,
    tally: &mut Tally,
) -> Result<(), AllocError> {
    let before = copy_of(alloc, &left)?;
    let mut disk = Disk::of(alloc, left, *chance)?;
    disk.left = 1 + chance.below(24);
    disk.odds = [0, 8][chance.below(2) as usize];
    let (disk, _) = opened(alloc, disk);
    let again = disk.crash(chance)?;
    drop(disk);
    let is_mended = is_mending(&before, &again, records);
    tally.count(judge(&again, records).or((!is_mended).then_some(Wrong::Changed)));
    let before = copy_of(alloc, &again)?;
    let disk = Disk::of(alloc, again, *chance)?;
    let (disk, is_open) = opened(alloc, disk);
    let is_right = is_recovered(&before, &disk.now, records);
    tally.count(if is_open {
        judge_recovered(&disk.now, records).or((!is_right).then_some(Wrong::Recovered))
    } else {
        Some(Wrong::Refused)
    });
    Ok(())
}

/// Opens the folder of a disk. Returns the disk, and whether it was opened.
fn opened(alloc: Global, disk: Disk) -> (Disk, bool) {
    let opened: Result<Recorded<Disk, Unknown>, (Fault, Disk)> = open_folder(alloc, disk);
    match opened {
        Ok(folder) => (folder.into_system(), true),
        Err((_, disk)) => (disk, false),
    }
}

/// Carries a plan out until the power is cut, and looks at `choices` of what that may leave. A call
/// that fails ends a session; the next one begins in the same folder. Returns whether the power was
/// cut.
pub fn run(
    alloc: Global,
    plan: &Plan,
    choices: u64,
    tally: &mut Tally,
) -> Result<bool, AllocError> {
    let mut chance = Chance::of(plan.seed);
    let mut records = Vec::new(alloc);
    let mut disk = Disk::of(alloc, Vec::new(alloc), chance)?;
    disk.left = plan.cut;
    disk.odds = plan.odds;
    for _ in 0..8 {
        let (next, done) = session(alloc, disk, &mut records, plan, &mut chance);
        disk = next;
        if done || disk.left == 0 {
            break;
        }
    }
    let is_cut = disk.left == 0;
    if !is_cut && plan.odds == 0 && !is_done(&records, plan.keep) {
        tally.count(Some(Wrong::Idle));
    }
    for _ in 0..choices {
        let left = disk.crash(&mut chance)?;
        tally.count(judge(&left, &records));
        recover_all(alloc, left, &records, &mut chance, tally)?;
    }
    Ok(is_cut)
}
