//! What has to hold of the files that a crash or a recovery leaves.

use crate::files::{Stored, bytes_at};
use dfr_folder::{Ending, Key, Name};

/// How far the pair of a record is.
#[derive(Clone, Copy, PartialEq, Eq)]
pub enum Stage {
    /// It was to be put; whether it is there is not known.
    Tried,
    /// It is there for good.
    Put,
    /// It is given up, or was to be.
    GivenUp,
    /// It is given up for good.
    Gone,
    /// Its key was in use, though each record has its own.
    Refused,
}

/// A record, and its pair.
#[derive(Drop)]
pub struct Record {
    pub key: Key,
    pub cfg: Vec<u8>,
    pub dat: Vec<u8>,
    pub stage: Stage,
}

/// What is wrong.
#[derive(Clone, Copy, Debug, PartialEq, Eq)]
pub enum Wrong {
    /// A configuration file has no data file, or other bytes than any record's pair.
    NotWhole,
    /// A pair that was put and not given up is not there.
    Lost,
    /// A crash in a recovery left what another recovery makes something else of.
    Changed,
    /// A recovery in which no call failed didn't leave what it should.
    Recovered,
    /// No call failed, and a pair was not put, or not given up.
    Idle,
    /// Recovery left a file that was being written or removed.
    Leftover,
    /// A pair is there that was given up for good.
    Back,
    /// Recovery gave up, though no call failed; or a pair was refused whose key was free.
    Refused,
}

/// Whether the files of this key are the whole pair of one of the records.
fn is_whole(files: &[Stored], records: &[Record], key: Key) -> bool {
    let ending = Ending::Config;
    let cfg = bytes_at(files, Name { key, ending });
    let ending = Ending::Data;
    let dat = bytes_at(files, Name { key, ending });
    let (Some(cfg), Some(dat)) = (cfg, dat) else {
        return false;
    };
    records.iter().any(|record| record.key == key
        && &record.cfg[..] == cfg
        && &record.dat[..] == dat)
}

/// The bytes of a pair's files, if there are such files.
pub type Found<'a> = (Option<&'a [u8]>, Option<&'a [u8]>);

/// The configuration file and the data file that recovery has to leave of a key's files.
fn tidied(files: &[Stored], key: Key) -> Found<'_> {
    let at = |ending: Ending| bytes_at(files, Name { key, ending });
    let (cfg, dat) = (at(Ending::Config), at(Ending::Data));
    if cfg.is_some() {
        let dat = if dat.is_some() {
            dat
        } else {
            at(Ending::DataPart)
        };
        return (cfg, dat);
    }
    if at(Ending::Gone).is_some() {
        return (None, None);
    }
    if dat.is_some() {
        return (at(Ending::ConfigPart), dat);
    }
    (None, None)
}

/// What a reader finds after recovery.
fn recovered(files: &[Stored], key: Key) -> Found<'_> {
    match tidied(files, key) {
        (None, _) => (None, None),
        found => found,
    }
}

/// Whether recovery makes the same of what a crash left of a recovery as of what there was before.
pub fn is_mending(before: &[Stored], after: &[Stored], records: &[Record]) -> bool {
    records.iter().all(|record| recovered(before, record.key) == recovered(after, record.key))
}

/// Whether a recovery left exactly what it has to.
pub fn is_recovered(before: &[Stored], after: &[Stored], records: &[Record]) -> bool {
    records.iter().all(|record| {
        let key = record.key;
        let at = |ending: Ending| bytes_at(after, Name { key, ending });
        let is_clean = at(Ending::ConfigPart).is_none()
            && at(Ending::DataPart).is_none()
            && at(Ending::Gone).is_none();
        is_clean && tidied(before, key) == (at(Ending::Config), at(Ending::Data))
    })
}

/// Whether each of the newest pairs was put, and each older one given up.
pub fn is_done(records: &[Record], keep: usize) -> bool {
    let newest = records
        .iter()
        .rev()
        .take(keep)
        .all(|record| record.stage == Stage::Put);
    newest
        && records
            .iter()
            .rev()
            .skip(keep)
            .all(|record| record.stage == Stage::Gone)
}

/// What is wrong with a record's pair at any moment.
fn judge_record(files: &[Stored], records: &[Record], record: &Record) -> Option<Wrong> {
    let key = record.key;
    let ending = Ending::Config;
    let is_there = is_whole(files, records, key);
    match record.stage {
        Stage::Gone if bytes_at(files, Name { key, ending }).is_some() => Some(Wrong::Back),
        Stage::Put if !is_there => Some(Wrong::Lost),
        Stage::Refused => Some(Wrong::Refused),
        _ => None,
    }
}

/// What is wrong at any moment.
pub fn judge(files: &[Stored], records: &[Record]) -> Option<Wrong> {
    for file in files {
        if file.name.ending == Ending::Config && !is_whole(files, records, file.name.key) {
            return Some(Wrong::NotWhole);
        }
    }
    for record in records {
        if let Some(wrong) = judge_record(files, records, record) {
            return Some(wrong);
        }
    }
    None
}

/// What is wrong after recovery.
pub fn judge_recovered(files: &[Stored], records: &[Record]) -> Option<Wrong> {
    if let Some(wrong) = judge(files, records) {
        return Some(wrong);
    }
    for file in files {
        // a data file that is alone may stay
        if !matches!(file.name.ending, Ending::Config | Ending::Data) {
            return Some(Wrong::Leftover);
        }
    }
    None
}
