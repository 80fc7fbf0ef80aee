//! Records that a recorder took, read back from their own texts.

use super::same::is_same;
use crate::bay::{BAY, Bay, CONTACTS, FAST, OVER_100, SHORT, SIX, TWO};
use crate::samples::{FIRST_CFG, FIRST_DAT};
use crate::steps::{Start, begun, ran};
use crate::writer::changes::give_text;
use comtrade_read::{read, read_of_file};
use comtrade_write::{File, Kind, WriteFault, cfg_bytes, dat_bytes, file_of};
use dfr_channels::{Layout, Memory};
use dfr_program::{read_of_record, read_of_run, run_and_read};
use dfr_recorder::{Answer, Ran, Record, Recorder, run};
use std::alloc::Global;

fn is_read(alloc: Global, cfg: &[u8], dat: &[u8], file: &File) -> bool {
    match read(alloc, cfg, dat) {
        Ok(again) => {
            let same = is_same(alloc, &again, file);
            drop(again);
            same
        }
        Err(_) => false,
    }
}

fn is_read_beside(alloc: Global, cfg: &[u8], file: &File) -> bool {
    match dat_bytes(alloc, file) {
        Ok(dat) => is_read(alloc, cfg, &dat, file),
        Err(_) => false,
    }
}

/// Whether the file is read from its own texts.
fn is_read_back(alloc: Global, file: &File) -> bool {
    match cfg_bytes(alloc, file) {
        Ok(cfg) => is_read_beside(alloc, &cfg, file),
        Err(_) => false,
    }
}

fn is_taken_back(alloc: Global, layout: &Layout, taken: &Record, kind: Kind) -> bool {
    match file_of(alloc, layout, taken, kind) {
        Ok(file) => {
            let read = is_read_back(alloc, &file);
            drop(file);
            read
        }
        Err(_) => false,
    }
}

/// How many records the answers took, where each of them is read back.
fn records_of(alloc: Global, ran: &Ran, kind: Kind) -> Option<usize> {
    let mut records = 0usize;
    for answer in ran.answers.as_slice() {
        if let Answer::Take(Some(taken)) = answer {
            if !is_taken_back(alloc, ran.recorder.layout(), taken, kind) {
                return None;
            }
            records = records.saturating_add(1);
        }
    }
    Some(records)
}

/// Whether the run took so many records, each of which is read back in both kinds.
fn has_records(alloc: Global, ran: &Ran, records: usize) -> bool {
    ran.stopped.is_none()
        && records_of(alloc, ran, Kind::Ascii) == Some(records)
        && records_of(alloc, ran, Kind::Binary) == Some(records)
}

fn are_read_back(alloc: Global, bay: Bay, script: &[u8], records: usize) -> bool {
    is_some_and!(ran(alloc, bay, script), |ran| {
        has_records(alloc, &ran, records)
    })
}

const TWO_AT_100: Bay = Bay {
    rules: &[OVER_100],
    ..TWO
};

const EIGHT_AT_100: Bay = Bay {
    rules: &[OVER_100],
    limits: (2, 2, 8, 1),
    ..BAY
};

const LEAP: Bay = Bay {
    start: 951782400000000,
    ..SHORT
};

/// The end of the year 9999, after which a scan is refused.
const LAST: Bay = Bay {
    rate: 1,
    start: 253402300798999999,
    ..SHORT
};

const WIDE: Bay = Bay {
    channels: SIX,
    ..SHORT
};

const MANY_CONTACTS: Bay = Bay {
    channels: CONTACTS,
    ..SHORT
};

/// Triggers by hand and by rule; stamps that are no whole numbers apart, a leap day, and the last year; many channels.
#[test]
fn records_of_runs(rt: HostRuntime) {
    for (bay, script, records) in [
        (BAY, b"0123!45^".as_slice(), 1usize),
        (BAY, b"0!12^", 1),
        (BAY, b"!^", 0),
        (TWO, b"0123!45!67^^", 2),
        (BAY, b"0123!45!^!67^", 2),
        (TWO_AT_100, b"zzzhhhhh^zz^", 2),
        (EIGHT_AT_100, b"zzzhzhzz^", 1),
        (FAST, b"1!234^", 1),
        (LEAP, b"1!2^", 1),
        (LAST, b"1!23^", 1),
        (WIDE, b"s!s^", 1),
        (MANY_CONTACTS, b"l!l^", 1),
    ] {
        assert!(rt;
            are_read_back(rt.alloc(), bay, script, records),
            "{script:?}"
        );
    }
}

/// Whether there is one file, with rows of these stamps.
fn has_stamps(files: &[File]) -> bool {
    let [file] = files else {
        return false;
    };
    match file.rows.items() {
        [a, b, c, d] => {
            a.stamp == Some(0)
                && b.stamp == Some(208)
                && c.stamp == Some(416)
                && d.stamp == Some(625)
        }
        _ => false,
    }
}

fn are_stamped(files: Result<Vec<File>, Memory>) -> bool {
    match files {
        Ok(files) => {
            let has = has_stamps(&files);
            drop(files);
            has
        }
        Err(Memory) => false,
    }
}

fn files_are_stamped(alloc: Global, start: Start) -> bool {
    let ran = run(alloc, start.recorder, start.steps);
    let both = are_stamped(read_of_run(alloc, &ran, Kind::Ascii))
        && are_stamped(read_of_run(alloc, &ran, Kind::Binary));
    drop(ran);
    both
}

fn files_at_once_are_stamped(alloc: Global, start: Start) -> bool {
    let (ran, files) = run_and_read(alloc, start.recorder, start.steps, Kind::Binary);
    drop(ran);
    are_stamped(files)
}

fn is_stamped(alloc: Global, at_once: bool) -> bool {
    match begun(alloc, FAST, b"1!234^") {
        Some(start) if at_once => files_at_once_are_stamped(alloc, start),
        Some(start) => files_are_stamped(alloc, start),
        None => false,
    }
}

/// The files of a run, and those of a run that is read in the same call.
#[test]
fn files_of_a_run(rt: HostRuntime) {
    for at_once in [false, true] {
        assert!(rt; is_stamped(rt.alloc(), at_once), "{at_once}");
    }
}

/// The instants of the first row and of the trigger.
fn instants_of(read: Result<File, Memory>) -> Option<(i64, i64)> {
    match read {
        Ok(file) => {
            let instants = (file.head.first, file.head.trigger);
            drop(file);
            Some(instants)
        }
        Err(Memory) => None,
    }
}

/// Those of the next record's file.
fn next_instants(alloc: Global, recorder: &mut Recorder) -> Option<(i64, i64)> {
    let taken = recorder.take()?;
    let read = read_of_record(alloc, recorder.layout(), &taken, Kind::Ascii);
    drop(taken);
    instants_of(read)
}

fn instants_of_run(alloc: Global) -> Option<(i64, i64)> {
    let mut ran = ran(alloc, BAY, b"0123!45")?;
    let instants = next_instants(alloc, &mut ran.recorder);
    drop(ran);
    instants
}

#[test]
fn file_of_a_record(rt: HostRuntime) {
    assert_eq!(rt; instants_of_run(rt.alloc()), Some((1000, 3000)));
}

fn fault_of(alloc: Global, file: &File) -> Option<WriteFault> {
    read_of_file(alloc, file).err()
}

/// Why the file isn't read back once its station has this name.
fn fault_with(alloc: Global, file: &mut File, station: &[u8]) -> Option<WriteFault> {
    if give_text(&mut file.head.station, alloc, station) {
        return fault_of(alloc, file);
    }
    Some(WriteFault::Memory)
}

fn fault_at(alloc: Global, station: &[u8]) -> Option<WriteFault> {
    match read(alloc, FIRST_CFG, FIRST_DAT) {
        Ok(mut file) => {
            let fault = fault_with(alloc, &mut file, station);
            drop(file);
            fault
        }
        Err(_) => Some(WriteFault::Shape),
    }
}

#[test]
fn file_not_written(rt: HostRuntime) {
    assert_eq!(rt; fault_at(rt.alloc(), b"Bay 2"), None);
    assert_eq!(rt; fault_at(rt.alloc(), b"a,b"), Some(WriteFault::Text(1, 1)));
}
