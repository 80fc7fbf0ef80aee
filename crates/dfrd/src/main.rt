//! The program: `dfrd [OPTIONS] SETUP DIR` records the scans on standard input until that ends.
#![tactic(auto)]

mod amounts;
mod capture;
mod check;
mod dating;
mod disk;
mod event_file;
mod event_lines;
mod feed;
mod folder;
mod found;
mod header_file;
mod health_file;
mod heard;
mod kept_rules;
mod look;
mod memory;
mod operator;
mod options;
mod outcome;
mod output;
mod pair;
mod place;
mod putting;
mod record;
mod removal;
mod rules_file;
mod threads;
mod words;

use crate::capture::bus_lines;
use crate::event_file::{EventFile, events_at};
use crate::event_lines::{EventLines, Printed};
use crate::feed::Source;
use crate::folder::{Folder, Records};
use crate::health_file::{health_of, keep_written, write_last};
use crate::heard::Heeded;
use crate::kept_rules::{Shared, keep_last, keep_rules, kept_rules_of};
use crate::look::look;
use crate::operator::{Follower, WAITING, Waker, follower_of, open_orders};
use crate::outcome::{complain, out_of_memory};
use crate::output::{lines_of, write_lines};
use crate::place::{Place, watch};
use crate::record::{Plan, inputs_in, keep_of, plan_of, record};
use crate::threads::{copy_of, fed_of, has_begun, read_input};
use crate::words::{Answer, Asked, answer_of};
use comtrade_io::{ToolFault, fault_of, put_safe};
use comtrade_values::put;
use dfr_station::{Control, Limited};
use rtrb::RingBuffer;
use std::alloc::{AllocError, Global};
use std::fs::File;
use std::io::ErrorKind;
use std::process::ExitCode;
use std::rt::{Env, Files};
use std::sync::Arc;
use std::sync::atomic::AtomicBool;
use std::{env, io, thread};

/// Prints a usage error in printable characters. Returns the exit status.
fn refuse_words<R: Eprint + AllocGlobal>(rt: &R, text: &str) -> u8 {
    let mut safe = Vec::new(rt.alloc());
    for line in text.lines() {
        if put_safe(&mut safe, line.as_bytes()).is_err() || put(&mut safe, "\n").is_err() {
            return out_of_memory(rt);
        }
    }
    if let Ok(text) = str::from_utf8(&safe) {
        let _ = eprint!(rt; "{text}");
    }
    2
}

/// The arguments after the program's name.
fn words_of<R: Env + AllocGlobal>(rt: &R) -> io::Result<Vec<String>> {
    let mut rest = Vec::new(rt.alloc());
    for word in env::args(rt)?.skip(1) {
        rest.push(word)?;
    }
    Ok(rest)
}

/// The arguments as string slices.
fn texts_of<'a, R: AllocGlobal>(rt: &R, words: &'a [String]) -> Result<Vec<&'a str>, AllocError> {
    let mut texts: Vec<&str> = Vec::new(rt.alloc());
    for word in words {
        texts.push(word.as_str())?;
    }
    Ok(texts)
}

/// Prints why the arguments can't be read. Returns the exit status.
fn refuse_start<R: Eprint>(rt: &R, kind: ErrorKind) -> u8 {
    if kind == ErrorKind::OutOfMemory {
        return out_of_memory(rt);
    }
    let _ = eprintln!(rt; "dfrd: an argument is not valid UTF-8");
    2
}

/// Prints the help or the version. Returns the exit status.
fn print_text<R: Print>(rt: &R, text: &str) -> u8 {
    match print!(rt; "{text}") {
        Ok(()) => 0,
        Err(_) => 1,
    }
}

/// What an operator sends, and what follows its file and wakes who follows it. None if that isn't
/// possible; then the reason is printed.
fn followed<R: Files<File = File> + Eprint + AllocGlobal>(
    rt: &R,
    path: &str,
) -> Option<(Control, Follower, Waker)> {
    let orders = match open_orders(rt, path, true) {
        Ok(orders) => orders,
        Err(error) => {
            complain(rt, path, fault_of(error.kind(), ToolFault::Input));
            return None;
        }
    };
    let Ok((bytes, operator)) = RingBuffer::new(rt.alloc(), WAITING) else {
        out_of_memory(rt);
        return None;
    };
    let Ok((follower, waker)) = follower_of(rt.alloc(), path, orders, bytes) else {
        out_of_memory(rt);
        return None;
    };
    let Ok(stop) = Arc::new(rt.alloc(), AtomicBool::new(false)) else {
        out_of_memory(rt);
        return None;
    };
    let control = Control {
        bytes: operator,
        stop,
        kept: None,
    };
    Some((control, follower, waker))
}

/// A recording that may begin.
#[derive(Drop)]
struct Ready<'a> {
    asked: Asked<'a>,
    plan: Plan,
    place: Arc<Place, Global>,
    operator: Option<Control>,
    following: Option<(Follower, Waker)>,
    /// The file in which an operator's rules are kept, for two threads.
    kept: Option<(Shared, Shared)>,
    events: Option<(EventLines, EventFile)>,
}

/// The same recording with the file of events of this path. Returns the exit status if that isn't
/// possible.
fn with_events<'a, R: Files<File = File> + Eprint + AllocGlobal>(
    rt: &R,
    ready: Ready<'a>,
    path: &str,
) -> Result<Ready<'a>, u8> {
    let mut ready = ready;
    let Some(inputs) = inputs_in(rt, &ready.plan) else {
        return Err(1);
    };
    ready.events = events_at(rt, path, inputs);
    match ready.events {
        Some(_) => Ok(ready),
        None => Err(1),
    }
}

/// The same recording with the operator who writes to this file. Its rules are kept if the set-up names
/// a file for them. Returns the exit status if that isn't possible.
fn with_operator<'a, R: Files<File = File> + Eprint + AllocGlobal>(
    rt: &R,
    ready: Ready<'a>,
    path: &str,
) -> Result<Ready<'a>, u8> {
    let mut ready = ready;
    let Some((mut operator, follower, waker)) = followed(rt, path) else {
        return Err(1);
    };
    if let Some(file) = &ready.plan.rules {
        let Ok((file, other, new)) = kept_rules_of(rt.alloc(), file.path.as_str()) else {
            return Err(out_of_memory(rt));
        };
        operator.kept = Some(new);
        ready.kept = Some((file, other));
    }
    ready.operator = Some(operator);
    ready.following = Some((follower, waker));
    Ok(ready)
}

/// Checks and opens what these arguments name. Returns the exit status if nothing is to be recorded.
fn made_ready<'a, K: Records, R: Files<File = File> + Input + Print + Eprint + AllocGlobal>(
    rt: &R,
    texts: &'a [&'a str],
    records: &mut K,
) -> Result<Ready<'a>, u8> {
    let asked = match answer_of(rt.alloc(), texts) {
        Ok(Answer::Do(asked)) => asked,
        Ok(Answer::Look) => return Err(look(rt)),
        Ok(Answer::Print(text)) => return Err(print_text(rt, text.as_str())),
        Ok(Answer::Refuse(text)) => return Err(refuse_words(rt, text.as_str())),
        Err(_) => return Err(out_of_memory(rt)),
    };
    let Some(plan) = plan_of(rt, &asked) else {
        return Err(1);
    };
    let place = match Place::open(rt, asked.folder) {
        Ok(place) => place,
        Err(fault) => return Err(complain(rt, asked.folder, fault)),
    };
    let Ok(other) = Arc::try_clone(&place) else {
        return Err(out_of_memory(rt));
    };
    if let Err(fault) = records.open(other, keep_of(&asked), asked.has_headers) {
        return Err(complain(rt, asked.folder, fault));
    }
    if asked.is_check {
        return Err(0);
    }
    let ready = Ready {
        asked,
        plan,
        place,
        operator: None,
        following: None,
        kept: None,
        events: None,
    };
    let ready = match asked.events {
        Some(path) => with_events(rt, ready, path)?,
        None => ready,
    };
    match asked.orders {
        Some(path) => with_operator(rt, ready, path),
        None => Ok(ready),
    }
}

// Only `main` may start a thread that has the runtime's files, so all of them begin here. They are
// not waited for: they end with the program.
fn main(rt: HostRuntime) -> ExitCode {
    let words = match words_of(&rt) {
        Ok(words) => words,
        Err(error) => return ExitCode::from(refuse_start(&rt, error.kind())),
    };
    let Ok(texts) = texts_of(&rt, &words) else {
        return ExitCode::from(out_of_memory(&rt));
    };
    let mut folder = Folder::new(&rt);
    let ready = match made_ready(&rt, &texts, &mut folder) {
        Ok(ready) => ready,
        Err(status) => return ExitCode::from(status),
    };
    let Ready {
        asked,
        plan,
        place,
        operator,
        following,
        kept,
        events,
    } = ready;
    let mut plan = plan;
    let bus = plan.bus.take();
    let frame = plan.frame_in(asked.input);
    let station = plan.station.as_slice();
    let Ok((heard, health)) = health_of(rt.alloc(), asked.health, frame, station) else {
        return ExitCode::from(out_of_memory(&rt));
    };
    let Ok((lines, mut waiting, progress)) = lines_of(&rt, &heard, asked.how()) else {
        return ExitCode::from(out_of_memory(&rt));
    };
    let (Some(one), Some(two), Some(three), Some(four), Some(five), Some(six), Some(seven)) = (
        copy_of(&rt),
        copy_of(&rt),
        copy_of(&rt),
        copy_of(&rt),
        copy_of(&rt),
        copy_of(&rt),
        copy_of(&rt),
    ) else {
        return ExitCode::from(1);
    };
    let lines_begun = thread::spawn(&rt, move || write_lines(&one, &mut waiting, &progress));
    let mut begun = has_begun(&rt, lines_begun);
    begun = begun && has_begun(&rt, thread::spawn(&rt, move || watch(&two, &place)));
    if let Some((mut follower, waker)) = following {
        begun = begun && has_begun(&rt, thread::spawn(&rt, move || follower.follow(&three)));
        begun = begun && has_begun(&rt, thread::spawn(&rt, move || waker.wake(&four)));
    }
    let events = match events {
        Some((lines, mut file)) => {
            let writes = move || file.keep_written(&seven);
            begun = begun && has_begun(&rt, thread::spawn(&rt, writes));
            Some(lines)
        }
        None => None,
    };
    let source = match (&operator, bus) {
        (None, None) => Source::Direct(rt.reader()),
        (None, Some(bus)) => match bus_lines(&rt, bus, rt.reader()) {
            Some(lines) => Source::Capture(lines),
            None => return ExitCode::from(1),
        },
        (Some(control), bus) => {
            let (has_pieces, size) = plan.pieces_in(asked.input);
            let Some((mut feeder, fed)) = fed_of(&rt, control, has_pieces, size) else {
                return ExitCode::from(1);
            };
            let reads = move || read_input(&six, &mut feeder, bus);
            begun = begun && has_begun(&rt, thread::spawn(&rt, reads));
            Source::Fed(fed)
        }
    };
    let mut last = None;
    if let Some((file, other)) = health {
        begun = begun && has_begun(&rt, thread::spawn(&rt, move || keep_written(&five, &file)));
        last = Some(other);
    }
    let mut kept_last = None;
    if let Some((file, other)) = kept {
        let Some(seven) = copy_of(&rt) else {
            return ExitCode::from(1);
        };
        begun = begun && has_begun(&rt, thread::spawn(&rt, move || keep_rules(&seven, &file)));
        kept_last = Some(other);
    }
    if !begun {
        return ExitCode::from(1);
    }
    let input = Heeded {
        rt: &rt,
        input: source,
        heard,
        frame,
    };
    let store = Limited::new(folder, asked.most);
    let mut printed = Printed {
        rt: &rt,
        lines,
        events,
    };
    let status = record(&rt, &asked, &plan, operator, input, store, &mut printed);
    printed.finish();
    if let Some(file) = kept_last {
        keep_last(&rt, &file);
    }
    if let Some(file) = last {
        write_last(&rt, &file);
    }
    ExitCode::from(status)
}
