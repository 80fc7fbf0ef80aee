//! What each caller saw, and what the end left, as lines of text.

use crate::soak::desk::{Acquiring, Desk, Held, Offered};
use crate::soak::notes::{record_sum, scan_sum};
use crate::soak::out::Out;
use dfr_live::{Call, Ended, Entry, Session};
use dfr_recorder::Recorder;
use std::alloc::Allocator;
use std::sync::{Mutex, Wait};

fn put_seen(out: &mut Out, seen: &[Offered]) {
    let mut taken = 0u64;
    for one in seen {
        match *one {
            Offered::Taken => taken = taken.saturating_add(1),
            Offered::Lost(n) => {
                out.item(" ", taken);
                out.item(" l", n as u64);
                taken = 0;
            }
        }
    }
    out.item(" ", taken);
}

fn put_source<N: Session<A>, A: Allocator>(out: &mut Out, acquiring: &Acquiring<N, A>) {
    out.item("source full ", acquiring.full);
    out.put(":");
    put_seen(out, &acquiring.seen);
    out.item("\nlost ", acquiring.source.lost() as u64);
    out.put("\n");
}

fn put_notes<A: Allocator>(out: &mut Out, held: &Held<A>) {
    let seat = held.token.seat() as u64;
    for note in &held.notes {
        out.item("", seat);
        out.put(" ");
        out.debug(*note);
        out.put("\n");
    }
    out.item("", seat);
    out.item(" pumped ", held.token.pumped());
    out.put("\n");
}

/// Whether the threads were started, and what each caller saw.
pub fn put_callers<N: Session<A>, A: Allocator>(
    rt: &impl Wait,
    out: &mut Out,
    desk: &Desk<'_, N, A>,
    started: bool,
) {
    out.put("started ");
    out.debug(started);
    out.put("\n");
    for held in &desk.tokens {
        put_notes(out, &held.lock(rt));
    }
    put_source(out, &desk.acquiring.lock(rt));
}

fn put_entry<A: Allocator>(out: &mut Out, entry: &Entry<A>) {
    out.item("log ", entry.caller as u64);
    out.item(" ", entry.at);
    out.put(" ");
    out.debug(entry.reply);
    if let Call::SetRules(rules) = &entry.call {
        out.put(" ");
        out.rules(rules.list());
    }
    out.put("\n");
}

fn put_counts<A: Allocator + Copy>(out: &mut Out, recorder: &Recorder<A>) {
    out.item("recorder ", recorder.scans());
    out.item(" ", recorder.waiting() as u64);
    out.put(" ");
    out.debug(recorder.is_recording());
    out.item(" ", recorder.held());
    out.put("\nrules ");
    out.rules(recorder.rules().list());
    out.put("\n");
}

fn put_recorder<A: Allocator + Copy>(out: &mut Out, recorder: &mut Recorder<A>) {
    put_counts(out, recorder);
    for _ in 0..recorder.waiting() {
        if let Some(record) = recorder.take() {
            out.put("waits ");
            out.debug(record.extent());
            out.item(" ", record_sum(&record));
            out.put("\n");
        }
    }
}

/// The log, what is left, what the recorder counts, and the records that wait in it.
pub fn put_ended<A: Allocator + Copy>(out: &mut Out, ended: Ended<A>) {
    for entry in &ended.log {
        put_entry(out, entry);
    }
    for item in &ended.left {
        out.item("left ", item.lost as u64);
        out.item(" ", scan_sum(&item.scan));
        out.put("\n");
    }
    let mut ended = ended;
    put_recorder(out, &mut ended.recorder);
    drop(ended);
}
