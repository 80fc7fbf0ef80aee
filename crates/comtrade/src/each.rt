//! What is printed of one of many records.

use crate::load::Inputs;
use crate::opened::{say_repairs, without_program};
use crate::say;
use crate::view::{Room, shown_file, view_file};
use crate::wanted::Wanted;
use crate::zones::to_zone_of;
use bumpalo::Bump;
use comtrade_diagnostics::Zone;
use comtrade_io::{ToolFault, put_safe};
use comtrade_values::{lines_of, put, without_blank_end};
use std::alloc::Allocator;

/// What became of a record.
#[derive(Drop)]
pub(crate) enum Told {
    /// What is asked was put; the record has this trigger.
    Put(i64),
    /// It is refused, for this reason.
    Refused(Vec<u8>),
}

/// Prints lines on a record, each after its name in place of the program's.
fn say_of<R: Eprint + AllocGlobal>(rt: &R, name: &str, said: &[u8]) -> Result<(), ToolFault> {
    let mut text = Vec::new(rt.alloc());
    let lines = lines_of(rt.alloc(), said)?;
    for line in without_blank_end(&lines) {
        put_safe(&mut text, name.as_bytes())?;
        put(&mut text, ": ")?;
        put_safe(&mut text, without_program(line))?;
        put(&mut text, "\n")?;
    }
    say(rt, &text);
    Ok(())
}

/// Puts what is asked of one of many records to `out`, with lists in this room.
fn put_in<R: Eprint + AllocGlobal, A: Allocator + Copy>(
    rt: &R,
    room: Room<A>,
    zone: &mut Option<Zone>,
    wanted: Wanted<'_>,
    name: &str,
    inputs: &Inputs,
    out: &mut Vec<u8>,
) -> Result<Told, ToolFault> {
    let mut said = Vec::new(room.lists);
    let Some((asked, mut loaded)) = shown_file(room, wanted, inputs, &mut said)? else {
        say(rt, &said);
        return Ok(Told::Refused(Vec::from_slice(rt.alloc(), &said)?));
    };
    to_zone_of(zone, &mut loaded, &mut said)?;
    say_repairs(rt, name, &said)?;
    said.clear();
    let trigger = loaded.file.head.trigger;
    let is_put = view_file(&asked, loaded.file, out, &mut said)?;
    say_of(rt, name, &said)?;
    if is_put {
        Ok(Told::Put(trigger))
    } else {
        Ok(Told::Refused(Vec::from_slice(rt.alloc(), &said)?))
    }
}

/// Puts what is asked of one of many records to `out`. Its instants are those of the first record's
/// time code, which is kept in `zone`. Repairs are printed, and why it is refused.
pub(crate) fn put_each<R: Eprint + AllocGlobal>(
    rt: &R,
    zone: &mut Option<Zone>,
    wanted: Wanted<'_>,
    name: &str,
    inputs: &Inputs,
    out: &mut Vec<u8>,
) -> Result<Told, ToolFault> {
    let lists = Bump::new(rt.alloc());
    let room = Room {
        texts: rt.alloc(),
        lists: &lists,
    };
    put_in(rt, room, zone, wanted, name, inputs, out)
}
