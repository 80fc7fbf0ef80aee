//! One fault as values.

use crate::faults::both::both_of;
use crate::faults::known::{Known, Source};
use crate::faults::members::{EndMembers, FaultMembers};
use crate::faults::parts::{
    change_members, ids_of, millis_at, millis_between, peak_members, voltage_change,
};
use crate::faults::phasors::phasors_of;
use crate::faults::place::located_of;
use crate::faults::signs::signs_of;
use crate::faults::witness::{Witness, witness_of};
use crate::faults::words::{
    EVOLVES, MISSING, OLDER, RATIO, VOLTAGES, level_words, phases_of, type_name, type_words,
};
use crate::instant::put_instant;
use crate::json::text_of;
use crate::number::ordinal;
use crate::times::time_at;
use comtrade_fault::{Disturbance, FaultType};
use comtrade_values::Memory;
use std::alloc::{AllocError, Allocator, Global};

/// The instant of a row.
fn instant_of<A: Allocator + Copy>(
    source: &Source<'_, A>,
    row: usize,
) -> Result<Option<String>, AllocError> {
    let Some(nanos) = time_at(source.times, row) else {
        return Ok(None);
    };
    let since = nanos.div_euclid(1000) + (500 <= nanos.rem_euclid(1000)) as i64;
    let file = source.file;
    let mut text = Vec::new(source.alloc);
    put_instant(&mut text, file.head.trigger as i128 + since as i128)?;
    Ok(Some(text_of(source.alloc, &text)?))
}

/// Whether a current is risen that takes no part in a fault.
fn evolves(fault: FaultType, risen: (bool, bool, bool)) -> bool {
    let (a, b, c) = phases_of(fault);
    risen.0 && !a || risen.1 && !b || risen.2 && !c
}

/// The doubts, in words.
fn doubts_of(
    alloc: Global,
    disturbance: Disturbance,
    witness: Witness,
    is_evolving: bool,
) -> Result<Vec<String>, AllocError> {
    let doubts = disturbance.doubts;
    let mut list = Vec::new(alloc);
    if is_evolving {
        list.push(String::from_str(alloc, EVOLVES)?)?;
    }
    if doubts.ratio {
        list.push(String::from_str(alloc, RATIO)?)?;
    }
    if doubts.voltages {
        list.push(String::from_str(alloc, VOLTAGES)?)?;
    }
    if disturbance.may_be_older {
        list.push(String::from_str(alloc, OLDER)?)?;
    }
    if doubts.missing {
        list.push(String::from_str(alloc, MISSING)?)?;
    }
    if doubts.level {
        list.push(String::from_str(alloc, level_words(witness))?)?;
    }
    Ok(list)
}

/// When a row of the fault's rate was taken.
fn millis_in<A: Allocator>(
    source: &Source<'_, A>,
    known: &Known,
    row: Option<usize>,
) -> Option<f64> {
    millis_at(source.times, known.row_of(row)?)
}

/// When each phase that takes part keeps to its course again.
fn end_members<A: Allocator>(source: &Source<'_, A>, known: &Known) -> EndMembers {
    let (a, b, c) = known.ends();
    EndMembers {
        a: millis_in(source, known, a),
        b: millis_in(source, known, b),
        c: millis_in(source, known, c),
    }
}

/// A row, or another one where there is none.
fn row_or(row: Option<usize>, other: usize) -> usize {
    match row {
        Some(row) => row,
        None => other,
    }
}

/// A fault as values.
pub(crate) fn fault_members<A: Allocator + Copy>(
    source: &Source<'_, A>,
    known: &Known,
) -> Result<FaultMembers, Memory> {
    let (alloc, lists, file) = (source.alloc, source.lists, source.file);
    let (place, disturbance) = (known.found.place, known.found.disturbance);
    let (inception, cleared) = (known.inception, known.cleared_row());
    let last = row_or(cleared, file.rows.items().len());
    let first_end = row_or(known.first_end(), last);
    let signs = signs_of(source, known)?;
    let both = both_of(lists, file, inception, first_end)?;
    let phasors = phasors_of(alloc, file, place, &both)?;
    let is_evolving = evolves(known.fault, phasors.risen);
    let located = located_of(source, known, &both, is_evolving)?;
    let witness = witness_of(file.head.analog.items(), known.found);
    Ok(FaultMembers {
        fault: String::from_str(alloc, type_name(known.fault))?,
        phases: String::from_str(alloc, type_words(known.fault))?,
        doubts: doubts_of(alloc, disturbance, witness, is_evolving)?,
        instant: instant_of(source, inception)?,
        inception_ms: millis_at(source.times, inception),
        inception_row: ordinal(inception),
        cleared_ms: cleared.and_then(|row| millis_at(source.times, row)),
        cleared_row: cleared.map(ordinal),
        lasts_ms: cleared.and_then(|row| millis_between(source.times, inception, row)),
        ends: end_members(source, known),
        start: signs.start,
        trip: signs.trip,
        breaker: signs.breaker,
        breaker_ms: signs.breaker_ms,
        reclose: signs.reclose,
        peak: peak_members(source, place.currents, inception, last)?,
        currents: ids_of(alloc, file, Some(place.currents))?,
        voltages: ids_of(alloc, file, place.voltages)?,
        change: change_members(disturbance.evidence.currents),
        voltage_change: voltage_change(disturbance.evidence.voltages),
        place: located.place,
        no_place: located.lack,
        reference: phasors.reference,
        phasors: phasors.list,
    })
}
