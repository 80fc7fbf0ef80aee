//! Lists of steps, with enough memory: a long one and the shortest.

use crate::bay::BAY;
use crate::steps::ran;
use dfr_recorder::{Answer, Cause, Extent, Ran};
use std::alloc::{AllocError, Global};

/// The record of a trigger after four scans.
const FIRST: Extent = Extent {
    number: 1,
    first: 1,
    trigger: 3,
    last: 5,
    cause: Cause::Manual,
};

fn is_whole(ran: &Ran, answers: usize) -> bool {
    ran.stopped.is_none() && ran.rest.is_empty() && ran.answers.len() == answers
}

fn takes_first(answers: &[Answer]) -> bool {
    match answers {
        [.., Answer::Take(Some(record))] => record.extent() == FIRST && record.scans().len() == 5,
        _ => false,
    }
}

/// Four scans, a trigger, two scans that fill its record, 1,200 more, and a take.
fn late(alloc: Global) -> Result<Vec<u8>, AllocError> {
    let mut script = Vec::from_slice(alloc, b"0123!45")?;
    script.extend_from_slice(&[b'z'; 1200])?;
    script.push(b'^')?;
    Ok(script)
}

fn is_taken(alloc: Global, script: &[u8]) -> bool {
    is_some_and!(ran(alloc, BAY, script), |ran| {
        is_whole(&ran, 1208) && takes_first(&ran.answers)
    })
}

/// With enough memory no step is handed back, however long the run was before it.
#[test]
fn runs_a_late_take(rt: HostRuntime) {
    let taken = match late(rt.alloc()) {
        Ok(script) => is_taken(rt.alloc(), &script),
        Err(_) => false,
    };
    assert!(rt; taken);
}

fn answers_none(alloc: Global) -> bool {
    is_some_and!(ran(alloc, BAY, b"^"), |ran| {
        is_whole(&ran, 1) && matches!(ran.answers.as_slice(), [Answer::Take(None)])
    })
}

/// Room for an answer is made before the first step too.
#[test]
fn runs_one_step(rt: HostRuntime) {
    assert!(rt; answers_none(rt.alloc()));
}
