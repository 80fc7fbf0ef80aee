//! The plan of a set-up file.

use comtrade_values::{Lines, read_up_to};
use dfr_capture::Plan;
use dfr_channels::Layout;
use dfr_plan::plan_of;
use dfr_script::set_up_of;
use std::alloc::{AllocError, Global};
use std::fs::File;
use std::rt::Files;

/// The greatest size of a set-up file: 16 MiB.
const LIMIT: usize = 16_777_216;

/// Whether a line says nothing of channels: it asks for detectors or rules, which `dfrd` reads.
fn is_others(line: &[u8]) -> bool {
    line.starts_with(b"detect ") || line.starts_with(b"rules ")
}

/// The same set-up, in which the lines of detectors and rules are comments.
fn plain_of(alloc: Global, text: &[u8]) -> Result<Vec<u8>, AllocError> {
    let mut plain = Vec::new(alloc);
    for line in Lines::of(text) {
        if is_others(line) {
            plain.push(b'#')?;
        }
        plain.extend_from_slice(line)?;
        plain.push(b'\n')?;
    }
    Ok(plain)
}

/// Says what is wrong with a file.
fn complain<R: Eprint>(rt: &R, path: &str, text: &str) {
    let _ = eprintln!(rt; "dfrbus: {path}: {text}");
}

/// The plan over the channels of a set-up. None if there is none; then the reason is printed.
fn plan_in<R: Eprint + AllocGlobal>(rt: &R, path: &str, text: &[u8]) -> Option<Plan> {
    let Ok(plain) = plain_of(rt.alloc(), text) else {
        complain(rt, path, "out of memory");
        return None;
    };
    let Ok(set_up) = set_up_of(rt.alloc(), &plain, 0) else {
        complain(rt, path, "not a set-up: dfrd --check says why");
        return None;
    };
    let Ok(layout) = Layout::new(set_up.setup) else {
        complain(rt, path, "not a set-up: dfrd --check says why");
        return None;
    };
    match plan_of(rt.alloc(), &layout, text) {
        Ok(plan) => Some(plan),
        Err(refusal) => {
            let _ = eprintln!(rt; "dfrbus: {path}: {refusal}");
            None
        }
    }
}

/// The plan in the set-up file of this path. None if there is none; then the reason is printed.
pub(crate) fn plan_at<R: Files + Eprint + AllocGlobal>(rt: &R, path: &str) -> Option<Plan> {
    let Ok(mut file) = File::open(rt, path) else {
        complain(rt, path, "cannot be opened");
        return None;
    };
    match read_up_to(rt.alloc(), &mut file, LIMIT) {
        Ok(text) => plan_in(rt, path, &text),
        Err(_) => {
            complain(rt, path, "cannot be read");
            None
        }
    }
}
