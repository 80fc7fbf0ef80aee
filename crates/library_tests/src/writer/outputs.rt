//! Writers that fail.

use crate::streams::taking;
use comtrade_write::write_all_of;
use std::alloc::Global;
use std::io::{ErrorKind, Write};

const TEN: [u8; 10] = *b"0123456789";

/// How many of the ten bytes were written and why no more; None where all were.
fn refusal<W: Write>(w: &mut W) -> Option<(usize, ErrorKind)> {
    match write_all_of(w, &TEN) {
        Ok(()) => None,
        Err((written, error)) => Some((written, error.kind())),
    }
}

/// Whether a writer of the first bytes is answered so, and has just those.
fn is_refused(
    alloc: Global,
    (left, most, fault): (usize, usize, Option<ErrorKind>),
    wanted: Option<(usize, ErrorKind)>,
) -> bool {
    let mut w = taking(alloc, left, most, fault);
    refusal(&mut w) == wanted && TEN.get(..left) == Some(w.taken.as_slice())
}

const OTHER: Option<ErrorKind> = Some(ErrorKind::Other);

#[test]
fn four_bytes_taken(rt: HostRuntime) {
    let zero = Some((4, ErrorKind::WriteZero));
    assert!(rt; is_refused(rt.alloc(), (4, 16, OTHER), Some((4, ErrorKind::Other))));
    assert!(rt; is_refused(rt.alloc(), (4, 16, None), zero));
}

#[test]
fn one_byte_a_call(rt: HostRuntime) {
    for limit in 0..10usize {
        let other = Some((limit, ErrorKind::Other));
        assert!(rt; is_refused(rt.alloc(), (limit, 1, OTHER), other));
    }
    assert!(rt; is_refused(rt.alloc(), (10, 1, OTHER), None));
}

/// The writer would take all, once it was interrupted.
#[test]
fn nothing_tried_again(rt: HostRuntime) {
    let interrupted = Some(ErrorKind::Interrupted);
    assert!(rt;
        is_refused(
            rt.alloc(),
            (3, 3, interrupted),
            Some((3, ErrorKind::Interrupted))
        )
    );
}

#[test]
fn nothing_to_write(rt: HostRuntime) {
    let mut w = taking(rt.alloc(), 0, 1, OTHER);
    assert!(rt; write_all_of(&mut w, &[]).is_ok());
}
