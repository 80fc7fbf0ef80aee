//! The arguments, and usage errors.

use comtrade_io::put_safe;
use comtrade_values::{put, put_number};
use std::alloc::{AllocError, Allocator};
use std::env::FillError;
use std::io::ErrorKind;
use std::rt::Env;
use std::{env, io};

/// The lines of a text, as printable characters.
pub(crate) fn safe_lines<A: Allocator>(alloc: A, text: &str) -> Result<Vec<u8, A>, AllocError> {
    let mut safe = Vec::new(alloc);
    for line in text.lines() {
        put_safe(&mut safe, line.as_bytes())?;
        put(&mut safe, "\n")?;
    }
    Ok(safe)
}

/// A name that is not UTF-8: its bytes from 80 (hexadecimal) on as `\xNN`, so that no part of it is
/// taken for UTF-8.
pub(crate) fn put_escaped<A: Allocator>(
    out: &mut Vec<u8, A>,
    name: &[u8],
) -> Result<(), AllocError> {
    for b in name {
        put_safe(out, &[*b])?;
    }
    Ok(())
}

/// Whether an argument is a number below 0.
fn is_negative(word: &str) -> bool {
    match word.as_bytes() {
        [b'-', b, ..] => b.is_ascii_digit() || *b == b'.',
        _ => false,
    }
}

/// Whether the value of this option may be below 0.
fn takes_moment(word: &str) -> bool {
    word == "--from" || word == "--to" || word == "--at" || word == "--shift"
}

/// Joins a value to the option before it.
fn join(words: &mut [String], value: &str) -> Result<(), AllocError> {
    match words.last_mut() {
        Some(option) => {
            option.push_str("=")?;
            option.push_str(value)
        }
        None => Ok(()),
    }
}

/// The arguments. A negative number after an option that takes a moment is joined to the option,
/// since it would be read as an option itself.
pub(crate) fn words_of<R: Env + AllocGlobal>(rt: &R) -> io::Result<Vec<String>> {
    let mut rest: Vec<String> = Vec::new(rt.alloc());
    let mut is_moment = false;
    for word in env::args(rt)?.skip(1) {
        if is_moment && is_negative(word.as_str()) {
            join(&mut rest, word.as_str())?;
            is_moment = false;
        } else {
            is_moment = takes_moment(word.as_str());
            rest.push(word)?;
        }
    }
    Ok(rest)
}

/// The most bytes of an argument that is printed.
const SHOWN: usize = 4096;

/// The first bytes of a buffer.
fn front(buffer: &[u8], length: usize) -> &[u8] {
    match buffer.get(..length) {
        Some(front) => front,
        None => buffer,
    }
}

/// Whether the first bytes of a buffer are not valid UTF-8.
fn is_invalid(buffer: &[u8], length: usize) -> bool {
    str::from_utf8(front(buffer, length)).is_err()
}

/// Appends the number and the bytes of an argument.
fn put_argument(out: &mut Vec<u8>, number: usize, bytes: &[u8]) -> Result<(), AllocError> {
    put(out, " ")?;
    put_number(out, number as u64)?;
    put(out, " (")?;
    put_escaped(out, bytes)?;
    put(out, ")")
}

/// Appends the number and the bytes of the first argument that is not valid UTF-8.
fn put_invalid<R: Env + AllocGlobal>(rt: &R, out: &mut Vec<u8>) -> Result<(), AllocError> {
    let mut buffer = [0u8; SHOWN];
    for number in 1..usize::MAX {
        match rt.arg(number, &mut buffer) {
            Ok(length) => {
                if is_invalid(&buffer, length) {
                    return put_argument(out, number, front(&buffer, length));
                }
            }
            Err(FillError::NotPresent) => return Ok(()),
            Err(FillError::TooLong) => {}
        }
    }
    Ok(())
}

/// Why the arguments cannot be read.
pub(crate) fn invalid_argument<R: Env + AllocGlobal>(
    rt: &R,
    kind: ErrorKind,
) -> Result<Vec<u8>, AllocError> {
    if kind == ErrorKind::OutOfMemory {
        return Err(AllocError);
    }
    let mut said = Vec::new(rt.alloc());
    put(&mut said, "error: argument")?;
    put_invalid(rt, &mut said)?;
    put(&mut said, " is not valid UTF-8\n")?;
    Ok(said)
}
