//! Which bytes of a text are a character that people see.

ghost use Rattle.std.specs.Prelude.{◌≡◌, take};
ghost use Rattle.comtrade_io.specs.Safe as Safe;

/// The characters from the first to the last.
fn is_between(first: u32, last: u32, c: u32) -> bool
    ensures { result ≡ Safe.is_between first last c }
{
    first <= c && c <= last
}

/// The controls of ASCII and those after it.
fn is_control(c: u32) -> bool
    ensures { result ≡ Safe.is_control c }
{
    is_between(0, 31, c) || is_between(127, 159, c)
}

/// Marks that hyphenate, join, turn or end a line.
fn is_mark(c: u32) -> bool
    ensures { result ≡ Safe.is_mark c }
{
    c == 0xAD
        || c == 0x61C
        || c == 0x180E
        || is_between(0x200B, 0x200F, c)
        || is_between(0x2028, 0x202E, c)
        || is_between(0x2060, 0x206F, c)
        || c == 0xFEFF
}

/// Characters that are no sign of a script.
fn is_unassigned(c: u32) -> bool
    ensures { result ≡ Safe.is_unassigned c }
{
    is_between(0xE000, 0xF8FF, c)
        || is_between(0xFFF0, 0xFFFB, c)
        || is_between(0xFFFE, 0xFFFF, c)
        || 0xE0000 <= c
}

/// A character that isn't seen, or that changes how others are seen.
fn is_hidden(c: u32) -> bool
    ensures { result ≡ Safe.is_hidden c }
{
    is_control(c) || is_mark(c) || is_unassigned(c)
}

/// Whether the bytes are UTF-8, and the first character that they spell is seen.
fn begins_seen(bytes: &[u8]) -> bool
    ensures { result ≡ Safe.begins_seen bytes.now }
{
    let Ok(text) = str::from_utf8(bytes) else {
        return false;
    };
    match text.chars().next() {
        Some(c) => !is_hidden(c as u32),
        None => false,
    }
}

/// The first bytes of a text, all where it has fewer.
fn front(text: &[u8], count: usize) -> &[u8]
    ensures { result.now ≡ take count text.now }
{
    text.get(..count).unwrap_or(text)
}

/// How many bytes the first character of a text has, where these are UTF-8 and it is seen; else 0.
pub fn seen_len(text: &[u8]) -> usize
    ensures { result ≡ Safe.seen_len text.now }
{
    if begins_seen(front(text, 1)) {
        return 1;
    }
    if begins_seen(front(text, 2)) {
        return 2;
    }
    if begins_seen(front(text, 3)) {
        return 3;
    }
    if begins_seen(front(text, 4)) { 4 } else { 0 }
}
