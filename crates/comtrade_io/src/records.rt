//! The records that a replay printed.

ghost use Rattle.std.specs.Prelude.{◌≡◌, ◌≢◌, MatchOption, ◌∷◌, ◌++◌, ◌<◌, ◌^◌, ℕ, List, [], Some, IfNone, IfSome, IsSomeAnd, IsTrue, length, codes, decimal, position};
ghost use Rattle.std.specs.List.{before_first, after_first};
ghost use Rattle.comtrade_io.specs.Replayed as Replayed;
ghost use Rattle.comtrade_io.specs.Pieces.{is_feed, is_space, Holds, Answers, Ends};

use comtrade_values::numeral_of;

/// A record's number and the bytes of its two files.
#[derive(Clone, Copy, Debug)]
pub struct Printed<'a> {
    pub number: u64,
    pub cfg: &'a [u8],
    pub dat: &'a [u8],
}

/// What stands next in what a replay printed.
#[derive(Clone, Copy, Debug)]
pub enum Next<'a> {
    /// A record, and what stands after it.
    Record(Printed<'a>, &'a [u8]),
    /// Nothing more.
    End,
    /// A line that no replay prints, or a record that is cut off.
    Foreign(&'a [u8]),
    /// The replay ended with this fault.
    Fault(&'a [u8]),
}

/// Where the first line ends.
fn place_of_feed(text: &[u8]) -> Option<usize>
    ensures { result ≡ position is_feed text.now }
{
    text.iter().position(|b| *b == b'\n')
}

/// The first line, and what stands after it; None at the end.
#[tactic(auto, using(comtrade_values::proofs::Cuts::cuts))]
fn line_of(text: &[u8]) -> Option<(&[u8], &[u8])>
    ensures none { MatchOption result (text.now ≡ []) (λ p. text.now ≢ []) }
    ensures line { IfSome result (λ p. p.0.now ≡ before_first is_feed text.now) }
    ensures rest { IfSome result (λ p. p.1.now ≡ after_first is_feed text.now) }
{
    if text.is_empty() {
        return None;
    }
    match place_of_feed(text) {
        Some(at) => Some((&text[..at], &text[at + 1..])),
        None => Some((text, &[])),
    }
}

/// The number that digits spell, where it has 64 bits.
fn number_of(digits: &[u8]) -> Option<u64>
    ensures { (n : ℕ) → n < 2 ^ 64 → digits.now ≡ decimal n → result ≡ Some n }
{
    u64::try_from(numeral_of(digits)?).ok()
}

/// Whether a replay prints such a line outside of records.
fn is_answer(line: &[u8]) -> bool
    ensures { (a : Replayed.Answer) → line.now ≡ Replayed.answer_line a → IsTrue result }
{
    line.starts_with(b"scan ")
        || line.starts_with(b"lost ")
        || line.starts_with(b"trigger ")
        || line.starts_with(b"rules ")
        || line == b"take none".as_slice()
}

/// The bytes that a line announces with this word and their number, and what stands after them.
fn bytes_of<'a>(text: &'a [u8], word: &[u8]) -> Option<(&'a [u8], &'a [u8])>
    ensures { (bytes after : List ℕ) → length bytes < 2 ^ 64 → Replayed.IsOneLine word.now
        → text.now ≡ Replayed.sized word.now bytes after
        → IsSomeAnd result (λ p. (p.0.now ≡ bytes) × (p.1.now ≡ after)) }
{
    let (line, rest) = line_of(text)?;
    let length = number_of(line.strip_prefix(word)?)?;
    rest.split_at_checked(length as usize)
}

/// Where the first word ends.
fn place_of_space(text: &[u8]) -> Option<usize>
    ensures { result ≡ position is_space text.now }
{
    text.iter().position(|b| *b == b' ')
}

/// What stands before the first blank.
#[tactic(auto, using(comtrade_values::proofs::Cuts::cuts))]
fn word_of(text: &[u8]) -> &[u8]
    ensures { result.now ≡ before_first is_space text.now }
{
    match place_of_space(text) {
        Some(at) => &text[..at],
        None => text,
    }
}

/// The record whose first line has this rest.
fn record_of<'a>(line: &'a [u8], text: &'a [u8]) -> Option<(Printed<'a>, &'a [u8])>
    ensures { (r : Replayed.Taken) (after : List ℕ) → Replayed.IsRecord r
        → line.now ≡ Replayed.extent_words r → text.now ≡ Replayed.files_text r after
        → IsSomeAnd result (λ p. Holds p.0 r × (p.1.now ≡ after)) }
{
    let number = number_of(word_of(line))?;
    let (cfg, rest) = bytes_of(text, b"cfg ")?;
    let (dat, rest) = bytes_of(rest, b"dat ")?;
    let rest = rest.strip_prefix(b"\n")?;
    Some((Printed { number, cfg, dat }, rest))
}

/// What stands first in what a replay printed.
enum Piece<'a> {
    /// An answer that is a line, and what stands after it.
    Answer(&'a [u8]),
    /// Anything else.
    Last(Next<'a>),
}

/// What stands first in what a replay printed.
fn piece_of(text: &[u8]) -> Piece<'_>
    ensures answer { (a : Replayed.Answer) (after : List ℕ)
        → Replayed.IsOneLine (Replayed.answer_line a)
        → text.now ≡ Replayed.answers_text (a ∷ []) after → Answers result after }
    ensures ending { (e : Replayed.Ending) → Replayed.IsEnding e
        → text.now ≡ Replayed.ending_text e → Ends result e }
{
    let Some((line, rest)) = line_of(text) else {
        return Piece::Last(Next::End);
    };
    if let Some(words) = line.strip_prefix(b"record ") {
        return Piece::Last(match record_of(words, rest) {
            Some((record, rest)) => Next::Record(record, rest),
            None => Next::Foreign(line),
        });
    }
    if line.starts_with(b"fault ") {
        return Piece::Last(Next::Fault(line));
    }
    if is_answer(line) {
        return Piece::Answer(rest);
    }
    Piece::Last(Next::Foreign(line))
}

/// What stands next in what a replay printed, after the answers that are lines.
pub fn next_record(text: &[u8]) -> Next<'_>
    ensures { (answers : List Replayed.Answer) (e : Replayed.Ending)
        → Replayed.AreLines answers → Replayed.IsEnding e
        → text.now ≡ Replayed.answers_text answers (Replayed.ending_text e)
        → Replayed.Finds result e }
{
    let mut left = text;
    for _i in 0..text.len() {
        match piece_of(left) {
            Piece::Answer(rest) => left = rest,
            Piece::Last(next) => return next,
        }
    }
    Next::End
}
