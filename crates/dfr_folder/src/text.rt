//! The name of a file as text: what it was made from can be read back.

ghost use Rattle.std.specs.Prelude.{◌≡◌, ◌⊎◌, ◌≤◌, ◌<◌, ◌^◌, ◌++◌, ◌∷◌, ℕ, List, Some, None, IfSome, MatchOption, OnOk, true, get_or, length, decimal};
ghost use Rattle.comtrade_values.specs.Written.{padded};
ghost use Rattle.dfr_folder.specs.declared.name.Name.{Name};
ghost use Rattle.dfr_folder.specs.declared.name.Ending.{Ending};
ghost use Rattle.dfr_folder.specs.Texts.{CanBeNamed, Lacks, ending_text, key_text, name_text, numbers_text};

use crate::name::{Ending, Key, Name};
use comtrade_values::{put, put_number, put_padded, short_number};
use std::alloc::{AllocError, Allocator};

/// Appends the name that the files of a key begin with.
#[tactic(auto, unfolding(crate::specs::Texts::key_text, crate::specs::Texts::numbers_text))]
pub fn put_key<A: Allocator>(out: &mut Vec<u8, A>, key: Key) -> Result<(), AllocError>
    ensures { OnOk result (out.new.items ≡ out.old.items ++ key_text key) }
{
    put_padded(out, key.date as u64, 8)?;
    out.push(b'T')?;
    put_padded(out, key.time as u64, 6)?;
    out.push(b'.')?;
    put_padded(out, key.micros as u64, 6)?;
    out.push(b'-')?;
    put_numbers(out, key.number, key.copy)
}

/// Appends a record's number, and the number at the end of its name.
#[tactic(auto, unfolding(crate::specs::Texts::numbers_text))]
fn put_numbers<A: Allocator>(out: &mut Vec<u8, A>, number: u64, copy: u64) -> Result<(), AllocError>
    ensures { OnOk result (out.new.items ≡ out.old.items ++ numbers_text number copy) }
{
    put_number(out, number)?;
    if copy == 1 {
        return Ok(());
    }
    out.push(b'-')?;
    put_number(out, copy)
}

/// What the names of these files end in, after a point.
fn text_of(ending: Ending) -> &'static str
    ensures { result.now ≡ ending_text ending }
{
    match ending {
        Ending::Config => "cfg",
        Ending::Data => "dat",
        Ending::ConfigPart => "cfg.part",
        Ending::DataPart => "dat.part",
        Ending::Gone => "cfg.gone",
    }
}

/// Appends the name of a file.
#[tactic(auto, unfolding(crate::specs::Texts::name_text))]
pub fn put_name<A: Allocator>(out: &mut Vec<u8, A>, name: Name) -> Result<(), AllocError>
    ensures { OnOk result (out.new.items ≡ out.old.items ++ name_text name) }
{
    put_key(out, name.key)?;
    out.push(b'.')?;
    put(out, text_of(name.ending))
}

/// The bytes before the first of these, and those behind it.
fn cut(text: &[u8], mark: u8) -> Option<(&[u8], &[u8])>
    ensures parts { IfSome result (λ r. text.now ≡ r.0.now ++ mark ∷ r.1.now) }
    ensures reads { (front rest : List ℕ) → Lacks mark front → text.now ≡ front ++ mark ∷ rest
        → MatchOption result ⊥ (λ r. (r.0.now ≡ front) × (r.1.now ≡ rest)) }
    ensures none { result ≡ None → Lacks mark text.now }
{
    for (at, b) in text.iter().enumerate() {
        if *b == mark {
            return Some((&text[..at], &text[at + 1..]));
        }
    }
    None
}

/// The number that so many digits spell.
fn padded_in(text: &[u8], width: usize) -> Option<u64>
    requires some { 0 < width }
    requires few { width ≤ 8 }
    ensures spelled { IfSome result (λ n. text.now ≡ padded width n) }
    ensures small { IfSome result (λ n. n < 10 ^ width) }
    ensures reads { (n : ℕ) → n < 10 ^ width → text.now ≡ padded width n → result ≡ Some n }
{
    if text.len() != width {
        return None;
    }
    short_number(text)
}

/// Whether there are 1 to 19 bytes, and the first of more than one is no zero.
fn is_plain(text: &[u8]) -> bool
    ensures few { result ≡ true → length text.now ≤ 19 }
    ensures some { result ≡ true → 0 < length text.now }
    ensures first { result ≡ true → get_or text.now 0 0 ≡ 48 → length text.now ≡ 1 }
    ensures all { 0 < length text.now → length text.now ≤ 19
        → (get_or text.now 0 0 ≡ 48 → length text.now ≡ 1) → result ≡ true }
{
    match text {
        [] => false,
        [_] => true,
        [first, ..] => text.len() <= 19 && *first != b'0',
    }
}

/// The number that 1 to 19 digits spell, without a leading zero.
fn number_in(text: &[u8]) -> Option<u64>
    ensures spelled { IfSome result (λ n. text.now ≡ decimal n) }
    ensures small { IfSome result (λ n. n < 10 ^ 19) }
    ensures reads { (n : ℕ) → n < 10 ^ 19 → text.now ≡ decimal n → result ≡ Some n }
{
    if !is_plain(text) {
        return None;
    }
    short_number(text)
}

/// A record's number, and the number at the end of its name.
fn both_in(number: &[u8], copy: &[u8]) -> Option<(u64, u64)>
    ensures number { IfSome result (λ r. number.now ≡ decimal r.0) }
    ensures copy { IfSome result (λ r. copy.now ≡ decimal r.1) }
    ensures fits { IfSome result (λ r. (r.0 < 10 ^ 19) × (1 < r.1) × (r.1 < 10 ^ 19)) }
    ensures reads { (n k : ℕ) → n < 10 ^ 19 → 1 < k → k < 10 ^ 19 → number.now ≡ decimal n
        → copy.now ≡ decimal k → result ≡ Some (n, k) }
{
    let Some(number) = number_in(number) else {
        return None;
    };
    let Some(copy) = number_in(copy) else {
        return None;
    };
    if copy < 2 {
        return None;
    }
    Some((number, copy))
}

/// A record's number, and the number at the end of its name; 1 if there is none.
fn numbers_in(text: &[u8]) -> Option<(u64, u64)>
    ensures spelled { IfSome result (λ r. text.now ≡ numbers_text r.0 r.1) }
    ensures fits { IfSome result (λ r. (r.0 < 10 ^ 19) × (0 < r.1) × (r.1 < 10 ^ 19)) }
    ensures reads { (n k : ℕ) → n < 10 ^ 19 → 0 < k → k < 10 ^ 19
        → text.now ≡ numbers_text n k → result ≡ Some (n, k) }
{
    if let Some((number, copy)) = cut(text, b'-') {
        return both_in(number, copy);
    }
    match number_in(text) {
        Some(number) => Some((number, 1)),
        None => None,
    }
}

/// The number that so many digits spell before this byte, and what is behind it.
fn part_in(text: &[u8], width: usize, mark: u8) -> Option<(u32, &[u8])>
    requires some { 0 < width }
    requires few { width ≤ 8 }
    requires mark { (mark < 48) ⊎ (57 < mark) }
    ensures spelled { IfSome result (λ r. text.now ≡ padded width r.0 ++ mark ∷ r.1.now) }
    ensures small { IfSome result (λ r. r.0 < 10 ^ width) }
    ensures reads { (n : ℕ) (rest : List ℕ) → n < 10 ^ width
        → text.now ≡ padded width n ++ mark ∷ rest
        → MatchOption result ⊥ (λ r. (r.0 ≡ n) × (r.1.now ≡ rest)) }
{
    let Some((digits, rest)) = cut(text, mark) else {
        return None;
    };
    let Some(number) = padded_in(digits, width) else {
        return None;
    };
    Some((number as u32, rest))
}

/// What the name of a file ends in.
fn ending_in(text: &[u8]) -> Option<Ending>
    ensures spelled { IfSome result (λ end. text.now ≡ ending_text end) }
    ensures reads { (end : Ending) → text.now ≡ ending_text end → result ≡ Some end }
{
    match text {
        b"cfg" => Some(Ending::Config),
        b"dat" => Some(Ending::Data),
        b"cfg.part" => Some(Ending::ConfigPart),
        b"dat.part" => Some(Ending::DataPart),
        b"cfg.gone" => Some(Ending::Gone),
        _ => None,
    }
}

/// The key at the start of a name, without the numbers, and the text behind it.
fn stamp_in(text: &[u8]) -> Option<(u32, u32, u32, &[u8])>
    ensures spelled { IfSome result (λ r. text.now
        ≡ padded 8 r.0 ++ (84 ∷ (padded 6 r.1 ++ (46 ∷ (padded 6 r.2 ++ (45 ∷ r.3.now)))))) }
    ensures small { IfSome result (λ r. (r.0 < 10 ^ 8) × (r.1 < 10 ^ 6) × (r.2 < 10 ^ 6)) }
    ensures reads { (date time micros : ℕ) (rest : List ℕ) → date < 10 ^ 8 → time < 10 ^ 6
        → micros < 10 ^ 6
        → text.now ≡ padded 8 date ++ (84 ∷ (padded 6 time ++ (46 ∷ (padded 6 micros ++ (45 ∷ rest)))))
        → MatchOption result ⊥ (λ r. (r.0 ≡ date) × (r.1 ≡ time) × (r.2 ≡ micros)
        × (r.3.now ≡ rest)) }
{
    let Some((date, after_date)) = part_in(text, 8, b'T') else {
        return None;
    };
    let Some((time, after_time)) = part_in(after_date, 6, b'.') else {
        return None;
    };
    let Some((micros, after_micros)) = part_in(after_time, 6, b'-') else {
        return None;
    };
    Some((date, time, micros, after_micros))
}

/// The numbers and the ending behind the instant of a name.
fn end_in(text: &[u8]) -> Option<(u64, u64, Ending)>
    ensures spelled { IfSome result (λ r. text.now
        ≡ numbers_text r.0 r.1 ++ (46 ∷ ending_text r.2)) }
    ensures fits { IfSome result (λ r. (r.0 < 10 ^ 19) × (0 < r.1) × (r.1 < 10 ^ 19)) }
    ensures reads { (n k : ℕ) (end : Ending) → n < 10 ^ 19 → 0 < k → k < 10 ^ 19
        → text.now ≡ numbers_text n k ++ (46 ∷ ending_text end) → result ≡ Some (n, k, end) }
{
    let Some((numbers, behind)) = cut(text, b'.') else {
        return None;
    };
    let Some((number, copy)) = numbers_in(numbers) else {
        return None;
    };
    let Some(ending) = ending_in(behind) else {
        return None;
    };
    Some((number, copy, ending))
}

/// The name of a file that this text spells.
fn read_name(text: &[u8]) -> Option<Name>
    ensures spelled { IfSome result (λ name. text.now ≡ name_text name) }
    ensures fits { IfSome result (λ name. CanBeNamed name.key) }
    ensures reads { (name : Name) → CanBeNamed name.key → text.now ≡ name_text name
        → result ≡ Some name }
{
    let Some((date, time, micros, end)) = stamp_in(text) else {
        return None;
    };
    let Some((number, copy, ending)) = end_in(end) else {
        return None;
    };
    let key = Key {
        date,
        time,
        micros,
        number,
        copy,
    };
    Some(Name { key, ending })
}

/// The name of a file that this text spells. None if it isn't the name of one of our files.
pub fn name_in(text: &[u8]) -> Option<Name>
    ensures spelled { IfSome result (λ name. text.now ≡ name_text name) }
    ensures fits { IfSome result (λ name. CanBeNamed name.key) }
    // What a name was made from is read back,
    ensures reads { (name : Name) → CanBeNamed name.key → text.now ≡ name_text name
        → result ≡ Some name }
    // so no two files have the same name: none is a record's and a leftover's.
    ensures one { (a b : Name) → CanBeNamed a.key → CanBeNamed b.key
        → text.now ≡ name_text a → text.now ≡ name_text b → a ≡ b }
{
    read_name(text)
}
