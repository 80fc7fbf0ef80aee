//! Reads the trigger rules of a line.

ghost use Rattle.std.specs.Prelude.{◌≡◌, if◌then◌else◌, IfOk, length, Ok, Err};
ghost use Rattle.dfr_script.specs.declared.fault.LineFault.TheVariants as line_fault;
ghost use Rattle.dfr_script.specs.Faults.{Is};
ghost use Rattle.dfr_script.specs.RuleLines as spec;
ghost use Rattle.comtrade_values.specs.Lines.{texts};

use crate::fault::{LineFault, LineRefusal};
use crate::fields::{natural_of, needed, small_of};
use comtrade_values::{is_blank, is_word};
use dfr_channels::Rule;
use std::alloc::{AllocError, Allocator};

/// The parts of the text, separated by semicolons.
fn parts_of<'a, A: Allocator>(alloc: A, rest: &'a [u8]) -> Result<Vec<&'a [u8], A>, AllocError>
    ensures { IfOk result (λ v. texts v.items ≡ spec.parts rest.now) }
{
    rest.split(|b| *b == b';').collect(alloc)
}

/// The words of the part, separated by blanks.
#[tactic(auto, unfolding(crate::specs::RuleLines::words))]
fn words_of<'a, A: Allocator>(alloc: A, part: &'a [u8]) -> Result<Vec<&'a [u8], A>, AllocError>
    ensures { IfOk result (λ v. texts v.items ≡ spec.words part.now) }
{
    part.split(|b| is_blank(*b))
        .filter(|word| !word.is_empty())
        .collect(alloc)
}

/// Whether a rule has as many words as its first word needs: four for `level`, three for `edge`, at
/// least one for any other.
#[tactic(auto, unfolding(crate::specs::RuleLines::has_shape))]
fn has_shape(words: &[&[u8]]) -> bool
    ensures { result ≡ spec.has_shape (texts words.now) }
{
    if words.is_empty() {
        return false;
    }
    if is_word(words[0], "level") {
        return words.len() == 4;
    }
    if is_word(words[0], "edge") {
        return words.len() == 3;
    }
    true
}

/// Whether the word is `yes` (true) or `no` (false); None for any other word.
fn either(word: &[u8], yes: &str, no: &str) -> Option<bool>
    ensures { result ≡ spec.either word.now yes.now no.now }
{
    if is_word(word, yes) {
        Some(true)
    } else if is_word(word, no) {
        Some(false)
    } else {
        None
    }
}

/// Reads a level rule of four words.
#[tactic(auto, unfolding(crate::specs::RuleLines::level))]
fn level_in(words: &[&[u8]]) -> Option<Rule>
    requires { length words.now ≡ 4 }
    ensures { result ≡ spec.level (texts words.now) }
{
    let channel = natural_of(words[1])?;
    let over = either(words[2], "over", "under")?;
    let threshold = small_of(words[3])?;
    Some(Rule::Level {
        channel,
        over,
        threshold,
    })
}

/// Reads an edge rule of three words.
#[tactic(auto, unfolding(crate::specs::RuleLines::edge))]
fn edge_in(words: &[&[u8]]) -> Option<Rule>
    requires { length words.now ≡ 3 }
    ensures { result ≡ spec.edge (texts words.now) }
{
    let channel = natural_of(words[1])?;
    let rise = either(words[2], "rise", "fall")?;
    Some(Rule::Edge { channel, rise })
}

/// Reads `level C over T`, `level C under T`, `edge C rise` or `edge C fall`; None otherwise.
#[tactic(auto, unfolding(crate::specs::RuleLines::rule))]
fn rule_in(words: &[&[u8]]) -> Option<Rule>
    ensures { result ≡ spec.rule (texts words.now) }
{
    if words.len() == 4 && is_word(words[0], "level") {
        level_in(words)
    } else if words.len() == 3 && is_word(words[0], "edge") {
        edge_in(words)
    } else {
        None
    }
}

/// Whether the rule of a part has as many words as it needs.
fn is_shaped<A: Allocator>(alloc: A, part: &[u8]) -> Result<bool, AllocError>
    ensures { IfOk result (λ b. b ≡ spec.has_shape (spec.words part.now)) }
{
    let words = words_of(alloc, part)?;
    Ok(has_shape(&words))
}

/// Reads the rule of a part; None if its words can't be read.
fn rule_of<A: Allocator>(alloc: A, part: &[u8]) -> Result<Option<Rule>, AllocError>
    ensures { IfOk result (λ r. r ≡ spec.rule (spec.words part.now)) }
{
    let words = words_of(alloc, part)?;
    Ok(rule_in(&words))
}

/// Checks that each rule has as many words as it needs; else the fault `Fields`.
fn shapes_of<A: Allocator + Copy>(alloc: A, parts: &[&[u8]]) -> Result<(), LineRefusal>
    ensures { Is (λ x. x) (if spec.all_shaped (texts parts.now) then Ok tt else Err line_fault.Fields) result }
{
    for part in parts {
        let shaped = is_shaped(alloc, part)?;
        if !shaped {
            return Err(LineRefusal::Fault(LineFault::Fields));
        }
    }
    Ok(())
}

/// Reads the rule of each part. One that can't be read has the fault `Number`.
fn list_of<A: Allocator + Copy>(alloc: A, parts: &[&[u8]]) -> Result<Vec<Rule, A>, LineRefusal>
    ensures { Is (λ v. v.items) (spec.rule_list (texts parts.now)) result }
{
    let mut list = Vec::new(alloc);
    for part in parts {
        let read = rule_of(alloc, part)?;
        list.push(needed(read)?)?;
    }
    Ok(list)
}

/// Reads the rules in the rest of a line, separated by `;`. An empty rest has none.
#[tactic(auto, unfolding(crate::specs::RuleLines::rules))]
pub(crate) fn rules_of<A: Allocator + Copy>(
    alloc: A,
    rest: &[u8],
) -> Result<Vec<Rule, A>, LineRefusal>
    ensures { Is (λ v. v.items) (spec.rules rest.now) result }
{
    if rest.is_empty() {
        return Ok(Vec::new(alloc));
    }
    let parts = parts_of(alloc, rest)?;
    shapes_of(alloc, &parts)?;
    list_of(alloc, &parts)
}
