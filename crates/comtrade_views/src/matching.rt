//! Channels of two records that belong to each other, though their names differ.

use crate::alike::{has_namesake, is_namesake, only_alike};
use crate::cycles::place_of;
use comtrade_format::{File, Head};
use comtrade_io::{ToolFault, put_safe};
use comtrade_values::{Decimal, Items, put};
use dfr_channels::AnalogChannel;
use std::alloc::{AllocError, Allocator};
use std::mem;

/// A channel of the first record and the one of the second that belongs to it, by their indices.
#[derive(Clone, Copy)]
struct Match {
    one: usize,
    other: usize,
}

/// The power of ten of a unit's prefix, and the unit without it.
fn prefix_of(unit: &[u8]) -> (i8, &[u8]) {
    match unit {
        [b'k', rest @ ..] if !rest.is_empty() => (3, rest),
        [b'M', rest @ ..] if !rest.is_empty() => (6, rest),
        [b'm', rest @ ..] if !rest.is_empty() => (-3, rest),
        _ => (0, unit),
    }
}

/// A number times a power of ten; None where it has too many digits or places.
fn scaled(value: Decimal, power: i8) -> Option<Decimal> {
    let places = i16::from(value.places()).checked_sub(i16::from(power))?;
    if 0 <= places {
        return Decimal::new(value.units(), u8::try_from(places).ok()?);
    }
    let factor = 10u64.checked_pow(u32::from(places.unsigned_abs()))?;
    Decimal::new(value.units().checked_mul(i128::from(factor))?, 0)
}

/// The factor and the offset of a channel for values in this unit; None where it isn't the
/// channel's with another prefix.
fn factors_in<A: Allocator>(channel: &AnalogChannel<A>, unit: &[u8]) -> Option<(Decimal, Decimal)> {
    let (from, base) = prefix_of(channel.unit.items());
    let (to, wanted) = prefix_of(unit);
    if base != wanted {
        return None;
    }
    let power = from.checked_sub(to)?;
    Some((scaled(channel.a, power)?, scaled(channel.b, power)?))
}

/// The channel of the second record that belongs to one of the first: neither is compared as it is
/// with a channel of the other record, each is the only one there that is alike, and their units
/// differ only by a prefix.
fn alike_of<A: Allocator>(
    ones: &[AnalogChannel<A>],
    others: &[AnalogChannel<A>],
    one: usize,
) -> Option<Match> {
    let channel = ones.get(one)?;
    if has_namesake(others, channel) {
        return None;
    }
    let other = only_alike(channel, others)?;
    let beside = others.get(other)?;
    if has_namesake(ones, beside) || only_alike(beside, ones)? != one {
        return None;
    }
    factors_in(beside, channel.unit.items())?;
    Some(Match { one, other })
}

/// Why a pair of names means no channels.
#[derive(Clone, Copy)]
enum NoMatch {
    Sign,
    One,
    Other,
    Units,
    Twice,
}

/// The same in words.
fn words_of(fault: NoMatch) -> &'static str {
    match fault {
        NoMatch::Sign => "it has no = between two names",
        NoMatch::One => "A has no channel with the first name or number",
        NoMatch::Other => "B has no channel with the second name or number",
        NoMatch::Units => "the units of the channels differ",
        NoMatch::Twice => "one of the channels stands in two pairs",
    }
}

/// The channels that a pair of names such as `UA=VA` means, if their units differ only by a prefix.
fn match_named<A: Allocator>(one: &Head<A>, other: &Head<A>, pair: &str) -> Result<Match, NoMatch> {
    let Some((left, right)) = pair.split_once('=') else {
        return Err(NoMatch::Sign);
    };
    let Some(first) = place_of(one, left.trim()) else {
        return Err(NoMatch::One);
    };
    let Some(second) = place_of(other, right.trim()) else {
        return Err(NoMatch::Other);
    };
    let found = Match {
        one: first,
        other: second,
    };
    match (
        one.analog.items().get(first),
        other.analog.items().get(second),
    ) {
        (Some(one), Some(other)) if factors_in(other, one.unit.items()).is_some() => Ok(found),
        _ => Err(NoMatch::Units),
    }
}

/// Adds a pair that means no channels, and why.
fn put_no_match<A: Allocator>(
    told: &mut Vec<u8, A>,
    pair: &str,
    fault: NoMatch,
) -> Result<(), AllocError> {
    put(told, "\"")?;
    put_safe(told, pair.as_bytes())?;
    put(told, "\": ")?;
    put(told, words_of(fault))
}

/// Whether one of these channels has been matched.
fn is_matched(matches: &[Match], found: Match) -> bool {
    for pair in matches {
        if pair.one == found.one || pair.other == found.other {
            return true;
        }
    }
    false
}

/// A copy of a text.
fn copy_of<A: Allocator>(alloc: A, text: &Items<u8, A>) -> Result<Items<u8, A>, AllocError> {
    Ok(Items::of(Vec::from_slice(alloc, text.items())?))
}

/// Gives a channel of the second record the name, phase, component and unit of the one of the first,
/// if its unit allows that; a namesake beside it gets its own name in exchange.
fn name_as<A: Allocator + Copy>(
    alloc: A,
    one: &AnalogChannel<A>,
    others: &mut [AnalogChannel<A>],
    place: usize,
) -> Result<(), AllocError> {
    let Some(other) = others.get(place) else {
        return Ok(());
    };
    let Some((a, b)) = factors_in(other, one.unit.items()) else {
        return Ok(());
    };
    let own = Vec::from_slice(alloc, other.id.items())?;
    for other in others.iter_mut() {
        if other.id.items() == one.id.items() {
            other.id = Items::of(Vec::from_slice(alloc, &own)?);
        }
    }
    if let Some(other) = others.get_mut(place) {
        other.id = copy_of(alloc, &one.id)?;
        other.phase = copy_of(alloc, &one.phase)?;
        other.component = copy_of(alloc, &one.component)?;
        other.unit = copy_of(alloc, &one.unit)?;
        other.a = a;
        other.b = b;
    }
    Ok(())
}

/// What is added to the name of a channel that has the name of the one that it is compared with.
const DIFFERENT: &str = " (another unit, side, phase or component)\n";

/// A line for each channel of the first record, with the one that it is compared with.
fn put_matches<A: Allocator>(
    told: &mut Vec<u8, A>,
    one: &File<A>,
    other: &File<A>,
    matches: &[Match],
) -> Result<(), AllocError> {
    let (ones, others) = (one.head.analog.items(), other.head.analog.items());
    for pair in matches {
        if let (Some(one), Some(other)) = (ones.get(pair.one), others.get(pair.other)) {
            put_safe(told, one.id.items())?;
            put(told, " is compared with ")?;
            put_safe(told, other.id.items())?;
            let is_other = one.id.items() == other.id.items() && !is_namesake(one, other);
            put(told, if is_other { DIFFERENT } else { "\n" })?;
        }
    }
    Ok(())
}

/// Gives channels of the second record the names of those of the first that they belong to.
fn name_all<A: Allocator + Copy>(
    alloc: A,
    one: &File<A>,
    other: &mut File<A>,
    matches: &[Match],
) -> Result<(), AllocError> {
    let ones = one.head.analog.items();
    let list = &mut other.head.analog;
    let mut channels = mem::replace(list, Items::of(Vec::new(alloc))).into_vec();
    let mut named = Ok(());
    for pair in matches {
        if let Some(one) = ones.get(pair.one) {
            if named.is_ok() {
                named = name_as(alloc, one, &mut channels, pair.other);
            }
        }
    }
    other.head.analog = Items::of(channels);
    named
}

/// The channels that pairs such as `UA=VA,IA=IL1` mean, if any are given; None where one means none,
/// or a channel stands twice, and `told` then has that pair and why.
fn matches_named<A: Allocator + Copy>(
    alloc: A,
    one: &File<A>,
    other: &File<A>,
    pairs: Option<&str>,
    told: &mut Vec<u8, A>,
) -> Result<Option<Vec<Match, A>>, AllocError> {
    let mut matches = Vec::new(alloc);
    let Some(pairs) = pairs else {
        return Ok(Some(matches));
    };
    for pair in pairs.split(',') {
        let fault = match match_named(&one.head, &other.head, pair) {
            Ok(found) if !is_matched(&matches, found) => {
                matches.push(found)?;
                continue;
            }
            Ok(_) => NoMatch::Twice,
            Err(fault) => fault,
        };
        put_no_match(told, pair, fault)?;
        return Ok(None);
    }
    Ok(Some(matches))
}

/// The channels that belong to each other by what they measure.
fn matches_alike<A: Allocator + Copy>(
    alloc: A,
    one: &File<A>,
    other: &File<A>,
) -> Result<Vec<Match, A>, AllocError> {
    let (ones, others) = (one.head.analog.items(), other.head.analog.items());
    let mut matches = Vec::new(alloc);
    for place in 0..ones.len() {
        if let Some(found) = alike_of(ones, others, place) {
            matches.push(found)?;
        }
    }
    Ok(matches)
}

/// Gives channels of the second record the names of those of the first that belong to them: those of
/// pairs such as `UA=VA,IA=IL1`, then those of the same phase and kind where no channel is compared as
/// it is. `told` gets a line for each. False where a pair does not name channels of one unit, each
/// once; `told` then gets only that pair and why.
pub fn match_channels<A: Allocator + Copy>(
    alloc: A,
    one: &File<A>,
    other: &mut File<A>,
    pairs: Option<&str>,
    told: &mut Vec<u8, A>,
) -> Result<bool, ToolFault> {
    let Some(matches) = matches_named(alloc, one, other, pairs, told)? else {
        return Ok(false);
    };
    put_matches(told, one, other, &matches)?;
    name_all(alloc, one, other, &matches)?;
    let matches = matches_alike(alloc, one, other)?;
    put_matches(told, one, other, &matches)?;
    name_all(alloc, one, other, &matches)?;
    Ok(true)
}
