//! Tokens of another opening, missing and twice, and many tokens.

ghost use Rattle.std.specs.Prelude.{◌≡◌};

use crate::live::acts::offers;
use crate::live::ends;
use crate::live::handed::{Handed, and, backwards, idle, mended, missing, right, twice};
use crate::live::station::recorder;
use crate::steps::value;
use dfr_live::{EndFault, Inner, Opened, Session, Shared, Source, Token, end};
use dfr_recorder::TriggerFault;
use std::alloc::Global;
use std::marker::Brand;
use std::sync::Wait;

fn opened(alloc: Global, seats: u32) -> Option<Opened> {
    ends::opened(alloc, recorder(alloc, 1), 8, seats)
}

fn tokens_named<N: Session<Global>>(opened: Opened) -> Vec<Token>
    requires { (opened.opening ≡ N.opening) × (opened.lane ≡ N.lane)
        × (opened.seats ≡ N.seats) }
{
    let (_, _, tokens) = opened.share::<N>();
    tokens
}

/// The tokens of another opening.
fn tokens_of(opened: Opened) -> Vec<Token> {
    tokens_named::<Brand>(opened)
}

fn first(tokens: Vec<Token>) -> Option<Token> {
    tokens.into_iter().next()
}

/// The token of seat 0 of another opening.
fn stranger(alloc: Global, seats: u32) -> Option<Token> {
    match opened(alloc, seats) {
        Some(opened) => first(tokens_of(opened)),
        None => None,
    }
}

/// The end is Ok, and its log has so many entries.
fn ends<N: Session<Global>>(
    alloc: Global,
    inner: Inner<N>,
    source: Source<N>,
    tokens: Vec<Token>,
    entries: usize,
) -> bool {
    match ends::ended(alloc, inner, source, tokens) {
        Some(ended) => ended.log.len() == entries,
        None => false,
    }
}

/// The end is refused so, and is Ok with what is handed in then.
fn ends_then<N: Session<Global>>(
    refused: Option<(EndFault, Inner<N>, Source<N>, Vec<Token>)>,
    alloc: Global,
    fault: EndFault,
    is_replaced: bool,
    then: Option<Token>,
    entries: usize,
) -> bool {
    match refused {
        Some((met, inner, source, back)) => {
            let back = mended(back, is_replaced, then);
            ends(alloc, inner, source, back, entries) && met == fault
        }
        None => false,
    }
}

fn ends_as<N: Session<Global>>(
    alloc: Global,
    inner: Inner<N>,
    source: Source<N>,
    handed: Handed,
) -> bool {
    let Handed {
        tokens,
        fault,
        is_replaced,
        then,
        entries,
    } = handed;
    match fault {
        None => ends(alloc, inner, source, tokens, entries),
        Some(fault) => {
            let refused = end(alloc, inner, source, tokens).err();
            ends_then(refused, alloc, fault, is_replaced, then, entries)
        }
    }
}

/// A stranger's pump of one scan, or its trigger before any.
fn is_called<N: Session<Global>>(
    rt: &impl Wait,
    shared: &Shared<N>,
    stranger: &mut Option<Token>,
    pumps: bool,
) -> bool {
    match stranger {
        Some(token) if pumps => shared.pump(rt, token, 8).scans == 1,
        Some(token) => shared.trigger(rt, token) == Err(TriggerFault::NoScan),
        None => false,
    }
}

fn all_take<N: Session<Global>>(rt: &impl Wait, shared: &Shared<N>, tokens: &mut [Token]) -> bool {
    for token in tokens {
        if !matches!(shared.take(rt, token), Ok(None)) {
            return false;
        }
    }
    true
}

/// What goes wrong with the tokens.
#[derive(Clone, Copy, Debug)]
enum Case {
    /// Each of the tokens makes a take, and they are handed in backwards.
    Many(usize),
    Missing,
    Twice,
    /// The token of another opening is handed in, and neither made anything.
    Exchanged,
    /// The token of another opening makes a trigger.
    Trigger,
    /// The token of another opening makes a pump.
    Pump,
}

/// The calls of the case are answered as they must be.
fn are_called<N: Session<Global>>(
    rt: &impl Wait,
    alloc: Global,
    shared: &Shared<N>,
    source: &mut Source<N>,
    tokens: &mut [Token],
    stranger: &mut Option<Token>,
    case: Case,
) -> bool {
    match case {
        Case::Many(_) => all_take(rt, shared, tokens),
        Case::Missing | Case::Twice | Case::Exchanged => true,
        Case::Trigger => is_called(rt, shared, stranger, false),
        Case::Pump => offers(source, value(alloc, 10), None)
            && is_called(rt, shared, stranger, true),
    }
}

fn handed(alloc: Global, tokens: Vec<Token>, stranger: Option<Token>, case: Case) -> Handed {
    match case {
        Case::Many(n) => right(backwards(tokens), n),
        Case::Missing => missing(tokens),
        Case::Twice => twice(tokens, stranger),
        Case::Exchanged => right(and(Vec::new(alloc), stranger), 0),
        Case::Trigger => idle(tokens, stranger, 1),
        Case::Pump => idle(tokens, stranger, 0),
    }
}

fn ends_in<N: Session<Global>, R: Wait>(
    rt: &R,
    alloc: Global,
    opened: Opened,
    stranger: Option<Token>,
    case: Case,
) -> bool
    requires { (opened.opening ≡ N.opening) × (opened.lane ≡ N.lane)
        × (opened.seats ≡ N.seats) }
{
    let (shared, mut source, mut tokens) = opened.share::<N>();
    let mut stranger = stranger;
    let called = are_called(
        rt,
        alloc,
        &shared,
        &mut source,
        &mut tokens,
        &mut stranger,
        case,
    );
    let handed = handed(alloc, tokens, stranger, case);
    ends_as(alloc, shared.unlock(), source, handed) && called
}

fn is_ended<R: Wait>(rt: &R, alloc: Global, seats: u32, case: Case) -> bool {
    match opened(alloc, seats) {
        Some(opened) => ends_in::<Brand, R>(rt, alloc, opened, stranger(alloc, seats), case),
        None => false,
    }
}

/// Tokens are told apart by their seats, their lists and their counts alone.
#[test]
fn tokens_at_the_end(rt: HostRuntime) {
    for (seats, case) in [
        (2u32, Case::Missing),
        (2, Case::Twice),
        (1, Case::Exchanged),
        (1, Case::Trigger),
        (1, Case::Pump),
        (64, Case::Many(64)),
    ] {
        assert!(rt; is_ended(&rt, rt.alloc(), seats, case), "{case:?}");
    }
}
