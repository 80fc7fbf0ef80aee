//! The end of a shared recorder, with tokens that it may refuse.

use crate::soak::chance::Chance;
use crate::soak::desk::{Desk, Heap, Held};
use crate::soak::given::stranger;
use crate::soak::out::Out;
use crate::soak::told::put_ended;
use dfr_live::{EndFault, Ended, Inner, Session, Source, Token, end};
use std::alloc::Allocator;
use std::sync::Mutex;

/// What is wrong with the first end.
#[derive(Clone, Copy, Debug)]
pub enum Trouble {
    /// A token is missing.
    Missing,
    /// A token is exchanged for that of seat 0 of another opening.
    Stranger,
    /// An allocation is refused.
    Refused,
    None,
}

impl Trouble {
    pub fn by(chance: &mut Chance) -> Trouble {
        match chance.below(4) {
            0 => Trouble::Missing,
            1 => Trouble::Refused,
            2 => Trouble::Stranger,
            _ => Trouble::None,
        }
    }
}

type Parts<N, A> = (Inner<N, A>, Source<N, A>, Vec<Token<A>, A>);

/// What came of ending: the seat of the token that was missing or exchanged at first, why the end was
/// refused then, and the end at last.
#[derive(Drop)]
pub struct Ends<A: Allocator> {
    seat: Option<u32>,
    first: Option<EndFault>,
    last: Result<Ended<A>, EndFault>,
}

fn put<A: Allocator + Copy>(tokens: &mut Vec<Token<A>, A>, token: Token<A>, chance: &mut Chance) {
    let _pushed = tokens.push(token).is_ok();
    if chance.below(2) == 0 {
        tokens.reverse();
    }
}

/// The tokens in an order by chance.
fn tokens_of<A: Allocator + Copy>(
    alloc: A,
    locks: Vec<Mutex<Held<A>>>,
    chance: &mut Chance,
) -> Vec<Token<A>, A> {
    let mut tokens = Vec::new(alloc);
    for lock in locks {
        put(&mut tokens, lock.into_inner().token, chance);
    }
    tokens
}

fn parts_of<N: Session<A>, A: Allocator + Copy>(
    alloc: A,
    desk: Desk<'_, N, A>,
    chance: &mut Chance,
) -> Parts<N, A> {
    let Desk {
        shared,
        acquiring,
        tokens,
        ..
    } = desk;
    let source = acquiring.into_inner().source;
    (shared.unlock(), source, tokens_of(alloc, tokens, chance))
}

/// Ends with all tokens, but for this stranger.
fn end_again<N: Session<A>, A: Allocator + Copy>(
    alloc: A,
    parts: Parts<N, A>,
    missing: Option<Token<A>>,
    stranger: bool,
) -> Result<Ended<A>, EndFault> {
    let (inner, source, mut tokens) = parts;
    if stranger {
        let _stranger = tokens.pop();
    }
    if let Some(token) = missing {
        let _pushed = tokens.push(token).is_ok();
    }
    match end(alloc, inner, source, tokens) {
        Ok(ended) => Ok(ended),
        Err((fault, inner, source, tokens)) => {
            drop(inner);
            drop(source);
            drop(tokens);
            Err(fault)
        }
    }
}

/// Takes a token out, and puts a stranger in.
fn exchange<A: Allocator + Copy>(alloc: A, tokens: &mut Vec<Token<A>, A>) -> Option<Token<A>> {
    let missing = tokens.pop();
    if let Some(stranger) = stranger(alloc) {
        let _pushed = tokens.push(stranger).is_ok();
    }
    missing
}

/// The token that is missing then.
fn trouble_tokens<A: Allocator + Copy>(
    alloc: A,
    tokens: &mut Vec<Token<A>, A>,
    trouble: Trouble,
) -> Option<Token<A>> {
    match trouble {
        Trouble::Missing => tokens.pop(),
        Trouble::Stranger => exchange(alloc, tokens),
        Trouble::Refused | Trouble::None => None,
    }
}

/// What came of ending a desk's recorder: where that is refused, it ends again with all tokens and enough memory.
pub fn end_desk<N: Session<A>, A: Allocator + Copy>(
    heap: Heap,
    alloc: A,
    desk: Desk<'_, N, A>,
    chance: &mut Chance,
    trouble: Trouble,
) -> Ends<A> {
    let (inner, source, mut tokens) = parts_of(alloc, desk, chance);
    let missing = trouble_tokens(alloc, &mut tokens, trouble);
    let seat = match &missing {
        Some(token) => Some(token.seat()),
        None => None,
    };
    if let Trouble::Refused = trouble {
        heap.refuse(1);
    }
    match end(alloc, inner, source, tokens) {
        Ok(ended) => Ends {
            seat,
            first: None,
            last: Ok(ended),
        },
        Err((fault, inner, source, tokens)) => {
            heap.refuse_none();
            let parts = (inner, source, tokens);
            Ends {
                seat,
                first: Some(fault),
                last: end_again(alloc, parts, missing, matches!(trouble, Trouble::Stranger)),
            }
        }
    }
}

fn put_fault(out: &mut Out, fault: EndFault) {
    out.put("end ");
    out.debug(fault);
    out.put("\n");
}

pub fn put_ends<A: Allocator + Copy>(out: &mut Out, trouble: Trouble, ends: Ends<A>) {
    out.put("end with ");
    out.debug(trouble);
    out.item(" ", ends.seat.unwrap_or(0) as u64);
    out.put("\n");
    if let Some(fault) = ends.first {
        out.put("first ");
        put_fault(out, fault);
    }
    match ends.last {
        Ok(ended) => put_ended(out, ended),
        Err(fault) => put_fault(out, fault),
    }
}
