//! Tokens that are handed in at an end.

use dfr_live::{EndFault, Token};

/// The tokens with one more at their end.
pub fn and(tokens: Vec<Token>, token: Option<Token>) -> Vec<Token> {
    let mut tokens = tokens;
    if let Some(token) = token {
        let _pushed = tokens.push(token).is_ok();
    }
    tokens
}

pub fn backwards(tokens: Vec<Token>) -> Vec<Token> {
    let mut tokens = tokens;
    tokens.reverse();
    tokens
}

/// What is handed in; why that is refused, where it is, and what is handed in then: the same with its last token replaced or not; and
/// how many entries the log has at the end.
#[derive(Drop)]
pub struct Handed {
    pub tokens: Vec<Token>,
    pub fault: Option<EndFault>,
    pub is_replaced: bool,
    pub then: Option<Token>,
    pub entries: usize,
}

pub fn mended(back: Vec<Token>, is_replaced: bool, then: Option<Token>) -> Vec<Token> {
    let mut back = back;
    if is_replaced {
        let _last = back.pop();
    }
    backwards(and(back, then))
}

/// These tokens, and the end is Ok.
pub fn right(tokens: Vec<Token>, entries: usize) -> Handed {
    Handed {
        tokens,
        fault: None,
        is_replaced: false,
        then: None,
        entries,
    }
}

/// The first of two tokens alone.
pub fn missing(tokens: Vec<Token>) -> Handed {
    let mut tokens = tokens;
    let then = tokens.pop();
    Handed {
        tokens,
        fault: Some(EndFault::Tokens),
        is_replaced: false,
        then,
        entries: 0,
    }
}

/// The first of two tokens, and a stranger of the same seat.
pub fn twice(tokens: Vec<Token>, stranger: Option<Token>) -> Handed {
    let mut tokens = tokens;
    let then = tokens.pop();
    Handed {
        tokens: and(tokens, stranger),
        fault: Some(EndFault::Tokens),
        is_replaced: true,
        then,
        entries: 0,
    }
}

/// The one token that made nothing, and then the stranger that made the calls.
pub fn idle(tokens: Vec<Token>, stranger: Option<Token>, entries: usize) -> Handed {
    Handed {
        tokens,
        fault: Some(EndFault::Mismatch),
        is_replaced: true,
        then: stranger,
        entries,
    }
}
