//! An operator's lines, which come while scans are recorded.

ghost use Rattle.std.specs.Prelude.{◌≡◌, true, IfSome, codes};
ghost use Rattle.std.specs.Str.{bytes_eq};
ghost use Rattle.dfr_station.specs.Desks.{TakesByte};

use crate::desk::Office;
use crate::event::{Asked, Event, Replied, Skipped};
use crate::intake::{is_word, skipped_of_line, skipped_of_rules};
use crate::kept::NewRules;
use crate::station::Control;
use comtrade_values::{Memory, trim};
use dfr_channels::{Rule, Rules};
use dfr_live::{Order, Reply};
use dfr_script::{Command, LineRefusal, ScanSize, command_of_line};
use rtrb::Consumer;
use std::alloc::{AllocError, Allocator, Global};
use std::sync::Arc;
use std::sync::atomic::{AtomicBool, Ordering};

/// The greatest length of an operator's line, in bytes.
const LONGEST: usize = 4_096;

/// The most bytes read in one turn: as many as the operator's queue has.
const TURN: usize = 65_536;

/// What an operator's line says.
#[derive(Drop)]
enum Said<A: Allocator> {
    /// Nothing: it is blank, or a comment.
    Nothing,
    /// The input is to end.
    Stop,
    Order(Order<A>),
}

/// Whether a line ends the input.
fn is_stop(line: &[u8]) -> bool
    ensures { result ≡ bytes_eq line.now (codes "stop") }
{
    is_word(line, "stop")
}

/// What stands behind the word `rules` of a line.
fn words_behind<A: Allocator>(alloc: A, line: &[u8]) -> Result<Vec<u8, A>, AllocError> {
    match line {
        [b'r', b'u', b'l', b'e', b's', rest @ ..] => Vec::from_slice(alloc, trim(rest)),
        _ => Ok(Vec::new(alloc)),
    }
}

/// The queue of an operator's bytes, and the line that is being read.
#[derive(Drop)]
pub(crate) struct Operator<A: Allocator = Global> {
    bytes: Consumer<u8, A>,
    /// Set by a line `stop`: the input is to end.
    stop: Arc<AtomicBool, Global>,
    /// Where the rules are left that it sets, if they are kept.
    kept: Option<Arc<NewRules<A>, Global>>,
    /// The words of the rules that the order handed out last would set, if it sets any.
    asked: Option<Result<Vec<u8, A>, Memory>>,
    /// What of the current line has come.
    line: Vec<u8, A>,
    /// Why the line is refused.
    refused: Option<Skipped>,
    /// How many more bytes are read in this turn.
    left: usize,
}

impl<A: Allocator> Operator<A> {
    pub(crate) fn new(alloc: A, control: Control<A>) -> Operator<A> {
        let Control { bytes, stop, kept } = control;
        Operator {
            bytes,
            stop,
            kept,
            asked: None,
            line: Vec::new(alloc),
            refused: None,
            left: TURN,
        }
    }

    /// Adds a byte to the line, unless the line is refused.
    fn add(&mut self, b: u8)
        ensures { TakesByte self.old.refused self.old b self.new.refused self.new }
    {
        if self.refused.is_some() {
            return;
        }
        if self.line.len() >= LONGEST {
            self.refused = Some(Skipped::Long);
        } else if self.line.push(b).is_err() {
            self.refused = Some(Skipped::Memory);
        }
    }

    /// The order that was handed out was answered: rules that were set are left, if they are kept.
    pub(crate) fn answered(&mut self, reply: Option<Reply>) {
        let asked = self.asked.take();
        if let (Some(kept), Some(words), Some(Reply::SetRules(true))) = (&self.kept, asked, reply) {
            kept.leave(words);
        }
    }

    /// Reads up to the end of a line, but no more bytes than are left in this turn. Returns whether
    /// that line is refused, or None if its end was not found.
    fn next_line(&mut self) -> Option<Result<(), Skipped>> {
        for _ in 0..TURN {
            self.left = self.left.checked_sub(1)?;
            match self.bytes.pop() {
                Ok(b'\n') => {
                    return Some(match self.refused.take() {
                        Some(why) => Err(why),
                        None => Ok(()),
                    });
                }
                Ok(b) => self.add(b),
                Err(_) => return None,
            }
        }
        None
    }
}

impl<A: Allocator + Copy> Operator<A> {
    /// Notes the words of rules that the line is to set, if rules are kept.
    fn note_rules(&mut self, alloc: A, said: &Result<Said<A>, Skipped>) {
        self.asked = match said {
            Ok(Said::Order(Order::SetRules(_))) if self.kept.is_some() => {
                Some(words_behind(alloc, &self.line).map_err(|_| Memory))
            }
            _ => None,
        };
    }
}

impl<A: Allocator + Copy> Office<'_, A> {
    /// The order to set these rules, or why they are refused.
    fn rules_order(&self, list: Vec<Rule, A>) -> Result<Order<A>, Skipped> {
        match Rules::new(self.layout, list) {
            Ok(rules) => Ok(Order::SetRules(rules)),
            Err((fault, list)) => {
                drop(list);
                Err(skipped_of_rules(fault))
            }
        }
    }

    /// The order of a command of an operator. Only `trigger` and `rules` are accepted.
    fn order_of(&self, command: Command<A>) -> Result<Order<A>, Skipped> {
        match command {
            Command::Trigger => Ok(Order::Trigger),
            Command::Rules { line: _, list } => self.rules_order(list),
            Command::Scan(_) | Command::Lost | Command::Take => Err(Skipped::Word),
        }
    }

    /// What an operator's line says, or why it is refused.
    fn said_in(&self, line: &[u8]) -> Result<Said<A>, Skipped> {
        if is_stop(line) {
            return Ok(Said::Stop);
        }
        let size = ScanSize {
            analog: self.layout.analog().len(),
            status: self.layout.status().len(),
        };
        match command_of_line(self.alloc, 1, line, size) {
            Ok(None) => Ok(Said::Nothing),
            Ok(Some(command)) => Ok(Said::Order(self.order_of(command)?)),
            Err(LineRefusal::Fault(fault)) => Err(skipped_of_line(fault)),
            Err(LineRefusal::Memory) => Err(Skipped::Memory),
        }
    }

    /// Ends the input, and reports that.
    fn end_input(&mut self, stop: &AtomicBool)
        ensures { self.new ≡ self.old }
    {
        stop.store(true, Ordering::SeqCst);
        self.teller.tell(Event::Reply {
            asked: Asked::Operator,
            at: self.steps,
            reply: Replied::Stop,
        });
    }

    /// The next order of the operator whose line has come whole. Refused lines are reported.
    pub(crate) fn hear_operator(&mut self) -> Option<Order<A>>
        ensures same { self.new ≡ self.old }
        ensures heard { IfSome result (λ _. self.old.has_operator ≡ true) }
    {
        if !self.has_operator {
            return None;
        }
        let mut operator = self.operator.take()?;
        let mut heard = None;
        for _ in 0..TURN {
            let Some(read) = operator.next_line() else {
                break;
            };
            let said = match read {
                Ok(()) => self.said_in(&operator.line),
                Err(why) => Err(why),
            };
            operator.note_rules(self.alloc, &said);
            operator.line.clear();
            match said {
                Ok(Said::Nothing) => {}
                Ok(Said::Order(order)) => {
                    heard = Some(order);
                    break;
                }
                Ok(Said::Stop) => self.end_input(&operator.stop),
                Err(why) => self.teller.tell(Event::Order(why)),
            }
        }
        self.operator = Some(operator);
        heard
    }

    /// More bytes of the operator may be read.
    pub(crate) fn turn_operator(&mut self)
        ensures { self.new ≡ self.old }
    {
        if let Some(operator) = &mut self.operator {
            operator.left = TURN;
        }
    }
}
