//! GOOSE frames.

ghost use Rattle.std.specs.Prelude.{◌≡◌, ◌+◌, ◌-◌, ◌<◌, ◌≤◌, length, IfOk};
ghost use Rattle.dfr_bus.specs.Goose as spec;

use crate::ber::{element_at, field_at, has_tag, number, optional_at};
use crate::fault::{Fault, Wrong, fault_at};
use crate::numbers::big_2;
use crate::pdu::{end_of_pdu, only_element_at};
use crate::span::Span;

/// A GOOSE frame: what follows the EtherType 0x88B8. The names are those of IEC 61850-8-1.
#[derive(Clone, Copy, Debug, PartialEq, Eq)]
pub struct Goose {
    /// The application's number.
    pub app_id: u16,
    /// The first reserved number. Its highest bit is set for a simulated message.
    pub reserved_1: u16,
    /// The second reserved number.
    pub reserved_2: u16,
    /// The reference of the control block.
    pub gocb_ref: Span,
    /// For how many milliseconds the message holds.
    pub time_allowed_to_live: u32,
    /// The name of the dataset.
    pub dat_set: Span,
    /// The name of the message.
    pub go_id: Option<Span>,
    /// When the state changed: 8 bytes.
    pub t: Span,
    /// The number of the state.
    pub st_num: u32,
    /// The number of the message in this state.
    pub sq_num: u32,
    /// Whether it is a test.
    pub test: bool,
    /// The revision of the configuration.
    pub conf_rev: u32,
    /// Whether the control block needs commissioning.
    pub nds_com: bool,
    /// How many elements the dataset has.
    pub entries: u32,
    /// The elements.
    pub all_data: Span,
}

/// A number that isn't negative, and the place after it.
#[tactic(auto, unfolding(crate::specs::Goose::unsigned_at))]
fn unsigned_at(bytes: &[u8], at: usize, end: usize, tag: u8) -> Result<(u32, usize), Fault>
    requires order { at ≤ end }
    requires within { end ≤ length bytes.now }
    ensures exact { result ≡ spec.unsigned_at bytes.now at end tag }
    ensures inside { IfOk result (λ x. (at ≤ x.1) × (x.1 ≤ end)) }
{
    let content = element_at(bytes, at, end, tag)?;
    if content.from == content.to || bytes[content.from] > 127 {
        return Err(fault_at(at, Wrong::Number));
    }
    match number(bytes, content.from, content.to, 4_294_967_295) {
        Some(value) => Ok((value as u32, content.to)),
        None => Err(fault_at(at, Wrong::Number)),
    }
}

/// A flag, false where it is left out, and the place after it.
#[tactic(auto, unfolding(crate::specs::Goose::flag_at))]
fn flag_at(bytes: &[u8], at: usize, end: usize, tag: u8) -> Result<(bool, usize), Fault>
    requires order { at ≤ end }
    requires within { end ≤ length bytes.now }
    ensures exact { result ≡ spec.flag_at bytes.now at end tag }
    ensures inside { IfOk result (λ x. (at ≤ x.1) × (x.1 ≤ end)) }
{
    if !has_tag(bytes, at, end, tag) {
        return Ok((false, at));
    }
    let content = field_at(bytes, at, end, tag, 1)?;
    Ok((bytes[content.from] != 0, content.to))
}

/// The fields of a goosePdu, after the numbers of the head.
#[tactic(auto, unfolding(crate::specs::Goose::goose_pdu_at))]
fn goose_pdu_at(
    numbers: (u16, u16, u16),
    bytes: &[u8],
    at: usize,
    end: usize,
) -> Result<Goose, Fault>
    requires order { at ≤ end }
    requires within { end ≤ length bytes.now }
    ensures { result ≡ spec.goose_pdu_at numbers.0 numbers.1 numbers.2 bytes.now at end }
{
    let gocb_ref = element_at(bytes, at, end, 0x80)?;
    let (time_allowed_to_live, after) = unsigned_at(bytes, gocb_ref.to, end, 0x81)?;
    let dat_set = element_at(bytes, after, end, 0x82)?;
    let (go_id, after) = optional_at(bytes, dat_set.to, end, 0x83)?;
    let t = field_at(bytes, after, end, 0x84, 8)?;
    let (st_num, after) = unsigned_at(bytes, t.to, end, 0x85)?;
    let (sq_num, after) = unsigned_at(bytes, after, end, 0x86)?;
    let (test, after) = flag_at(bytes, after, end, 0x87)?;
    let (conf_rev, after) = unsigned_at(bytes, after, end, 0x88)?;
    let (nds_com, after) = flag_at(bytes, after, end, 0x89)?;
    let (entries, after) = unsigned_at(bytes, after, end, 0x8A)?;
    let all_data = only_element_at(bytes, after, end, 0xAB)?;
    Ok(Goose {
        app_id: numbers.0,
        reserved_1: numbers.1,
        reserved_2: numbers.2,
        gocb_ref,
        time_allowed_to_live,
        dat_set,
        go_id,
        t,
        st_num,
        sq_num,
        test,
        conf_rev,
        nds_com,
        entries,
        all_data,
    })
}

/// What the payload from `at` to `end` says, which are places in the bytes. What its data says is
/// not looked at.
#[tactic(auto, unfolding(crate::specs::Goose::goose_at))]
pub fn read_goose(bytes: &[u8], at: usize, end: usize) -> Result<Goose, Fault>
    requires order { at ≤ end }
    requires within { end ≤ length bytes.now }
    ensures { result ≡ spec.goose_at bytes.now at end }
{
    let pdu_end = end_of_pdu(bytes, at, end)?;
    let pdu = only_element_at(bytes, at + 8, pdu_end, 0x61)?;
    let numbers = (big_2(bytes, at), big_2(bytes, at + 4), big_2(bytes, at + 6));
    goose_pdu_at(numbers, bytes, pdu.from, pdu.to)
}
