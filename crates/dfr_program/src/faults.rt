//! The line printed for an error of a script or of its set-up.

ghost use Rattle.std.specs.Prelude.{◌≡◌, ◌++◌, OnOk};
ghost use Rattle.dfr_program.specs.FaultTexts as spec;

use crate::answers::rule_word;
use crate::prepared::Fault;
use comtrade_values::{put, put_both, put_with};
use dfr_channels::SetupFault;
use dfr_recorder::LimitFault;
use dfr_script::{RecorderFault, Word};
use std::alloc::{AllocError, Allocator};

#[tactic(auto, unfolding(crate::specs::FaultTexts::word_of))]
fn word_of(word: Word) -> &'static str
    ensures { result.now ≡ spec.word_of word }
{
    match word {
        Word::Word => "word",
        Word::Fields => "fields",
        Word::Number => "number",
        Word::Setup => "setup",
    }
}

#[tactic(auto, unfolding(crate::specs::FaultTexts::setup_word))]
fn setup_word(fault: SetupFault) -> &'static str
    ensures { result.now ≡ spec.setup_word fault }
{
    match fault {
        SetupFault::Text(_) => "text",
        SetupFault::Channels => "channels",
        SetupFault::Span(_) => "span",
        SetupFault::Rate => "rate",
        SetupFault::Start => "start",
    }
}

#[tactic(auto, unfolding(crate::specs::FaultTexts::limit_word))]
fn limit_word(fault: LimitFault) -> &'static str
    ensures { result.now ≡ spec.limit_word fault }
{
    match fault {
        LimitFault::Pre => "pre",
        LimitFault::Post => "post",
        LimitFault::Longest => "longest",
        LimitFault::Shelf => "shelf",
        LimitFault::Stamp => "stamp",
    }
}

/// Appends the line of a set-up's fault, without its end.
fn put_recorder_words<A: Allocator>(
    out: &mut Vec<u8, A>,
    fault: RecorderFault,
) -> Result<(), AllocError>
    ensures { OnOk result (out.new.items ≡ out.old.items ++ spec.recorder_words fault) }
{
    match fault {
        RecorderFault::Setup(fault) => put_both(out, "fault setup ", setup_word(fault)),
        RecorderFault::Limits(fault) => put_both(out, "fault limits ", limit_word(fault)),
        RecorderFault::Rules(fault) => put_both(out, "fault rules ", rule_word(fault)),
    }
}

/// Appends the line without its end.
fn put_words<A: Allocator>(out: &mut Vec<u8, A>, fault: Fault) -> Result<(), AllocError>
    ensures { OnOk result (out.new.items ≡ out.old.items ++ spec.fault_words fault) }
{
    match fault {
        Fault::Script(fault) => {
            put_with(out, "fault line ", fault.line)?;
            put_both(out, " ", word_of(fault.word))
        }
        Fault::Recorder(fault) => put_recorder_words(out, fault),
        Fault::RulesAt(line) => {
            put_with(out, "fault line ", line)?;
            put(out, " rules")
        }
    }
}

#[tactic(auto, unfolding(crate::specs::FaultTexts::fault_text))]
pub(crate) fn put_fault<A: Allocator>(out: &mut Vec<u8, A>, fault: Fault) -> Result<(), AllocError>
    ensures { OnOk result (out.new.items ≡ out.old.items ++ spec.fault_text fault) }
{
    put_words(out, fault)?;
    put(out, "\n")
}
