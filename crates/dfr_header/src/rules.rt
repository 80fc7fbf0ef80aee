//! Trigger rules in words.

ghost use Rattle.std.specs.Prelude.{◌≡◌, ◌++◌, OnOk, option_copied, slice_get};
ghost use Rattle.dfr_channels.specs.Parts.{status_id};
ghost use Rattle.dfr_header.specs.Rules as spec;

use crate::lines::end_line;
use comtrade_values::{put, put_number, put_with};
use dfr_channels::{AnalogChannel, Layout, Rule, StatusChannel};
use dfr_recorder::Cause;
use std::alloc::{AllocError, Allocator};

/// Appends the id of an analogue channel.
fn put_analog_id<A: Allocator>(
    out: &mut Vec<u8, A>,
    channels: &[AnalogChannel<A>],
    channel: u32,
) -> Result<(), AllocError>
    ensures { OnOk result (out.new.items ≡ out.old.items ++ spec.analog_id (slice_get channels.now channel)) }
{
    match channels.get(channel as usize) {
        Some(channel) => out.extend_from_slice(channel.id.items()),
        None => Ok(()),
    }
}

/// Appends the id of a status channel.
fn put_status_id<A: Allocator>(
    out: &mut Vec<u8, A>,
    channels: &[StatusChannel<A>],
    channel: u32,
) -> Result<(), AllocError>
    ensures { OnOk result (out.new.items ≡ out.old.items ++ status_id (slice_get channels.now channel)) }
{
    match channels.get(channel as usize) {
        Some(channel) => out.extend_from_slice(channel.id.items()),
        None => Ok(()),
    }
}

fn put_side<A: Allocator>(out: &mut Vec<u8, A>, over: bool) -> Result<(), AllocError>
    ensures { OnOk result (out.new.items ≡ out.old.items ++ spec.side_text over) }
{
    put(
        out,
        if over {
            ") at or over "
        } else {
            ") at or under "
        },
    )
}

fn put_change<A: Allocator>(out: &mut Vec<u8, A>, rise: bool) -> Result<(), AllocError>
    ensures { OnOk result (out.new.items ≡ out.old.items ++ spec.change_text rise) }
{
    put(
        out,
        if rise {
            ") changed to 1"
        } else {
            ") changed to 0"
        },
    )
}

/// Appends an analogue channel, with its number and its id.
#[tactic(auto, unfolding(crate::specs::Rules::analog_text))]
fn put_analog<A: Allocator>(
    out: &mut Vec<u8, A>,
    layout: &Layout<A>,
    channel: u32,
) -> Result<(), AllocError>
    ensures { OnOk result (out.new.items ≡ out.old.items ++ spec.analog_text layout.now channel) }
{
    put_with(out, "analogue ", channel as u64)?;
    put(out, " (")?;
    put_analog_id(out, layout.analog(), channel)
}

/// Appends a status channel, with its number and its id.
#[tactic(auto, unfolding(crate::specs::Rules::status_text))]
fn put_status<A: Allocator>(
    out: &mut Vec<u8, A>,
    layout: &Layout<A>,
    channel: u32,
) -> Result<(), AllocError>
    ensures { OnOk result (out.new.items ≡ out.old.items ++ spec.status_text layout.now channel) }
{
    put_with(out, "status ", channel as u64)?;
    put(out, " (")?;
    put_status_id(out, layout.status(), channel)
}

#[tactic(auto, unfolding(crate::specs::Rules::rule_text))]
fn put_level<A: Allocator>(
    out: &mut Vec<u8, A>,
    layout: &Layout<A>,
    channel: u32,
    over: bool,
    threshold: i32,
) -> Result<(), AllocError>
    ensures { OnOk result (out.new.items ≡ out.old.items
        ++ spec.rule_text layout.now (Rule.Level channel over threshold)) }
{
    put_analog(out, layout, channel)?;
    put_side(out, over)?;
    put_number(out, threshold)
}

#[tactic(auto, unfolding(crate::specs::Rules::rule_text))]
fn put_edge<A: Allocator>(
    out: &mut Vec<u8, A>,
    layout: &Layout<A>,
    channel: u32,
    rise: bool,
) -> Result<(), AllocError>
    ensures { OnOk result (out.new.items ≡ out.old.items
        ++ spec.rule_text layout.now (Rule.Edge channel rise)) }
{
    put_status(out, layout, channel)?;
    put_change(out, rise)
}

/// Appends when a rule holds.
fn put_rule<A: Allocator>(
    out: &mut Vec<u8, A>,
    layout: &Layout<A>,
    rule: Rule,
) -> Result<(), AllocError>
    ensures { OnOk result (out.new.items ≡ out.old.items ++ spec.rule_text layout.now rule) }
{
    match rule {
        Rule::Level {
            channel,
            over,
            threshold,
        } => put_level(out, layout, channel, over, threshold),
        Rule::Edge { channel, rise } => put_edge(out, layout, channel, rise),
    }
}

#[tactic(auto, unfolding(crate::specs::Rules::rule_line))]
fn put_rule_line<A: Allocator>(
    out: &mut Vec<u8, A>,
    layout: &Layout<A>,
    n: u64,
    rule: Rule,
) -> Result<(), AllocError>
    ensures { OnOk result (out.new.items ≡ out.old.items ++ spec.rule_line layout.now n rule) }
{
    put_with(out, "Rule ", n)?;
    put(out, ": ")?;
    put_rule(out, layout, rule)?;
    end_line(out)
}

/// Appends a line for each rule, numbered from 0.
fn put_rule_lines<A: Allocator>(
    out: &mut Vec<u8, A>,
    layout: &Layout<A>,
    rules: &[Rule],
) -> Result<(), AllocError>
    ensures { OnOk result (out.new.items ≡ out.old.items ++ spec.rule_lines layout.now rules.now) }
{
    for (i, rule) in rules.iter().enumerate() {
        put_rule_line(out, layout, i as u64, *rule)?;
    }
    Ok(())
}

/// Appends the rules in force.
fn put_known<A: Allocator>(
    out: &mut Vec<u8, A>,
    layout: &Layout<A>,
    rules: &[Rule],
) -> Result<(), AllocError>
    ensures { OnOk result (out.new.items ≡ out.old.items ++ spec.known_text layout.now rules.now) }
{
    put(out, "Rules in force at the trigger:\r\n")?;
    put_rule_lines(out, layout, rules)?;
    Ok(())
}

/// Appends the rules in force, if they are known.
pub(crate) fn put_rules<A: Allocator>(
    out: &mut Vec<u8, A>,
    layout: &Layout<A>,
    rules: Option<&[Rule]>,
) -> Result<(), AllocError>
    ensures { OnOk result (out.new.items ≡ out.old.items
        ++ spec.rules_text layout.now (option_copied rules.entry)) }
{
    match rules {
        Some(rules) => put_known(out, layout, rules),
        None => put(out, "Rules in force: not known\r\n"),
    }
}

/// The rule of this number, if it is known.
fn known_rule(rules: Option<&[Rule]>, n: u32) -> Option<Rule>
    ensures { result ≡ spec.known_rule (option_copied rules.entry) n }
{
    match rules {
        Some(rules) => rules.get(n as usize).copied(),
        None => None,
    }
}

fn put_held<A: Allocator>(
    out: &mut Vec<u8, A>,
    layout: &Layout<A>,
    rule: Option<Rule>,
) -> Result<(), AllocError>
    ensures { OnOk result (out.new.items ≡ out.old.items ++ spec.held_text layout.now rule) }
{
    match rule {
        Some(rule) => {
            put(out, " held: ")?;
            put_rule(out, layout, rule)
        }
        None => put(out, " held"),
    }
}

/// Appends what opened a record.
#[tactic(auto, unfolding(crate::specs::Rules::why_text))]
pub(crate) fn put_why<A: Allocator>(
    out: &mut Vec<u8, A>,
    layout: &Layout<A>,
    rules: Option<&[Rule]>,
    cause: Cause,
) -> Result<(), AllocError>
    ensures { OnOk result (out.new.items ≡ out.old.items
        ++ spec.why_text layout.now (option_copied rules.entry) cause) }
{
    match cause {
        Cause::Manual => put(out, "a manual trigger"),
        Cause::Rule(n) => {
            put_with(out, "rule ", n as u64)?;
            put_held(out, layout, known_rule(rules, n))
        }
    }
}
