//! How a line of a table is read (pcre_table(5)).
ghost use Rattle.std.specs.Prelude.{◌≡◌, ◌≤◌, false, length};
ghost use Rattle.std.specs.List.{position_or_len};
ghost use Rattle.pf_base.specs.Clauses.Unless.{Unless};
ghost use Rattle.pf_base.specs.Text.Space as space;
ghost use Rattle.pf_asks.specs.Clauses.Causes.{counted_if};
ghost use Rattle.pf_pcre.specs.Clauses.Reading.{Reads, as_fault, is_large, line_fault};
ghost use Rattle.pf_pcre.specs.Clauses.Shown.{shown};
ghost use Rattle.pf_pcre.specs.Tables as tables;

use crate::entry::{Condition, Entry, Rule};
use crate::pattern::Pattern;
use crate::patterns::{BuildFault, Patterns};
use crate::pieces::pieces_of;
use crate::reason::Reason;
use crate::shape::{Shape, shape_of};
use crate::switches::switches_of;
use pf_base::{NoMemory, is_space, same_in_any_case, trimmed};
use std::alloc::Global;

/// Why a line is not taken.
#[derive(Clone, Copy, Debug, PartialEq, Eq)]
pub(crate) enum LineFault {
    /// It is refused.
    Refused(Reason),
    /// Out of memory.
    NoMemory,
}

fn fault_of(fault: BuildFault) -> LineFault
    ensures { result ≡ line_fault fault }
{
    match fault {
        BuildFault::Syntax => LineFault::Refused(Reason::Pattern),
        BuildFault::TooLarge => LineFault::Refused(Reason::PatternSize),
        BuildFault::NoMemory => LineFault::NoMemory,
    }
}

// The pattern of a text with its flags.
fn pattern_of(
    alloc: Global,
    patterns: &mut Patterns,
    flags: &[u8],
    text: &[u8],
) -> Result<Pattern, LineFault>
    ensures is { Reads (λ large. tables.pattern_of large flags.now text.now) result }
    ensures counts { patterns.new ≡ counted_if (is_large result) patterns.old }
{
    let Some(switches) = switches_of(flags) else {
        return Err(LineFault::Refused(Reason::Flag));
    };
    let Ok(text) = str::from_utf8(text) else {
        return Err(LineFault::Refused(Reason::Pattern));
    };
    match patterns.build(alloc, text, &switches) {
        Ok(pattern) => Ok(pattern),
        Err(fault) => Err(fault_of(fault)),
    }
}

// The pattern of a line with its flags.
fn condition_with(
    alloc: Global,
    patterns: &mut Patterns,
    shape: Shape<'_>,
    flags: &[u8],
) -> Result<Condition, LineFault>
    ensures is { Reads (λ large. tables.condition_with large (shown shape.entry) flags.now) result }
    ensures counts { patterns.new ≡ counted_if (is_large result) patterns.old }
{
    match pattern_of(alloc, patterns, flags, shape.pattern) {
        Ok(pattern) => Ok(Condition {
            negated: shape.negated,
            pattern,
        }),
        Err(fault) => Err(fault),
    }
}

// How many bytes are before the first space of a text.
fn word_len(text: &[u8]) -> usize
    ensures within { result ≤ length text.now }
    ensures place { result ≡ position_or_len space.is_space text.now }
{
    text.iter().take_while(|b| !is_space(**b)).count()
}

fn word_of(text: &[u8]) -> &[u8]
    ensures { result.now ≡ tables.word_of text.now }
{
    &text[..word_len(text)]
}

// What is after the first word of a text.
fn value_of(text: &[u8]) -> &[u8]
    ensures { result.now ≡ tables.value_of text.now }
{
    trimmed(&text[word_len(text)..])
}

// A condition.
fn condition_of(alloc: Global, patterns: &mut Patterns, text: &[u8]) -> Result<Entry, LineFault>
    ensures is { Reads (λ large. tables.condition_of large text.now) result }
    ensures counts { patterns.new ≡ counted_if (is_large result) patterns.old }
{
    match shape_of(text) {
        None => Err(LineFault::Refused(Reason::Pattern)),
        Some(shape) => match condition_with(alloc, patterns, shape, shape.behind) {
            Ok(condition) => Ok(Entry::If(condition)),
            Err(fault) => Err(fault),
        },
    }
}

// A rule with its result.
fn rule_with(alloc: Global, condition: Condition, value: &[u8]) -> Result<Entry, LineFault>
    ensures is { Unless result LineFault.NoMemory (λ r. r ≡ as_fault (tables.rule_with condition value.now)) }
    ensures small { is_large result ≡ false }
{
    match pieces_of(alloc, condition.groups(), value) {
        Err(NoMemory) => Err(LineFault::NoMemory),
        Ok(None) => Err(LineFault::Refused(Reason::Group)),
        Ok(Some(pieces)) => {
            if value.is_empty() {
                return Err(LineFault::Refused(Reason::NoValue));
            }
            Ok(Entry::Rule(Rule { condition, pieces }))
        }
    }
}

// A rule.
fn rule_of(alloc: Global, patterns: &mut Patterns, text: &[u8]) -> Result<Entry, LineFault>
    ensures is { Reads (λ large. tables.rule_of large text.now) result }
    ensures counts { patterns.new ≡ counted_if (is_large result) patterns.old }
{
    match shape_of(text) {
        None => Err(LineFault::Refused(Reason::Pattern)),
        Some(shape) => match condition_with(alloc, patterns, shape, word_of(shape.behind)) {
            Ok(condition) => rule_with(alloc, condition, value_of(shape.behind)),
            Err(fault) => Err(fault),
        },
    }
}

/// What a logical line says: `endif`, `if` with a pattern, both in any case, or a pattern with a result (pcre_table(5)).
#[tactic(auto, unfolding(crate::specs::Tables::entry_of))]
pub(crate) fn entry_of(
    alloc: Global,
    patterns: &mut Patterns,
    text: &[u8],
) -> Result<Entry, LineFault>
    ensures is { Reads (λ large. tables.entry_of large text.now) result }
    ensures counts { patterns.new ≡ counted_if (is_large result) patterns.old }
{
    if same_in_any_case(trimmed(text), b"endif") {
        return Ok(Entry::Endif);
    }
    if same_in_any_case(word_of(text), b"if") {
        condition_of(alloc, patterns, value_of(text))
    } else {
        rule_of(alloc, patterns, text)
    }
}
