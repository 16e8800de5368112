//! The lines of a table.
ghost use Rattle.std.specs.Prelude.{◌≡◌, ◌≤◌, length};
ghost use Rattle.std.specs.List.{position_or_len};
ghost use Rattle.pf_base.specs.Text.Space as space;
ghost use Rattle.pf_cidr.specs.Tables as tables;

use crate::address::Addr;
use crate::net::Net;
use crate::reason::Reason;
use pf_base::{is_space, same_in_any_case, trimmed};

/// A pattern: a net, or after `!` all addresses but those of a net (cidr_table(5)).
#[derive(Debug, Drop)]
pub(crate) struct Pattern {
    negated: bool,
    net: Net,
}

impl Pattern {
    fn read(text: &[u8]) -> Result<Pattern, Reason>
        ensures { result ≡ tables.pattern_of text.now }
    {
        match text {
            [b'!', behind @ ..] => {
                let net = Net::read(behind)?;
                Ok(Pattern { negated: true, net })
            }
            _ => {
                let net = Net::read(text)?;
                Ok(Pattern {
                    negated: false,
                    net,
                })
            }
        }
    }

    /// Whether the pattern matches an address.
    pub(crate) fn matches(&self, addr: &Addr) -> bool
        ensures { result ≡ tables.matches addr.now self.now }
    {
        self.net.has(addr) != self.negated
    }
}

/// What a line says.
#[derive(Debug, Drop)]
pub(crate) enum Entry {
    /// A rule, whose result is elsewhere.
    Rule(Pattern),
    /// A condition of the lines up to its `endif`.
    If(Pattern),
    /// The end of the last condition that is open.
    Endif,
}

// How many bytes are before the first space of a text.
fn word_len(text: &[u8]) -> usize
    ensures within { result ≤ length text.now }
    ensures place { result ≡ position_or_len space.is_space text.now }
{
    text.iter().take_while(|b| !is_space(**b)).count()
}

fn word_of(text: &[u8]) -> &[u8]
    ensures { result.now ≡ tables.word_of text.now }
{
    &text[..word_len(text)]
}

/// What is after the first word of a line.
pub(crate) fn value_of(text: &[u8]) -> &[u8]
    ensures { result.now ≡ tables.value_of text.now }
{
    trimmed(&text[word_len(text)..])
}

// The condition that a pattern begins.
fn condition_of(text: &[u8]) -> Result<Entry, Reason>
    ensures { result ≡ tables.condition_of text.now }
{
    let pattern = Pattern::read(value_of(text))?;
    Ok(Entry::If(pattern))
}

// The rule of a pattern, with its result.
fn rule_of(text: &[u8]) -> Result<Entry, Reason>
    ensures { result ≡ tables.rule_of text.now }
{
    let pattern = Pattern::read(word_of(text))?;
    if value_of(text).is_empty() {
        return Err(Reason::NoValue);
    }
    Ok(Entry::Rule(pattern))
}

/// What a logical line says: `endif`, `if` with a pattern, both in any case, or a pattern with a result (cidr_table(5)).
#[tactic(auto, unfolding(crate::specs::Tables::entry_of))]
pub(crate) fn entry_of(text: &[u8]) -> Result<Entry, Reason>
    ensures { result ≡ tables.entry_of text.now }
{
    if same_in_any_case(trimmed(text), b"endif") {
        return Ok(Entry::Endif);
    }
    if same_in_any_case(word_of(text), b"if") {
        condition_of(text)
    } else {
        rule_of(text)
    }
}
