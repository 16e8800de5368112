//! What the lines of a table say.
ghost use Rattle.std.specs.Prelude.{◌≡◌, ◌++◌, IfOk, OnOk};
ghost use Rattle.pf_pcre.specs.Tables as tables;

use crate::pattern::Pattern;
use crate::pieces::Piece;
use pf_base::{Bytes, List, NoMemory};
use std::alloc::Global;

/// A pattern that has to match, or after `!` must not (pcre_table(5)).
#[derive(Drop)]
pub(crate) struct Condition {
    pub(crate) negated: bool,
    pub(crate) pattern: Pattern,
}

/// A rule: its pattern and its result.
#[derive(Drop)]
pub(crate) struct Rule {
    pub(crate) condition: Condition,
    pub(crate) pieces: List<Piece>,
}

/// What a line says.
#[derive(Drop)]
pub(crate) enum Entry {
    /// A rule.
    Rule(Rule),
    /// A condition of the lines up to its `endif`.
    If(Condition),
    /// The end of the last condition that is open.
    Endif,
}

impl Condition {
    /// How many groups a result after this condition may name: none after `!`.
    pub(crate) fn groups(&self) -> usize
        ensures { result ≡ tables.groups_for self.now }
    {
        if self.negated {
            0
        } else {
            self.pattern.groups()
        }
    }

    /// Whether it holds in a text.
    pub(crate) fn holds(&mut self, alloc: Global, text: &str) -> Result<bool, NoMemory>
        ensures value { IfOk result (λ holds. holds ≡ tables.holds text.now self.old) }
        ensures same { self.new ≡ self.old }
    {
        let matches = self.pattern.matches(alloc, text)?;
        Ok(matches != self.negated)
    }
}

fn add_plain(value: &mut Bytes, piece: Piece) -> Result<(), NoMemory>
    ensures { OnOk result (value.new ≡ value.old ++ tables.plain_piece piece) }
{
    match piece {
        Piece::Byte(b) => value.push(b),
        Piece::Group(_) => Ok(()),
    }
}

/// A result in which no group takes part.
pub(crate) fn plain_value(alloc: Global, pieces: &[Piece]) -> Result<Bytes, NoMemory>
    ensures { IfOk result (λ value. value ≡ tables.plain_value pieces.now) }
{
    let mut value = Bytes::new(alloc);
    for piece in pieces {
        add_plain(&mut value, *piece)?;
    }
    Ok(value)
}

impl Rule {
    // The result where the pattern must not match.
    fn value_without(&mut self, alloc: Global, text: &str) -> Result<Option<Bytes>, NoMemory>
        ensures value { IfOk result (λ value. value ≡ tables.value_without text.now self.old) }
        ensures same { self.new ≡ self.old }
    {
        if self.condition.pattern.matches(alloc, text)? {
            return Ok(None);
        }
        let value = plain_value(alloc, self.pieces.as_slice())?;
        Ok(Some(value))
    }

    /// The result in a text, where the pattern applies to it.
    pub(crate) fn value(&mut self, alloc: Global, text: &str) -> Result<Option<Bytes>, NoMemory>
        ensures value { IfOk result (λ value. value ≡ tables.rule_value text.now self.old) }
        ensures same { self.new ≡ self.old }
    {
        if self.condition.negated {
            self.value_without(alloc, text)
        } else {
            self.condition
                .pattern
                .value(alloc, text, self.pieces.as_slice())
        }
    }
}
