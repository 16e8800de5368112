//! Tables that are in their specification (DATABASE_README, inline).
ghost use Rattle.std.specs.Prelude.{◌≡◌, ◌≢◌, ◌==◌, ◌++◌, IfOk};
ghost use Rattle.std.specs.List.{list_any, position};
ghost use Rattle.std.specs.Option.{option_copied};
ghost use Rattle.pf_base.specs.Text.Ascii as ascii;
ghost use Rattle.pf_base.specs.Text.Space as space;
ghost use Rattle.pf_base.specs.Clauses.Unless.{Unless};
ghost use Rattle.pf_base.specs.Clauses.Faults.{as_fault};
ghost use Rattle.pf_table.specs.Inline as spec;
ghost use Rattle.pf_table.specs.Tables.{keyed_meaning};

use crate::pairs::{Pairs, Repeats, kept_key};
use crate::table::Table;
use pf_asks::{Found, Results, TableFault};
use pf_base::{
    Bytes, Cause, ConfFault, List, NoMemory, Pair, WordsFault, closing_brace, is_space, refuse,
    trimmed, words_of,
};
use std::alloc::Global;
use std::marker::Model;

// The place of the first equals sign.
fn equals_sign(text: &[u8]) -> Option<usize>
    ensures { result ≡ position (λ b. b == ascii.equals_sign) text.now }
{
    text.iter().position(|b| *b == b'=')
}

fn has_space(text: &[u8]) -> bool
    ensures { result ≡ list_any space.is_space text.now }
{
    text.iter().any(|b| is_space(*b))
}

/// What is in the brace that was opened before a text, up to its partner (DATABASE_README); None where there is none, or
/// where something is after it.
pub fn in_brace(text: &[u8]) -> Option<&[u8]>
    ensures { option_copied result ≡ spec.in_brace text.now }
{
    match closing_brace(text) {
        None => None,
        Some(place) => {
            if place + 1 == text.len() {
                Some(&text[..place])
            } else {
                None
            }
        }
    }
}

// The text of an item, `key=value` without space or `{key = value}`.
fn item_text(item: &[u8]) -> Option<&[u8]>
    ensures { option_copied result ≡ spec.item_text item.now }
{
    match item {
        [] => None,
        [first, behind @ ..] => {
            if *first == b'{' {
                in_brace(behind)
            } else if has_space(item) {
                None
            } else {
                Some(item)
            }
        }
    }
}

// A text parted at its first equals sign; None where there is none, or nothing before it.
fn pair_of(alloc: Global, folds: bool, text: &[u8]) -> Result<Option<Pair>, NoMemory>
    ensures { IfOk result (λ pair. pair ≡ spec.pair_of folds text.now) }
{
    match equals_sign(text) {
        None => Ok(None),
        Some(place) => {
            let key = trimmed(&text[..place]);
            if key.is_empty() {
                return Ok(None);
            }
            Ok(Some(Pair {
                key: kept_key(alloc, folds, key)?,
                value: Bytes::from_slice(alloc, trimmed(&text[place + 1..]))?,
            }))
        }
    }
}

fn item_pair(alloc: Global, folds: bool, item: &[u8]) -> Result<Option<Pair>, NoMemory>
    ensures { IfOk result (λ pair. pair ≡ spec.item_pair folds item.now) }
{
    match item_text(item) {
        None => Ok(None),
        Some(text) => pair_of(alloc, folds, text),
    }
}

// The pairs of items, of a repeated key the first; None where an item has none.
fn pairs_in(alloc: Global, folds: bool, items: &[Bytes]) -> Result<Option<Pairs>, NoMemory>
    ensures { IfOk result (λ pairs. pairs ≡ spec.pairs_in folds items.now) }
{
    let mut pairs = Pairs::new(alloc, items.len(), 0)?;
    for item in items {
        match item_pair(alloc, folds, item.as_slice())? {
            None => return Ok(None),
            Some(Pair { key, value }) => {
                pairs.add(Repeats::First, key.as_slice(), value.as_slice())?;
            }
        }
    }
    Ok(Some(pairs))
}

// The pairs of the text of a table; None where it has none.
fn pairs_of(alloc: Global, folds: bool, text: &[u8]) -> Result<Option<Pairs>, NoMemory>
    ensures { IfOk result (λ pairs. pairs ≡ spec.inline_pairs folds text.now) }
{
    match words_of(alloc, text) {
        Err(WordsFault::Unbalanced { at: _ }) => Ok(None),
        Err(WordsFault::NoMemory) => Err(NoMemory),
        Ok(items) => pairs_in(alloc, folds, items.as_slice()),
    }
}

// The refusal of a text that is no table; it names the whole specification.
fn text_refused(alloc: Global, file: &[u8], line: u64, text: &[u8]) -> ConfFault
    ensures { result ≢ ConfFault.NoMemory → result ≡ ConfFault.Refused (spec.text_refused file.now line text.now) }
{
    let mut name = Bytes::new(alloc);
    match name.extend_all(&[b"inline:{", text, b"}"]) {
        Ok(()) => refuse(alloc, file, line, Cause::C9, name.as_slice()),
        Err(NoMemory) => ConfFault::NoMemory,
    }
}

/// A table whose pairs are in its specification (DATABASE_README, inline).
#[derive(Drop)]
pub struct Inline {
    folds: bool,
    pairs: Pairs,
}

impl Model for Inline {
    ghost use Rattle.pf_table.specs.Tables.{Keyed};

    ghost Value = { Keyed };

    ghost view = { λ table. record { folds = table.folds; pairs = table.pairs } };
}

// The table of the text between its braces.
fn table_of(
    alloc: Global,
    file: &[u8],
    line: u64,
    text: &[u8],
    folded: bool,
) -> Result<Inline, ConfFault>
    ensures { Unless result ConfFault.NoMemory (λ r. r ≡ as_fault (spec.inline_of file.now line folded text.now)) }
{
    match pairs_of(alloc, folded, text)? {
        None => Err(text_refused(alloc, file, line, text)),
        Some(pairs) => Ok(Inline {
            folds: folded,
            pairs,
        }),
    }
}

impl Inline {
    /// The table of the text between the braces of `inline:{..}`: items `key=value` without space, or `{key = value}`, parted
    /// by commas, space or line feeds. Of a repeated key the first item counts. Where `folded`, letters count as the same in either case.
    /// A text with another item, with an empty key or with a brace that has no partner is refused as C9, with this file and
    /// line and the name of the whole specification.
    pub fn read(
        alloc: Global,
        file: &[u8],
        line: u64,
        text: &[u8],
        folded: bool,
    ) -> Result<Inline, ConfFault>
        ensures is { Unless result ConfFault.NoMemory (λ r. r ≡ as_fault (spec.inline_of file.now line folded text.now)) }
        ensures counts { IfOk result (spec.Counts folded text.now) }
    {
        table_of(alloc, file, line, text, folded)
    }

    /// The pairs in the order of their keys' first items, the keys as they are compared.
    pub fn pairs(&self, alloc: Global) -> Result<List<Pair>, NoMemory>
        ensures { IfOk result (λ pairs. pairs ≡ self.now.pairs) }
    {
        self.pairs.list(alloc)
    }
}

impl Table for Inline {
    ghost meaning = { keyed_meaning };

    fn find(&self, alloc: Global, key: &[u8]) -> Result<Found, TableFault> {
        let found = self.pairs.find(alloc, self.folds, key)?;
        Ok(found)
    }

    fn partial_keys(&self) -> bool {
        true
    }

    fn results(&self, alloc: Global) -> Result<Results, NoMemory> {
        Ok(Results::Listed(self.pairs.values(alloc)?))
    }
}
