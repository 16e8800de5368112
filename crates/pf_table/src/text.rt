//! Text tables (DATABASE_README, texthash).
ghost use Rattle.std.specs.Prelude.{◌≡◌, ◌<◌, Some, length, slice_get, IfOk, OnOk};
ghost use Rattle.pf_base.specs.Clauses.Unless.{Unless};
ghost use Rattle.pf_base.specs.Clauses.Faults.{as_fault};
ghost use Rattle.pf_table.specs.Clauses.Reading.{entries_read};
ghost use Rattle.pf_table.specs.Tables.{keyed_meaning};
ghost use Rattle.pf_table.specs.Text as spec;

use crate::lines::TextLines;
use crate::pairs::{Pairs, Repeats};
use crate::table::Table;
use pf_asks::{Found, Results, TableFault};
use pf_base::{Bytes, ConfFault, List, NoMemory, Pair};
use std::alloc::Global;
use std::marker::Model;

/// A logical line whose key is in an earlier one: the number of its first physical line, from 1, and its key as it is
/// compared.
#[derive(Debug, PartialEq, Eq, Drop)]
pub struct Repeated {
    pub line: u64,
    pub key: Bytes,
}

// The pairs so far, and the lines whose keys came before.
#[derive(Drop)]
pub(crate) struct Entries {
    pairs: Pairs,
    repeated: List<Repeated>,
}

impl Entries {
    // Takes the pair of a line.
    fn take(
        &mut self,
        alloc: Global,
        repeats: Repeats,
        line: u64,
        key: &[u8],
        value: &[u8],
    ) -> Result<(), NoMemory>
        ensures { OnOk result (self.new ≡ spec.with_entry repeats self.old
            (record { line = line; pair = record { key = key.now; value = value.now } })) }
    {
        if self.pairs.add(repeats, key, value)? {
            let key = Bytes::from_slice(alloc, key)?;
            self.repeated.push(Repeated { line, key })?;
        }
        Ok(())
    }
}

/// A text table (DATABASE_README, texthash).
#[derive(Drop)]
pub struct TextTable {
    folds: bool,
    pairs: Pairs,
}

impl Model for TextTable {
    ghost use Rattle.pf_table.specs.Tables.{Keyed};

    ghost Value = { Keyed };

    ghost view = { λ table. record { folds = table.folds; pairs = table.pairs } };
}

/// A text table that was read, and its lines whose keys are in earlier ones, in order.
#[derive(Drop)]
pub struct TextRead {
    pub table: TextTable,
    pub repeated: List<Repeated>,
}

// No entries, with room for the pairs of a text.
fn entries_for(alloc: Global, text: &[u8]) -> Result<Entries, NoMemory>
    ensures { IfOk result (λ entries. entries ≡ spec.no_entries) }
{
    let lines = text.iter().filter(|b| **b == b'\n').count();
    Ok(Entries {
        pairs: Pairs::new(alloc, lines, text.len())?,
        repeated: List::new(alloc),
    })
}

// The entries of a text, or its first refusal.
fn entries_of(
    alloc: Global,
    file: &[u8],
    text: &[u8],
    folds: bool,
    repeats: Repeats,
) -> Result<Entries, ConfFault>
    ensures { Unless result ConfFault.NoMemory (λ r. r ≡ as_fault (entries_read file.now folds repeats text.now)) }
{
    let mut lines = TextLines::new(alloc, file, text)?;
    let mut entries = entries_for(alloc, text)?;
    'turns: loop {
        if !lines.next(alloc, file, folds)? {
            return Ok(entries);
        }
        entries.take(alloc, repeats, lines.number(), lines.key(), lines.value())?;
    }
}

// The table of a text.
fn read_text(
    alloc: Global,
    file: &[u8],
    text: &[u8],
    folded: bool,
    repeats: Repeats,
) -> Result<TextRead, ConfFault>
    ensures { Unless result ConfFault.NoMemory (λ r. r ≡ as_fault (spec.text_read file.now folded repeats text.now)) }
{
    let Entries { pairs, repeated } = entries_of(alloc, file, text, folded, repeats)?;
    Ok(TextRead {
        table: TextTable {
            folds: folded,
            pairs,
        },
        repeated,
    })
}

impl TextTable {
    /// The table of a text. Its logical lines are each a key, space and a value; a key may begin in double quotes, in which space
    /// belongs to it and a backslash takes the next byte. Where `folded`, letters count as the same in either case. Of a key
    /// that comes more than once `repeats` says which line counts; its place is that of the first. The text is refused as C1 where
    /// its first line that is not ignored starts with space, else as C11 at its first line whose quote is not closed
    /// (`quote not closed`) or that has no value (`no value`).
    pub fn read(
        alloc: Global,
        file: &[u8],
        text: &[u8],
        folded: bool,
        repeats: Repeats,
    ) -> Result<TextRead, ConfFault>
        ensures is { Unless result ConfFault.NoMemory (λ r. r ≡ as_fault (spec.text_read file.now folded repeats text.now)) }
        ensures counts { IfOk result (spec.Counts file.now folded repeats text.now) }
    {
        read_text(alloc, file, text, folded, repeats)
    }

    /// How many pairs there are.
    pub fn len(&self) -> u64
        ensures { result ≡ length self.now.pairs }
    {
        self.pairs.len() as u64
    }

    /// The key, as it is compared, and the value of the pair at `i`, counted from 0, in the order of the keys' first lines. It takes
    /// no memory.
    pub fn at(&self, i: u64) -> (&[u8], &[u8])
        requires { i < length self.now.pairs }
        ensures { slice_get self.now.pairs i ≡ Some (record { key = result.0.now; value = result.1.now }) }
    {
        self.pairs.at(i as usize)
    }

    /// The pairs in the order of their keys' first lines, the keys as they are compared.
    pub fn pairs(&self, alloc: Global) -> Result<List<Pair>, NoMemory>
        ensures { IfOk result (λ pairs. pairs ≡ self.now.pairs) }
    {
        self.pairs.list(alloc)
    }
}

impl Table for TextTable {
    ghost meaning = { keyed_meaning };

    fn find(&self, alloc: Global, key: &[u8]) -> Result<Found, TableFault> {
        let found = self.pairs.find(alloc, self.folds, key)?;
        Ok(found)
    }

    fn partial_keys(&self) -> bool {
        true
    }

    fn results(&self, alloc: Global) -> Result<Results, NoMemory> {
        Ok(Results::Listed(self.pairs.values(alloc)?))
    }
}
