//! Tables in memory.
ghost use Rattle.std.specs.Prelude.{◌≡◌, ◌≢◌, ◌<◌, ◌==◌, Some, Ok, Err, true, nat_lt, length, map, slice_get, IfOk};
ghost use Rattle.std.specs.List.{find, list_all, list_any};
ghost use Rattle.std.specs.Option.{option_copied};
ghost use Rattle.std.specs.Str.{bytes_eq};
ghost use Rattle.pf_base.specs.Clauses.Memory.{none_made};
ghost use Rattle.pf_base.specs.Clauses.Unless.{Unless};
ghost use Rattle.pf_asks.specs.Clauses.Held.{Answered};
ghost use Rattle.pf_asks.specs.Looking.{CanFind, HasAll, Values, answer_of, listed, listing_failed, look_failed, looked_up, results_of, value_of};
ghost use Rattle.pf_table.specs.Tables as spec;
ghost use Rattle.pf_table.specs.Clauses.Memory as memory;

use pf_asks::{Found, Lookup, Results, TableFault};
use pf_base::{Bytes, List, NoMemory, Pair, TableId};
use std::alloc::Global;
use std::marker::Model;

// The first pair of a key.
fn pair_of<'a>(pairs: &'a [Pair], key: &[u8]) -> Option<&'a Pair>
    ensures { option_copied result ≡ find (λ pair. bytes_eq key.now pair.key) pairs.now }
{
    pairs.iter().find(|pair| key == pair.key.as_slice())
}

// What a table has for a key.
fn found_in(alloc: Global, pairs: &[Pair], key: &[u8]) -> Result<Found, NoMemory>
    ensures { IfOk result (λ found. found ≡ spec.found_in pairs.now key.now) }
{
    match pair_of(pairs, key) {
        None => Ok(Found::Absent),
        Some(pair) => Ok(Found::Value(pair.value.copy(alloc)?)),
    }
}

// The values of pairs.
fn values_in(alloc: Global, pairs: &[Pair]) -> Result<List<Bytes>, NoMemory>
    ensures { IfOk result (λ values. values ≡ map (λ pair. pair.value) pairs.now) }
{
    let mut values = List::new(alloc);
    for pair in pairs {
        values.push(pair.value.copy(alloc)?)?;
    }
    Ok(values)
}

// Whether all these places are below a number of tables.
fn are_below(ids: &[TableId], count: u64) -> bool
    ensures { result ≡ list_all (λ id. nat_lt id.0 count) ids.now }
{
    ids.iter().all(|id| id.0 < count)
}

// Whether a number is among these.
fn contains(numbers: &[u64], number: u64) -> bool
    ensures { result ≡ list_any (λ n. n == number) numbers.now }
{
    numbers.iter().any(|n| *n == number)
}

/// Tables in memory, under their places from 0. Each is pairs, of which the first of a key counts; keys are not folded.
#[derive(Debug, Drop)]
pub struct FixedLookup {
    tables: List<List<Pair>>,
    failing: List<u64>,
    calls: u64,
    faults: u64,
    finds: u64,
}

impl Model for FixedLookup {
    ghost use Rattle.pf_table.specs.Clauses.Memory.{MemoryTables};

    ghost Value = { MemoryTables };

    ghost view = { λ lookup. record {
      tables = lookup.tables;
      calls = record { failing = lookup.failing; made = lookup.calls; faults = lookup.faults };
      finds = lookup.finds;
    } };
}

impl FixedLookup {
    /// These tables. `failing` are the numbers, from 1, of the calls of `find` and `results` that fail from outside.
    pub fn new(tables: List<List<Pair>>, failing: List<u64>) -> FixedLookup
        ensures { result ≡ record { tables = tables; calls = none_made failing; finds = 0 } }
    {
        FixedLookup {
            tables,
            failing,
            calls: 0,
            faults: 0,
            finds: 0,
        }
    }

    fn count(&self) -> u64
        ensures { result ≡ length self.now.tables }
    {
        self.tables.len()
    }

    /// Whether there are tables of all these places.
    pub fn has(&self, ids: &[TableId]) -> bool
        ensures all { result ≡ list_all (λ id. nat_lt id.0 (length self.now.tables)) ids.now }
        ensures can_find { result ≡ true → CanFind (memory.seen self.now) ids.now }
    {
        are_below(ids, self.count())
    }

    // Counts a lookup.
    fn count_find(&mut self)
        ensures { self.new ≡ memory.with_find self.old }
    {
        self.finds = self.finds.saturating_add(1);
    }

    // Counts a call, and says whether it fails.
    fn next(&mut self) -> bool
        ensures { memory.CountsCall self.old self.new result }
    {
        let number = self.calls.saturating_add(1);
        let fails = contains(self.failing.as_slice(), number);
        self.calls = number;
        if fails {
            self.faults = self.faults.saturating_add(1);
        }
        fails
    }

    // What the table of this place has for a key.
    fn value(&self, alloc: Global, id: TableId, key: &[u8]) -> Result<Found, TableFault>
        requires { id.0 < length self.now.tables }
        ensures { Unless result TableFault.NoMemory (λ r. r ≡ answer_of (memory.meaning_in (slice_get self.now.tables id.0)) key.now) }
    {
        let found = found_in(alloc, self.tables.at(id.0).as_slice(), key)?;
        Ok(found)
    }

    // Which values the table of this place may give.
    fn values(&self, alloc: Global, id: TableId) -> Result<Results, TableFault>
        requires { id.0 < length self.now.tables }
        ensures { Unless result TableFault.NoMemory (λ r. r ≡ Ok ((memory.meaning_in (slice_get self.now.tables id.0)).results)) }
    {
        let values = values_in(alloc, self.tables.at(id.0).as_slice())?;
        Ok(Results::Listed(values))
    }
}

impl Lookup for FixedLookup {
    ghost use Rattle.pf_base.specs.Clauses.Memory.{fails_next};

    ghost tables = { memory.seen };

    fn find(&mut self, alloc: Global, id: TableId, key: &[u8]) -> Result<Found, TableFault>
        requires sound { (memory.seen self.old).sound ≡ true }
        requires there { id.0 < (memory.seen self.old).count }
        ensures stays { memory.seen self.new ≡ looked_up result (memory.seen self.old) }
        ensures answered { Unless result TableFault.NoMemory (Answered look_failed (memory.seen self.old).held.content (value_of id.0 key.now)) }
        ensures fails { look_failed result ≡ fails_next self.old.calls }
        ensures call { memory.CountsCall (memory.with_find self.old) self.new (fails_next self.old.calls) }
    {
        self.count_find();
        if self.next() {
            return Err(TableFault::Failed);
        }
        self.value(alloc, id, key)
    }

    fn partial_keys(&self, _: TableId) -> bool {
        true
    }

    fn results(&mut self, alloc: Global, id: TableId) -> Result<Results, TableFault>
        requires sound { (memory.seen self.old).sound ≡ true }
        requires there { id.0 < (memory.seen self.old).count }
        ensures stays { memory.seen self.new ≡ listed result (memory.seen self.old) }
        ensures works { result ≢ Err TableFault.Fails }
        ensures answered { Unless result TableFault.NoMemory (Answered listing_failed (memory.seen self.old).held.content (results_of id.0)) }
        ensures all { (values : Values) → (memory.seen self.old).held.content ≡ Some values → HasAll (values id.0) }
        ensures fails { listing_failed result ≡ fails_next self.old.calls }
        ensures call { memory.CountsCall self.old self.new (fails_next self.old.calls) }
    {
        if self.next() {
            Err(TableFault::Failed)
        } else {
            self.values(alloc, id)
        }
    }
}
