//! A resolver in memory. It is made with the numbers, from 1, of its questions that fail.
ghost use Rattle.std.specs.Prelude.{◌≡◌, ◌==◌, ◌&&◌, IfOk};
ghost use Rattle.std.specs.List.{find, list_any};
ghost use Rattle.std.specs.Option.{option_copied};
ghost use Rattle.std.specs.Str.{bytes_eq};
ghost use Rattle.pf_base.specs.Text.Names.{folded};
ghost use Rattle.pf_base.specs.Clauses.Unless.{Unless};
ghost use Rattle.pf_asks.specs.Clauses.Held.{Answered, called};
ghost use Rattle.pf_asks.specs.Clauses.Memory as memory;
ghost use Rattle.pf_asks.specs.Resolving as spec;
ghost use Rattle.pf_asks.specs.Resolving.{HasValues, ask_failed};

use crate::resolver::{Answer, AskFault, Kind, Resolver, Row};
use pf_base::{Bytes, List, NoMemory, fold};
use std::alloc::Global;
use std::marker::Model;

// Whether a number is among these.
fn contains(numbers: &[u64], number: u64) -> bool
    ensures { result ≡ list_any (λ n. n == number) numbers.now }
{
    numbers.iter().any(|n| *n == number)
}

// Which questions fail, and how many there were.
#[derive(Debug, Drop)]
struct Schedule {
    failing: List<u64>,
    asks: u64,
    faults: u64,
}

impl Model for Schedule {
    ghost use Rattle.pf_base.specs.Clauses.Memory.{Calls};

    ghost Value = { Calls };

    ghost view = { λ schedule. record { failing = schedule.failing; made = schedule.asks; faults = schedule.faults } };
}

impl Schedule {
    ghost use Rattle.pf_base.specs.Clauses.Memory.{none_made};

    fn new(failing: List<u64>) -> Schedule
        ensures { result ≡ none_made failing }
    {
        Schedule {
            failing,
            asks: 0,
            faults: 0,
        }
    }

    // Counts a question, and says whether it fails.
    fn next(&mut self) -> bool
        ensures { memory.CountsAsk self.old self.new result }
    {
        let ask = self.asks.saturating_add(1);
        let fails = contains(self.failing.as_slice(), ask);
        self.asks = ask;
        if fails {
            self.faults = self.faults.saturating_add(1);
        }
        fails
    }
}

fn same_kind(one: Kind, other: Kind) -> bool
    ensures { result ≡ spec.same_kind one other }
{
    match one {
        Kind::A => other == Kind::A,
        Kind::Aaaa => other == Kind::Aaaa,
        Kind::Mx => other == Kind::Mx,
        Kind::Ptr => other == Kind::Ptr,
    }
}

// Whether an answer that found something has a value.
fn has_values(answer: &Answer) -> bool
    ensures { result ≡ memory.has_values answer.now }
{
    match answer {
        Answer::Found(values) => 0 < values.len(),
        Answer::Missing => true,
        Answer::Again => true,
    }
}

fn have_values(rows: &[Row]) -> bool
    ensures { result ≡ memory.have_values rows.now }
{
    rows.iter().all(|row| has_values(&row.answer))
}

fn copied_values(alloc: Global, values: &[Bytes]) -> Result<List<Bytes>, NoMemory>
    ensures { IfOk result (λ copy. copy ≡ values.now) }
{
    let mut copy = List::new(alloc);
    for value in values {
        copy.push(value.copy(alloc)?)?;
    }
    Ok(copy)
}

fn copied(alloc: Global, answer: &Answer) -> Result<Answer, NoMemory>
    ensures { IfOk result (λ copy. copy ≡ answer.now) }
{
    match answer {
        Answer::Found(values) => {
            let copy = copied_values(alloc, values.as_slice())?;
            Ok(Answer::Found(copy))
        }
        Answer::Missing => Ok(Answer::Missing),
        Answer::Again => Ok(Answer::Again),
    }
}

// The first row of this kind and name.
fn row_of<'a>(rows: &'a [Row], name: &[u8], kind: Kind) -> Option<&'a Row>
    ensures { option_copied result ≡ find (λ row. spec.same_kind row.kind kind && bytes_eq row.name name.now) rows.now }
{
    rows.iter().find(|row| same_kind(row.kind, kind) && row.name.as_slice() == name)
}

// What rows answer.
fn answer_of(alloc: Global, rows: &[Row], name: &[u8], kind: Kind) -> Result<Answer, NoMemory>
    ensures { IfOk result (λ answer. answer ≡ spec.answer_in (find (λ row. spec.same_kind row.kind kind && bytes_eq row.name (folded name.now)) rows.now)) }
{
    let key = fold(alloc, name)?;
    match row_of(rows, key.as_slice(), kind) {
        None => Ok(Answer::Missing),
        Some(row) => copied(alloc, &row.answer),
    }
}

/// A resolver of rows; of several with one kind and name the first counts.
#[derive(Debug, Drop)]
pub struct MemResolver {
    rows: List<Row>,
    schedule: Schedule,
}

impl Model for MemResolver {
    ghost use Rattle.std.specs.Prelude.{◌≡◌, true};
    ghost use Rattle.pf_asks.specs.Clauses.Memory.{MemoryResolver, have_values};

    ghost Value = { MemoryResolver };

    ghost view = { λ resolver. record { rows = resolver.rows; calls = resolver.schedule } };

    ghost invariant = { λ resolver. have_values resolver.rows ≡ true };
}

impl MemResolver {
    /// These rows, their names in small letters; None where a row finds something and has no value. `failing` are the
    /// numbers, from 1, of the questions that fail.
    pub fn new(rows: List<Row>, failing: List<u64>) -> Option<MemResolver>
        ensures { result ≡ memory.resolver_with rows failing }
    {
        if have_values(rows.as_slice()) {
            Some(MemResolver {
                rows,
                schedule: Schedule::new(failing),
            })
        } else {
            None
        }
    }
}

impl Resolver for MemResolver {
    ghost use Rattle.pf_base.specs.Clauses.Memory.{fails_next};

    ghost held = { memory.resolver_held };

    fn ask(&mut self, alloc: Global, name: &[u8], kind: Kind) -> Result<Answer, AskFault>
        ensures stays { memory.resolver_held self.new ≡ called (ask_failed result) (memory.resolver_held self.old) }
        ensures values { IfOk result HasValues }
        ensures answered { Unless result AskFault.NoMemory (Answered ask_failed (memory.resolver_held self.old).content (spec.answer_of name.now kind)) }
        ensures fails { ask_failed result ≡ fails_next self.old.calls }
        ensures call { memory.CountsAsk self.old.calls self.new.calls (fails_next self.old.calls) }
    {
        if self.schedule.next() {
            return Err(AskFault::Failed);
        }
        let answer = answer_of(alloc, self.rows.as_slice(), name, kind)?;
        Ok(answer)
    }
}
