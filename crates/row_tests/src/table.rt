//! What pf_table says of texts of tables.
//!
//! A row is `KIND¦TEXT¦SAID`. KIND is `text` or `inline`, with ` -f` after it where keys are not folded and ` -r` where the last
//! of repeated keys counts; SAID then has the pairs, each as `KEY=VALUE`, and the repeated keys, each as `#LINE KEY`, all parted by
//! bars, or the line of the refusal. Where a KEY is after KIND and a question mark, SAID is the value, `none` or `fails`; where
//! an asterisk is there, SAID is `partial` and each value that the table may give. Such a KIND may also be `static` or `fail`. In
//! `first N?KEY` TEXT is inline tables, parted by `;`, that are asked in turn, and the lookup of number N fails: then SAID may be
//! `failed`.
use pf_asks::{Found, Results, TableFault};
use pf_base::{Bytes, ConfFault, List, NoMemory, Pair, TableId, decimal};
use pf_table::{
    FailTable, FixedLookup, Inline, Repeated, Repeats, StaticTable, Table, TextTable, find_first,
};
use std::alloc::Global;

const BAR: &str = "¦";

// Adds a field, after a bar where there is one before it.
fn add_field(said: &mut Bytes, parts: &[&[u8]]) -> Result<(), NoMemory> {
    if said.len() > 0 {
        said.extend(BAR.as_bytes())?;
    }
    said.extend_all(parts)
}

fn add_pairs(said: &mut Bytes, pairs: &List<Pair>) -> Result<(), NoMemory> {
    for pair in pairs.as_slice() {
        add_field(said, &[pair.key.as_slice(), b"=", pair.value.as_slice()])?;
    }
    Ok(())
}

fn add_repeated(
    alloc: Global,
    said: &mut Bytes,
    repeated: &List<Repeated>,
) -> Result<(), NoMemory> {
    for one in repeated.as_slice() {
        let line = decimal(alloc, one.line)?;
        add_field(said, &[b"#", line.as_bytes(), b" ", one.key.as_slice()])?;
    }
    Ok(())
}

fn add_fault(alloc: Global, said: &mut Bytes, fault: &ConfFault) -> Result<(), NoMemory> {
    match fault {
        ConfFault::NoMemory => Err(NoMemory),
        ConfFault::Refused(refused) => {
            let line = refused.line(alloc)?;
            match line.as_slice() {
                [prefix @ .., b'\n'] => add_field(said, &[prefix]),
                _ => add_field(said, &[]),
            }
        }
    }
}

// What a row asks of a table: its pairs, the value of a key, or the values that it may give.
#[derive(Clone, Copy)]
enum Question<'a> {
    Pairs,
    Key(&'a str),
    Results,
}

fn add_answer(said: &mut Bytes, answer: Result<Found, TableFault>) -> Result<(), NoMemory> {
    match answer {
        Ok(Found::Value(value)) => add_field(said, &[value.as_slice()]),
        Ok(Found::Absent) => add_field(said, &[b"none"]),
        Err(TableFault::Fails) => add_field(said, &[b"fails"]),
        Err(TableFault::Failed) => add_field(said, &[b"failed"]),
        Err(TableFault::NoMemory) => Err(NoMemory),
    }
}

fn add_results<T: Table>(alloc: Global, said: &mut Bytes, table: &T) -> Result<(), NoMemory> {
    if table.partial_keys() {
        add_field(said, &[b"partial"])?;
    }
    match table.results(alloc)? {
        Results::Anything => add_field(said, &[b"anything"])?,
        Results::Listed(values) => {
            for value in values.as_slice() {
                add_field(said, &[value.as_slice()])?;
            }
        }
    }
    Ok(())
}

// What is said of a table beside its pairs.
fn ask<T: Table>(
    alloc: Global,
    said: &mut Bytes,
    table: &T,
    question: Question<'_>,
) -> Result<(), NoMemory> {
    match question {
        Question::Pairs => Ok(()),
        Question::Key(key) => add_answer(said, table.find(alloc, key.as_bytes())),
        Question::Results => add_results(alloc, said, table),
    }
}

// What is said of the first of some tables that has a key.
fn say_first(
    alloc: Global,
    said: &mut Bytes,
    text: &str,
    failing: u64,
    key: &str,
) -> Result<(), NoMemory> {
    let mut tables = List::new(alloc);
    let mut ids = List::new(alloc);
    for part in text.split(';') {
        let Ok(table) = Inline::read(alloc, b"main.cf", 7, part.as_bytes(), false) else {
            return add_field(said, &[b"no table"]);
        };
        ids.push(TableId(tables.len()))?;
        tables.push(table.pairs(alloc)?)?;
    }
    let mut numbers = List::new(alloc);
    numbers.push(failing)?;
    let mut lookup = FixedLookup::new(tables, numbers);
    if !lookup.has(ids.as_slice()) {
        return add_field(said, &[b"no such table"]);
    }
    let answer = find_first(alloc, &mut lookup, &ids, key.as_bytes());
    add_answer(said, answer)
}

// What is said of a text table.
fn say_text(
    alloc: Global,
    said: &mut Bytes,
    text: &str,
    folds: bool,
    repeats: Repeats,
    question: Question<'_>,
) -> Result<(), NoMemory> {
    match TextTable::read(alloc, b"t", text.as_bytes(), folds, repeats) {
        Err(fault) => add_fault(alloc, said, &fault),
        Ok(read) => {
            if let Question::Pairs = question {
                let pairs = read.table.pairs(alloc)?;
                add_pairs(said, &pairs)?;
                add_repeated(alloc, said, &read.repeated)?;
            }
            ask(alloc, said, &read.table, question)
        }
    }
}

// What is said of an inline table.
fn say_inline(
    alloc: Global,
    said: &mut Bytes,
    text: &str,
    folds: bool,
    question: Question<'_>,
) -> Result<(), NoMemory> {
    match Inline::read(alloc, b"main.cf", 7, text.as_bytes(), folds) {
        Err(fault) => add_fault(alloc, said, &fault),
        Ok(table) => {
            if let Question::Pairs = question {
                let pairs = table.pairs(alloc)?;
                add_pairs(said, &pairs)?;
            }
            ask(alloc, said, &table, question)
        }
    }
}

fn say(
    alloc: Global,
    said: &mut Bytes,
    kind: &str,
    text: &str,
    question: Question<'_>,
) -> Result<(), NoMemory> {
    match kind {
        "text" => say_text(alloc, said, text, true, Repeats::First, question),
        "text -f" => say_text(alloc, said, text, false, Repeats::First, question),
        "text -r" => say_text(alloc, said, text, true, Repeats::Last, question),
        "inline" => say_inline(alloc, said, text, true, question),
        "inline -f" => say_inline(alloc, said, text, false, question),
        "static" => {
            let table = StaticTable::new(Bytes::from_slice(alloc, text.as_bytes())?);
            ask(alloc, said, &table, question)
        }
        "fail" => ask(alloc, said, &FailTable::new(), question),
        _ => add_field(said, &[b"no such kind"]),
    }
}

/// Adds what is said of the tables of a text, of what a row asks.
pub fn add_said(alloc: Global, said: &mut Bytes, prefix: &str, text: &str) -> Result<(), NoMemory> {
    match prefix.split_once('?') {
        Some((kind, key)) => match kind.strip_prefix("first ") {
            Some(number) => {
                say_first(alloc, said, text, number.parse::<u64>().unwrap_or(0), key)
            }
            None => say(alloc, said, kind, text, Question::Key(key)),
        },
        None => match prefix.strip_suffix("*") {
            Some(kind) => say(alloc, said, kind, text, Question::Results),
            None => say(alloc, said, prefix, text, Question::Pairs),
        },
    }
}
