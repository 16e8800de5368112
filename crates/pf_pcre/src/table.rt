//! Tables of patterns.
ghost use Rattle.std.specs.Prelude.{◌≡◌, ◌≢◌, ◌≤◌, false, IfOk, OnOk};
ghost use Rattle.pf_base.specs.Clauses.Unless.{Unless};
ghost use Rattle.pf_asks.specs.Clauses.Causes.{counted_if};
ghost use Rattle.pf_asks.specs.Looking.{HasAll};
ghost use Rattle.pf_pcre.specs.Clauses.Reading.{CountsOnce, IsTableOf, as_conf_fault, is_large, names_size};
ghost use Rattle.pf_pcre.specs.Clauses.Taking as taking;
ghost use Rattle.pf_pcre.specs.Tables as tables;
ghost use Rattle.std.specs.Prelude.{Some};

use crate::entries::Entries;
use crate::entry::{Condition, Entry, Rule};
use crate::line::{LineFault, entry_of};
use crate::parts::Parts;
use crate::patterns::Patterns;
use crate::reason::Reason;
use bstr::ByteSlice;
use pf_asks::{Found, Results};
use pf_base::{
    Bytes, Cause, ConfFault, List, Logical, NoMemory, Refused, TextFault, logical_lines,
};
use std::alloc::Global;
use std::marker::Model;

/// The most rules that a table has. The number is postgate's own.
const MOST_RULES: u64 = 500;

/// A table of patterns: rules in order, each with a result, and the conditions round them (pcre_table(5)).
#[derive(Drop)]
pub struct PcreTable {
    parts: Parts,
}

impl Model for PcreTable {
    ghost use Rattle.std.specs.Prelude.{List as Seq};
    ghost use Rattle.pf_pcre.specs.declared.entry.Entry.{Entry as Said};

    ghost Value = { Seq Said };

    ghost view = { λ table. table.parts };
}

// A refusal.
fn refused(alloc: Global, file: &[u8], line: u64, cause: Cause, name: &[u8]) -> ConfFault
    ensures { result ≢ ConfFault.NoMemory → result ≡ ConfFault.Refused (tables.refused file.now line cause name.now) }
{
    let Ok(file) = Bytes::from_slice(alloc, file) else {
        return ConfFault::NoMemory;
    };
    let Ok(name) = Bytes::from_slice(alloc, name) else {
        return ConfFault::NoMemory;
    };
    ConfFault::Refused(Refused {
        file,
        line,
        cause,
        name,
    })
}

// What was read of a table: its lines, how many of them are rules, and the numbers of the lines whose conditions are open,
// the outermost first.
#[derive(Drop)]
struct Reading {
    entries: Entries,
    rules: u64,
    pending: List<u64>,
}

impl Reading {
    // Nothing was read yet.
    fn new(alloc: Global) -> Reading
        ensures { result ≡ taking.start }
    {
        Reading {
            entries: Entries::new(alloc),
            rules: 0,
            pending: List::new(alloc),
        }
    }

    // A rule, unless there are too many.
    fn add_rule(&mut self, alloc: Global, rule: Rule) -> Result<(), LineFault>
        ensures { taking.Leaves (taking.added_rule self.old rule) self.new result }
    {
        if let Err(NoMemory) = self.entries.push(alloc, Entry::Rule(rule)) {
            return Err(LineFault::NoMemory);
        }
        if self.rules >= MOST_RULES {
            return Err(LineFault::Refused(Reason::TooManyRules));
        }
        self.rules += 1;
        Ok(())
    }

    // A condition, which is open.
    fn add_condition(
        &mut self,
        alloc: Global,
        line: u64,
        condition: Condition,
    ) -> Result<(), NoMemory>
        ensures { OnOk result (self.new ≡ taking.with_condition self.old line condition) }
    {
        self.entries.push(alloc, Entry::If(condition))?;
        self.pending.push(line)
    }

    // The end of the last condition that is open.
    fn close(&mut self, alloc: Global) -> Result<(), LineFault>
        ensures { taking.Leaves (taking.closed self.old) self.new result }
    {
        match self.pending.pop() {
            None => Err(LineFault::Refused(Reason::EndifWithoutIf)),
            Some(_) => match self.entries.push(alloc, Entry::Endif) {
                Ok(()) => Ok(()),
                Err(NoMemory) => Err(LineFault::NoMemory),
            },
        }
    }

    // What a line says.
    fn add(&mut self, alloc: Global, line: u64, entry: Entry) -> Result<(), LineFault>
        ensures is { taking.Leaves (taking.taken self.old line entry) self.new result }
        ensures small { is_large result ≡ false }
    {
        match entry {
            Entry::Rule(rule) => self.add_rule(alloc, rule),
            Entry::If(condition) => match self.add_condition(alloc, line, condition) {
                Ok(()) => Ok(()),
                Err(NoMemory) => Err(LineFault::NoMemory),
            },
            Entry::Endif => self.close(alloc),
        }
    }

    fn take(
        &mut self,
        alloc: Global,
        patterns: &mut Patterns,
        line: u64,
        text: &[u8],
    ) -> Result<(), LineFault>
        ensures is { taking.Leaves (taking.takes (is_large result) self.old line text.now) self.new result }
        ensures counts { patterns.new ≡ counted_if (is_large result) patterns.old }
    {
        match entry_of(alloc, patterns, text) {
            Err(fault) => Err(fault),
            Ok(entry) => self.add(alloc, line, entry),
        }
    }

    // The table, once there is no further line.
    fn finish(self, alloc: Global, file: &[u8]) -> Result<PcreTable, ConfFault>
        ensures { Unless result ConfFault.NoMemory (λ r. r ≡ as_conf_fault (tables.or_refused file.now (taking.finished self self.pending))) }
    {
        if let [line, ..] = self.pending.as_slice() {
            let reason = Reason::IfWithoutEndif.text();
            return Err(refused(alloc, file, *line, Cause::C11, reason));
        }
        let Reading {
            entries,
            rules: _,
            pending: _,
        } = self;
        match entries.finish(alloc) {
            Ok(parts) => Ok(PcreTable { parts }),
            Err(NoMemory) => Err(ConfFault::NoMemory),
        }
    }
}

// The table of logical lines.
fn table_of(
    alloc: Global,
    file: &[u8],
    lines: &[Logical],
    patterns: &mut Patterns,
) -> Result<PcreTable, ConfFault>
    ensures is { Unless result ConfFault.NoMemory (IsTableOf (λ large. tables.or_refused file.now (tables.table_with large lines.now))) }
    ensures counts { Unless result ConfFault.NoMemory (λ r. patterns.new ≡ counted_if (names_size r) patterns.old) }
    ensures later { patterns.old ≤ patterns.new }
    ensures once { CountsOnce (λ large. tables.or_refused file.now (tables.table_with large lines.now)) patterns.old patterns.new }
{
    let mut reading = Reading::new(alloc);
    for logical in lines {
        match reading.take(alloc, patterns, logical.line, logical.text.as_slice()) {
            Ok(()) => {}
            Err(LineFault::Refused(reason)) => {
                return Err(refused(alloc, file, logical.line, Cause::C11, reason.text()));
            }
            Err(LineFault::NoMemory) => return Err(ConfFault::NoMemory),
        }
    }
    reading.finish(alloc, file)
}

impl PcreTable {
    /// The table of a file with this name and this text (pcre_table(5)). It is refused as C1 where its first line that is not
    /// ignored starts with space, else as C11 at its first line that has a reason, which the refusal names: `flag`, `pattern`,
    /// `pattern size`, `group`, `no value`, `too many rules` or `endif without if`, of several the first in this order. After
    /// all these comes `if without endif`, at the first `if` that is never closed. A line that is refused
    /// with `pattern size` raises the count by one, but not above the greatest u64; where memory ran out the count rose at most
    /// once, and only where a line can be refused so. Any other answer leaves it.
    pub fn read(
        alloc: Global,
        file: &[u8],
        text: &[u8],
        patterns: &mut Patterns,
    ) -> Result<PcreTable, ConfFault>
        ensures is { Unless result ConfFault.NoMemory (IsTableOf (λ large. tables.table_of large file.now text.now)) }
        ensures counts { Unless result ConfFault.NoMemory (λ r. patterns.new ≡ counted_if (names_size r) patterns.old) }
        ensures later { patterns.old ≤ patterns.new }
        ensures once { CountsOnce (λ large. tables.table_of large file.now text.now) patterns.old patterns.new }
    {
        match logical_lines(alloc, text) {
            Ok(lines) => table_of(alloc, file, lines.as_slice(), patterns),
            Err(TextFault::Continuation { line }) => {
                Err(refused(alloc, file, line, Cause::C1, b""))
            }
            Err(TextFault::NoMemory) => Err(ConfFault::NoMemory),
        }
    }

    /// The value of a key: the result of the first rule that applies to its lossy text, in which its own pattern and all
    /// conditions round it match, with what the groups of the pattern matched first (pcre_table(5)).
    pub fn find(&mut self, alloc: Global, key: &[u8]) -> Result<Found, NoMemory>
        ensures value { IfOk result (λ found. (tables.pcre_meaning self.old).value key.now ≡ Some found) }
        ensures same { self.new ≡ self.old }
    {
        let text = key.to_str_lossy(alloc)?;
        match self.parts.first_value(alloc, text.as_str())? {
            Some(value) => Ok(Found::Value(value)),
            None => Ok(Found::Absent),
        }
    }

    /// The results of the rules in order, `$$` read as `$`; any value where one of them names a group. Each value that the
    /// table has at some key is among them.
    pub fn results(&self, alloc: Global) -> Result<Results, NoMemory>
        ensures listed { IfOk result (λ results. results ≡ (tables.pcre_meaning self.now).results) }
        ensures all { HasAll (tables.pcre_meaning self.now) }
    {
        self.parts.results(alloc)
    }
}
