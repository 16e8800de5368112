//! Tables of nets.
ghost use Rattle.std.specs.Prelude.{◌≡◌, ◌≢◌, ◌<◌, [], length, slice_get, Some, IfSome, OnOk};
ghost use Rattle.pf_base.specs.Clauses.Unless.{Unless};
ghost use Rattle.pf_cidr.specs.Clauses.Faults.{as_fault};
ghost use Rattle.pf_cidr.specs.Clauses.Taking as taking;
ghost use Rattle.pf_cidr.specs.Tables as tables;

use crate::address::Addr;
use crate::entry::{Entry, Pattern, entry_of, value_of};
use crate::reason::Reason;
use pf_base::{
    Bytes, Cause, ConfFault, List, Logical, NoMemory, Refused, TextFault, logical_lines,
};
use std::alloc::Global;
use std::marker::Model;

/// A table of nets: rules in order, each with a result, and the conditions round them (cidr_table(5)).
#[derive(Debug, Drop)]
pub struct CidrTable {
    entries: List<Entry>,
    results: List<Bytes>,
}

impl Model for CidrTable {
    ghost use Rattle.std.specs.Prelude.{◌≡◌, [], length};
    ghost use Rattle.pf_cidr.specs.Tables.{Table, rules_of};

    ghost Value = { Table };

    ghost view = { λ table. record { entries = table.entries; results = table.results } };

    ghost invariant = { λ table. length table.results ≡ length (rules_of [] table.entries) };
}

// The refusal of a file at this line, for this cause and name.
fn refused(alloc: Global, file: &[u8], line: u64, cause: Cause, name: &[u8]) -> ConfFault
    ensures { result ≢ ConfFault.NoMemory → result ≡ ConfFault.Refused (tables.refused file.now line cause name.now) }
{
    let Ok(file) = Bytes::from_slice(alloc, file) else {
        return ConfFault::NoMemory;
    };
    let Ok(name) = Bytes::from_slice(alloc, name) else {
        return ConfFault::NoMemory;
    };
    ConfFault::Refused(Refused {
        file,
        line,
        cause,
        name,
    })
}

// Why a line is not taken.
#[derive(Clone, Copy, Debug, PartialEq, Eq)]
enum LineFault {
    Refused(Reason),
    NoMemory,
}

impl From<NoMemory> for LineFault {
    ghost use Rattle.std.specs.Prelude.{◌≡◌};
    ghost use Rattle.pf_cidr.specs.declared.table.LineFault.TheVariants.{NoMemory};

    ghost from_gives = { λ _ fault. fault ≡ NoMemory };

    fn from(_: NoMemory) -> LineFault {
        LineFault::NoMemory
    }
}

// What was read of a table: its lines, its results, and the numbers of the lines whose conditions are open, the outermost first.
#[derive(Drop)]
struct Reading {
    entries: List<Entry>,
    results: List<Bytes>,
    pending: List<u64>,
}

impl Reading {
    // A rule with its result.
    fn add_rule(&mut self, alloc: Global, pattern: Pattern, value: &[u8]) -> Result<(), NoMemory>
        ensures { OnOk result (self.new ≡ taking.with_rule self.old pattern value.now) }
    {
        let value = Bytes::from_slice(alloc, value)?;
        self.results.push(value)?;
        self.entries.push(Entry::Rule(pattern))
    }

    // A condition, which is open.
    fn add_condition(&mut self, line: u64, pattern: Pattern) -> Result<(), NoMemory>
        ensures { OnOk result (self.new ≡ taking.with_condition self.old line pattern) }
    {
        self.pending.push(line)?;
        self.entries.push(Entry::If(pattern))
    }

    // The end of the last condition that is open.
    fn close(&mut self) -> Result<(), LineFault>
        ensures { taking.Leaves (taking.closed self.old) self.new result }
    {
        match self.pending.pop() {
            None => Err(LineFault::Refused(Reason::EndifWithoutIf)),
            Some(_) => {
                self.entries.push(Entry::Endif)?;
                Ok(())
            }
        }
    }

    fn take(&mut self, alloc: Global, line: u64, text: &[u8]) -> Result<(), LineFault>
        ensures { taking.Leaves (taking.takes self.old line text.now) self.new result }
    {
        match entry_of(text) {
            Err(reason) => Err(LineFault::Refused(reason)),
            Ok(Entry::Rule(pattern)) => {
                self.add_rule(alloc, pattern, value_of(text))?;
                Ok(())
            }
            Ok(Entry::If(pattern)) => {
                self.add_condition(line, pattern)?;
                Ok(())
            }
            Ok(Entry::Endif) => self.close(),
        }
    }

    // The table, once there is no further line.
    fn finish(self, alloc: Global, file: &[u8]) -> Result<CidrTable, ConfFault>
        requires { length self.results ≡ length (tables.rules_of [] self.entries) }
        ensures { Unless result ConfFault.NoMemory (λ r. r ≡ as_fault (tables.or_refused file.now (taking.finished self self.pending))) }
    {
        if let [line, ..] = self.pending.as_slice() {
            let reason = Reason::IfWithoutEndif.text();
            return Err(refused(alloc, file, *line, Cause::C11, reason));
        }
        let Reading {
            entries,
            results,
            pending: _,
        } = self;
        Ok(CidrTable { entries, results })
    }
}

// The table of logical lines.
fn table_of(alloc: Global, file: &[u8], lines: &[Logical]) -> Result<CidrTable, ConfFault>
    ensures { Unless result ConfFault.NoMemory (λ r. r ≡ as_fault (tables.or_refused file.now (tables.table_with lines.now))) }
{
    let mut reading = Reading {
        entries: List::new(alloc),
        results: List::new(alloc),
        pending: List::new(alloc),
    };
    for logical in lines {
        match reading.take(alloc, logical.line, logical.text.as_slice()) {
            Ok(()) => {}
            Err(LineFault::Refused(reason)) => {
                return Err(refused(alloc, file, logical.line, Cause::C11, reason.text()));
            }
            Err(LineFault::NoMemory) => return Err(ConfFault::NoMemory),
        }
    }
    reading.finish(alloc, file)
}

impl CidrTable {
    /// The table of a file with this name and this text (cidr_table(5)). It is refused as C1 where its first line that is not
    /// ignored starts with space, else as C11 at its first line that has a reason, which the refusal names: `pattern`, `host
    /// bits`, `no value` or `endif without if`, of several the first in this order. Behind all these comes `if without endif`,
    /// at the first `if` that is never closed.
    pub fn read(alloc: Global, file: &[u8], text: &[u8]) -> Result<CidrTable, ConfFault>
        ensures { Unless result ConfFault.NoMemory (λ r. r ≡ as_fault (tables.table_of file.now text.now)) }
    {
        match logical_lines(alloc, text) {
            Ok(lines) => table_of(alloc, file, lines.as_slice()),
            Err(TextFault::Continuation { line }) => {
                Err(refused(alloc, file, line, Cause::C1, b""))
            }
            Err(TextFault::NoMemory) => Err(ConfFault::NoMemory),
        }
    }

    /// The number of the first rule that applies to an address, from 0: its pattern and all conditions round it match
    /// (cidr_table(5)). None where no rule applies.
    #[tactic(auto, unfolding(crate::specs::Tables::first_rule))]
    pub fn find(&self, addr: &Addr) -> Option<u64>
        ensures is { result ≡ tables.first_rule self.now.entries addr.now }
        ensures within { IfSome result (λ rule. rule < length self.now.results) }
    {
        // How many of the open conditions are passed over: those from the first on that does not match.
        let mut skipped: u64 = 0;
        let mut rule: u64 = 0;
        for entry in self.entries.as_slice() {
            match entry {
                Entry::Rule(pattern) => {
                    if skipped == 0 && pattern.matches(addr) {
                        return Some(rule);
                    }
                    rule += 1;
                }
                Entry::If(pattern) => {
                    if skipped > 0 || !pattern.matches(addr) {
                        skipped += 1;
                    }
                }
                Entry::Endif => {
                    if skipped > 0 {
                        skipped -= 1;
                    }
                }
            }
        }
        None
    }

    /// How many rules there are.
    pub fn len(&self) -> u64
        ensures { result ≡ length self.now.results }
    {
        self.results.len()
    }

    /// The result of a rule, by its number from 0.
    pub fn result(&self, rule: u64) -> &Bytes
        requires { rule < length self.now.results }
        ensures { slice_get self.now.results rule ≡ Some result.now }
    {
        self.results.at(rule)
    }
}
