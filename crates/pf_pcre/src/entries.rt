//! Rules and conditions in order, as they are read.
ghost use Rattle.std.specs.Prelude.{◌≡◌, [], ◌∷◌, ◌++◌, map, IfOk, OnOk};
ghost use Rattle.pf_pcre.specs.Clauses.Steps.{all_said, said_of};
ghost use Rattle.pf_pcre.specs.declared.entry.Entry.TheVariants.{Rule as RuleSaid};

use crate::entry::{Entry, Rule};
use crate::parts::{Part, Parts};
use crate::run::{Run, sieve_of};
use pf_base::NoMemory;
use std::alloc::Global;
use std::marker::Model;
use std::mem;

/// The most rules that one sieve stands for.
const MOST_IN_RUN: usize = 32;

/// What was read: parts, and the rules after them that are in no part yet.
#[derive(Drop)]
pub(crate) struct Entries {
    parts: Vec<Part>,
    waiting: Vec<Rule>,
}

impl Model for Entries {
    ghost use Rattle.std.specs.Prelude.{List as Seq, ◌++◌, map};
    ghost use Rattle.pf_pcre.specs.Clauses.Steps.{all_said};
    ghost use Rattle.pf_pcre.specs.declared.entry.Entry.{Entry as Said};
    ghost use Rattle.pf_pcre.specs.declared.entry.Entry.TheVariants.{Rule as RuleSaid};

    ghost Value = { Seq Said };

    ghost view = { λ entries. all_said entries.parts.items ++ map RuleSaid entries.waiting.items };
}

fn add_part(parts: &mut Vec<Part>, part: Part) -> Result<(), NoMemory>
    ensures { OnOk result (parts.new.items ≡ parts.old.items ++ part ∷ []) }
{
    parts.push(part)?;
    Ok(())
}

// Rules as one part, if there are any.
#[tactic(auto, using(crate::proofs::PartLaws::said_more))]
fn add_rules(alloc: Global, parts: &mut Vec<Part>, rules: Vec<Rule>) -> Result<(), NoMemory>
    ensures { OnOk result (all_said parts.new.items ≡ all_said parts.old.items ++ map RuleSaid rules.items) }
{
    if rules.is_empty() {
        return Ok(());
    }
    let sieve = sieve_of(alloc, rules.as_slice())?;
    add_part(parts, Part::Run(Run::new(rules, sieve)))
}

impl Entries {
    pub(crate) fn new(alloc: Global) -> Entries
        ensures { result ≡ [] }
    {
        Entries {
            parts: Vec::new(alloc),
            waiting: Vec::new(alloc),
        }
    }

    // The rules that are in no part yet become one.
    fn close(&mut self, alloc: Global) -> Result<(), NoMemory>
        ensures { OnOk result (self.new ≡ self.old) }
    {
        let rules = mem::replace(&mut self.waiting, Vec::new(alloc));
        add_rules(alloc, &mut self.parts, rules)
    }

    #[tactic(auto, using(crate::proofs::PartLaws::said_more))]
    fn push_part(&mut self, alloc: Global, part: Part) -> Result<(), NoMemory>
        ensures { OnOk result (self.new ≡ self.old ++ said_of part) }
    {
        let rules = mem::replace(&mut self.waiting, Vec::new(alloc));
        add_rules(alloc, &mut self.parts, rules)?;
        add_part(&mut self.parts, part)
    }

    // Whether a rule begins a run: enough rules are before it, or it or the one before it is negated, for which no sieve
    // stands.
    fn begins_run(&self, rule: &Rule) -> bool {
        match self.waiting.last() {
            None => false,
            Some(before) => {
                self.waiting.len() >= MOST_IN_RUN
                    || before.condition.negated
                    || rule.condition.negated
            }
        }
    }

    #[tactic(auto, using(crate::proofs::PartLaws::rule_more))]
    fn push_rule(&mut self, alloc: Global, rule: Rule) -> Result<(), NoMemory>
        ensures { OnOk result (self.new ≡ self.old ++ RuleSaid rule ∷ []) }
    {
        if self.begins_run(&rule) {
            self.close(alloc)?;
        }
        self.waiting.push(rule)?;
        Ok(())
    }

    pub(crate) fn push(&mut self, alloc: Global, entry: Entry) -> Result<(), NoMemory>
        ensures { OnOk result (self.new ≡ self.old ++ entry ∷ []) }
    {
        match entry {
            Entry::Rule(rule) => self.push_rule(alloc, rule),
            Entry::If(condition) => self.push_part(alloc, Part::If(condition)),
            Entry::Endif => self.push_part(alloc, Part::Endif),
        }
    }

    /// The parts of all that was read.
    pub(crate) fn finish(self, alloc: Global) -> Result<Parts, NoMemory>
        ensures { IfOk result (λ parts. parts ≡ self) }
    {
        let Entries { mut parts, waiting } = self;
        add_rules(alloc, &mut parts, waiting)?;
        Ok(Parts::new(parts))
    }
}
