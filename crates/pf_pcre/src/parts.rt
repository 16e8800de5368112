//! The parts of a table, as they are asked.
ghost use Rattle.std.specs.Prelude.{◌≡◌, ◌-◌, ◌<◌, ◌^◌, List as Seq, ◌∷◌, ◌++◌, map, get_or, vec_len, IfOk};
ghost use Rattle.pf_pcre.specs.Clauses.Steps as steps;
ghost use Rattle.pf_pcre.specs.Clauses.Steps.{all_said};
ghost use Rattle.pf_pcre.specs.declared.entry.Entry.{Entry as Said};
ghost use Rattle.pf_pcre.specs.declared.entry.Entry.TheVariants.{Rule as RuleSaid};
ghost use Rattle.pf_pcre.specs.Tables as tables;

use crate::entry::{Condition, Rule, plain_value};
use crate::pieces::Piece;
use crate::run::Run;
use pf_asks::Results;
use pf_base::{Bytes, List, NoMemory};
use std::alloc::Global;
use std::marker::Model;

/// A part of a table.
#[derive(Drop)]
pub(crate) enum Part {
    /// Rules.
    Run(Run),
    /// A condition of the parts up to its `endif`.
    If(Condition),
    /// The end of the last condition that is open.
    Endif,
}

/// Parts in order.
#[derive(Drop)]
pub(crate) struct Parts {
    items: Vec<Part>,
}

impl Model for Parts {
    ghost use Rattle.std.specs.Prelude.{List as Seq};
    ghost use Rattle.pf_pcre.specs.Clauses.Steps.{all_said};
    ghost use Rattle.pf_pcre.specs.declared.entry.Entry.{Entry as Said};

    ghost Value = { Seq Said };

    ghost view = { λ parts. all_said parts.items.items };
}

// How a search goes on after a part.
#[derive(Drop)]
pub(crate) enum Step {
    // This is the value.
    Found(Bytes),
    // So many of the open conditions are passed over: those from the first on that does not hold.
    On(u64),
}

// How a search goes on after rules that gave this.
fn unless_found(value: Option<Bytes>) -> Step
    ensures { result ≡ steps.unless_found value }
{
    match value {
        Some(value) => Step::Found(value),
        None => Step::On(0),
    }
}

// One part of a search.
fn look_at(alloc: Global, part: &mut Part, text: &str, skipped: u64) -> Result<Step, NoMemory>
    requires { skipped < 2 ^ 64 - 1 }
    ensures value { IfOk result (λ step. step ≡ steps.stepped_over text.now skipped part.old) }
    ensures same { part.new ≡ part.old }
{
    match part {
        Part::Run(run) => {
            if skipped != 0 {
                return Ok(Step::On(skipped));
            }
            let value = run.value(alloc, text)?;
            Ok(unless_found(value))
        }
        Part::If(condition) => {
            if skipped != 0 {
                return Ok(Step::On(skipped + 1));
            }
            if condition.holds(alloc, text)? {
                Ok(Step::On(0))
            } else {
                Ok(Step::On(1))
            }
        }
        Part::Endif => Ok(Step::On(skipped.saturating_sub(1))),
    }
}

// The part at a place.
fn look_in(
    alloc: Global,
    items: &mut Vec<Part>,
    place: usize,
    text: &str,
    skipped: u64,
) -> Result<Step, NoMemory>
    requires few { skipped < 2 ^ 64 - 1 }
    requires within { place < vec_len items.old }
    ensures value { IfOk result (λ step. step ≡ steps.stepped_over text.now skipped (get_or items.old.items place Part.Endif)) }
    ensures same { items.new.items ≡ items.old.items }
{
    look_at(alloc, &mut items[place], text, skipped)
}

#[tactic(auto, using(crate::proofs::PartLaws::walk_more))]
fn first_value_in(
    alloc: Global,
    items: &mut Vec<Part>,
    text: &str,
) -> Result<Option<Bytes>, NoMemory>
    ensures value { IfOk result (λ value. value ≡ tables.first_value (all_said items.old.items) text.now) }
    ensures same { items.new.items ≡ items.old.items }
{
    let mut skipped: u64 = 0;
    for place in 0..items.len() {
        match look_in(alloc, items, place, text, skipped)? {
            Step::Found(value) => return Ok(Some(value)),
            Step::On(next) => skipped = next,
        }
    }
    Ok(None)
}

fn has_group(pieces: &[Piece]) -> bool
    ensures { result ≡ tables.names_group pieces.now }
{
    pieces.iter().any(|piece| matches!(piece, Piece::Group(_)))
}

// Adds the result of a rule; false where it names a group.
fn add_result(alloc: Global, values: &mut List<Bytes>, rule: &Rule) -> Result<bool, NoMemory>
    ensures { IfOk result (λ all. (rest : Seq Said) → steps.results_behind values.old (RuleSaid rule.now ∷ rest) ≡ steps.results_if all values.new rest) }
{
    if has_group(rule.pieces.as_slice()) {
        return Ok(false);
    }
    let value = plain_value(alloc, rule.pieces.as_slice())?;
    values.push(value)?;
    Ok(true)
}

// Adds the results of rules in order; false where one of them names a group.
fn add_results(alloc: Global, values: &mut List<Bytes>, rules: &[Rule]) -> Result<bool, NoMemory>
    ensures { IfOk result (λ all. (rest : Seq Said) → steps.results_behind values.old (map RuleSaid rules.now ++ rest) ≡ steps.results_if all values.new rest) }
{
    for rule in rules {
        if !add_result(alloc, values, rule)? {
            return Ok(false);
        }
    }
    Ok(true)
}

// Adds the results of a part.
fn add_part(alloc: Global, values: &mut List<Bytes>, part: &Part) -> Result<bool, NoMemory>
    ensures { IfOk result (λ all. (rest : Seq Said) → steps.results_behind values.old (steps.said_of part.now ++ rest) ≡ steps.results_if all values.new rest) }
{
    match part {
        Part::Run(run) => add_results(alloc, values, run.rules()),
        Part::If(_) => Ok(true),
        Part::Endif => Ok(true),
    }
}

impl Parts {
    /// These parts in order.
    pub(crate) fn new(items: Vec<Part>) -> Parts
        ensures { result ≡ all_said items.items }
    {
        Parts { items }
    }

    /// The value of the first rule that applies to a text: its own pattern and all conditions round it do.
    pub(crate) fn first_value(
        &mut self,
        alloc: Global,
        text: &str,
    ) -> Result<Option<Bytes>, NoMemory>
        ensures value { IfOk result (λ value. value ≡ tables.first_value self.old text.now) }
        ensures same { self.new ≡ self.old }
    {
        first_value_in(alloc, &mut self.items, text)
    }

    /// The results of the rules in order; any value where one of them names a group.
    #[tactic(auto, unfolding(crate::specs::Tables::results_of))]
    pub(crate) fn results(&self, alloc: Global) -> Result<Results, NoMemory>
        ensures { IfOk result (λ results. results ≡ tables.results_of self.now) }
    {
        let mut values = List::new(alloc);
        for part in &self.items {
            if !add_part(alloc, &mut values, part)? {
                return Ok(Results::Anything);
            }
        }
        Ok(Results::Listed(values))
    }
}
