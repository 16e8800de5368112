//! Runs of rules, with a sieve that passes over texts to which none of them applies.
ghost use Rattle.std.specs.Prelude.{◌≡◌, ◌++◌, [], ◌∷◌, IfOk, OnOk};
ghost use Rattle.regex_hir.specs.Re.{empty};
ghost use Rattle.regex_hir.specs.Meaning.{meaning};
ghost use Rattle.regex_meta.specs.Programs.{pattern_of};
ghost use Rattle.pf_pcre.specs.Clauses.Runs as runs;

use crate::entry::Rule;
use crate::sieve::Sieve;
use pf_base::{Bytes, NoMemory};
use regex_hir::Hir;
use std::alloc::Global;
use std::marker::Model;

/// Groups of patterns have lower numbers than this, where a sieve stands for them.
const MOST_GROUPS: u32 = 0x1_0000;

/// Rules one after the other.
#[derive(Drop)]
pub(crate) struct Run {
    rules: Vec<Rule>,
    sieve: Sieve,
}

impl Model for Run {
    ghost use Rattle.std.specs.Prelude.{List as Seq};
    ghost use Rattle.regex_meta.specs.Programs.{pattern_of};
    ghost use Rattle.pf_pcre.specs.Clauses.Runs.{PassesAll};
    ghost use Rattle.pf_pcre.specs.declared.entry.Rule.{Rule as Said};

    ghost Value = { Seq Said };

    ghost view = { λ run. run.rules.items };

    ghost invariant = { λ run. PassesAll (pattern_of run.sieve.program) run.rules.items };
}

// A tree that has a match in each text to which a rule applies: the empty one where the rule is negated.
fn tree_of(alloc: Global, rule: &Rule) -> Result<Hir, NoMemory>
    ensures { IfOk result (λ tree. runs.PassesRule (meaning tree) rule.now) }
{
    if rule.condition.negated {
        Ok(Hir::Empty)
    } else {
        rule.condition.pattern.tree(alloc)
    }
}

fn add_tree(trees: &mut Vec<Hir>, tree: Hir) -> Result<(), NoMemory>
    ensures { OnOk result (trees.new.items ≡ trees.old.items ++ tree ∷ []) }
{
    trees.push(tree)?;
    Ok(())
}

// The trees of rules.
fn trees_of(alloc: Global, rules: &[Rule]) -> Result<Vec<Hir>, NoMemory>
    ensures { IfOk result (λ trees. runs.TreesPass trees.items rules.now) }
{
    let mut trees = Vec::new(alloc);
    for rule in rules {
        let tree = tree_of(alloc, rule)?;
        add_tree(&mut trees, tree)?;
    }
    Ok(trees)
}

// A sieve that lets all texts through.
fn open_sieve(alloc: Global) -> Result<Sieve, NoMemory>
    ensures { IfOk result (λ sieve. pattern_of sieve.program ≡ empty) }
{
    match Sieve::new(alloc, Hir::Empty, 1) {
        Ok(sieve) => Ok(sieve),
        Err(_) => Err(NoMemory),
    }
}

/// A sieve that passes over texts to which none of these rules applies. It lets all texts through where one of them is negated,
/// or where their patterns take too much room together.
pub(crate) fn sieve_of(alloc: Global, rules: &[Rule]) -> Result<Sieve, NoMemory>
    ensures { IfOk result (λ sieve. runs.PassesAll (pattern_of sieve.program) rules.now) }
{
    let trees = trees_of(alloc, rules)?;
    match Sieve::new(alloc, Hir::Alternation(trees), MOST_GROUPS) {
        Ok(sieve) => Ok(sieve),
        Err(_) => open_sieve(alloc),
    }
}

// The value of the first of these rules that applies to a text.
fn first_rule_in(
    alloc: Global,
    rules: &mut Vec<Rule>,
    text: &str,
) -> Result<Option<Bytes>, NoMemory>
    ensures value { IfOk result (λ value. value ≡ runs.first_rule text.now rules.old.items) }
    ensures same { rules.new.items ≡ rules.old.items }
{
    for place in 0..rules.len() {
        match rules[place].value(alloc, text)? {
            Some(value) => return Ok(Some(value)),
            None => {}
        }
    }
    Ok(None)
}

impl Run {
    /// The run of rules with their sieve.
    pub(crate) fn new(rules: Vec<Rule>, sieve: Sieve) -> Run
        requires { runs.PassesAll (pattern_of sieve.program) rules.items }
        ensures { result ≡ rules.items }
    {
        Run { rules, sieve }
    }

    /// The rules in order.
    pub(crate) fn rules(&self) -> &[Rule]
        ensures { result.now ≡ self.now }
    {
        self.rules.as_slice()
    }

    /// The value of the first rule that applies to a text.
    pub(crate) fn value(&mut self, alloc: Global, text: &str) -> Result<Option<Bytes>, NoMemory>
        ensures value { IfOk result (λ value. value ≡ runs.first_rule text.now self.old) }
        ensures same { self.new ≡ self.old }
    {
        if self.sieve.passes_over(text) {
            return Ok(None);
        }
        first_rule_in(alloc, &mut self.rules, text)
    }
}
