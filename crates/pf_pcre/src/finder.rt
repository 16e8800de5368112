//! Finders: they find the first match of a pattern and its groups, and keep what they learn for the next text.
ghost use Rattle.std.specs.Prelude.{◌≡◌, IfOk, option_map};
ghost use Rattle.regex_hir.specs.Find.{find_str};
ghost use Rattle.regex_hir.specs.Meaning.{meaning};
ghost use Rattle.regex_dfa.specs.Search.{IsForwardFor};
ghost use Rattle.regex_meta.specs.Programs.{pattern_of};
ghost use Rattle.regex_tagged.specs.Valid.{IsFor};
ghost use Rattle.pf_pcre.specs.Patterns.{seen_of};
ghost use Rattle.pf_pcre.specs.Clauses.Sights.{IsFoundBy, IsSight};

use crate::sieve::{SIZE_LIMIT, has_none};
use regex_compile::Error;
use regex_dfa::{Dfa, Forward};
use regex_hir::Hir;
use regex_meta::Program;
use regex_tagged::{Near, Tagged};
use std::alloc::Global;

/// What is seen of a pattern in a text.
#[derive(Clone, Copy, Debug, PartialEq, Eq)]
pub(crate) enum Sight {
    /// It does not match.
    Nothing,
    /// Its first match is from the one place to the other.
    Match(usize, usize),
    /// It is not known whether it matches.
    Unknown,
}

/// An automaton that tells whether a pattern matches, and one that finds the groups.
#[derive(Drop)]
pub(crate) struct Engines {
    forward: Forward,
    tagged: Tagged,
    /// Where the groups of the last match that was seen start and end: two cells a group from the first on, each a place and
    /// one more, or 0 where the group took no part.
    pub(crate) cells: Vec<usize>,
}

/// A pattern's program with its engines.
#[derive(Drop)]
pub(crate) struct Finder {
    pub(crate) program: Program,
    pub(crate) engines: Engines,
    ghost forward_runs: { IsForwardFor engines.forward program.dfa },
    ghost tagged_runs: { IsFor engines.tagged program.dfa },
}

// The engines of a pattern with so many groups.
fn engines_of(alloc: Global, dfa: &Dfa, groups: u32) -> Result<Engines, Error>
    ensures forward { IfOk result (λ engines. IsForwardFor engines.forward dfa.now) }
    ensures tagged { IfOk result (λ engines. IsFor engines.tagged dfa.now) }
{
    let forward = Forward::new(alloc, dfa, false)?;
    let tagged = Tagged::new(alloc, dfa)?;
    let cells = vec![in alloc; 0; 2 * (groups.saturating_sub(1) as usize)]?;
    Ok(Engines {
        forward,
        tagged,
        cells,
    })
}

// The first match in a text, whose groups are left in the cells.
fn sight_of(tagged: &mut Tagged, dfa: &Dfa, text: &str, cells: &mut Vec<usize>) -> Sight
    requires { IsFor tagged.old dfa.now }
    ensures near { IsFoundBy dfa.now.nfa text.now cells.new.items result }
    ensures own { IsFor tagged.new dfa.now }
{
    let bytes = text.as_bytes();
    match tagged.find_near(dfa, bytes, 0, bytes.len(), cells.as_mut_slice()) {
        Ok(Near::Done(Some((from, to)))) => {
            if text.is_char_boundary(from) {
                Sight::Match(from, to)
            } else {
                Sight::Unknown
            }
        }
        _ => Sight::Unknown,
    }
}

impl Finder {
    /// The finder of a pattern by its tree, with so many groups, of which the whole match is one.
    pub(crate) fn new(alloc: Global, tree: Hir, groups: u32) -> Result<Finder, Error>
        ensures { IfOk result (λ finder. pattern_of finder.program ≡ meaning tree) }
    {
        let program = Program::new(alloc, tree, groups, SIZE_LIMIT)?;
        let engines = engines_of(alloc, &program.dfa, groups)?;
        Ok(Finder { program, engines })
    }

    /// The first match in a text, whose groups are left in the cells.
    pub(crate) fn look(&mut self, text: &str) -> Sight
        ensures seen { IsSight (option_map seen_of (find_str (pattern_of self.old.program) text.now 0)) self.new.engines.cells.items result }
        ensures same { self.new.program.hir ≡ self.old.program.hir }
    {
        if has_none(&mut self.engines.forward, &self.program.dfa, text) {
            return Sight::Nothing;
        }
        sight_of(
            &mut self.engines.tagged,
            &self.program.dfa,
            text,
            &mut self.engines.cells,
        )
    }
}
