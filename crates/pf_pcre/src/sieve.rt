//! Sieves: they pass over texts in which a pattern does not match, and let the others through unseen.
ghost use Rattle.std.specs.Prelude.{◌≡◌, true, false, length, IfOk, None};
ghost use Rattle.regex_hir.specs.Find.{find};
ghost use Rattle.regex_hir.specs.Meaning.{meaning};
ghost use Rattle.regex_meta.specs.Programs.{pattern_of};
ghost use Rattle.regex_dfa.specs.Search.{IsForwardFor, end_from, entry};

use regex_compile::Error;
use regex_dfa::{Dfa, End, Forward};
use regex_hir::Hir;
use regex_meta::Program;
use std::alloc::Global;

/// About how many bytes a compiled pattern may take, as for the crate regex.
pub(crate) const SIZE_LIMIT: usize = 10 << 20;

/// Whether an automaton knows that a text has no match. Where there is none it may still not know it, as where memory is
/// wanting.
pub(crate) fn has_none(forward: &mut Forward, dfa: &Dfa, text: &str) -> bool
    requires { IsForwardFor forward.old dfa.now }
    ensures none { result ≡ true → end_from dfa.now.nfa text.now (length text.now) (entry dfa.now.nfa false) 0 ≡ None }
    ensures own { IsForwardFor forward.new dfa.now }
{
    let text = text.as_bytes();
    match forward.find_end(dfa, text, 0, text.len(), false, true) {
        End::NoMatch => true,
        _ => false,
    }
}

/// A pattern's program, and an automaton that is made as it is asked.
#[derive(Drop)]
pub(crate) struct Sieve {
    pub(crate) program: Program,
    forward: Forward,
    ghost own: { IsForwardFor forward program.dfa },
}

impl Sieve {
    /// The sieve of a pattern by its tree, whose groups have lower numbers than this.
    pub(crate) fn new(alloc: Global, tree: Hir, groups: u32) -> Result<Sieve, Error>
        ensures { IfOk result (λ sieve. pattern_of sieve.program ≡ meaning tree) }
    {
        let program = Program::new(alloc, tree, groups, SIZE_LIMIT)?;
        let forward = Forward::new(alloc, &program.dfa, false)?;
        Ok(Sieve { program, forward })
    }

    /// Whether it passes over a text: the pattern matches nowhere in it.
    pub(crate) fn passes_over(&mut self, text: &str) -> bool
        ensures none { result ≡ true → find (pattern_of self.old.program) text.now 0 ≡ None }
        ensures same { self.new.program.hir ≡ self.old.program.hir }
    {
        has_none(&mut self.forward, &self.program.dfa, text)
    }
}
