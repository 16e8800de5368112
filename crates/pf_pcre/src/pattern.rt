//! A pattern that was built.
ghost use Rattle.std.specs.Prelude.{◌≡◌, is_some, option_map, Some, IfOk};
ghost use Rattle.regex.specs.Patterns.{find_str};
ghost use Rattle.regex.specs.Strings.{regex_pattern};
ghost use Rattle.regex_meta.specs.Programs.{pattern_of};
ghost use Rattle.pf_pcre.specs.Patterns as patterns;
ghost use Rattle.pf_pcre.specs.Clauses.Built.{IsPatternOf, Passes};
ghost use Rattle.pf_pcre.specs.Clauses.Sights.{IsSight};
ghost use Rattle.regex_hir.specs.Meaning.{meaning};

use crate::expand::expand;
use crate::finder::{Finder, Sight};
use crate::pieces::Piece;
use crate::spans::{expand_by, have_cells};
use crate::switches::Switches;
use pf_base::{Bytes, NoMemory};
use regex::Regex;
use regex_hir::Hir;
use std::alloc::Global;
use std::marker::Model;

/// A pattern with its switches (pcre_table(5)).
#[derive(Drop)]
pub struct Pattern {
    switches: Switches,
    regex: Regex,
    finder: Finder,
}

impl Model for Pattern {
    ghost use Rattle.regex.specs.Strings.{regex_source};
    ghost use Rattle.regex_meta.specs.Programs.{pattern_of};
    ghost use Rattle.pf_pcre.specs.Patterns.{Written};
    ghost use Rattle.pf_pcre.specs.Clauses.Built.{IsPatternOf};

    ghost Value = { Written };

    ghost view = { λ pattern. record { switches = pattern.switches; text = regex_source pattern.regex } };

    ghost invariant = { λ pattern. IsPatternOf pattern.switches pattern.regex (pattern_of pattern.finder.program) };
}

// The value of a result in the first match of a regex.
fn matched_value(
    alloc: Global,
    regex: &Regex,
    text: &str,
    pieces: &[Piece],
) -> Result<Option<Bytes>, NoMemory>
    ensures { IfOk result (λ value. value ≡ patterns.value_of text.now pieces.now (option_map patterns.seen_of (find_str (regex_pattern regex.now) text.now 0))) }
{
    let mut matcher = regex.matcher(alloc)?;
    match matcher.captures(text) {
        Some(captures) => {
            let mut value = Bytes::new(alloc);
            expand(&mut value, &captures, pieces)?;
            Ok(Some(value))
        }
        None => Ok(None),
    }
}

// The same, where this was seen of the regex in the text.
fn seen_value(
    alloc: Global,
    regex: &Regex,
    text: &str,
    sight: Sight,
    cells: &[usize],
    pieces: &[Piece],
) -> Result<Option<Bytes>, NoMemory>
    requires { IsSight (option_map patterns.seen_of (find_str (regex_pattern regex.now) text.now 0)) cells.now sight }
    ensures { IfOk result (λ value. value ≡ patterns.value_of text.now pieces.now (option_map patterns.seen_of (find_str (regex_pattern regex.now) text.now 0))) }
{
    match sight {
        Sight::Nothing => Ok(None),
        Sight::Match(from, to) => {
            if !have_cells(cells, pieces) {
                return matched_value(alloc, regex, text, pieces);
            }
            let mut value = Bytes::new(alloc);
            expand_by(&mut value, text.as_bytes(), from, to, cells, pieces)?;
            Ok(Some(value))
        }
        Sight::Unknown => matched_value(alloc, regex, text, pieces),
    }
}

// Whether a regex matches somewhere in a text, where this was seen of it.
fn seen_match(
    alloc: Global,
    regex: &Regex,
    text: &str,
    sight: Sight,
    cells: &[usize],
) -> Result<bool, NoMemory>
    requires { IsSight (option_map patterns.seen_of (find_str (regex_pattern regex.now) text.now 0)) cells.now sight }
    ensures { IfOk result (λ matches. matches ≡ is_some (option_map patterns.seen_of (find_str (regex_pattern regex.now) text.now 0))) }
{
    match sight {
        Sight::Nothing => Ok(false),
        Sight::Match(_, _) => Ok(true),
        Sight::Unknown => {
            let mut matcher = regex.matcher(alloc)?;
            Ok(matcher.is_match(text))
        }
    }
}

impl Pattern {
    ghost use Rattle.regex.specs.Strings.{regex_source};

    pub(crate) fn new(switches: Switches, regex: Regex, finder: Finder) -> Pattern
        requires { IsPatternOf switches regex (pattern_of finder.program) }
        ensures { result ≡ record { switches = switches; text = regex_source regex } }
    {
        Pattern {
            switches,
            regex,
            finder,
        }
    }

    /// How many groups it has.
    pub(crate) fn groups(&self) -> usize
        ensures { patterns.groups_of self.now ≡ Some result }
    {
        self.regex.captures_len().saturating_sub(1)
    }

    /// A tree that has a match wherever it matches.
    pub(crate) fn tree(&self, alloc: Global) -> Result<Hir, NoMemory>
        ensures { IfOk result (λ tree. Passes (meaning tree) self.now) }
    {
        let tree = self.finder.program.hir.copy(alloc)?;
        Ok(tree)
    }

    /// Whether it matches somewhere in a text.
    pub(crate) fn matches(&mut self, alloc: Global, text: &str) -> Result<bool, NoMemory>
        ensures value { IfOk result (λ matches. matches ≡ is_some (patterns.found self.old text.now)) }
        ensures same { self.new ≡ self.old }
    {
        let sight = self.finder.look(text);
        seen_match(
            alloc,
            &self.regex,
            text,
            sight,
            self.finder.engines.cells.as_slice(),
        )
    }

    /// A result with the groups of its first match in a text; None where it does not match.
    pub(crate) fn value(
        &mut self,
        alloc: Global,
        text: &str,
        pieces: &[Piece],
    ) -> Result<Option<Bytes>, NoMemory>
        ensures value { IfOk result (λ value. value ≡ patterns.value_of text.now pieces.now (patterns.found self.old text.now)) }
        ensures same { self.new ≡ self.old }
    {
        let sight = self.finder.look(text);
        seen_value(
            alloc,
            &self.regex,
            text,
            sight,
            self.finder.engines.cells.as_slice(),
            pieces,
        )
    }
}
