//! The patterns of tables (pcre_table(5)), built by the crate regex.
ghost use Rattle.std.specs.Prelude.{◌≡◌, ◌≢◌, ◌≤◌, IfErr, IfOk};
ghost use Rattle.pf_base.specs.Clauses.Unless.{Unless};
ghost use Rattle.pf_asks.specs.Clauses.Causes.{counted_if};
ghost use Rattle.pf_pcre.specs.Patterns as spec;
ghost use Rattle.regex_meta.specs.Programs.{pattern_of};
ghost use Rattle.pf_pcre.specs.Clauses.Built.{Finds, IsAnswerOf};
ghost use Rattle.pf_pcre.specs.Clauses.Sizes.{is_size, is_too_large};

use crate::finder::Finder;
use crate::pattern::Pattern;
use crate::switches::Switches;
use regex::{Error, Regex, RegexBuilder};
use regex_syntax::{Config, Flags};
use std::alloc::Global;
use std::marker::Model;

/// Why a pattern was not built.
#[derive(Clone, Copy, Debug, PartialEq, Eq)]
pub enum BuildFault {
    /// The text is no pattern of the crate regex, or is nested more than 250 deep.
    Syntax,
    /// The text is a pattern, and regex or a crate that regex stands on did not build it for its size.
    TooLarge,
    /// Out of memory.
    NoMemory,
}

impl From<Error> for BuildFault {
    ghost use Rattle.pf_pcre.specs.Clauses.Sizes.{fault_of};

    ghost from_gives = { λ error fault. fault ≡ fault_of error };

    fn from(error: Error) -> BuildFault {
        match error {
            Error::Syntax(_) => BuildFault::Syntax,
            Error::CompiledTooBig => BuildFault::TooLarge,
            Error::Internal => BuildFault::TooLarge,
            Error::OutOfMemory => BuildFault::NoMemory,
        }
    }
}

/// Builds patterns, and counts those that were not built for their size.
#[derive(Debug, Drop)]
pub struct Patterns {
    faults: u64,
}

impl Model for Patterns {
    ghost use Rattle.std.specs.Prelude.{ℕ};

    ghost Value = { ℕ };

    ghost view = { λ patterns. patterns.faults };
}

// The regex of a pattern.
fn regex_of(alloc: Global, pattern: &str, switches: &Switches) -> Result<Regex, Error>
    ensures { IsAnswerOf switches.now pattern.now result }
{
    RegexBuilder::new(pattern)
        .case_insensitive(switches.case)
        .multi_line(switches.lines)
        .dot_matches_new_line(switches.dot)
        .swap_greed(switches.greed)
        .ignore_whitespace(switches.free)
        .build(alloc)
}

// The options of the crate regex that are meant by switches.
fn config_of(switches: &Switches) -> Config
    ensures { result ≡ spec.config_of switches.now }
{
    Config {
        flags: Flags {
            case_insensitive: switches.case,
            multi_line: switches.lines,
            dot_matches_new_line: switches.dot,
            swap_greed: switches.greed,
            unicode: true,
            crlf: false,
            ignore_whitespace: switches.free,
        },
        ..Config::default()
    }
}

// The finder of a pattern that was built.
fn finder_of(alloc: Global, pattern: &str, switches: &Switches) -> Result<Finder, BuildFault>
    ensures finds { IfOk result (λ finder. ∥ Finds (pattern_of finder.program) (record { switches = switches.now; text = pattern.now }) ∥₁) }
    ensures no_syntax { IfErr result (λ fault. fault ≢ BuildFault.Syntax) }
{
    // The crate regex has read the text, so only memory can be wanting.
    let Ok(parsed) = regex_syntax::parse(alloc, pattern, &config_of(switches)) else {
        return Err(BuildFault::NoMemory);
    };
    let Ok(groups) = u32::try_from(parsed.names.len()) else {
        return Err(BuildFault::TooLarge);
    };
    match Finder::new(alloc, parsed.hir, groups) {
        Ok(finder) => Ok(finder),
        Err(regex_compile::Error::TooBig) => Err(BuildFault::TooLarge),
        Err(_) => Err(BuildFault::NoMemory),
    }
}

// The pattern of a text with switches.
fn pattern_of(alloc: Global, pattern: &str, switches: &Switches) -> Result<Pattern, BuildFault>
    ensures { Unless result BuildFault.NoMemory (λ r. r ≡ spec.built_of (is_too_large r) (record { switches = switches.now; text = pattern.now })) }
{
    match regex_of(alloc, pattern, switches) {
        Ok(regex) => match finder_of(alloc, pattern, switches) {
            Ok(finder) => Ok(Pattern::new(*switches, regex, finder)),
            Err(fault) => Err(fault),
        },
        Err(error) => Err(BuildFault::from(error)),
    }
}

impl Patterns {
    /// Nothing is counted yet.
    pub fn new() -> Patterns
        ensures { result ≡ 0 }
    {
        Patterns { faults: 0 }
    }

    /// The pattern of a text with these switches. `Syntax` comes exactly where the text is none, and `TooLarge` only of one
    /// that is; it is counted. Which patterns are too large no clause says.
    pub fn build(
        &mut self,
        alloc: Global,
        pattern: &str,
        switches: &Switches,
    ) -> Result<Pattern, BuildFault>
        ensures built { Unless result BuildFault.NoMemory (λ r. r ≡ spec.built_of (is_too_large r) (record { switches = switches.now; text = pattern.now })) }
        ensures counts { self.new ≡ counted_if (is_too_large result) self.old }
    {
        match pattern_of(alloc, pattern, switches) {
            Ok(pattern) => Ok(pattern),
            Err(fault) => {
                self.note(fault);
                Err(fault)
            }
        }
    }

    // Counts a pattern that was not built for its size.
    fn note(&mut self, fault: BuildFault)
        ensures { self.new ≡ counted_if (is_size fault) self.old }
    {
        match fault {
            BuildFault::TooLarge => self.faults = self.faults.saturating_add(1),
            _ => {}
        }
    }
}
