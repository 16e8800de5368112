//! Commands as clap is told of them, and what clap finds in words.
ghost use Rattle.std.specs.Prelude.{◌≡◌, true, IfOk, map};
ghost use Rattle.std.specs.Option.{option_map};
ghost use Rattle.std.specs.String.{string_bytes};
ghost use Rattle.clap.specs.Words.{is_simple_and_free};
ghost use Rattle.pf_words.specs.Commands as commands;
ghost use Rattle.pf_words.specs.Found as found;

use clap::error::ErrorKind;
use clap::{Arg, ArgAction, ArgMatches, Command};
use pf_base::{Bytes, List, NoMemory};
use std::alloc::Global;

/// A command without flags that ask for help or its version.
pub(crate) fn bare_command<'a>(alloc: Global, name: &'a str) -> Command<'a>
    ensures { commands.app_in result ≡ commands.bare_app name.entry.now }
{
    Command::new(alloc, name)
        .disable_help_flag(true)
        .disable_version_flag(true)
}

// The command with an option more, which has a value.
fn with_option<'a>(
    alloc: Global,
    command: Command<'a>,
    letter: char,
    id: &'a str,
) -> Result<Command<'a>, NoMemory>
    ensures { IfOk result (λ longer. commands.app_in longer ≡ commands.with_option (commands.app_in command.entry) letter id.entry.now) }
{
    let option = Arg::new(alloc, id).short(letter).action(ArgAction::Set);
    let longer = command.arg(option)?;
    Ok(longer)
}

// The command with a flag more.
fn with_flag<'a>(
    alloc: Global,
    command: Command<'a>,
    letter: char,
    id: &'a str,
) -> Result<Command<'a>, NoMemory>
    ensures { IfOk result (λ longer. commands.app_in longer ≡ commands.with_flag (commands.app_in command.entry) letter id.entry.now) }
{
    let flag = Arg::new(alloc, id).short(letter).action(ArgAction::SetTrue);
    let longer = command.arg(flag)?;
    Ok(longer)
}

/// The command with these options more, each a letter and an id.
pub(crate) fn with_options<'a>(
    alloc: Global,
    command: Command<'a>,
    options: &[(char, &'a str)],
) -> Result<Command<'a>, NoMemory>
    ensures { IfOk result (λ longer. commands.app_in longer
        ≡ commands.with_options (commands.app_in command.entry) (map (λ option. (option.0, option.1.now)) options.now)) }
{
    let mut longer = command;
    for (letter, id) in options {
        longer = with_option(alloc, longer, *letter, *id)?;
    }
    Ok(longer)
}

/// The command with these flags more, each a letter and an id.
pub(crate) fn with_flags<'a>(
    alloc: Global,
    command: Command<'a>,
    flags: &[(char, &'a str)],
) -> Result<Command<'a>, NoMemory>
    ensures { IfOk result (λ longer. commands.app_in longer
        ≡ commands.with_flags (commands.app_in command.entry) (map (λ flag. (flag.0, flag.1.now)) flags.now)) }
{
    let mut longer = command;
    for (letter, id) in flags {
        longer = with_flag(alloc, longer, *letter, *id)?;
    }
    Ok(longer)
}

/// The command with any number of words that are no options.
pub(crate) fn with_rest<'a>(
    alloc: Global,
    command: Command<'a>,
    id: &'a str,
) -> Result<Command<'a>, NoMemory>
    ensures { IfOk result (λ longer. commands.app_in longer ≡ commands.with_rest (commands.app_in command.entry) id.entry.now) }
{
    let rest = Arg::new(alloc, id).num_args(0..);
    let longer = command.arg(rest)?;
    Ok(longer)
}

/// What clap finds in the words, the first of which is passed over; None where it finds a fault in them.
pub(crate) fn matches_in<'a>(
    command: Command<'a>,
    words: &'a [String],
) -> Result<Option<ArgMatches<'a>>, NoMemory>
    requires { is_simple_and_free (commands.app_in command) ≡ true }
    ensures { IfOk result (λ matches. option_map found.rows_found matches
        ≡ found.rows_in (commands.app_in command.entry) (map string_bytes words.entry.now)) }
{
    match command.try_get_matches_from(words) {
        Ok(matches) => Ok(Some(matches)),
        Err(error) => match error.kind() {
            ErrorKind::OutOfMemory => Err(NoMemory),
            _ => Ok(None),
        },
    }
}

/// The value of an option, where it was given.
#[tactic(auto, using(crate::proofs::FoundLemmas::value_found))]
pub(crate) fn value_in<'a>(matches: &ArgMatches<'a>, id: &str) -> Option<&'a str>
    ensures { option_map (λ value. value.now) result ≡ found.value_in id.now (found.rows_found matches.now) }
{
    matches.get_str(id)
}

/// Whether a flag was given.
pub(crate) fn has_flag(matches: &ArgMatches<'_>, id: &str) -> bool
    ensures { result ≡ found.has_flag id.now (found.rows_found matches.now) }
{
    match value_in(matches, id) {
        None => false,
        Some(value) => value == "true",
    }
}

fn copies_of(alloc: Global, texts: &[&str]) -> Result<List<Bytes>, NoMemory>
    ensures { IfOk result (λ copies. copies ≡ map (λ text. text.now) texts.now) }
{
    let mut copies = List::new(alloc);
    for text in texts {
        copies.push(Bytes::from_slice(alloc, text.as_bytes())?)?;
    }
    Ok(copies)
}

/// The words that are no options.
#[tactic(auto, using(crate::proofs::FoundLemmas::rest_found))]
pub(crate) fn rest_in(alloc: Global, matches: &ArgMatches<'_>) -> Result<List<Bytes>, NoMemory>
    ensures { IfOk result (λ rest. rest ≡ found.rest_in (found.rows_found matches.now)) }
{
    match matches.get_raw("rest") {
        None => Ok(List::new(alloc)),
        Some(words) => copies_of(alloc, words),
    }
}

/// A copy of a text, where there is one.
pub(crate) fn copy_of(alloc: Global, text: Option<&str>) -> Result<Option<Bytes>, NoMemory>
    ensures { IfOk result (λ copy. copy ≡ option_map (λ t. t.now) text.entry) }
{
    match text {
        None => Ok(None),
        Some(text) => Ok(Some(Bytes::from_slice(alloc, text.as_bytes())?)),
    }
}
