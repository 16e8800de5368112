//! The words of postconf: `postconf [-n or -d] [-x] [-h or -H] [-c folder] [-o name=value] [name ..]`, and
//! `postconf -e [-c folder] name=value ..`.
ghost use Rattle.std.specs.Prelude.{◌≡◌, true, IfOk, IfSome, map};
ghost use Rattle.std.specs.String.{string_bytes};
ghost use Rattle.pf_words.specs.Commands as commands;
ghost use Rattle.pf_words.specs.Found.{rows_found};
ghost use Rattle.pf_words.specs.Postconf as postconf;

use crate::assignments::{assignment_of_word, assignments_of_words};
use crate::command::{
    bare_command, copy_of, has_flag, matches_in, rest_in, value_in, with_flags, with_options,
    with_rest,
};
use clap::{ArgMatches, Command};
use pf_base::{Bytes, List, NoMemory};
use std::alloc::Global;

/// Which settings are asked for: all, those that are set (`-n`) or the defaults (`-d`); or an edit (`-e`).
#[derive(Clone, Copy, Debug, PartialEq, Eq)]
pub enum ConfMode {
    All,
    Set,
    Defaults,
    Edit,
}

/// What is printed of a setting: name and value, the value alone (`-h`) or the name alone (`-H`).
#[derive(Clone, Copy, Debug, PartialEq, Eq)]
pub enum Shape {
    Both,
    Values,
    Names,
}

/// What the words of postconf say (postconf(1)): which settings and whether their values are expanded (`-x`), what is printed of each, the
/// folder of main.cf, the word `name=value` of `-o`, and the words that are no options in their order: names, or words `name=value` for an
/// edit. In an edit nothing is expanded, both are printed and there is no word of `-o`.
#[derive(Debug, Drop)]
pub struct ConfWords {
    pub mode: ConfMode,
    pub expanded: bool,
    pub shape: Shape,
    pub folder: Option<Bytes>,
    pub over: Option<Bytes>,
    pub rest: List<Bytes>,
}

fn postconf_command<'a>(alloc: Global) -> Result<Command<'a>, NoMemory>
    ensures { IfOk result (λ command. commands.app_in command ≡ commands.postconf_app) }
{
    let command = with_flags(
        alloc,
        bare_command(alloc, "postconf"),
        &[
            ('n', "set"),
            ('d', "defaults"),
            ('x', "expanded"),
            ('h', "values"),
            ('H', "names"),
            ('e', "edit"),
        ],
    )?;
    let command = with_options(alloc, command, &[('c', "folder"), ('o', "over")])?;
    with_rest(alloc, command, "rest")
}

fn mode_in(matches: &ArgMatches<'_>) -> ConfMode
    ensures { result ≡ postconf.mode_in (rows_found matches.now) }
{
    if has_flag(matches, "edit") {
        ConfMode::Edit
    } else if has_flag(matches, "set") {
        ConfMode::Set
    } else if has_flag(matches, "defaults") {
        ConfMode::Defaults
    } else {
        ConfMode::All
    }
}

fn shape_in(matches: &ArgMatches<'_>) -> Shape
    ensures { result ≡ postconf.shape_in (rows_found matches.now) }
{
    if has_flag(matches, "values") {
        Shape::Values
    } else if has_flag(matches, "names") {
        Shape::Names
    } else {
        Shape::Both
    }
}

// Whether something is said of how to print.
fn has_print_option(matches: &ArgMatches<'_>) -> bool
    ensures { result ≡ postconf.has_print_option (rows_found matches.now) }
{
    has_flag(matches, "set")
        || has_flag(matches, "defaults")
        || has_flag(matches, "expanded")
        || has_flag(matches, "values")
        || has_flag(matches, "names")
        || value_in(matches, "over").is_some()
}

// Whether no two options are beside each other that do not go together.
fn options_agree(matches: &ArgMatches<'_>) -> bool
    ensures { result ≡ postconf.options_agree (rows_found matches.now) }
{
    !(has_flag(matches, "set") && has_flag(matches, "defaults"))
        && !(has_flag(matches, "values") && has_flag(matches, "names"))
        && !(has_flag(matches, "edit") && has_print_option(matches))
}

// Whether the value of `-o`, if there is one, sets a parameter.
fn is_over(alloc: Global, over: &Option<Bytes>) -> Result<bool, NoMemory>
    ensures { IfOk result (λ is. is ≡ postconf.is_over over.now) }
{
    match over {
        None => Ok(true),
        Some(word) => {
            let setting = assignment_of_word(alloc, word.as_slice())?;
            Ok(setting.is_some())
        }
    }
}

// Whether there is a word, and each sets a parameter, no two the same.
fn are_edits(alloc: Global, words: &[Bytes]) -> Result<bool, NoMemory>
    ensures { IfOk result (λ are. are ≡ postconf.are_edits words.now) }
{
    if words.is_empty() {
        return Ok(false);
    }
    let settings = assignments_of_words(alloc, words)?;
    Ok(settings.is_some())
}

// Whether the word of `-o` and the words of an edit set parameters.
fn sets_parameters(alloc: Global, conf: &ConfWords) -> Result<bool, NoMemory>
    ensures { IfOk result (λ sets. sets ≡ postconf.sets_parameters conf.now) }
{
    if !is_over(alloc, &conf.over)? {
        return Ok(false);
    }
    match conf.mode {
        ConfMode::Edit => are_edits(alloc, conf.rest.as_slice()),
        ConfMode::All | ConfMode::Set | ConfMode::Defaults => Ok(true),
    }
}

fn conf_with(alloc: Global, matches: &ArgMatches<'_>) -> Result<ConfWords, NoMemory>
    ensures { IfOk result (λ conf. conf ≡ postconf.conf_with (rows_found matches.now)) }
{
    Ok(ConfWords {
        mode: mode_in(matches),
        expanded: has_flag(matches, "expanded"),
        shape: shape_in(matches),
        folder: copy_of(alloc, value_in(matches, "folder"))?,
        over: copy_of(alloc, value_in(matches, "over"))?,
        rest: rest_in(alloc, matches)?,
    })
}

#[tactic(auto, unfolding(crate::specs::Postconf::conf_in))]
fn conf_in(alloc: Global, matches: &ArgMatches<'_>) -> Result<Option<ConfWords>, NoMemory>
    ensures is { IfOk result (λ conf. conf ≡ postconf.conf_in (rows_found matches.now)) }
    ensures sets { IfOk result (λ conf. IfSome conf (λ words. postconf.sets_parameters words ≡ true)) }
{
    if !options_agree(matches) {
        return Ok(None);
    }
    let conf = conf_with(alloc, matches)?;
    if sets_parameters(alloc, &conf)? {
        Ok(Some(conf))
    } else {
        Ok(None)
    }
}

/// What the words of postconf say; None where they are not of its forms.
#[tactic(auto, unfolding(crate::specs::Postconf::conf_of))]
pub(crate) fn conf_words(alloc: Global, words: &[String]) -> Result<Option<ConfWords>, NoMemory>
    ensures is { IfOk result (λ conf. conf ≡ postconf.conf_of (map string_bytes words.now)) }
    ensures sets { IfOk result (λ conf. IfSome conf (λ words. postconf.sets_parameters words ≡ true)) }
{
    let command = postconf_command(alloc)?;
    match matches_in(command, words)? {
        None => Ok(None),
        Some(matches) => conf_in(alloc, &matches),
    }
}
