//! The words of smtpd: `smtpd [-c folder] -p client -m mail [-l log] [-b budget]`.
ghost use Rattle.std.specs.Prelude.{◌≡◌, IfOk, map, option_map};
ghost use Rattle.std.specs.String.{string_bytes};
ghost use Rattle.pf_words.specs.Commands as commands;
ghost use Rattle.pf_words.specs.Found.{rows_found};
ghost use Rattle.pf_words.specs.Clauses.OptionsMeant.{options_meant};
ghost use Rattle.pf_words.specs.Smtpd as smtpd;

use crate::command::{bare_command, copy_of, matches_in, value_in, with_options};
use crate::numbers::{GREATEST_BUDGET, budget_of};
use clap::{ArgMatches, Command};
use pf_base::{Bytes, NoMemory};
use pf_cidr::Addr;
use std::alloc::Global;

/// What the words of smtpd say: the folder of main.cf, the client's address, the names of the files for the
/// record of messages and for the log, and how many bytes the session may take.
#[derive(Debug, Drop)]
pub struct SmtpdWords {
    pub folder: Option<Bytes>,
    pub client: Addr,
    pub mail: Bytes,
    pub log: Option<Bytes>,
    pub budget: u64,
}

// The same, with the names as they are in the words.
#[derive(Clone, Copy)]
pub(crate) struct Options<'a> {
    pub(crate) folder: Option<&'a str>,
    pub(crate) client: Addr,
    pub(crate) mail: &'a str,
    pub(crate) log: Option<&'a str>,
    pub(crate) budget: u64,
}

fn smtpd_command<'a>(alloc: Global) -> Result<Command<'a>, NoMemory>
    ensures { IfOk result (λ command. commands.app_in command ≡ commands.smtpd_app) }
{
    with_options(
        alloc,
        bare_command(alloc, "smtpd"),
        &[
            ('c', "folder"),
            ('p', "client"),
            ('m', "mail"),
            ('l', "log"),
            ('b', "budget"),
        ],
    )
}

pub(crate) fn budget_in(text: Option<&str>) -> Option<u64>
    ensures { result ≡ smtpd.budget_in (option_map (λ t. t.now) text.entry) }
{
    match text {
        None => Some(GREATEST_BUDGET),
        Some(text) => budget_of(text),
    }
}

#[tactic(auto, unfolding(crate::specs::Smtpd::smtpd_in))]
fn options_in<'a>(matches: &ArgMatches<'a>) -> Option<Options<'a>>
    ensures { option_map options_meant result ≡ smtpd.smtpd_in (rows_found matches.now) }
{
    let address = value_in(matches, "client")?;
    let client = Addr::read(address.as_bytes())?;
    let mail = value_in(matches, "mail")?;
    let budget = budget_in(value_in(matches, "budget"))?;
    Some(Options {
        folder: value_in(matches, "folder"),
        client,
        mail,
        log: value_in(matches, "log"),
        budget,
    })
}

/// The options in the words of smtpd; None where the words are not of its form.
#[tactic(auto, unfolding(crate::specs::Smtpd::smtpd_of))]
pub(crate) fn smtpd_options<'a>(
    alloc: Global,
    words: &'a [String],
) -> Result<Option<Options<'a>>, NoMemory>
    ensures { IfOk result (λ options. option_map options_meant options ≡ smtpd.smtpd_of (map string_bytes words.entry.now)) }
{
    let command = smtpd_command(alloc)?;
    match matches_in(command, words)? {
        None => Ok(None),
        Some(matches) => Ok(options_in(&matches)),
    }
}

// The options with copies of the names.
fn owned_words(alloc: Global, options: &Options<'_>) -> Result<SmtpdWords, NoMemory>
    ensures { IfOk result (λ words. words ≡ options_meant options.now) }
{
    Ok(SmtpdWords {
        folder: copy_of(alloc, options.folder)?,
        client: options.client,
        mail: Bytes::from_slice(alloc, options.mail.as_bytes())?,
        log: copy_of(alloc, options.log)?,
        budget: options.budget,
    })
}

/// What the words of smtpd say; None where they are not of its form.
pub(crate) fn smtpd_words(alloc: Global, words: &[String]) -> Result<Option<SmtpdWords>, NoMemory>
    ensures { IfOk result (λ said. said ≡ smtpd.smtpd_of (map string_bytes words.now)) }
{
    match smtpd_options(alloc, words)? {
        None => Ok(None),
        Some(options) => Ok(Some(owned_words(alloc, &options)?)),
    }
}
