//! The words of postmap: `postmap [-r or -w] [-f] [cdb:]name`, `postmap -q key [-f] type:name`, `postmap -q - [-f] [-b budget]
//! type:name` and `postmap -s [-f] type:name`.
ghost use Rattle.std.specs.Prelude.{◌≡◌, ◌==◌, IfOk, map, option_copied};
ghost use Rattle.std.specs.List.{position};
ghost use Rattle.std.specs.String.{string_bytes};
ghost use Rattle.pf_base.specs.Text.Ascii as ascii;
ghost use Rattle.pf_words.specs.Commands as commands;
ghost use Rattle.pf_words.specs.Found as found;
ghost use Rattle.pf_words.specs.Found.{rows_found};
ghost use Rattle.pf_words.specs.Postmap as postmap;

use crate::command::{
    bare_command, has_flag, matches_in, rest_in, value_in, with_flags, with_options, with_rest,
};
use crate::smtpd::budget_in;
use clap::{ArgMatches, Command};
use pf_base::{Bytes, NoMemory};
use pf_table::Repeats;
use std::alloc::Global;

/// What postmap is asked for: to build a table, of whose repeated keys the first or the last counts, and to warn of them or not; to
/// print the value of a key (`-q`), or of each key of the input (`-q -`); or to print all pairs (`-s`).
#[derive(Debug, Drop)]
pub enum MapJob {
    Build(Repeats, bool),
    Query(Bytes),
    QueryInput,
    Elements,
}

/// What the words of postmap say (postmap(1)): what it is asked for, whether letters count as the same in either case (no `-f`), the text
/// of the table, and how many bytes of keys may be taken. A text without a colon names a cdb. A table that is built is a
/// cdb, and one whose pairs are printed a text table, a cdb or an inline table.
#[derive(Debug, Drop)]
pub struct MapWords {
    pub job: MapJob,
    pub folded: bool,
    pub table: Bytes,
    pub budget: u64,
}

fn postmap_command<'a>(alloc: Global) -> Result<Command<'a>, NoMemory>
    ensures { IfOk result (λ command. commands.app_in command ≡ commands.postmap_app) }
{
    let command = with_flags(
        alloc,
        bare_command(alloc, "postmap"),
        &[
            ('r', "replace"),
            ('w', "quiet"),
            ('s', "elements"),
            ('f', "unfolded"),
        ],
    )?;
    let command = with_options(alloc, command, &[('q', "query"), ('b', "budget")])?;
    with_rest(alloc, command, "rest")
}

// The place of the first colon.
fn colon(table: &[u8]) -> Option<usize>
    ensures { result ≡ position (λ b. b == ascii.colon) table.now }
{
    table.iter().position(|b| *b == b':')
}

// What is before the first colon of a text, if it has one.
fn kind_of(table: &[u8]) -> Option<&[u8]>
    ensures { option_copied result ≡ postmap.kind_of table.now }
{
    match colon(table) {
        None => None,
        Some(place) => Some(&table[..place]),
    }
}

// Whether the text names a table that can be built.
fn can_build(table: &[u8]) -> bool
    ensures { result ≡ postmap.can_build table.now }
{
    match kind_of(table) {
        None => true,
        Some(kind) => kind == b"cdb".as_slice(),
    }
}

// Whether it names one whose pairs can be printed.
fn can_list(table: &[u8]) -> bool
    ensures { result ≡ postmap.can_list table.now }
{
    match kind_of(table) {
        None => true,
        Some(kind) => kind == b"texthash".as_slice()
            || kind == b"cdb".as_slice()
            || kind == b"inline".as_slice(),
    }
}

fn fits(job: &MapJob, table: &[u8]) -> bool
    ensures { result ≡ postmap.fits job.now table.now }
{
    match job {
        MapJob::Build(_, _) => can_build(table),
        MapJob::Query(_) => true,
        MapJob::QueryInput => true,
        MapJob::Elements => can_list(table),
    }
}

// Whether something is said of how to build.
fn has_build_option(matches: &ArgMatches<'_>) -> bool
    ensures { result ≡ postmap.has_build_option (rows_found matches.now) }
{
    has_flag(matches, "replace") || has_flag(matches, "quiet")
}

// Whether something is said of what to print.
fn has_print_option(matches: &ArgMatches<'_>) -> bool
    ensures { result ≡ postmap.has_print_option (rows_found matches.now) }
{
    value_in(matches, "query").is_some() || has_flag(matches, "elements")
}

// Whether keys are read from the input.
fn reads_input(matches: &ArgMatches<'_>) -> bool
    ensures { result ≡ postmap.reads_input (rows_found matches.now) }
{
    match value_in(matches, "query") {
        None => false,
        Some(key) => key == "-",
    }
}

// Whether no two options are beside each other that do not go together.
fn options_agree(matches: &ArgMatches<'_>) -> bool
    ensures { result ≡ postmap.options_agree (rows_found matches.now) }
{
    !(has_flag(matches, "replace") && has_flag(matches, "quiet"))
        && !(value_in(matches, "query").is_some() && has_flag(matches, "elements"))
        && !(has_build_option(matches) && has_print_option(matches))
        && (reads_input(matches) || value_in(matches, "budget").is_none())
}

fn query_of(alloc: Global, key: &str) -> Result<MapJob, NoMemory>
    ensures { IfOk result (λ job. job ≡ postmap.query_of key.now) }
{
    if key == "-" {
        Ok(MapJob::QueryInput)
    } else {
        Ok(MapJob::Query(Bytes::from_slice(alloc, key.as_bytes())?))
    }
}

fn build_in(matches: &ArgMatches<'_>) -> MapJob
    ensures { result ≡ postmap.build_in (rows_found matches.now) }
{
    if has_flag(matches, "replace") {
        MapJob::Build(Repeats::Last, false)
    } else {
        MapJob::Build(Repeats::First, !has_flag(matches, "quiet"))
    }
}

fn job_in(alloc: Global, matches: &ArgMatches<'_>) -> Result<MapJob, NoMemory>
    ensures { IfOk result (λ job. job ≡ postmap.job_in (rows_found matches.now)) }
{
    match value_in(matches, "query") {
        Some(key) => query_of(alloc, key),
        None => {
            if has_flag(matches, "elements") {
                Ok(MapJob::Elements)
            } else {
                Ok(build_in(matches))
            }
        }
    }
}

// The one word that is no option.
fn table_in(alloc: Global, matches: &ArgMatches<'_>) -> Result<Option<Bytes>, NoMemory>
    ensures { IfOk result (λ table. table ≡ postmap.only (found.rest_in (rows_found matches.now))) }
{
    let rest = rest_in(alloc, matches)?;
    match rest.as_slice() {
        [one] => Ok(Some(one.copy(alloc)?)),
        _ => Ok(None),
    }
}

#[tactic(auto, unfolding(crate::specs::Postmap::map_in))]
fn map_in(alloc: Global, matches: &ArgMatches<'_>) -> Result<Option<MapWords>, NoMemory>
    ensures { IfOk result (λ map. map ≡ postmap.map_in (rows_found matches.now)) }
{
    if !options_agree(matches) {
        return Ok(None);
    }
    let Some(table) = table_in(alloc, matches)? else {
        return Ok(None);
    };
    let Some(budget) = budget_in(value_in(matches, "budget")) else {
        return Ok(None);
    };
    let job = job_in(alloc, matches)?;
    if !fits(&job, table.as_slice()) {
        return Ok(None);
    }
    let folded = !has_flag(matches, "unfolded");
    Ok(Some(MapWords {
        job,
        folded,
        table,
        budget,
    }))
}

/// What the words of postmap say; None where they are not of its forms.
#[tactic(auto, unfolding(crate::specs::Postmap::map_of))]
pub(crate) fn map_words(alloc: Global, words: &[String]) -> Result<Option<MapWords>, NoMemory>
    ensures { IfOk result (λ said. said ≡ postmap.map_of (map string_bytes words.now)) }
{
    let command = postmap_command(alloc)?;
    match matches_in(command, words)? {
        None => Ok(None),
        Some(matches) => map_in(alloc, &matches),
    }
}
