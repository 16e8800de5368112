//! The top call of postmap.
ghost use Rattle.std.specs.Prelude.{◌≡◌, ℕ, ◌++◌, codes, slice_get, IfOk};
ghost use Rattle.std.specs.Str.{IsUtf8};
ghost use Rattle.pf_base.specs.Outside.Known.{Input, Output};
ghost use Rattle.pf_base.specs.Outside.Objects.{Says, log_text, objects, out_text, sinks};
ghost use Rattle.pf_base.specs.Refusal.{refusal_line};
ghost use Rattle.pf_maincf.specs.File.{failed_line as failed_text};
ghost use Rattle.pf_maps.specs.Clauses.Seen.{listed};
ghost use Rattle.pf_tools.specs.Clauses.Opened.{Ends, IsPut, SaysUnopened, value_in};
ghost use Rattle.pf_tools.specs.Map.Course as spec;
ghost use Rattle.pf_tools.specs.Map.Course.{Took};
ghost use Rattle.pf_tools.specs.Map.Lines as lines;
ghost use Rattle.pf_tools.specs.Map.Run.{PostmapRun};

use crate::map::build::{Built, build, cdb_name};
use crate::map::keys::{Ended, KeysFault, answer_keys};
use crate::map::lines::{pair_lines, value_line};
use crate::map::table::{open_table, pairs_of, value_of};
use pf_base::status::{AT_BUDGET, DONE, FILES_FAILED, INPUT_FAILED, NO_MEMORY, REFUSED, WARNED};
use pf_base::{
    Bytes, Files, NoMemory, OuterFault, Refused, Sink, SinkFault, Source, status_after, write_log,
    write_out,
};
use pf_maincf::failed_line;
use pf_maps::{OpenFault, Tables};
use pf_pcre::Patterns;
use pf_table::Repeats;
use pf_words::{MapJob, MapWords};
use std::alloc::Global;

// Says why a table is refused.
fn say_refused<J: Sink>(alloc: Global, refusal: &Refused, log: &mut J) -> Result<(), SinkFault>
    ensures { (out mail : Output) → Says (sinks out mail (J.known log.old)) (sinks out mail (J.known log.new)) (log_text (refusal_line refusal.now)) result }
{
    let line = refusal.line(alloc)?;
    write_log(log, line.as_slice())
}

// The warnings with the line of a failed replacement after them.
fn with_failed_line(alloc: Global, name: &[u8], warnings: &Bytes) -> Result<Bytes, NoMemory>
    ensures { IfOk result (λ text. text ≡ warnings.now ++ failed_text name.now (codes "replace")) }
{
    let line = failed_line(alloc, name, b"replace")?;
    let mut text = warnings.copy(alloc)?;
    text.extend(line.as_slice())?;
    Ok(text)
}

// Says that a file could not be read.
fn say_unread<J: Sink>(alloc: Global, file: &[u8], log: &mut J) -> Result<(), SinkFault>
    ensures { (out mail : Output) → Says (sinks out mail (J.known log.old)) (sinks out mail (J.known log.new)) (log_text (failed_text file.now (codes "read"))) result }
{
    let line = failed_line(alloc, file, b"read")?;
    write_log(log, line.as_slice())
}

// Says why a table is not opened.
fn say_unopened<J: Sink>(alloc: Global, fault: OpenFault, log: &mut J) -> u8
    ensures { (out mail : Output) → SaysUnopened (sinks out mail (J.known log.old)) (sinks out mail (J.known log.new)) fault result }
{
    match fault {
        OpenFault::Refused(refusal) => status_after(REFUSED, say_refused(alloc, &refusal, log)),
        OpenFault::Failed { file } => {
            status_after(FILES_FAILED, say_unread(alloc, file.as_slice(), log))
        }
        OpenFault::NoMemory => NO_MEMORY,
    }
}

// The status of the value of a key.
fn value_status(value: &Option<Bytes>) -> u8
    ensures { result ≡ spec.value_status value.now }
{
    match value {
        None => WARNED,
        Some(_) => DONE,
    }
}

// The status of keys that were answered.
fn ended_status(ended: Ended) -> u8
    ensures { result ≡ spec.ended_status ended }
{
    match ended {
        Ended::AtEnd(false) => WARNED,
        Ended::AtEnd(true) => DONE,
        Ended::AtBudget => AT_BUDGET,
    }
}

fn keys_status(answered: Result<Ended, KeysFault>) -> u8
    ensures { result ≡ spec.keys_status answered }
{
    match answered {
        Ok(ended) => ended_status(ended),
        Err(KeysFault::Input) => INPUT_FAILED,
        Err(KeysFault::Sink(fault)) => fault.status(),
    }
}

// Says the value of a key.
fn say_value<O: Sink>(alloc: Global, tables: Tables, key: &[u8], out: &mut O) -> u8
    ensures { (mail log : Output) → Ends (sinks (O.known out.old) mail log) (sinks (O.known out.new) mail log)
        (out_text (lines.value_line (value_in tables key.now))) (spec.value_status (value_in tables key.now)) result }
{
    let mut tables = tables;
    let Ok(value) = value_of(alloc, &mut tables, key) else {
        return NO_MEMORY;
    };
    let Ok(line) = value_line(alloc, &value) else {
        return NO_MEMORY;
    };
    status_after(value_status(&value), write_out(out, line.as_slice()))
}

// Says all pairs.
fn say_pairs<O: Sink>(alloc: Global, tables: &Tables, out: &mut O) -> u8
    ensures { (mail log : Output) → Ends (sinks (O.known out.old) mail log) (sinks (O.known out.new) mail log)
        (out_text (lines.pair_lines (listed (slice_get tables.now.tables 0)))) DONE result }
{
    let Ok(pairs) = pairs_of(alloc, tables) else {
        return NO_MEMORY;
    };
    let Ok(lines) = pair_lines(alloc, pairs.as_slice()) else {
        return NO_MEMORY;
    };
    status_after(DONE, write_out(out, lines.as_slice()))
}

// Says the warnings, and that the cdb could not be put in its place.
fn say_unreplaced<J: Sink>(
    alloc: Global,
    name: &[u8],
    warnings: &Bytes,
    log: &mut J,
) -> Result<(), SinkFault>
    ensures { (out mail : Output) → Says (sinks out mail (J.known log.old)) (sinks out mail (J.known log.new))
        (log_text (warnings.now ++ failed_text name.now (codes "replace"))) result }
{
    let text = with_failed_line(alloc, name, warnings)?;
    write_log(log, text.as_slice())
}

// Puts a cdb in its place, and says the warnings.
fn put_built<F: Files, J: Sink>(
    alloc: Global,
    name: &[u8],
    built: &Built,
    files: &mut F,
    log: &mut J,
) -> u8
    requires { IsUtf8 name.now }
    ensures { (out mail : Output) → IsPut name.now built.now (F.known files.old) (F.known files.new)
        (sinks out mail (J.known log.old)) (sinks out mail (J.known log.new)) result }
{
    let Ok(file) = str::from_utf8(name) else {
        unreachable!();
    };
    match files.replace(file, built.bytes.as_slice()) {
        Ok(()) => status_after(DONE, write_log(log, built.warnings.as_slice())),
        Err(OuterFault::Failed) => {
            status_after(
                FILES_FAILED,
                say_unreplaced(alloc, name, &built.warnings, log),
            )
        }
        Err(OuterFault::NoMemory) => NO_MEMORY,
    }
}

// Builds a cdb.
fn run_build<F: Files, J: Sink>(
    alloc: Global,
    words: &MapWords,
    repeats: Repeats,
    warned: bool,
    files: &mut F,
    log: &mut J,
) -> u8
    requires { words.now.job ≡ MapJob.Build repeats warned }
    ensures { (input : Input) (out mail : Output) (count : ℕ) → Took words.now
        (objects input out mail (J.known log.old) (F.known files.old))
        (objects input out mail (J.known log.new) (F.known files.new)) count count result }
{
    let Ok(name) = cdb_name(alloc, &words.table) else {
        return NO_MEMORY;
    };
    match build(alloc, words, repeats, warned, files) {
        Ok(built) => put_built(alloc, name.as_slice(), &built, files, log),
        Err(fault) => say_unopened(alloc, fault, log),
    }
}

// Prints the value of a key (`-q key`).
fn run_query<F: Files, O: Sink, J: Sink>(
    alloc: Global,
    words: &MapWords,
    key: &[u8],
    files: &mut F,
    patterns: &mut Patterns,
    out: &mut O,
    log: &mut J,
) -> u8
    requires { words.now.job ≡ MapJob.Query key.now }
    ensures { (input : Input) (mail : Output) → Took words.now
        (objects input (O.known out.old) mail (J.known log.old) (F.known files.old))
        (objects input (O.known out.new) mail (J.known log.new) (F.known files.new)) patterns.old patterns.new result }
{
    match open_table(alloc, words, files, patterns) {
        Ok(tables) => say_value(alloc, tables, key, out),
        Err(fault) => say_unopened(alloc, fault, log),
    }
}

// Prints all pairs (`-s`).
fn run_elements<F: Files, O: Sink, J: Sink>(
    alloc: Global,
    words: &MapWords,
    files: &mut F,
    patterns: &mut Patterns,
    out: &mut O,
    log: &mut J,
) -> u8
    requires { words.now.job ≡ MapJob.Elements }
    ensures { (input : Input) (mail : Output) → Took words.now
        (objects input (O.known out.old) mail (J.known log.old) (F.known files.old))
        (objects input (O.known out.new) mail (J.known log.new) (F.known files.new)) patterns.old patterns.new result }
{
    match open_table(alloc, words, files, patterns) {
        Ok(tables) => say_pairs(alloc, &tables, out),
        Err(fault) => say_unopened(alloc, fault, log),
    }
}

// Prints the values of the keys of the input (`-q -`).
fn run_keys<S: Source, F: Files, O: Sink, J: Sink>(
    alloc: Global,
    words: &MapWords,
    input: &mut S,
    files: &mut F,
    patterns: &mut Patterns,
    out: &mut O,
    log: &mut J,
) -> u8
    requires { words.now.job ≡ MapJob.QueryInput }
    ensures { (mail : Output) → Took words.now
        (objects (S.known input.old) (O.known out.old) mail (J.known log.old) (F.known files.old))
        (objects (S.known input.new) (O.known out.new) mail (J.known log.new) (F.known files.new)) patterns.old patterns.new result }
{
    match open_table(alloc, words, files, patterns) {
        Ok(tables) => { keys_status(answer_keys(alloc, tables, words.budget, input, out)) }
        Err(fault) => say_unopened(alloc, fault, log),
    }
}

/// Runs postmap: `words` are its words, the table is read from `files` and a cdb that is built is put there, keys come from `input`
/// where they are asked for (`-q -`), the values and the pairs go to `out`, and warnings and why a table is refused to `log`.
/// `patterns` builds the patterns of tables that are opened, and counts the one for whose size a table is refused; a build leaves
/// it. It answers the exit status: done, nothing found, the table is refused, the budget was taken, or no memory; those of
/// `input`, `out`, `log` and `files` come only where their count rose. The statuses are postgate's own.
pub fn postmap<S: Source, F: Files, O: Sink, J: Sink>(
    alloc: Global,
    words: &MapWords,
    input: &mut S,
    files: &mut F,
    patterns: &mut Patterns,
    out: &mut O,
    log: &mut J,
) -> u8
    ensures { (mail : Output) → PostmapRun words.now
        (objects (S.known input.old) (O.known out.old) mail (J.known log.old) (F.known files.old))
        (objects (S.known input.new) (O.known out.new) mail (J.known log.new) (F.known files.new)) patterns.old patterns.new result }
{
    match &words.job {
        MapJob::Build(repeats, warned) => run_build(alloc, words, *repeats, *warned, files, log),
        MapJob::Query(key) => run_query(alloc, words, key.as_slice(), files, patterns, out, log),
        MapJob::QueryInput => run_keys(alloc, words, input, files, patterns, out, log),
        MapJob::Elements => run_elements(alloc, words, files, patterns, out, log),
    }
}
