//! A cdb that is built of a text.
ghost use Rattle.std.specs.Prelude.{◌≡◌, ◌≢◌, ◌++◌, ◌==◌, ◌<◌, Bool, Ok, Err, true, false, length, IfErr, IfOk, IfSome, OnOk};
ghost use Rattle.std.specs.List.{position};
ghost use Rattle.std.specs.Str.{IsUtf8};
ghost use Rattle.pf_base.specs.Clauses.Faults.{as_fault};
ghost use Rattle.pf_base.specs.Clauses.Unless.{Unless};
ghost use Rattle.pf_base.specs.Text.Ascii as ascii;
ghost use Rattle.pf_cdb.specs.Written.{written, written_file};
ghost use Rattle.pf_maps.specs.Clauses.Opened.{Opens, held_as, names_size};
ghost use Rattle.pf_table.specs.declared.pairs.Repeats.{Repeats};
ghost use Rattle.pf_tools.specs.Clauses.Streaming.{line_pairs};
ghost use Rattle.pf_tools.specs.Map.Built as spec;

use pf_base::{Bytes, Cause, ConfFault, Files, NoMemory, add_line, decimal, refuse};
use pf_cdb::{WriteFault, Writer};
use pf_maps::{OpenFault, file_text};
use pf_table::{Repeated, Repeats, TextLines, TextRead, TextTable};
use pf_words::MapWords;
use std::alloc::Global;

/// The bytes of a cdb, and the warnings of the repeated keys of its text.
#[derive(Debug, Drop)]
pub(crate) struct Built {
    pub(crate) bytes: Bytes,
    pub(crate) warnings: Bytes,
}

fn colon_place(table: &[u8]) -> Option<usize>
    ensures { result ≡ position (λ b. b == ascii.colon) table.now }
{
    table.iter().position(|b| *b == b':')
}

/// The name of the text of a table.
pub(crate) fn text_name(table: &[u8]) -> &[u8]
    ensures { result.now ≡ spec.text_name table.now }
{
    match colon_place(table) {
        None => table,
        Some(place) => &table[place + 1..],
    }
}

/// The name of the cdb.
pub(crate) fn cdb_name(alloc: Global, table: &Bytes) -> Result<Bytes, NoMemory>
    ensures { IfOk result (λ name. name ≡ spec.cdb_name table.now) }
{
    let mut name = Bytes::from_slice(alloc, text_name(table.as_slice()))?;
    name.extend(b".cdb")?;
    Ok(name)
}

fn warning_text(alloc: Global, file: &[u8], repeated: &Repeated) -> Result<Bytes, NoMemory>
    ensures { IfOk result (λ text. text ≡ spec.warning_text file.now repeated.now) }
{
    let line = decimal(alloc, repeated.line)?;
    let mut text = Bytes::new(alloc);
    text.extend_all(&[
        b"postgate: warning: ",
        file,
        b":",
        line.as_bytes(),
        b": duplicate entry: ",
        repeated.key.as_slice(),
    ])?;
    Ok(text)
}

fn add_warning(
    alloc: Global,
    text: &mut Bytes,
    file: &[u8],
    repeated: &Repeated,
) -> Result<(), NoMemory>
    ensures { OnOk result (text.new ≡ text.old ++ spec.warning_of file.now repeated.now) }
{
    let warning = warning_text(alloc, file, repeated)?;
    add_line(text, warning.as_slice())
}

fn all_warnings(alloc: Global, file: &[u8], repeated: &[Repeated]) -> Result<Bytes, NoMemory>
    ensures { IfOk result (λ warnings. warnings ≡ spec.warnings_of file.now true repeated.now) }
{
    let mut warnings = Bytes::new(alloc);
    for one in repeated {
        add_warning(alloc, &mut warnings, file, one)?;
    }
    Ok(warnings)
}

// The warnings, where they are asked for.
fn warnings_of(
    alloc: Global,
    file: &[u8],
    warned: bool,
    repeated: &[Repeated],
) -> Result<Bytes, NoMemory>
    ensures { IfOk result (λ warnings. warnings ≡ spec.warnings_of file.now warned repeated.now) }
{
    if warned {
        all_warnings(alloc, file, repeated)
    } else {
        Ok(Bytes::new(alloc))
    }
}

// A cdb to which the pairs of a table are added.
#[tactic(auto, using(crate::proofs::BuiltLaws::one_more))]
fn with_pairs(alloc: Global, text: &TextTable) -> Result<Writer, WriteFault>
    ensures all { IfOk result (λ writer. writer ≡ text.now.pairs) }
    ensures large { result ≡ Err WriteFault.TooLarge → 67108864 < length (written text.now.pairs) }
{
    let mut writer = Writer::new(alloc)?;
    for i in 0..text.len() {
        let (key, value) = text.at(i);
        writer = writer.add(key, value)?;
    }
    Ok(writer)
}

// The bytes of a cdb of the pairs of a table.
fn written_bytes(alloc: Global, text: &TextTable) -> Result<Bytes, WriteFault>
    ensures { Unless result WriteFault.NoMemory (λ r. r ≡ written_file text.now.pairs) }
{
    let writer = with_pairs(alloc, text)?;
    let file = writer.finish(alloc)?;
    Ok(file.bytes)
}

// The bytes of a cdb of this name.
fn cdb_of(alloc: Global, name: &[u8], text: &TextTable) -> Result<Bytes, ConfFault>
    ensures { Unless result ConfFault.NoMemory (λ r. r ≡ as_fault (spec.cdb_or_refused name.now (written_file text.now.pairs))) }
{
    match written_bytes(alloc, text) {
        Ok(bytes) => Ok(bytes),
        Err(WriteFault::TooLarge) => Err(refuse(alloc, b"words", 0, Cause::C15, name)),
        Err(WriteFault::NoMemory) => Err(ConfFault::NoMemory),
    }
}

// The bytes of the cdb of a table.
fn table_cdb(alloc: Global, table: &Bytes, text: &TextTable) -> Result<Bytes, ConfFault>
    ensures { Unless result ConfFault.NoMemory (λ r. r ≡ as_fault (spec.cdb_or_refused (spec.cdb_name table.now) (written_file text.now.pairs))) }
{
    let name = cdb_name(alloc, table)?;
    cdb_of(alloc, name.as_slice(), text)
}

// What is built of a text that was read.
fn read_built(
    alloc: Global,
    table: &Bytes,
    warned: bool,
    read: &TextRead,
) -> Result<Built, ConfFault>
    ensures { Unless result ConfFault.NoMemory (λ r. r ≡ as_fault (spec.read_built table.now warned read.now)) }
{
    let bytes = table_cdb(alloc, table, &read.table)?;
    let warnings = warnings_of(
        alloc,
        text_name(table.as_slice()),
        warned,
        read.repeated.as_slice(),
    )?;
    Ok(Built { bytes, warnings })
}

// What is built of the table of a text.
fn table_built(
    alloc: Global,
    words: &MapWords,
    repeats: Repeats,
    warned: bool,
    text: Bytes,
) -> Result<Built, ConfFault>
    ensures { Unless result ConfFault.NoMemory (λ r. r ≡ as_fault (spec.text_built words.now.table words.now.folded repeats warned text)) }
{
    let name = text_name(words.table.as_slice());
    let read = TextTable::read(alloc, name, text.as_slice(), words.folded, repeats)?;
    drop(text);
    read_built(alloc, &words.table, warned, &read)
}

// A cdb to which the pairs of the lines of a text are added as they come; None where it would be too large.
fn with_lines(
    alloc: Global,
    file: &[u8],
    folds: bool,
    text: &[u8],
) -> Result<Option<Writer>, ConfFault>
    ensures all { IfOk result (λ writer. IfSome writer (λ pairs. line_pairs file.now folds text.now ≡ Ok pairs)) }
    ensures err { IfErr result (λ fault. fault ≢ ConfFault.NoMemory → Err fault ≡ as_fault (line_pairs file.now folds text.now)) }
{
    let mut lines = TextLines::new(alloc, file, text)?;
    let mut writer = Writer::new(alloc)?;
    'turns: loop {
        if !lines.next(alloc, file, folds)? {
            return Ok(Some(writer));
        }
        match writer.add(lines.key(), lines.value()) {
            Ok(more) => writer = more,
            Err(WriteFault::TooLarge) => return Ok(None),
            Err(WriteFault::NoMemory) => return Err(ConfFault::NoMemory),
        }
    }
}

// What is built of a text line by line; None where a key is repeated, or the cdb of all lines would be too large.
fn lines_built(
    alloc: Global,
    table: &[u8],
    folds: bool,
    text: &[u8],
) -> Result<Option<Built>, ConfFault>
    ensures built { IfOk result (λ built. IfSome built (λ built. (repeats : Repeats) (warned : Bool)
        → spec.text_built table.now folds repeats warned text.now ≡ Ok built)) }
    ensures err { IfErr result (λ fault. fault ≢ ConfFault.NoMemory → (repeats : Repeats) (warned : Bool)
        → Err fault ≡ as_fault (spec.text_built table.now folds repeats warned text.now)) }
{
    match with_lines(alloc, text_name(table), folds, text)? {
        None => Ok(None),
        Some(writer) => {
            let written = writer.finish(alloc)?;
            if written.repeats {
                return Ok(None);
            }
            Ok(Some(Built {
                bytes: written.bytes,
                warnings: Bytes::new(alloc),
            }))
        }
    }
}

// What is built of a text. Where the last of repeated keys counts, or one is repeated, the table is read first.
fn text_built(
    alloc: Global,
    words: &MapWords,
    repeats: Repeats,
    warned: bool,
    text: Bytes,
) -> Result<Built, ConfFault>
    ensures { Unless result ConfFault.NoMemory (λ r. r ≡ as_fault (spec.text_built words.now.table words.now.folded repeats warned text)) }
{
    if repeats == Repeats::First
        && let Some(built) = lines_built(
            alloc,
            words.table.as_slice(),
            words.folded,
            text.as_slice(),
        )?
    {
        return Ok(built);
    }
    table_built(alloc, words, repeats, warned, text)
}

// What was made without a file.
fn held(built: Result<Built, ConfFault>) -> Result<Built, OpenFault>
    ensures { result ≡ held_as built }
{
    match built {
        Ok(built) => Ok(built),
        Err(ConfFault::Refused(refusal)) => Err(OpenFault::Refused(refusal)),
        Err(ConfFault::NoMemory) => Err(OpenFault::NoMemory),
    }
}

/// What is built of the text that the words name.
pub(crate) fn build<F: Files>(
    alloc: Global,
    words: &MapWords,
    repeats: Repeats,
    warned: bool,
    files: &mut F,
) -> Result<Built, OpenFault>
    ensures opens { Opens (F.known files.old) (F.known files.new) (λ failed all. spec.built_in failed words.now.table words.now.folded repeats warned all) result }
    ensures small { IfErr result (λ fault. names_size fault ≡ false) }
    ensures text { IfOk result (λ built. IsUtf8 (spec.text_name words.now.table)) }
{
    let name = text_name(words.table.as_slice());
    let text = file_text(alloc, b"words", 0, name, files)?;
    held(text_built(alloc, words, repeats, warned, text))
}
