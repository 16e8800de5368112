//! The table that words name.
ghost use Rattle.std.specs.Prelude.{◌≡◌, ◌≢◌, IfOk, slice_get};
ghost use Rattle.pf_maps.specs.Clauses.Opened.{OpensWith};
ghost use Rattle.pf_maps.specs.Clauses.Seen.{listed, opened};
ghost use Rattle.pf_tools.specs.Clauses.Opened.{meant};
ghost use Rattle.pf_tools.specs.Map.Lines.{value_at};
ghost use Rattle.pf_tools.specs.Map.Said as spec;

use pf_asks::{Found, Lookup, TableFault};
use pf_base::{Bytes, Cause, ConfFault, Files, List, NoMemory, Pair, Specs, TableId, refuse};
use pf_maps::{OpenFault, Tables, is_list_file};
use pf_pcre::Patterns;
use pf_words::MapWords;
use std::alloc::Global;

// The place of the one table.
const FIRST: TableId = TableId(0);

// Whether the text has a type.
fn has_type(table: &[u8]) -> bool
    ensures { result ≡ spec.has_type table.now }
{
    table.iter().any(|b| *b == b':')
}

// Whether a text has a type that begins with a slash.
fn is_no_table(table: &[u8]) -> bool
    ensures { result ≡ spec.is_no_table table.now }
{
    has_type(table) && is_list_file(table)
}

// Why a text is refused that names no table.
fn no_table(alloc: Global, table: &[u8]) -> OpenFault
    ensures { result ≢ OpenFault.NoMemory → result ≡ OpenFault.Refused (spec.no_table table.now) }
{
    match refuse(alloc, b"words", 0, Cause::C9, table) {
        ConfFault::Refused(refusal) => OpenFault::Refused(refusal),
        ConfFault::NoMemory => OpenFault::NoMemory,
    }
}

// The text of a table with its type.
fn text_of(alloc: Global, table: &[u8]) -> Result<Bytes, NoMemory>
    ensures { IfOk result (λ text. text ≡ spec.text_of table.now) }
{
    if has_type(table) {
        return Bytes::from_slice(alloc, table);
    }
    let mut text = Bytes::from_slice(alloc, b"cdb:")?;
    text.extend(table)?;
    Ok(text)
}

// The text as one that words name.
fn specs_of(alloc: Global, table: &[u8]) -> Result<Specs, NoMemory>
    ensures { IfOk result (λ specs. specs ≡ spec.specs_of table.now) }
{
    let file = Bytes::from_slice(alloc, b"words")?;
    let text = text_of(alloc, table)?;
    let mut specs = Specs::new(alloc, file);
    let _ = specs.add(alloc, 0, text.as_slice())?;
    Ok(specs)
}

/// Opens the table that the words name. A text whose type begins with a slash names none, and is refused as C9.
pub(crate) fn open_table<F: Files>(
    alloc: Global,
    words: &MapWords,
    files: &mut F,
    patterns: &mut Patterns,
) -> Result<Tables, OpenFault>
    ensures { OpensWith (F.known files.old) (F.known files.new) patterns.old patterns.new (λ event all. opened (spec.tables_in event words.now all)) result }
{
    let table = words.table.as_slice();
    if is_no_table(table) {
        return Err(no_table(alloc, table));
    }
    let Ok(specs) = specs_of(alloc, table) else {
        return Err(OpenFault::NoMemory);
    };
    Tables::open(alloc, &specs, words.folded, files, patterns)
}

/// The pairs of the table.
pub(crate) fn pairs_of(alloc: Global, tables: &Tables) -> Result<List<Pair>, NoMemory>
    ensures { IfOk result (λ pairs. pairs ≡ listed (slice_get tables.now.tables 0)) }
{
    if tables.len() == 0 {
        return Ok(List::new(alloc));
    }
    tables.pairs(alloc, FIRST)
}

/// The value that the table has for a key, if it has one. The table means what it meant.
pub(crate) fn value_of(
    alloc: Global,
    tables: &mut Tables,
    key: &[u8],
) -> Result<Option<Bytes>, NoMemory>
    ensures value { IfOk result (λ value. value ≡ value_at (meant tables.old) key.now) }
    ensures same { meant tables.new ≡ meant tables.old }
{
    if tables.len() == 0 {
        return Ok(None);
    }
    match tables.find(alloc, FIRST, key) {
        Ok(Found::Value(value)) => Ok(Some(value)),
        Ok(Found::Absent) => Ok(None),
        Err(TableFault::Fails) => Ok(None),
        Err(TableFault::Failed) => unreachable!(),
        Err(TableFault::NoMemory) => Err(NoMemory),
    }
}
