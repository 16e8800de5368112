//! What tables of patterns say, as the answers of rows.

use pf_asks::{Found, Results};
use pf_base::{Bytes, ConfFault, List, NoMemory, cut_at};
use pf_pcre::{Patterns, PcreTable};
use std::alloc::Global;

/// The name of each table's file.
pub(crate) const FILE: &[u8] = b"t";

/// The refusal of a file without its line feed.
pub(crate) fn refusal(alloc: Global, fault: &ConfFault) -> Result<Bytes, NoMemory> {
    match fault {
        ConfFault::NoMemory => Err(NoMemory),
        ConfFault::Refused(refusal) => {
            let line = refusal.line(alloc)?;
            match cut_at(line.as_slice(), b'\n') {
                Some((line, _)) => Bytes::from_slice(alloc, line),
                None => Bytes::from_slice(alloc, b"no line feed"),
            }
        }
    }
}

/// Whether a text is a table.
pub(crate) fn judged(alloc: Global, text: &[u8]) -> Result<Bytes, NoMemory> {
    let mut patterns = Patterns::new();
    match PcreTable::read(alloc, FILE, text, &mut patterns) {
        Ok(_) => Bytes::from_slice(alloc, b"table"),
        Err(fault) => refusal(alloc, &fault),
    }
}

/// The value of a key.
pub(crate) fn found(alloc: Global, key: &[u8], text: &[u8]) -> Result<Bytes, NoMemory> {
    let mut patterns = Patterns::new();
    match PcreTable::read(alloc, FILE, text, &mut patterns) {
        Ok(mut table) => match table.find(alloc, key)? {
            Found::Value(value) => Ok(value),
            Found::Absent => Bytes::from_slice(alloc, b"nothing"),
        },
        Err(fault) => refusal(alloc, &fault),
    }
}

// Values parted by commas.
fn joined(alloc: Global, values: &List<Bytes>) -> Result<Bytes, NoMemory> {
    let mut text = Bytes::new(alloc);
    for (i, value) in values.as_slice().iter().enumerate() {
        if i > 0 {
            text.push(b',')?;
        }
        text.extend(value.as_slice())?;
    }
    Ok(text)
}

/// The results of a table.
pub(crate) fn results(alloc: Global, text: &[u8]) -> Result<Bytes, NoMemory> {
    let mut patterns = Patterns::new();
    match PcreTable::read(alloc, FILE, text, &mut patterns) {
        Ok(table) => match table.results(alloc)? {
            Results::Anything => Bytes::from_slice(alloc, b"anything"),
            Results::Listed(values) => joined(alloc, &values),
        },
        Err(fault) => refusal(alloc, &fault),
    }
}

// The values of keys parted by tildes.
fn values(alloc: Global, table: &mut PcreTable, keys: &[u8]) -> Result<Bytes, NoMemory> {
    let mut values = Bytes::new(alloc);
    for (i, key) in keys.split(|b| *b == b'~').enumerate() {
        if i > 0 {
            values.push(b'~')?;
        }
        match table.find(alloc, key)? {
            Found::Value(value) => values.extend(value.as_slice())?,
            Found::Absent => values.extend(b"nothing")?,
        }
    }
    Ok(values)
}

/// The number that a text writes, or 0.
pub(crate) fn number(text: &[u8]) -> u32 {
    match str::from_utf8(text) {
        Ok(text) => text.parse::<u32>().unwrap_or(0),
        Err(_) => 0,
    }
}

/// The first line of a text, and the others.
pub(crate) fn parted(text: &[u8]) -> (&[u8], &[u8]) {
    cut_at(text, b'\n').unwrap_or((text, b""))
}

/// What a table says of keys that are asked so often.
pub(crate) fn asked(alloc: Global, text: &[u8]) -> Result<Bytes, NoMemory> {
    let (times, rest) = parted(text);
    let (keys, text) = parted(rest);
    let mut patterns = Patterns::new();
    match PcreTable::read(alloc, FILE, text, &mut patterns) {
        Ok(mut table) => {
            let mut said = Bytes::new(alloc);
            for _ in 0..number(times) {
                said = values(alloc, &mut table, keys)?;
            }
            Ok(said)
        }
        Err(fault) => refusal(alloc, &fault),
    }
}
