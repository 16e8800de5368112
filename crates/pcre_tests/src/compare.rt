//! The values of a table beside those of the same table asked rule by rule.

use crate::plain::PlainTable;
use crate::tables::{FILE, number, refusal};
use pf_asks::Found;
use pf_base::{Bytes, NoMemory};
use pf_pcre::{Patterns, PcreTable};
use std::alloc::Global;

// A key: `↵` is a line feed, and `¿` a byte that begins no character.
fn key_bytes(alloc: Global, key: &str) -> Result<Bytes, NoMemory> {
    let lines = key.replace(alloc, '↵', "\n")?;
    let mut bytes = Bytes::new(alloc);
    for (place, part) in lines.as_str().split('¿').enumerate() {
        if place > 0 {
            bytes.push(0xff)?;
        }
        bytes.extend(part.as_bytes())?;
    }
    Ok(bytes)
}

// The values of keys parted by tildes.
fn plain_values(
    alloc: Global,
    table: &mut PlainTable,
    keys: &str,
) -> Result<Vec<Option<Bytes>>, NoMemory> {
    let mut values = Vec::new(alloc);
    for key in keys.split('~') {
        let key = key_bytes(alloc, key)?;
        let value = table.value(alloc, key.as_slice())?;
        values.push(value)?;
    }
    Ok(values)
}

// Whether a value is that of a table asked rule by rule.
fn is_same(found: &Found, plain: Option<&Option<Bytes>>) -> bool {
    match (found, plain) {
        (Found::Value(value), Some(Some(plain))) => value.as_slice() == plain.as_slice(),
        (Found::Absent, Some(None)) => true,
        _ => false,
    }
}

// The first key at which the values differ, if there is one.
fn difference(
    alloc: Global,
    table: &mut PcreTable,
    keys: &str,
    values: &[Option<Bytes>],
) -> Result<Option<Bytes>, NoMemory> {
    for (place, key) in keys.split('~').enumerate() {
        let bytes = key_bytes(alloc, key)?;
        let found = table.find(alloc, bytes.as_slice())?;
        if !is_same(&found, values.get(place)) {
            return Ok(Some(bytes));
        }
    }
    Ok(None)
}

// The same where all keys are asked so often.
fn asked(
    alloc: Global,
    table: &mut PcreTable,
    times: u32,
    keys: &str,
    values: &[Option<Bytes>],
) -> Result<Bytes, NoMemory> {
    for _ in 0..times {
        if let Some(key) = difference(alloc, table, keys, values)? {
            return Ok(key);
        }
    }
    Bytes::from_slice(alloc, b"alike")
}

// The first line of a text, and the others.
fn first_line(text: &str) -> (&str, &str) {
    text.split_once('\n').unwrap_or((text, ""))
}

// What `compared` says where each rule was read.
fn beside(
    alloc: Global,
    plain: &mut PlainTable,
    times: u32,
    keys: &str,
    text: &str,
) -> Result<Bytes, NoMemory> {
    let values = plain_values(alloc, plain, keys)?;
    let mut patterns = Patterns::new();
    match PcreTable::read(alloc, FILE, text.as_bytes(), &mut patterns) {
        Ok(mut table) => asked(alloc, &mut table, times, keys, values.as_slice()),
        Err(fault) => refusal(alloc, &fault),
    }
}

/// `alike` where a table has the values that its rules have one by one, at keys that are asked so often; else the first key
/// where it has not.
pub(crate) fn compared(alloc: Global, text: &str) -> Result<Bytes, NoMemory> {
    let (times, rest) = first_line(text);
    let (keys, text) = first_line(rest);
    match PlainTable::read(alloc, text) {
        Ok(mut plain) => beside(alloc, &mut plain, number(times.as_bytes()), keys, text),
        Err(fault) => refusal(alloc, &fault),
    }
}
