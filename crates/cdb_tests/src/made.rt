//! Files that are made of pairs, by `write` and by a writer.
use crate::asking::add_number;
use crate::described::{file_of, pairs_of};
use pf_base::{Bytes, List, NoMemory, Pair};
use pf_cdb::{WriteFault, Writer, Written, write};
use std::alloc::Global;

// What a writer makes to which pairs are added one by one.
fn written(alloc: Global, pairs: &List<Pair>) -> Result<Written, WriteFault> {
    let mut writer = Writer::new(alloc)?;
    for pair in pairs.as_slice() {
        writer = writer.add(pair.key.as_slice(), pair.value.as_slice())?;
    }
    Ok(writer.finish(alloc)?)
}

// Its file.
fn added(alloc: Global, pairs: &List<Pair>) -> Result<Bytes, WriteFault> {
    let Written { bytes, .. } = written(alloc, pairs)?;
    Ok(bytes)
}

fn is_made(made: Result<Bytes, WriteFault>, wanted: &Bytes) -> Result<bool, NoMemory> {
    match made {
        Ok(file) => Ok(file.as_slice() == wanted.as_slice()),
        Err(WriteFault::TooLarge) => Ok(false),
        Err(WriteFault::NoMemory) => Err(NoMemory),
    }
}

/// Adds whether `write` and a writer make this file of its pairs.
pub fn add_made(alloc: Global, said: &mut Bytes, text: &str) -> Result<(), NoMemory> {
    let (pairs, _) = text.split_once(':').unwrap_or((text, ""));
    let pairs = pairs_of(alloc, pairs)?;
    let wanted = file_of(alloc, text)?;
    let by_write = is_made(write(alloc, &pairs), &wanted)?;
    let by_writer = is_made(added(alloc, &pairs), &wanted)?;
    said.extend(if by_write && by_writer { b"yes" } else { b"no" })
}

/// Adds whether a key comes more than once in pairs, as a writer says.
pub fn add_repeats(alloc: Global, said: &mut Bytes, text: &str) -> Result<(), NoMemory> {
    let pairs = pairs_of(alloc, text)?;
    match written(alloc, &pairs) {
        Ok(written) => said.extend(if written.repeats { b"yes" } else { b"no" }),
        Err(WriteFault::TooLarge) => said.extend(b"too large"),
        Err(WriteFault::NoMemory) => Err(NoMemory),
    }
}

fn add_size(
    alloc: Global,
    said: &mut Bytes,
    made: Result<Bytes, WriteFault>,
) -> Result<(), NoMemory> {
    match made {
        Ok(file) => add_number(alloc, said, file.len()),
        Err(WriteFault::TooLarge) => said.extend(b"too large"),
        Err(WriteFault::NoMemory) => Err(NoMemory),
    }
}

// A value with so many bytes, for a key without a byte.
fn one_pair(alloc: Global, size: usize) -> Result<List<Pair>, NoMemory> {
    let value = vec![in alloc; 0u8; size]?;
    let mut pairs = List::new(alloc);
    pairs.push(Pair {
        key: Bytes::new(alloc),
        value: Bytes::from_slice(alloc, value.as_slice())?,
    })?;
    Ok(pairs)
}

/// Adds how many bytes the file has of one pair whose value has so many bytes, as `write` and as a writer make it.
pub fn add_large(alloc: Global, said: &mut Bytes, size: usize) -> Result<(), NoMemory> {
    let pairs = one_pair(alloc, size)?;
    add_size(alloc, said, write(alloc, &pairs))?;
    said.push(b'|')?;
    add_size(alloc, said, added(alloc, &pairs))
}
