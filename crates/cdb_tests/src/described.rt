//! Files of a row. A file is written as its pairs, `KEY=VALUE` each, parted by blanks, and is then the one that `write` makes of
//! them. After a colon come the slots of table 37 instead, the only table that has some: each is `KEY@PLACE`, the hash of a key
//! and the place of a record, or `-`, which is empty. After one more colon comes a change: `PLACE=BYTE` sets a byte, and `cut=SIZE`
//! leaves so many bytes. `zeros` is a header of zeros alone.
use pf_base::{Bytes, List, NoMemory, Pair};
use pf_cdb::{WriteFault, hash, write};
use std::alloc::Global;

/// How many bytes the header has.
const HEADER: u64 = 2048;

/// The table whose slots a row writes.
const TABLE: u64 = 37;

// A pair as a row writes it.
fn pair_of(written: &str) -> (&str, &str) {
    written.split_once('=').unwrap_or((written, ""))
}

/// The pairs of a row, in their order.
pub fn pairs_of(alloc: Global, written: &str) -> Result<List<Pair>, NoMemory> {
    let mut pairs = List::new(alloc);
    for one in written.split(' ') {
        if !one.is_empty() {
            let (key, value) = pair_of(one);
            pairs.push(Pair {
                key: Bytes::from_slice(alloc, key.as_bytes())?,
                value: Bytes::from_slice(alloc, value.as_bytes())?,
            })?;
        }
    }
    Ok(pairs)
}

// Adds a number of four bytes, the least first.
fn add_word(out: &mut Bytes, number: u64) -> Result<(), NoMemory> {
    out.extend(&u32::try_from(number).unwrap_or(0).to_le_bytes())
}

// The records of some pairs.
fn records_of(alloc: Global, written: &str) -> Result<Bytes, NoMemory> {
    let mut records = Bytes::new(alloc);
    for one in written.split(' ') {
        if !one.is_empty() {
            let (key, value) = pair_of(one);
            add_word(&mut records, key.len() as u64)?;
            add_word(&mut records, value.len() as u64)?;
            records.extend_all(&[key.as_bytes(), value.as_bytes()])?;
        }
    }
    Ok(records)
}

// The slots of a row.
fn slots_of(alloc: Global, written: &str) -> Result<Bytes, NoMemory> {
    let mut slots = Bytes::new(alloc);
    for one in written.split(' ') {
        if let Some((key, place)) = one.split_once('@') {
            add_word(&mut slots, u64::from(hash(key.as_bytes())))?;
            add_word(&mut slots, place.parse::<u64>().unwrap_or(0))?;
        } else if !one.is_empty() {
            slots.extend(&[0; 8])?;
        }
    }
    Ok(slots)
}

// Adds a header in which one table has the slots from one place to another.
fn add_header(file: &mut Bytes, at: u64, end: u64) -> Result<(), NoMemory> {
    for table in 0..256 {
        add_word(file, if table <= TABLE { at } else { end })?;
        let bytes = if table == TABLE {
            end.saturating_sub(at)
        } else {
            0
        };
        add_word(file, bytes / 8)?;
    }
    Ok(())
}

// The file of some pairs with slots as they are written.
fn laid_out(alloc: Global, pairs: &str, slots: &str) -> Result<Bytes, NoMemory> {
    let records = records_of(alloc, pairs)?;
    let slots = slots_of(alloc, slots)?;
    let at = HEADER.saturating_add(records.len());
    let mut file = Bytes::new(alloc);
    add_header(&mut file, at, at.saturating_add(slots.len()))?;
    file.extend_all(&[records.as_slice(), slots.as_slice()])?;
    Ok(file)
}

// The bytes with one of them changed.
fn changed(alloc: Global, file: &[u8], at: u64, byte: u8) -> Result<Bytes, NoMemory> {
    let mut bytes = Bytes::new(alloc);
    let mut place: u64 = 0;
    for old in file {
        bytes.push(if place == at { byte } else { *old })?;
        place = place.saturating_add(1);
    }
    Ok(bytes)
}

// The first bytes.
fn cut(alloc: Global, file: &[u8], size: u64) -> Result<Bytes, NoMemory> {
    let mut bytes = Bytes::new(alloc);
    for byte in file {
        if bytes.len() < size {
            bytes.push(*byte)?;
        }
    }
    Ok(bytes)
}

fn changed_as(alloc: Global, file: &[u8], change: &str) -> Result<Bytes, NoMemory> {
    let (what, number) = pair_of(change);
    if what == "cut" {
        cut(alloc, file, number.parse::<u64>().unwrap_or(0))
    } else {
        let at = what.parse::<u64>().unwrap_or(0);
        changed(alloc, file, at, number.parse::<u8>().unwrap_or(0))
    }
}

// The file that `write` makes of the pairs of a row; none where it would be too large.
fn written(alloc: Global, pairs: &str) -> Result<Bytes, NoMemory> {
    match write(alloc, &pairs_of(alloc, pairs)?) {
        Ok(file) => Ok(file),
        Err(WriteFault::TooLarge) => Ok(Bytes::new(alloc)),
        Err(WriteFault::NoMemory) => Err(NoMemory),
    }
}

// A header in which each table is empty and at no place.
fn zeros(alloc: Global) -> Result<Bytes, NoMemory> {
    let mut file = Bytes::new(alloc);
    for _ in 0..HEADER {
        file.push(0)?;
    }
    Ok(file)
}

/// The file of a row.
pub fn file_of(alloc: Global, text: &str) -> Result<Bytes, NoMemory> {
    let Some((pairs, rest)) = text.split_once(':') else {
        return if text == "zeros" {
            zeros(alloc)
        } else {
            written(alloc, text)
        };
    };
    match rest.split_once(':') {
        None => laid_out(alloc, pairs, rest),
        Some((slots, change)) => {
            changed_as(alloc, laid_out(alloc, pairs, slots)?.as_slice(), change)
        }
    }
}
