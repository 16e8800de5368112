//! What the program answers: the bytes that it prints.
ghost use Rattle.pf_cdb.specs.Sound.{IsSound};

use pf_base::{Bytes, List, NoMemory, Pair, after_byte, before_byte, decimal};
use pf_cdb::{Damage, WriteFault, Writer, Written, check, elements, find};
use std::alloc::Global;

// A writer to which the pairs of a text are added.
fn with_lines(alloc: Global, text: &[u8]) -> Result<Writer, WriteFault> {
    let mut writer = Writer::new(alloc)?;
    for line in text.split(|byte| *byte == b'\n') {
        if line.len() > 0 {
            writer = writer.add(before_byte(line, b' '), after_byte(line, b' '))?;
        }
    }
    Ok(writer)
}

fn written(alloc: Global, text: &[u8]) -> Result<Bytes, WriteFault> {
    let Written { bytes, .. } = with_lines(alloc, text)?.finish(alloc)?;
    Ok(bytes)
}

/// The file for the pairs of a text.
pub fn build(alloc: Global, text: &[u8]) -> Result<Bytes, NoMemory> {
    match written(alloc, text) {
        Ok(file) => Ok(file),
        Err(WriteFault::TooLarge) => Bytes::from_slice(alloc, b"too large\n"),
        Err(WriteFault::NoMemory) => Err(NoMemory),
    }
}

/// Adds a number in digits.
pub fn add_number(alloc: Global, text: &mut Bytes, number: u64) -> Result<(), NoMemory> {
    text.extend(decimal(alloc, number)?.as_bytes())
}

fn add_place(alloc: Global, text: &mut Bytes, number: u32) -> Result<(), NoMemory> {
    text.push(b' ')?;
    add_number(alloc, text, u64::from(number))
}

fn kind(damage: Damage) -> &'static str {
    match damage {
        Damage::Header => "header",
        Damage::TableRange { .. } => "table",
        Damage::SlotRange { .. } => "slot",
        Damage::RecordRange { .. } => "record",
        Damage::WrongHash { .. } => "hash",
    }
}

// The table or the place of a damage, and its slot; 0 where it has none.
fn place(damage: Damage) -> (u32, u32) {
    match damage {
        Damage::Header => (0, 0),
        Damage::TableRange { table } => (table, 0),
        Damage::SlotRange { table, slot } | Damage::WrongHash { table, slot } => (table, slot),
        Damage::RecordRange { at } => (at, 0),
    }
}

/// Adds a damage as a line: its kind and where it is.
pub fn add_damage(alloc: Global, line: &mut Bytes, damage: Damage) -> Result<(), NoMemory> {
    let (place, slot) = place(damage);
    line.extend(kind(damage).as_bytes())?;
    add_place(alloc, line, place)?;
    add_place(alloc, line, slot)?;
    line.push(b'\n')
}

/// What is wrong with a file: nothing, or its damage in a line.
pub fn damage_line(alloc: Global, file: &[u8]) -> Result<Bytes, NoMemory> {
    let mut line = Bytes::new(alloc);
    if let Err(damage) = check(file) {
        add_damage(alloc, &mut line, damage)?;
    }
    Ok(line)
}

/// Adds pairs, each in a line.
pub fn add_pairs(text: &mut Bytes, pairs: &List<Pair>) -> Result<(), NoMemory> {
    for pair in pairs.as_slice() {
        text.extend_all(&[pair.key.as_slice(), b" ", pair.value.as_slice(), b"\n"])?;
    }
    Ok(())
}

/// The pairs of a file, each in a line; no line where it is damaged.
pub fn list(alloc: Global, file: &[u8]) -> Result<Bytes, NoMemory> {
    let mut text = Bytes::new(alloc);
    if let Ok(()) = check(file) {
        add_pairs(&mut text, &elements(alloc, file)?)?;
    }
    Ok(text)
}

// Adds the value of a key as a line, where the file has it.
fn add_value(text: &mut Bytes, file: &[u8], key: &[u8]) -> Result<(), NoMemory>
    requires { IsSound file.now }
{
    match find(file, key) {
        Some(span) => {
            text.extend(&file[span.start as usize..span.end as usize])?;
            text.push(b'\n')
        }
        None => Ok(()),
    }
}

fn add_values(text: &mut Bytes, file: &[u8], keys: &[u8]) -> Result<(), NoMemory>
    requires { IsSound file.now }
{
    for key in keys.split(|byte| *byte == b'\n') {
        if key.len() > 0 {
            add_value(text, file, key)?;
        }
    }
    Ok(())
}

/// The values of some keys, each in a line; no line where the file is damaged.
pub fn ask(alloc: Global, file: &[u8], keys: &[u8]) -> Result<Bytes, NoMemory> {
    let mut text = Bytes::new(alloc);
    if let Ok(()) = check(file) {
        add_values(&mut text, file, keys)?;
    }
    Ok(text)
}
