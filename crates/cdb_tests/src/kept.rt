//! What is said of a file that is kept.
use crate::asking::{add_damage, add_pairs};
use pf_base::{Bytes, NoMemory};
use pf_cdb::CdbFile;
use std::alloc::Global;

/// What is asked of a kept file: the value of a key, or of the key with a null byte after it, its pairs, or its pairs without
/// null bytes at their ends.
#[derive(Clone, Copy)]
pub enum Question<'a> {
    Value(&'a [u8]),
    Answer(&'a [u8]),
    Pairs,
    Listed,
}

fn add_found(said: &mut Bytes, found: Option<&[u8]>) -> Result<(), NoMemory> {
    match found {
        None => said.extend(b"none"),
        Some(value) => said.extend(value),
    }
}

fn ask(
    alloc: Global,
    said: &mut Bytes,
    file: &CdbFile,
    question: Question<'_>,
) -> Result<(), NoMemory> {
    match question {
        Question::Value(key) => add_found(said, file.value(key)),
        Question::Answer(key) => add_found(said, file.answer(alloc, key)?),
        Question::Pairs => add_pairs(said, &file.pairs(alloc)?),
        Question::Listed => add_pairs(said, &file.listed(alloc)?),
    }
}

/// Adds what a file says that is kept, or its damage.
pub fn add_kept(
    alloc: Global,
    said: &mut Bytes,
    bytes: Bytes,
    question: Question<'_>,
) -> Result<(), NoMemory> {
    match CdbFile::new(bytes) {
        Ok(file) => ask(alloc, said, &file, question),
        Err(damage) => add_damage(alloc, said, damage),
    }
}
