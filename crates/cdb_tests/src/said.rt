//! What is said of a file that a row describes, by the kinds of rows:
//!
//! - `hash`: the hash of the text
//! - `size`: how many bytes the file has
//! - `check`, `list` and `ask KEY`: what the program prints of the file
//! - `kept KEY`: the value of a key in a file that is kept, `none`, or the line of its damage
//! - `answer KEY`: the same, of the key or of the key with a null byte after it
//! - `pairs` and `listed`: the lines of the pairs of a file that is kept; in `listed` without the null
//!   bytes after a key and its value, where both have one
//! - `made`: whether `write` makes this file of its pairs, and a writer does to which they are added
//! - `repeats`: whether a writer says that a key comes more than once in some pairs
//! - `large`: how many bytes the file of one pair has whose key is empty and whose value has so many bytes, or `too large`, as
//!   `write` makes it and as a writer does
//! - `sweep`: of how many files that differ from this one in a byte something else is said than the plain program says
use crate::asking::{add_number, ask, damage_line, list};
use crate::described::file_of;
use crate::kept::{Question, add_kept};
use crate::made::{add_large, add_made, add_repeats};
use crate::sweep::count_wrong;
use pf_base::{Bytes, NoMemory};
use pf_cdb::hash;
use row_files::Says;
use std::alloc::Global;

// Adds what is said of a file.
fn add_of_file(
    alloc: Global,
    said: &mut Bytes,
    kind: &str,
    key: &[u8],
    file: Bytes,
) -> Result<(), NoMemory> {
    match kind {
        "size" => add_number(alloc, said, file.len()),
        "check" => said.extend(damage_line(alloc, file.as_slice())?.as_slice()),
        "list" => said.extend(list(alloc, file.as_slice())?.as_slice()),
        "ask" => said.extend(ask(alloc, file.as_slice(), key)?.as_slice()),
        "sweep" => add_number(alloc, said, count_wrong(alloc, file.as_slice())?),
        "kept" => add_kept(alloc, said, file, Question::Value(key)),
        "answer" => add_kept(alloc, said, file, Question::Answer(key)),
        "pairs" => add_kept(alloc, said, file, Question::Pairs),
        "listed" => add_kept(alloc, said, file, Question::Listed),
        _ => said.extend(b"no such kind"),
    }
}

/// Says what pf_cdb says of texts.
#[derive(Drop)]
pub struct Files;

impl Says for Files {
    fn say(
        &mut self,
        alloc: Global,
        said: &mut Bytes,
        prefix: &str,
        text: &str,
    ) -> Result<(), NoMemory> {
        let (kind, key) = prefix.split_once(' ').unwrap_or((prefix, ""));
        match kind {
            "hash" => add_number(alloc, said, u64::from(hash(text.as_bytes()))),
            "made" => add_made(alloc, said, text),
            "repeats" => add_repeats(alloc, said, text),
            "large" => add_large(alloc, said, text.parse::<usize>().unwrap_or(0)),
            _ => add_of_file(alloc, said, kind, key.as_bytes(), file_of(alloc, text)?),
        }
    }
}
