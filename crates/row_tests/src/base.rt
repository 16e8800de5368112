//! What pf_base says of texts, by the kinds of its rows:
//!
//! - `bytes`: what bytes hold that were made of the first part of the text (`|` parts it), one byte, a piece and three pieces,
//!   then their copy, and their length once they are cleared
//! - `list`: the bytes of the text, taken from the end of a list
//! - `refusal`: the line that says that a file is not there; the text is its name and a name
//! - `words`: the words of the text, each with a bar after it, or where a brace is that has no partner
//! - `brace`: where the text has its first closing brace without a partner
//! - `texts`: the line of a table text and the text, among those of main.cf; without a text, how many these are, and the file
//! - `folded`: the text in small letters
use crate::add_number;
use pf_base::{
    Bytes, Cause, List, NoMemory, Refused, Specs, WordsFault, closing_brace, cut_at, fold, words_of,
};
use std::alloc::Global;

// A text parted at its first bar.
fn parts(text: &[u8]) -> (&[u8], &[u8]) {
    cut_at(text, b'|').unwrap_or((text, b""))
}

// Adds what bytes hold that grow by a byte, a piece and three pieces, what their copy holds, and their length once they are
// cleared.
fn add_bytes(alloc: Global, said: &mut Bytes, text: &[u8]) -> Result<(), NoMemory> {
    let (first, rest) = parts(text);
    let (byte, rest) = parts(rest);
    let (piece, rest) = parts(rest);
    let (one, rest) = parts(rest);
    let (two, three) = parts(rest);
    let mut bytes = Bytes::from_slice(alloc, first)?;
    bytes.push(byte.first().copied().unwrap_or(b'?'))?;
    bytes.extend(piece)?;
    bytes.extend_all(&[one, two, three])?;
    said.extend_all(&[bytes.as_slice(), b"|"])?;
    said.extend_all(&[bytes.copy(alloc)?.as_slice(), b"|"])?;
    bytes.clear();
    add_number(alloc, said, bytes.len())
}

// Adds the bytes of a text, taken from the end of a list.
fn add_list(alloc: Global, said: &mut Bytes, text: &[u8]) -> Result<(), NoMemory> {
    let mut list = List::new(alloc);
    for byte in text {
        list.push(u64::from(*byte))?;
    }
    for _ in 0..u64::MAX {
        match list.pop() {
            None => return Ok(()),
            Some(number) => said.push(if number < 256 { number as u8 } else { b'?' })?,
        }
    }
    Ok(())
}

// Adds the line that says that a file is not there.
fn add_refusal(alloc: Global, said: &mut Bytes, text: &[u8]) -> Result<(), NoMemory> {
    let (file, name) = parts(text);
    let refused = Refused {
        file: Bytes::from_slice(alloc, file)?,
        line: 0,
        cause: Cause::C10,
        name: Bytes::from_slice(alloc, name)?,
    };
    said.extend(refused.line(alloc)?.as_slice())
}

// Adds the words of a value, each with a bar after it, or where a brace is that has no partner.
fn add_words(alloc: Global, said: &mut Bytes, text: &[u8]) -> Result<(), NoMemory> {
    match words_of(alloc, text) {
        Err(WordsFault::NoMemory) => Err(NoMemory),
        Err(WordsFault::Unbalanced { at }) => {
            said.extend(b"brace ")?;
            add_number(alloc, said, at)
        }
        Ok(words) => {
            for word in words.as_slice() {
                said.extend_all(&[word.as_slice(), b"|"])?;
            }
            Ok(())
        }
    }
}

// Adds where the first closing brace without a partner is.
fn add_brace(alloc: Global, said: &mut Bytes, text: &[u8]) -> Result<(), NoMemory> {
    match closing_brace(text) {
        None => said.extend(b"none"),
        Some(place) => add_number(alloc, said, place as u64),
    }
}

// Adds the line of a table text, and the text.
fn add_text(alloc: Global, said: &mut Bytes, specs: &Specs, text: &[u8]) -> Result<(), NoMemory> {
    match specs.id(text) {
        None => said.extend(b"none"),
        Some(id) => {
            add_number(alloc, said, specs.line(id))?;
            said.extend_all(&[b" ", specs.text(id).as_slice()])
        }
    }
}

// Adds what table texts say that were named in three settings, one of them twice; without a text, how many these are and the
// file of their settings.
fn add_texts(alloc: Global, said: &mut Bytes, text: &[u8]) -> Result<(), NoMemory> {
    let mut specs = Specs::new(alloc, Bytes::from_slice(alloc, b"main.cf")?);
    specs.add(alloc, 2, b"cdb:a")?;
    specs.add(alloc, 3, b"inline:{b=1}")?;
    specs.add(alloc, 5, b"cdb:a")?;
    if !text.is_empty() {
        return add_text(alloc, said, &specs, text);
    }
    add_number(alloc, said, specs.len())?;
    said.extend_all(&[b" ", specs.file().as_slice()])
}

/// Adds what is said of a text, of what a kind of row asks.
pub fn add_said(alloc: Global, said: &mut Bytes, kind: &str, text: &[u8]) -> Result<(), NoMemory> {
    match kind {
        "bytes" => add_bytes(alloc, said, text),
        "list" => add_list(alloc, said, text),
        "refusal" => add_refusal(alloc, said, text),
        "words" => add_words(alloc, said, text),
        "brace" => add_brace(alloc, said, text),
        "texts" => add_texts(alloc, said, text),
        "folded" => said.extend(fold(alloc, text)?.as_slice()),
        _ => said.extend(b"no such kind"),
    }
}
