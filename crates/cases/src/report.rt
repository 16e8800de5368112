//! What is printed: a line a file, and a line for each difference.
use pf_base::{Bytes, NoMemory, decimal};
use std::alloc::Global;

/// The most bytes of a text that a difference shows.
pub const SHOWN: usize = 2000;

/// What was counted and seen so far: the lines of the files that are done, and the differences of the file that is not.
#[derive(Drop)]
pub struct Report {
    pub text: Bytes,
    pub found: Bytes,
    pub cases: u64,
    pub rows: u64,
    pub runs: u64,
    pub differences: u64,
}

impl Report {
    pub fn new(alloc: Global) -> Report {
        Report {
            text: Bytes::new(alloc),
            found: Bytes::new(alloc),
            cases: 0,
            rows: 0,
            runs: 0,
            differences: 0,
        }
    }
}

/// Adds a number to a text.
pub fn add_number(alloc: Global, text: &mut Bytes, number: u64) -> Result<(), NoMemory> {
    let digits = decimal(alloc, number)?;
    text.extend(digits.as_bytes())
}

fn hexadecimal(digit: u8) -> u8 {
    if digit < 10 {
        b'0'.wrapping_add(digit)
    } else {
        b'a'.wrapping_add(digit.wrapping_sub(10))
    }
}

fn add_shown_byte(text: &mut Bytes, byte: u8) -> Result<(), NoMemory> {
    match byte {
        b'\n' => text.extend(b"\\n"),
        b'\r' => text.extend(b"\\r"),
        b'\\' => text.extend(b"\\\\"),
        b' '..=b'~' => text.push(byte),
        _ => text.extend_all(&[b"\\x", &[hexadecimal(byte / 16), hexadecimal(byte % 16)]]),
    }
}

/// Adds a text as escapes write it from this place on, cut after some length.
pub fn add_shown(text: &mut Bytes, bytes: &[u8], from: usize) -> Result<(), NoMemory> {
    if from > 0 {
        text.extend(b"..")?;
    }
    for byte in bytes.iter().skip(from).take(SHOWN) {
        add_shown_byte(text, *byte)?;
    }
    Ok(())
}
