//! Files that differ from one in a byte, beside what the plain program says of them.
ghost use Rattle.std.specs.Prelude.{◌<◌, length};

use crate::plain;
use pf_base::NoMemory;
use pf_cdb::{check, find};
use std::alloc::Global;

static KEYS: [&[u8]; 8] = [b"aa", b"ii", b"qq", b"g'", b"", b"a", b"ba", b"ij"];

// The value of a key in a file; None where it has none, or where it is damaged.
fn value<'a>(file: &'a [u8], key: &[u8]) -> Option<&'a [u8]> {
    match check(file) {
        Ok(()) => match find(file, key) {
            Some(span) => Some(&file[span.start as usize..span.end as usize]),
            None => None,
        },
        Err(_) => None,
    }
}

// Whether all keys have the values that the plain program finds.
fn has_values(file: &[u8]) -> bool {
    for key in &KEYS {
        if value(file, *key) != plain::value(file, *key) {
            return false;
        }
    }
    true
}

// Whether `check` and `find` say of a file what the plain program does.
fn is_right(file: &[u8]) -> bool {
    match check(file) {
        Err(damage) => plain::first_damage(file) == Some(damage),
        Ok(()) => plain::first_damage(file).is_none() && has_values(file),
    }
}

// How many of three other bytes at a place give a file of which something else is said.
fn wrong_at(file: &mut [u8], place: usize) -> u64
    requires { place < length file.old }
{
    let old = file[place];
    let mut wrong: u64 = 0;
    for byte in [0, 255, old.wrapping_add(1)] {
        file[place] = byte;
        if !is_right(file) {
            wrong = wrong.saturating_add(1);
        }
    }
    file[place] = old;
    wrong
}

/// How many files that differ from this one in a byte something else is said of than the plain program says.
pub fn count_wrong(alloc: Global, whole: &[u8]) -> Result<u64, NoMemory> {
    let mut file = Vec::new(alloc);
    file.extend_from_slice(whole)?;
    let mut wrong: u64 = 0;
    for place in 0..file.len() {
        wrong = wrong.saturating_add(wrong_at(file.as_mut_slice(), place));
    }
    Ok(wrong)
}
