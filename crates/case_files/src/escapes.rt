//! Escapes in the lines of a section.
use crate::lines::number;
use crate::refusal::{Fault, Refusal};
use pf_base::{Bytes, cut_at};

// The value of a hexadecimal digit.
fn hexadecimal(digit: u8) -> Option<u8> {
    match digit {
        b'0'..=b'9' => Some(digit.wrapping_sub(b'0')),
        b'a'..=b'f' => Some(digit.wrapping_sub(b'a').wrapping_add(10)),
        b'A'..=b'F' => Some(digit.wrapping_sub(b'A').wrapping_add(10)),
        _ => None,
    }
}

// The byte of two hexadecimal digits.
fn byte_of(high: u8, low: u8) -> Result<u8, Fault> {
    match (hexadecimal(high), hexadecimal(low)) {
        (Some(high), Some(low)) => Ok(high.wrapping_mul(16).wrapping_add(low)),
        _ => Err(Fault::Refused(Refusal::Escape)),
    }
}

// Adds a byte so many times, as `A x 2049` says.
fn add_repeated(out: &mut Bytes, written: &[u8]) -> Result<(), Fault> {
    let [byte, b' ', b'x', b' ', digits @ ..] = written else {
        return Err(Fault::Refused(Refusal::Escape));
    };
    let Some(times) = number(digits) else {
        return Err(Fault::Refused(Refusal::Escape));
    };
    for _ in 0..times {
        out.push(*byte)?;
    }
    Ok(())
}

// Adds what is in braces after a backslash, and gives what is after them.
fn add_braced<'a>(out: &mut Bytes, after: &'a [u8]) -> Result<&'a [u8], Fault> {
    match cut_at(after, b'}') {
        None => Err(Fault::Refused(Refusal::Escape)),
        Some((written, rest)) => {
            add_repeated(out, written)?;
            Ok(rest)
        }
    }
}

// The byte that a letter after a backslash stands for.
fn letter_byte(letter: u8) -> Result<u8, Fault> {
    match letter {
        b'n' => Ok(b'\n'),
        b'r' => Ok(b'\r'),
        b't' => Ok(b'\t'),
        b's' => Ok(b' '),
        b'\\' => Ok(b'\\'),
        _ => Err(Fault::Refused(Refusal::Escape)),
    }
}

// Adds what the text after a backslash stands for, and gives what is after that.
fn add_escape<'a>(out: &mut Bytes, after: &'a [u8]) -> Result<&'a [u8], Fault> {
    match after {
        [] => Err(Fault::Refused(Refusal::Escape)),
        [b'x', high, low, rest @ ..] => {
            out.push(byte_of(*high, *low)?)?;
            Ok(rest)
        }
        [b'{', rest @ ..] => add_braced(out, rest),
        [letter, rest @ ..] => {
            out.push(letter_byte(*letter)?)?;
            Ok(rest)
        }
    }
}

/// Adds a line with its escapes read, and says whether a line end follows.
pub fn add_unescaped(out: &mut Bytes, line: &[u8]) -> Result<bool, Fault> {
    let mut rest = line;
    for _ in 0..u64::MAX {
        let Some((before, after)) = cut_at(rest, b'\\') else {
            out.extend(rest)?;
            return Ok(true);
        };
        out.extend(before)?;
        if after == b"c".as_slice() {
            return Ok(false);
        }
        rest = add_escape(out, after)?;
    }
    Ok(true)
}
