//! The lines of a case file: which of them are titles, and the numbers in them.
use pf_base::{cut_at, trimmed, without_return};

/// The greatest number that a statement or an escape may have.
const MOST: u64 = 4_294_967_296;

/// The first part of a text that such bytes part, and what is after the byte that ends it; None where no such byte does.
pub fn first_part(text: &[u8], byte: u8) -> (&[u8], Option<&[u8]>) {
    match cut_at(text, byte) {
        None => (text, None),
        Some((part, after)) => (part, Some(after)),
    }
}

// What is between two marks, without the blanks round it; blanks and a CR after the second mark do not count.
fn between<'a>(line: &'a [u8], prefix: &[u8], end: &[u8]) -> Option<&'a [u8]> {
    if !line.starts_with(prefix) {
        return None;
    }
    match trimmed(without_return(line)).strip_prefix(prefix) {
        None => None,
        Some(rest) => match rest.strip_suffix(end) {
            None => None,
            Some(inner) => Some(trimmed(inner)),
        },
    }
}

/// The name in a line that begins a case.
pub fn case_name(line: &[u8]) -> Option<&[u8]> {
    between(line, b"== ", b" ==")
}

/// The title in a line that begins a section.
pub fn section_title(line: &[u8]) -> Option<&[u8]> {
    between(line, b"-- ", b" --")
}

/// Outside of sections and among rows such a line says nothing.
pub fn is_silent(line: &[u8]) -> bool {
    trimmed(line).is_empty() || line.starts_with(b"#")
}

/// The number that these digits write.
pub fn number(digits: &[u8]) -> Option<u64> {
    let mut number: u64 = 0;
    for digit in digits {
        if !digit.is_ascii_digit() || number > MOST {
            return None;
        }
        number = number
            .saturating_mul(10)
            .saturating_add(u64::from(digit.wrapping_sub(b'0')));
    }
    if digits.is_empty() || number > MOST {
        None
    } else {
        Some(number)
    }
}
