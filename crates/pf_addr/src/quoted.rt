//! Quoted strings of local parts (RFC 5321, 4.1.2).
ghost use Rattle.std.specs.Prelude.{◌≡◌, ◌<◌, ◌==◌, ◌&&◌, ◌||◌, length, false, not, IfOk, IfSome};
ghost use Rattle.std.specs.List.{list_any};
ghost use Rattle.pf_base.specs.Text.Ascii as ascii;
ghost use Rattle.pf_addr.specs.Clauses.Quoted as quoted;

use pf_base::{Bytes, NoMemory};
use std::alloc::Global;

// Whether a byte ends a quoted string; taken says that a backslash is before it.
fn is_closing(taken: bool, b: u8) -> bool
    ensures { result ≡ (not taken && b == ascii.double_quote) }
{
    !taken && b == b'"'
}

// Whether a byte is a backslash that takes the next byte.
pub(crate) fn takes_next(taken: bool, b: u8) -> bool
    ensures { result ≡ (not taken && b == ascii.backslash) }
{
    !taken && b == b'\\'
}

// The place of the quote that closes the string whose first quote is before a text.
pub(crate) fn closing_quote(text: &[u8]) -> Option<usize>
    ensures within { IfSome result (λ n. n < length text.now) }
    ensures place { result ≡ quoted.closing_quote false text.now }
{
    let mut taken = false;
    for (i, b) in text.iter().enumerate() {
        if is_closing(taken, *b) {
            return Some(i);
        }
        taken = takes_next(taken, *b);
    }
    None
}

// Whether the content of a quoted string means no byte.
pub(crate) fn means_nothing(content: &[u8]) -> bool
    ensures { result ≡ (length (quoted.unquoted false content.now) == 0) }
{
    match content {
        [] => true,
        [first] => *first == b'\\',
        [_, _, ..] => false,
    }
}

// Whether a byte is in what the content of a quoted string means.
pub(crate) fn means_byte(content: &[u8], byte: u8) -> bool
    ensures { result ≡ list_any (λ b. b == byte) (quoted.unquoted false content.now) }
{
    let mut taken = false;
    for b in content {
        taken = takes_next(taken, *b);
        if !taken && *b == byte {
            return true;
        }
    }
    false
}

// Whether a quoted string has a quote or a backslash in its content.
pub(crate) fn has_pairs(content: &[u8]) -> bool
    ensures { result ≡ list_any (λ b. b == ascii.double_quote || b == ascii.backslash) content.now }
{
    content.iter().any(|b| *b == b'"' || *b == b'\\')
}

fn has_backslash(content: &[u8]) -> bool
    ensures { result ≡ list_any (λ b. b == ascii.backslash) content.now }
{
    content.contains(&b'\\')
}

// The content of a quoted string without its backslashes.
pub(crate) fn unquoted(alloc: Global, content: &[u8]) -> Result<Bytes, NoMemory>
    ensures { IfOk result (λ bytes. bytes ≡ quoted.unquoted false content.now) }
{
    if !has_backslash(content) {
        return Bytes::from_slice(alloc, content);
    }
    let mut bytes = Bytes::new(alloc);
    let mut taken = false;
    for b in content {
        taken = takes_next(taken, *b);
        if !taken {
            bytes.push(*b)?;
        }
    }
    Ok(bytes)
}
