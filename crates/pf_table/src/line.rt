//! A line of a text table: its key and its value (DATABASE_README, texthash; the quotes are postgate's own).
ghost use Rattle.std.specs.Prelude.{◌≡◌, ◌+◌, ◌++◌, ◌==◌, ◌&&◌, ◌<◌, ◌≤◌, Bool, false, Some, Ok, Err, drop, length, not, take, IfSome, MatchResult, OnOk};
ghost use Rattle.std.specs.List.{position_or_len};
ghost use Rattle.std.specs.Option.{option_copied};
ghost use Rattle.pf_base.specs.Text.Ascii as ascii;
ghost use Rattle.pf_base.specs.Text.Space as space;
ghost use Rattle.pf_base.specs.Text.Names.{folded};
ghost use Rattle.pf_table.specs.Clauses.Reading.{pair_with};
ghost use Rattle.pf_table.specs.Line as spec;
ghost use Rattle.pf_table.specs.Tables.{kept_key};

use pf_base::{NoMemory, is_space, trimmed};

/// Why a line has no pair.
#[derive(Clone, Copy, Debug, PartialEq, Eq)]
pub(crate) enum Reason {
    QuoteNotClosed,
    NoValue,
}

impl Reason {
    /// What a refusal names.
    pub(crate) fn text(self) -> &'static [u8]
        ensures { result.now ≡ spec.reason_text self }
    {
        match self {
            Reason::QuoteNotClosed => b"quote not closed",
            Reason::NoValue => b"no value",
        }
    }
}

// Whether a byte ends a quoted text; taken says that a backslash is before it.
fn is_closing(taken: bool, b: u8) -> bool
    ensures { result ≡ (not taken && b == ascii.double_quote) }
{
    !taken && b == b'"'
}

// Whether a byte is a backslash that takes the next byte.
fn takes_next(taken: bool, b: u8) -> bool
    ensures { result ≡ (not taken && b == ascii.backslash) }
{
    !taken && b == b'\\'
}

// The place of the quote that closes the text whose first quote is before it.
fn closing_quote(text: &[u8]) -> Option<usize>
    ensures within { IfSome result (λ n. n < length text.now) }
    ensures place { result ≡ spec.closing_quote false text.now }
{
    let mut taken = false;
    for (i, b) in text.iter().enumerate() {
        if is_closing(taken, *b) {
            return Some(i);
        }
        taken = takes_next(taken, *b);
    }
    None
}

// Adds what is between quotes, without its backslashes.
fn add_unquoted(key: &mut Vec<u8>, content: &[u8]) -> Result<(), NoMemory>
    ensures { OnOk result (key.new.items ≡ key.old.items ++ spec.unquoted false content.now) }
{
    let mut taken = false;
    for b in content {
        taken = takes_next(taken, *b);
        if !taken {
            key.push(*b)?;
        }
    }
    Ok(())
}

// What is after the quote that a line begins with; None where it begins with another byte.
fn behind_quote(text: &[u8]) -> Option<&[u8]>
    ensures { option_copied result ≡ spec.behind_quote text.now }
{
    match text {
        [] => None,
        [first, behind @ ..] => { if *first == b'"' { Some(behind) } else { None } }
    }
}

// Where the first space is, or the length where there is none.
fn key_end(text: &[u8]) -> usize
    ensures within { result ≤ length text.now }
    ensures place { result ≡ position_or_len space.is_space text.now }
{
    for (i, b) in text.iter().enumerate() {
        if is_space(*b) {
            return i;
        }
    }
    text.len()
}

// The parts of a line whose key begins with this, in quotes, and goes on in what is left of the line.
fn parts_behind<'a>(
    quoted: &'a [u8],
    text: &'a [u8],
) -> Result<(&'a [u8], &'a [u8], &'a [u8]), Reason>
    ensures { (folds : Bool) → MatchResult result
        (λ parts. spec.valued (Some (spec.pair_behind folds (spec.unquoted false quoted.now) text.now)) ≡ Ok (pair_with folds parts.0.now parts.1.now parts.2.now))
        (λ reason. spec.valued (Some (spec.pair_behind folds (spec.unquoted false quoted.now) text.now)) ≡ Err reason) }
{
    let end = key_end(text);
    let value = trimmed(&text[end..]);
    if 0 < value.len() {
        Ok((quoted, &text[..end], value))
    } else {
        Err(Reason::NoValue)
    }
}

// What is before a byte, and what is after it.
fn around(text: &[u8], place: usize) -> (&[u8], &[u8])
    requires { place < length text.now }
    ensures before { result.0.now ≡ take place text.now }
    ensures after { result.1.now ≡ drop (place + 1) text.now }
{
    (&text[..place], &text[place + 1..])
}

// The parts of a line that begins with a quote, by what is after that.
fn quoted_parts(text: &[u8]) -> Result<(&[u8], &[u8], &[u8]), Reason>
    ensures { (folds : Bool) → MatchResult result
        (λ parts. spec.valued (spec.quoted_pair folds text.now) ≡ Ok (pair_with folds parts.0.now parts.1.now parts.2.now))
        (λ reason. spec.valued (spec.quoted_pair folds text.now) ≡ Err reason) }
{
    match closing_quote(text) {
        None => Err(Reason::QuoteNotClosed),
        Some(place) => {
            let (quoted, behind) = around(text, place);
            parts_behind(quoted, behind)
        }
    }
}

/// The parts of a line, or why it has no pair: what is in the quotes that it may begin with, what its key goes on with up to the
/// first space after them, and its value, which is what is left, without space at its ends.
pub(crate) fn parts_of(text: &[u8]) -> Result<(&[u8], &[u8], &[u8]), Reason>
    ensures { (folds : Bool) → MatchResult result
        (λ parts. spec.pair_of folds text.now ≡ Ok (pair_with folds parts.0.now parts.1.now parts.2.now))
        (λ reason. spec.pair_of folds text.now ≡ Err reason) }
{
    match behind_quote(text) {
        None => parts_behind(&[], text),
        Some(behind) => quoted_parts(behind),
    }
}

// Makes the letters A to Z of a text small.
fn make_small(text: &mut [u8])
    ensures { text.new ≡ folded text.old }
{
    for i in 0..text.len() {
        text[i] = text[i].to_ascii_lowercase();
    }
}

/// Writes the key of a line, as a table keeps it, over what is in `key`: what is in quotes, without the backslashes that take a byte,
/// and what it goes on with.
pub(crate) fn write_key(
    key: &mut Vec<u8>,
    folds: bool,
    quoted: &[u8],
    plain: &[u8],
) -> Result<(), NoMemory>
    ensures { OnOk result (key.new.items ≡ kept_key folds (spec.unquoted false quoted.now ++ plain.now)) }
{
    key.clear();
    add_unquoted(key, quoted)?;
    key.extend_from_slice(plain)?;
    if folds {
        make_small(key.as_mut_slice());
    }
    Ok(())
}
