//! Results, in which groups of a pattern are (pcre_table(5)).
ghost use Rattle.std.specs.Prelude.{◌≡◌, ◌<◌, ◌≤◌, true, length, option_map, IfOk, IfSome};
ghost use Rattle.std.specs.Char.{is_ascii_digit};
ghost use Rattle.std.specs.List.{list_all, prefix_len};
ghost use Rattle.pf_pcre.specs.Pieces as spec;
ghost use Rattle.pf_pcre.specs.Clauses.Shown.{first_shown};

use pf_base::{List, NoMemory};
use std::alloc::Global;

/// A piece of a result.
#[derive(Clone, Copy, Debug, PartialEq, Eq)]
pub(crate) enum Piece {
    /// This byte.
    Byte(u8),
    /// What the group of this number matched, from 1; nothing where it took no part.
    Group(usize),
}

fn has_digits(text: &[u8]) -> bool
    ensures { result ≡ list_all is_ascii_digit text.now }
{
    text.iter().all(|b| b.is_ascii_digit())
}

// Whether a text is digits, at least one.
fn is_number(text: &[u8]) -> bool
    ensures { result ≡ spec.is_number text.now }
{
    0 < text.len() && has_digits(text)
}

// The number of a group, if there are so many.
fn within(groups: usize, number: usize) -> Option<usize>
    ensures { result ≡ spec.within groups number }
{
    if 0 < number && number <= groups {
        Some(number)
    } else {
        None
    }
}

// The group that digits name; None where the text is no number or there is no such group.
fn group_of(groups: usize, text: &[u8]) -> Option<usize>
    ensures { result ≡ spec.group_of groups text.now }
{
    if !is_number(text) {
        return None;
    }
    let Ok(digits) = str::from_utf8(text) else {
        unreachable!();
    };
    match digits.parse::<usize>() {
        Ok(number) => within(groups, number),
        Err(_) => None,
    }
}

// How many digits a text begins with.
fn digits_len(text: &[u8]) -> usize
    ensures within { result ≤ length text.now }
    ensures count { result ≡ prefix_len is_ascii_digit text.now }
{
    for (i, b) in text.iter().enumerate() {
        if !b.is_ascii_digit() {
            return i;
        }
    }
    text.len()
}

// Where a byte is.
fn place_of(text: &[u8], byte: u8) -> Option<usize>
    ensures within { IfSome result (λ n. n < length text.now) }
    ensures place { result ≡ spec.place_of byte text.now }
{
    for (i, b) in text.iter().enumerate() {
        if *b == byte {
            return Some(i);
        }
    }
    None
}

// The group whose number is the digits at the start of a text, and what is after them.
fn open_group(groups: usize, text: &[u8]) -> Option<(Piece, &[u8])>
    ensures { option_map first_shown result ≡ spec.open_group groups text.now }
{
    let place = digits_len(text);
    let group = group_of(groups, &text[..place])?;
    Some((Piece::Group(group), &text[place..]))
}

// The group whose number is before a closing byte, and what is after that.
fn closed_group(groups: usize, close: u8, text: &[u8]) -> Option<(Piece, &[u8])>
    ensures { option_map first_shown result ≡ spec.closed_group groups close text.now }
{
    let place = place_of(text, close)?;
    let group = group_of(groups, &text[..place])?;
    Some((Piece::Group(group), &text[place + 1..]))
}

// The piece that a dollar sign begins, and what is after it.
fn behind_dollar(groups: usize, text: &[u8]) -> Option<(Piece, &[u8])>
    ensures { option_map first_shown result ≡ spec.behind_dollar groups text.now }
{
    match text {
        [b'$', rest @ ..] => Some((Piece::Byte(b'$'), rest)),
        [b'{', rest @ ..] => closed_group(groups, b'}', rest),
        [b'(', rest @ ..] => closed_group(groups, b')', rest),
        _ => open_group(groups, text),
    }
}

// The first piece of a text, and what is after it; None where there is none.
fn first_piece(groups: usize, text: &[u8]) -> Option<(Piece, &[u8])>
    ensures { option_map first_shown result ≡ spec.first_piece groups text.now }
{
    match text {
        [] => None,
        [first, rest @ ..] => {
            if *first == b'$' {
                behind_dollar(groups, rest)
            } else {
                Some((Piece::Byte(*first), rest))
            }
        }
    }
}

/// The pieces of a result whose pattern has so many groups (pcre_table(5)): `$1`, `${1}` and `$(1)` are a group, `$$` is a
/// dollar sign. None where it names a group that is not there, or has another dollar sign.
pub(crate) fn pieces_of(
    alloc: Global,
    groups: usize,
    text: &[u8],
) -> Result<Option<List<Piece>>, NoMemory>
    ensures { IfOk result (λ pieces. pieces ≡ spec.pieces_of groups text.now) }
{
    let mut pieces = List::new(alloc);
    let mut rest = text;
    // Each piece takes at least a byte.
    for _place in 0..text.len() {
        if rest.is_empty() {
            return Ok(Some(pieces));
        }
        let Some((piece, behind)) = first_piece(groups, rest) else {
            return Ok(None);
        };
        pieces.push(piece)?;
        rest = behind;
    }
    if rest.is_empty() {
        Ok(Some(pieces))
    } else {
        Ok(None)
    }
}
