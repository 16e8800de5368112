//! Results with the groups of a match.
ghost use Rattle.std.specs.Prelude.{◌≡◌, ◌++◌, OnOk};
ghost use Rattle.regex.specs.Strings.{captures_haystack, captures_span};
ghost use Rattle.pf_pcre.specs.Patterns as patterns;

use crate::pieces::Piece;
use pf_base::{Bytes, NoMemory};
use regex::Captures;

// What a group matched; nothing where it took no part.
fn add_group(value: &mut Bytes, captures: &Captures<'_, '_>, group: usize) -> Result<(), NoMemory>
    ensures { OnOk result (value.new ≡ value.old ++ patterns.text_at (captures_haystack captures.now) (captures_span captures.now group)) }
{
    match captures.get(group) {
        Some(part) => value.extend(part.as_str().as_bytes()),
        None => Ok(()),
    }
}

fn add_piece(value: &mut Bytes, captures: &Captures<'_, '_>, piece: Piece) -> Result<(), NoMemory>
    ensures { OnOk result (value.new ≡ value.old ++ patterns.piece_text (captures_haystack captures.now) (captures_span captures.now) piece) }
{
    match piece {
        Piece::Byte(b) => value.push(b),
        Piece::Group(group) => add_group(value, captures, group),
    }
}

/// Adds the pieces of a result, with what its groups matched.
pub(crate) fn expand(
    value: &mut Bytes,
    captures: &Captures<'_, '_>,
    pieces: &[Piece],
) -> Result<(), NoMemory>
    ensures { OnOk result (value.new ≡ value.old ++ patterns.expanded (captures_haystack captures.now) (captures_span captures.now) pieces.now) }
{
    for piece in pieces {
        add_piece(value, captures, *piece)?;
    }
    Ok(())
}
