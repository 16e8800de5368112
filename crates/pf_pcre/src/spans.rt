//! Results with the groups of a match by its cells.
ghost use Rattle.std.specs.Prelude.{◌≡◌, ◌++◌, OnOk, slice_range, true};
ghost use Rattle.std.specs.List.{list_all};
ghost use Rattle.pf_pcre.specs.Patterns as patterns;
ghost use Rattle.pf_pcre.specs.Clauses.Sights as sights;

use crate::pieces::Piece;
use pf_base::{Bytes, NoMemory};

// The place that a cell holds.
fn place_of(cell: usize) -> Option<usize>
    ensures { result ≡ sights.place_of cell }
{
    if cell == 0 { None } else { Some(cell - 1) }
}

// Whether cells say where a group is.
fn has_cells(cells: &[usize], group: usize) -> bool
    ensures { result ≡ sights.has_cells cells.now group }
{
    group <= cells.len() / 2
}

// Whether cells say where the groups of all pieces are.
pub(crate) fn have_cells(cells: &[usize], pieces: &[Piece]) -> bool
    ensures { result ≡ list_all (sights.piece_has_cells cells.now) pieces.now }
{
    pieces.iter().all(|piece| piece_has_cells(cells, *piece))
}

fn piece_has_cells(cells: &[usize], piece: Piece) -> bool
    ensures { result ≡ sights.piece_has_cells cells.now piece }
{
    match piece {
        Piece::Byte(_) => true,
        Piece::Group(group) => has_cells(cells, group),
    }
}

// Adds the bytes from one place to another.
fn add_part(value: &mut Bytes, text: &[u8], from: usize, to: usize) -> Result<(), NoMemory>
    ensures { OnOk result (value.new ≡ value.old ++ slice_range text.now from to) }
{
    let to = to.min(text.len());
    if from < to {
        value.extend(&text[from..to])
    } else {
        Ok(())
    }
}

// Where a group is, if it took part.
fn span_by(from: usize, to: usize, cells: &[usize], group: usize) -> Option<(usize, usize)>
    requires { sights.has_cells cells.now group ≡ true }
    ensures { result ≡ sights.span_by from to cells.now group }
{
    if group == 0 {
        return Some((from, to));
    }
    let start = place_of(cells[2 * group - 2])?;
    let end = place_of(cells[2 * group - 1])?;
    Some((start, end))
}

fn add_piece(
    value: &mut Bytes,
    text: &[u8],
    from: usize,
    to: usize,
    cells: &[usize],
    piece: Piece,
) -> Result<(), NoMemory>
    requires { sights.piece_has_cells cells.now piece ≡ true }
    ensures { OnOk result (value.new ≡ value.old ++ patterns.piece_text text.now (sights.span_by from to cells.now) piece) }
{
    match piece {
        Piece::Byte(b) => value.push(b),
        Piece::Group(group) => match span_by(from, to, cells, group) {
            Some((start, end)) => add_part(value, text, start, end),
            None => Ok(()),
        },
    }
}

/// Adds the pieces of a result, with what the groups matched in a text, where a match is from one place to another.
pub(crate) fn expand_by(
    value: &mut Bytes,
    text: &[u8],
    from: usize,
    to: usize,
    cells: &[usize],
    pieces: &[Piece],
) -> Result<(), NoMemory>
    requires { list_all (sights.piece_has_cells cells.now) pieces.now ≡ true }
    ensures { OnOk result (value.new ≡ value.old ++ patterns.expanded text.now (sights.span_by from to cells.now) pieces.now) }
{
    for piece in pieces {
        add_piece(value, text, from, to, cells, *piece)?;
    }
    Ok(())
}
