//! The rows of a case: its text once more, with the cells of a row in the place of `{column}`.
use crate::lines::first_part;
use crate::refusal::{Fault, Refusal};
use pf_base::{Bytes, NoMemory, cut_at, trimmed};
use std::alloc::Global;

/// A row of a table under the line that names its columns; both are empty for a case without a table.
#[derive(Clone, Copy)]
pub struct Row<'a> {
    columns: &'a [u8],
    cells: &'a [u8],
}

// Whether one of the columns has this name.
fn has_column(columns: &[u8], name: &[u8]) -> bool {
    let mut left = columns;
    for _ in 0..u64::MAX {
        let (column, after) = first_part(left, b'|');
        if trimmed(column) == name {
            return true;
        }
        let Some(after) = after else {
            return false;
        };
        left = after;
    }
    false
}

// Whether two columns have one name.
fn has_twins(columns: &[u8]) -> bool {
    let mut left = columns;
    for _ in 0..u64::MAX {
        let (column, Some(after)) = first_part(left, b'|') else {
            return false;
        };
        if has_column(after, trimmed(column)) {
            return true;
        }
        left = after;
    }
    false
}

// Whether there are as many cells as columns.
fn are_as_many(columns: &[u8], cells: &[u8]) -> bool {
    let mut columns = columns;
    let mut cells = cells;
    for _ in 0..u64::MAX {
        match (cut_at(columns, b'|'), cut_at(cells, b'|')) {
            (Some((_, more_columns)), Some((_, more_cells))) => {
                columns = more_columns;
                cells = more_cells;
            }
            (None, None) => return true,
            _ => return false,
        }
    }
    false
}

impl<'a> Row<'a> {
    /// The row of a case that has none.
    pub fn none() -> Row<'a> {
        Row {
            columns: b"",
            cells: b"",
        }
    }

    /// A row with as many cells as there are columns, which have different names.
    pub fn new(columns: &'a [u8], cells: &'a [u8]) -> Result<Row<'a>, Fault> {
        if has_twins(columns) {
            Err(Fault::Refused(Refusal::Columns))
        } else if are_as_many(columns, cells) {
            Ok(Row { columns, cells })
        } else {
            Err(Fault::Refused(Refusal::Cells))
        }
    }

    // The cell of the column of this name.
    fn cell(&self, name: &[u8]) -> Option<&'a [u8]> {
        let mut columns = self.columns;
        let mut cells = self.cells;
        for _ in 0..u64::MAX {
            let (column, more_columns) = first_part(columns, b'|');
            let (cell, more_cells) = first_part(cells, b'|');
            if !name.is_empty() && trimmed(column) == name {
                return Some(trimmed(cell));
            }
            columns = more_columns?;
            cells = more_cells?;
        }
        None
    }

    // Adds what an opening brace begins, and gives what is after that: a cell, or the brace as it is.
    fn add_braced<'b>(&self, out: &mut Bytes, after: &'b [u8]) -> Result<Filled<'b>, NoMemory> {
        if let Some((name, rest)) = cut_at(after, b'}') {
            if let Some(cell) = self.cell(name) {
                out.extend(cell)?;
                return Ok(Filled {
                    rest,
                    is_cell: true,
                });
            }
        }
        out.push(b'{')?;
        Ok(Filled {
            rest: after,
            is_cell: false,
        })
    }

    // Adds a line with its cells, and says whether there were any.
    fn add_line(&self, out: &mut Bytes, line: &[u8]) -> Result<bool, NoMemory> {
        let mut rest = line;
        let mut has_cells = false;
        for _ in 0..u64::MAX {
            let Some((before, after)) = cut_at(rest, b'{') else {
                out.extend(rest)?;
                return Ok(has_cells);
            };
            out.extend(before)?;
            let filled = self.add_braced(out, after)?;
            has_cells = has_cells || filled.is_cell;
            rest = filled.rest;
        }
        Ok(has_cells)
    }

    // Adds a line and its end, unless it holds nothing but empty cells.
    fn add_filled(&self, out: &mut Bytes, line: &[u8]) -> Result<(), NoMemory> {
        let before = out.len();
        let has_cells = self.add_line(out, line)?;
        if !has_cells || out.len() > before {
            out.push(b'\n')?;
        }
        Ok(())
    }

    /// The text with the cells in their places; a line that holds nothing but empty cells goes away.
    pub fn filled(&self, alloc: Global, text: &[u8]) -> Result<Bytes, NoMemory> {
        let mut out = Bytes::new(alloc);
        let mut left = text;
        for _ in 0..u64::MAX {
            let (line, after) = first_part(left, b'\n');
            self.add_filled(&mut out, line)?;
            let Some(after) = after else {
                break;
            };
            left = after;
        }
        Ok(out)
    }
}

// What is left of a line after a brace, and whether a cell was there.
#[derive(Clone, Copy)]
struct Filled<'b> {
    rest: &'b [u8],
    is_cell: bool,
}
