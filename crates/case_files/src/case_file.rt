//! A case file, parted into what all its cases share and its cases.
use crate::lines::{case_name, first_part, is_silent, section_title};
use pf_base::{Bytes, NoMemory};
use std::alloc::Global;

/// A case as it is written: its statements and sections, and the lines of its table, whose first names the columns.
#[derive(Drop)]
pub struct Case {
    pub name: Bytes,
    pub own: Bytes,
    pub rows: Vec<Bytes>,
    pub tables: u64,
}

/// The text of a case file.
#[derive(Drop)]
pub struct CaseFile {
    pub shared: Bytes,
    pub cases: Vec<Case>,
}

fn add_line(text: &mut Bytes, line: &[u8]) -> Result<(), NoMemory> {
    text.extend(line)?;
    text.push(b'\n')
}

impl Case {
    fn new(alloc: Global, name: &[u8]) -> Result<Case, NoMemory> {
        Ok(Case {
            name: Bytes::from_slice(alloc, name)?,
            own: Bytes::new(alloc),
            rows: Vec::new(alloc),
            tables: 0,
        })
    }

    fn add_row(&mut self, alloc: Global, line: &[u8]) -> Result<(), NoMemory> {
        if !is_silent(line) {
            self.rows.push(Bytes::from_slice(alloc, line)?)?;
        }
        Ok(())
    }

    // Takes a line that begins no case, and says whether it is in a table.
    fn take(&mut self, alloc: Global, line: &[u8], in_rows: bool) -> Result<bool, NoMemory> {
        match section_title(line) {
            Some(b"rows") => {
                self.tables = self.tables.saturating_add(1);
                Ok(true)
            }
            Some(_) => {
                add_line(&mut self.own, line)?;
                Ok(false)
            }
            None => {
                if in_rows {
                    self.add_row(alloc, line)?;
                } else {
                    add_line(&mut self.own, line)?;
                }
                Ok(in_rows)
            }
        }
    }
}

impl CaseFile {
    // Takes a line, and says whether it is in a table.
    fn take(&mut self, alloc: Global, line: &[u8], in_rows: bool) -> Result<bool, NoMemory> {
        if let Some(name) = case_name(line) {
            self.cases.push(Case::new(alloc, name)?)?;
            return Ok(false);
        }
        match self.cases.last_mut() {
            None => {
                add_line(&mut self.shared, line)?;
                Ok(false)
            }
            Some(case) => case.take(alloc, line, in_rows),
        }
    }

    /// Parts the text of a file.
    pub fn read(alloc: Global, text: &[u8]) -> Result<CaseFile, NoMemory> {
        let mut file = CaseFile {
            shared: Bytes::new(alloc),
            cases: Vec::new(alloc),
        };
        let mut in_rows = false;
        let mut left = text;
        for _ in 0..u64::MAX {
            let (line, after) = first_part(left, b'\n');
            in_rows = file.take(alloc, line, in_rows)?;
            let Some(after) = after else {
                break;
            };
            left = after;
        }
        Ok(file)
    }

    /// Whether two cases have one name.
    pub fn has_twins(&self) -> bool {
        let mut left = self.cases.as_slice();
        for _ in 0..u64::MAX {
            let [case, others @ ..] = left else {
                return false;
            };
            if has_named(others, case.name.as_slice()) {
                return true;
            }
            left = others;
        }
        false
    }
}

fn has_named(cases: &[Case], name: &[u8]) -> bool {
    for case in cases {
        if case.name.as_slice() == name {
            return true;
        }
    }
    false
}
