//! The edit of a main.cf's text.
ghost use Rattle.std.specs.Prelude.{◌≡◌, ◌==◌, ◌++◌, map, filter, IfOk, OnOk};
ghost use Rattle.std.specs.List.{fold};
ghost use Rattle.std.specs.Option.{option_copied};
ghost use Rattle.pf_base.specs.Clauses.Unless.{Unless};
ghost use Rattle.pf_maincf.specs.Edit as edit;
ghost use Rattle.pf_maincf.specs.Edit.{AreAssignments, IsEditOf, edited, assignment_line, with_line};
ghost use Rattle.pf_maincf.specs.Clauses.Editing as editing;
ghost use Rattle.pf_base.specs.Clauses.Faults.{as_fault};

use crate::maincf::MainCf;
use crate::setting::Setting;
use pf_base::{
    Bytes, ConfFault, List, NoMemory, first_line, is_ignored, starts_with_space, without_return,
};
use std::alloc::Global;

// Whether a line begins a logical line.
fn begins_logical(line: &[u8]) -> bool
    ensures { result ≡ edit.begins_logical line.now }
{
    let line = without_return(line);
    !is_ignored(line) && !starts_with_space(line)
}

// Adds the line that sets a name.
fn add_assignment(text: &mut Bytes, assignment: &Setting) -> Result<(), NoMemory>
    ensures { OnOk result (text.new ≡ text.old ++ assignment_line assignment.now) }
{
    text.extend(assignment.name.as_slice())?;
    text.extend(b" = ")?;
    text.extend(assignment.value.as_slice())?;
    text.push(b'\n')
}

// The first assignment of this line.
fn assignment_at(assignments: &[Setting], line: u64) -> Option<&Setting>
    ensures { option_copied result ≡ edit.assignment_at assignments.now line }
{
    assignments
        .iter()
        .find(|assignment| assignment.line == line)
}

// The assignment at the logical line of this line; `assignment` is that of the line before.
fn assignment_from<'a>(
    assignments: &'a [Setting],
    assignment: Option<&'a Setting>,
    number: u64,
    line: &[u8],
) -> Option<&'a Setting>
    ensures { option_copied result ≡ editing.assignment_from assignments.now (option_copied assignment.entry) number line.now }
{
    if begins_logical(line) {
        assignment_at(assignments, number)
    } else {
        assignment
    }
}

// Adds what a line of the text leaves, with this assignment at its logical line.
fn add_line(
    text: &mut Bytes,
    assignment: Option<&Setting>,
    line: &[u8],
    feed: &[u8],
) -> Result<(), NoMemory>
    ensures { OnOk result (text.new ≡ text.old ++ editing.line_left (option_copied assignment.entry) (record { text = line.now; feed = feed.now })) }
{
    if let Some(assignment) = assignment {
        if begins_logical(line) {
            return add_assignment(text, assignment);
        }
        if !is_ignored(without_return(line)) {
            return Ok(());
        }
    }
    text.extend(line)?;
    text.extend(feed)
}

// The lines of a text, edited.
fn edited_lines(alloc: Global, assignments: &[Setting], text: &[u8]) -> Result<Bytes, NoMemory>
    ensures { IfOk result (λ edited. edited ≡ edit.edited_lines assignments.now text.now) }
{
    let mut edited = Bytes::new(alloc);
    let mut left = text;
    let mut number = 1;
    let mut assignment = None;
    'lines: loop {
        match first_line(left) {
            None => {
                assignment = assignment_from(assignments, assignment, number, left);
                add_line(&mut edited, assignment, left, b"")?;
                return Ok(edited);
            }
            Some((line, behind)) => {
                assignment = assignment_from(assignments, assignment, number, line);
                add_line(&mut edited, assignment, line, b"\n")?;
                left = behind;
                number += 1;
            }
        }
    }
}

// Whether a text ends in a line feed.
fn is_ended(text: &[u8]) -> bool
    ensures { result ≡ edit.is_ended text.now }
{
    match text {
        [] => false,
        [.., last] => *last == b'\n',
    }
}

// Ends a text with a line feed, where it does not end in one, the empty text too.
fn end_line(text: &mut Bytes) -> Result<(), NoMemory>
    ensures { OnOk result (text.new ≡ text.old ++ edit.feed_behind text.old) }
{
    if is_ended(text.as_slice()) {
        Ok(())
    } else {
        text.push(b'\n')
    }
}

// Adds the lines of the assignments that have none.
fn add_missing(text: &mut Bytes, assignments: &[Setting]) -> Result<(), NoMemory>
    ensures { OnOk result (text.new ≡ fold with_line text.old (filter (λ assignment. assignment.line == 0) assignments.now)) }
{
    for assignment in assignments {
        if assignment.line == 0 {
            end_line(text)?;
            add_assignment(text, assignment)?;
        }
    }
    Ok(())
}

// The assignments with the lines at which the last settings of their names begin.
fn placed(alloc: Global, conf: &MainCf, assignments: &[Setting]) -> Result<List<Setting>, NoMemory>
    ensures { IfOk result (λ placed. placed ≡ map (edit.placed conf.now.settings) assignments.now) }
{
    let mut placed = List::new(alloc);
    for assignment in assignments {
        let line = match conf.last(assignment.name.as_slice()) {
            None => 0,
            Some(setting) => setting.line,
        };
        placed.push(Setting {
            line,
            name: assignment.name.copy(alloc)?,
            value: assignment.value.copy(alloc)?,
        })?;
    }
    Ok(placed)
}

// The text with the assignments in it.
fn edited_text(
    alloc: Global,
    conf: &MainCf,
    assignments: &[Setting],
    text: &[u8],
) -> Result<Bytes, NoMemory>
    ensures { IfOk result (λ edited. edited ≡ edit.edited_text (map (edit.placed conf.now.settings) assignments.now) text.now) }
{
    let placed = placed(alloc, conf, assignments)?;
    let mut edited = edited_lines(alloc, placed.as_slice(), text)?;
    add_missing(&mut edited, placed.as_slice())?;
    Ok(edited)
}

impl MainCf {
    /// The text of a main.cf after these are set (postconf(1), -e). The physical lines of the last logical line of each name
    /// give way to one line `name = value`, with both its blanks for an empty value too, ended by a line feed; ignored lines
    /// between them stay and come after it. Names that the text does not set come as such lines at its end. Every other byte
    /// stays. A text that `read` refuses is refused alike. The lines of the assignments count for nothing. What comes is read again with
    /// the values that were assigned, and each other name has the value that it had.
    pub fn edit(
        alloc: Global,
        file: &[u8],
        text: &[u8],
        assignments: &List<Setting>,
    ) -> Result<Bytes, ConfFault>
        requires { AreAssignments assignments.now }
        ensures is { Unless result ConfFault.NoMemory (λ r. r ≡ as_fault (edited file.now text.now assignments.now)) }
        ensures values { IfOk result (λ after. IsEditOf file.now text.now after assignments.now) }
    {
        let conf = MainCf::read(alloc, file, text)?;
        let edited = edited_text(alloc, &conf, assignments.as_slice(), text)?;
        Ok(edited)
    }
}
