//! The cases of a file: each is read, run and compared.
use crate::differences::{compare, compare_run, differs};
use crate::report::{Report, add_number};
use crate::running::run_words;
use crate::turns::run_turns;
use case_files::{Case, CaseFile, Fault, Plan, Refusal, Row, plan_of, refusal_of};
use pf_base::{Bytes, NoMemory};
use std::alloc::Global;

// The greatest sizes of reads of a case that names none; 0 sets no limit.
static SIZES: [u64; 3] = [0, 1, 7];

// Runs a plan in reads of at most so many bytes, and compares.
fn run_size(
    alloc: Global,
    report: &mut Report,
    place: &[u8],
    plan: &Plan,
    words: &[String],
    most: u64,
) -> Result<(), NoMemory> {
    let mut left = run_words(alloc, plan, words, most, plan.failing.as_slice())?;
    report.runs = report.runs.saturating_add(1);
    let mut run_place = Bytes::from_slice(alloc, place)?;
    if most > 0 {
        run_place.extend(b"in reads of ")?;
        add_number(alloc, &mut run_place, most)?;
        run_place.extend(b": ")?;
    }
    compare_run(alloc, report, run_place.as_slice(), plan, &mut left)
}

// Runs a plan in each size of reads, and with each call failing in turn where it says so.
fn run_plan(
    alloc: Global,
    report: &mut Report,
    place: &[u8],
    plan: &Plan,
    words: &[String],
) -> Result<(), NoMemory> {
    match plan.reads {
        Some(most) => run_size(alloc, report, place, plan, words, most)?,
        None => {
            for most in &SIZES {
                run_size(alloc, report, place, plan, words, *most)?;
            }
        }
    }
    if plan.in_turn {
        let whole = run_words(alloc, plan, words, plan.reads.unwrap_or(0), &[])?;
        run_turns(alloc, report, place, plan, words, &whole)?;
    }
    Ok(())
}

// Reads and runs a case, or one row of it.
fn run_row(
    alloc: Global,
    report: &mut Report,
    place: &[u8],
    file: &CaseFile,
    case: &Case,
    row: Row<'_>,
) -> Result<(), Fault> {
    let plan = plan_of(alloc, file, case, row)?;
    match &plan.words {
        None => Err(Fault::Refused(Refusal::Command)),
        Some(words) => {
            run_plan(alloc, report, place, &plan, words.as_slice())?;
            Ok(())
        }
    }
}

// Compares the refusal of a case, or of one row of it, with the one that it wants; it may want none.
fn compare_refusal(
    report: &mut Report,
    place: &[u8],
    wanted: &[u8],
    seen: Result<(), Fault>,
) -> Result<(), NoMemory> {
    let seen: &[u8] = match seen {
        Ok(()) => b"",
        Err(Fault::Memory) => return Err(NoMemory),
        Err(Fault::Refused(refusal)) => refusal.text().as_bytes(),
    };
    compare(report, place, b"refusal", wanted, seen)
}

// Reads and runs a case, or one row of it, and reports a refusal that it does not want, or the want of one.
fn judge_row(
    alloc: Global,
    report: &mut Report,
    place: &[u8],
    file: &CaseFile,
    case: &Case,
    row: Result<Row<'_>, Fault>,
) -> Result<(), NoMemory> {
    match row {
        Ok(row) => {
            let wanted = refusal_of(alloc, file, case, row)?;
            let seen = run_row(alloc, report, place, file, case, row);
            compare_refusal(report, place, wanted.as_slice(), seen)
        }
        Err(fault) => {
            let wanted = refusal_of(alloc, file, case, Row::none())?;
            compare_refusal(report, place, wanted.as_slice(), Err(fault))
        }
    }
}

// The place of a row, counted from 1.
fn row_place(alloc: Global, place: &[u8], number: u64) -> Result<Bytes, NoMemory> {
    let mut text = Bytes::from_slice(alloc, place)?;
    text.extend(b"row ")?;
    add_number(alloc, &mut text, number)?;
    text.extend(b": ")?;
    Ok(text)
}

// Runs a case for each row of its table.
fn judge_rows(
    alloc: Global,
    report: &mut Report,
    place: &[u8],
    file: &CaseFile,
    case: &Case,
    columns: &[u8],
) -> Result<(), NoMemory> {
    let mut number: u64 = 0;
    for cells in case.rows.iter().skip(1) {
        number = number.saturating_add(1);
        let place = row_place(alloc, place, number)?;
        let row = Row::new(columns, cells.as_slice());
        judge_row(alloc, report, place.as_slice(), file, case, row)?;
        report.rows = report.rows.saturating_add(1);
    }
    Ok(())
}

// The place of a case.
fn case_place(alloc: Global, name: &[u8], case: &Case) -> Result<Bytes, NoMemory> {
    let mut place = Bytes::from_slice(alloc, name)?;
    place.extend_all(&[b": ", case.name.as_slice(), b": "])?;
    Ok(place)
}

// Runs a case, or each row of it.
fn judge_case(
    alloc: Global,
    report: &mut Report,
    name: &[u8],
    file: &CaseFile,
    case: &Case,
) -> Result<(), NoMemory> {
    let place = case_place(alloc, name, case)?;
    let place = place.as_slice();
    report.cases = report.cases.saturating_add(1);
    let refusal = if case.name.as_slice().is_empty() {
        Refusal::Name
    } else if case.tables > 1 {
        Refusal::TwoSections
    } else if case.tables == 0 {
        return judge_row(alloc, report, place, file, case, Ok(Row::none()));
    } else if let [columns, _, ..] = case.rows.as_slice() {
        return judge_rows(alloc, report, place, file, case, columns.as_slice());
    } else {
        Refusal::Rows
    };
    let refused = Err(Fault::Refused(refusal));
    judge_row(alloc, report, place, file, case, refused)
}

// Adds the line of a file, its name and how many cases and rows it has, and its differences.
fn add_count(
    alloc: Global,
    report: &mut Report,
    name: &[u8],
    cases: u64,
    rows: u64,
) -> Result<(), NoMemory> {
    report.text.extend_all(&[name, b": "])?;
    add_number(alloc, &mut report.text, cases)?;
    report.text.extend(b" cases, ")?;
    add_number(alloc, &mut report.text, rows)?;
    report.text.extend(b" rows\n")?;
    report.text.extend(report.found.as_slice())?;
    report.found.clear();
    Ok(())
}

/// Runs the cases of a file, and reports each difference and how many cases and rows there were.
pub fn judge_file(
    alloc: Global,
    report: &mut Report,
    name: &[u8],
    text: &[u8],
) -> Result<(), NoMemory> {
    let file = CaseFile::read(alloc, text)?;
    let cases_before = report.cases;
    let rows_before = report.rows;
    if file.cases.is_empty() || file.has_twins() {
        differs(
            report,
            name,
            b": cases",
            b"of different names",
            b"none, or two of one name",
        )?;
    }
    for case in &file.cases {
        judge_case(alloc, report, name, &file, case)?;
    }
    let cases = report.cases.saturating_sub(cases_before);
    let rows = report.rows.saturating_sub(rows_before);
    add_count(alloc, report, name, cases, rows)
}
