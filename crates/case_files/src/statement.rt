//! The statements of a case, a line each.
use crate::lines::number;
use crate::refusal::Refusal;

/// What a run works on, each with its own calls and its own status of a fault.
#[derive(Clone, Copy, PartialEq, Eq)]
pub enum Object {
    Input,
    Output,
    Record,
    Log,
    Files,
}

/// What a line says; the number that it has is read beside it.
#[derive(Clone, Copy, PartialEq, Eq)]
pub enum Statement {
    Command,
    Refused,
    Status,
    Reads,
    Fails(Object),
    Replies,
    LogLines,
    Unread,
    LineFeeds,
    InTurn,
    Calls(Object),
    MemoryOnly,
}

/// The line that lets a client end its lines with a line feed alone.
pub const LINE_FEEDS: &[u8] = b"the client ends its lines with LF";

// What is written between the two parts of a statement.
#[derive(Clone, Copy)]
enum Middle {
    Nothing,
    Number,
    Ordinal,
}

// Each statement: what is before its number, what is after it, and how it is written.
static STATEMENTS: [(&str, Middle, &str, Statement); 18] = [
    ("status ", Middle::Number, "", Statement::Status),
    ("reads of ", Middle::Number, " bytes", Statement::Reads),
    (
        "the ",
        Middle::Ordinal,
        " read fails",
        Statement::Fails(Object::Input),
    ),
    (
        "the ",
        Middle::Ordinal,
        " write of the output fails",
        Statement::Fails(Object::Output),
    ),
    (
        "the ",
        Middle::Ordinal,
        " write of the record fails",
        Statement::Fails(Object::Record),
    ),
    (
        "the ",
        Middle::Ordinal,
        " write of the log fails",
        Statement::Fails(Object::Log),
    ),
    (
        "the ",
        Middle::Ordinal,
        " call of the files fails",
        Statement::Fails(Object::Files),
    ),
    (
        "only the first ",
        Middle::Number,
        " replies",
        Statement::Replies,
    ),
    (
        "only the first ",
        Middle::Number,
        " log lines",
        Statement::LogLines,
    ),
    (
        "",
        Middle::Number,
        " bytes are left unread",
        Statement::Unread,
    ),
    (
        "the client ends its lines with LF",
        Middle::Nothing,
        "",
        Statement::LineFeeds,
    ),
    (
        "each call fails in turn",
        Middle::Nothing,
        "",
        Statement::InTurn,
    ),
    (
        "there are ",
        Middle::Number,
        " reads",
        Statement::Calls(Object::Input),
    ),
    (
        "there are ",
        Middle::Number,
        " writes of the output",
        Statement::Calls(Object::Output),
    ),
    (
        "there are ",
        Middle::Number,
        " writes of the record",
        Statement::Calls(Object::Record),
    ),
    (
        "there are ",
        Middle::Number,
        " writes of the log",
        Statement::Calls(Object::Log),
    ),
    (
        "there are ",
        Middle::Number,
        " calls of the files",
        Statement::Calls(Object::Files),
    ),
    ("in memory only", Middle::Nothing, "", Statement::MemoryOnly),
];

// What an ordinal ends in.
fn ordinal_end(number: u64) -> &'static [u8] {
    let last_two = number % 100;
    if last_two > 10 && last_two < 14 {
        return b"th";
    }
    match number % 10 {
        1 => b"st",
        2 => b"nd",
        3 => b"rd",
        _ => b"th",
    }
}

// The number of an ordinal.
fn ordinal(written: &[u8]) -> Option<u64> {
    match written {
        [digits @ .., first, second] => match number(digits) {
            Some(number) if [*first, *second].as_slice() == ordinal_end(number) => Some(number),
            _ => None,
        },
        _ => None,
    }
}

// The number of a statement with these parts; 0 where it has none.
fn number_of(line: &[u8], before: &str, middle: Middle, after: &str) -> Option<u64> {
    let rest = line.strip_prefix(before.as_bytes())?;
    let written = rest.strip_suffix(after.as_bytes())?;
    match middle {
        Middle::Nothing => if written.is_empty() { Some(0) } else { None },
        Middle::Number => number(written),
        Middle::Ordinal => ordinal(written),
    }
}

/// The statement of a line, and its number, 0 where it has none.
pub fn statement_of(line: &[u8]) -> Result<(Statement, u64), Refusal> {
    for (before, middle, after, statement) in &STATEMENTS {
        if let Some(number) = number_of(line, before, *middle, after) {
            return Ok((*statement, number));
        }
    }
    Err(Refusal::Statement)
}
