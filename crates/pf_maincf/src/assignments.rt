//! What an edit can assign.
ghost use Rattle.std.specs.Prelude.{◌≡◌, ◌==◌, true, map};
ghost use Rattle.std.specs.List.{list_all, list_any};
ghost use Rattle.std.specs.Str.{bytes_eq};
ghost use Rattle.pf_maincf.specs.Edit as edit;
ghost use Rattle.pf_maincf.specs.Edit.{AreAssignments};

use crate::setting::{Setting, is_name};
use pf_base::{List, trimmed};

fn has_byte(text: &[u8], byte: u8) -> bool
    ensures { result ≡ list_any (λ b. b == byte) text.now }
{
    text.iter().any(|b| *b == byte)
}

fn begins_comment(name: &[u8]) -> bool
    ensures { result ≡ edit.begins_comment name.now }
{
    match name {
        [] => false,
        [first, ..] => *first == b'#',
    }
}

fn ends_in_return(value: &[u8]) -> bool
    ensures { result ≡ edit.ends_in_return value.now }
{
    match value {
        [] => false,
        [.., last] => *last == b'\r',
    }
}

/// Whether an edit can write a setting as one line: its name is one without `=` that begins no comment, and its value has no
/// space at its ends, holds no line feed and does not end in a carriage return (postconf(5), main.cf format).
pub fn is_writable(assignment: &Setting) -> bool
    ensures { result ≡ edit.is_writable assignment.now }
{
    let name = assignment.name.as_slice();
    let value = assignment.value.as_slice();
    is_name(name)
        && !has_byte(name, b'=')
        && !begins_comment(name)
        && trimmed(value) == value
        && !has_byte(value, b'\n')
        && !ends_in_return(value)
}

fn all_writable(assignments: &[Setting]) -> bool
    ensures { result ≡ list_all edit.is_writable assignments.now }
{
    assignments.iter().all(|assignment| is_writable(assignment))
}

// Whether one of the settings has this name.
fn has_name(assignments: &[Setting], name: &[u8]) -> bool
    ensures { result ≡ list_any (λ assignment. bytes_eq name.now assignment.name) assignments.now }
{
    assignments
        .iter()
        .any(|assignment| name == assignment.name.as_slice())
}

// Whether no further setting has the name of the first one.
fn first_differs(assignments: &[Setting]) -> bool
    ensures { result ≡ edit.first_differs assignments.now }
{
    match assignments {
        [] => true,
        [first, more @ ..] => !has_name(more, first.name.as_slice()),
    }
}

// Whether no name comes twice.
fn names_differ(assignments: &[Setting]) -> bool
    ensures { result ≡ edit.differ (map (λ assignment. assignment.name) assignments.now) }
{
    for i in 0..assignments.len() {
        if !first_differs(&assignments[i..]) {
            return false;
        }
    }
    true
}

/// Whether an edit can write these settings: each of them, and no name twice.
pub fn are_assignments(assignments: &List<Setting>) -> bool
    ensures is { result ≡ edit.are_assignments assignments.now }
    ensures assignments { result ≡ true → AreAssignments assignments.now }
{
    all_writable(assignments.as_slice()) && names_differ(assignments.as_slice())
}
