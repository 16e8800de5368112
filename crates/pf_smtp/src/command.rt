//! The parts of a command line (RFC 5321, 2.4 and 4.1.1).
ghost use Rattle.std.specs.Prelude.{◌≡◌, ◌≤◌, length};
ghost use Rattle.std.specs.List.{before_first, after_first, position_or_len};
ghost use Rattle.std.specs.Option.{option_copied};
ghost use Rattle.pf_base.specs.Text.Space.{is_space};
ghost use Rattle.pf_smtp.specs.Command as command;

use pf_addr::{AddressRef, Path, path_ref};
use pf_base::{is_space, same_in_any_case, trimmed};

/// What a line asks for.
#[derive(Clone, Copy, Debug, PartialEq, Eq)]
pub enum Verb {
    Empty,
    Helo,
    Mail,
    Rcpt,
    Quit,
    Other,
}

// Where the first word of a line ends.
fn word_end(line: &[u8]) -> usize
    ensures within { result ≤ length line.now }
    ensures end { result ≡ position_or_len is_space line.now }
{
    for (i, b) in line.iter().enumerate() {
        if is_space(*b) {
            return i;
        }
    }
    line.len()
}

fn first_word(line: &[u8]) -> &[u8]
    ensures { result.now ≡ before_first is_space line.now }
{
    &line[..word_end(line)]
}

fn after_first_word(line: &[u8]) -> &[u8]
    ensures { result.now ≡ after_first is_space line.now }
{
    match &line[word_end(line)..] {
        [] => &[],
        [_, after @ ..] => after,
    }
}

fn verb_named(word: &[u8]) -> Verb
    ensures { result ≡ command.verb_named word.now }
{
    if same_in_any_case(word, b"HELO") {
        Verb::Helo
    } else if same_in_any_case(word, b"MAIL") {
        Verb::Mail
    } else if same_in_any_case(word, b"RCPT") {
        Verb::Rcpt
    } else if same_in_any_case(word, b"QUIT") {
        Verb::Quit
    } else {
        Verb::Other
    }
}

/// The verb of a line without space at its ends, in any case.
#[tactic(auto, unfolding(crate::specs::Command::verb_of))]
pub(crate) fn verb_of(line: &[u8]) -> Verb
    ensures { result ≡ command.verb_of line.now }
{
    if line.is_empty() {
        Verb::Empty
    } else {
        verb_named(first_word(line))
    }
}

/// The argument of such a line, without space at its ends.
pub(crate) fn argument_of(line: &[u8]) -> &[u8]
    ensures { result.now ≡ command.argument_of line.now }
{
    trimmed(after_first_word(line))
}

/// What comes after a keyword, in any case; None where the argument begins otherwise.
#[tactic(auto, unfolding(crate::specs::Command::after_keyword))]
pub(crate) fn after_keyword<'a>(keyword: &[u8], argument: &'a [u8]) -> Option<&'a [u8]>
    ensures { option_copied result ≡ command.after_keyword keyword.now argument.now }
{
    let end = keyword.len().min(argument.len());
    if same_in_any_case(&argument[..end], keyword) {
        Some(&argument[end..])
    } else {
        None
    }
}

/// The path that a text is after space; None where it is none, or something is after the path.
#[tactic(auto, unfolding(crate::specs::Command::whole_path))]
pub(crate) fn whole_path(text: &[u8]) -> Option<Path<AddressRef<'_>>>
    ensures { result ≡ command.whole_path text.now }
{
    let read = path_ref(text)?;
    if read.end == text.len() as u64 {
        Some(read.path)
    } else {
        None
    }
}
