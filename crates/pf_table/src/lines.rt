//! The lines of a text table, one after another (DATABASE_README, texthash).
ghost use Rattle.std.specs.Prelude.{◌≡◌, ◌≢◌, ◌+◌, ◌++◌, ◌^◌, ◌≤◌, [], Ok, Err, false, drop, flat_map, length, slice_get, IfErr, IfNone, IfOk, IfSome, OnOk};
ghost use Rattle.std.specs.Option.{option_map};
ghost use Rattle.pf_base.specs.Clauses.Faults.{as_fault};
ghost use Rattle.pf_base.specs.Text.Lines.{parts, without_return};
ghost use Rattle.pf_base.specs.Text.Logical as logical;
ghost use Rattle.pf_base.specs.Text.Logical.{grouped, numbered, physical_lines, unless_ignored, with_line};
ghost use Rattle.pf_table.specs.Clauses.Lines.{Continues, entry_if, first_entry, no_entry, no_lines};
ghost use Rattle.pf_table.specs.Line.{pair_of};
ghost use Rattle.pf_table.specs.Text as spec;

use crate::line::{parts_of, write_key};
use pf_base::{
    Bytes, Cause, ConfFault, NoMemory, first_line, is_ignored, is_space, refuse, starts_with_space,
    without_return,
};
use std::alloc::Global;
use std::marker::Model;

// Whether a physical line counts for nothing. Its first byte says so, unless that is space.
fn is_passed(text: &[u8]) -> bool
    ensures { result ≡ logical.is_ignored text.now }
{
    match text {
        [] => true,
        [first, ..] => {
            if is_space(*first) {
                is_ignored(text)
            } else {
                *first == b'#'
            }
        }
    }
}

// What is ahead in a text: the next physical line that counts, if there is one, and what is after it. A contract sees the logical
// lines of both, and before them the lines that continue nothing.
#[derive(Drop)]
struct Ahead<'a> {
    counts: bool,
    number: u64,
    line: &'a [u8],
    // the number of the first line of what is after it
    next: u64,
    behind: &'a [u8],
}

impl<'a> Model for Ahead<'a> {
    ghost use Rattle.std.specs.Prelude.{◌+◌, ◌≤◌, ◌^◌, length};
    ghost use Rattle.pf_base.specs.Text.Lines.{parts};
    ghost use Rattle.pf_base.specs.Text.Logical.{Grouped, grouped, numbered};
    ghost use Rattle.pf_table.specs.Clauses.Lines.{with_next};

    ghost Value = { Grouped };

    ghost view = { λ ahead. with_next ahead.counts (record { number = ahead.number; text = ahead.line.now })
        (grouped (numbered ahead.next (parts ahead.behind.now))) };

    ghost invariant = { λ ahead. ahead.next + length ahead.behind.now ≤ 2 ^ 63 };
}

impl<'a> Ahead<'a> {
    // What is ahead in the last line of a text.
    fn last(number: u64, line: &'a [u8]) -> Ahead<'a>
        requires { number ≤ 2 ^ 63 }
        ensures { result ≡ unless_ignored (record { number = number; text = without_return line.now }) no_lines }
    {
        let line = without_return(line);
        Ahead {
            counts: !is_passed(line),
            number,
            line,
            next: number,
            behind: &[],
        }
    }

    // What is ahead in a text whose first line has this number.
    fn of(first: u64, text: &'a [u8]) -> Ahead<'a>
        requires { first + length text.now ≤ 2 ^ 63 }
        ensures { result ≡ grouped (numbered first (parts text.now)) }
    {
        let mut left = text;
        let mut number = first;
        'lines: loop {
            match first_line(left) {
                None => return Ahead::last(number, left),
                Some((line, behind)) => {
                    let line = without_return(line);
                    let next = number + 1;
                    if !is_passed(line) {
                        return Ahead {
                            counts: true,
                            number,
                            line,
                            next,
                            behind,
                        };
                    }
                    left = behind;
                    number = next;
                }
            }
        }
    }

    // The number of the next physical line, where that continues the one before it.
    fn continuing(&self) -> Option<u64>
        ensures { result ≡ option_map (λ line. line.number) (slice_get self.now.leading 0) }
    {
        if self.counts && starts_with_space(self.line) {
            Some(self.number)
        } else {
            None
        }
    }

    // Takes the next physical line that counts: its number and its text.
    fn next(&mut self) -> Option<(u64, &'a [u8])>
        ensures none { IfNone result ((self.old ≡ no_lines) × (self.new ≡ no_lines)) }
        ensures line { IfSome result (λ line. self.old ≡ with_line (record { number = line.0; text = line.1.now }) self.new) }
    {
        if !self.counts {
            return None;
        }
        let line = (self.number, self.line);
        *self = Ahead::of(self.next, self.behind);
        Some(line)
    }

    // Takes the next physical line, where it continues the one before it.
    fn next_continuing(&mut self) -> Option<&'a [u8]>
        ensures none { IfNone result ((self.old.leading ≡ []) × (self.new ≡ self.old)) }
        ensures line { IfSome result (λ text. Continues self.old text.now self.new) }
    {
        self.continuing()?;
        let (_, text) = self.next()?;
        Some(text)
    }
}

// Puts a line and those that continue it into a buffer. They are taken, whether there is memory for them or not.
fn join(ahead: &mut Ahead, joined: &mut Bytes, text: &[u8]) -> Result<(), NoMemory>
    ensures joined { OnOk result (joined.new ≡ text.now ++ flat_map (λ line. line.text) ahead.old.leading) }
    ensures ahead { ahead.new ≡ record { leading = []; logical = ahead.old.logical } }
{
    joined.clear();
    let mut whole = joined.extend(text).is_ok();
    while let Some(more) = ahead.next_continuing() {
        whole = whole && joined.extend(more).is_ok();
    }
    if whole { Ok(()) } else { Err(NoMemory) }
}

// The entry of a line.
#[derive(Drop)]
struct Kept {
    line: u64,
    key: Vec<u8>,
    value: Bytes,
}

impl Model for Kept {
    ghost use Rattle.pf_table.specs.Text.{Entry};

    ghost Value = { Entry };

    ghost view = { λ kept. record { line = kept.line; pair = record { key = kept.key.items; value = kept.value } } };
}

impl Kept {
    // Takes the entry of a logical line that begins at this number, or refuses the line.
    fn take(
        &mut self,
        alloc: Global,
        file: &[u8],
        folds: bool,
        line: u64,
        text: &[u8],
    ) -> Result<(), ConfFault>
        ensures ok { OnOk result (spec.or_refused file.now line (pair_of folds text.now) ≡ Ok self.new) }
        ensures err { IfErr result (λ fault. fault ≢ ConfFault.NoMemory
            → Err fault ≡ as_fault (spec.or_refused file.now line (pair_of folds text.now))) }
    {
        match parts_of(text) {
            Err(reason) => Err(refuse(alloc, file, line, Cause::C11, reason.text())),
            Ok((quoted, plain, value)) => {
                write_key(&mut self.key, folds, quoted, plain)?;
                self.value.clear();
                self.value.extend(value)?;
                self.line = line;
                Ok(())
            }
        }
    }
}

/// The logical lines of a text, which are taken one after another. A contract sees the entry of the line that was taken last, and
/// the lines that are left.
#[derive(Drop)]
pub struct TextLines<'a> {
    ahead: Ahead<'a>,
    // a logical line of several physical ones
    joined: Bytes,
    entry: Kept,
}

impl<'a> Model for TextLines<'a> {
    ghost use Rattle.std.specs.Prelude.{◌≡◌, []};
    ghost use Rattle.pf_table.specs.Clauses.Lines.{Cursor};

    ghost Value = { Cursor };

    ghost view = { λ lines. record { entry = lines.entry; left = lines.ahead.logical } };

    ghost invariant = { λ lines. lines.ahead.leading ≡ [] };
}

impl<'a> TextLines<'a> {
    /// The lines of a text, of which none is taken yet. The text is refused as C1 where its first line that is not ignored starts
    /// with space.
    pub fn new(alloc: Global, file: &[u8], text: &'a [u8]) -> Result<TextLines<'a>, ConfFault>
        ensures ok { IfOk result (λ lines. spec.lines_in file.now (grouped (physical_lines text.now)) ≡ Ok lines.left) }
        ensures none { IfOk result (λ lines. lines.entry ≡ no_entry) }
        ensures err { IfErr result (λ fault. fault ≢ ConfFault.NoMemory
            → Err fault ≡ as_fault (spec.lines_in file.now (grouped (physical_lines text.now)))) }
    {
        let ahead = Ahead::of(1, text);
        match ahead.continuing() {
            Some(number) => Err(refuse(alloc, file, number, Cause::C1, &[])),
            None => Ok(TextLines {
                ahead,
                joined: Bytes::new(alloc),
                entry: Kept {
                    line: 0,
                    key: Vec::new(alloc),
                    value: Bytes::new(alloc),
                },
            }),
        }
    }

    /// Takes the next line, and says whether there was one. A key may begin in double quotes, in which space belongs to it and a
    /// backslash takes the next byte; where `folded`, it is made small. The line is refused as C11 where its quote is not closed
    /// (`quote not closed`) or it has no value (`no value`). After a fault it is taken too, and no clause says what
    /// `number`, `key` and `value` then answer.
    pub fn next(&mut self, alloc: Global, file: &[u8], folded: bool) -> Result<bool, ConfFault>
        ensures entry { IfOk result (λ more. first_entry file.now folded self.old.left ≡ Ok (entry_if more self.new.entry)) }
        ensures refusal { IfErr result (λ fault. fault ≢ ConfFault.NoMemory → Err fault ≡ as_fault (first_entry file.now folded self.old.left)) }
        ensures left { self.new.left ≡ drop 1 self.old.left }
        ensures stays { result ≡ Ok false → self.new ≡ self.old }
    {
        let Some((number, text)) = self.ahead.next() else {
            return Ok(false);
        };
        if self.ahead.continuing().is_none() {
            self.entry.take(alloc, file, folded, number, text)?;
            return Ok(true);
        }
        join(&mut self.ahead, &mut self.joined, text)?;
        self.entry
            .take(alloc, file, folded, number, self.joined.as_slice())?;
        Ok(true)
    }

    /// The number of the first physical line of the line that was taken last, from 1; 0 where none was.
    pub fn number(&self) -> u64
        ensures { result ≡ self.now.entry.line }
    {
        self.entry.line
    }

    /// The key of the line that was taken last, as it is compared.
    pub fn key(&self) -> &[u8]
        ensures { result.now ≡ self.now.entry.pair.key }
    {
        self.entry.key.as_slice()
    }

    /// The value of the line that was taken last.
    pub fn value(&self) -> &[u8]
        ensures { result.now ≡ self.now.entry.pair.value }
    {
        self.entry.value.as_slice()
    }
}
