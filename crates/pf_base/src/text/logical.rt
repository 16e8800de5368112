//! Logical lines.
ghost use Rattle.std.specs.Prelude.{◌≡◌, ◌++◌, Some, None, Ok, OnOk};
ghost use Rattle.std.specs.Option.{option_to_list};
ghost use Rattle.pf_base.specs.Text.Lines.{without_return};
ghost use Rattle.pf_base.specs.Text.Logical as spec;
ghost use Rattle.pf_base.specs.Clauses.Gathering.{IsBegun, IsContinued, TakesLine};
ghost use Rattle.pf_base.specs.Clauses.Unless.{Unless};

use crate::bytes::Bytes;
use crate::fault::NoMemory;
use crate::list::List;
use crate::text::lines::{first_line, without_return};
use crate::text::space::{is_space, without_leading_space};
use std::alloc::Global;
use thiserror::Error;

/// A logical line: the numbers of its first and its last physical line, from 1, and its text without line ends.
#[derive(Debug, PartialEq, Eq, Drop)]
pub struct Logical {
    pub line: u64,
    pub last: u64,
    pub text: Bytes,
}

/// Why a text has no logical lines.
#[derive(Clone, Copy, Debug, PartialEq, Eq, Drop, Error)]
pub enum TextFault {
    /// The first line that is not ignored starts with space; `line` is its number, from 1.
    #[error("line {line}: continuation of nothing")]
    Continuation { line: u64 },
    /// Out of memory.
    #[error("no memory")]
    NoMemory,
}

impl From<NoMemory> for TextFault {
    ghost use Rattle.std.specs.Prelude.{◌≡◌};
    ghost use Rattle.pf_base.specs.declared.text.logical.TextFault.TheVariants.{NoMemory};

    ghost from_gives = { λ _ fault. fault ≡ NoMemory };

    fn from(_: NoMemory) -> TextFault {
        TextFault::NoMemory
    }
}

/// Whether a physical line counts for nothing: it is empty, all space, or a comment, whose first byte past space is `#`
/// (postconf(5), main.cf format).
pub fn is_ignored(text: &[u8]) -> bool
    ensures { result ≡ spec.is_ignored text.now }
{
    match without_leading_space(text) {
        [] => true,
        [first, ..] => *first == b'#',
    }
}

/// Whether a physical line that is not ignored continues the one before it (postconf(5), main.cf format).
pub fn starts_with_space(text: &[u8]) -> bool
    ensures { result ≡ spec.starts_with_space text.now }
{
    match text {
        [] => false,
        [first, ..] => is_space(*first),
    }
}

// The logical lines so far, and the one that the next line may continue.
#[derive(Drop)]
struct Gathered {
    closed: List<Logical>,
    last: Option<Logical>,
}

impl Gathered {
    // Takes a line that doesn't start with space: it begins a logical line.
    fn begin(&mut self, alloc: Global, number: u64, text: &[u8]) -> Result<(), NoMemory>
        ensures { OnOk result (self.new ≡ record {
          closed = self.old.closed ++ option_to_list self.old.last;
          last = Some (spec.alone (record { number = number; text = text.now }));
        }) }
    {
        let begun = Logical {
            line: number,
            last: number,
            text: Bytes::from_slice(alloc, text)?,
        };
        self.close()?;
        self.last = Some(begun);
        Ok(())
    }

    // Nothing may continue the last line any more.
    fn close(&mut self) -> Result<(), NoMemory>
        ensures { OnOk result (self.new ≡ record {
          closed = self.old.closed ++ option_to_list self.old.last;
          last = None;
        }) }
    {
        match self.last.take() {
            None => Ok(()),
            Some(last) => {
                self.closed.push(last)?;
                Ok(())
            }
        }
    }

    // The logical lines, once there is no further line.
    fn into_lines(mut self) -> Result<List<Logical>, TextFault>
        ensures { Unless result TextFault.NoMemory (λ r. r ≡ Ok (self.closed ++ option_to_list self.last)) }
    {
        self.close()?;
        let Gathered { closed, last: _ } = self;
        Ok(closed)
    }

    // Takes a line that starts with space: it continues the last one.
    fn go_on(&mut self, number: u64, text: &[u8]) -> Result<(), TextFault>
        ensures { Unless result TextFault.NoMemory (IsContinued self.old self.new (record { number = number; text = text.now })) }
    {
        match &mut self.last {
            None => Err(TextFault::Continuation { line: number }),
            Some(last) => {
                last.text.extend(text)?;
                last.last = number;
                Ok(())
            }
        }
    }

    // Takes a physical line as it is before its line end.
    fn take_line(&mut self, alloc: Global, number: u64, line: &[u8]) -> Result<(), TextFault>
        ensures line { Unless result TextFault.NoMemory (TakesLine self.old self.new (record { number = number; text = without_return line.now })) }
        ensures begun { IsBegun self.old → OnOk result (IsBegun self.new) }
    {
        let text = without_return(line);
        if is_ignored(text) {
            return Ok(());
        }
        if starts_with_space(text) {
            return self.go_on(number, text);
        }
        self.begin(alloc, number, text)?;
        Ok(())
    }
}

/// The logical lines of a text (postconf(5), main.cf format). `Continuation` comes exactly where the first line that is not
/// ignored starts with space.
pub fn logical_lines(alloc: Global, text: &[u8]) -> Result<List<Logical>, TextFault>
    ensures { Unless result TextFault.NoMemory (λ r. r ≡ spec.logical_lines_of text.now) }
{
    let mut gathered = Gathered {
        closed: List::new(alloc),
        last: None,
    };
    let mut left = text;
    let mut number = 1;
    'lines: loop {
        match first_line(left) {
            None => {
                gathered.take_line(alloc, number, left)?;
                return gathered.into_lines();
            }
            Some((line, behind)) => {
                gathered.take_line(alloc, number, line)?;
                left = behind;
                number += 1;
            }
        }
    }
}
