//! Why a configuration or a table is refused, and where.
ghost use Rattle.std.specs.Prelude.{◌≡◌, ◌≢◌, IfOk};
ghost use Rattle.pf_base.specs.Refusal as refusal;

use crate::bytes::Bytes;
use crate::fault::NoMemory;
use crate::text::numbers::decimal;
use crate::text::printing::add_line;
use std::alloc::Global;

/// The cause of a refusal, in the order of the codes, which are postgate's own.
#[derive(Clone, Copy, Debug, PartialEq, Eq)]
pub enum Cause {
    /// The first line that is not ignored starts with space.
    C1,
    /// A logical line has no equals sign.
    C2,
    /// A setting's name is none.
    C3,
    /// Names of parameters are nested too deep in a value.
    C4,
    /// A `$` in a value begins none of its forms.
    C5,
    /// A value is not of its parameter's kind.
    C6,
    /// A word of a restriction list is no restriction.
    C7,
    /// A restriction's argument is wanting, or not of its kind.
    C8,
    /// A text names no table.
    C9,
    /// A file is not there.
    C10,
    /// A table's text is not of its form.
    C11,
    /// No restriction list closes the server to strangers.
    C12,
    /// A restriction class names itself, by whatever way.
    C13,
    /// A setting is one that postgate does not take, or has a value that it does not take, or is wanting.
    C14,
    /// A file has more bytes than are read.
    C15,
    /// A value is too long once its names are expanded.
    C16,
}

/// A refusal: its file, the number of its line, from 1 (0 for a default or a whole file), its cause and what it names.
#[derive(Debug, PartialEq, Eq, Drop)]
pub struct Refused {
    pub file: Bytes,
    pub line: u64,
    pub cause: Cause,
    pub name: Bytes,
}

/// Why a configuration can't be read.
#[derive(Debug, PartialEq, Eq, Drop)]
pub enum ConfFault {
    /// It is refused.
    Refused(Refused),
    /// Out of memory.
    NoMemory,
}

impl From<NoMemory> for ConfFault {
    ghost use Rattle.std.specs.Prelude.{◌≡◌};
    ghost use Rattle.pf_base.specs.declared.refused.ConfFault.TheVariants.{NoMemory};

    ghost from_gives = { λ _ fault. fault ≡ NoMemory };

    fn from(_: NoMemory) -> ConfFault {
        ConfFault::NoMemory
    }
}

fn refusal_of(
    alloc: Global,
    file: &[u8],
    line: u64,
    cause: Cause,
    name: &[u8],
) -> Result<Refused, NoMemory>
    ensures { IfOk result (λ refused. refused ≡ refusal.refused file.now line cause name.now) }
{
    Ok(Refused {
        file: Bytes::from_slice(alloc, file)?,
        line,
        cause,
        name: Bytes::from_slice(alloc, name)?,
    })
}

/// The refusal of a file at this line, for this cause and with what it names; or there is no memory for it.
pub fn refuse(alloc: Global, file: &[u8], line: u64, cause: Cause, name: &[u8]) -> ConfFault
    ensures { result ≢ ConfFault.NoMemory → result ≡ ConfFault.Refused (refusal.refused file.now line cause name.now) }
{
    match refusal_of(alloc, file, line, cause, name) {
        Ok(refused) => ConfFault::Refused(refused),
        Err(NoMemory) => ConfFault::NoMemory,
    }
}

#[tactic(auto, unfolding(crate::specs::Refusal::cause_text))]
fn cause_text(cause: Cause) -> &'static [u8]
    ensures { result.now ≡ refusal.cause_text cause }
{
    match cause {
        Cause::C1 => b"C1 continuation of nothing",
        Cause::C2 => b"C2 no equals sign",
        Cause::C3 => b"C3 bad name",
        Cause::C4 => b"C4 expansion too deep",
        Cause::C5 => b"C5 bad dollar form",
        Cause::C6 => b"C6 bad value",
        Cause::C7 => b"C7 unknown restriction",
        Cause::C8 => b"C8 bad argument",
        Cause::C9 => b"C9 bad table",
        Cause::C10 => b"C10 no such file",
        Cause::C11 => b"C11 table text refused",
        Cause::C12 => b"C12 no closing restriction",
        Cause::C13 => b"C13 class names itself",
        Cause::C14 => b"C14 setting outside the profile",
        Cause::C15 => b"C15 file too large",
        Cause::C16 => b"C16 expansion too long",
    }
}

// What a refusal names, after a colon; nothing where it names nothing.
fn name_part(alloc: Global, name: &[u8]) -> Result<Bytes, NoMemory>
    ensures { IfOk result (λ part. part ≡ refusal.name_part name.now) }
{
    let mut part = Bytes::new(alloc);
    if name.is_empty() {
        return Ok(part);
    }
    part.extend_all(&[b": ", name])?;
    Ok(part)
}

impl Refused {
    /// The line of the refusal, with its line feed: `postgate: FILE:LINE: CODE TEXT: NAME`, without the colon and NAME
    /// where it names nothing. Control bytes are printed as question marks.
    #[tactic(auto, unfolding(crate::specs::Refusal::refusal_line))]
    pub fn line(&self, alloc: Global) -> Result<Bytes, NoMemory>
        ensures { IfOk result (λ line. line ≡ refusal.refusal_line self.now) }
    {
        let number = decimal(alloc, self.line)?;
        let cause = Bytes::from_slice(alloc, cause_text(self.cause))?;
        let name = name_part(alloc, self.name.as_slice())?;
        let mut text = Bytes::new(alloc);
        text.extend_all(&[
            b"postgate: ",
            self.file.as_slice(),
            b":",
            number.as_bytes(),
            b": ",
            cause.as_slice(),
            name.as_slice(),
        ])?;
        let mut line = Bytes::new(alloc);
        add_line(&mut line, text.as_slice())?;
        Ok(line)
    }
}
