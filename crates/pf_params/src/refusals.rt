//! Refusals of settings.
ghost use Rattle.std.specs.Prelude.{◌≡◌, Some, IfOk};
ghost use Rattle.pf_params.specs.Parameters as spec;
ghost use Rattle.pf_params.specs.Settled as settled;

use crate::known::Known;
use pf_base::{Bytes, Cause, NoMemory, Refused};
use pf_catalogue::Kind;
use pf_expand::Flaw;
use std::alloc::Global;

/// The cause of a refusal of a value that is not there.
pub fn cause_of(flaw: Flaw) -> Cause
    ensures { result ≡ settled.cause_of flaw }
{
    match flaw {
        Flaw::BadForm => Cause::C5,
        Flaw::TooDeep => Cause::C4,
        Flaw::TooLong => Cause::C16,
    }
}

/// The cause of a refusal of a value that is none of its kind.
pub(crate) fn bad_value(kind: Kind) -> Cause
    ensures { result ≡ spec.bad_value kind }
{
    match kind {
        Kind::FixedYes => Cause::C14,
        Kind::Unset => Cause::C14,
        _ => Cause::C6,
    }
}

/// The refusal of a name's setting.
pub(crate) fn refusal_of(
    alloc: Global,
    known: &Known,
    name: &[u8],
    cause: Cause,
) -> Result<Refused, NoMemory>
    ensures { IfOk result (λ refusal. refusal ≡ spec.refusal_of known.now name.now cause) }
{
    Ok(Refused {
        file: known.file().copy(alloc)?,
        line: known.line(name),
        cause,
        name: Bytes::from_slice(alloc, name)?,
    })
}

/// Of two refusals the one whose name is less in byte order, the first where they have one name.
pub(crate) fn lesser(first: Option<Refused>, second: Refused) -> Refused
    ensures { Some result ≡ spec.with_lesser first second }
{
    match first {
        None => second,
        Some(first) => {
            if second.name.as_slice().cmp(first.name.as_slice()).is_lt() {
                second
            } else {
                first
            }
        }
    }
}
