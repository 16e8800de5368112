//! What is known of a value before it is written.
ghost use Rattle.std.specs.Prelude.{◌≡◌, ◌+◌};
ghost use Rattle.pf_expand.specs.Expansion as expansion;
ghost use Rattle.pf_expand.specs.Clauses.Sizes as spec;

use crate::flaw::Flaw;

/// The length of a value in bytes, or why there is none.
#[derive(Clone, Copy, Debug, PartialEq, Eq)]
pub(crate) enum Size {
    Long(u64),
    Flawed(Flaw),
}

/// The most bytes of a value.
pub(crate) const LENGTH_LIMIT: u64 = 1_048_576;

// Of two flaws the one that is looked for first.
fn first_flaw(first: Flaw, second: Flaw) -> Flaw
    ensures { result ≡ expansion.first_flaw first second }
{
    match first {
        Flaw::BadForm => Flaw::BadForm,
        Flaw::TooDeep => match second {
            Flaw::BadForm => Flaw::BadForm,
            Flaw::TooDeep => Flaw::TooDeep,
            Flaw::TooLong => Flaw::TooDeep,
        },
        Flaw::TooLong => second,
    }
}

/// So many bytes, if that is not above the limit.
pub(crate) fn long(length: u64) -> Size
    ensures { result ≡ spec.long length }
{
    if length > LENGTH_LIMIT {
        Size::Flawed(Flaw::TooLong)
    } else {
        Size::Long(length)
    }
}

// One length and then the other, where a sum above the greatest u64 stays there.
fn long_both(a: u64, b: u64) -> Size
    ensures { result ≡ spec.long (a + b) }
{
    long(a.saturating_add(b))
}

/// One value and then the other.
pub(crate) fn joined(first: Size, second: Size) -> Size
    ensures { result ≡ spec.joined first second }
{
    match first {
        Size::Long(a) => match second {
            Size::Long(b) => long_both(a, b),
            Size::Flawed(flaw) => Size::Flawed(flaw),
        },
        Size::Flawed(flaw) => match second {
            Size::Long(_) => Size::Flawed(flaw),
            Size::Flawed(other) => Size::Flawed(first_flaw(flaw, other)),
        },
    }
}
