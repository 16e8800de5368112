//! What is known of the values of names.
ghost use Rattle.std.specs.Prelude.{◌≡◌};
ghost use Rattle.pf_expand.specs.Clauses.Levels as levels;
ghost use Rattle.pf_expand.specs.Clauses.Sizes as spec;
ghost use Rattle.pf_expand.specs.declared.run.Mode.TheVariants.{Counts};

use crate::names::Names;
use crate::run::{Mode, behind, behind_choice};
use crate::size::{Size, joined, long};
use crate::token::Token;
use pf_base::{Bytes, List};

/// The sizes of the values of names with so many levels left: of those that were set, in their order, and of any other.
#[derive(Debug, Drop)]
pub(crate) struct Sizes {
    pub(crate) levels: u64,
    pub(crate) named: List<Size>,
    pub(crate) absent: Size,
}

/// The size of a name's value.
pub(crate) fn size_named(names: &Names, sizes: &Sizes, name: &Bytes) -> Size
    ensures { result ≡ levels.size_named names.now sizes.now name.now }
{
    match names.place(name) {
        None => sizes.absent,
        Some(place) => match sizes.named.as_slice().get(place) {
            None => sizes.absent,
            Some(size) => *size,
        },
    }
}

// The size of nothing, or a flaw.
fn flaw_alone(size: Size) -> Size
    ensures { result ≡ spec.flaw_alone size }
{
    match size {
        Size::Long(_) => Size::Long(0),
        Size::Flawed(flaw) => Size::Flawed(flaw),
    }
}

// What a piece that counts adds.
fn counted(names: &Names, sizes: &Sizes, token: &Token) -> Size
    ensures { result ≡ spec.counted (levels.size_named names.now sizes.now) token.now }
{
    match token {
        Token::Literal(bytes) => long(bytes.len()),
        Token::Name(name) => size_named(names, sizes, name),
        Token::Choose(name) => flaw_alone(size_named(names, sizes, name)),
        Token::Otherwise => Size::Long(0),
        Token::End => Size::Long(0),
    }
}

// And any piece.
fn added(names: &Names, sizes: &Sizes, mode: Mode, token: &Token) -> Size
    ensures { result ≡ spec.added (levels.size_named names.now sizes.now) mode token.now }
{
    match mode {
        Mode::Counts => counted(names, sizes, token),
        Mode::ToOtherwise(_) => Size::Long(0),
        Mode::ToEnd(_) => Size::Long(0),
    }
}

/// Which pieces count after a piece, if it is the name of a choice.
pub(crate) fn choice_behind(names: &Names, sizes: &Sizes, token: &Token) -> Mode
    ensures { result ≡ levels.choice_behind names.now sizes.now token.now }
{
    match token {
        Token::Choose(name) => behind_choice(size_named(names, sizes, name)),
        Token::Literal(_) => Mode::Counts,
        Token::Name(_) => Mode::Counts,
        Token::Otherwise => Mode::Counts,
        Token::End => Mode::Counts,
    }
}

/// The size of the value of pieces in turn.
pub(crate) fn pieces_size(names: &Names, sizes: &Sizes, tokens: &[Token]) -> Size
    ensures { result ≡ spec.run (levels.size_named names.now sizes.now) Counts tokens.now }
{
    let mut size = Size::Long(0);
    let mut mode = Mode::Counts;
    for token in tokens {
        size = joined(size, added(names, sizes, mode, token));
        mode = behind(choice_behind(names, sizes, token), mode, token);
    }
    size
}
