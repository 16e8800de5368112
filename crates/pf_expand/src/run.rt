//! The pieces of a text in turn.
ghost use Rattle.std.specs.Prelude.{◌≡◌, ◌<◌, ◌-◌, ◌^◌};
ghost use Rattle.pf_expand.specs.Clauses.RunsMeant.{depth_of};
ghost use Rattle.pf_expand.specs.Clauses.Runs as runs;
ghost use Rattle.pf_expand.specs.Clauses.Sizes as sizes;

use crate::size::Size;
use crate::token::Token;

/// Which pieces count: these, or those after the middle or after the end of a choice, where so many choices are open in
/// the text that is passed over.
#[derive(Clone, Copy, Debug, PartialEq, Eq)]
pub(crate) enum Mode {
    Counts,
    ToOtherwise(u64),
    ToEnd(u64),
}

/// Which pieces count after the name of a choice, whose value has this size.
pub(crate) fn behind_choice(named: Size) -> Mode
    ensures { result ≡ sizes.behind_choice named }
{
    match named {
        Size::Long(0) => Mode::ToOtherwise(0),
        Size::Long(_) => Mode::Counts,
        Size::Flawed(_) => Mode::ToEnd(0),
    }
}

// After a piece of a first text that is passed over.
fn behind_first(depth: u64, token: &Token) -> Mode
    requires { depth < 2 ^ 64 - 1 }
    ensures { result ≡ runs.behind_first depth token.now }
{
    match token {
        Token::Choose(_) => Mode::ToOtherwise(depth + 1),
        Token::Otherwise => {
            if depth == 0 {
                Mode::Counts
            } else {
                Mode::ToOtherwise(depth)
            }
        }
        Token::End => Mode::ToOtherwise(depth.saturating_sub(1)),
        Token::Literal(_) => Mode::ToOtherwise(depth),
        Token::Name(_) => Mode::ToOtherwise(depth),
    }
}

// After a piece that is passed over up to the end of the choice.
fn behind_second(depth: u64, token: &Token) -> Mode
    requires { depth < 2 ^ 64 - 1 }
    ensures { result ≡ runs.behind_second depth token.now }
{
    match token {
        Token::Choose(_) => Mode::ToEnd(depth + 1),
        Token::Otherwise => Mode::ToEnd(depth),
        Token::End => {
            if depth == 0 {
                Mode::Counts
            } else {
                Mode::ToEnd(depth - 1)
            }
        }
        Token::Literal(_) => Mode::ToEnd(depth),
        Token::Name(_) => Mode::ToEnd(depth),
    }
}

// After a piece that counts.
fn behind_counted(choice: Mode, token: &Token) -> Mode
    ensures { result ≡ runs.behind choice Mode.Counts token.now }
{
    match token {
        Token::Choose(_) => choice,
        Token::Otherwise => Mode::ToEnd(0),
        Token::End => Mode::Counts,
        Token::Literal(_) => Mode::Counts,
        Token::Name(_) => Mode::Counts,
    }
}

/// Which pieces count after this one; after the name of a choice that counts, `choice` says it.
pub(crate) fn behind(choice: Mode, mode: Mode, token: &Token) -> Mode
    requires { depth_of mode < 2 ^ 64 - 1 }
    ensures { result ≡ runs.behind choice mode token.now }
{
    match mode {
        Mode::Counts => behind_counted(choice, token),
        Mode::ToOtherwise(depth) => behind_first(depth, token),
        Mode::ToEnd(depth) => behind_second(depth, token),
    }
}
