//! Texts are parted.
ghost use Rattle.std.specs.Prelude.{◌≡◌, ◌+◌, ◌*◌, ◌∷◌, [], Some, length, IfOk, OnOk};
ghost use Rattle.pf_expand.specs.Clauses.Parting.{Takes, before, gives, weighs};
ghost use Rattle.pf_expand.specs.Clauses.Tokens as spec;

use crate::form::{Part, first_part};
use crate::token::Token;
use pf_base::{Bytes, List, NoMemory};
use std::alloc::Global;

// What is still to be parted: a text, or what is after a text of a choice.
#[derive(Clone, Copy)]
enum Left<'a> {
    Text(&'a [u8]),
    Otherwise,
    End,
}

// Leaves the texts of a choice before the text after it.
fn leave_choice<'a>(
    left: &mut List<Left<'a>>,
    full: &'a [u8],
    empty: &'a [u8],
    behind: &'a [u8],
) -> Result<(), NoMemory>
    ensures gives { OnOk result (gives left.new ≡ before (spec.tokens_of full.now) (before (Some (Token.Otherwise ∷ [])) (before (spec.tokens_of empty.now)
        (before (Some (Token.End ∷ [])) (before (spec.tokens_of behind.now) (gives left.old)))))) }
    ensures weighs { OnOk result (weighs left.new ≡ weighs left.old + 2 * (length full.now + length empty.now + length behind.now) + 5) }
{
    left.push(Left::Text(behind))?;
    left.push(Left::End)?;
    left.push(Left::Text(empty))?;
    left.push(Left::Otherwise)?;
    left.push(Left::Text(full))?;
    Ok(())
}

// Takes the first part of a text, if it has any; false where a dollar sign begins no form.
fn take_part<'a>(
    alloc: Global,
    text: &'a [u8],
    tokens: &mut List<Token>,
    left: &mut List<Left<'a>>,
) -> Result<bool, NoMemory>
    ensures { IfOk result (Takes tokens.old tokens.new left.old left.new text.now) }
{
    if text.is_empty() {
        return Ok(true);
    }
    match first_part(text) {
        None => Ok(false),
        Some((Part::Literal(bytes), behind)) => {
            tokens.push(Token::Literal(Bytes::from_slice(alloc, bytes)?))?;
            left.push(Left::Text(behind))?;
            Ok(true)
        }
        Some((Part::Name(name), behind)) => {
            tokens.push(Token::Name(Bytes::from_slice(alloc, name)?))?;
            left.push(Left::Text(behind))?;
            Ok(true)
        }
        Some((Part::Choice { name, full, empty }, behind)) => {
            tokens.push(Token::Choose(Bytes::from_slice(alloc, name)?))?;
            leave_choice(left, full, empty, behind)?;
            Ok(true)
        }
    }
}

/// The pieces of a text; None where a dollar sign begins no form.
pub(crate) fn tokens_of(alloc: Global, text: &[u8]) -> Result<Option<List<Token>>, NoMemory>
    ensures { IfOk result (λ tokens. tokens ≡ spec.tokens_of text.now) }
{
    let mut tokens = List::new(alloc);
    let mut left = List::new(alloc);
    left.push(Left::Text(text))?;
    'parts: loop {
        match left.pop() {
            None => return Ok(Some(tokens)),
            Some(Left::Otherwise) => tokens.push(Token::Otherwise)?,
            Some(Left::End) => tokens.push(Token::End)?,
            Some(Left::Text(text)) => {
                if !take_part(alloc, text, &mut tokens, &mut left)? {
                    return Ok(None);
                }
            }
        }
    }
}
