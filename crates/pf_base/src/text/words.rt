//! The words of a value.
ghost use Rattle.std.specs.Prelude.{◌≡◌, ◌<◌, ◌≤◌, ◌+◌, [], ◌∷◌, ◌++◌, length, take, drop, nat_lt, IfNone, IfSome, IfOk, OnOk};
ghost use Rattle.std.specs.List.{filter};
ghost use Rattle.pf_base.specs.Text.Words as spec;
ghost use Rattle.pf_base.specs.Clauses.Unless.{Unless};

use crate::bytes::Bytes;
use crate::fault::NoMemory;
use crate::list::List;
use crate::text::braces::{lone_brace, open_behind};
use crate::text::space::is_space;
use std::alloc::Global;
use thiserror::Error;

/// Why a value has no words.
#[derive(Clone, Copy, Debug, PartialEq, Eq, Drop, Error)]
pub enum WordsFault {
    /// A brace has no partner; `at` is the place, from 0, of the first such brace.
    #[error("byte {at}: a brace without its partner")]
    Unbalanced { at: u64 },
    /// Out of memory.
    #[error("no memory")]
    NoMemory,
}

impl From<NoMemory> for WordsFault {
    ghost use Rattle.std.specs.Prelude.{◌≡◌};
    ghost use Rattle.pf_base.specs.declared.text.words.WordsFault.TheVariants.{NoMemory};

    ghost from_gives = { λ _ fault. fault ≡ NoMemory };

    fn from(_: NoMemory) -> WordsFault {
        WordsFault::NoMemory
    }
}

fn is_separator(b: u8) -> bool
    ensures { result ≡ spec.is_separator b }
{
    is_space(b) || b == b'\n' || b == b','
}

// Where the first separator is that is in no brace, or the length where there is none.
fn separator_place(text: &[u8]) -> usize
    ensures within { result ≤ length text.now }
    ensures none { result ≡ length text.now → spec.parted 0 text.now ≡ text.now ∷ [] }
    ensures cut { result < length text.now → spec.parted 0 text.now ≡ take result text.now ∷ spec.parted 0 (drop (result + 1) text.now) }
{
    let mut depth: usize = 0;
    for (i, b) in text.iter().enumerate() {
        if depth == 0 && is_separator(*b) {
            return i;
        }
        depth = open_behind(depth, *b);
    }
    text.len()
}

// What is before and after the first separator that is in no brace; None where there is none.
fn cut_at_separator(text: &[u8]) -> Option<(&[u8], &[u8])>
    ensures none { IfNone result (spec.parted 0 text.now ≡ text.now ∷ []) }
    ensures parts { IfSome result (λ cut. spec.parted 0 text.now ≡ cut.0.now ∷ spec.parted 0 cut.1.now) }
    ensures shorter { IfSome result (λ cut. length cut.1.now < length text.now) }
{
    let place = separator_place(text);
    if place < text.len() {
        Some((&text[..place], &text[place + 1..]))
    } else {
        None
    }
}

// Adds a word, unless there is nothing between two separators.
fn add_word(alloc: Global, words: &mut List<Bytes>, word: &[u8]) -> Result<(), NoMemory>
    ensures { OnOk result (words.new ≡ words.old ++ filter (λ one. nat_lt 0 (length one)) (word.now ∷ [])) }
{
    if !word.is_empty() {
        words.push(Bytes::from_slice(alloc, word)?)?;
    }
    Ok(())
}

fn words_in(alloc: Global, value: &[u8]) -> Result<List<Bytes>, NoMemory>
    ensures { IfOk result (λ words. words ≡ spec.words_in value.now) }
{
    let mut words = List::new(alloc);
    let mut left = value;
    'words: loop {
        match cut_at_separator(left) {
            None => {
                add_word(alloc, &mut words, left)?;
                return Ok(words);
            }
            Some((word, behind)) => {
                add_word(alloc, &mut words, word)?;
                left = behind;
            }
        }
    }
}

/// The words of a value, which spaces, line feeds and commas part that are in no brace (postconf(5)). Where a brace has
/// no partner the value has none, and the first such brace is named.
#[tactic(auto, unfolding(crate::specs::Text::Words::words_of))]
pub fn words_of(alloc: Global, value: &[u8]) -> Result<List<Bytes>, WordsFault>
    ensures { Unless result WordsFault.NoMemory (λ r. r ≡ spec.words_of value.now) }
{
    if let Some(at) = lone_brace(value) {
        return Err(WordsFault::Unbalanced { at: at as u64 });
    }
    let words = words_in(alloc, value)?;
    Ok(words)
}
