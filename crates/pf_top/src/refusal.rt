//! The refusals of main.cf, a function for each check.
ghost use Rattle.std.specs.Prelude.{◌≡◌, IfOk, is_none};
ghost use Rattle.std.specs.List.{find};
ghost use Rattle.std.specs.Option.{option_copied};
ghost use Rattle.pf_top.specs.Opening.{items_named, relay_list};
ghost use Rattle.pf_top.specs.Refusals as refusals;
ghost use Rattle.pf_top.specs.Values as values;

use crate::opening::items_named;
use crate::profile::parameters_refusal;
use crate::values::{relay_of, restriction_of};
use pf_base::{Bytes, Cause, NoMemory, Refused};
use pf_params::Known;
use std::alloc::Global;

// The name of the relay list.
const RELAY_LIST: &[u8] = b"smtpd_relay_restrictions";

// The parameters and the classes of restrictions.
fn names_refusal(alloc: Global, known: &Known) -> Result<Option<Refused>, NoMemory>
    ensures { IfOk result (λ refusal. refusal ≡ refusals.names_refusal known.now) }
{
    let refusal = parameters_refusal(alloc, known)?;
    known.class_refusal(alloc, refusal)
}

// The first word that is no restriction.
fn unknown_word(words: &[Bytes]) -> Option<&Bytes>
    ensures { option_copied result ≡ find (λ word. is_none (values.restriction_of word)) words.now }
{
    words
        .iter()
        .find(|word| restriction_of(word.as_slice()).is_none())
}

fn word_refusal(alloc: Global, known: &Known, items: &[Bytes]) -> Result<Option<Refused>, NoMemory>
    ensures { IfOk result (λ refusal. refusal ≡ refusals.word_refusal known.now items.now) }
{
    match unknown_word(items) {
        None => Ok(None),
        Some(word) => {
            let mut refusal = known.refusal(alloc, RELAY_LIST, Cause::C7)?;
            refusal.name = word.copy(alloc)?;
            Ok(Some(refusal))
        }
    }
}

fn closing_refusal(
    alloc: Global,
    known: &Known,
    items: &[Bytes],
) -> Result<Option<Refused>, NoMemory>
    ensures { IfOk result (λ refusal. refusal ≡ refusals.closing_refusal known.now items.now) }
{
    let relay = relay_of(alloc, items)?;
    if relay.is_some() {
        return Ok(None);
    }
    let refusal = known.refusal(alloc, RELAY_LIST, Cause::C14)?;
    Ok(Some(refusal))
}

fn relay_refusal(alloc: Global, known: &Known, items: &[Bytes]) -> Result<Option<Refused>, NoMemory>
    ensures { IfOk result (λ refusal. refusal ≡ refusals.relay_refusal known.now items.now) }
{
    match word_refusal(alloc, known, items)? {
        Some(refusal) => Ok(Some(refusal)),
        None => closing_refusal(alloc, known, items),
    }
}

// The relay list of the settings.
fn list_refusal(alloc: Global, known: &Known) -> Result<Option<Refused>, NoMemory>
    ensures { IfOk result (λ refusal. refusal ≡ refusals.relay_refusal known.now (items_named known.now relay_list)) }
{
    let items = items_named(alloc, known, RELAY_LIST)?;
    relay_refusal(alloc, known, items.as_slice())
}

/// The first refusal of settings: of the parameters and classes, and then of the relay list.
#[tactic(auto, unfolding(crate::specs::Refusals::settings_refusal))]
pub(crate) fn settings_refusal(alloc: Global, known: &Known) -> Result<Option<Refused>, NoMemory>
    ensures { IfOk result (λ refusal. refusal ≡ refusals.settings_refusal known.now) }
{
    match names_refusal(alloc, known)? {
        Some(refusal) => Ok(Some(refusal)),
        None => {
            let refusal = list_refusal(alloc, known)?;
            Ok(refusal)
        }
    }
}
