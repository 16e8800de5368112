//! What main.cf says, where it is accepted.
ghost use Rattle.std.specs.Prelude.{◌≡◌, [], IfOk, codes};
ghost use Rattle.std.specs.Option.{unwrap_or};
ghost use Rattle.pf_base.specs.Clauses.Unless.{Unless};
ghost use Rattle.pf_base.specs.Clauses.Faults.{as_fault};
ghost use Rattle.pf_top.specs.Opening as opening;
ghost use Rattle.pf_top.specs.Refusals as refusals;
ghost use Rattle.pf_top.specs.Values as values;

use crate::refusal::settings_refusal;
use crate::values::{nets_of, relay_of};
use pf_base::{Bytes, ConfFault, List, NoMemory};
use pf_catalogue::param;
use pf_cidr::Net;
use pf_eval::{PlainItem, PlainPolicy};
use pf_maincf::MainCf;
use pf_params::{Known, Reading};
use std::alloc::Global;

/// What an accepted main.cf says: the server's name, the banner of its greeting, and its policy (postconf(5)).
#[derive(Debug, Drop)]
pub struct Opening {
    pub host: Bytes,
    pub banner: Bytes,
    pub policy: PlainPolicy,
}

// What is read of the parameter of a name, where it is not refused.
#[tactic(auto, unfolding(crate::specs::Opening::reading_named))]
fn reading_named(alloc: Global, known: &Known, name: &[u8]) -> Result<Option<Reading>, NoMemory>
    ensures { IfOk result (λ reading. reading ≡ opening.reading_named known.now name.now) }
{
    let Some(p) = param(name) else {
        return Ok(None);
    };
    match known.reading(alloc, p)? {
        Ok(reading) => Ok(Some(reading)),
        Err(_) => Ok(None),
    }
}

// The value of the parameter of a name.
fn text_named(alloc: Global, known: &Known, name: &[u8]) -> Result<Bytes, NoMemory>
    ensures { IfOk result (λ text. text ≡ opening.text_named known.now name.now) }
{
    match reading_named(alloc, known, name)? {
        None => Ok(Bytes::new(alloc)),
        Some(reading) => Ok(reading.text),
    }
}

/// The items of the value of the parameter of a name.
pub(crate) fn items_named(
    alloc: Global,
    known: &Known,
    name: &[u8],
) -> Result<List<Bytes>, NoMemory>
    ensures { IfOk result (λ items. items ≡ opening.items_named known.now name.now) }
{
    match reading_named(alloc, known, name)? {
        None => Ok(List::new(alloc)),
        Some(reading) => Ok(reading.value.into_items(alloc)),
    }
}

// The networks, where they have their form.
fn networks_in(alloc: Global, known: &Known) -> Result<List<Net>, NoMemory>
    ensures { IfOk result (λ networks. networks ≡ unwrap_or (values.nets_of (opening.items_named known.now (codes "mynetworks"))) []) }
{
    let items = items_named(alloc, known, b"mynetworks")?;
    match nets_of(alloc, items.as_slice())? {
        Some(networks) => Ok(networks),
        None => Ok(List::new(alloc)),
    }
}

// The relay list, where it has its form.
fn relay_in(alloc: Global, known: &Known) -> Result<List<PlainItem>, NoMemory>
    ensures { IfOk result (λ relay. relay ≡ unwrap_or (values.relay_of (opening.items_named known.now opening.relay_list)) []) }
{
    let items = items_named(alloc, known, b"smtpd_relay_restrictions")?;
    match relay_of(alloc, items.as_slice())? {
        Some(relay) => Ok(relay),
        None => Ok(List::new(alloc)),
    }
}

// What settings that are not refused say of a session.
#[tactic(auto, unfolding(crate::specs::Opening::opening_of))]
fn opening_of(alloc: Global, known: &Known) -> Result<Opening, NoMemory>
    ensures { IfOk result (λ says. says ≡ opening.opening_of known.now) }
{
    let policy = PlainPolicy {
        destinations: items_named(alloc, known, b"mydestination")?,
        networks: networks_in(alloc, known)?,
        relay: relay_in(alloc, known)?,
    };
    Ok(Opening {
        host: text_named(alloc, known, b"myhostname")?,
        banner: text_named(alloc, known, b"smtpd_banner")?,
        policy,
    })
}

// What settings say, or their first refusal.
fn settings_opened(alloc: Global, known: &Known) -> Result<Opening, ConfFault>
    ensures { Unless result ConfFault.NoMemory (λ r. r ≡ as_fault (refusals.settings_opened known.now)) }
{
    if let Some(refusal) = settings_refusal(alloc, known)? {
        return Err(ConfFault::Refused(refusal));
    }
    let opening = opening_of(alloc, known)?;
    Ok(opening)
}

/// What a main.cf of this name and text says, or its first refusal.
pub(crate) fn text_opened(alloc: Global, file: &[u8], text: &[u8]) -> Result<Opening, ConfFault>
    ensures { Unless result ConfFault.NoMemory (λ r. r ≡ as_fault (refusals.text_opened file.now text.now)) }
{
    let conf = MainCf::read(alloc, file, text)?;
    let known = Known::new(alloc, &conf, &List::new(alloc))?;
    settings_opened(alloc, &known)
}
