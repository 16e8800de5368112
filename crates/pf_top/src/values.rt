//! What the values of a session's parameters say (postconf(5)).
ghost use Rattle.std.specs.Prelude.{◌≡◌, IfOk};
ghost use Rattle.std.specs.List.{list_any};
ghost use Rattle.pf_top.specs.Values as values;
ghost use Rattle.pf_words.specs.Assignments.{all_of};

use pf_base::{Bytes, List, NoMemory, is_host_name, same_in_any_case};
use pf_catalogue::table_in;
use pf_cidr::Net;
use pf_eval::PlainItem;
use std::alloc::Global;

/// myhostname: a host name; None where the value is none.
#[tactic(auto, unfolding(crate::specs::Values::host_of))]
pub(crate) fn host_of(alloc: Global, value: &[u8]) -> Result<Option<Bytes>, NoMemory>
    ensures { IfOk result (λ host. host ≡ values.host_of value.now) }
{
    if is_host_name(value) {
        let host = Bytes::from_slice(alloc, value)?;
        Ok(Some(host))
    } else {
        Ok(None)
    }
}

fn all_hosts(alloc: Global, items: &[Bytes]) -> Result<Option<List<Bytes>>, NoMemory>
    ensures { IfOk result (λ hosts. hosts ≡ all_of values.host_of items.now) }
{
    let mut hosts = List::new(alloc);
    for item in items {
        match host_of(alloc, item.as_slice())? {
            None => return Ok(None),
            Some(host) => hosts.push(host)?,
        }
    }
    Ok(Some(hosts))
}

// An address or a net, and no table.
#[tactic(auto, unfolding(crate::specs::Values::network_of))]
fn network_of(item: &[u8]) -> Option<Net>
    ensures { result ≡ values.network_of item.now }
{
    match table_in(item) {
        Some(_) => None,
        None => Net::read(item).ok(),
    }
}

fn all_nets(alloc: Global, items: &[Bytes]) -> Result<Option<List<Net>>, NoMemory>
    ensures { IfOk result (λ networks. networks ≡ all_of values.network_of items.now) }
{
    let mut nets = List::new(alloc);
    for item in items {
        match network_of(item.as_slice()) {
            None => return Ok(None),
            Some(net) => nets.push(net)?,
        }
    }
    Ok(Some(nets))
}

#[tactic(auto, unfolding(crate::specs::Values::restriction_of))]
pub(crate) fn restriction_of(word: &[u8]) -> Option<PlainItem>
    ensures { result ≡ values.restriction_of word.now }
{
    if same_in_any_case(word, b"permit_mynetworks") {
        Some(PlainItem::PermitMynetworks)
    } else if same_in_any_case(word, b"reject_unauth_destination") {
        Some(PlainItem::RejectUnauthDestination)
    } else {
        None
    }
}

fn all_restrictions(alloc: Global, items: &[Bytes]) -> Result<Option<List<PlainItem>>, NoMemory>
    ensures { IfOk result (λ relay. relay ≡ all_of values.restriction_of items.now) }
{
    let mut relay = List::new(alloc);
    for item in items {
        match restriction_of(item.as_slice()) {
            None => return Ok(None),
            Some(restriction) => relay.push(restriction)?,
        }
    }
    Ok(Some(relay))
}

/// mydestination: one or more host names; None where the items are none.
#[tactic(auto, unfolding(crate::specs::Values::hosts_of))]
pub(crate) fn hosts_of(alloc: Global, items: &[Bytes]) -> Result<Option<List<Bytes>>, NoMemory>
    ensures { IfOk result (λ hosts. hosts ≡ values.hosts_of items.now) }
{
    match all_hosts(alloc, items)? {
        None => Ok(None),
        Some(hosts) => {
            if hosts.len() > 0 {
                Ok(Some(hosts))
            } else {
                Ok(None)
            }
        }
    }
}

/// mynetworks: one or more networks; None where the items are none.
#[tactic(auto, unfolding(crate::specs::Values::nets_of))]
pub(crate) fn nets_of(alloc: Global, items: &[Bytes]) -> Result<Option<List<Net>>, NoMemory>
    ensures { IfOk result (λ nets. nets ≡ values.nets_of items.now) }
{
    match all_nets(alloc, items)? {
        None => Ok(None),
        Some(nets) => {
            if nets.len() > 0 {
                Ok(Some(nets))
            } else {
                Ok(None)
            }
        }
    }
}

fn is_closing(item: PlainItem) -> bool
    ensures { result ≡ values.is_closing item }
{
    match item {
        PlainItem::PermitMynetworks => false,
        PlainItem::RejectUnauthDestination => true,
    }
}

fn has_closing(items: &[PlainItem]) -> bool
    ensures { result ≡ list_any values.is_closing items.now }
{
    items.iter().any(|item| is_closing(*item))
}

/// smtpd_relay_restrictions: restrictions, of which one closes the list; None where the items are none.
#[tactic(auto, unfolding(crate::specs::Values::relay_of))]
pub(crate) fn relay_of(alloc: Global, items: &[Bytes]) -> Result<Option<List<PlainItem>>, NoMemory>
    ensures { IfOk result (λ relay. relay ≡ values.relay_of items.now) }
{
    match all_restrictions(alloc, items)? {
        None => Ok(None),
        Some(relay) => {
            if has_closing(relay.as_slice()) {
                Ok(Some(relay))
            } else {
                Ok(None)
            }
        }
    }
}
