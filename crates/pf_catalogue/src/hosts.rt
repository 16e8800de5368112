//! The items of lists of networks and of hosts, and the interfaces that mail is received on.
ghost use Rattle.std.specs.Prelude.{◌≡◌};
ghost use Rattle.pf_catalogue.specs.Hosts as spec;

use crate::lists::{is_table, without_not};
use pf_base::{Bytes, is_host_name};
use pf_cidr::{Addr, Net};

// A host name, or a dot and the name that the names of hosts are below.
fn names_hosts(text: &[u8]) -> bool
    ensures { result ≡ spec.names_hosts text.now }
{
    match text {
        [] => false,
        [b'.', name @ ..] => is_host_name(name),
        _ => is_host_name(text),
    }
}

fn is_network(text: &[u8]) -> bool
    ensures { result ≡ spec.is_network text.now }
{
    is_table(text) || Net::read(text).is_ok()
}

fn is_host(text: &[u8]) -> bool
    ensures { result ≡ spec.is_host text.now }
{
    is_network(text) || names_hosts(text)
}

/// Whether each item is a table, a file, an address or a net, or one of these after an exclamation mark.
pub(crate) fn are_networks(items: &[Bytes]) -> bool
    ensures { result ≡ spec.are_networks items.now }
{
    items
        .iter()
        .all(|item| is_network(without_not(item.as_slice())))
}

/// Whether each item is one of a list of networks, a host name or one after a dot, or one of these after an exclamation mark.
pub(crate) fn are_hosts(items: &[Bytes]) -> bool
    ensures { result ≡ spec.are_hosts items.now }
{
    items
        .iter()
        .all(|item| is_host(without_not(item.as_slice())))
}

fn names_interfaces(word: &[u8]) -> bool
    ensures { result ≡ spec.names_interfaces word.now }
{
    word == b"all".as_slice() || word == b"loopback-only".as_slice()
}

fn is_address(text: &[u8]) -> bool
    ensures { result ≡ spec.is_address text.now }
{
    Addr::read(text).is_some()
}

fn are_addresses(items: &[Bytes]) -> bool
    ensures { result ≡ spec.are_addresses items.now }
{
    items.iter().all(|item| is_address(item.as_slice()))
}

/// Whether items name interfaces: all or those of the loopback by one word, or each by its address.
pub(crate) fn are_interfaces(items: &[Bytes]) -> bool
    ensures { result ≡ spec.are_interfaces items.now }
{
    match items {
        [word] => names_interfaces(word.as_slice()) || is_address(word.as_slice()),
        _ => are_addresses(items),
    }
}
