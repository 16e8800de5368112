//! Addresses of own interfaces.
ghost use Rattle.std.specs.Prelude.{◌≡◌, ◌||◌};
ghost use Rattle.pf_cidr.specs.Nets as nets;
ghost use Rattle.pf_class.specs.Local as spec;

use pf_base::same_in_any_case;
use pf_cidr::Addr;

fn same_address(a: Addr, b: Addr) -> bool
    ensures { result ≡ spec.same_address a b }
{
    match a {
        Addr::V4(a) => match b {
            Addr::V4(b) => a == b,
            Addr::V6(_) => false,
        },
        Addr::V6(a) => match b {
            Addr::V4(_) => false,
            Addr::V6(b) => a == b,
        },
    }
}

/// Whether an address is one of these.
pub(crate) fn is_own(own: &[Addr], address: &Addr) -> bool
    ensures { result ≡ spec.is_own own.now address.now }
{
    own.iter().any(|one| same_address(*one, *address))
}

fn if_v4(addr: Addr) -> Option<Addr>
    ensures { result ≡ spec.if_v4 addr }
{
    match addr {
        Addr::V4(bits) => Some(Addr::V4(bits)),
        Addr::V6(_) => None,
    }
}

fn if_v6(addr: Addr) -> Option<Addr>
    ensures { result ≡ nets.if_v6 addr }
{
    match addr {
        Addr::V4(_) => None,
        Addr::V6(bits) => Some(Addr::V6(bits)),
    }
}

fn has_ipv6_tag(text: &[u8]) -> bool
    ensures { result ≡ spec.has_ipv6_tag text.now }
{
    same_in_any_case(&text[..text.len().min(5)], b"IPv6:")
}

// The address within the brackets of a literal.
#[tactic(auto, unfolding(crate::specs::Local::literal_inside))]
fn literal_inside(inside: &[u8]) -> Option<Addr>
    ensures { result ≡ spec.literal_inside inside.now }
{
    if has_ipv6_tag(inside) {
        if_v6(Addr::read(&inside[inside.len().min(5)..])?)
    } else {
        if_v4(Addr::read(inside)?)
    }
}

/// Whether a domain is a literal: it is in brackets.
pub(crate) fn is_literal(domain: &[u8]) -> bool
    ensures { result ≡ nets.is_in_brackets domain.now }
{
    2 <= domain.len() && domain[0] == b'[' && domain[domain.len() - 1] == b']'
}

// The address of a literal.
#[tactic(auto, unfolding(crate::specs::Local::literal_address))]
fn literal_address(domain: &[u8]) -> Option<Addr>
    ensures { result ≡ spec.literal_address domain.now }
{
    if is_literal(domain) {
        literal_inside(&domain[1..domain.len() - 1])
    } else {
        None
    }
}

// Whether a domain is a literal of one of these addresses.
fn is_own_literal(own: &[Addr], domain: &[u8]) -> bool
    ensures { result ≡ spec.is_own_literal own.now domain.now }
{
    match literal_address(domain) {
        None => false,
        Some(address) => is_own(own, &address),
    }
}

/// Whether a domain is listed, or else a literal of one of these addresses.
pub(crate) fn listed_or_own(listed: bool, own: &[Addr], domain: &[u8]) -> bool
    ensures { result ≡ (listed || spec.is_own_literal own.now domain.now) }
{
    listed || is_own_literal(own, domain)
}
