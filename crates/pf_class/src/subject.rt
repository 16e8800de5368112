//! What lists are asked.
ghost use Rattle.std.specs.Prelude.{◌≡◌, ◌∷◌, ◌++◌, [], IfOk, OnOk, map};
ghost use Rattle.pf_base.specs.Text.Ascii as ascii;
ghost use Rattle.pf_class.specs.Subjects as spec;

use pf_base::{Bytes, List, NoMemory, fold};
use pf_cidr::Addr;
use std::alloc::Global;

/// What a list is asked: the keys for its names and tables and those for its list files, in order, and an address for its nets.
#[derive(Drop)]
pub(crate) struct Subject {
    pub(crate) keys: List<Bytes>,
    pub(crate) file_keys: List<Bytes>,
    pub(crate) address: Option<Addr>,
}

// A key of list files that asks for a domain.
fn file_key(alloc: Global, domain: &[u8]) -> Result<Bytes, NoMemory>
    ensures { IfOk result (λ key. key ≡ ascii.at_sign ∷ domain.now) }
{
    let mut key = Bytes::new(alloc);
    key.extend_all(&[b"@", domain])?;
    Ok(key)
}

// The keys of list files that ask for domains.
fn file_keys(alloc: Global, domains: &[Bytes]) -> Result<List<Bytes>, NoMemory>
    ensures { IfOk result (λ keys. keys ≡ map (λ domain. ascii.at_sign ∷ domain) domains.now) }
{
    let mut keys = List::new(alloc);
    for domain in domains {
        keys.push(file_key(alloc, domain.as_slice())?)?;
    }
    Ok(keys)
}

// A list of one text.
fn one(alloc: Global, text: Bytes) -> Result<List<Bytes>, NoMemory>
    ensures { IfOk result (λ list. list ≡ text ∷ []) }
{
    let mut list = List::new(alloc);
    list.push(text)?;
    Ok(list)
}

// Lists are asked for these domains in turn, which are in small letters.
fn domains_subject(alloc: Global, domains: List<Bytes>) -> Result<Subject, NoMemory>
    ensures { IfOk result (λ subject. subject ≡ spec.domains_subject domains) }
{
    let file_keys = file_keys(alloc, domains.as_slice())?;
    Ok(Subject {
        keys: domains,
        file_keys,
        address: None,
    })
}

/// A list of domains is asked for a domain.
pub(crate) fn domain_subject(alloc: Global, domain: &[u8]) -> Result<Subject, NoMemory>
    ensures { IfOk result (λ subject. subject ≡ spec.domain_subject domain.now) }
{
    let domain = fold(alloc, domain)?;
    let domains = one(alloc, domain)?;
    domains_subject(alloc, domains)
}

// Adds the parents of a domain, from the nearest.
fn add_parents(alloc: Global, parents: &mut List<Bytes>, domain: &[u8]) -> Result<(), NoMemory>
    ensures { OnOk result (parents.new ≡ parents.old ++ spec.parents domain.now) }
{
    for i in 0..domain.len() {
        if domain[i] == b'.' && i + 1 < domain.len() {
            parents.push(Bytes::from_slice(alloc, &domain[i + 1..])?)?;
        }
    }
    Ok(())
}

/// A list of domains that matches the domains below its own is asked for a domain and then its parents.
pub(crate) fn subdomain_subject(alloc: Global, domain: &[u8]) -> Result<Subject, NoMemory>
    ensures { IfOk result (λ subject. subject ≡ spec.subdomain_subject domain.now) }
{
    let domain = fold(alloc, domain)?;
    let copy = domain.copy(alloc)?;
    let mut domains = one(alloc, copy)?;
    add_parents(alloc, &mut domains, domain.as_slice())?;
    domains_subject(alloc, domains)
}

/// A list of nets is asked for an address.
pub(crate) fn address_subject(alloc: Global, address: &Addr) -> Result<Subject, NoMemory>
    ensures { IfOk result (λ subject. subject ≡ spec.address_subject address.now) }
{
    let keys = one(alloc, address.print(alloc)?)?;
    let file_keys = one(alloc, address.print(alloc)?)?;
    Ok(Subject {
        keys,
        file_keys,
        address: Some(*address),
    })
}
