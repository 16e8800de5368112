//! The standard form of addresses (ADDRESS_REWRITING_README).
ghost use Rattle.std.specs.Prelude.{◌≡◌, IfOk};
ghost use Rattle.std.specs.Option.{option_map};
ghost use Rattle.pf_class.specs.Standard as spec;
ghost use Rattle.pf_class.specs.Standard.{address_of};

use crate::literal::is_literal;
use crate::parts::{at_bang, at_percent};
use crate::rules::Rules;
use pf_addr::Address;
use pf_base::{Bytes, NoMemory, same_in_any_case};
use std::alloc::Global;

fn has_dot(domain: &[u8]) -> bool
    ensures { result ≡ spec.has_dot domain.now }
{
    domain.iter().any(|b| *b == b'.')
}

// Whether a domain has no dot and is neither a literal nor empty.
#[tactic(auto, unfolding(crate::specs::Standard::is_short))]
fn is_short(domain: &[u8]) -> bool
    ensures { result ≡ spec.is_short domain.now }
{
    !domain.is_empty() && !is_literal(domain) && !has_dot(domain)
}

// A domain without one dot at its end.
#[tactic(auto, unfolding(crate::specs::Standard::without_closing_dot))]
fn without_closing_dot(domain: &[u8]) -> &[u8]
    ensures { result.now ≡ spec.without_closing_dot domain.now }
{
    match domain {
        [prefix @ .., b'.'] => prefix,
        _ => domain,
    }
}

impl Rules {
    // The user and the site that a local part names.
    #[tactic(auto, unfolding(crate::specs::Standard::parted))]
    pub(crate) fn parted<'a>(&self, local: &'a [u8]) -> Option<(&'a [u8], &'a [u8])>
        ensures { option_map (λ parts. address_of parts.0.now parts.1.now) result ≡ spec.parted self.now local.now }
    {
        if self.swap_bangpath
            && let Some(parts) = at_bang(local)
        {
            return Some(parts);
        }
        if self.allow_percent_hack {
            at_percent(local)
        } else {
            None
        }
    }

    // The local part and the domain of an address, which gets a domain where it has none.
    #[tactic(auto, unfolding(crate::specs::Standard::with_domain))]
    fn with_domain<'a>(&self, address: &'a Address, myorigin: &'a [u8]) -> (&'a [u8], &'a [u8])
        ensures { address_of result.0.now result.1.now ≡ spec.with_domain self.now myorigin.now address.now }
    {
        let local = address.local.as_slice();
        let domain = address.domain.as_slice();
        if !domain.is_empty() {
            return (local, domain);
        }
        match self.parted(local) {
            Some(parts) => parts,
            None => {
                if self.append_at_myorigin {
                    (local, myorigin)
                } else {
                    (local, domain)
                }
            }
        }
    }

    #[tactic(auto, unfolding(crate::specs::Standard::with_mydomain))]
    fn with_mydomain(
        &self,
        alloc: Global,
        domain: &[u8],
        mydomain: &[u8],
    ) -> Result<Bytes, NoMemory>
        ensures { IfOk result (λ named. named ≡ spec.with_mydomain self.now mydomain.now domain.now) }
    {
        let mut named = Bytes::from_slice(alloc, domain)?;
        if self.append_dot_mydomain && is_short(domain) {
            named.extend_all(&[b".", mydomain])?;
        }
        Ok(named)
    }

    #[tactic(auto, unfolding(crate::specs::Standard::full_domain))]
    pub(crate) fn full_domain(
        &self,
        alloc: Global,
        domain: &[u8],
        mydomain: &[u8],
    ) -> Result<Bytes, NoMemory>
        ensures { IfOk result (λ full. full ≡ spec.full_domain self.now mydomain.now domain.now) }
    {
        let named = self.with_mydomain(alloc, domain, mydomain)?;
        Bytes::from_slice(alloc, without_closing_dot(named.as_slice()))
    }

    // The standard form with these names in the place of $myorigin and $mydomain.
    #[tactic(auto, unfolding(crate::specs::Standard::standard_with))]
    fn form(
        &self,
        alloc: Global,
        address: &Address,
        myorigin: &[u8],
        mydomain: &[u8],
    ) -> Result<Address, NoMemory>
        ensures { IfOk result (λ form. form ≡ spec.standard_with self.now myorigin.now mydomain.now address.now) }
    {
        let (local, domain) = self.with_domain(address, myorigin);
        let local = Bytes::from_slice(alloc, local)?;
        let domain = self.full_domain(alloc, domain, mydomain)?;
        Ok(Address { local, domain })
    }

    /// The standard form of an address (ADDRESS_REWRITING_README): an address without a domain gets one by the first of
    /// swap_bangpath, allow_percent_hack and append_at_myorigin that applies; a domain without a dot that is no literal gets
    /// mydomain under append_dot_mydomain; and one dot at the end of the domain is dropped.
    #[tactic(auto, unfolding(crate::specs::Standard::standard))]
    pub fn standard(&self, alloc: Global, address: &Address) -> Result<Address, NoMemory>
        ensures { IfOk result (λ form. form ≡ spec.standard self.now address.now) }
    {
        self.form(
            alloc,
            address,
            self.myorigin.as_slice(),
            self.mydomain.as_slice(),
        )
    }

    /// The standard form with a domain in the place of myorigin and mydomain (postconf(5), remote_header_rewrite_domain).
    pub fn standard_with(
        &self,
        alloc: Global,
        address: &Address,
        domain: &[u8],
    ) -> Result<Address, NoMemory>
        ensures { IfOk result (λ form. form ≡ spec.standard_with self.now domain.now domain.now address.now) }
    {
        self.form(alloc, address, domain, domain)
    }

    /// Whether a domain is that of myorigin, in any case.
    pub fn origin(&self, domain: &[u8]) -> bool
        ensures { result ≡ spec.is_origin self.now domain.now }
    {
        same_in_any_case(domain, self.myorigin.as_slice())
    }
}
