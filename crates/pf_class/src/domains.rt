//! The domains that addresses are resolved and classed by.
ghost use Rattle.std.specs.Prelude.{◌≡◌};
ghost use Rattle.pf_class.specs.Local as spec;
ghost use Rattle.pf_asks.specs.Looking.{CanFind};
ghost use Rattle.pf_class.specs.Members.{tables_of};
ghost use Rattle.pf_class.specs.Clauses.Asking.{TriesOrWants};

use crate::fault::ClassFault;
use crate::item::Item;
use crate::literal::{is_own, listed_or_own};
use crate::members::is_member;
use crate::rules::Rules;
use crate::subject::domain_subject;
use pf_asks::Lookup;
use pf_base::List;
use pf_cidr::Addr;
use std::alloc::Global;

/// The domains and nets of a site, with the rules for the form of its addresses (ADDRESS_CLASS_README).
#[derive(Drop)]
pub struct Domains {
    pub rules: Rules,
    /// The addresses of the own interfaces (postconf(5), inet_interfaces).
    pub own: List<Addr>,
    pub mydestination: List<Item>,
    pub virtual_alias_domains: List<Item>,
    pub virtual_mailbox_domains: List<Item>,
    pub relay_domains: List<Item>,
    pub mynetworks: List<Item>,
}

impl Domains {
    /// Whether an address is that of an own interface.
    pub fn own(&self, address: &Addr) -> bool
        ensures { result ≡ spec.is_own self.now.own address.now }
    {
        is_own(self.own.as_slice(), address)
    }

    /// Whether a domain is local: mydestination has it, or else it is a literal of an own interface (RFC 5321, 4.1.3). The tables
    /// and list files of mydestination alone are asked, at most once an item. `LookupFailed` comes where one of these lookups failed.
    #[tactic(auto, unfolding(crate::specs::Local::is_local))]
    pub fn local<T: Lookup>(
        &self,
        alloc: Global,
        domain: &[u8],
        tables: &mut T,
    ) -> Result<bool, ClassFault>
        requires { CanFind (T.tables tables.old) (tables_of self.now.mydestination) }
        ensures { TriesOrWants (T.tables tables.old) (T.tables tables.new) (spec.is_local self.now domain.now) result }
    {
        let subject = domain_subject(alloc, domain)?;
        let listed = is_member(alloc, tables, self.mydestination.as_slice(), &subject)?;
        Ok(listed_or_own(listed, self.own.as_slice(), domain))
    }
}
