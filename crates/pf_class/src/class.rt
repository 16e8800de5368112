//! The classes of addresses (ADDRESS_CLASS_README).
ghost use Rattle.std.specs.Prelude.{◌≡◌};
ghost use Rattle.pf_class.specs.Classes as spec;
ghost use Rattle.pf_asks.specs.Looking.{CanFind};
ghost use Rattle.pf_class.specs.Members.{tables_of};
ghost use Rattle.pf_class.specs.Clauses.Asking.{TriesOrWants};

use crate::domains::Domains;
use crate::fault::ClassFault;
use crate::members::is_member;
use crate::resolved::Resolved;
use crate::subject::{address_subject, domain_subject, subdomain_subject};
use pf_asks::Lookup;
use pf_cidr::Addr;
use std::alloc::Global;

/// The class of an address (ADDRESS_CLASS_README).
#[derive(Clone, Copy, Debug, PartialEq, Eq)]
pub enum Class {
    Local,
    VirtualAlias,
    VirtualMailbox,
    Relay,
    Default,
}

impl Domains {
    #[tactic(auto, unfolding(crate::specs::Classes::relay_class))]
    fn relay_class<T: Lookup>(
        &self,
        alloc: Global,
        domain: &[u8],
        tables: &mut T,
    ) -> Result<Class, ClassFault>
        requires { CanFind (T.tables tables.old) (tables_of self.now.relay_domains) }
        ensures { TriesOrWants (T.tables tables.old) (T.tables tables.new) (spec.relay_class self.now domain.now) result }
    {
        let subject = subdomain_subject(alloc, domain)?;
        let listed = is_member(alloc, tables, self.relay_domains.as_slice(), &subject)?;
        if listed {
            return Ok(Class::Relay);
        }
        Ok(Class::Default)
    }

    #[tactic(auto, unfolding(crate::specs::Classes::mailbox_class))]
    fn mailbox_class<T: Lookup>(
        &self,
        alloc: Global,
        domain: &[u8],
        tables: &mut T,
    ) -> Result<Class, ClassFault>
        requires mailbox { CanFind (T.tables tables.old) (tables_of self.now.virtual_mailbox_domains) }
        requires relay { CanFind (T.tables tables.old) (tables_of self.now.relay_domains) }
        ensures { TriesOrWants (T.tables tables.old) (T.tables tables.new) (spec.mailbox_class self.now domain.now) result }
    {
        let subject = domain_subject(alloc, domain)?;
        let listed = is_member(
            alloc,
            tables,
            self.virtual_mailbox_domains.as_slice(),
            &subject,
        )?;
        if listed {
            return Ok(Class::VirtualMailbox);
        }
        self.relay_class(alloc, domain, tables)
    }

    #[tactic(auto, unfolding(crate::specs::Classes::alias_class))]
    fn alias_class<T: Lookup>(
        &self,
        alloc: Global,
        domain: &[u8],
        tables: &mut T,
    ) -> Result<Class, ClassFault>
        requires alias { CanFind (T.tables tables.old) (tables_of self.now.virtual_alias_domains) }
        requires mailbox { CanFind (T.tables tables.old) (tables_of self.now.virtual_mailbox_domains) }
        requires relay { CanFind (T.tables tables.old) (tables_of self.now.relay_domains) }
        ensures { TriesOrWants (T.tables tables.old) (T.tables tables.new) (spec.alias_class self.now domain.now) result }
    {
        let subject = domain_subject(alloc, domain)?;
        let listed = is_member(
            alloc,
            tables,
            self.virtual_alias_domains.as_slice(),
            &subject,
        )?;
        if listed {
            return Ok(Class::VirtualAlias);
        }
        self.mailbox_class(alloc, domain, tables)
    }

    /// The class of an address: the first that applies of local, virtual alias, virtual mailbox and relay, by the lists of these
    /// domains in turn, or else the default one. A name in relay_domains has the domains below it too. `LookupFailed` comes where a
    /// lookup failed before the class was known.
    #[tactic(auto, unfolding(crate::specs::Classes::class_of))]
    pub fn class_of<T: Lookup>(
        &self,
        alloc: Global,
        resolved: &Resolved,
        tables: &mut T,
    ) -> Result<Class, ClassFault>
        requires local { CanFind (T.tables tables.old) (tables_of self.now.mydestination) }
        requires alias { CanFind (T.tables tables.old) (tables_of self.now.virtual_alias_domains) }
        requires mailbox { CanFind (T.tables tables.old) (tables_of self.now.virtual_mailbox_domains) }
        requires relay { CanFind (T.tables tables.old) (tables_of self.now.relay_domains) }
        ensures { TriesOrWants (T.tables tables.old) (T.tables tables.new) (spec.class_of self.now resolved.now.address.domain) result }
    {
        let domain = resolved.address.domain.as_slice();
        let local = self.local(alloc, domain, tables)?;
        if local {
            return Ok(Class::Local);
        }
        self.alias_class(alloc, domain, tables)
    }

    /// Whether an address is in mynetworks. Tables and list files are asked for it as it is printed, at most once an item.
    /// `LookupFailed` comes where one of these lookups failed.
    #[tactic(auto, unfolding(crate::specs::Classes::in_networks))]
    pub fn in_networks<T: Lookup>(
        &self,
        alloc: Global,
        address: &Addr,
        tables: &mut T,
    ) -> Result<bool, ClassFault>
        requires { CanFind (T.tables tables.old) (tables_of self.now.mynetworks) }
        ensures { TriesOrWants (T.tables tables.old) (T.tables tables.new) (spec.in_networks self.now address.now) result }
    {
        let subject = address_subject(alloc, address)?;
        is_member(alloc, tables, self.mynetworks.as_slice(), &subject)
    }
}
