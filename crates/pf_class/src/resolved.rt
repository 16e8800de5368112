//! The resolved form of addresses (ADDRESS_REWRITING_README).
ghost use Rattle.std.specs.Prelude.{◌≡◌};
ghost use Rattle.std.specs.Option.{option_map};
ghost use Rattle.pf_asks.specs.Looking.{CanFind};
ghost use Rattle.pf_class.specs.Members.{tables_of};
ghost use Rattle.pf_class.specs.Resolved as spec;
ghost use Rattle.pf_class.specs.Standard.{address_of};
ghost use Rattle.pf_class.specs.Clauses.Asking.{IsOrWants, TriesOrWants};

use crate::domains::Domains;
use crate::fault::ClassFault;
use crate::parts::at_at;
use crate::rules::Rules;
use pf_addr::Address;
use pf_asks::Lookup;
use pf_base::Bytes;
use std::alloc::Global;

/// What an address resolves to, and whether its local part names a further way: it was routed on, or it has an operator left.
#[derive(Debug, PartialEq, Eq, Drop)]
pub struct Resolved {
    pub address: Address,
    pub routed: bool,
}

fn has_byte(local: &[u8], byte: u8) -> bool
    ensures { result ≡ spec.has_byte byte local.now }
{
    local.contains(&byte)
}

impl Rules {
    // The user and the site that a local part names.
    #[tactic(auto, unfolding(crate::specs::Resolved::split))]
    fn split<'a>(&self, local: &'a [u8]) -> Option<(&'a [u8], &'a [u8])>
        ensures { option_map (λ parts. address_of parts.0.now parts.1.now) result ≡ spec.split self.now local.now }
    {
        if let Some(parts) = at_at(local) {
            return Some(parts);
        }
        self.parted(local)
    }

    // Whether a local part has an operator.
    #[tactic(auto, unfolding(crate::specs::Resolved::holds_operator))]
    fn holds_operator(&self, local: &[u8]) -> bool
        ensures { result ≡ spec.holds_operator self.now local.now }
    {
        has_byte(local, b'@')
            || (self.swap_bangpath && has_byte(local, b'!'))
            || (self.allow_percent_hack && has_byte(local, b'%'))
    }
}

impl Domains {
    // An address that goes on no more.
    fn ends(
        &self,
        alloc: Global,
        local: &[u8],
        domain: Bytes,
        routed: bool,
    ) -> Result<Resolved, ClassFault>
        ensures { IsOrWants result (spec.ends self.now (address_of local.now domain) routed) }
    {
        let routed = routed || self.rules.holds_operator(local);
        let local = Bytes::from_slice(alloc, local)?;
        Ok(Resolved {
            address: Address { local, domain },
            routed,
        })
    }

    /// What an address resolves to (ADDRESS_REWRITING_README): from the standard form on, while an operator parts the local part
    /// and the domain is local, the parts in standard form are the address. The operators are the last `@`, else the first `!`
    /// under swap_bangpath, else the last `%` under allow_percent_hack. `LookupFailed` comes where a lookup failed.
    #[tactic(auto, unfolding(crate::specs::Resolved::resolved))]
    pub fn resolve<T: Lookup>(
        &self,
        alloc: Global,
        address: &Address,
        tables: &mut T,
    ) -> Result<Resolved, ClassFault>
        requires { CanFind (T.tables tables.old) (tables_of self.now.mydestination) }
        ensures { TriesOrWants (T.tables tables.old) (T.tables tables.new) (spec.resolved self.now address.now) result }
    {
        let form = self.rules.standard(alloc, address)?;
        let mut local = form.local.as_slice();
        let mut domain = form.domain.copy(alloc)?;
        let mut routed = false;
        'ways: while let Some((user, site)) = self.rules.split(local) {
            let own = self.local(alloc, domain.as_slice(), tables)?;
            if own {
                local = user;
                domain = self
                    .rules
                    .full_domain(alloc, site, self.rules.mydomain.as_slice())?;
                routed = true;
            } else {
                return self.ends(alloc, local, domain, routed);
            }
        }
        self.ends(alloc, local, domain, routed)
    }
}
