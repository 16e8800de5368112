//! Addresses and paths (RFC 5321, 4.1.2).
ghost use Rattle.std.specs.Prelude.{◌≡◌, ◌==◌, IfOk};
ghost use Rattle.std.specs.List.{list_any};

use crate::quoted::{means_byte, unquoted};
use pf_base::{Bytes, NoMemory};
use std::alloc::Global;
use std::marker::Model;

/// A mail address (RFC 5321, 4.1.2): its local part, without the quotes and backslashes of its spelling, and its domain, a
/// name or a literal with its brackets, as it was given. An empty domain is none.
#[derive(Debug, PartialEq, Eq, Drop)]
pub struct Address {
    pub local: Bytes,
    pub domain: Bytes,
}

/// An address that is in the text which it was read of. A contract sees the address.
#[derive(Debug, Drop)]
pub struct AddressRef<'a> {
    // The local part as it is spelled, but for the quotes round it.
    pub(crate) content: &'a [u8],
    pub(crate) domain: &'a [u8],
}

impl<'a> Model for AddressRef<'a> {
    ghost use Rattle.std.specs.Prelude.{false};
    ghost use Rattle.pf_addr.specs.declared.address.Address.{Address};

    ghost Value = { Address };

    ghost use Rattle.pf_addr.specs.Clauses.Quoted.{unquoted};

    ghost view = { λ address. record { local = unquoted false address.content.now; domain = address.domain.now } };
}

impl<'a> AddressRef<'a> {
    /// The domain.
    pub fn domain(&self) -> &[u8]
        ensures { result.now ≡ self.now.domain }
    {
        self.domain
    }

    /// Whether a byte is in the local part.
    pub fn local_has(&self, byte: u8) -> bool
        ensures { result ≡ list_any (λ b. b == byte) self.now.local }
    {
        means_byte(self.content, byte)
    }

    /// The same address, in the same text.
    pub fn again(&self) -> AddressRef<'a>
        ensures { result ≡ self.now }
    {
        AddressRef {
            content: self.content,
            domain: self.domain,
        }
    }

    /// A copy that does not need the text.
    pub fn to_address(&self, alloc: Global) -> Result<Address, NoMemory>
        ensures { IfOk result (λ copy. copy ≡ self.now) }
    {
        Ok(Address {
            local: unquoted(alloc, self.content)?,
            domain: Bytes::from_slice(alloc, self.domain)?,
        })
    }
}

/// A path (RFC 5321, 4.1.2). The source route that may be in it is no part of it (RFC 5321, appendix C).
#[derive(Debug, PartialEq, Eq, Drop)]
pub enum Path<A = Address> {
    /// `<>`, the sender of messages that nothing is to be returned for.
    Null,
    /// The path to an address.
    To(A),
}

impl<'a> Path<AddressRef<'a>> {
    /// A copy that does not need the text.
    pub fn to_path(&self, alloc: Global) -> Result<Path, NoMemory>
        ensures { IfOk result (λ copy. copy ≡ self.now) }
    {
        match self {
            Path::Null => Ok(Path::Null),
            Path::To(address) => Ok(Path::To(address.to_address(alloc)?)),
        }
    }
}

/// A path that a text begins with, and where it ends: the number of bytes up to its last, space before it included.
#[derive(Debug, PartialEq, Eq, Drop)]
pub struct PathRead<A = Address> {
    pub path: Path<A>,
    pub end: u64,
}

/// Why no path was read.
#[derive(Clone, Copy, Debug, PartialEq, Eq)]
pub enum PathFault {
    /// The text begins with no path.
    Malformed,
    /// Out of memory.
    NoMemory,
}

impl From<NoMemory> for PathFault {
    ghost use Rattle.std.specs.Prelude.{◌≡◌};
    ghost use Rattle.pf_addr.specs.declared.address.PathFault.TheVariants.{NoMemory};

    ghost from_gives = { λ _ fault. fault ≡ NoMemory };

    fn from(_: NoMemory) -> PathFault {
        PathFault::NoMemory
    }
}
