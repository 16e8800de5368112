//! Addresses of hosts.
ghost use Rattle.std.specs.Prelude.{◌≡◌, IfOk};
ghost use Rattle.pf_cidr.specs.Addresses as addresses;

use pf_base::{Bytes, NoMemory};
use std::alloc::Global;
use std::net::{IpAddr, Ipv4Addr, Ipv6Addr};

/// An address of a host: the bits of an IPv4 address (RFC 791) or of an IPv6 address (RFC 4291) as a number, the first
/// bit the highest.
#[derive(Clone, Copy, Debug, PartialEq, Eq)]
pub enum Addr {
    V4(u32),
    V6(u128),
}

impl From<IpAddr> for Addr {
    ghost from_gives = { λ ip addr. addr ≡ addresses.address_with ip };

    fn from(ip: IpAddr) -> Addr {
        match ip {
            IpAddr::V4(ip) => Addr::V4(ip.to_bits()),
            IpAddr::V6(ip) => Addr::V6(ip.to_bits()),
        }
    }
}

fn print_v4(alloc: Global, bits: u32) -> Result<Bytes, NoMemory>
    ensures form { IfOk result (λ text. text ≡ addresses.printed (Addr.V4 bits)) }
    ensures written { IfOk result (λ text. addresses.IsWritten text (Addr.V4 bits)) }
{
    let ip = Ipv4Addr::from_bits(bits);
    let text = format!(in alloc; "{ip}")?;
    Bytes::from_slice(alloc, text.as_bytes())
}

fn print_v6(alloc: Global, bits: u128) -> Result<Bytes, NoMemory>
    ensures form { IfOk result (λ text. text ≡ addresses.printed (Addr.V6 bits)) }
    ensures written { IfOk result (λ text. addresses.IsWritten text (Addr.V6 bits)) }
{
    let groups = Ipv6Addr::from_bits(bits).hex_groups();
    let text = format!(in alloc; "{groups}")?;
    Bytes::from_slice(alloc, text.as_bytes())
}

impl Addr {
    /// The address that a text writes: four decimal numbers up to 255 without leading zeros, parted by dots, or eight groups
    /// of one to four hexadecimal digits, parted by colons, of which one run or none is written `::` and the last two may be
    /// written as an IPv4 address (RFC 4291, 2.2). None where it writes none.
    pub fn read(text: &[u8]) -> Option<Addr>
        ensures is { result ≡ addresses.address_of text.now }
        ensures written { addresses.Reads text.now result }
    {
        match IpAddr::parse_ascii(text) {
            Ok(ip) => Some(Addr::from(ip)),
            Err(_) => None,
        }
    }

    /// The address as it is printed: for IPv4 four decimal numbers, for IPv6 groups in lower case without leading zeros, the
    /// longest run of two zero groups or more as `::`, of equal ones the first (RFC 5952, 4). An IPv6 address is printed as
    /// groups alone, whichever it is. What is printed writes that address.
    pub fn print(&self, alloc: Global) -> Result<Bytes, NoMemory>
        ensures form { IfOk result (λ text. text ≡ addresses.printed self.now) }
        ensures written { IfOk result (λ text. addresses.IsWritten text self.now) }
    {
        match *self {
            Addr::V4(bits) => print_v4(alloc, bits),
            Addr::V6(bits) => print_v6(alloc, bits),
        }
    }
}
