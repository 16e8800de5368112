//! Nets of addresses.
ghost use Rattle.std.specs.Prelude.{◌≡◌, ◌≤◌, ◌/◌, ◌%◌, ◌^◌, ◌==◌, not, IfSome};
ghost use Rattle.std.specs.List.{list_any};
ghost use Rattle.pf_cidr.specs.Nets as nets;

use crate::address::Addr;
use pf_base::{after_byte, before_byte, decimal_within};
use std::marker::Model;

// How many bits an IPv4 address has.
const V4_BITS: u8 = 32;

// How many bits an IPv6 address has.
const V6_BITS: u8 = 128;

/// A net: the addresses of one family whose first bits are those of its own address (cidr_table(5)). The prefix says how
/// many bits, at most 32 for IPv4 and 128 for IPv6.
#[derive(Debug, Drop)]
pub struct Net {
    addr: Addr,
    prefix: u8,
}

impl Model for Net {
    ghost use Rattle.std.specs.Prelude.{◌≤◌};
    ghost use Rattle.pf_cidr.specs.Nets.{Network, width};

    ghost Value = { Network };

    ghost view = { λ net. record { addr = net.addr; prefix = net.prefix } };

    ghost invariant = { λ net. net.prefix ≤ width net.addr };
}

/// Why a text is no net.
#[derive(Clone, Copy, Debug, PartialEq, Eq)]
pub enum NetFault {
    /// It writes no net.
    Syntax,
    /// A bit of its address after the prefix is set.
    HostBits,
}

fn width(addr: Addr) -> u8
    ensures { result ≡ nets.width addr }
{
    match addr {
        Addr::V4(_) => V4_BITS,
        Addr::V6(_) => V6_BITS,
    }
}

// A number without its last bits.
fn without_last(bits: u128, count: u8) -> u128
    requires { count ≤ 128 }
    ensures { result ≡ bits / 2 ^ count }
{
    if count < V6_BITS { bits >> count } else { 0 }
}

// Whether one of the last bits of a number is set.
fn has_last(bits: u128, count: u8) -> bool
    requires { count ≤ 128 }
    ensures { result ≡ not (bits % 2 ^ count == 0) }
{
    if count < V6_BITS {
        bits % (1 << count) != 0
    } else {
        bits != 0
    }
}

fn is_in_brackets(text: &[u8]) -> bool
    ensures { result ≡ nets.is_in_brackets text.now }
{
    2 <= text.len() && text[0] == b'[' && text[text.len() - 1] == b']'
}

// An address that is IPv6.
fn if_v6(addr: Addr) -> Option<Addr>
    ensures { result ≡ nets.if_v6 addr }
{
    match addr {
        Addr::V4(_) => None,
        Addr::V6(bits) => Some(Addr::V6(bits)),
    }
}

// The address of a net: one of IPv6 may be in brackets.
#[tactic(auto, unfolding(crate::specs::Nets::host_of))]
fn host_of(text: &[u8]) -> Option<Addr>
    ensures { result ≡ nets.host_of text.now }
{
    if !is_in_brackets(text) {
        return Addr::read(text);
    }
    let addr = Addr::read(&text[1..text.len() - 1])?;
    if_v6(addr)
}

fn has_slash(text: &[u8]) -> bool
    ensures { result ≡ list_any nets.is_slash text.now }
{
    text.iter().any(|b| *b == b'/')
}

impl Net {
    // An address alone, all of whose bits count.
    fn alone(text: &[u8]) -> Option<Net>
        ensures { result ≡ nets.alone text.now }
    {
        let addr = host_of(text)?;
        Some(Net {
            addr,
            prefix: width(addr),
        })
    }

    // An address, a slash and how many of its first bits count.
    fn prefixed(text: &[u8]) -> Option<Net>
        ensures { result ≡ nets.prefixed text.now }
    {
        let addr = host_of(before_byte(text, b'/'))?;
        let prefix = decimal_within(after_byte(text, b'/'), u64::from(width(addr)))?;
        Some(Net {
            addr,
            prefix: prefix as u8,
        })
    }

    // The net that a text writes, whichever bits of its address are set.
    #[tactic(auto, unfolding(crate::specs::Nets::written_net))]
    fn written(text: &[u8]) -> Option<Net>
        ensures { result ≡ nets.written_net text.now }
    {
        if has_slash(text) {
            Net::prefixed(text)
        } else {
            Net::alone(text)
        }
    }

    // Whether a bit of the address after the prefix is set.
    fn has_host_bits(&self) -> bool
        ensures { result ≡ nets.has_host_bits self.now }
    {
        match self.addr {
            Addr::V4(bits) => has_last(u128::from(bits), V4_BITS - self.prefix),
            Addr::V6(bits) => has_last(bits, V6_BITS - self.prefix),
        }
    }

    /// The net that a text writes: an address, IPv6 in brackets or not, and after a slash its prefix, a decimal number
    /// without leading zeros; without a slash a net of one address (cidr_table(5)). `HostBits` comes exactly where the text
    /// is such a net but for a bit after its prefix that is set, `Syntax` where it is none.
    #[tactic(auto, unfolding(crate::specs::Nets::net_of))]
    pub fn read(text: &[u8]) -> Result<Net, NetFault>
        ensures is { result ≡ nets.net_of text.now }
        ensures written { nets.Reads text.now result }
    {
        match Net::written(text) {
            None => Err(NetFault::Syntax),
            Some(net) => {
                if net.has_host_bits() {
                    Err(NetFault::HostBits)
                } else {
                    Ok(net)
                }
            }
        }
    }

    /// Whether the net has an address: one of its family with the same first bits (cidr_table(5)).
    pub fn has(&self, addr: &Addr) -> bool
        ensures { result ≡ nets.net_has self.now addr.now }
    {
        match self.addr {
            Addr::V4(own) => match *addr {
                Addr::V4(bits) => {
                    let behind = V4_BITS - self.prefix;
                    u64::from(bits) >> behind == u64::from(own) >> behind
                }
                Addr::V6(_) => false,
            },
            Addr::V6(own) => match *addr {
                Addr::V4(_) => false,
                Addr::V6(bits) => {
                    let behind = V6_BITS - self.prefix;
                    without_last(bits, behind) == without_last(own, behind)
                }
            },
        }
    }
}
