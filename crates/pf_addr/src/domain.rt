//! Domains of addresses, by their lengths. A length of 0 says that there is none.
ghost use Rattle.std.specs.Prelude.{◌≡◌, ◌≤◌, ◌+◌, length};
ghost use Rattle.std.specs.List.{prefix_len};
ghost use Rattle.pf_addr.specs.Grammar as grammar;
ghost use Rattle.pf_addr.specs.Clauses.Reading as reading;

use crate::classes::{is_literal_byte, is_name_byte};

// The greatest length of a domain (RFC 5321, 4.5.3.1.2).
pub(crate) const DOMAIN_LIMIT: usize = 255;

// How many bytes of a name a text begins with.
pub(crate) fn name_len(text: &[u8]) -> usize
    ensures within { result ≤ length text.now }
    ensures count { result ≡ prefix_len grammar.is_name_byte text.now }
{
    text.iter().take_while(|b| is_name_byte(**b)).count()
}

// How many bytes of a literal's inside a text begins with.
fn inside_len(text: &[u8]) -> usize
    ensures within { result ≤ length text.now }
    ensures count { result ≡ prefix_len grammar.is_literal_byte text.now }
{
    text.iter().take_while(|b| is_literal_byte(**b)).count()
}

// The length of the literal whose first bracket is before a text.
fn literal_len(inside: &[u8]) -> usize
    ensures within { result ≤ length inside.now + 1 }
    ensures count { result ≡ reading.literal_len_of inside.now (prefix_len grammar.is_literal_byte inside.now) }
{
    let n = inside_len(inside);
    if n < inside.len() && inside[n] == b']' {
        n + 2
    } else {
        0
    }
}

fn unlimited_len(text: &[u8]) -> usize
    ensures within { result ≤ length text.now }
    ensures count { result ≡ reading.unlimited_len text.now }
{
    match text {
        [b'[', inside @ ..] => literal_len(inside),
        _ => name_len(text),
    }
}

// The length of the domain that a text begins with.
#[tactic(auto, unfolding(crate::specs::Clauses::Reading::domain_len))]
pub(crate) fn domain_len(text: &[u8]) -> usize
    ensures within { result ≤ length text.now }
    ensures count { result ≡ reading.domain_len text.now }
{
    let n = unlimited_len(text);
    if n <= DOMAIN_LIMIT { n } else { 0 }
}
