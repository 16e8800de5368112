//! Mailboxes, by the lengths of their parts (RFC 5321, 4.1.2).
ghost use Rattle.std.specs.Prelude.{◌≡◌, ◌≤◌, ◌<◌, length, IfSome};
ghost use Rattle.pf_addr.specs.Clauses.Reading as reading;

use crate::address::AddressRef;
use crate::domain::domain_len;
use crate::local_part::{content_of, local_len};

// How long the parts of a mailbox are as they are spelled; a domain of length 0 is none.
#[derive(Clone, Copy)]
pub(crate) struct Mailbox {
    local: usize,
    domain: usize,
}

// The mailbox that a text begins with.
#[tactic(auto, unfolding(crate::specs::Clauses::Reading::mailbox, crate::specs::Clauses::Reading::mailbox_len))]
pub(crate) fn mailbox_in(text: &[u8]) -> Option<Mailbox>
    ensures within { IfSome result (λ m. reading.mailbox_len m ≤ length text.now) }
    ensures lengths { result ≡ reading.mailbox text.now }
{
    let local = local_len(text);
    if local == 0 {
        return None;
    }
    match &text[local..] {
        [b'@', behind @ ..] => with_domain(local, domain_len(behind)),
        _ => Some(Mailbox { local, domain: 0 }),
    }
}

// A mailbox whose local part has a domain after it.
fn with_domain(local: usize, domain: usize) -> Option<Mailbox>
    ensures { result ≡ reading.with_domain local domain }
{
    if domain == 0 {
        None
    } else {
        Some(Mailbox { local, domain })
    }
}

// How long a mailbox is, its at sign counted.
#[tactic(auto, unfolding(crate::specs::Clauses::Reading::mailbox_len))]
pub(crate) fn mailbox_len(text: &[u8], m: Mailbox) -> usize
    requires { reading.mailbox_len m ≤ length text.now }
    ensures { result ≡ reading.mailbox_len m }
{
    if m.domain == 0 {
        m.local
    } else {
        m.local + m.domain + 1
    }
}

// The address of a mailbox that a text begins with.
#[tactic(auto, unfolding(crate::specs::Clauses::Reading::address_of, crate::specs::Clauses::Reading::local_of, crate::specs::Clauses::Reading::mailbox_len))]
pub(crate) fn address_of(text: &[u8], m: Mailbox) -> AddressRef<'_>
    requires { reading.mailbox_len m ≤ length text.now }
    ensures { result ≡ reading.address_of text.now m }
{
    let domain: &[u8] = if m.domain == 0 {
        &[]
    } else {
        &text[m.local + 1..m.local + 1 + m.domain]
    };
    AddressRef {
        content: content_of(&text[..m.local]),
        domain,
    }
}
