//! The judge of the relay list, a function for each restriction.
ghost use Rattle.std.specs.Prelude.{◌≡◌};
ghost use Rattle.pf_eval.specs.Judge as judge;
ghost use Rattle.pf_eval.specs.Judge.{end_of};

use crate::policy::{PlainEnd, PlainItem, PlainPolicy};
use pf_base::same_in_any_case;
use pf_cidr::Addr;

// What an item says.
#[derive(Clone, Copy)]
enum Verdict {
    Permits,
    Denies,
    GoesOn,
}

fn is_in_mynetworks(policy: &PlainPolicy, client: &Addr) -> bool
    ensures { result ≡ judge.is_in_mynetworks policy.now client.now }
{
    policy.networks.as_slice().iter().any(|net| net.has(client))
}

fn is_destination(policy: &PlainPolicy, domain: &[u8]) -> bool
    ensures { result ≡ judge.is_destination policy.now domain.now }
{
    policy
        .destinations
        .as_slice()
        .iter()
        .any(|name| same_in_any_case(name.as_slice(), domain))
}

fn permit_mynetworks(policy: &PlainPolicy, client: &Addr) -> Verdict
    ensures { result ≡ judge.permit_mynetworks policy.now client.now }
{
    if is_in_mynetworks(policy, client) {
        Verdict::Permits
    } else {
        Verdict::GoesOn
    }
}

fn reject_unauth_destination(policy: &PlainPolicy, domain: &[u8]) -> Verdict
    ensures { result ≡ judge.reject_unauth_destination policy.now domain.now }
{
    if is_destination(policy, domain) {
        Verdict::GoesOn
    } else {
        Verdict::Denies
    }
}

fn item_verdict(policy: &PlainPolicy, client: &Addr, domain: &[u8], item: PlainItem) -> Verdict
    ensures { result ≡ judge.item_verdict policy.now client.now domain.now item }
{
    match item {
        PlainItem::PermitMynetworks => permit_mynetworks(policy, client),
        PlainItem::RejectUnauthDestination => reject_unauth_destination(policy, domain),
    }
}

/// How the relay list ends for the client of this address and a recipient in this domain, compared in any case
/// (SMTPD_ACCESS_README). A list that no item ends accepts.
#[tactic(auto, unfolding(crate::specs::Judge::end_of))]
pub fn judge_plain(policy: &PlainPolicy, client: &Addr, domain: &[u8]) -> PlainEnd
    ensures { result ≡ end_of policy.now client.now domain.now }
{
    let mut place: u64 = 1;
    for item in policy.relay.as_slice() {
        match item_verdict(policy, client, domain, *item) {
            Verdict::Permits => return PlainEnd::Accept,
            Verdict::Denies => return PlainEnd::Deny { place },
            Verdict::GoesOn => place += 1,
        }
    }
    PlainEnd::Accept
}
