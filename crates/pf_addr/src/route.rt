//! Source routes (RFC 5321, 4.1.2), which are read over (RFC 5321, appendix C).
ghost use Rattle.std.specs.Prelude.{◌≡◌, ◌≤◌, length};
ghost use Rattle.std.specs.List.{list_all};
ghost use Rattle.pf_addr.specs.Grammar as grammar;
ghost use Rattle.pf_addr.specs.Clauses.Reading as reading;

use crate::classes::is_name_byte;
use crate::domain::DOMAIN_LIMIT;
use pf_base::before_byte;

fn has_name_bytes(domain: &[u8]) -> bool
    ensures { result ≡ list_all grammar.is_name_byte domain.now }
{
    domain.iter().all(|b| is_name_byte(*b))
}

#[tactic(auto, unfolding(crate::specs::Grammar::is_at_domain))]
fn is_at_domain(text: &[u8]) -> bool
    ensures { result ≡ grammar.is_at_domain text.now }
{
    match text {
        [] => false,
        [at, domain @ ..] => {
            *at == b'@'
                && 0 < domain.len()
                && domain.len() <= DOMAIN_LIMIT
                && has_name_bytes(domain)
        }
    }
}

fn is_route(text: &[u8]) -> bool
    ensures { result ≡ grammar.is_route text.now }
{
    text.split(|b| *b == b',').all(|part| is_at_domain(part))
}

// The length of the route that a text begins with, its colon counted; 0 where there is none.
#[tactic(auto, unfolding(crate::specs::Clauses::Reading::route_len))]
pub(crate) fn route_len(text: &[u8]) -> usize
    ensures within { result ≤ length text.now }
    ensures count { result ≡ reading.route_len text.now }
{
    let route = before_byte(text, b':');
    if route.len() < text.len() && is_route(route) {
        route.len() + 1
    } else {
        0
    }
}
