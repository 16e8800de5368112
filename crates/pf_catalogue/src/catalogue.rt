//! The table of parameters.
ghost use Rattle.std.specs.Prelude.{◌≡◌, ◌<◌, length, map, IfSome};
ghost use Rattle.std.specs.List.{position};
ghost use Rattle.std.specs.Str.{bytes_eq};
ghost use Rattle.pf_catalogue.specs.Catalogue as spec;
ghost use Rattle.pf_catalogue.specs.Clauses.RowsMeant.{row_meant};
ghost use Rattle.pf_catalogue.specs.declared.count.TheConstants.{PARAMS};

use crate::count::PARAMS;
use crate::kind::Kind::{
    self, AddressKinds, Code, Domains, Extensions, FixedYes, Hosts, Interfaces, Maps, Names,
    Networks, Number, Origin, Restrictions, RewriteClients, Text, Unset, Yes,
};
use pf_base::Meaning::{self, DomainOf, Is};

/// A parameter: its name, what its values are, and what it stands for where it is not set.
#[derive(Clone, Copy)]
pub struct Row<'a>(pub &'a [u8], pub Kind, pub Meaning<&'a [u8], &'a [u8]>);

/// The parameters in the order of their names' bytes.
static CATALOGUE: [Row<'static>; PARAMS as usize] = [
    Row(b"access_map_defer_code", Code, Is(b"450")),
    Row(b"access_map_reject_code", Code, Is(b"554")),
    Row(b"alias_maps", Maps, Is(b"")),
    Row(b"allow_percent_hack", Yes, Is(b"yes")),
    Row(b"append_at_myorigin", Yes, Is(b"yes")),
    Row(b"append_dot_mydomain", Yes, Is(b"no")),
    Row(b"body_checks", Maps, Is(b"")),
    Row(
        b"canonical_classes",
        AddressKinds,
        Is(b"envelope_sender, envelope_recipient, header_sender, header_recipient"),
    ),
    Row(b"canonical_maps", Maps, Is(b"")),
    Row(b"defer_code", Code, Is(b"450")),
    Row(b"header_checks", Maps, Is(b"")),
    Row(
        b"header_size_limit",
        Number {
            least: 100,
            most: 10_000_000,
        },
        Is(b"102400"),
    ),
    Row(b"inet_interfaces", Interfaces, Is(b"all")),
    Row(b"invalid_hostname_reject_code", Code, Is(b"501")),
    Row(
        b"line_length_limit",
        Number {
            least: 100,
            most: 1_000_000,
        },
        Is(b"2048"),
    ),
    Row(
        b"local_header_rewrite_clients",
        RewriteClients,
        Is(b"permit_inet_interfaces"),
    ),
    Row(b"local_recipient_maps", Maps, Is(b"$alias_maps")),
    Row(b"mail_name", Text, Is(b"Postfix")),
    Row(b"maps_rbl_reject_code", Code, Is(b"554")),
    Row(
        b"masquerade_classes",
        AddressKinds,
        Is(b"envelope_sender, header_sender, header_recipient"),
    ),
    Row(b"masquerade_domains", Names, Is(b"")),
    Row(b"masquerade_exceptions", Names, Is(b"")),
    Row(
        b"message_size_limit",
        Number {
            least: 0,
            most: 2_147_483_647,
        },
        Is(b"10240000"),
    ),
    Row(b"multi_recipient_bounce_reject_code", Code, Is(b"550")),
    Row(
        b"mydestination",
        Domains,
        Is(b"$myhostname, localhost.$mydomain, localhost"),
    ),
    Row(b"mydomain", Text, DomainOf(b"myhostname")),
    Row(b"myhostname", Text, Is(b"localhost.localdomain")),
    Row(b"mynetworks", Networks, Is(b"127.0.0.0/8 [::1]/128")),
    Row(b"myorigin", Origin, Is(b"$myhostname")),
    Row(b"non_fqdn_reject_code", Code, Is(b"504")),
    Row(b"parent_domain_matches_subdomains", Unset, Is(b"")),
    Row(
        b"propagate_unmatched_extensions",
        Extensions,
        Is(b"canonical, virtual"),
    ),
    Row(
        b"recipient_canonical_classes",
        AddressKinds,
        Is(b"envelope_recipient, header_recipient"),
    ),
    Row(b"recipient_canonical_maps", Maps, Is(b"")),
    Row(b"recipient_delimiter", Text, Is(b"")),
    Row(b"reject_code", Code, Is(b"554")),
    Row(b"relay_domains", Domains, Is(b"")),
    Row(b"relay_domains_reject_code", Code, Is(b"554")),
    Row(b"relay_recipient_maps", Maps, Is(b"")),
    Row(b"remote_header_rewrite_domain", Text, Is(b"")),
    Row(b"resolve_dequoted_address", FixedYes, Is(b"yes")),
    Row(
        b"sender_canonical_classes",
        AddressKinds,
        Is(b"envelope_sender, header_sender"),
    ),
    Row(b"sender_canonical_maps", Maps, Is(b"")),
    Row(b"smtpd_authorized_xclient_hosts", Hosts, Is(b"")),
    Row(b"smtpd_banner", Text, Is(b"$myhostname ESMTP $mail_name")),
    Row(b"smtpd_client_restrictions", Restrictions, Is(b"")),
    Row(b"smtpd_data_restrictions", Restrictions, Is(b"")),
    Row(b"smtpd_delay_reject", FixedYes, Is(b"yes")),
    Row(b"smtpd_end_of_data_restrictions", Restrictions, Is(b"")),
    Row(
        b"smtpd_hard_error_limit",
        Number {
            least: 1,
            most: 2_147_483_647,
        },
        Is(b"20"),
    ),
    Row(b"smtpd_helo_required", Yes, Is(b"no")),
    Row(b"smtpd_helo_restrictions", Restrictions, Is(b"")),
    Row(b"smtpd_null_access_lookup_key", Text, Is(b"<>")),
    Row(
        b"smtpd_policy_service_default_action",
        Text,
        Is(b"451 4.3.5 Server configuration problem"),
    ),
    Row(
        b"smtpd_policy_service_try_limit",
        Number {
            least: 1,
            most: 100,
        },
        Is(b"2"),
    ),
    Row(
        b"smtpd_recipient_limit",
        Number {
            least: 1,
            most: 2_147_483_647,
        },
        Is(b"1000"),
    ),
    Row(b"smtpd_recipient_restrictions", Restrictions, Is(b"")),
    Row(b"smtpd_reject_unlisted_recipient", Yes, Is(b"yes")),
    Row(
        b"smtpd_relay_before_recipient_restrictions",
        FixedYes,
        Is(b"yes"),
    ),
    Row(
        b"smtpd_relay_restrictions",
        Restrictions,
        Is(b"permit_mynetworks, permit_sasl_authenticated, defer_unauth_destination"),
    ),
    Row(b"smtpd_restriction_classes", Names, Is(b"")),
    Row(b"smtpd_sender_restrictions", Restrictions, Is(b"")),
    Row(b"swap_bangpath", Yes, Is(b"yes")),
    Row(b"unknown_address_reject_code", Code, Is(b"450")),
    Row(b"unknown_client_reject_code", Code, Is(b"450")),
    Row(b"unknown_hostname_reject_code", Code, Is(b"450")),
    Row(b"unknown_local_recipient_reject_code", Code, Is(b"550")),
    Row(b"unknown_relay_recipient_reject_code", Code, Is(b"550")),
    Row(b"unknown_virtual_alias_reject_code", Code, Is(b"550")),
    Row(b"unknown_virtual_mailbox_reject_code", Code, Is(b"550")),
    Row(
        b"virtual_alias_address_length_limit",
        Number {
            least: 1,
            most: 1_000_000,
        },
        Is(b"1000"),
    ),
    Row(
        b"virtual_alias_domains",
        Domains,
        Is(b"$virtual_alias_maps"),
    ),
    Row(
        b"virtual_alias_expansion_limit",
        Number {
            least: 1,
            most: 1_000_000,
        },
        Is(b"1000"),
    ),
    Row(b"virtual_alias_maps", Maps, Is(b"$virtual_maps")),
    Row(
        b"virtual_alias_recursion_limit",
        Number {
            least: 1,
            most: 1_000_000,
        },
        Is(b"1000"),
    ),
    Row(
        b"virtual_mailbox_domains",
        Domains,
        Is(b"$virtual_mailbox_maps"),
    ),
    Row(b"virtual_mailbox_maps", Maps, Is(b"")),
];

fn rows() -> &'static [Row<'static>]
    ensures rows { map row_meant result.now ≡ spec.catalogue }
    ensures count { length result.now ≡ PARAMS }
{
    &CATALOGUE
}

// The parameter at a place.
pub(crate) fn row_at(place: usize) -> &'static Row<'static>
    requires { place < PARAMS }
    ensures { row_meant result.now ≡ spec.row_at place }
{
    &rows()[place]
}

// The place of the first of these parameters that has this name.
fn place_in(rows: &[Row<'_>], name: &[u8]) -> Option<usize>
    ensures { result ≡ position (λ r. bytes_eq (row_meant r).name name.now) rows.now }
{
    rows.iter().position(|row| row.0 == name)
}

// The place of the parameter of a name.
pub(crate) fn place_of(name: &[u8]) -> Option<usize>
    ensures place { result ≡ spec.place_of name.now }
    ensures within { IfSome result (λ place. place < PARAMS) }
{
    place_in(rows(), name)
}
