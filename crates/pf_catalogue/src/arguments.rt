//! The words of lists that take an argument.
ghost use Rattle.std.specs.Prelude.{◌≡◌};
ghost use Rattle.pf_catalogue.specs.Arguments as spec;

use crate::kind::Kind;
use pf_base::same_in_any_case;

/// What a word takes after it.
#[derive(Clone, Copy, Debug, PartialEq, Eq)]
pub(crate) enum Argument {
    Nothing,
    Table,
    Text,
}

// The restrictions that look a key up in a table.
fn is_access_check(word: &[u8]) -> bool
    ensures { result ≡ spec.is_access_check word.now }
{
    same_in_any_case(word, b"check_client_access")
        || same_in_any_case(word, b"check_reverse_client_hostname_access")
        || same_in_any_case(word, b"check_helo_access")
        || same_in_any_case(word, b"check_sender_access")
        || same_in_any_case(word, b"check_recipient_access")
}

// The restrictions that ask a service or a list of the DNS.
fn asks_by_name(word: &[u8]) -> bool
    ensures { result ≡ spec.asks_by_name word.now }
{
    same_in_any_case(word, b"check_policy_service")
        || same_in_any_case(word, b"reject_rbl_client")
        || same_in_any_case(word, b"permit_dnswl_client")
        || same_in_any_case(word, b"reject_rhsbl_client")
        || same_in_any_case(word, b"reject_rhsbl_helo")
        || same_in_any_case(word, b"reject_rhsbl_sender")
        || same_in_any_case(word, b"reject_rhsbl_recipient")
}

fn restriction_argument(word: &[u8]) -> Argument
    ensures { result ≡ spec.restriction_argument word.now }
{
    if is_access_check(word) {
        Argument::Table
    } else if asks_by_name(word) {
        Argument::Text
    } else {
        Argument::Nothing
    }
}

fn client_argument(word: &[u8]) -> Argument
    ensures { result ≡ spec.client_argument word.now }
{
    if same_in_any_case(word, b"check_address_map") {
        Argument::Table
    } else {
        Argument::Nothing
    }
}

/// What a word of a list takes after it.
pub(crate) fn argument_of(kind: Kind, word: &[u8]) -> Argument
    ensures { result ≡ spec.argument_of kind word.now }
{
    match kind {
        Kind::Restrictions => restriction_argument(word),
        Kind::RewriteClients => client_argument(word),
        _ => Argument::Nothing,
    }
}
