//! The clients whose headers are rewritten.
ghost use Rattle.std.specs.Prelude.{◌≡◌, false};
ghost use Rattle.pf_catalogue.specs.Clients as spec;

use crate::arguments::{Argument, argument_of};
use crate::kind::Kind;
use crate::lists::is_file;
use pf_base::{Bytes, same_in_any_case};

// A test of a client that takes no argument.
fn is_client_test(word: &[u8]) -> bool
    ensures { result ≡ spec.is_client_test word.now }
{
    same_in_any_case(word, b"permit_inet_interfaces")
        || same_in_any_case(word, b"permit_mynetworks")
        || same_in_any_case(word, b"permit_sasl_authenticated")
}

fn wants_table(word: &[u8]) -> bool
    ensures { result ≡ spec.wants_table word.now }
{
    match argument_of(Kind::RewriteClients, word) {
        Argument::Table => true,
        Argument::Nothing => false,
        Argument::Text => false,
    }
}

// Whether an item can be where it does: a table after a word that wants one, and else a test.
fn fits(wanted: bool, item: &[u8]) -> bool
    ensures { result ≡ spec.fits wanted item.now }
{
    if wanted {
        !is_file(item)
    } else {
        wants_table(item) || is_client_test(item)
    }
}

/// Whether items are tests of clients, each with its table where it wants one.
pub(crate) fn are_rewrite_clients(items: &[Bytes]) -> bool
    ensures { result ≡ spec.are_rewrite_clients false items.now }
{
    let mut wanted = false;
    for item in items {
        if !fits(wanted, item.as_slice()) {
            return false;
        }
        wanted = !wanted && wants_table(item.as_slice());
    }
    !wanted
}
