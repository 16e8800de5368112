//! Paths as MAIL and RCPT carry them (RFC 5321, 4.1.2).
ghost use Rattle.std.specs.Prelude.{◌≡◌, ◌≤◌, ◌<◌, ◌+◌, ◌^◌, length, IfSome};
ghost use Rattle.std.specs.List.{prefix_len};
ghost use Rattle.std.specs.Option.{ok_or};
ghost use Rattle.std.specs.Result.{result_ok};
ghost use Rattle.pf_base.specs.Text.Space as space;
ghost use Rattle.pf_base.specs.Clauses.Unless.{Unless};
ghost use Rattle.pf_addr.specs.Grammar.{Reads};
ghost use Rattle.pf_addr.specs.Grammar as grammar;
ghost use Rattle.pf_addr.specs.Spelled.{path_of};
ghost use Rattle.pf_addr.specs.Clauses.Reading as reading;

use crate::address::{AddressRef, Path, PathFault, PathRead};
use crate::mailbox::{address_of, mailbox_in, mailbox_len};
use crate::route::route_len;
use pf_base::is_space;
use std::alloc::Global;

fn is_end(rest: &[u8]) -> bool
    ensures { result ≡ grammar.is_end rest.now }
{
    match rest {
        [] => true,
        [first, ..] => is_space(*first),
    }
}

// How many bytes of space a text begins with.
fn space_len(text: &[u8]) -> usize
    ensures within { result ≤ length text.now }
    ensures count { result ≡ prefix_len space.is_space text.now }
{
    text.iter().take_while(|b| is_space(**b)).count()
}

// A path without brackets.
#[tactic(auto, unfolding(crate::specs::Clauses::Reading::bare))]
fn bare(text: &[u8]) -> Option<PathRead<AddressRef<'_>>>
    ensures within { IfSome result (λ r. r.end ≤ length text.now) }
    ensures path { result ≡ reading.bare text.now }
{
    let m = mailbox_in(text)?;
    let end = mailbox_len(text, m);
    if !is_end(&text[end..]) {
        return None;
    }
    Some(PathRead {
        path: Path::To(address_of(text, m)),
        end: end as u64,
    })
}

// A mailbox and the bracket after it.
#[tactic(auto, unfolding(crate::specs::Clauses::Reading::closed))]
fn closed(text: &[u8]) -> Option<PathRead<AddressRef<'_>>>
    ensures within { IfSome result (λ r. r.end ≤ length text.now) }
    ensures path { result ≡ reading.closed text.now }
{
    let m = mailbox_in(text)?;
    let end = mailbox_len(text, m);
    if end == text.len() || text[end] != b'>' {
        return None;
    }
    Some(PathRead {
        path: Path::To(address_of(text, m)),
        end: end as u64 + 1,
    })
}

// The same path, after so many bytes.
fn behind<'a>(n: usize, read: Option<PathRead<AddressRef<'a>>>) -> Option<PathRead<AddressRef<'a>>>
    requires { IfSome read (λ r. n + r.end < 2 ^ 64) }
    ensures { result ≡ reading.behind n read.entry }
{
    let read = read?;
    Some(PathRead {
        path: read.path,
        end: n as u64 + read.end,
    })
}

// What is after the first bracket of a path.
#[tactic(auto, unfolding(crate::specs::Clauses::Reading::bracketed))]
fn bracketed(text: &[u8]) -> Option<PathRead<AddressRef<'_>>>
    ensures within { IfSome result (λ r. r.end ≤ length text.now) }
    ensures path { result ≡ reading.bracketed text.now }
{
    if let [b'>', ..] = text {
        return Some(PathRead {
            path: Path::Null,
            end: 1,
        });
    }
    let route = route_len(text);
    behind(route, closed(&text[route..]))
}

#[tactic(auto, unfolding(crate::specs::Clauses::Reading::path))]
fn path_in(text: &[u8]) -> Option<PathRead<AddressRef<'_>>>
    ensures within { IfSome result (λ r. r.end ≤ length text.now) }
    ensures path { result ≡ reading.path text.now }
{
    match text {
        [b'<', inside @ ..] => behind(1, bracketed(inside)),
        _ => bare(text),
    }
}

// A path after space.
#[tactic(auto, unfolding(crate::specs::Clauses::Reading::reading))]
fn read(text: &[u8]) -> Option<PathRead<AddressRef<'_>>>
    ensures { result ≡ reading.reading text.now }
{
    let space = space_len(text);
    behind(space, path_in(&text[space..]))
}

/// The path that a text begins with, after space, and where it ends (RFC 5321, 4.1.2): `<>`, an address alone, or in
/// brackets, there with a source route before it or without. None exactly where the text begins with no path. Its address is
/// in the text, and no memory is taken.
pub fn path_ref(text: &[u8]) -> Option<PathRead<AddressRef<'_>>>
    ensures is { result ≡ path_of text.now }
    ensures reads { Reads text.now result }
{
    read(text)
}

/// The same path, with an address that does not need the text. Malformed exactly where the text begins with no path.
pub fn path(alloc: Global, text: &[u8]) -> Result<PathRead, PathFault>
    ensures is { Unless result PathFault.NoMemory (λ r. r ≡ ok_or (path_of text.now) PathFault.Malformed) }
    ensures reads { Unless result PathFault.NoMemory (λ r. Reads text.now (result_ok r)) }
{
    let Some(read) = path_ref(text) else {
        return Err(PathFault::Malformed);
    };
    Ok(PathRead {
        path: read.path.to_path(alloc)?,
        end: read.end,
    })
}
