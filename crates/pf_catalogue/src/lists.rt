//! The items of lists.
ghost use Rattle.std.specs.Prelude.{◌≡◌, ◌==◌};
ghost use Rattle.std.specs.List.{list_all, list_any};
ghost use Rattle.std.specs.Option.{option_copied};
ghost use Rattle.pf_base.specs.Text.Ascii as ascii;
ghost use Rattle.pf_catalogue.specs.Lists as spec;

use pf_base::Bytes;

/// Whether a text is a file's name: it begins with a slash.
pub(crate) fn is_file(text: &[u8]) -> bool
    ensures { result ≡ spec.is_file text.now }
{
    match text {
        [b'/', ..] => true,
        _ => false,
    }
}

/// Whether no item is a file's name.
pub(crate) fn has_no_file(items: &[Bytes]) -> bool
    ensures { result ≡ spec.has_no_file items.now }
{
    items.iter().all(|item| !is_file(item.as_slice()))
}

// One of the four places of an address.
fn is_address_kind(word: &[u8]) -> bool
    ensures { result ≡ spec.is_address_kind word.now }
{
    word == b"envelope_sender".as_slice()
        || word == b"envelope_recipient".as_slice()
        || word == b"header_sender".as_slice()
        || word == b"header_recipient".as_slice()
}

/// Whether each item is one of the four places of an address.
pub(crate) fn are_address_kinds(items: &[Bytes]) -> bool
    ensures { result ≡ list_all spec.is_address_kind items.now }
{
    items.iter().all(|item| is_address_kind(item.as_slice()))
}

// One of the ways in which an extension is handed on.
fn is_extension_way(word: &[u8]) -> bool
    ensures { result ≡ spec.is_extension_way word.now }
{
    word == b"canonical".as_slice()
        || word == b"virtual".as_slice()
        || word == b"alias".as_slice()
        || word == b"forward".as_slice()
        || word == b"include".as_slice()
        || word == b"generic".as_slice()
}

/// Whether each item is one of the ways in which an extension is handed on.
pub(crate) fn are_extension_ways(items: &[Bytes]) -> bool
    ensures { result ≡ list_all spec.is_extension_way items.now }
{
    items.iter().all(|item| is_extension_way(item.as_slice()))
}

fn has_colon(text: &[u8]) -> bool
    ensures { result ≡ list_any (λ b. b == ascii.colon) text.now }
{
    text.iter().any(|b| *b == b':')
}

fn begins_with_bracket(text: &[u8]) -> bool
    ensures { result ≡ spec.begins_with_bracket text.now }
{
    match text {
        [b'[', ..] => true,
        _ => false,
    }
}

/// An item without the exclamation mark that turns it round.
pub(crate) fn without_not(item: &[u8]) -> &[u8]
    ensures { result.now ≡ spec.without_not item.now }
{
    match item {
        [b'!', text @ ..] => text,
        _ => item,
    }
}

/// Whether a text is a table or a file's name: it begins with a slash, or holds a colon and does not begin with a bracket.
pub(crate) fn is_table(text: &[u8]) -> bool
    ensures { result ≡ spec.is_table text.now }
{
    is_file(text) || has_colon(text) && !begins_with_bracket(text)
}

/// The table or file that an item of a list of domains, networks or hosts names, with or without an exclamation mark before it
/// (DATABASE_README): what begins with a slash, or holds a colon and does not begin with a bracket. None where it names none.
pub fn table_in(item: &[u8]) -> Option<&[u8]>
    ensures { option_copied result ≡ spec.table_in item.now }
{
    let text = without_not(item);
    if is_table(text) { Some(text) } else { None }
}
