//! The items of lists of domains and of networks, as settings write them.
ghost use Rattle.std.specs.Prelude.{◌≡◌, ◌++◌, IfOk, OnOk};
ghost use Rattle.std.specs.Option.{option_map, option_to_list};
ghost use Rattle.pf_catalogue.specs.Lists as lists;
ghost use Rattle.pf_class.specs.Clauses.Lists.{SaysAs, gathered_items};
ghost use Rattle.pf_class.specs.Items as spec;

use crate::gathering::Gathered;
use crate::item::{Item, Pattern};
use pf_base::{Bytes, List, NoMemory, Specs, TableId};
use pf_catalogue::table_in;
use pf_cidr::Net;
use std::alloc::Global;

// Whether an item is after an exclamation mark.
fn is_excluded(word: &[u8]) -> bool
    ensures { result ≡ spec.is_excluded word.now }
{
    match word {
        [b'!', ..] => true,
        _ => false,
    }
}

// An item without its exclamation mark.
fn without_not(word: &[u8]) -> &[u8]
    ensures { result.now ≡ lists.without_not word.now }
{
    match word {
        [b'!', text @ ..] => text,
        _ => word,
    }
}

// The table or list file at a place.
fn table_at(text: &[u8], id: TableId) -> Pattern
    ensures { result ≡ spec.table_at text.now id.0 }
{
    match text {
        [b'/', ..] => Pattern::File(id),
        _ => Pattern::Table(id),
    }
}

fn table_pattern(specs: &Specs, text: &[u8]) -> Option<Pattern>
    ensures { result ≡ spec.table_pattern specs.now.texts text.now }
{
    match specs.id(text) {
        None => None,
        Some(id) => Some(table_at(text, id)),
    }
}

fn network_pattern(specs: &Specs, word: &[u8]) -> Option<Pattern>
    ensures { result ≡ spec.network_pattern specs.now.texts word.now }
{
    match table_in(word) {
        Some(text) => table_pattern(specs, text),
        None => match Net::read(without_not(word)) {
            Ok(net) => Some(Pattern::Net(net)),
            Err(_) => None,
        },
    }
}

// An item with what it is matched by.
fn item_by(pattern: Option<Pattern>, word: &[u8]) -> Option<Item>
    ensures { result ≡ spec.item_by pattern word.now }
{
    match pattern {
        None => None,
        Some(pattern) => Some(Item {
            pattern,
            excludes: is_excluded(word),
        }),
    }
}

// Adds an item that names a table, if it is there.
fn push_table(
    alloc: Global,
    gathered: &mut Gathered,
    specs: &Specs,
    text: &[u8],
    word: &[u8],
) -> Result<(), NoMemory>
    ensures { OnOk result (SaysAs (gathered_items gathered.new)
        (gathered_items gathered.old ++ option_to_list (spec.item_by (spec.table_pattern specs.now.texts text.now) word.now))) }
{
    match item_by(table_pattern(specs, text), word) {
        None => Ok(()),
        Some(item) => gathered.push(alloc, item),
    }
}

// Adds an item of a list of domains.
fn push_domain(
    alloc: Global,
    gathered: &mut Gathered,
    specs: &Specs,
    word: &[u8],
) -> Result<(), NoMemory>
    ensures { OnOk result (SaysAs (gathered_items gathered.new)
        (gathered_items gathered.old ++ option_to_list (spec.domain_item specs.now.texts word.now))) }
{
    match table_in(word) {
        Some(text) => push_table(alloc, gathered, specs, text, word),
        None => gathered.push_name(alloc, without_not(word), is_excluded(word)),
    }
}

/// The items of a list of domains (postconf(5), mydestination, relay_domains): each a name, or a table or list file by its place among
/// the table texts, or one of these after `!`. What names a table that is not there is left out. Names that follow each other are one
/// item, which says the same.
pub(crate) fn domain_items(
    alloc: Global,
    specs: &Specs,
    words: &[Bytes],
) -> Result<List<Item>, NoMemory>
    ensures { IfOk result (λ items. SaysAs items (spec.domain_items specs.now.texts words.now)) }
{
    let mut gathered = Gathered::new(alloc);
    for word in words {
        push_domain(alloc, &mut gathered, specs, word.as_slice())?;
    }
    gathered.finish()
}

/// Adds an item, where there is one.
pub(crate) fn push_some<T: Drop>(list: &mut List<T>, item: Option<T>) -> Result<(), NoMemory>
    ensures { OnOk result (list.new ≡ list.old ++ option_to_list item) }
{
    match item {
        None => Ok(()),
        Some(item) => list.push(item),
    }
}

/// The items of a list of networks (postconf(5), mynetworks): each an address or a net, or a table or list file by its place among the
/// table texts, or one of these after `!`. What is none of them is left out.
pub(crate) fn network_items(
    alloc: Global,
    specs: &Specs,
    words: &[Bytes],
) -> Result<List<Item>, NoMemory>
    ensures { IfOk result (λ items. items ≡ spec.network_items specs.now.texts words.now) }
{
    let mut items = List::new(alloc);
    for word in words {
        let item = item_by(network_pattern(specs, word.as_slice()), word.as_slice());
        push_some(&mut items, item)?;
    }
    Ok(items)
}
