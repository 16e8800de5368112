//! Membership in lists of domains, hosts and nets (ADDRESS_CLASS_README).
ghost use Rattle.std.specs.Prelude.{◌≡◌, ◌∷◌, ◌&&◌, [], not, IfOk};
ghost use Rattle.std.specs.List.{list_any};
ghost use Rattle.std.specs.Option.{option_map, option_to_list};
ghost use Rattle.pf_asks.specs.Looking.{CanFind};
ghost use Rattle.pf_class.specs.Members as spec;
ghost use Rattle.pf_class.specs.Clauses.Asking.{TriesOrWants};

use crate::fault::ClassFault;
use crate::item::{Item, Pattern};
use crate::names::Names;
use crate::subject::Subject;
use pf_asks::{Found, Lookup, TableFault};
use pf_base::{Bytes, List, NoMemory, TableId};
use pf_cidr::{Addr, Net};
use std::alloc::Global;

fn look<T: Lookup>(
    alloc: Global,
    tables: &mut T,
    id: TableId,
    key: &[u8],
) -> Result<Found, ClassFault>
    requires { CanFind (T.tables tables.old) (id ∷ []) }
    ensures { TriesOrWants (T.tables tables.old) (T.tables tables.new) (spec.looked id.0 key.now) result }
{
    match tables.find(alloc, id, key) {
        Ok(found) => Ok(found),
        Err(TableFault::Fails) => Err(ClassFault::LookupFailed),
        Err(TableFault::Failed) => Err(ClassFault::LookupFailed),
        Err(TableFault::NoMemory) => Err(ClassFault::NoMemory),
    }
}

// What a table has for the first of these keys for which it has a value.
fn first_value<T: Lookup>(
    alloc: Global,
    tables: &mut T,
    id: TableId,
    keys: &[Bytes],
) -> Result<Found, ClassFault>
    requires { CanFind (T.tables tables.old) (id ∷ []) }
    ensures { TriesOrWants (T.tables tables.old) (T.tables tables.new) (spec.first_value id.0 keys.now) result }
{
    for key in keys {
        let found = look(alloc, tables, id, key.as_slice())?;
        match found {
            Found::Value(value) => return Ok(Found::Value(value)),
            Found::Absent => {}
        }
    }
    Ok(Found::Absent)
}

fn begins_with_dot(name: &Bytes) -> bool
    ensures { result ≡ spec.begins_with_dot name.now }
{
    match name.as_slice() {
        [b'.', ..] => true,
        _ => false,
    }
}

// Whether a parent of a domain that does not begin with a dot is among the names.
fn has_parent(names: &Names, parents: &[Bytes]) -> bool
    ensures { result ≡ list_any (λ parent. not (spec.begins_with_dot parent) && spec.is_among names.now parent) parents.now }
{
    parents
        .iter()
        .any(|parent| !begins_with_dot(parent) && names.has(parent))
}

// Whether a domain is among the names, or such a parent of it.
fn has_one(names: &Names, keys: &[Bytes]) -> bool
    ensures { result ≡ spec.names_domain names.now keys.now }
{
    match keys {
        [] => false,
        [domain, parents @ ..] => names.has(domain) || has_parent(names, parents),
    }
}

fn is_in_net(net: &Net, address: &Option<Addr>) -> bool
    ensures { result ≡ spec.is_in_net net.now address.now }
{
    match address {
        None => false,
        Some(address) => net.has(address),
    }
}

fn if_matched(matched: bool) -> Option<bool>
    ensures { result ≡ spec.if_matched matched }
{
    if matched { Some(true) } else { None }
}

fn table_says(found: &Found) -> Option<bool>
    ensures { result ≡ spec.table_says found.now }
{
    match found {
        Found::Value(_) => Some(true),
        Found::Absent => None,
    }
}

fn file_says(found: &Found) -> Option<bool>
    ensures { result ≡ spec.file_says found.now }
{
    match found {
        Found::Value(value) => Some(value.as_slice() == b"yes".as_slice()),
        Found::Absent => None,
    }
}

// Whether a subject that matches a table is a member.
fn table_member<T: Lookup>(
    alloc: Global,
    tables: &mut T,
    id: TableId,
    subject: &Subject,
) -> Result<Option<bool>, ClassFault>
    requires { CanFind (T.tables tables.old) (id ∷ []) }
    ensures { TriesOrWants (T.tables tables.old) (T.tables tables.new) (spec.pattern_says (Pattern.Table id) subject.now) result }
{
    let found = first_value(alloc, tables, id, subject.keys.as_slice())?;
    Ok(table_says(&found))
}

// Whether a subject that matches a list file is a member.
fn file_member<T: Lookup>(
    alloc: Global,
    tables: &mut T,
    id: TableId,
    subject: &Subject,
) -> Result<Option<bool>, ClassFault>
    requires { CanFind (T.tables tables.old) (id ∷ []) }
    ensures { TriesOrWants (T.tables tables.old) (T.tables tables.new) (spec.pattern_says (Pattern.File id) subject.now) result }
{
    let found = first_value(alloc, tables, id, subject.file_keys.as_slice())?;
    Ok(file_says(&found))
}

// Whether a subject that matches a pattern is a member; None where it does not match.
fn pattern_says<T: Lookup>(
    alloc: Global,
    tables: &mut T,
    pattern: &Pattern,
    subject: &Subject,
) -> Result<Option<bool>, ClassFault>
    requires { CanFind (T.tables tables.old) (spec.table_of pattern.now) }
    ensures { TriesOrWants (T.tables tables.old) (T.tables tables.new) (spec.pattern_says pattern.now subject.now) result }
{
    match pattern {
        Pattern::Names(names) => Ok(if_matched(has_one(names, subject.keys.as_slice()))),
        Pattern::Net(net) => Ok(if_matched(is_in_net(net, &subject.address))),
        Pattern::Table(id) => table_member(alloc, tables, *id, subject),
        Pattern::File(id) => file_member(alloc, tables, *id, subject),
    }
}

// What an item makes of what its pattern says.
fn turned(excludes: bool, says: Option<bool>) -> Option<bool>
    ensures { result ≡ option_map (spec.turned excludes) says }
{
    match says {
        None => None,
        Some(member) => Some(if excludes { !member } else { member }),
    }
}

// Whether a subject that matches an item is a member; None where it does not match.
fn item_says<T: Lookup>(
    alloc: Global,
    tables: &mut T,
    item: &Item,
    subject: &Subject,
) -> Result<Option<bool>, ClassFault>
    requires { CanFind (T.tables tables.old) (spec.table_of item.now.pattern) }
    ensures { TriesOrWants (T.tables tables.old) (T.tables tables.new) (spec.item_says item.now subject.now) result }
{
    let says = pattern_says(alloc, tables, &item.pattern, subject)?;
    Ok(turned(item.excludes, says))
}

/// Whether a subject is a member of a list: what the first item says that matches it.
pub(crate) fn is_member<T: Lookup>(
    alloc: Global,
    tables: &mut T,
    items: &[Item],
    subject: &Subject,
) -> Result<bool, ClassFault>
    requires { CanFind (T.tables tables.old) (spec.tables_of items.now) }
    ensures { TriesOrWants (T.tables tables.old) (T.tables tables.new) (spec.is_member items.now subject.now) result }
{
    for item in items {
        let says = item_says(alloc, tables, item, subject)?;
        if let Some(member) = says {
            return Ok(member);
        }
    }
    Ok(false)
}

// The table or list file of a pattern.
fn table_of(pattern: &Pattern) -> Option<TableId>
    ensures { option_to_list result ≡ spec.table_of pattern.now }
{
    match pattern {
        Pattern::Names(_) => None,
        Pattern::Net(_) => None,
        Pattern::Table(id) => Some(*id),
        Pattern::File(id) => Some(*id),
    }
}

/// The tables and list files of a list.
pub fn tables_of(alloc: Global, items: &[Item]) -> Result<List<TableId>, NoMemory>
    ensures { IfOk result (λ tables. tables ≡ spec.tables_of items.now) }
{
    let mut tables = List::new(alloc);
    for item in items {
        if let Some(id) = table_of(&item.pattern) {
            tables.push(id)?;
        }
    }
    Ok(tables)
}
