//! What tables answer that are in turn, each before its members.
ghost use Rattle.std.specs.Prelude.{◌≡◌, ◌≤◌, ◌-◌, Ok, drop, length, IfOk};
ghost use Rattle.pf_asks.specs.Looking.{answer_of};
ghost use Rattle.pf_base.specs.Clauses.Unless.{Unless};
ghost use Rattle.pf_pcre.specs.Tables.{pcre_meaning};
ghost use Rattle.pf_maps.specs.Meanings as meanings;
ghost use Rattle.pf_maps.specs.Meanings.{firsts, meaning_of, meanings_of};

use crate::node::Node;
use pf_asks::{Found, Results, TableFault};
use pf_base::{Bytes, List, NoMemory};
use pf_pcre::PcreTable;
use pf_table::Table;
use std::alloc::Global;

// What is after the first table.
#[cycle(passing)]
fn behind_table(nodes: &[Node]) -> &[Node]
    ensures is { meanings_of result.now ≡ drop 1 (meanings_of nodes.now) }
    ensures suffix { result.now ≡ drop (length nodes.now - length result.now) nodes.now }
    ensures shorter { length result.now ≤ length nodes.now - 1 }
{
    let [first, behind @ ..] = nodes else {
        return nodes;
    };
    match first {
        Node::Union(count) => behind_tables(behind, *count),
        Node::Pipe(count) => behind_tables(behind, *count),
        _ => behind,
    }
}

// What is after the first tables.
#[cycle(passing)]
fn behind_tables(nodes: &[Node], count: u64) -> &[Node]
    ensures is { meanings_of result.now ≡ drop count (meanings_of nodes.now) }
    ensures suffix { result.now ≡ drop (length nodes.now - length result.now) nodes.now }
    ensures shorter { length result.now ≤ length nodes.now }
{
    let mut left = nodes;
    let mut more = count;
    'tables: while more > 0 {
        left = behind_table(left);
        more -= 1;
    }
    left
}

// Two values with a comma between them.
fn joined(found: Found, other: Found) -> Result<Found, TableFault>
    ensures { Unless result TableFault.NoMemory (λ r. r ≡ Ok (meanings.joined found other)) }
{
    match found {
        Found::Absent => Ok(other),
        Found::Value(value) => joined_to(value, other),
    }
}

// A value, and after a comma the other one.
fn joined_to(mut value: Bytes, other: Found) -> Result<Found, TableFault>
    ensures { Unless result TableFault.NoMemory (λ r. r ≡ Ok (meanings.joined (Found.Value value) other)) }
{
    match other {
        Found::Absent => Ok(Found::Value(value)),
        Found::Value(more) => match value.extend_all(&[b",", more.as_slice()]) {
            Ok(()) => Ok(Found::Value(value)),
            Err(NoMemory) => Err(TableFault::NoMemory),
        },
    }
}

// What a table of patterns has for a key.
fn find_pattern(alloc: Global, table: &mut PcreTable, key: &[u8]) -> Result<Found, TableFault>
    ensures is { Unless result TableFault.NoMemory (λ r. r ≡ answer_of (pcre_meaning table.old) key.now) }
    ensures same { table.new ≡ table.old }
{
    match table.find(alloc, key) {
        Ok(found) => Ok(found),
        Err(NoMemory) => Err(TableFault::NoMemory),
    }
}

// The place of what is after the table at a place.
fn place_behind(nodes: &[Node], place: usize) -> usize
    requires { place ≤ length nodes.now }
    ensures is { meanings_of (drop result nodes.now) ≡ drop 1 (meanings_of (drop place nodes.now)) }
    ensures within { result ≤ length nodes.now }
{
    nodes.len() - behind_table(&nodes[place..]).len()
}

// What the table at a place has for a key.
#[cycle(finding)]
fn find_at(alloc: Global, nodes: &mut [Node], place: usize, key: &[u8]) -> Result<Found, TableFault>
    requires { place ≤ length nodes.old }
    ensures is { Unless result TableFault.NoMemory (λ r. r ≡ answer_of (meaning_of (drop place nodes.old)) key.now) }
    ensures same { nodes.new ≡ nodes.old }
{
    find_table(alloc, &mut nodes[place..], key)
}

// What a union of the first tables has for a key.
#[cycle(finding)]
fn find_union(
    alloc: Global,
    nodes: &mut [Node],
    count: u64,
    key: &[u8],
) -> Result<Found, TableFault>
    ensures is { Unless result TableFault.NoMemory (λ r. r ≡ answer_of (meanings.union_meaning (firsts count (meanings_of nodes.old))) key.now) }
    ensures same { nodes.new ≡ nodes.old }
{
    let mut found = Found::Absent;
    let mut place: usize = 0;
    let mut more = count;
    'members: while more > 0 {
        let one = find_at(alloc, nodes, place, key)?;
        found = joined(found, one)?;
        place = place_behind(nodes, place);
        more -= 1;
    }
    Ok(found)
}

// What a pipe of the first tables has for a key.
#[cycle(finding)]
fn find_pipe(alloc: Global, nodes: &mut [Node], count: u64, key: &[u8]) -> Result<Found, TableFault>
    ensures is { Unless result TableFault.NoMemory (λ r. r ≡ answer_of (meanings.pipe_meaning (firsts count (meanings_of nodes.old))) key.now) }
    ensures same { nodes.new ≡ nodes.old }
{
    let Ok(mut value) = Bytes::from_slice(alloc, key) else {
        return Err(TableFault::NoMemory);
    };
    let mut place: usize = 0;
    let mut more = count;
    'members: while more > 0 {
        match find_at(alloc, nodes, place, value.as_slice())? {
            Found::Absent => return Ok(Found::Absent),
            Found::Value(next) => value = next,
        }
        place = place_behind(nodes, place);
        more -= 1;
    }
    Ok(Found::Value(value))
}

/// What the first table has for a key; where there is none it fails.
#[cycle(finding)]
pub(crate) fn find_table(alloc: Global, nodes: &mut [Node], key: &[u8]) -> Result<Found, TableFault>
    ensures is { Unless result TableFault.NoMemory (λ r. r ≡ answer_of (meaning_of nodes.old) key.now) }
    ensures same { nodes.new ≡ nodes.old }
{
    if nodes.len() == 0 {
        return Err(TableFault::Fails);
    }
    match &mut nodes[0] {
        Node::Text(table) => table.find(alloc, key),
        Node::Cdb(table) => table.find(alloc, key),
        Node::Cidr(table) => table.find(alloc, key),
        Node::Pcre(table) => find_pattern(alloc, table, key),
        Node::Inline(table) => table.find(alloc, key),
        Node::Fixed(table) => table.find(alloc, key),
        Node::Fail => Err(TableFault::Fails),
        Node::ListFile(list) => list.find(alloc, key),
        Node::Union(count) => {
            let count = *count;
            find_union(alloc, &mut nodes[1..], count, key)
        }
        Node::Pipe(count) => {
            let count = *count;
            find_pipe(alloc, &mut nodes[1..], count, key)
        }
    }
}

// Whether the first tables all have partial keys.
#[cycle(parts)]
fn all_partial(nodes: &[Node], count: u64) -> bool
    ensures { result ≡ meanings.all_partial (firsts count (meanings_of nodes.now)) }
{
    let mut left = nodes;
    let mut more = count;
    'members: while more > 0 {
        if !has_partial_keys(left) {
            return false;
        }
        left = behind_table(left);
        more -= 1;
    }
    true
}

/// Whether the first table has partial keys.
#[cycle(parts)]
pub(crate) fn has_partial_keys(nodes: &[Node]) -> bool
    ensures { result ≡ (meaning_of nodes.now).partial_keys }
{
    let [first, behind @ ..] = nodes else {
        return true;
    };
    match first {
        Node::Text(table) => table.partial_keys(),
        Node::Cdb(table) => table.partial_keys(),
        Node::Cidr(table) => table.partial_keys(),
        Node::Pcre(_) => false,
        Node::Inline(table) => table.partial_keys(),
        Node::Fixed(table) => table.partial_keys(),
        Node::Fail => true,
        Node::ListFile(list) => list.partial_keys(),
        Node::Union(count) => all_partial(behind, *count),
        Node::Pipe(count) => all_partial(behind, *count),
    }
}

// The values that a union of the first tables may give.
#[cycle(giving)]
fn union_results(alloc: Global, nodes: &[Node], count: u64) -> Result<Results, NoMemory>
    ensures { IfOk result (λ results. results ≡ meanings.union_results (firsts count (meanings_of nodes.now))) }
{
    if count == 0 {
        return Ok(Results::Listed(List::new(alloc)));
    }
    if count == 1 {
        return results_of(alloc, nodes);
    }
    Ok(Results::Anything)
}

// The values that a pipe of the first tables may give: those of the last one.
#[cycle(giving)]
fn pipe_results(alloc: Global, nodes: &[Node], count: u64) -> Result<Results, NoMemory>
    ensures { IfOk result (λ results. results ≡ meanings.pipe_results (firsts count (meanings_of nodes.now))) }
{
    if count == 0 {
        return Ok(Results::Anything);
    }
    results_of(alloc, behind_tables(nodes, count - 1))
}

/// The values that the first table may give.
#[cycle(giving)]
pub(crate) fn results_of(alloc: Global, nodes: &[Node]) -> Result<Results, NoMemory>
    ensures { IfOk result (λ results. results ≡ (meaning_of nodes.now).results) }
{
    let [first, behind @ ..] = nodes else {
        return Ok(Results::Listed(List::new(alloc)));
    };
    match first {
        Node::Text(table) => table.results(alloc),
        Node::Cdb(table) => table.results(alloc),
        Node::Cidr(table) => table.results(alloc),
        Node::Pcre(table) => table.results(alloc),
        Node::Inline(table) => table.results(alloc),
        Node::Fixed(table) => table.results(alloc),
        Node::Fail => Ok(Results::Listed(List::new(alloc))),
        Node::ListFile(list) => list.results(alloc),
        Node::Union(count) => union_results(alloc, behind, *count),
        Node::Pipe(count) => pipe_results(alloc, behind, *count),
    }
}
