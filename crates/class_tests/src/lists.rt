//! Rows that ask lists.
ghost use Rattle.std.specs.Prelude.{◌≡◌, true, IfOk};
ghost use Rattle.pf_asks.specs.Looking.{CanFind};
ghost use Rattle.pf_class.specs.Members as members;
ghost use Rattle.pf_table.specs.Clauses.Memory.{seen};

use crate::settings::rules;
use pf_addr::{Address, print};
use pf_base::{Bytes, List, NoMemory, Pair, TableId, decimal};
use pf_cidr::{Addr, Net};
use pf_class::{Class, ClassFault, Domains, Item, Names, Pattern, Resolved, tables_of};
use pf_table::FixedLookup;
use std::alloc::Global;

// The setting of all four switches.
const ALL: u64 = 15;

const TABLE: [(&[u8], &[u8]); 2] = [(b"table.test", b"x"), (b"192.0.2.1", b"no")];

const FILE: [(&[u8], &[u8]); 6] = [
    (b"@in.test", b"yes"),
    (b"@sub.in.test", b"yes"),
    (b"@out.test", b"no"),
    (b"10.0.0.1", b"yes"),
    (b"10.0.0.2", b"no"),
    (b"in.test", b"no"),
];

fn pairs(alloc: Global, texts: &[(&[u8], &[u8])]) -> Result<List<Pair>, NoMemory> {
    let mut pairs = List::new(alloc);
    for (key, value) in texts {
        pairs.push(Pair {
            key: Bytes::from_slice(alloc, key)?,
            value: Bytes::from_slice(alloc, value)?,
        })?;
    }
    Ok(pairs)
}

/// The tables of all rows, where these calls fail.
pub(crate) fn tables(alloc: Global, failing: List<u64>) -> Result<FixedLookup, NoMemory> {
    let mut tables = List::new(alloc);
    tables.push(pairs(alloc, &TABLE)?)?;
    tables.push(pairs(alloc, &FILE)?)?;
    Ok(FixedLookup::new(tables, failing))
}

fn place(digits: &str) -> TableId {
    TableId(digits.parse::<u64>().unwrap_or(9))
}

// The pattern of an item without its `!`.
fn pattern(alloc: Global, word: &str) -> Result<Pattern, NoMemory> {
    if let Some(digits) = word.strip_prefix("table:") {
        return Ok(Pattern::Table(place(digits)));
    }
    if let Some(digits) = word.strip_prefix("file:") {
        return Ok(Pattern::File(place(digits)));
    }
    if let Ok(net) = Net::read(word.as_bytes()) {
        return Ok(Pattern::Net(net));
    }
    let mut names = Names::new(alloc);
    for name in word.split(',') {
        names.add(alloc, name.as_bytes())?;
    }
    Ok(Pattern::Names(names))
}

fn item(alloc: Global, word: &str) -> Result<Item, NoMemory> {
    match word.strip_prefix("!") {
        None => Ok(Item {
            pattern: pattern(alloc, word)?,
            excludes: false,
        }),
        Some(word) => Ok(Item {
            pattern: pattern(alloc, word)?,
            excludes: true,
        }),
    }
}

// The items of a list.
fn items(alloc: Global, text: &str) -> Result<List<Item>, NoMemory> {
    let mut items = List::new(alloc);
    for word in text.split(' ') {
        if !word.is_empty() && word.strip_prefix("fails:").is_none() {
            items.push(item(alloc, word)?)?;
        }
    }
    Ok(items)
}

// The numbers of the calls that fail.
fn failing(alloc: Global, text: &str) -> Result<List<u64>, NoMemory> {
    let mut numbers = List::new(alloc);
    for word in text.split(' ') {
        if let Some(digits) = word.strip_prefix("fails:") {
            numbers.push(digits.parse::<u64>().unwrap_or(0))?;
        }
    }
    Ok(numbers)
}

/// The addresses of the own interfaces.
pub(crate) fn own(alloc: Global) -> Result<List<Addr>, NoMemory> {
    let mut own = List::new(alloc);
    for text in [b"192.0.2.1".as_slice(), b"2001:db8::1"] {
        if let Some(address) = Addr::read(text) {
            own.push(address)?;
        }
    }
    Ok(own)
}

// List `n` of the lists of a row, from 0.
fn list(alloc: Global, lists: &str, n: usize) -> Result<List<Item>, NoMemory> {
    items(alloc, lists.split(';').nth(n).unwrap_or(""))
}

// The lists of mydestination, virtual_alias_domains, virtual_mailbox_domains, relay_domains and mynetworks, parted by semicolons.
fn domains(alloc: Global, lists: &str) -> Result<Domains, NoMemory> {
    Ok(Domains {
        rules: rules(alloc, ALL)?,
        own: own(alloc)?,
        mydestination: list(alloc, lists, 0)?,
        virtual_alias_domains: list(alloc, lists, 1)?,
        virtual_mailbox_domains: list(alloc, lists, 2)?,
        relay_domains: list(alloc, lists, 3)?,
        mynetworks: list(alloc, lists, 4)?,
    })
}

// Whether the tables of a list are there.
fn are_there(alloc: Global, tables: &FixedLookup, items: &List<Item>) -> Result<bool, NoMemory>
    ensures { IfOk result (λ there. there ≡ true → CanFind (seen tables.now) (members.tables_of items.now)) }
{
    let ids = tables_of(alloc, items.as_slice())?;
    Ok(tables.has(ids.as_slice()))
}

fn add_fault(said: &mut Bytes, fault: ClassFault) -> Result<(), NoMemory> {
    match fault {
        ClassFault::LookupFailed => said.extend(b"fails"),
        ClassFault::NoMemory => Err(NoMemory),
    }
}

fn add_answer(said: &mut Bytes, answer: Result<bool, ClassFault>) -> Result<(), NoMemory> {
    match answer {
        Ok(true) => said.extend(b"yes"),
        Ok(false) => said.extend(b"no"),
        Err(fault) => add_fault(said, fault),
    }
}

fn class_name(class: Class) -> &'static [u8] {
    match class {
        Class::Local => b"local",
        Class::VirtualAlias => b"alias",
        Class::VirtualMailbox => b"mailbox",
        Class::Relay => b"relay",
        Class::Default => b"default",
    }
}

/// Adds whether a domain is local by these domains.
pub(crate) fn add_local_by(
    alloc: Global,
    said: &mut Bytes,
    domains: &Domains,
    tables: &mut FixedLookup,
    domain: &str,
) -> Result<(), NoMemory> {
    if !are_there(alloc, tables, &domains.mydestination)? {
        return said.extend(b"no such table");
    }
    let answer = domains.local(alloc, domain.as_bytes(), tables);
    add_answer(said, answer)
}

/// Adds whether a domain is local.
pub(crate) fn add_local(
    alloc: Global,
    said: &mut Bytes,
    lists: &str,
    domain: &str,
) -> Result<(), NoMemory> {
    let domains = domains(alloc, lists)?;
    let mut tables = tables(alloc, failing(alloc, lists)?)?;
    add_local_by(alloc, said, &domains, &mut tables, domain)
}

/// Adds the class of a domain by these domains, which is asked for so many times.
pub(crate) fn add_class_by(
    alloc: Global,
    said: &mut Bytes,
    domains: &Domains,
    tables: &mut FixedLookup,
    domain: &str,
    turns: u64,
) -> Result<(), NoMemory> {
    let resolved = Resolved {
        address: Address {
            local: Bytes::from_slice(alloc, b"joe")?,
            domain: Bytes::from_slice(alloc, domain.as_bytes())?,
        },
        routed: false,
    };
    let mut class = Err(ClassFault::NoMemory);
    for _ in 0..turns {
        if !are_there(alloc, tables, &domains.mydestination)? {
            return said.extend(b"no such table");
        }
        if !are_there(alloc, tables, &domains.virtual_alias_domains)? {
            return said.extend(b"no such table");
        }
        if !are_there(alloc, tables, &domains.virtual_mailbox_domains)? {
            return said.extend(b"no such table");
        }
        if !are_there(alloc, tables, &domains.relay_domains)? {
            return said.extend(b"no such table");
        }
        class = domains.class_of(alloc, &resolved, tables);
    }
    match class {
        Ok(class) => said.extend(class_name(class)),
        Err(fault) => add_fault(said, fault),
    }
}

/// Adds the class of a domain.
pub(crate) fn add_class(
    alloc: Global,
    said: &mut Bytes,
    lists: &str,
    domain: &str,
) -> Result<(), NoMemory> {
    let domains = domains(alloc, lists)?;
    let mut tables = tables(alloc, failing(alloc, lists)?)?;
    add_class_by(alloc, said, &domains, &mut tables, domain, 1)
}

// A list of one item with so many names, `n0.test`, `n1.test` ..
fn many_names(alloc: Global, count: u64) -> Result<List<Item>, NoMemory> {
    let mut names = Names::new(alloc);
    for n in 0..count {
        let digits = decimal(alloc, n)?;
        let mut name = Bytes::new(alloc);
        name.extend_all(&[b"n", digits.as_bytes(), b".test"])?;
        names.add(alloc, name.as_slice())?;
    }
    let mut items = List::new(alloc);
    items.push(Item {
        pattern: Pattern::Names(names),
        excludes: false,
    })?;
    Ok(items)
}

/// Adds the class of a domain where mydestination has many names: how many, and how often the class is asked for.
pub(crate) fn add_many(
    alloc: Global,
    said: &mut Bytes,
    counts: &str,
    domain: &str,
) -> Result<(), NoMemory> {
    let Some((names, turns)) = counts.split_once(' ') else {
        return said.extend(b"no such row");
    };
    let mut domains = domains(alloc, "")?;
    domains.mydestination = many_names(alloc, names.parse::<u64>().unwrap_or(0))?;
    let mut tables = tables(alloc, List::new(alloc))?;
    add_class_by(
        alloc,
        said,
        &domains,
        &mut tables,
        domain,
        turns.parse::<u64>().unwrap_or(0),
    )
}

/// Adds whether an address is in mynetworks by these domains.
pub(crate) fn add_networks_by(
    alloc: Global,
    said: &mut Bytes,
    domains: &Domains,
    tables: &mut FixedLookup,
    address: &str,
) -> Result<(), NoMemory> {
    let Some(address) = Addr::read(address.as_bytes()) else {
        return said.extend(b"no address");
    };
    if !are_there(alloc, tables, &domains.mynetworks)? {
        return said.extend(b"no such table");
    }
    let answer = domains.in_networks(alloc, &address, tables);
    add_answer(said, answer)
}

/// Adds whether an address is in mynetworks.
pub(crate) fn add_networks(
    alloc: Global,
    said: &mut Bytes,
    lists: &str,
    address: &str,
) -> Result<(), NoMemory> {
    let domains = domains(alloc, lists)?;
    let mut tables = tables(alloc, failing(alloc, lists)?)?;
    add_networks_by(alloc, said, &domains, &mut tables, address)
}

/// Adds whether an address is that of an own interface of these domains.
pub(crate) fn add_own_by(
    said: &mut Bytes,
    domains: &Domains,
    address: &str,
) -> Result<(), NoMemory> {
    match Addr::read(address.as_bytes()) {
        None => said.extend(b"no address"),
        Some(address) => add_answer(said, Ok(domains.own(&address))),
    }
}

/// Adds whether an address is that of an own interface.
pub(crate) fn add_own(alloc: Global, said: &mut Bytes, address: &str) -> Result<(), NoMemory> {
    let domains = domains(alloc, "")?;
    add_own_by(said, &domains, address)
}

/// Adds what an address resolves to, with the local domains of these lists and all four switches on.
pub(crate) fn resolved_text(
    alloc: Global,
    n: u64,
    lists: &str,
    address: &Address,
) -> Result<Bytes, NoMemory> {
    let mut domains = domains(alloc, lists)?;
    domains.rules = rules(alloc, n)?;
    let mut tables = tables(alloc, failing(alloc, lists)?)?;
    if !are_there(alloc, &tables, &domains.mydestination)? {
        return Bytes::from_slice(alloc, b"no such table");
    }
    match domains.resolve(alloc, address, &mut tables) {
        Ok(Resolved { address, routed }) => resolved_line(alloc, &address, routed),
        Err(ClassFault::LookupFailed) => Bytes::from_slice(alloc, b"fails"),
        Err(ClassFault::NoMemory) => Err(NoMemory),
    }
}

fn resolved_line(alloc: Global, address: &Address, routed: bool) -> Result<Bytes, NoMemory> {
    let mut text = print(alloc, address)?;
    if routed {
        text.extend(b" routed")?;
    }
    Ok(text)
}
