//! A list file that is asked for keys.
ghost use Rattle.std.specs.Prelude.{◌≡◌, ◌<◌, Some, length, IfOk};
ghost use Rattle.std.specs.List.{position_from};
ghost use Rattle.pf_base.specs.Clauses.Faults.{as_fault};
ghost use Rattle.pf_base.specs.Clauses.Unless.{Unless};
ghost use Rattle.pf_listfile.specs.Clauses.Places as places;
ghost use Rattle.pf_listfile.specs.Items as matching;
ghost use Rattle.pf_listfile.specs.ListFile as spec;

use crate::item::Item;
use crate::places::{Kind, Places, earlier, nets_of, places_of};
use crate::reading::items_of;
use pf_asks::{Found, Results, TableFault};
use pf_base::{Bytes, ConfFault, List, NoMemory, fold};
use pf_cidr::Addr;
use pf_table::Table;
use std::alloc::Global;
use std::marker::Model;

/// The items of a list file in order. A contract sees their list. Beside them are the places of the first item of each name, and those
/// of the nets, so that a key that many names might match is looked up and not compared with each.
#[derive(Drop)]
pub struct ListFile {
    items: List<Item>,
    names: Places,
    below: Places,
    nets: List<u64>,
}

impl Model for ListFile {
    ghost use Rattle.std.specs.Prelude.{List as Seq};
    ghost use Rattle.pf_listfile.specs.Clauses.Places.{IsIndex, place_in};
    ghost use Rattle.pf_listfile.specs.declared.item.Item.{Item as Said};

    ghost Value = { Seq Said };

    ghost view = { λ file. file.items };

    ghost invariant = { λ file. IsIndex (place_in file.names) (place_in file.below) file.nets file.items };
}

// The place of the name after a dot that a text begins with.
fn at_dot(below: &Places, text: &[u8]) -> Option<usize>
    ensures { result ≡ places.at_dot (places.place_in below.now) text.now }
{
    match text {
        [b'.', name @ ..] => below.get(name),
        _ => None,
    }
}

// The earliest place of a name that a host name is below.
fn first_below(below: &Places, host: &[u8]) -> Option<usize>
    ensures { result ≡ places.first_below (places.place_in below.now) host.now }
{
    let mut first = None;
    let mut left = host;
    'dots: while let [_, behind @ ..] = left {
        first = earlier(first, at_dot(below, behind));
        left = behind;
    }
    first
}

// Whether the item at a place has an address.
fn has_address_at(items: &[Item], place: u64, address: &Addr) -> bool
    requires { place < length items.now }
    ensures { result ≡ places.has_at items.now address.now place }
{
    items[place as usize].pattern.has_address(address)
}

// The place of the first net that has an address.
fn first_net(items: &[Item], nets: &[u64], address: &Addr) -> Option<usize>
    requires { nets.now ≡ places.net_places 0 items.now }
    ensures { result ≡ position_from (λ item. matching.has_address item.pattern (Some address.now)) 0 items.now }
{
    for place in nets {
        if has_address_at(items, *place, address) {
            return Some(*place as usize);
        }
    }
    None
}

// What an item says.
fn says(alloc: Global, excludes: bool) -> Result<Bytes, NoMemory>
    ensures { IfOk result (λ text. text ≡ spec.says excludes) }
{
    if excludes {
        Bytes::from_slice(alloc, b"no")
    } else {
        Bytes::from_slice(alloc, b"yes")
    }
}

// The values that a list file may give.
fn values(alloc: Global) -> Result<List<Bytes>, NoMemory>
    ensures { IfOk result (λ values. values ≡ spec.values) }
{
    let mut values = List::new(alloc);
    values.push(says(alloc, false)?)?;
    values.push(says(alloc, true)?)?;
    Ok(values)
}

impl ListFile {
    fn of(alloc: Global, items: List<Item>) -> Result<ListFile, NoMemory>
        ensures { IfOk result (λ list. list ≡ items) }
    {
        let names = places_of(alloc, Kind::Name, items.as_slice())?;
        let below = places_of(alloc, Kind::Below, items.as_slice())?;
        let nets = nets_of(alloc, items.as_slice())?;
        Ok(ListFile {
            items,
            names,
            below,
            nets,
        })
    }

    /// The items of a file with this name and this text (DATABASE_README; postconf(5), mydestination and mynetworks). Each logical line
    /// is parted as a value is, and an item is a host name, a host name after a dot, an address or a net, one of IPv6 in brackets, or one
    /// of these after an exclamation mark. The text is refused as C1 where its first line that is not ignored starts with space, else
    /// as C11 `item` at its first line that has a brace without a partner or something else.
    pub fn read(alloc: Global, file: &[u8], text: &[u8]) -> Result<ListFile, ConfFault>
        ensures { Unless result ConfFault.NoMemory (λ r. r ≡ as_fault (spec.items_of file.now text.now)) }
    {
        let items = items_of(alloc, file, text)?;
        let list = ListFile::of(alloc, items)?;
        Ok(list)
    }

    // The place of the first item that a domain in small letters matches.
    fn domain_place(&self, domain: &[u8]) -> Option<usize>
        ensures { result ≡ position_from (λ item. matching.names_domain item.pattern domain.now) 0 self.now }
    {
        earlier(self.names.get(domain), at_dot(&self.below, domain))
    }

    // The place of the first item that a host name in small letters matches.
    fn host_place(&self, host: &[u8]) -> Option<usize>
        ensures { result ≡ position_from (λ item. matching.names_host item.pattern host.now) 0 self.now }
    {
        earlier(self.names.get(host), first_below(&self.below, host))
    }

    // The place of the first item that has an address.
    fn address_place(&self, address: Option<Addr>) -> Option<usize>
        ensures { result ≡ position_from (λ item. matching.has_address item.pattern address) 0 self.now }
    {
        match address {
            None => None,
            Some(address) => first_net(self.items.as_slice(), self.nets.as_slice(), &address),
        }
    }

    // The place of the first item that a key matches that is no domain after an at sign.
    fn plain_place(&self, alloc: Global, key: &[u8]) -> Result<Option<usize>, NoMemory>
        ensures { IfOk result (λ place. place ≡ position_from (λ item. matching.matches_plain item.pattern key.now) 0 self.now) }
    {
        let host = fold(alloc, key)?;
        Ok(earlier(
            self.host_place(host.as_slice()),
            self.address_place(Addr::read(key)),
        ))
    }

    // The place of the first item that a key matches.
    fn place(&self, alloc: Global, key: &[u8]) -> Result<Option<usize>, NoMemory>
        ensures { IfOk result (λ place. place ≡ position_from (matching.matches key.now) 0 self.now) }
    {
        match key {
            [b'@', domain @ ..] => {
                let domain = fold(alloc, domain)?;
                Ok(self.domain_place(domain.as_slice()))
            }
            _ => self.plain_place(alloc, key),
        }
    }

    // What the first item says that a key matches.
    fn answer(&self, alloc: Global, key: &[u8]) -> Result<Found, NoMemory>
        ensures { IfOk result (λ found. found ≡ spec.found_in self.now key.now) }
    {
        match self.place(alloc, key)? {
            None => Ok(Found::Absent),
            Some(place) => {
                let item = self.items.at(place as u64);
                Ok(Found::Value(says(alloc, item.excludes)?))
            }
        }
    }
}

impl Table for ListFile {
    ghost meaning = { spec.list_meaning };

    fn find(&self, alloc: Global, key: &[u8]) -> Result<Found, TableFault> {
        let found = self.answer(alloc, key)?;
        Ok(found)
    }

    fn partial_keys(&self) -> bool {
        true
    }

    fn results(&self, alloc: Global) -> Result<Results, NoMemory> {
        Ok(Results::Listed(values(alloc)?))
    }
}
