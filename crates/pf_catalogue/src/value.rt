//! The values of parameters.
ghost use Rattle.std.specs.Prelude.{◌≡◌, IfOk};
ghost use Rattle.std.specs.Option.{option_copied};
ghost use Rattle.pf_catalogue.specs.Values as spec;

use crate::clients::are_rewrite_clients;
use crate::hosts::{are_hosts, are_interfaces, are_networks};
use crate::kind::Kind;
use crate::lists::{are_address_kinds, are_extension_ways, has_no_file, is_file};
use crate::numbers::number_within;
use pf_base::{Bytes, List, NoMemory, WordsFault, same_in_any_case, words_of};
use std::alloc::Global;

// The codes of replies that refuse (RFC 5321, 4.2.1).
const LEAST_CODE: u32 = 400;

const GREATEST_CODE: u32 = 599;

/// What the text of a parameter says: a text as it is, a number, yes or no, or the items of a list.
#[derive(Debug, Drop)]
pub enum Value {
    Text,
    Number(u64),
    Yes(bool),
    Items(List<Bytes>),
}

impl Value {
    /// The number that a value is; None of another value.
    pub fn number(&self) -> Option<u64>
        ensures { result ≡ spec.number_in self.now }
    {
        match self {
            Value::Number(number) => Some(*number),
            _ => None,
        }
    }

    /// Whether a value is yes; None of one that is neither yes nor no.
    pub fn answer(&self) -> Option<bool>
        ensures { result ≡ spec.answer_in self.now }
    {
        match self {
            Value::Yes(yes) => Some(*yes),
            _ => None,
        }
    }

    /// The list that a value is; None of another value.
    pub fn list(&self) -> Option<&List<Bytes>>
        ensures { option_copied result ≡ spec.list_in self.now }
    {
        match self {
            Value::Items(items) => Some(items),
            _ => None,
        }
    }

    /// The items of a list; none of another value.
    pub fn items(&self) -> &[Bytes]
        ensures { result.now ≡ spec.items_in self.now }
    {
        match self {
            Value::Items(items) => items.as_slice(),
            Value::Text => &[],
            Value::Number(_) => &[],
            Value::Yes(_) => &[],
        }
    }

    /// The items of a list; none of another value. It takes no memory.
    pub fn into_items(self, alloc: Global) -> List<Bytes>
        ensures { result ≡ spec.items_in self }
    {
        match self {
            Value::Items(items) => items,
            Value::Text => List::new(alloc),
            Value::Number(_) => List::new(alloc),
            Value::Yes(_) => List::new(alloc),
        }
    }
}

fn origin(text: &[u8]) -> Option<Value>
    ensures { result ≡ spec.origin text.now }
{
    if is_file(text) {
        None
    } else {
        Some(Value::Text)
    }
}

fn number(least: u32, most: u32, text: &[u8]) -> Option<Value>
    ensures { result ≡ spec.number least most text.now }
{
    match number_within(least, most, text) {
        None => None,
        Some(number) => Some(Value::Number(number)),
    }
}

fn yes_or_no(text: &[u8]) -> Option<Value>
    ensures { result ≡ spec.yes_or_no text.now }
{
    if same_in_any_case(text, b"yes") {
        Some(Value::Yes(true))
    } else if same_in_any_case(text, b"no") {
        Some(Value::Yes(false))
    } else {
        None
    }
}

fn fixed_yes(text: &[u8]) -> Option<Value>
    ensures { result ≡ spec.fixed_yes text.now }
{
    if text == b"yes".as_slice() {
        Some(Value::Text)
    } else {
        None
    }
}

// Whether items may be in a list of this kind.
fn are_items(kind: Kind, items: &[Bytes]) -> bool
    ensures { result ≡ spec.are_items kind items.now }
{
    match kind {
        Kind::Maps => has_no_file(items),
        Kind::Networks => are_networks(items),
        Kind::Hosts => are_hosts(items),
        Kind::Interfaces => are_interfaces(items),
        Kind::AddressKinds => are_address_kinds(items),
        Kind::Extensions => are_extension_ways(items),
        Kind::RewriteClients => are_rewrite_clients(items),
        Kind::Domains | Kind::Restrictions | Kind::Names => true,
        Kind::Text
        | Kind::Origin
        | Kind::Number { .. }
        | Kind::Code
        | Kind::Yes
        | Kind::FixedYes
        | Kind::Unset => false,
    }
}

fn list(alloc: Global, kind: Kind, text: &[u8]) -> Result<Option<Value>, NoMemory>
    ensures { IfOk result (λ value. value ≡ spec.list kind text.now) }
{
    match words_of(alloc, text) {
        Err(WordsFault::NoMemory) => Err(NoMemory),
        Err(WordsFault::Unbalanced { .. }) => Ok(None),
        Ok(items) => {
            if are_items(kind, items.as_slice()) {
                Ok(Some(Value::Items(items)))
            } else {
                Ok(None)
            }
        }
    }
}

/// What a text says where it stands for a parameter of this kind (postconf(5)); None where it is none of its values.
pub fn value_of(alloc: Global, kind: Kind, text: &[u8]) -> Result<Option<Value>, NoMemory>
    ensures { IfOk result (λ value. value ≡ spec.value_of kind text.now) }
{
    match kind {
        Kind::Text | Kind::Unset => Ok(Some(Value::Text)),
        Kind::Origin => Ok(origin(text)),
        Kind::Number { least, most } => Ok(number(least, most, text)),
        Kind::Code => Ok(number(LEAST_CODE, GREATEST_CODE, text)),
        Kind::Yes => Ok(yes_or_no(text)),
        Kind::FixedYes => Ok(fixed_yes(text)),
        Kind::Maps
        | Kind::Domains
        | Kind::Networks
        | Kind::Hosts
        | Kind::Restrictions
        | Kind::AddressKinds
        | Kind::Extensions
        | Kind::Interfaces
        | Kind::RewriteClients
        | Kind::Names => list(alloc, kind, text),
    }
}
