//! What the settings of a main.cf say of the domains and networks of its site.
ghost use Rattle.std.specs.Prelude.{◌≡◌, ◌++◌, IfOk, OnOk};
ghost use Rattle.std.specs.List.{filter_map};
ghost use Rattle.std.specs.Option.{option_to_list};
ghost use Rattle.pf_cidr.specs.Addresses.{address_of};
ghost use Rattle.pf_class.specs.Clauses.Lists.{SayAs, SaysAs};
ghost use Rattle.pf_class.specs.Site as spec;
ghost use Rattle.pf_params.specs.Accepted.{table_texts};

use crate::domains::Domains;
use crate::item::Item;
use crate::items::{domain_items, network_items, push_some};
use crate::rules::Rules;
use pf_base::{Bytes, List, NoMemory, Specs};
use pf_catalogue::{Value, param, value_of};
use pf_cidr::Addr;
use pf_params::Settings;
use std::alloc::Global;

// 127.0.0.1.
const LOOPBACK_V4: u32 = 0x7f00_0001;

// ::1.
const LOOPBACK_V6: u128 = 1;

// The value of the parameter of a name.
#[tactic(auto, unfolding(crate::specs::Site::text_named))]
fn text_named(alloc: Global, settings: &Settings, name: &[u8]) -> Result<Bytes, NoMemory>
    ensures { IfOk result (λ text. text ≡ spec.text_named settings.now name.now) }
{
    match param(name) {
        None => Ok(Bytes::new(alloc)),
        Some(p) => settings.text(p).copy(alloc),
    }
}

// What it says.
#[tactic(auto, unfolding(crate::specs::Site::said_named))]
fn said_named(alloc: Global, settings: &Settings, name: &[u8]) -> Result<Option<Value>, NoMemory>
    ensures { IfOk result (λ said. said ≡ spec.said_named settings.now name.now) }
{
    match param(name) {
        None => Ok(None),
        Some(p) => value_of(alloc, p.kind(), settings.text(p).as_slice()),
    }
}

// Whether it says yes.
fn yes_named(alloc: Global, settings: &Settings, name: &[u8]) -> Result<bool, NoMemory>
    ensures { IfOk result (λ yes. yes ≡ spec.yes_named settings.now name.now) }
{
    match said_named(alloc, settings, name)? {
        None => Ok(false),
        Some(value) => Ok(value.answer().unwrap_or(false)),
    }
}

// The items of its list.
fn items_named(alloc: Global, settings: &Settings, name: &[u8]) -> Result<List<Bytes>, NoMemory>
    ensures { IfOk result (λ items. items ≡ spec.items_named settings.now name.now) }
{
    match said_named(alloc, settings, name)? {
        None => Ok(List::new(alloc)),
        Some(value) => Ok(value.into_items(alloc)),
    }
}

#[tactic(auto, unfolding(crate::specs::Site::rules_of))]
fn rules_of(alloc: Global, settings: &Settings) -> Result<Rules, NoMemory>
    ensures { IfOk result (λ rules. rules ≡ spec.rules_of settings.now) }
{
    Ok(Rules {
        swap_bangpath: yes_named(alloc, settings, b"swap_bangpath")?,
        allow_percent_hack: yes_named(alloc, settings, b"allow_percent_hack")?,
        append_at_myorigin: yes_named(alloc, settings, b"append_at_myorigin")?,
        append_dot_mydomain: yes_named(alloc, settings, b"append_dot_mydomain")?,
        myorigin: text_named(alloc, settings, b"myorigin")?,
        mydomain: text_named(alloc, settings, b"mydomain")?,
    })
}

// These addresses as a list.
fn list_of(alloc: Global, addresses: &[Addr]) -> Result<List<Addr>, NoMemory>
    ensures { IfOk result (λ list. list ≡ addresses.now) }
{
    let mut list = List::new(alloc);
    for address in addresses {
        list.push(*address)?;
    }
    Ok(list)
}

// The addresses of the loopback interfaces.
fn loopback(alloc: Global) -> Result<List<Addr>, NoMemory>
    ensures { IfOk result (λ list. list ≡ spec.loopback) }
{
    let mut list = List::new(alloc);
    list.push(Addr::V4(LOOPBACK_V4))?;
    list.push(Addr::V6(LOOPBACK_V6))?;
    Ok(list)
}

// The addresses that these words write.
#[tactic(auto, using(crate::proofs::ListLaws::word_more))]
fn listed(alloc: Global, words: &[Bytes]) -> Result<List<Addr>, NoMemory>
    ensures { IfOk result (λ list. list ≡ filter_map address_of words.now) }
{
    let mut list = List::new(alloc);
    for word in words {
        push_some(&mut list, Addr::read(word.as_slice()))?;
    }
    Ok(list)
}

// The addresses of the interfaces that mail is received on.
fn interfaces(alloc: Global, own: &[Addr], words: &[Bytes]) -> Result<List<Addr>, NoMemory>
    ensures { IfOk result (λ list. list ≡ spec.interfaces own.now words.now) }
{
    match words {
        [word] => {
            if word.as_slice() == b"all".as_slice() {
                list_of(alloc, own)
            } else if word.as_slice() == b"loopback-only".as_slice() {
                loopback(alloc)
            } else {
                listed(alloc, words)
            }
        }
        _ => listed(alloc, words),
    }
}

// The list of domains that is the value of the parameter of a name.
fn domains_named(
    alloc: Global,
    settings: &Settings,
    specs: &Specs,
    name: &[u8],
) -> Result<List<Item>, NoMemory>
    requires { specs.now ≡ table_texts settings.now }
    ensures { IfOk result (λ items. SaysAs items (spec.domains_named settings.now name.now)) }
{
    let words = items_named(alloc, settings, name)?;
    domain_items(alloc, specs, words.as_slice())
}

// The list of networks that is the value of the parameter of a name.
fn networks_named(
    alloc: Global,
    settings: &Settings,
    specs: &Specs,
    name: &[u8],
) -> Result<List<Item>, NoMemory>
    requires { specs.now ≡ table_texts settings.now }
    ensures { IfOk result (λ items. items ≡ spec.networks_named settings.now name.now) }
{
    let words = items_named(alloc, settings, name)?;
    network_items(alloc, specs, words.as_slice())
}

impl Domains {
    /// The domains and networks of a site whose machine has these addresses, as its settings say (ADDRESS_CLASS_README). A table or
    /// list file that a list names is there by its place among the table texts of the settings; it is not opened.
    #[tactic(auto, unfolding(crate::specs::Site::domains_of))]
    pub fn read(
        alloc: Global,
        settings: &Settings,
        specs: &Specs,
        own: &List<Addr>,
    ) -> Result<Domains, NoMemory>
        requires { specs.now ≡ table_texts settings.now }
        ensures { IfOk result (λ domains. SayAs domains (spec.domains_of settings.now own.now)) }
    {
        let words = items_named(alloc, settings, b"inet_interfaces")?;
        Ok(Domains {
            rules: rules_of(alloc, settings)?,
            own: interfaces(alloc, own.as_slice(), words.as_slice())?,
            mydestination: domains_named(alloc, settings, specs, b"mydestination")?,
            virtual_alias_domains: domains_named(alloc, settings, specs, b"virtual_alias_domains")?,
            virtual_mailbox_domains: domains_named(
                alloc,
                settings,
                specs,
                b"virtual_mailbox_domains",
            )?,
            relay_domains: domains_named(alloc, settings, specs, b"relay_domains")?,
            mynetworks: networks_named(alloc, settings, specs, b"mynetworks")?,
        })
    }
}
