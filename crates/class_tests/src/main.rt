//! Says the forms of addresses, and what lists say of domains and addresses, of the rows of the file `rows`.
//!
//! A row asks of an address, written as a path, its standard form (`standard SETTINGS`) or its resolved form (`resolved SETTINGS`),
//! which ends in ` routed` where it is. SETTINGS are swap_bangpath, allow_percent_hack, append_at_myorigin and
//! append_dot_mydomain, each `1`, `0` or, where the answer is the same with both, `.`. myorigin is `origin.test`, mydomain is
//! `my.test`, and the local domains are `example.com`, `Own.Test`, `host.my.test` and `short`. `with DOMAIN` asks for the standard
//! form with this domain in the place of both, with all four on, and `origin` whether a domain is that of myorigin.
//!
//! `local LISTS` asks whether a domain is local, `class LISTS` for its class, `networks LISTS` whether an address is in mynetworks,
//! `own` whether it is that of an own interface, 192.0.2.1 or 2001:db8::1, and `resolves LISTS` for a resolved form with all four
//! on. LISTS are those of mydestination, virtual_alias_domains, virtual_mailbox_domains, relay_domains and mynetworks, parted by
//! semicolons, and a list is its items, parted by spaces: names with commas between them, a net, `table:N`, `file:N`, each maybe
//! after `!`. `fails:N` among them says that call N on the tables fails. Table 0 has the keys `table.test` and `192.0.2.1`. Table 1
//! is a list file with `@in.test`, `@sub.in.test` and `10.0.0.1` as `yes`, and `@out.test`, `10.0.0.2` and `in.test` as `no`.
//! `site local DOMAIN`, `site class DOMAIN`, `site networks ADDRESS`, `site own ADDRESS` and `site standard LOCAL` ask the same of a
//! main.cf, which is the text of the row, the last for the standard form of a local part without a domain. The tables are those
//! above in the order of the table texts of the settings, and the machine has the two addresses.
//!
//! `many NAMES TURNS` asks for a class so many times, where mydestination has so many names, `n0.test`, `n1.test` ..;
//! bench/names.py measures that.
#![tactic(auto)]

mod lists;
mod settings;
mod site;

use lists::{add_class, add_local, add_many, add_networks, add_own, resolved_text};
use pf_addr::{Address, Path, PathFault, path, print};
use pf_base::{Bytes, NoMemory};
use row_files::{Says, judge_rows};
use settings::{SETTINGS, is_meant, rules};
use site::add_site;
use std::alloc::Global;
use std::process::ExitCode;

const LOCAL_DOMAINS: &str = "example.com,Own.Test host.my.test,short";

// The setting of all four switches.
const ALL: u64 = 15;

// The address of a path, if it is one.
fn address_of(alloc: Global, text: &str) -> Result<Option<Address>, NoMemory> {
    match path(alloc, text.as_bytes()) {
        Err(PathFault::NoMemory) => Err(NoMemory),
        Err(PathFault::Malformed) => Ok(None),
        Ok(read) => match read.path {
            Path::Null => Ok(None),
            Path::To(address) => Ok(Some(address)),
        },
    }
}

// A form of an address under setting `n`.
fn form_text(alloc: Global, n: u64, form: &str, address: &Address) -> Result<Bytes, NoMemory> {
    if form != "standard" {
        return resolved_text(alloc, n, LOCAL_DOMAINS, address);
    }
    let form = rules(alloc, n)?.standard(alloc, address)?;
    print(alloc, &form)
}

// Adds a form of an address under all settings that are meant; where it is not the same under each, it is added more than once.
fn add_form(
    alloc: Global,
    said: &mut Bytes,
    form: &str,
    switches: &str,
    address: &Address,
) -> Result<(), NoMemory> {
    let mut last = Bytes::new(alloc);
    for n in 0..SETTINGS {
        if is_meant(n, switches.as_bytes()) {
            let text = form_text(alloc, n, form, address)?;
            if text != last {
                said.extend(text.as_slice())?;
                last = text;
            }
        }
    }
    Ok(())
}

// Adds the standard form with another domain.
fn add_with(
    alloc: Global,
    said: &mut Bytes,
    domain: &str,
    address: &Address,
) -> Result<(), NoMemory> {
    let form = rules(alloc, ALL)?.standard_with(alloc, address, domain.as_bytes())?;
    let text = print(alloc, &form)?;
    said.extend(text.as_slice())
}

// Adds whether a domain is that of myorigin.
fn add_origin(alloc: Global, said: &mut Bytes, domain: &str) -> Result<(), NoMemory> {
    if rules(alloc, ALL)?.origin(domain.as_bytes()) {
        said.extend(b"yes")
    } else {
        said.extend(b"no")
    }
}

// Adds what is asked of an address.
fn add_address(
    alloc: Global,
    said: &mut Bytes,
    kind: &str,
    behind: &str,
    text: &str,
) -> Result<(), NoMemory> {
    let Some(address) = address_of(alloc, text)? else {
        return said.extend(b"no address");
    };
    match kind {
        "with" => add_with(alloc, said, behind, &address),
        "resolves" => {
            let text = resolved_text(alloc, ALL, behind, &address)?;
            said.extend(text.as_slice())
        }
        _ => add_form(alloc, said, kind, behind, &address),
    }
}

#[derive(Drop)]
struct Asked;

impl Says for Asked {
    fn say(
        &mut self,
        alloc: Global,
        said: &mut Bytes,
        prefix: &str,
        text: &str,
    ) -> Result<(), NoMemory> {
        let (kind, behind) = match prefix.split_once(' ') {
            None => (prefix, ""),
            Some(parts) => parts,
        };
        match kind {
            "origin" => add_origin(alloc, said, text),
            "own" => add_own(alloc, said, text),
            "local" => add_local(alloc, said, behind, text),
            "class" => add_class(alloc, said, behind, text),
            "many" => add_many(alloc, said, behind, text),
            "site" => add_site(alloc, said, behind, text),
            "networks" => add_networks(alloc, said, behind, text),
            _ => add_address(alloc, said, kind, behind, text),
        }
    }
}

fn main(rt: HostRuntime) -> ExitCode {
    judge_rows(&rt, &mut Asked)
}
