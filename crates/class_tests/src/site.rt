//! Rows that ask what the settings of a main.cf say of domains. One function alone owns settings.
use crate::lists::{add_class_by, add_local_by, add_networks_by, add_own_by, own, tables};
use pf_addr::{Address, print};
use pf_base::{Bytes, ConfFault, List, NoMemory};
use pf_class::Domains;
use pf_maincf::MainCf;
use pf_params::Settings;
use std::alloc::Global;

// Adds the line of a refusal.
fn add_fault(alloc: Global, said: &mut Bytes, fault: ConfFault) -> Result<(), NoMemory> {
    match fault {
        ConfFault::NoMemory => Err(NoMemory),
        ConfFault::Refused(refused) => said.extend(refused.line(alloc)?.as_slice()),
    }
}

// Adds the standard form of an address of a local part alone.
fn add_form(
    alloc: Global,
    said: &mut Bytes,
    domains: &Domains,
    local: &str,
) -> Result<(), NoMemory> {
    let address = Address {
        local: Bytes::from_slice(alloc, local.as_bytes())?,
        domain: Bytes::new(alloc),
    };
    let form = domains.rules.standard(alloc, &address)?;
    let text = print(alloc, &form)?;
    said.extend(text.as_slice())
}

// Adds what is asked of domains.
fn add_answer_of(
    alloc: Global,
    said: &mut Bytes,
    domains: &Domains,
    question: &str,
) -> Result<(), NoMemory> {
    let (kind, text) = question.split_once(' ').unwrap_or((question, ""));
    let mut tables = tables(alloc, List::new(alloc))?;
    match kind {
        "local" => add_local_by(alloc, said, domains, &mut tables, text),
        "class" => add_class_by(alloc, said, domains, &mut tables, text, 1),
        "networks" => add_networks_by(alloc, said, domains, &mut tables, text),
        "own" => add_own_by(said, domains, text),
        "standard" => add_form(alloc, said, domains, text),
        _ => said.extend(b"no such kind"),
    }
}

// Adds what is asked of the domains that settings say.
fn add_settings(
    alloc: Global,
    said: &mut Bytes,
    settings: &Settings,
    question: &str,
) -> Result<(), NoMemory> {
    let specs = settings.specs(alloc)?;
    let own = own(alloc)?;
    let domains = Domains::read(alloc, settings, &specs, &own)?;
    add_answer_of(alloc, said, &domains, question)
}

// Adds what is asked of the domains of a main.cf, or the line of its refusal.
fn add_main(
    alloc: Global,
    said: &mut Bytes,
    main: &MainCf,
    question: &str,
) -> Result<(), NoMemory> {
    match Settings::new(alloc, main, &List::new(alloc)) {
        Ok(settings) => add_settings(alloc, said, &settings, question),
        Err(fault) => add_fault(alloc, said, fault),
    }
}

/// Adds what is asked of the domains of the text of a main.cf, or the line of its refusal.
pub(crate) fn add_site(
    alloc: Global,
    said: &mut Bytes,
    question: &str,
    text: &str,
) -> Result<(), NoMemory> {
    match MainCf::read(alloc, b"main.cf", text.as_bytes()) {
        Ok(main) => add_main(alloc, said, &main, question),
        Err(fault) => add_fault(alloc, said, fault),
    }
}
