//! The tables and files that a list names.
ghost use Rattle.std.specs.Prelude.{◌≡◌, map, OnOk, OnErr};
ghost use Rattle.pf_catalogue.specs.Clauses.Adding.{AddsPrefix};
ghost use Rattle.pf_catalogue.specs.Tables as spec;
ghost use Rattle.pf_catalogue.specs.declared.arguments.Argument.TheVariants.{Nothing};

use crate::arguments::{Argument, argument_of};
use crate::kind::Kind;
use crate::lists::table_in;
use pf_base::{Bytes, NoMemory, Specs};
use std::alloc::Global;

// Adds one text.
fn add(alloc: Global, specs: &mut Specs, line: u64, text: &[u8]) -> Result<(), NoMemory>
    ensures ok { OnOk result (specs.new ≡ spec.with_one line specs.old text.now) }
    ensures err { OnErr result (specs.new ≡ specs.old) }
{
    specs.add(alloc, line, text)?;
    Ok(())
}

// Adds each item.
fn add_all(alloc: Global, specs: &mut Specs, line: u64, items: &[Bytes]) -> Result<(), NoMemory>
    ensures ok { OnOk result (specs.new ≡ spec.with_texts line specs.old items.now) }
    ensures err { OnErr result (AddsPrefix line specs.old specs.new items.now) }
{
    for item in items {
        add(alloc, specs, line, item.as_slice())?;
    }
    Ok(())
}

// Adds the table or file that each item names.
fn add_named(alloc: Global, specs: &mut Specs, line: u64, items: &[Bytes]) -> Result<(), NoMemory>
    ensures ok { OnOk result (specs.new ≡ spec.with_texts line specs.old (spec.tables_named items.now)) }
    ensures err { OnErr result (AddsPrefix line specs.old specs.new (spec.tables_named items.now)) }
{
    for item in items {
        if let Some(text) = table_in(item.as_slice()) {
            add(alloc, specs, line, text)?;
        }
    }
    Ok(())
}

// Adds the table after each word that takes one.
fn add_arguments(
    alloc: Global,
    specs: &mut Specs,
    kind: Kind,
    line: u64,
    items: &[Bytes],
) -> Result<(), NoMemory>
    ensures ok { OnOk result (specs.new ≡ spec.with_texts line specs.old (spec.table_arguments kind Nothing items.now)) }
    ensures err { OnErr result (AddsPrefix line specs.old specs.new (spec.table_arguments kind Nothing items.now)) }
{
    let mut wanted = Argument::Nothing;
    for item in items {
        wanted = match wanted {
            Argument::Nothing => argument_of(kind, item.as_slice()),
            Argument::Text => Argument::Nothing,
            Argument::Table => {
                add(alloc, specs, line, item.as_slice())?;
                Argument::Nothing
            }
        };
    }
    Ok(())
}

/// Adds the tables and files that the items of a list of this kind name, in order, with the line of their setting: in a
/// list of tables each item, in one of domains, networks or hosts each item that begins with `/`, or holds a colon and does
/// not begin with `[`, less a leading `!`, and in one of restrictions or clients what is after a word that takes a
/// table (DATABASE_README; postconf(5)). Where there is no memory, a prefix of them may have been added.
pub fn add_tables(
    alloc: Global,
    specs: &mut Specs,
    kind: Kind,
    line: u64,
    items: &[Bytes],
) -> Result<(), NoMemory>
    ensures ok { OnOk result (specs.new ≡ spec.with_texts line specs.old (spec.tables_of kind items.now)) }
    ensures err { OnErr result (AddsPrefix line specs.old specs.new (spec.tables_of kind items.now)) }
{
    match kind {
        Kind::Maps => add_all(alloc, specs, line, items),
        Kind::Domains => add_named(alloc, specs, line, items),
        Kind::Networks => add_named(alloc, specs, line, items),
        Kind::Hosts => add_named(alloc, specs, line, items),
        Kind::Restrictions => add_arguments(alloc, specs, kind, line, items),
        Kind::RewriteClients => add_arguments(alloc, specs, kind, line, items),
        _ => Ok(()),
    }
}
