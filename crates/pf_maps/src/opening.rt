//! How tables are opened.
ghost use Rattle.std.specs.Prelude.{◌≡◌, Ok, IfErr, IfOk, false};
ghost use Rattle.std.specs.Str.{IsUtf8};
ghost use Rattle.pf_base.specs.Clauses.Unless.{Unless};
ghost use Rattle.pf_base.specs.Clauses.Faults.{as_fault};
ghost use Rattle.pf_maps.specs.Clauses.Opened.{Opens, OpensWith, fault_of, held_as, names_size};
ghost use Rattle.pf_maps.specs.Opening as opening;

use crate::cdb_table::CdbTable;
use crate::net_table::NetTable;
use crate::node::{Node, Nodes, Opened};
use crate::specification::{SpecNode, spec};
use pf_base::{
    Bytes, Cause, ConfFault, Files, NoMemory, ReadFault, Refused, Specs, TableId, read_all, refuse,
};
use pf_cidr::CidrTable;
use pf_listfile::ListFile;
use pf_pcre::{Patterns, PcreTable};
use pf_table::{Inline, Repeats, StaticTable, TextRead, TextTable};
use std::alloc::Global;

/// Why tables are not opened.
#[derive(Debug, PartialEq, Eq, Drop)]
pub enum OpenFault {
    /// A table is refused.
    Refused(Refused),
    /// The read of the file of this name failed, and the count of faults of the files rose.
    Failed { file: Bytes },
    /// Out of memory.
    NoMemory,
}

impl OpenFault {
    fn of(fault: ConfFault) -> OpenFault
        ensures { result ≡ fault_of fault }
    {
        match fault {
            ConfFault::Refused(refusal) => OpenFault::Refused(refusal),
            ConfFault::NoMemory => OpenFault::NoMemory,
        }
    }
}

// Where a table is named: the file of the settings, and the line of the setting.
#[derive(Drop)]
pub(crate) struct Place {
    file: Bytes,
    line: u64,
}

// The text of the file of a table.
fn table_text<F: Files>(
    alloc: Global,
    place: &Place,
    name: &[u8],
    files: &mut F,
) -> Result<Bytes, OpenFault>
    ensures opens { Opens (F.known files.old) (F.known files.new) (λ failed all. opening.table_text failed all place.now name.now) result }
    ensures small { IfErr result (λ fault. names_size fault ≡ false) }
{
    let Ok(text) = str::from_utf8(name) else {
        return Err(OpenFault::of(refuse(
            alloc,
            place.file.as_slice(),
            place.line,
            Cause::C10,
            name,
        )));
    };
    let Ok(file) = Bytes::from_slice(alloc, name) else {
        return Err(OpenFault::NoMemory);
    };
    match read_all(alloc, files, text) {
        Ok(None) => Err(OpenFault::of(refuse(
            alloc,
            place.file.as_slice(),
            place.line,
            Cause::C10,
            name,
        ))),
        Ok(Some(bytes)) => Ok(bytes),
        Err(ReadFault::TooLarge) => {
            Err(OpenFault::of(refuse(alloc, place.file.as_slice(), place.line, Cause::C15, name)))
        }
        Err(ReadFault::Failed) => Err(OpenFault::Failed { file }),
        Err(ReadFault::NoMemory) => Err(OpenFault::NoMemory),
    }
}

/// The text of the file of a table. It is refused as C10 where it is not there, and as C15 where it has more than 64 MiB, with
/// the file and the line where it is named, and its name. `Failed` names it too, and comes only where the count of faults of
/// `files` rose by one.
pub fn file_text<F: Files>(
    alloc: Global,
    file: &[u8],
    line: u64,
    name: &[u8],
    files: &mut F,
) -> Result<Bytes, OpenFault>
    ensures opens { Opens (F.known files.old) (F.known files.new) (λ failed all. opening.table_text failed all (record { file = file.now; line = line }) name.now) result }
    ensures small { IfErr result (λ fault. names_size fault ≡ false) }
    ensures text { IfOk result (λ text. IsUtf8 name.now) }
{
    let Ok(_) = str::from_utf8(name) else {
        return Err(OpenFault::of(refuse(alloc, file, line, Cause::C10, name)));
    };
    let Ok(file) = Bytes::from_slice(alloc, file) else {
        return Err(OpenFault::NoMemory);
    };
    table_text(alloc, &Place { file, line }, name, files)
}

fn open_text<F: Files>(
    alloc: Global,
    place: &Place,
    folded: bool,
    name: &[u8],
    files: &mut F,
) -> Result<Node, OpenFault>
    ensures opens { Opens (F.known files.old) (F.known files.new) (λ failed all. opening.text_opened failed all place.now folded name.now) result }
    ensures small { IfErr result (λ fault. names_size fault ≡ false) }
{
    let text = table_text(alloc, place, name, files)?;
    match TextTable::read(alloc, name, text.as_slice(), folded, Repeats::First) {
        Ok(TextRead { table, repeated: _ }) => Ok(Node::Text(table)),
        Err(fault) => Err(OpenFault::of(fault)),
    }
}

// The name of the file of `cdb:NAME`.
fn cdb_name(alloc: Global, name: &[u8]) -> Result<Bytes, NoMemory>
    ensures { IfOk result (λ file. file ≡ opening.cdb_name name.now) }
{
    let mut file = Bytes::from_slice(alloc, name)?;
    file.extend(b".cdb")?;
    Ok(file)
}

// The table of a cdb file with this name.
fn open_cdb_file<F: Files>(
    alloc: Global,
    place: &Place,
    folded: bool,
    file: &[u8],
    files: &mut F,
) -> Result<Node, OpenFault>
    ensures opens { Opens (F.known files.old) (F.known files.new) (λ failed all. opening.cdb_file_opened failed all place.now folded file.now) result }
    ensures small { IfErr result (λ fault. names_size fault ≡ false) }
{
    let bytes = table_text(alloc, place, file, files)?;
    match CdbTable::read(alloc, file, bytes, folded) {
        Ok(table) => Ok(Node::Cdb(table)),
        Err(fault) => Err(OpenFault::of(fault)),
    }
}

fn open_cdb<F: Files>(
    alloc: Global,
    place: &Place,
    folded: bool,
    name: &[u8],
    files: &mut F,
) -> Result<Node, OpenFault>
    ensures opens { Opens (F.known files.old) (F.known files.new) (λ failed all. opening.cdb_opened failed all place.now folded name.now) result }
    ensures small { IfErr result (λ fault. names_size fault ≡ false) }
{
    match cdb_name(alloc, name) {
        Ok(file) => open_cdb_file(alloc, place, folded, file.as_slice(), files),
        Err(NoMemory) => Err(OpenFault::NoMemory),
    }
}

fn open_cidr<F: Files>(
    alloc: Global,
    place: &Place,
    name: &[u8],
    files: &mut F,
) -> Result<Node, OpenFault>
    ensures opens { Opens (F.known files.old) (F.known files.new) (λ failed all. opening.cidr_opened failed all place.now name.now) result }
    ensures small { IfErr result (λ fault. names_size fault ≡ false) }
{
    let text = table_text(alloc, place, name, files)?;
    match CidrTable::read(alloc, name, text.as_slice()) {
        Ok(table) => Ok(Node::Cidr(NetTable::new(table))),
        Err(fault) => Err(OpenFault::of(fault)),
    }
}

fn open_pcre<F: Files>(
    alloc: Global,
    place: &Place,
    name: &[u8],
    files: &mut F,
    patterns: &mut Patterns,
) -> Result<Node, OpenFault>
    ensures { OpensWith (F.known files.old) (F.known files.new) patterns.old patterns.new (λ event all. opening.pcre_opened event all place.now name.now) result }
{
    let text = table_text(alloc, place, name, files)?;
    match PcreTable::read(alloc, name, text.as_slice(), patterns) {
        Ok(table) => Ok(Node::Pcre(table)),
        Err(fault) => Err(OpenFault::of(fault)),
    }
}

fn open_list<F: Files>(
    alloc: Global,
    place: &Place,
    name: &[u8],
    files: &mut F,
) -> Result<Node, OpenFault>
    ensures opens { Opens (F.known files.old) (F.known files.new) (λ failed all. opening.list_opened failed all place.now name.now) result }
    ensures small { IfErr result (λ fault. names_size fault ≡ false) }
{
    let text = table_text(alloc, place, name, files)?;
    match ListFile::read(alloc, name, text.as_slice()) {
        Ok(list) => Ok(Node::ListFile(list)),
        Err(fault) => Err(OpenFault::of(fault)),
    }
}

fn open_inline(alloc: Global, place: &Place, folded: bool, text: &[u8]) -> Result<Node, ConfFault>
    ensures { Unless result ConfFault.NoMemory (λ r. r ≡ as_fault (opening.inline_opened place.now folded text.now)) }
{
    match Inline::read(alloc, place.file.as_slice(), place.line, text, folded) {
        Ok(table) => Ok(Node::Inline(table)),
        Err(fault) => Err(fault),
    }
}

fn open_fixed(alloc: Global, value: &Bytes) -> Result<Node, ConfFault>
    ensures { Unless result ConfFault.NoMemory (λ r. r ≡ as_fault (Ok (Node.Fixed value.now))) }
{
    match value.copy(alloc) {
        Ok(value) => Ok(Node::Fixed(StaticTable::new(value))),
        Err(NoMemory) => Err(ConfFault::NoMemory),
    }
}

// What was made without a file.
fn held(node: Result<Node, ConfFault>) -> Result<Node, OpenFault>
    ensures { result ≡ held_as node }
{
    match node {
        Ok(node) => Ok(node),
        Err(fault) => Err(OpenFault::of(fault)),
    }
}

fn open_node<F: Files>(
    alloc: Global,
    place: &Place,
    folded: bool,
    node: &SpecNode,
    files: &mut F,
    patterns: &mut Patterns,
) -> Result<Node, OpenFault>
    ensures { OpensWith (F.known files.old) (F.known files.new) patterns.old patterns.new (λ event all. opening.node_opened event all place.now folded node.now) result }
{
    match node {
        SpecNode::Text(name) => open_text(alloc, place, folded, name.as_slice(), files),
        SpecNode::Cdb(name) => open_cdb(alloc, place, folded, name.as_slice(), files),
        SpecNode::Cidr(name) => open_cidr(alloc, place, name.as_slice(), files),
        SpecNode::Pcre(name) => open_pcre(alloc, place, name.as_slice(), files, patterns),
        SpecNode::Inline(text) => held(open_inline(alloc, place, folded, text.as_slice())),
        SpecNode::Fixed(value) => held(open_fixed(alloc, value)),
        SpecNode::Fail => Ok(Node::Fail),
        SpecNode::ListFile(name) => open_list(alloc, place, name.as_slice(), files),
        SpecNode::Union(count) => Ok(Node::Union(*count)),
        SpecNode::Pipe(count) => Ok(Node::Pipe(*count)),
    }
}

fn open_nodes<F: Files>(
    alloc: Global,
    place: &Place,
    folded: bool,
    nodes: &[SpecNode],
    files: &mut F,
    patterns: &mut Patterns,
) -> Result<Nodes, OpenFault>
    ensures { OpensWith (F.known files.old) (F.known files.new) patterns.old patterns.new (λ event all. opening.nodes_opened event all place.now folded nodes.now) result }
{
    let mut opened = Nodes::new(alloc);
    for node in nodes {
        let one = open_node(alloc, place, folded, node, files, patterns)?;
        let Ok(()) = opened.push(one) else {
            return Err(OpenFault::NoMemory);
        };
    }
    Ok(opened)
}

fn open_table<F: Files>(
    alloc: Global,
    place: &Place,
    folded: bool,
    text: &[u8],
    files: &mut F,
    patterns: &mut Patterns,
) -> Result<Nodes, OpenFault>
    ensures { OpensWith (F.known files.old) (F.known files.new) patterns.old patterns.new (λ event all. opening.table_opened event all folded place.now text.now) result }
{
    match spec(alloc, place.file.as_slice(), place.line, text) {
        Ok(nodes) => open_nodes(alloc, place, folded, nodes.as_slice(), files, patterns),
        Err(fault) => Err(OpenFault::of(fault)),
    }
}

// The tables of all texts.
pub(crate) fn open_tables<F: Files>(
    alloc: Global,
    specs: &Specs,
    folded: bool,
    files: &mut F,
    patterns: &mut Patterns,
) -> Result<Opened, OpenFault>
    ensures { OpensWith (F.known files.old) (F.known files.new) patterns.old patterns.new (λ event all. opening.tables_opened event all folded specs.now) result }
{
    let mut tables = Opened::new(alloc);
    for place in 0..specs.len() {
        let id = TableId(place);
        let Ok(file) = specs.file().copy(alloc) else {
            return Err(OpenFault::NoMemory);
        };
        let at = Place {
            file,
            line: specs.line(id),
        };
        let table = open_table(
            alloc,
            &at,
            folded,
            specs.text(id).as_slice(),
            files,
            patterns,
        )?;
        let Ok(()) = tables.push(table) else {
            return Err(OpenFault::NoMemory);
        };
    }
    Ok(tables)
}
