//! What the text of a table or a list file names (DATABASE_README; postconf(5), mydestination and mynetworks).
ghost use Rattle.std.specs.Prelude.{◌≡◌, ◌≢◌, ◌==◌, IfOk};
ghost use Rattle.std.specs.List.{position};
ghost use Rattle.std.specs.Option.{option_copied};
ghost use Rattle.pf_base.specs.Text.Ascii as ascii;
ghost use Rattle.pf_base.specs.Clauses.Unless.{Unless};
ghost use Rattle.pf_base.specs.Clauses.Faults.{as_fault};
ghost use Rattle.pf_maps.specs.Clauses.Adding.{behind, when};
ghost use Rattle.pf_maps.specs.Specification as naming;

use pf_base::{Bytes, Cause, ConfFault, List, NoMemory, WordsFault, refuse, trimmed, words_of};
use pf_table::{Inline, in_brace};
use std::alloc::Global;

// How deep unions and pipes may be in one another.
const LEVELS: u64 = 20;

/// A table or a list file that a text names, or a table that is made of others.
#[derive(Debug, PartialEq, Eq, Drop)]
pub enum SpecNode {
    /// `texthash:`, with the name of the file.
    Text(Bytes),
    /// `cdb:`, with the name of the file but for its `.cdb`.
    Cdb(Bytes),
    /// `cidr:`, with the name of the file.
    Cidr(Bytes),
    /// `pcre:`, with the name of the file.
    Pcre(Bytes),
    /// `inline:`, with the text between its braces.
    Inline(Bytes),
    /// `static:`, with its value.
    Fixed(Bytes),
    /// `fail:`.
    Fail,
    /// A list file, with its name.
    ListFile(Bytes),
    /// `unionmap:`, with the number of its members, which are after it, each with its own.
    Union(u64),
    /// `pipemap:`, likewise.
    Pipe(u64),
}

// What makes one table of others.
#[derive(Clone, Copy, Debug, PartialEq, Eq)]
pub(crate) enum Group {
    Union,
    Pipe,
}

impl Group {
    fn node(self, count: u64) -> SpecNode
        ensures { result ≡ naming.group_node self count }
    {
        match self {
            Group::Union => SpecNode::Union(count),
            Group::Pipe => SpecNode::Pipe(count),
        }
    }
}

// The place of the first colon.
fn colon(text: &[u8]) -> Option<usize>
    ensures { result ≡ position (λ b. b == ascii.colon) text.now }
{
    text.iter().position(|b| *b == b':')
}

// What is in the brace that a text begins with, where nothing is after its partner.
fn braced(text: &[u8]) -> Option<&[u8]>
    ensures { option_copied result ≡ naming.braced text.now }
{
    match text {
        [] => None,
        [first, behind @ ..] => {
            if *first == b'{' {
                in_brace(behind)
            } else {
                None
            }
        }
    }
}

// The name of a file; None where it is no UTF-8.
fn file_name(alloc: Global, name: &[u8]) -> Result<Option<Bytes>, NoMemory>
    ensures { IfOk result (λ file. file ≡ naming.file_name name.now) }
{
    let Ok(_) = str::from_utf8(name) else {
        return Ok(None);
    };
    Ok(Some(Bytes::from_slice(alloc, name)?))
}

fn text_node(alloc: Global, name: &[u8]) -> Result<Option<SpecNode>, NoMemory>
    ensures { IfOk result (λ node. node ≡ naming.text_node name.now) }
{
    match file_name(alloc, name)? {
        None => Ok(None),
        Some(file) => Ok(Some(SpecNode::Text(file))),
    }
}

fn cdb_node(alloc: Global, name: &[u8]) -> Result<Option<SpecNode>, NoMemory>
    ensures { IfOk result (λ node. node ≡ naming.cdb_node name.now) }
{
    match file_name(alloc, name)? {
        None => Ok(None),
        Some(file) => Ok(Some(SpecNode::Cdb(file))),
    }
}

fn cidr_node(alloc: Global, name: &[u8]) -> Result<Option<SpecNode>, NoMemory>
    ensures { IfOk result (λ node. node ≡ naming.cidr_node name.now) }
{
    match file_name(alloc, name)? {
        None => Ok(None),
        Some(file) => Ok(Some(SpecNode::Cidr(file))),
    }
}

fn pcre_node(alloc: Global, name: &[u8]) -> Result<Option<SpecNode>, NoMemory>
    ensures { IfOk result (λ node. node ≡ naming.pcre_node name.now) }
{
    match file_name(alloc, name)? {
        None => Ok(None),
        Some(file) => Ok(Some(SpecNode::Pcre(file))),
    }
}

// Whether a text is one of an inline table.
fn is_inline(alloc: Global, text: &[u8]) -> Result<bool, NoMemory>
    ensures { IfOk result (λ is. is ≡ naming.is_inline text.now) }
{
    match Inline::read(alloc, &[], 0, text, false) {
        Ok(_) => Ok(true),
        Err(ConfFault::Refused(_)) => Ok(false),
        Err(ConfFault::NoMemory) => Err(NoMemory),
    }
}

fn inline_node(alloc: Global, name: &[u8]) -> Result<Option<SpecNode>, NoMemory>
    ensures { IfOk result (λ node. node ≡ naming.inline_node name.now) }
{
    let Some(text) = braced(name) else {
        return Ok(None);
    };
    if !is_inline(alloc, text)? {
        return Ok(None);
    }
    Ok(Some(SpecNode::Inline(Bytes::from_slice(alloc, text)?)))
}

// The value of `static:`, in braces or as it is.
fn fixed_value(name: &[u8]) -> Option<&[u8]>
    ensures { option_copied result ≡ naming.fixed_value name.now }
{
    match name {
        [] => Some(name),
        [first, behind @ ..] => {
            if *first != b'{' {
                return Some(name);
            }
            match in_brace(behind) {
                None => None,
                Some(text) => Some(trimmed(text)),
            }
        }
    }
}

fn fixed_node(alloc: Global, name: &[u8]) -> Result<Option<SpecNode>, NoMemory>
    ensures { IfOk result (λ node. node ≡ naming.fixed_node name.now) }
{
    match fixed_value(name) {
        None => Ok(None),
        Some(value) => Ok(Some(SpecNode::Fixed(Bytes::from_slice(alloc, value)?))),
    }
}

// The node of a table that holds no other.
#[tactic(auto, unfolding(crate::specs::Specification::leaf))]
fn leaf(alloc: Global, kind: &[u8], name: &[u8]) -> Result<Option<SpecNode>, NoMemory>
    ensures { IfOk result (λ node. node ≡ naming.leaf kind.now name.now) }
{
    if kind == b"texthash".as_slice() {
        text_node(alloc, name)
    } else if kind == b"cdb".as_slice() {
        cdb_node(alloc, name)
    } else if kind == b"cidr".as_slice() {
        cidr_node(alloc, name)
    } else if kind == b"pcre".as_slice() {
        pcre_node(alloc, name)
    } else if kind == b"inline".as_slice() {
        inline_node(alloc, name)
    } else if kind == b"static".as_slice() {
        fixed_node(alloc, name)
    } else if kind == b"fail".as_slice() {
        Ok(Some(SpecNode::Fail))
    } else {
        Ok(None)
    }
}

fn add_leaf(
    alloc: Global,
    kind: &[u8],
    name: &[u8],
    nodes: &mut List<SpecNode>,
) -> Result<bool, NoMemory>
    ensures { IfOk result (λ is. behind nodes.old (naming.leaf_nodes kind.now name.now) ≡ when is nodes.new) }
{
    match leaf(alloc, kind, name)? {
        None => Ok(false),
        Some(node) => {
            nodes.push(node)?;
            Ok(true)
        }
    }
}

#[tactic(auto, unfolding(crate::specs::Specification::group_named))]
fn group_named(kind: &[u8]) -> Option<Group>
    ensures { result ≡ naming.group_named kind.now }
{
    if kind == b"unionmap".as_slice() {
        Some(Group::Union)
    } else if kind == b"pipemap".as_slice() {
        Some(Group::Pipe)
    } else {
        None
    }
}

// The texts of the members of a union or a pipe; None where there are none.
fn members(alloc: Global, name: &[u8]) -> Result<Option<List<Bytes>>, NoMemory>
    ensures { IfOk result (λ words. words ≡ naming.members name.now) }
{
    let Some(text) = braced(name) else {
        return Ok(None);
    };
    match words_of(alloc, text) {
        Err(WordsFault::Unbalanced { at: _ }) => Ok(None),
        Err(WordsFault::NoMemory) => Err(NoMemory),
        Ok(words) => {
            if words.len() == 0 {
                Ok(None)
            } else {
                Ok(Some(words))
            }
        }
    }
}

// Adds the nodes of texts; false where one names no table.
#[cycle(nodes)]
fn add_members(
    alloc: Global,
    levels: u64,
    texts: &[Bytes],
    nodes: &mut List<SpecNode>,
) -> Result<bool, NoMemory>
    ensures { IfOk result (λ is. behind nodes.old (naming.members_nodes (naming.nodes_of levels) texts.now) ≡ when is nodes.new) }
{
    for text in texts {
        if !add_nodes(alloc, levels, text.as_slice(), nodes)? {
            return Ok(false);
        }
    }
    Ok(true)
}

// Adds the nodes of a union or a pipe.
#[cycle(nodes)]
fn add_group(
    alloc: Global,
    levels: u64,
    group: Group,
    name: &[u8],
    nodes: &mut List<SpecNode>,
) -> Result<bool, NoMemory>
    ensures { IfOk result (λ is. behind nodes.old (naming.groups_at levels group name.now) ≡ when is nodes.new) }
{
    if levels == 0 {
        return Ok(false);
    }
    let Some(texts) = members(alloc, name)? else {
        return Ok(false);
    };
    nodes.push(group.node(texts.len()))?;
    add_members(alloc, levels - 1, texts.as_slice(), nodes)
}

// Adds the nodes of a text, in which so many levels of unions and pipes may be; false where it names no table.
#[cycle(nodes)]
fn add_nodes(
    alloc: Global,
    levels: u64,
    text: &[u8],
    nodes: &mut List<SpecNode>,
) -> Result<bool, NoMemory>
    ensures { IfOk result (λ is. behind nodes.old (naming.nodes_of levels text.now) ≡ when is nodes.new) }
{
    let Some(place) = colon(text) else {
        return Ok(false);
    };
    let kind = &text[..place];
    let name = &text[place + 1..];
    match group_named(kind) {
        Some(group) => add_group(alloc, levels, group, name, nodes),
        None => add_leaf(alloc, kind, name, nodes),
    }
}

// The nodes of a text; None where it names no table.
fn nodes_of(alloc: Global, text: &[u8]) -> Result<Option<List<SpecNode>>, NoMemory>
    ensures { IfOk result (λ nodes. nodes ≡ naming.nodes_of naming.most_levels text.now) }
{
    let mut nodes = List::new(alloc);
    if add_nodes(alloc, LEVELS, text, &mut nodes)? {
        Ok(Some(nodes))
    } else {
        Ok(None)
    }
}

/// Whether a text names a list file: it begins with a slash (postconf(5), mydestination and mynetworks).
pub fn is_list_file(text: &[u8]) -> bool
    ensures { result ≡ naming.is_list_file text.now }
{
    match text {
        [b'/', ..] => true,
        _ => false,
    }
}

fn list_node(alloc: Global, name: &[u8]) -> Result<Option<SpecNode>, NoMemory>
    ensures { IfOk result (λ node. node ≡ naming.list_node name.now) }
{
    match file_name(alloc, name)? {
        None => Ok(None),
        Some(file) => Ok(Some(SpecNode::ListFile(file))),
    }
}

// The one node of a list file; None where its name is none.
fn list_nodes(alloc: Global, name: &[u8]) -> Result<Option<List<SpecNode>>, NoMemory>
    ensures { IfOk result (λ nodes. nodes ≡ naming.list_nodes name.now) }
{
    let Some(node) = list_node(alloc, name)? else {
        return Ok(None);
    };
    let mut nodes = List::new(alloc);
    nodes.push(node)?;
    Ok(Some(nodes))
}

// The nodes of a list file or of tables; None where the text names neither.
fn named(alloc: Global, text: &[u8]) -> Result<Option<List<SpecNode>>, NoMemory>
    ensures { IfOk result (λ nodes. nodes ≡ naming.named text.now) }
{
    if is_list_file(text) {
        list_nodes(alloc, text)
    } else {
        nodes_of(alloc, text)
    }
}

/// The list file that a text names, or the tables, the outermost first: `/FILE` is a list file, and tables are `texthash:FILE`, `cdb:FILE`, whose
/// file is FILE.cdb, `cidr:FILE`, `pcre:FILE`, `inline:{KEY=VALUE ..}`, `static:VALUE` or `static:{VALUE}`, `fail:NAME`, `unionmap:{TEXT, ..}` and
/// `pipemap:{TEXT, ..}`, whose members are after them in order, each with its own (DATABASE_README). A text of another type, without a colon,
/// with braces or items that are not of its form, a file name that is no UTF-8, a union or pipe without members, with a list file among
/// them, or nested more than 20 deep, is refused as C9, with this file and line and the whole text as its name.
pub fn spec(alloc: Global, file: &[u8], line: u64, text: &[u8]) -> Result<List<SpecNode>, ConfFault>
    ensures { Unless result ConfFault.NoMemory (λ r. r ≡ as_fault (naming.spec_of file.now line text.now)) }
{
    match named(alloc, text) {
        Err(NoMemory) => Err(ConfFault::NoMemory),
        Ok(None) => Err(refuse(alloc, file, line, Cause::C9, text)),
        Ok(Some(nodes)) => Ok(nodes),
    }
}
