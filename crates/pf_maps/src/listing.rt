//! The pairs of opened tables.
ghost use Rattle.std.specs.Prelude.{◌≡◌, IfOk};
ghost use Rattle.pf_maps.specs.Listing as listing;

use crate::node::Node;
use pf_base::{List, NoMemory, Pair};
use std::alloc::Global;

fn node_pairs(alloc: Global, node: &Node) -> Result<List<Pair>, NoMemory>
    ensures { IfOk result (λ pairs. pairs ≡ listing.node_pairs node.now) }
{
    match node {
        Node::Text(table) => table.pairs(alloc),
        Node::Inline(table) => table.pairs(alloc),
        Node::Cdb(table) => table.listed(alloc),
        Node::Cidr(_) => Ok(List::new(alloc)),
        Node::Pcre(_) => Ok(List::new(alloc)),
        Node::Fixed(_) => Ok(List::new(alloc)),
        Node::Fail => Ok(List::new(alloc)),
        Node::ListFile(_) => Ok(List::new(alloc)),
        Node::Union(_) => Ok(List::new(alloc)),
        Node::Pipe(_) => Ok(List::new(alloc)),
    }
}

/// The pairs of the first table.
pub(crate) fn pairs_of(alloc: Global, nodes: &[Node]) -> Result<List<Pair>, NoMemory>
    ensures { IfOk result (λ pairs. pairs ≡ listing.pairs_of nodes.now) }
{
    match nodes {
        [] => Ok(List::new(alloc)),
        [first, ..] => node_pairs(alloc, first),
    }
}
