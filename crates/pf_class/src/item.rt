//! The items of lists of domains, hosts and nets.
use crate::names::Names;
use pf_base::TableId;
use pf_cidr::Net;

/// What an item of a list is matched by (postconf(5), mydestination, mynetworks).
#[derive(Drop)]
pub enum Pattern {
    /// One of these names.
    Names(Names),
    /// An address in this net.
    Net(Net),
    /// A key for which this table has a value.
    Table(TableId),
    /// A key for which this list file has a value; `yes` says that it is a member, any other one that it is not.
    File(TableId),
}

/// An item of a list. What matches its pattern is a member, or, where it excludes (after `!`), it is not.
#[derive(Drop)]
pub struct Item {
    pub pattern: Pattern,
    pub excludes: bool,
}
