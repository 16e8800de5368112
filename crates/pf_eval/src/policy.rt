//! The policy of a site with one list of two restrictions.
use pf_base::{Bytes, List};
use pf_cidr::Net;

/// A restriction of the relay list (postconf(5)).
#[derive(Clone, Copy, Debug, PartialEq, Eq)]
pub enum PlainItem {
    /// Permits where the client is in mynetworks.
    PermitMynetworks,
    /// Denies where the recipient's domain is none of mydestination.
    RejectUnauthDestination,
}

/// The policy of a site: the names of mydestination, the networks of mynetworks and the items of smtpd_relay_restrictions
/// (postconf(5)).
#[derive(Debug, Drop)]
pub struct PlainPolicy {
    pub destinations: List<Bytes>,
    pub networks: List<Net>,
    pub relay: List<PlainItem>,
}

/// How the relay list ends; a denial names the place of its item, counted from 1.
#[derive(Clone, Copy, Debug, PartialEq, Eq)]
pub enum PlainEnd {
    /// The recipient is accepted.
    Accept,
    /// The item at this place denied it.
    Deny { place: u64 },
}
