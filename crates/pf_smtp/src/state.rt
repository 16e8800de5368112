//! The state of a session, what it is set up with, and what a line gives.
use crate::entry::Entry;
use crate::reply::Reply;
use pf_addr::Path;
use pf_base::Bytes;
use pf_cidr::Addr;
use pf_eval::PlainPolicy;

/// The server's name, its banner, its policy, and the client's address. The banner is the bytes of the greeting between its
/// code with a space and its line end (postconf(5), smtpd_banner).
#[derive(Debug, Drop)]
pub struct Setup {
    pub host: Bytes,
    pub banner: Bytes,
    pub policy: PlainPolicy,
    pub client: Addr,
}

/// How many lines there were, which stays at the greatest u64 once it is there, the sender of the transaction that is open,
/// and whether the session has ended.
#[derive(Debug, PartialEq, Eq, Drop)]
pub struct State {
    pub line: u64,
    pub sender: Option<Path>,
    pub ended: bool,
}

/// What a line gives: a reply, and the log line of a recipient that was judged. No verb of today gives a record line.
#[derive(Drop)]
pub(crate) struct Answer<'a> {
    pub(crate) reply: Reply<'a>,
    pub(crate) entry: Option<Entry<'a>>,
}
