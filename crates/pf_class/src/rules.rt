//! What the standard form of addresses is made by.
use pf_base::Bytes;

/// The rules by which an address gets its standard form, with the names that they append (postconf(5)).
#[derive(Debug, Drop)]
pub struct Rules {
    pub swap_bangpath: bool,
    pub allow_percent_hack: bool,
    pub append_at_myorigin: bool,
    pub append_dot_mydomain: bool,
    pub myorigin: Bytes,
    pub mydomain: Bytes,
}
