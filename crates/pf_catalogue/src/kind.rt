//! What the values of parameters are.

/// What the values of a parameter are (postconf(5)).
#[derive(Clone, Copy, Debug, PartialEq, Eq)]
pub enum Kind {
    /// Any text.
    Text,
    /// A domain, by its name and not by that of a file: any text that does not begin with `/`.
    Origin,
    /// A decimal number from the one to the other.
    Number { least: u32, most: u32 },
    /// The code of a reply, from 400 to 599.
    Code,
    /// `yes` or `no`, in any case.
    Yes,
    /// Lookup tables.
    Maps,
    /// Domains: names, lookup tables and files.
    Domains,
    /// Networks: addresses with prefixes, lookup tables and files.
    Networks,
    /// Hosts: names, networks, lookup tables and files.
    Hosts,
    /// Restrictions with their arguments.
    Restrictions,
    /// Where addresses are that are rewritten: envelope_sender, envelope_recipient, header_sender and header_recipient.
    AddressKinds,
    /// What an address's extension is handed on by: canonical, virtual, alias, forward, include and generic.
    Extensions,
    /// The interfaces that mail is received on.
    Interfaces,
    /// Clients whose headers are rewritten.
    RewriteClients,
    /// Names.
    Names,
    /// `yes` and nothing else.
    FixedYes,
    /// Nothing: the parameter is not to be set.
    Unset,
}
