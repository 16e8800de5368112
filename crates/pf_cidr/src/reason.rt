//! Why the text of a table is refused.
ghost use Rattle.std.specs.Prelude.{◌≡◌};
ghost use Rattle.pf_cidr.specs.Tables as tables;

use crate::net::NetFault;

/// Why a line of a table is refused, in the order in which they count where a line has several. The words are postgate's own.
#[derive(Clone, Copy, Debug, PartialEq, Eq)]
pub(crate) enum Reason {
    /// A pattern is no address and no net.
    Pattern,
    /// A bit of a pattern's address after its prefix is set.
    HostBits,
    /// A rule has no result.
    NoValue,
    /// An `if` is never closed.
    IfWithoutEndif,
    /// An `endif` closes nothing.
    EndifWithoutIf,
}

impl From<NetFault> for Reason {
    ghost from_gives = { λ fault reason. reason ≡ tables.net_reason fault };

    fn from(fault: NetFault) -> Reason {
        match fault {
            NetFault::Syntax => Reason::Pattern,
            NetFault::HostBits => Reason::HostBits,
        }
    }
}

impl Reason {
    // The words that a refusal names it by.
    #[tactic(auto, unfolding(crate::specs::Tables::reason_text))]
    pub(crate) fn text(self) -> &'static [u8]
        ensures { result.now ≡ tables.reason_text self }
    {
        match self {
            Reason::Pattern => b"pattern",
            Reason::HostBits => b"host bits",
            Reason::NoValue => b"no value",
            Reason::IfWithoutEndif => b"if without endif",
            Reason::EndifWithoutIf => b"endif without if",
        }
    }
}
