//! Why the text of a table is refused.
ghost use Rattle.std.specs.Prelude.{◌≡◌};
ghost use Rattle.pf_pcre.specs.Tables as tables;

/// Why a line of a table is refused, in the order in which they count where a line has several. The words are postgate's own.
#[derive(Clone, Copy, Debug, PartialEq, Eq)]
pub(crate) enum Reason {
    /// A byte after the pattern is no flag.
    Flag,
    /// There is no delimiter, or the text between the delimiters is no pattern.
    Pattern,
    /// A pattern was not built for its size, by regex or a crate that regex stands on.
    PatternSize,
    /// A result names a group that its pattern has not, or has another dollar sign.
    Group,
    /// A rule has no result.
    NoValue,
    /// There are too many rules.
    TooManyRules,
    /// An `if` is never closed.
    IfWithoutEndif,
    /// An `endif` closes nothing.
    EndifWithoutIf,
}

impl Reason {
    // The words that a refusal names it by.
    #[tactic(auto, unfolding(crate::specs::Tables::reason_text))]
    pub(crate) fn text(self) -> &'static [u8]
        ensures { result.now ≡ tables.reason_text self }
    {
        match self {
            Reason::Flag => b"flag",
            Reason::Pattern => b"pattern",
            Reason::PatternSize => b"pattern size",
            Reason::Group => b"group",
            Reason::NoValue => b"no value",
            Reason::TooManyRules => b"too many rules",
            Reason::IfWithoutEndif => b"if without endif",
            Reason::EndifWithoutIf => b"endif without if",
        }
    }
}
