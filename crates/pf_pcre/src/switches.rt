//! The switches of a pattern, and the flags that toggle them.
ghost use Rattle.std.specs.Prelude.{◌≡◌};
ghost use Rattle.pf_pcre.specs.Switches as spec;

/// How a pattern is read and matched.
#[derive(Clone, Copy, Debug, PartialEq, Eq)]
pub struct Switches {
    /// Letters match in either case.
    pub case: bool,
    /// `^` and `$` match at line feeds too.
    pub lines: bool,
    /// `.` matches a line feed.
    pub dot: bool,
    /// Space in the pattern counts for nothing, and `#` begins a comment.
    pub free: bool,
    /// What is greedy is lazy, and the other way round.
    pub greed: bool,
}

impl Switches {
    // These switches with that of a flag in its other place; None where the byte is no flag.
    fn toggled(self, flag: u8) -> Option<Switches>
        ensures { result ≡ spec.toggled self flag }
    {
        match flag {
            b'i' => Some(Switches {
                case: !self.case,
                ..self
            }),
            b'm' => Some(Switches {
                lines: !self.lines,
                ..self
            }),
            b's' => Some(Switches {
                dot: !self.dot,
                ..self
            }),
            b'x' => Some(Switches {
                free: !self.free,
                ..self
            }),
            b'U' => Some(Switches {
                greed: !self.greed,
                ..self
            }),
            b'E' => Some(self),
            _ => None,
        }
    }
}

/// The switches of a pattern with these flags (pcre_table(5)): without any, case is ignored and `.` matches a line feed, and
/// each flag toggles. None where a byte is no flag.
pub(crate) fn switches_of(flags: &[u8]) -> Option<Switches>
    ensures { result ≡ spec.switches_of flags.now }
{
    let mut switches = Switches {
        case: true,
        lines: false,
        dot: true,
        free: false,
        greed: false,
    };
    for flag in flags {
        switches = switches.toggled(*flag)?;
    }
    Some(switches)
}
