//! The bytes that parts of a path are made of (RFC 5321, 4.1.2).
ghost use Rattle.std.specs.Prelude.{◌≡◌};
ghost use Rattle.pf_addr.specs.Grammar as grammar;
ghost use Rattle.pf_addr.specs.Printed as printed;

// A byte of a domain.
#[tactic(auto, unfolding(crate::specs::Grammar::is_name_byte))]
pub(crate) fn is_name_byte(b: u8) -> bool
    ensures { result ≡ grammar.is_name_byte b }
{
    b.is_ascii_alphanumeric() || b == b'-' || b == b'_' || b == b'.'
}

// A byte between the brackets of a literal.
#[tactic(auto, unfolding(crate::specs::Grammar::is_literal_byte))]
pub(crate) fn is_literal_byte(b: u8) -> bool
    ensures { result ≡ grammar.is_literal_byte b }
{
    b != b']' && b != b'@'
}

// One of the special bytes of a path.
fn is_special(b: u8) -> bool
    ensures { result ≡ grammar.is_special b }
{
    b"<>()[],;:\\\"".contains(&b)
}

// A byte of a local part that is not quoted.
#[tactic(auto, unfolding(crate::specs::Grammar::is_plain_byte))]
pub(crate) fn is_plain_byte(b: u8) -> bool
    ensures { result ≡ grammar.is_plain_byte b }
{
    b'!' <= b && b <= b'~' && !is_special(b)
}

// A byte of a local part that is printed without quotes.
#[tactic(auto, unfolding(crate::specs::Printed::is_atom_byte))]
pub(crate) fn is_atom_byte(b: u8) -> bool
    ensures { result ≡ printed.is_atom_byte b }
{
    b.is_ascii_alphanumeric() || b".!#$%&'*+-/=?^_`{|}~".contains(&b)
}
