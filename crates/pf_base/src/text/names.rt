//! Names of hosts.
ghost use Rattle.std.specs.Prelude.{◌≡◌};
ghost use Rattle.std.specs.List.{list_all};
ghost use Rattle.pf_base.specs.Text.Names as names;

fn is_label_byte(b: u8) -> bool
    ensures { result ≡ names.is_label_byte b }
{
    b.is_ascii_alphanumeric() || b == b'-' || b == b'_'
}

fn has_label_bytes(label: &[u8]) -> bool
    ensures { result ≡ list_all names.is_label_byte label.now }
{
    label.iter().all(|b| is_label_byte(*b))
}

fn is_label(label: &[u8]) -> bool
    ensures { result ≡ names.is_label label.now }
{
    0 < label.len() && label.len() <= 63 && has_label_bytes(label)
}

/// Whether a text is a host name: labels of 1 to 63 letters, digits, `-` and `_`, parted by single dots (RFC 1123, 2.1;
/// RFC 1035, 2.3.4).
pub fn is_host_name(name: &[u8]) -> bool
    ensures { result ≡ names.is_host_name name.now }
{
    name.split(|b| *b == b'.').all(|label| is_label(label))
}

/// Whether two texts are the same, their letters A to Z in either case (RFC 1035, 2.3.3; RFC 5321, 2.4).
pub fn same_in_any_case(a: &[u8], b: &[u8]) -> bool
    ensures { result ≡ names.same_in_any_case a.now b.now }
{
    a.eq_ignore_ascii_case(b)
}
