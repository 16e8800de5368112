//! Space, and text without it at its ends.
ghost use Rattle.std.specs.Prelude.{◌≡◌, ◌-◌, ◌≤◌, length};
ghost use Rattle.std.specs.List.{prefix_len, suffix_len};
ghost use Rattle.pf_base.specs.Text.Space as space;
ghost use Rattle.pf_base.specs.Text.Space.{is_space};

/// Whether a byte is space: a blank or a tab, as postgate takes the white space of postconf(5).
pub fn is_space(b: u8) -> bool
    ensures { result ≡ space.is_space b }
{
    b == b' ' || b == b'\t'
}

// How many bytes of space a text begins with.
fn leading_space(text: &[u8]) -> usize
    ensures within { result ≤ length text.now }
    ensures count { result ≡ prefix_len is_space text.now }
{
    for (i, b) in text.iter().enumerate() {
        if !is_space(*b) {
            return i;
        }
    }
    text.len()
}

// Where the space begins that a text ends in.
fn trailing_space(text: &[u8]) -> usize
    ensures within { result ≤ length text.now }
    ensures end { result ≡ length text.now - suffix_len is_space text.now }
{
    let mut end = text.len();
    while end > 0 && is_space(text[end - 1]) {
        end -= 1;
    }
    end
}

/// A text from its first byte on that is no space (postconf(5)).
pub fn without_leading_space(text: &[u8]) -> &[u8]
    ensures { result.now ≡ space.without_leading_space text.now }
{
    &text[leading_space(text)..]
}

/// A text without space at both ends (postconf(5)).
pub fn trimmed(text: &[u8]) -> &[u8]
    ensures { result.now ≡ space.trimmed text.now }
{
    let text = without_leading_space(text);
    &text[..trailing_space(text)]
}
