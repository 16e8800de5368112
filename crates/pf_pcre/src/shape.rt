//! How a pattern is in a line: between delimiters (pcre_table(5)). Where it ends is postgate's own.
ghost use Rattle.std.specs.Prelude.{◌≡◌, ◌==◌, ◌&&◌, ◌<◌, not, false, length, option_map, IfSome};
ghost use Rattle.pf_base.specs.Text.Ascii as ascii;
ghost use Rattle.pf_pcre.specs.Shape as spec;
ghost use Rattle.pf_pcre.specs.Clauses.Shown.{shown};

use pf_base::is_space;

/// A pattern between delimiters: whether an exclamation mark is before it, its text, and what is after it.
#[derive(Clone, Copy, Debug)]
pub(crate) struct Shape<'t> {
    pub(crate) negated: bool,
    pub(crate) pattern: &'t [u8],
    pub(crate) behind: &'t [u8],
}

// Whether a byte may be round a pattern.
fn is_delimiter(b: u8) -> bool
    ensures { result ≡ spec.is_delimiter b }
{
    !(b.is_ascii_alphanumeric() || is_space(b) || b == b'\\' || b == b'!')
}

// Whether a byte ends a pattern; taken says that a backslash takes it.
fn is_closing(delimiter: u8, taken: bool, b: u8) -> bool
    ensures { result ≡ (not taken && b == delimiter) }
{
    !taken && b == delimiter
}

// Whether a byte is a backslash that takes the next byte.
fn takes_next(taken: bool, b: u8) -> bool
    ensures { result ≡ (not taken && b == ascii.backslash) }
{
    !taken && b == b'\\'
}

// The place of the delimiter that ends a pattern.
fn closing(delimiter: u8, text: &[u8]) -> Option<usize>
    ensures within { IfSome result (λ n. n < length text.now) }
    ensures place { result ≡ spec.closing delimiter false text.now }
{
    let mut taken = false;
    for (i, b) in text.iter().enumerate() {
        if is_closing(delimiter, taken, *b) {
            return Some(i);
        }
        taken = takes_next(taken, *b);
    }
    None
}

// The pattern at the start of a text, before which an exclamation mark is or none.
fn between(negated: bool, text: &[u8]) -> Option<Shape<'_>>
    ensures { option_map shown result ≡ spec.between negated text.now }
{
    match text {
        [] => None,
        [first, rest @ ..] => {
            if !is_delimiter(*first) {
                return None;
            }
            let place = closing(*first, rest)?;
            Some(Shape {
                negated,
                pattern: &rest[..place],
                behind: &rest[place + 1..],
            })
        }
    }
}

/// The pattern at the start of a text; None where there are no delimiters.
pub(crate) fn shape_of(text: &[u8]) -> Option<Shape<'_>>
    ensures { option_map shown result ≡ spec.shape_of text.now }
{
    match text {
        [b'!', rest @ ..] => between(true, rest),
        _ => between(false, text),
    }
}
