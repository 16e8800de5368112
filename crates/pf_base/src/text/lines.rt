//! The lines of a stream of bytes.
ghost use Rattle.std.specs.Prelude.{◌≡◌, ◌∷◌, [], ◌++◌, IfNone, IfSome};
ghost use Rattle.pf_base.specs.Text.Lines as lines;
ghost use Rattle.pf_base.specs.Text.Lines.{rest};

use memchr::memchr;

/// The first line without its line feed, and what is after that; None where no line ends (RFC 5321, 2.3.8, with bare
/// line feeds taken as line ends).
pub fn first_line(bytes: &[u8]) -> Option<(&[u8], &[u8])>
    ensures none { IfNone result (lines.lines bytes.now ≡ []) }
    ensures no_rest { IfNone result (rest bytes.now ≡ bytes.now) }
    ensures bytes { IfSome result (λ cut. bytes.now ≡ cut.0.now ++ (10 ∷ cut.1.now)) }
    ensures line { IfSome result (λ cut. lines.lines bytes.now ≡ cut.0.now ∷ lines.lines cut.1.now) }
    ensures alone { IfSome result (λ cut. lines.lines (cut.0.now ++ (10 ∷ [])) ≡ cut.0.now ∷ []) }
    ensures rest { IfSome result (λ cut. rest bytes.now ≡ rest cut.1.now) }
{
    match memchr(b'\n', bytes) {
        None => None,
        Some(end) => Some((&bytes[..end], &bytes[end + 1..])),
    }
}

/// A line without the carriage return that is before its end (RFC 5321, 2.3.8).
pub fn without_return(line: &[u8]) -> &[u8]
    ensures { result.now ≡ lines.without_return line.now }
{
    match line {
        [prefix @ .., b'\r'] => prefix,
        _ => line,
    }
}
