//! Braces and their partners.
ghost use Rattle.std.specs.Prelude.{◌≡◌, ◌<◌, ◌-◌, ◌^◌, length, IfSome};
ghost use Rattle.pf_base.specs.Text.Braces as braces;

// How many braces are open after a byte, where so many are open before it.
pub(crate) fn open_behind(depth: usize, b: u8) -> usize
    requires { depth < 2 ^ 64 - 1 }
    ensures { result ≡ braces.open_behind depth b }
{
    match b {
        b'{' => depth + 1,
        b'}' => depth.saturating_sub(1),
        _ => depth,
    }
}

/// Where the brace ends that was opened before a text: the place, from 0, of its partner; None where it has none
/// (postconf(5), main.cf format).
pub fn closing_brace(text: &[u8]) -> Option<usize>
    ensures within { IfSome result (λ n. n < length text.now) }
    ensures place { result ≡ braces.partner 0 text.now }
{
    let mut depth: usize = 0;
    for (i, b) in text.iter().enumerate() {
        if *b == b'}' && depth == 0 {
            return Some(i);
        }
        depth = open_behind(depth, *b);
    }
    None
}

// The place of the first brace that has no partner.
pub(crate) fn lone_brace(text: &[u8]) -> Option<usize>
    ensures { result ≡ braces.lone_brace 0 text.now }
{
    let mut depth: usize = 0;
    let mut outer: usize = 0;
    for (i, b) in text.iter().enumerate() {
        if *b == b'}' && depth == 0 {
            return Some(i);
        }
        if *b == b'{' && depth == 0 {
            outer = i;
        }
        depth = open_behind(depth, *b);
    }
    if depth > 0 { Some(outer) } else { None }
}
