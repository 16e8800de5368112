//! Local parts that name a site (postconf(5), swap_bangpath, allow_percent_hack).
ghost use Rattle.std.specs.Prelude.{◌≡◌, ◌≤◌, ◌-◌, ◌==◌, not, length};
ghost use Rattle.std.specs.List.{after_last as list_after_last, before_last as list_before_last, suffix_len};
ghost use Rattle.std.specs.Option.{option_map};
ghost use Rattle.pf_class.specs.Resolved as resolved;
ghost use Rattle.pf_class.specs.Standard as spec;
ghost use Rattle.pf_class.specs.Standard.{address_of};

use pf_base::{after_byte, before_byte};

// The place after the last such byte, or 0 where there is none.
fn place_behind(text: &[u8], byte: u8) -> usize
    ensures within { result ≤ length text.now }
    ensures place { result ≡ length text.now - suffix_len (λ b. not (b == byte)) text.now }
{
    let mut end = text.len();
    while end > 0 && text[end - 1] != byte {
        end -= 1;
    }
    end
}

// What is before the last such byte; nothing where there is none.
fn before_last(text: &[u8], byte: u8) -> &[u8]
    ensures { result.now ≡ list_before_last (λ b. b == byte) text.now }
{
    &text[..place_behind(text, byte).saturating_sub(1)]
}

// What is after the last such byte; the whole text where there is none.
fn behind_last(text: &[u8], byte: u8) -> &[u8]
    ensures { result.now ≡ list_after_last (λ b. b == byte) text.now }
{
    &text[place_behind(text, byte)..]
}

// A user at a site, where there are both.
fn user_at<'a>(user: &'a [u8], site: &'a [u8]) -> Option<(&'a [u8], &'a [u8])>
    ensures { option_map (λ parts. address_of parts.0.now parts.1.now) result ≡ spec.user_at user.now site.now }
{
    if 0 < user.len() && 0 < site.len() {
        Some((user, site))
    } else {
        None
    }
}

// The user and the site of `site!user`.
#[tactic(auto, unfolding(crate::specs::Standard::at_bang))]
pub(crate) fn at_bang(local: &[u8]) -> Option<(&[u8], &[u8])>
    ensures { option_map (λ parts. address_of parts.0.now parts.1.now) result ≡ spec.at_bang local.now }
{
    user_at(after_byte(local, b'!'), before_byte(local, b'!'))
}

// The user and the site of `user%site`.
#[tactic(auto, unfolding(crate::specs::Standard::at_percent))]
pub(crate) fn at_percent(local: &[u8]) -> Option<(&[u8], &[u8])>
    ensures { option_map (λ parts. address_of parts.0.now parts.1.now) result ≡ spec.at_percent local.now }
{
    user_at(before_last(local, b'%'), behind_last(local, b'%'))
}

// The user and the site of `user@site`.
#[tactic(auto, unfolding(crate::specs::Resolved::at_at))]
pub(crate) fn at_at(local: &[u8]) -> Option<(&[u8], &[u8])>
    ensures { option_map (λ parts. address_of parts.0.now parts.1.now) result ≡ resolved.at_at local.now }
{
    user_at(before_last(local, b'@'), behind_last(local, b'@'))
}
