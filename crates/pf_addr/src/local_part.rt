//! Local parts of addresses, by their lengths. A length of 0 says that there is none.
ghost use Rattle.std.specs.Prelude.{◌≡◌, ◌≤◌, ◌+◌, length, false};
ghost use Rattle.std.specs.List.{prefix_len};
ghost use Rattle.pf_addr.specs.Grammar as grammar;
ghost use Rattle.pf_addr.specs.Clauses.Quoted as quoted;
ghost use Rattle.pf_addr.specs.Clauses.Reading as reading;

use crate::classes::is_plain_byte;
use crate::quoted::closing_quote;

// How many plain bytes a text begins with.
fn plain_bytes(text: &[u8]) -> usize
    ensures within { result ≤ length text.now }
    ensures count { result ≡ prefix_len grammar.is_plain_byte text.now }
{
    text.iter().take_while(|b| is_plain_byte(**b)).count()
}

// The place after the last at sign, or 0 where there is none.
fn behind_at(text: &[u8]) -> usize
    ensures within { result ≤ length text.now }
    ensures place { result ≡ reading.behind_at text.now }
{
    let mut end = text.len();
    while end > 0 && text[end - 1] != b'@' {
        end -= 1;
    }
    end
}

// The length of the local part without quotes that a text begins with.
#[tactic(auto, unfolding(crate::specs::Clauses::Reading::plain_len))]
fn plain_len(text: &[u8]) -> usize
    ensures within { result ≤ length text.now }
    ensures count { result ≡ reading.plain_len text.now }
{
    let end = plain_bytes(text);
    let at = behind_at(&text[..end]);
    if at == 0 { end } else { at - 1 }
}

// The length of the quoted string whose first quote is before a text.
fn quoted_len(behind: &[u8]) -> usize
    ensures within { result ≤ length behind.now + 1 }
    ensures count { result ≡ reading.quoted_len_of (quoted.closing_quote false behind.now) }
{
    match closing_quote(behind) {
        Some(n) => n + 2,
        None => 0,
    }
}

// The length of the local part that a text begins with.
#[tactic(auto, unfolding(crate::specs::Clauses::Reading::local_len))]
pub(crate) fn local_len(text: &[u8]) -> usize
    ensures within { result ≤ length text.now }
    ensures count { result ≡ reading.local_len text.now }
{
    match text {
        [b'"', behind @ ..] => quoted_len(behind),
        _ => plain_len(text),
    }
}

// What is between the quotes of a local part, or all of one that has none.
#[tactic(auto, unfolding(crate::specs::Clauses::Reading::content_of))]
pub(crate) fn content_of(spelled: &[u8]) -> &[u8]
    ensures { result.now ≡ reading.content_of spelled.now }
{
    match spelled {
        [b'"', content @ .., _] => content,
        [b'"'] => &[],
        _ => spelled,
    }
}
