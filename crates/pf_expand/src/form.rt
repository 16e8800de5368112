//! The forms that a dollar sign begins (postconf(5), main.cf format).
ghost use Rattle.std.specs.Prelude.{◌≡◌, ◌≤◌, ◌==◌, length};
ghost use Rattle.std.specs.List.{list_all, position, prefix_len};
ghost use Rattle.std.specs.Option.{option_copied, option_map};
ghost use Rattle.pf_base.specs.Text.Ascii as ascii;
ghost use Rattle.pf_expand.specs.Forms as spec;
ghost use Rattle.pf_expand.specs.Clauses.FormsMeant.{part_meant};

use pf_base::{closing_brace, trimmed, without_leading_space};

/// A part of a text: bytes that stand for themselves, the value of a name, or one of two texts: the first where the value of
/// the name is not empty.
#[derive(Clone, Copy)]
pub(crate) enum Part<'a> {
    Literal(&'a [u8]),
    Name(&'a [u8]),
    Choice {
        name: &'a [u8],
        full: &'a [u8],
        empty: &'a [u8],
    },
}

fn is_name_byte(b: u8) -> bool
    ensures { result ≡ spec.is_name_byte b }
{
    b.is_ascii_alphanumeric() || b == b'_'
}

// How many bytes of a name a text begins with.
fn name_length(text: &[u8]) -> usize
    ensures within { result ≤ length text.now }
    ensures count { result ≡ prefix_len spec.is_name_byte text.now }
{
    for (i, b) in text.iter().enumerate() {
        if !is_name_byte(*b) {
            return i;
        }
    }
    text.len()
}

// The name that a text begins with, and what is after it.
fn name_before(text: &[u8]) -> Option<(&[u8], &[u8])>
    ensures { option_map (λ cut. (cut.0.now, cut.1.now)) result ≡ spec.name_before text.now }
{
    let end = name_length(text);
    if end == 0 {
        None
    } else {
        Some((&text[..end], &text[end..]))
    }
}

// What is in a brace that was opened before a text, and what is after it.
fn in_brace(text: &[u8]) -> Option<(&[u8], &[u8])>
    ensures { option_map (λ cut. (cut.0.now, cut.1.now)) result ≡ spec.in_brace text.now }
{
    match closing_brace(text) {
        None => None,
        Some(place) => Some((&text[..place], &text[place + 1..])),
    }
}

// Where the first closing parenthesis is.
fn closing_parenthesis(text: &[u8]) -> Option<usize>
    ensures { result ≡ position (λ b. b == ascii.right_parenthesis) text.now }
{
    text.iter().position(|b| *b == b')')
}

// What is in a parenthesis that was opened before a text, and what is after it.
fn in_parenthesis(text: &[u8]) -> Option<(&[u8], &[u8])>
    ensures { option_map (λ cut. (cut.0.now, cut.1.now)) result ≡ spec.in_parenthesis text.now }
{
    match closing_parenthesis(text) {
        None => None,
        Some(place) => Some((&text[..place], &text[place + 1..])),
    }
}

// The content of a text that is a brace with space round it.
fn brace_content(text: &[u8]) -> Option<&[u8]>
    ensures { option_copied result ≡ spec.brace_content text.now }
{
    let [b'{', text @ ..] = text else {
        return None;
    };
    let (inner, behind) = in_brace(text)?;
    if without_leading_space(behind).is_empty() {
        Some(inner)
    } else {
        None
    }
}

fn begins_with_brace(text: &[u8]) -> bool
    ensures { result ≡ spec.begins_with_brace text.now }
{
    match text {
        [b'{', ..] => true,
        _ => false,
    }
}

// One text: a brace's content, or else all of it as it is.
fn one_text(text: &[u8]) -> Option<&[u8]>
    ensures { option_copied result ≡ spec.one_text text.now }
{
    let inner = without_leading_space(text);
    if begins_with_brace(inner) {
        brace_content(inner)
    } else {
        Some(text)
    }
}

// What is after the first text of two: nothing, or a colon and the second one in a brace.
fn second_text(text: &[u8]) -> Option<&[u8]>
    ensures { option_copied result ≡ spec.second_text text.now }
{
    match text {
        [] => Some(&[]),
        [b':', text @ ..] => brace_content(without_leading_space(text)),
        _ => None,
    }
}

// A first text in a brace, and the second one.
fn two_texts<'a>(name: &'a [u8], text: &'a [u8]) -> Option<Part<'a>>
    ensures { option_map part_meant result ≡ spec.behind_brace name.now text.now }
{
    let [_, text @ ..] = text else {
        return None;
    };
    let (full, behind) = in_brace(text)?;
    let empty = second_text(without_leading_space(behind))?;
    Some(Part::Choice { name, full, empty })
}

// What is after a question mark.
fn if_full<'a>(name: &'a [u8], text: &'a [u8]) -> Option<Part<'a>>
    ensures { option_map part_meant result ≡ spec.if_full name.now text.now }
{
    let inner = without_leading_space(text);
    if begins_with_brace(inner) {
        two_texts(name, inner)
    } else {
        Some(Part::Choice {
            name,
            full: text,
            empty: &[],
        })
    }
}

// What is after a colon.
fn if_empty<'a>(name: &'a [u8], text: &'a [u8]) -> Option<Part<'a>>
    ensures { option_map part_meant result ≡ spec.if_empty name.now text.now }
{
    let empty = one_text(text)?;
    Some(Part::Choice {
        name,
        full: &[],
        empty,
    })
}

// What is after a name in a brace.
fn behind_name<'a>(name: &'a [u8], text: &'a [u8]) -> Option<Part<'a>>
    ensures { option_map part_meant result ≡ spec.behind_name name.now text.now }
{
    match text {
        [] => Some(Part::Name(name)),
        [b'?', text @ ..] => if_full(name, text),
        [b':', text @ ..] => if_empty(name, text),
        _ => None,
    }
}

// The content of a brace after a dollar sign.
fn braced(text: &[u8]) -> Option<Part<'_>>
    ensures { option_map part_meant result ≡ spec.braced text.now }
{
    let (name, behind) = name_before(without_leading_space(text))?;
    behind_name(name, without_leading_space(behind))
}

fn has_name_bytes(text: &[u8]) -> bool
    ensures { result ≡ list_all spec.is_name_byte text.now }
{
    text.iter().all(|b| is_name_byte(*b))
}

// The content of a parenthesis after a dollar sign.
fn parenthesised(text: &[u8]) -> Option<Part<'_>>
    ensures { option_map part_meant result ≡ spec.parenthesised text.now }
{
    let name = trimmed(text);
    if 0 < name.len() && has_name_bytes(name) {
        Some(Part::Name(name))
    } else {
        None
    }
}

fn with_brace(text: &[u8]) -> Option<(Part<'_>, &[u8])>
    ensures { option_map (λ cut. (part_meant cut.0, cut.1.now)) result ≡ spec.with_brace text.now }
{
    let (inner, behind) = in_brace(text)?;
    let form = braced(inner)?;
    Some((form, behind))
}

fn with_parenthesis(text: &[u8]) -> Option<(Part<'_>, &[u8])>
    ensures { option_map (λ cut. (part_meant cut.0, cut.1.now)) result ≡ spec.with_parenthesis text.now }
{
    let (inner, behind) = in_parenthesis(text)?;
    let form = parenthesised(inner)?;
    Some((form, behind))
}

fn with_name_alone(text: &[u8]) -> Option<(Part<'_>, &[u8])>
    ensures { option_map (λ cut. (part_meant cut.0, cut.1.now)) result ≡ spec.with_name_alone text.now }
{
    let (name, behind) = name_before(text)?;
    Some((Part::Name(name), behind))
}

// The part that a dollar sign before a text begins, and the text after it; None where it begins no form.
#[tactic(auto, unfolding(crate::specs::Forms::form_of))]
fn form_of(text: &[u8]) -> Option<(Part<'_>, &[u8])>
    ensures { option_map (λ cut. (part_meant cut.0, cut.1.now)) result ≡ spec.form_of text.now }
{
    match text {
        [] => None,
        [b'$', behind @ ..] => Some((Part::Literal(b"$"), behind)),
        [b'{', text @ ..] => with_brace(text),
        [b'(', text @ ..] => with_parenthesis(text),
        _ => with_name_alone(text),
    }
}

// How many bytes are before the first dollar sign.
fn plain_length(text: &[u8]) -> usize
    ensures within { result ≤ length text.now }
    ensures count { result ≡ spec.plain_length text.now }
{
    for (i, b) in text.iter().enumerate() {
        if *b == b'$' {
            return i;
        }
    }
    text.len()
}

/// The first part of a text that is not empty, and the text after it; None where a dollar sign begins no form.
#[tactic(auto, unfolding(crate::specs::Forms::first_part))]
pub(crate) fn first_part(text: &[u8]) -> Option<(Part<'_>, &[u8])>
    ensures { option_map (λ cut. (part_meant cut.0, cut.1.now)) result ≡ spec.first_part text.now }
{
    match text {
        [] => None,
        [b'$', behind @ ..] => form_of(behind),
        _ => {
            let end = plain_length(text);
            Some((Part::Literal(&text[..end]), &text[end..]))
        }
    }
}
