//! The items of a list file.
ghost use Rattle.std.specs.Prelude.{◌≡◌, Some, IfOk};
ghost use Rattle.pf_listfile.specs.Items as spec;

use pf_base::{Bytes, NoMemory, fold, is_host_name};
use pf_cidr::{Addr, Net};
use std::alloc::Global;

/// What an item is matched by (postconf(5), mydestination and mynetworks).
#[derive(Drop)]
pub(crate) enum Pattern {
    /// A host name, in small letters.
    Name(Bytes),
    /// A name below this one, which is in small letters.
    Below(Bytes),
    /// An address in this net.
    Net(Net),
}

/// An item: what matches its pattern is a member, or, where it excludes (after `!`), it is not.
#[derive(Drop)]
pub(crate) struct Item {
    pub(crate) pattern: Pattern,
    pub(crate) excludes: bool,
}

// The pattern of a host name.
fn name_pattern(alloc: Global, text: &[u8]) -> Result<Option<Pattern>, NoMemory>
    ensures { IfOk result (λ pattern. pattern ≡ spec.name_pattern text.now) }
{
    if !is_host_name(text) {
        return Ok(None);
    }
    Ok(Some(Pattern::Name(fold(alloc, text)?)))
}

// The pattern of the names below one.
fn below_pattern(alloc: Global, text: &[u8]) -> Result<Option<Pattern>, NoMemory>
    ensures { IfOk result (λ pattern. pattern ≡ spec.below_pattern text.now) }
{
    if !is_host_name(text) {
        return Ok(None);
    }
    Ok(Some(Pattern::Below(fold(alloc, text)?)))
}

fn host_pattern(alloc: Global, text: &[u8]) -> Result<Option<Pattern>, NoMemory>
    ensures { IfOk result (λ pattern. pattern ≡ spec.host_pattern text.now) }
{
    match text {
        [] => Ok(None),
        [b'.', name @ ..] => below_pattern(alloc, name),
        _ => name_pattern(alloc, text),
    }
}

fn begins_with_bracket(text: &[u8]) -> bool
    ensures { result ≡ spec.begins_with_bracket text.now }
{
    match text {
        [b'[', ..] => true,
        _ => false,
    }
}

fn has_colon(text: &[u8]) -> bool
    ensures { result ≡ spec.has_colon text.now }
{
    text.iter().any(|b| *b == b':')
}

// Whether a text has a colon, and does not begin with a bracket.
fn reads_as_table(text: &[u8]) -> bool
    ensures { result ≡ spec.reads_as_table text.now }
{
    has_colon(text) && !begins_with_bracket(text)
}

fn net_pattern(text: &[u8]) -> Option<Pattern>
    ensures { result ≡ spec.net_pattern text.now }
{
    if reads_as_table(text) {
        return None;
    }
    match Net::read(text) {
        Ok(net) => Some(Pattern::Net(net)),
        Err(_) => None,
    }
}

fn pattern_of(alloc: Global, text: &[u8]) -> Result<Option<Pattern>, NoMemory>
    ensures { IfOk result (λ pattern. pattern ≡ spec.pattern_of text.now) }
{
    match host_pattern(alloc, text)? {
        Some(pattern) => Ok(Some(pattern)),
        None => Ok(net_pattern(text)),
    }
}

fn item_with(excludes: bool, pattern: Option<Pattern>) -> Option<Item>
    ensures { result ≡ spec.item_with excludes pattern }
{
    match pattern {
        None => None,
        Some(pattern) => Some(Item { pattern, excludes }),
    }
}

/// The item that a word writes: a host name, a host name after a dot, an address or a net (IPv6 in brackets), or one of these after an
/// exclamation mark. None where it writes none.
pub(crate) fn item_of(alloc: Global, word: &[u8]) -> Result<Option<Item>, NoMemory>
    ensures { IfOk result (λ item. item ≡ spec.item_of word.now) }
{
    match word {
        [] => Ok(None),
        [b'!', text @ ..] => Ok(item_with(true, pattern_of(alloc, text)?)),
        _ => Ok(item_with(false, pattern_of(alloc, word)?)),
    }
}

impl Pattern {
    /// Whether an address is in the net.
    pub(crate) fn has_address(&self, address: &Addr) -> bool
        ensures { result ≡ spec.has_address self.now (Some address.now) }
    {
        match self {
            Pattern::Name(_) => false,
            Pattern::Below(_) => false,
            Pattern::Net(net) => net.has(address),
        }
    }
}
