//! Where in a list the items are that a key may match.
ghost use Rattle.std.specs.Prelude.{◌≡◌, ℕ, List as Seq, None, IfOk, OnOk};
ghost use Rattle.std.specs.Option.{option_copied};
ghost use Rattle.pf_listfile.specs.Clauses.Places as spec;

use crate::item::{Item, Pattern};
use pf_base::{List, NoMemory};
use std::alloc::Global;
use std::collections::HashMap;

/// The items that are found by a text.
#[derive(Clone, Copy, Debug, PartialEq, Eq)]
pub(crate) enum Kind {
    /// Those that are matched by a host name.
    Name,
    /// Those that are matched by the names below one.
    Below,
}

/// The place of the first item of each text.
#[derive(Drop)]
pub(crate) struct Places {
    pub(crate) places: HashMap<Vec<u8>, usize>,
}

impl Places {
    // No text has a place.
    fn new(alloc: Global) -> Places
        ensures { (text : Seq ℕ) → spec.place_in result text ≡ None }
    {
        Places {
            places: HashMap::new(alloc),
        }
    }

    /// The place of the first item of this text; None where there is none. It takes no memory.
    pub(crate) fn get(&self, text: &[u8]) -> Option<usize>
        ensures { result ≡ spec.place_in self.now text.now }
    {
        match self.places.get(text) {
            None => None,
            Some(place) => Some(*place),
        }
    }

    // Puts the place of a text in that of an earlier one.
    fn put(&mut self, text: Vec<u8>, place: usize) -> Result<(), NoMemory>
        ensures { OnOk result (spec.Puts (spec.place_in self.old) (spec.place_in self.new) text.items place) }
    {
        let Ok(_) = self.places.insert(text, place) else {
            return Err(NoMemory);
        };
        Ok(())
    }

    // Puts the place of a text, unless it has one.
    fn put_first(&mut self, alloc: Global, text: &[u8], place: usize) -> Result<(), NoMemory>
        ensures { OnOk result (spec.PutsFirst (spec.place_in self.old) (spec.place_in self.new) text.now place) }
    {
        if let Some(_) = self.get(text) {
            return Ok(());
        }
        let text = Vec::from_slice(alloc, text)?;
        self.put(text, place)
    }
}

fn name_text(pattern: &Pattern) -> Option<&[u8]>
    ensures { option_copied result ≡ spec.name_text pattern.now }
{
    match pattern {
        Pattern::Name(name) => Some(name.as_slice()),
        Pattern::Below(_) => None,
        Pattern::Net(_) => None,
    }
}

fn below_text(pattern: &Pattern) -> Option<&[u8]>
    ensures { option_copied result ≡ spec.below_text pattern.now }
{
    match pattern {
        Pattern::Name(_) => None,
        Pattern::Below(name) => Some(name.as_slice()),
        Pattern::Net(_) => None,
    }
}

// The text by which an item of a kind is found.
fn text_of(kind: Kind, pattern: &Pattern) -> Option<&[u8]>
    ensures { option_copied result ≡ spec.text_of kind pattern.now }
{
    match kind {
        Kind::Name => name_text(pattern),
        Kind::Below => below_text(pattern),
    }
}

/// The places of the items of a kind.
pub(crate) fn places_of(alloc: Global, kind: Kind, items: &[Item]) -> Result<Places, NoMemory>
    ensures { IfOk result (λ places. spec.AreFirst (spec.place_in places) kind items.now) }
{
    let mut places = Places::new(alloc);
    for (place, item) in items.iter().enumerate() {
        if let Some(text) = text_of(kind, &item.pattern) {
            places.put_first(alloc, text, place)?;
        }
    }
    Ok(places)
}

fn is_net(pattern: &Pattern) -> bool
    ensures { result ≡ spec.is_net pattern.now }
{
    match pattern {
        Pattern::Name(_) => false,
        Pattern::Below(_) => false,
        Pattern::Net(_) => true,
    }
}

/// The places of the nets.
pub(crate) fn nets_of(alloc: Global, items: &[Item]) -> Result<List<u64>, NoMemory>
    ensures { IfOk result (λ nets. nets ≡ spec.net_places 0 items.now) }
{
    let mut nets = List::new(alloc);
    for (place, item) in items.iter().enumerate() {
        if is_net(&item.pattern) {
            nets.push(place as u64)?;
        }
    }
    Ok(nets)
}

/// The earlier of two places.
pub(crate) fn earlier(place: Option<usize>, other: Option<usize>) -> Option<usize>
    ensures { result ≡ spec.earlier place other }
{
    match place {
        None => other,
        Some(place) => match other {
            None => Some(place),
            Some(other) => Some(place.min(other)),
        },
    }
}
