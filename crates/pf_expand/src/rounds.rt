//! What is known of the values of names, level by level.
ghost use Rattle.std.specs.Prelude.{◌≡◌, ◌+◌, ◌<◌, ◌↔◌, [], get_or, length, map, IfOk, IsTrue};
ghost use Rattle.std.specs.Map.{keys_of};
ghost use Rattle.pf_base.specs.declared.meaning.Meaning.TheVariants.{Is};
ghost use Rattle.pf_expand.specs.Clauses.Levels.{AreSizes};
ghost use Rattle.pf_expand.specs.Clauses.Meanings.{level_value, meaning_value};
ghost use Rattle.pf_expand.specs.Names as expansion;
ghost use Rattle.pf_expand.specs.Clauses.Sizes.{size_of};

use crate::flaw::Flaw;
use crate::lengths::{Sizes, pieces_size, size_named};
use crate::names::{Kept, Names};
use crate::size::{Size, long};
use crate::token::Token;
use crate::write::{domain_in, write_name};
use pf_base::{Bytes, List, Meaning, NoMemory};
use std::alloc::Global;

// The most levels of names.
const DEPTH_LIMIT: u64 = 100;

// The size of the domain in the value of a name.
fn domain_size(alloc: Global, names: &Names, sizes: &Sizes, host: &Bytes) -> Result<Size, NoMemory>
    requires { AreSizes names.now sizes.now }
    ensures { IfOk result (λ size. size ≡ size_of (expansion.domain_of (level_value names.now sizes.now.levels host.now))) }
{
    match size_named(names, sizes, host) {
        Size::Flawed(flaw) => Ok(Size::Flawed(flaw)),
        Size::Long(_) => {
            let mut value = Bytes::new(alloc);
            write_name(alloc, names, sizes, host, sizes.levels, &mut value)?;
            Ok(long(domain_in(value.as_slice()).len() as u64))
        }
    }
}

// The size of a text in its pieces, if it has its form.
fn text_size(names: &Names, sizes: &Sizes, text: &Option<List<Token>>) -> Size
    requires { AreSizes names.now sizes.now }
    ensures { result ≡ size_of (meaning_value (level_value names.now sizes.now.levels) (Is text.now)) }
{
    match text {
        None => Size::Flawed(Flaw::BadForm),
        Some(tokens) => pieces_size(names, sizes, tokens.as_slice()),
    }
}

// The size of what a name means.
fn meaning_size(
    alloc: Global,
    names: &Names,
    sizes: &Sizes,
    meaning: &Kept,
) -> Result<Size, NoMemory>
    requires { AreSizes names.now sizes.now }
    ensures { IfOk result (λ size. size ≡ size_of (meaning_value (level_value names.now sizes.now.levels) meaning.now)) }
{
    match meaning {
        Meaning::Is(text) => Ok(text_size(names, sizes, text)),
        Meaning::DomainOf(host) => domain_size(alloc, names, sizes, host),
    }
}

/// The size of a name's value with one level more.
pub(crate) fn next_size(
    alloc: Global,
    names: &Names,
    sizes: &Sizes,
    name: &Bytes,
) -> Result<Size, NoMemory>
    requires { AreSizes names.now sizes.now }
    ensures { IfOk result (λ size. size ≡ size_of (level_value names.now (sizes.now.levels + 1) name.now)) }
{
    match names.get(name) {
        None => Ok(Size::Long(0)),
        Some(meaning) => meaning_size(alloc, names, sizes, meaning),
    }
}

// The size of the value of the name at a place.
fn next_size_at(alloc: Global, names: &Names, sizes: &Sizes, place: usize) -> Result<Size, NoMemory>
    requires sizes { AreSizes names.now sizes.now }
    requires within { place < length names.now }
    ensures { IfOk result (λ size. size ≡ size_of (level_value names.now (sizes.now.levels + 1) (get_or (keys_of names.now) place []))) }
{
    match names.name_at(place) {
        None => unreachable!(),
        Some(name) => next_size(alloc, names, sizes, name),
    }
}

// The sizes of the values of the names in their order, with one level more.
fn next_named(alloc: Global, names: &Names, sizes: &Sizes) -> Result<List<Size>, NoMemory>
    requires { AreSizes names.now sizes.now }
    ensures { IfOk result (λ named. named ≡ map (λ name. size_of (level_value names.now (sizes.now.levels + 1) name)) (keys_of names.now)) }
{
    let mut named = List::new(alloc);
    for place in 0..names.len() {
        named.push(next_size_at(alloc, names, sizes, place)?)?;
    }
    Ok(named)
}

// The sizes with one level more.
fn next(alloc: Global, names: &Names, sizes: &Sizes) -> Result<Sizes, NoMemory>
    requires sizes { AreSizes names.now sizes.now }
    requires levels { sizes.now.levels < expansion.depth_limit }
    ensures sizes { IfOk result (λ next. AreSizes names.now next) }
    ensures levels { IfOk result (λ next. next.levels ≡ sizes.now.levels + 1) }
{
    let named = next_named(alloc, names, sizes)?;
    Ok(Sizes {
        levels: sizes.levels + 1,
        named,
        absent: Size::Long(0),
    })
}

// The sizes are the same, whatever the levels.
fn are_same(first: &Sizes, second: &Sizes) -> bool
    ensures { IsTrue result ↔ (first.now.named ≡ second.now.named) × (first.now.absent ≡ second.now.absent) }
{
    first.absent == second.absent && first.named.as_slice() == second.named.as_slice()
}

/// The sizes of the values of names with 100 levels. Where a level changes none, no further one does.
pub(crate) fn sizes_of(alloc: Global, names: &Names) -> Result<Sizes, NoMemory>
    ensures sizes { IfOk result (λ sizes. AreSizes names.now sizes) }
    ensures levels { IfOk result (λ sizes. sizes.levels ≡ expansion.depth_limit) }
{
    let mut sizes = Sizes {
        levels: 0,
        named: List::new(alloc),
        absent: Size::Flawed(Flaw::TooDeep),
    };
    while sizes.levels < DEPTH_LIMIT {
        let more = next(alloc, names, &sizes)?;
        if are_same(&more, &sizes) {
            return Ok(Sizes {
                levels: DEPTH_LIMIT,
                named: more.named,
                absent: more.absent,
            });
        }
        sizes = more;
    }
    Ok(sizes)
}
