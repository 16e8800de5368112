//! Values are written.
ghost use Rattle.std.specs.Prelude.{◌≡◌, ◌==◌, ◌≤◌, ◌+◌, ◌++◌, true, is_ok, OnOk};
ghost use Rattle.std.specs.List.{position};
ghost use Rattle.pf_base.specs.Text.Ascii as ascii;
ghost use Rattle.pf_expand.specs.Clauses.Levels.{AreSizes};
ghost use Rattle.pf_expand.specs.Clauses.Meanings.{level_value};
ghost use Rattle.pf_expand.specs.Expansion.{content};
ghost use Rattle.pf_expand.specs.Names as expansion;
ghost use Rattle.pf_expand.specs.Clauses.Runs as runs;
ghost use Rattle.pf_expand.specs.declared.run.Mode.TheVariants.{Counts};

use crate::lengths::{Sizes, choice_behind, size_named};
use crate::names::Names;
use crate::run::{Mode, behind};
use crate::size::Size;
use crate::token::Token;
use pf_base::{Bytes, Meaning, NoMemory};
use std::alloc::Global;

fn dot_place(host: &[u8]) -> Option<usize>
    ensures { result ≡ position (λ b. b == ascii.dot) host.now }
{
    host.iter().position(|b| *b == b'.')
}

/// A host name past its first dot, `localdomain` where it has none.
pub(crate) fn domain_in(host: &[u8]) -> &[u8]
    ensures { result.now ≡ expansion.domain_in host.now }
{
    match dot_place(host) {
        None => b"localdomain",
        Some(place) => &host[place + 1..],
    }
}

fn counts(mode: Mode) -> bool
    ensures { result ≡ runs.counts mode }
{
    match mode {
        Mode::Counts => true,
        Mode::ToOtherwise(_) => false,
        Mode::ToEnd(_) => false,
    }
}

fn is_nothing(size: Size) -> bool
    ensures { result ≡ true → size ≡ Size.Long 0 }
{
    match size {
        Size::Long(length) => length == 0,
        Size::Flawed(_) => false,
    }
}

/// Adds the value of pieces, which is there with so many levels left.
#[cycle(write_name)]
pub(crate) fn write_pieces(
    alloc: Global,
    names: &Names,
    sizes: &Sizes,
    tokens: &[Token],
    levels: u64,
    out: &mut Bytes,
) -> Result<(), NoMemory>
    requires sizes { AreSizes names.now sizes.now }
    requires levels { levels ≤ sizes.now.levels }
    requires there { is_ok (runs.run (level_value names.now levels) Counts tokens.now) ≡ true }
    ensures { OnOk result (out.new ≡ out.old ++ content (runs.run (level_value names.now levels) Counts tokens.now)) }
{
    let mut mode = Mode::Counts;
    for token in tokens {
        write_piece(alloc, names, sizes, mode, token, levels, out)?;
        mode = behind(choice_behind(names, sizes, token), mode, token);
    }
    Ok(())
}

// Adds what a piece adds.
#[cycle(write_name)]
fn write_piece(
    alloc: Global,
    names: &Names,
    sizes: &Sizes,
    mode: Mode,
    token: &Token,
    levels: u64,
    out: &mut Bytes,
) -> Result<(), NoMemory>
    requires sizes { AreSizes names.now sizes.now }
    requires levels { levels ≤ sizes.now.levels }
    requires there { is_ok (runs.added (level_value names.now levels) mode token.now) ≡ true }
    ensures { OnOk result (out.new ≡ out.old ++ content (runs.added (level_value names.now levels) mode token.now)) }
{
    if !counts(mode) {
        return Ok(());
    }
    match token {
        Token::Literal(bytes) => out.extend(bytes.as_slice()),
        Token::Name(name) => write_name(alloc, names, sizes, name, levels, out),
        Token::Choose(_) => Ok(()),
        Token::Otherwise => Ok(()),
        Token::End => Ok(()),
    }
}

/// Adds the value of a name, which is there with so many levels left.
#[cycle(write_name)]
pub(crate) fn write_name(
    alloc: Global,
    names: &Names,
    sizes: &Sizes,
    name: &Bytes,
    levels: u64,
    out: &mut Bytes,
) -> Result<(), NoMemory>
    requires sizes { AreSizes names.now sizes.now }
    requires levels { levels ≤ sizes.now.levels }
    requires there { is_ok (level_value names.now levels name.now) ≡ true }
    ensures { OnOk result (out.new ≡ out.old ++ content (level_value names.now levels name.now)) }
{
    if levels == 0 {
        return Ok(());
    }
    if is_nothing(size_named(names, sizes, name)) {
        return Ok(());
    }
    write_meaning(alloc, names, sizes, name, levels - 1, out)
}

/// Adds the value of a name, which is there with one level more.
#[cycle(write_name)]
pub(crate) fn write_meaning(
    alloc: Global,
    names: &Names,
    sizes: &Sizes,
    name: &Bytes,
    levels: u64,
    out: &mut Bytes,
) -> Result<(), NoMemory>
    requires sizes { AreSizes names.now sizes.now }
    requires levels { levels ≤ sizes.now.levels }
    requires there { is_ok (level_value names.now (levels + 1) name.now) ≡ true }
    ensures { OnOk result (out.new ≡ out.old ++ content (level_value names.now (levels + 1) name.now)) }
{
    match names.get(name) {
        None => Ok(()),
        Some(Meaning::Is(None)) => Ok(()),
        Some(Meaning::Is(Some(tokens))) => {
            write_pieces(alloc, names, sizes, tokens.as_slice(), levels, out)
        }
        Some(Meaning::DomainOf(host)) => write_domain(alloc, names, sizes, host, levels, out),
    }
}

// Adds the domain in the value of a name.
#[cycle(write_name)]
fn write_domain(
    alloc: Global,
    names: &Names,
    sizes: &Sizes,
    host: &Bytes,
    levels: u64,
    out: &mut Bytes,
) -> Result<(), NoMemory>
    requires sizes { AreSizes names.now sizes.now }
    requires levels { levels ≤ sizes.now.levels }
    requires there { is_ok (level_value names.now levels host.now) ≡ true }
    ensures { OnOk result (out.new ≡ out.old ++ content (expansion.domain_of (level_value names.now levels host.now))) }
{
    let mut value = Bytes::new(alloc);
    write_name(alloc, names, sizes, host, levels, &mut value)?;
    out.extend(domain_in(value.as_slice()))
}
