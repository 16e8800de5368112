//! The values of texts and of names.
ghost use Rattle.std.specs.Prelude.{◌≡◌, ◌+◌, ℕ, List as Seq, IfOk};
ghost use Rattle.pf_expand.specs.Expansion.{text_value};
ghost use Rattle.pf_expand.specs.Clauses.Levels.{AreSizes};
ghost use Rattle.pf_expand.specs.Clauses.Meanings.{AreNames, level_value};
ghost use Rattle.pf_base.specs.Clauses.Meant.{meant};
ghost use Rattle.pf_base.specs.Meanings.{Source};
ghost use Rattle.pf_expand.specs.Names.{depth_limit, domain_of, expanded, name_value, source_value};

use crate::flaw::Flaw;
use crate::lengths::{Sizes, pieces_size, size_named};
use crate::names::Names;
use crate::parse::tokens_of;
use crate::rounds::{next_size, sizes_of};
use crate::size::Size;
use crate::write::{domain_in, write_meaning, write_name, write_pieces};
use pf_base::{Bytes, Meaning, NoMemory};
use std::alloc::Global;
use std::marker::Model;

/// Names with what they stand for, and what is known of their values. A contract sees the names.
#[derive(Drop)]
pub struct Values {
    names: Names,
    sizes: Sizes,
}

impl Model for Values {
    ghost use Rattle.std.specs.Prelude.{◌≡◌, ℕ, List as Seq};
    ghost use Rattle.pf_expand.specs.Clauses.Levels.{AreSizes};
    ghost use Rattle.pf_expand.specs.Names.{depth_limit};
    ghost use Rattle.pf_expand.specs.Clauses.Meanings.{Kept};

    ghost Value = { Seq (Seq ℕ × Kept) };

    ghost view = { λ s. s.names };

    ghost invariant = { λ s. AreSizes s.names s.sizes × (s.sizes.levels ≡ depth_limit) };
}

// The value of a text, where names mean these and have these sizes; or why there is none.
fn value_of(
    alloc: Global,
    names: &Names,
    sizes: &Sizes,
    text: &[u8],
) -> Result<Result<Bytes, Flaw>, NoMemory>
    requires { AreSizes names.now sizes.now }
    ensures { IfOk result (λ value. value ≡ text_value (level_value names.now sizes.now.levels) text.now) }
{
    let Some(tokens) = tokens_of(alloc, text)? else {
        return Ok(Err(Flaw::BadForm));
    };
    match pieces_size(names, sizes, tokens.as_slice()) {
        Size::Flawed(flaw) => Ok(Err(flaw)),
        Size::Long(_) => {
            let mut value = Bytes::new(alloc);
            write_pieces(
                alloc,
                names,
                sizes,
                tokens.as_slice(),
                sizes.levels,
                &mut value,
            )?;
            Ok(Ok(value))
        }
    }
}

// The value of a name with one level more, where names mean these and have these sizes; or why there is none.
fn named_value(
    alloc: Global,
    names: &Names,
    sizes: &Sizes,
    name: &Bytes,
) -> Result<Result<Bytes, Flaw>, NoMemory>
    requires { AreSizes names.now sizes.now }
    ensures { IfOk result (λ value. value ≡ level_value names.now (sizes.now.levels + 1) name.now) }
{
    let size = next_size(alloc, names, sizes, name)?;
    match size {
        Size::Flawed(flaw) => Ok(Err(flaw)),
        Size::Long(_) => {
            let mut value = Bytes::new(alloc);
            write_meaning(alloc, names, sizes, name, sizes.levels, &mut value)?;
            Ok(Ok(value))
        }
    }
}

// The domain in the value of a name, where names mean these and have these sizes; or why there is none.
fn domain_value(
    alloc: Global,
    names: &Names,
    sizes: &Sizes,
    host: &Bytes,
) -> Result<Result<Bytes, Flaw>, NoMemory>
    requires { AreSizes names.now sizes.now }
    ensures { IfOk result (λ value. value ≡ domain_of (level_value names.now sizes.now.levels host.now)) }
{
    match size_named(names, sizes, host) {
        Size::Flawed(flaw) => Ok(Err(flaw)),
        Size::Long(_) => {
            let mut value = Bytes::new(alloc);
            write_name(alloc, names, sizes, host, sizes.levels, &mut value)?;
            let domain = Bytes::from_slice(alloc, domain_in(value.as_slice()))?;
            Ok(Ok(domain))
        }
    }
}

impl Values {
    /// The values of names that stand for these.
    pub fn new(alloc: Global, names: Names) -> Result<Values, NoMemory>
        ensures { IfOk result (λ values. values ≡ names) }
    {
        let sizes = sizes_of(alloc, &names)?;
        Ok(Values { names, sizes })
    }

    /// The value of a text, or why there is none. Names in it may name others in their texts, at most 100 deep, and no value
    /// is longer than 1,048,576 bytes (postconf(5), main.cf format; the limits are postgate's own).
    pub fn text(&self, alloc: Global, text: &[u8]) -> Result<Result<Bytes, Flaw>, NoMemory>
        ensures { (sources : Seq ℕ → Source) → AreNames self.now sources → IfOk result (λ value. value ≡ expanded sources text.now) }
    {
        value_of(alloc, &self.names, &self.sizes, text)
    }

    /// The value of what a name stands for, or would stand for: of a text, or the domain in the value of another name; or why
    /// there is none.
    pub fn meaning(
        &self,
        alloc: Global,
        meaning: Meaning<&[u8], &[u8]>,
    ) -> Result<Result<Bytes, Flaw>, NoMemory>
        ensures { (sources : Seq ℕ → Source) → AreNames self.now sources
            → IfOk result (λ value. value ≡ source_value (name_value sources depth_limit) (meant meaning.entry)) }
    {
        match meaning {
            Meaning::Is(text) => self.text(alloc, text),
            Meaning::DomainOf(host) => self.domain(alloc, host),
        }
    }

    // The domain in the value of a name, or why there is none.
    fn domain(&self, alloc: Global, host: &[u8]) -> Result<Result<Bytes, Flaw>, NoMemory>
        ensures { (sources : Seq ℕ → Source) → AreNames self.now sources
            → IfOk result (λ value. value ≡ domain_of (name_value sources depth_limit host.now)) }
    {
        let host = Bytes::from_slice(alloc, host)?;
        domain_value(alloc, &self.names, &self.sizes, &host)
    }

    /// The value of a name as it is alone, one level above the names in a text; or why there is none.
    pub fn name(&self, alloc: Global, name: &[u8]) -> Result<Result<Bytes, Flaw>, NoMemory>
        ensures { (sources : Seq ℕ → Source) → AreNames self.now sources → IfOk result (λ value. value ≡ name_value sources (depth_limit + 1) name.now) }
    {
        let name = Bytes::from_slice(alloc, name)?;
        named_value(alloc, &self.names, &self.sizes, &name)
    }
}
