//! The names that are asked for.
ghost use Rattle.std.specs.Prelude.{◌≡◌, [], map, IfOk, OnOk};
ghost use Rattle.std.specs.List.{fold};
ghost use Rattle.pf_tools.specs.Asked as spec;
ghost use Rattle.pf_tools.specs.Clauses.Ordering.{with_name};
ghost use Rattle.pf_tools.specs.Order.{IsInOrder};

use crate::order::Ordered;
use pf_base::{Bytes, List, NoMemory};
use pf_catalogue::{PARAMS, Param, param, param_name};
use pf_maincf::Setting;
use pf_params::Known;
use pf_words::ConfMode;
use std::alloc::Global;

// Whether a name is a parameter of the catalogue.
fn is_parameter(name: &[u8]) -> bool
    ensures { result ≡ spec.is_parameter name.now }
{
    param(name).is_some()
}

/// Whether a name is a parameter of the catalogue or is set.
pub(crate) fn is_known(known: &Known, name: &[u8]) -> bool
    ensures { result ≡ spec.is_known known.now name.now }
{
    is_parameter(name) || known.is_set(name)
}

/// Whether a name is one of those that are shown.
pub(crate) fn is_shown(mode: ConfMode, known: &Known, name: &[u8]) -> bool
    ensures { result ≡ spec.is_shown mode known.now name.now }
{
    match mode {
        ConfMode::All => is_known(known, name),
        ConfMode::Set => known.is_set(name),
        ConfMode::Defaults => is_parameter(name),
        ConfMode::Edit => false,
    }
}

// Puts the names of the catalogue in order.
fn add_parameters(alloc: Global, names: &mut Ordered) -> Result<(), NoMemory>
    ensures { OnOk result (names.new ≡ fold with_name names.old spec.parameter_names) }
{
    for place in 0..PARAMS {
        names.add(alloc, param_name(Param::at(place)))?;
    }
    Ok(())
}

// Puts the names of settings in order.
fn add_names(alloc: Global, names: &mut Ordered, settings: &[Setting]) -> Result<(), NoMemory>
    ensures { OnOk result (names.new ≡ fold with_name names.old (map (λ setting. setting.name) settings.now)) }
{
    for setting in settings {
        names.add(alloc, setting.name.as_slice())?;
    }
    Ok(())
}

// The names that are shown, each put in its place.
fn names_of(alloc: Global, mode: ConfMode, known: &Known) -> Result<Ordered, NoMemory>
    ensures { IfOk result (λ names. names ≡ fold with_name [] (spec.names_of mode known.now)) }
{
    let mut names = Ordered::new(alloc);
    match mode {
        ConfMode::All => {
            add_parameters(alloc, &mut names)?;
            add_names(alloc, &mut names, known.settings().as_slice())?;
        }
        ConfMode::Set => add_names(alloc, &mut names, known.settings().as_slice())?,
        ConfMode::Defaults => add_parameters(alloc, &mut names)?,
        ConfMode::Edit => {}
    }
    Ok(names)
}

/// The names that are shown, in byte order, each once.
pub(crate) fn shown_names(
    alloc: Global,
    mode: ConfMode,
    known: &Known,
) -> Result<List<Bytes>, NoMemory>
    ensures order { IfOk result (λ names. IsInOrder (spec.names_of mode known.now) names) }
{
    let names = names_of(alloc, mode, known)?;
    names.into_list(alloc)
}
