//! The names of settings with what they stand for.
ghost use Rattle.std.specs.Prelude.{◌≡◌, ℕ, List as Seq, [], OnOk};
ghost use Rattle.pf_base.specs.Meanings.{Source};
ghost use Rattle.pf_base.specs.declared.meaning.Meaning.TheVariants.{Is};
ghost use Rattle.pf_catalogue.specs.Catalogue.{row_at};
ghost use Rattle.pf_expand.specs.Clauses.Meanings.{AreNames};
ghost use Rattle.pf_expand.specs.Names.{with_source};
ghost use Rattle.pf_params.specs.Sources.{default_value_of, source_of};

use pf_base::{Meaning, NoMemory};
use pf_catalogue::{PARAMS, Param};
use pf_expand::Names;
use pf_maincf::Setting;
use std::alloc::Global;

// Lets the name of a parameter stand for its default.
fn set_default_value(alloc: Global, names: &mut Names, p: Param) -> Result<(), NoMemory>
    ensures { OnOk result ((sources : Seq ℕ → Source) → AreNames names.old sources
        → AreNames names.new (with_source sources (row_at p).name (row_at p).default_value)) }
{
    let row = p.row();
    names.set(alloc, row.0, row.2)
}

/// Lets the names of parameters, where none stands for anything, stand for their defaults.
pub(crate) fn set_default_values(alloc: Global, names: &mut Names) -> Result<(), NoMemory>
    ensures { OnOk result (AreNames names.old (λ name. Is []) → AreNames names.new default_value_of) }
{
    let mut left = PARAMS;
    while left > 0 {
        left -= 1;
        set_default_value(alloc, names, Param::at(left))?;
    }
    Ok(())
}

/// Lets names stand for the texts of these settings; the last setting of a name counts, and other names stand for what they
/// stood for.
pub(crate) fn set_names(
    alloc: Global,
    names: &mut Names,
    settings: &[Setting],
) -> Result<(), NoMemory>
    ensures { OnOk result ((default_values : Seq ℕ → Source) → AreNames names.old default_values → AreNames names.new (source_of default_values settings.now)) }
{
    for setting in settings {
        names.set(
            alloc,
            setting.name.as_slice(),
            Meaning::Is(setting.value.as_slice()),
        )?;
    }
    Ok(())
}
