//! Parameters and their names.
ghost use Rattle.std.specs.Prelude.{◌≡◌};
ghost use Rattle.pf_catalogue.specs.Catalogue as spec;

use crate::catalogue::place_of;
use crate::params::Param;

/// The parameter of a name (postconf(5)); None where the table has none.
pub fn param(name: &[u8]) -> Option<Param>
    ensures { result ≡ spec.place_of name.now }
{
    match place_of(name) {
        None => None,
        Some(place) => Some(Param {
            place: place as u16,
        }),
    }
}

/// The name of a parameter.
pub fn param_name(p: Param) -> &'static [u8]
    ensures { result.now ≡ (spec.row_at p).name }
{
    p.row().0
}
