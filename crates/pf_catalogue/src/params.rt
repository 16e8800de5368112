//! Parameters by their places.
ghost use Rattle.std.specs.Prelude.{◌≡◌, ◌<◌};
ghost use Rattle.pf_catalogue.specs.Catalogue as spec;
ghost use Rattle.pf_catalogue.specs.Clauses.RowsMeant.{row_meant};
ghost use Rattle.pf_catalogue.specs.declared.count.TheConstants.{PARAMS};

use crate::catalogue::{Row, row_at};
use crate::count::PARAMS;
use crate::kind::Kind;
use std::marker::Model;

/// A parameter. A contract sees its place in the table, from 0.
#[derive(Clone, Copy, Debug, PartialEq, Eq)]
pub struct Param {
    pub(crate) place: u16,
}

impl Model for Param {
    ghost use Rattle.std.specs.Prelude.{ℕ, ◌<◌};
    ghost use Rattle.pf_catalogue.specs.declared.count.TheConstants.{PARAMS};

    ghost Value = { ℕ };

    ghost view = { λ p. p.place };

    ghost invariant = { λ p. p.place < PARAMS };

    ghost inverse = { λ n. record { place = n } };
}

impl Param {
    /// The parameter at a place of the table, from 0.
    pub fn at(place: u16) -> Param
        requires { place < PARAMS }
        ensures { result ≡ place }
    {
        Param { place }
    }

    /// The place of a parameter in the table, from 0.
    pub fn place(self) -> u16
        ensures place { result ≡ self }
        ensures within { result < PARAMS }
    {
        self.place
    }

    /// What the values of a parameter are.
    pub fn kind(self) -> Kind
        ensures { result ≡ (spec.row_at self).kind }
    {
        row_at(self.place as usize).1
    }

    /// A parameter's row of the table.
    pub fn row(self) -> Row<'static>
        ensures { row_meant result ≡ spec.row_at self }
    {
        *row_at(self.place as usize)
    }
}
