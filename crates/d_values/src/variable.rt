//! Variables.

ghost use Rattle.std.specs.Prelude.{◌≡◌};
ghost use Rattle.std.proofs.Common.{ap};
ghost use Rattle.d_values.specs.Vocabulary.{partial_equiv_from_equiv, u32};
ghost use Rattle.d_values.specs.Variables.{variable_number, same_var, same_var_decides};
ghost use Rattle.d_values.specs.Variables.{same_var_equiv};

use crate::value::Kind;
use std::hash::{Hash, Hasher};

/// A variable: its slot among the script's variables, and its kind. Variables of one slot and of
/// different kinds are different.
#[derive(Clone, Copy, Debug)]
pub struct Var {
    /// Its index.
    pub slot: u16,
    /// What it holds.
    pub kind: Kind,
}

impl Var {
    // A number of its own.
    fn code(self) -> u32
        ensures { result ≡ variable_number self }
    {
        match self.kind {
            Kind::Number => 2 * u32::from(self.slot),
            Kind::Text => 2 * u32::from(self.slot) + 1,
        }
    }
}

impl PartialEq for Var {
    ghost eq = { same_var };

    ghost laws = { partial_equiv_from_equiv same_var_equiv };

    fn eq(&self, other: &Var) -> bool {
        self.slot == other.slot && self.kind == other.kind
    }
}

impl Eq for Var {
    ghost laws = { same_var_equiv };
}

impl Hash for Var {
    ghost hash_input = { λ v. u32 (variable_number v) };

    ghost respects_eq = { λ x y same.
        ap (λ v. u32 (variable_number v)) ((same_var_decides x y).0 same) };

    fn hash<H: Hasher>(&self, state: &mut H) {
        self.code().hash(state);
    }
}
