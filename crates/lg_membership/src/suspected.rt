//! A member that is suspected.
//!
//! Defined in: `specs/Meaning/Suspicions.antt`.
//! Tested in: `lg_parts_tests/src/membership/claims.rt`.
ghost use Rattle.std.specs.Prelude.{◌≡◌};

use lg_rules::{Keyed, Name};
use lg_suspicion::Suspicion;

/// A member that is suspected, with its suspicion (SWIM, section 4.2).
#[derive(Debug, Default, Drop)]
pub struct Suspected {
    /// The member.
    pub name: Name,
    /// Since when it is suspected, and by whom.
    pub suspicion: Suspicion,
}

impl Suspected {
    /// Copies the suspected member. Allocates no memory.
    pub(crate) fn copy(&self) -> Suspected
        ensures { result ≡ self.now }
    {
        Suspected {
            name: self.name,
            suspicion: self.suspicion.copy(),
        }
    }
}

/// Rows of suspicions are in the order of the names of the suspected members.
impl Keyed for Suspected {
    ghost use Rattle.lg_membership.specs.Support.Rows.{kept_name};

    ghost key_of = { kept_name };

    fn key(&self) -> Name {
        self.name
    }
}
