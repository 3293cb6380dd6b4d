//! Incarnations.
//!
//! Defined in: this file.
//! Tested in: `lg_parts_tests/src/rules.rt`.
ghost use Rattle.std.specs.Prelude.{◌≡◌, ◌≤◌, ◌<◌, ◌+◌};
ghost use Rattle.std.specs.Option.{SomeIff};

use std::alloc::AllocError;
use std::marker::Model;

/// The greatest incarnation: 1,000,000,000 (this project's choice).
pub const MAX_INCARNATION: u32 = 1_000_000_000;

/// The incarnation of a member, 0 to 1,000,000,000. Only the member itself raises it, so that it can refute
/// suspicions (SWIM, section 4.2).
///
/// A contract sees it as its number.
#[derive(Debug)]
pub struct Incarnation {
    number: u32,
}

impl Model for Incarnation {
    ghost use Rattle.std.specs.Prelude.{ℕ, ◌≤◌};
    ghost use Rattle.lg_rules.specs.declared.incarnation.TheConstants.{MAX_INCARNATION};

    ghost Value = { ℕ };

    ghost view = { λ i. i.number };

    ghost invariant = { λ i. i.number ≤ MAX_INCARNATION };

    ghost inverse = { λ n. record { number = n } };
}

impl Clone for Incarnation {
    ghost use Rattle.std.specs.Prelude.{◌≡◌, ⊤};

    ghost is_clone = { λ x y. y ≡ x };

    ghost is_infallible = { λ _. ⊤ };

    fn clone(&self) -> Result<Self, AllocError> {
        Ok(*self)
    }
}

impl Copy for Incarnation {}

impl Default for Incarnation {
    ghost use Rattle.std.specs.Prelude.{◌≡◌};

    ghost is_default = { λ i. i ≡ 0 };

    fn default() -> Self {
        Incarnation { number: 0 }
    }
}

impl PartialEq for Incarnation {
    ghost use Rattle.std.specs.Prelude.{nat_eq};
    ghost use Rattle.std.proofs.Common.{rules};
    ghost use Rattle.std.specs.Cmp.Rules.{comparing};

    ghost eq = { nat_eq };

    ghost laws = { Prim.search (comparing, rules) };

    fn eq(&self, other: &Incarnation) -> bool {
        self.number == other.number
    }
}

impl Eq for Incarnation {
    ghost use Rattle.std.proofs.Common.{rules};
    ghost use Rattle.std.specs.Cmp.Rules.{comparing};

    ghost laws = { Prim.search (comparing, rules) };
}

impl Incarnation {
    /// The incarnation with this number, or `None` if the number is above 1,000,000,000.
    pub fn new(number: u32) -> Option<Incarnation>
        ensures { SomeIff result (number ≤ MAX_INCARNATION) number }
    {
        if number <= MAX_INCARNATION {
            Some(Incarnation { number })
        } else {
            None
        }
    }

    /// The next incarnation, whose number is one more, or `None` if this one is 1,000,000,000.
    pub fn successor(&self) -> Option<Incarnation>
        ensures { SomeIff result (self.now < MAX_INCARNATION) (self.now + 1) }
    {
        Incarnation::new(self.number + 1)
    }

    /// The number, 0 to 1,000,000,000.
    pub fn number(&self) -> u32
        ensures number { result ≡ self.now }
        ensures within { self.now ≤ MAX_INCARNATION }
    {
        self.number
    }
}
