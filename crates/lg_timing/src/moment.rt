//! Moments: times in whole milliseconds.
//!
//! Defined in: this file.
//! Tested in: `lg_parts_tests/src/timing.rt`.
ghost use Rattle.std.specs.Prelude.{◌≡◌, ◌≤◌, max};
ghost use Rattle.std.specs.Option.{SomeIff};

use std::alloc::AllocError;
use std::cmp::Ordering;
use std::marker::Model;

/// The last moment: 1,000,000,000,000,000 milliseconds (this project's choice).
pub const MAX_MOMENT: u64 = 1_000_000_000_000_000;

/// A moment: a time in whole milliseconds, 0 to [`MAX_MOMENT`]. The caller that hands it in decides from when it is
/// counted.
///
/// A contract sees it as its number of milliseconds. The default is 0.
#[derive(Debug)]
pub struct Moment {
    milliseconds: u64,
}

impl Model for Moment {
    ghost use Rattle.std.specs.Prelude.{ℕ, ◌≤◌};
    ghost use Rattle.lg_timing.specs.declared.moment.TheConstants.{MAX_MOMENT};

    ghost Value = { ℕ };

    ghost view = { λ m. m.milliseconds };

    ghost invariant = { λ m. m.milliseconds ≤ MAX_MOMENT };

    ghost inverse = { λ n. record { milliseconds = n } };
}

impl Clone for Moment {
    ghost use Rattle.std.specs.Prelude.{◌≡◌, ⊤};

    ghost is_clone = { λ it other. other ≡ it };

    ghost is_infallible = { λ _. ⊤ };

    fn clone(&self) -> Result<Self, AllocError> {
        Ok(*self)
    }
}

impl Copy for Moment {}

impl Default for Moment {
    ghost use Rattle.std.specs.Prelude.{◌≡◌};

    ghost is_default = { λ m. m ≡ 0 };

    fn default() -> Self {
        Moment { milliseconds: 0 }
    }
}

impl PartialEq for Moment {
    ghost use Rattle.std.specs.Prelude.{nat_eq};
    ghost use Rattle.std.proofs.Common.{rules};
    ghost use Rattle.std.specs.Cmp.Rules.{comparing};

    ghost eq = { nat_eq };

    ghost laws = { Prim.search (comparing, rules) };

    fn eq(&self, other: &Moment) -> bool {
        self.milliseconds == other.milliseconds
    }
}

impl Eq for Moment {
    ghost use Rattle.std.proofs.Common.{rules};
    ghost use Rattle.std.specs.Cmp.Rules.{comparing};

    ghost laws = { Prim.search (comparing, rules) };
}

impl PartialOrd for Moment {
    ghost use Rattle.std.proofs.Common.{rules};
    ghost use Rattle.std.specs.Cmp.{partial_order_from_own_ties};
    ghost use Rattle.std.specs.Cmp.Rules.{comparing};
    ghost use Rattle.std.specs.Ordering.{nat_cmp, as_partial_cmp};

    ghost partial_cmp = { as_partial_cmp nat_cmp };

    ghost laws = { partial_order_from_own_ties (Prim.search (comparing, rules)) (Prim.search (comparing, rules)) };

    fn partial_cmp(&self, other: &Moment) -> Option<Ordering> {
        Some(self.cmp(other))
    }
}

impl Ord for Moment {
    ghost use Rattle.std.proofs.Common.{rules};
    ghost use Rattle.std.specs.Cmp.Rules.{comparing};
    ghost use Rattle.std.specs.Ordering.{nat_cmp};

    ghost cmp = { nat_cmp };

    ghost total = { Prim.search (comparing, rules) };

    ghost matches_partial_cmp = { Prim.search (comparing, rules) };

    ghost matches_eq = { Prim.search (comparing, rules) };

    fn cmp(&self, other: &Moment) -> Ordering {
        self.milliseconds.cmp(&other.milliseconds)
    }
}

impl Moment {
    /// The moment with this number of milliseconds, or `None` if that is above [`MAX_MOMENT`].
    pub fn new(milliseconds: u64) -> Option<Moment>
        ensures { SomeIff result (milliseconds ≤ MAX_MOMENT) milliseconds }
    {
        if milliseconds <= MAX_MOMENT {
            Some(Moment { milliseconds })
        } else {
            None
        }
    }

    /// The number of milliseconds, 0 to [`MAX_MOMENT`].
    pub fn milliseconds(&self) -> u64
        ensures milliseconds { result ≡ self.now }
        ensures within { self.now ≤ MAX_MOMENT }
    {
        self.milliseconds
    }

    /// The later of two moments.
    pub fn later(self, other: Moment) -> Moment
        ensures { result ≡ max self other }
    {
        Moment {
            milliseconds: self.milliseconds.max(other.milliseconds),
        }
    }
}
