//! A law of what the entries of batches say of a clock. The call does nothing.
//!
//! Defined in: `specs/Meaning/Standstills.antt`.
//! Tested in: nothing that runs, since it is a law.
ghost use Rattle.std.specs.Prelude.{◌≡◌, List, sum};
ghost use Rattle.lg_batches.specs.Meaning.Standstills.{NeverTakesBack, Taking, last_left_out, never_taken, standstills};

/// What the first entries of batches say of a clock is in all what it had left out when entries were taken last, if it
/// never takes back what it left out. So nothing is lost by a batch without entries.
pub fn standstills_add_up()
    ensures { (takings : List Taking) → NeverTakesBack 0 takings
        → sum (standstills never_taken takings) ≡ last_left_out 0 takings }
{}
