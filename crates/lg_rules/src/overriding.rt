//! Which claim overrides which.
//!
//! Defined in: `specs/Meaning/Beats.antt`.
//! Tested in: `lg_parts_tests/src/rules.rt`.
ghost use Rattle.std.specs.Prelude.{◌≡◌};
ghost use Rattle.lg_rules.specs.Meaning.Beats.{beats_of, is_later};

use crate::claim::{Claim, Record, Status};

/// Whether a status is later than another, in the order Alive, Suspect, Failed, Left.
fn is_later(heard: Status, standing: Status) -> bool
    ensures { result ≡ is_later heard standing }
{
    matches!(
        (heard, standing),
        (
            Status::Suspect(_) | Status::Failed | Status::Left,
            Status::Alive
        ) | (Status::Failed | Status::Left, Status::Suspect(_))
            | (Status::Left, Status::Failed)
    )
}

/// Whether a claim overrides the current record of its member. Both have to be about one member.
///
/// | Claim | overrides |
/// |---|---|
/// | Alive(i) | Alive(j), Suspect(j), Failed(j) and Left(j) if i > j |
/// | Suspect(i) | Suspect(j), Failed(j) and Left(j) if i > j, and Alive(j) if i >= j |
/// | Failed(i) | Failed(j) and Left(j) if i > j, and Alive(j) and Suspect(j) if i >= j |
/// | Left(i) | Left(j) if i > j, and Alive(j), Suspect(j) and Failed(j) if i >= j |
///
/// So a claim overrides if its incarnation is greater, or if the two are equal and its status is later in the order
/// Alive, Suspect, Failed, Left. Nothing else overrides. Between Alive and Suspect this is the rule of SWIM (section
/// 4.2). SWIM's Confirm is called Failed here. Unlike Confirm it compares by its incarnation, so that a member that was
/// taken to have failed can come back. Left is this project's choice too.
pub fn beats(claim: &Claim, current: &Record) -> bool
    ensures { result ≡ beats_of claim.now current.now }
{
    let heard = claim.incarnation.number();
    let standing = current.incarnation.number();
    heard > standing || (heard == standing && is_later(claim.status, current.status))
}
