//! Where a claim comes from.
//!
//! Defined in: this file.
//! Tested in: `lg_parts_tests/src/membership/playing.rt`.

/// Where a claim comes from.
#[derive(Clone, Copy, Debug, PartialEq, Eq)]
pub enum Origin {
    /// The opening, which says that each seed is alive. Such a claim isn't passed on (this project's choice).
    Seed,
    /// The group: a packet of another member, or a timer of this member.
    Group,
}
