//! What is asked for of a recording.
//!
//! Defined in: `specs/Meaning/Accounts.antt`.
//! Tested in: `lg_explain_tests/src/explaining.rt`.

use lg_rules::Name;
use lg_timing::Moment;

/// What is asked for of a recording: the accounts of a member.
#[derive(Clone, Copy, Debug)]
pub struct MemberQuestion {
    /// The name of the member.
    pub name: Name,
    /// An account is told if its first verdict came at this moment, in milliseconds, or before. No account is too late
    /// for [`MAX_MOMENT`](lg_timing::MAX_MOMENT).
    pub at: Moment,
    /// Whether each of these accounts is told. Else only the last one is.
    pub all: bool,
}
