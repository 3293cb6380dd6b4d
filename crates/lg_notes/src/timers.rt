//! Which timer an entry fired.
//!
//! Defined in: `specs/Meaning/Timers.antt`.
//! Tested in: `lg_explain_tests/src/explaining.rt`.
ghost use Rattle.std.specs.Prelude.{◌≡◌};
ghost use Rattle.lg_notes.specs.Meaning.Timers.{ends_round, has_fired, asks_helpers, is_suspicion_of, starts_round};

use lg_detector::{Reply, Timer, TimerId};
use lg_rules::Name;

/// Whether a round of the node started with an entry.
pub(crate) fn starts_round(reply: &Reply) -> bool
    ensures { result ≡ starts_round reply.now }
{
    match &reply.fired {
        Some(timer) => matches!(timer.id, TimerId::RoundStart),
        None => false,
    }
}

/// Whether a round of the node ended with the entry of this reply: the timer of its end fired. Allocates nothing.
pub fn ends_round(reply: &Reply) -> bool
    ensures { result ≡ ends_round reply.now }
{
    match &reply.fired {
        Some(timer) => matches!(timer.id, TimerId::RoundEnd),
        None => false,
    }
}

/// Whether a timer is the one that asks helpers.
pub(crate) fn asks_helpers(timer: &Timer) -> bool
    ensures { result ≡ asks_helpers timer.now.id }
{
    matches!(timer.id, TimerId::Direct)
}

/// Whether the timer of the member's suspicion fired.
pub(crate) fn is_time_over(name: &Name, fired: &Option<Timer>) -> bool
    ensures { result ≡ has_fired (is_suspicion_of name.now) fired.now }
{
    let Some(timer) = fired else {
        return false;
    };
    match &timer.id {
        TimerId::Suspicion(member) => *name == *member,
        _ => false,
    }
}
