//! Timers as plain data.
use crate::says::{Member, named};
use lg_timers::{Timer, TimerId};

/// A timer, by its deadline.
#[derive(Clone, Copy)]
pub enum Due {
    /// No timer.
    Nothing,
    /// The next round starts.
    RoundStart(u64),
    /// The round ends.
    RoundEnd(u64),
    /// Helpers are asked.
    Direct(u64),
    /// The suspicion of a member runs out.
    Suspicion(u64, Member),
    /// A relay, by its number, sends its Nack.
    RelayNack(u64, u32),
    /// A relay, by its number, ends.
    RelayEnd(u64, u32),
    /// A member is forgotten.
    Forget(u64, Member),
    /// News is gossiped.
    Gossip(u64),
}

/// The timer that is due.
pub fn timer_of(due: &Due) -> Option<Timer> {
    let (deadline, id) = match due {
        Due::Nothing => return None,
        Due::RoundStart(deadline) => (*deadline, TimerId::RoundStart),
        Due::RoundEnd(deadline) => (*deadline, TimerId::RoundEnd),
        Due::Direct(deadline) => (*deadline, TimerId::Direct),
        Due::Suspicion(deadline, member) => (*deadline, TimerId::Suspicion(named(member))),
        Due::RelayNack(deadline, number) => (*deadline, TimerId::RelayNack(*number)),
        Due::RelayEnd(deadline, number) => (*deadline, TimerId::RelayEnd(*number)),
        Due::Forget(deadline, member) => (*deadline, TimerId::Forget(named(member))),
        Due::Gossip(deadline) => (*deadline, TimerId::Gossip),
    };
    Some(Timer { deadline, id })
}
