//! One timer: its id and its deadline.
//!
//! Defined in: `specs/Meaning/Timers.antt`.
//! Tested in: `lg_parts_tests/src/timers.rt`.
use lg_rules::Name;
use std::cmp::Ordering;

/// What a timer is for: its kind, and the member or the relay that it is about. At most one timer with an id is set.
/// Ids are ordered by their kinds in the order in which these stand here, and then by the bytes of the name or by the
/// number (this project's choice).
#[derive(Clone, Copy, Debug, Default, PartialEq, Eq, PartialOrd, Ord)]
pub enum TimerId {
    /// A round of probing ends (SWIM, section 3.1).
    #[default]
    RoundEnd,
    /// A suspicion runs out, and its member is taken as failed (SWIM, section 4.2).
    Suspicion(Name),
    /// The target of a probe didn't ack in time, and helpers are asked for an indirect probe (SWIM, section 3.1).
    Direct,
    /// The relay with this number sends its asker a nack, since its target hasn't acked (Lifeguard, local health
    /// aware probe).
    RelayNack(u32),
    /// The relay with this number is closed (this project's choice).
    RelayEnd(u32),
    /// A round of probing starts (SWIM, section 3.1).
    RoundStart,
    /// This member, which failed or left, is forgotten (this project's choice).
    Forget(Name),
    /// News is gossiped (SWIM, section 4.1, by packets of its own; this project's choice).
    Gossip,
}

/// What is to happen, and when. Timers fire in the order of their deadlines, and at one deadline in the order of
/// their ids.
#[derive(Clone, Copy, Debug, Default, PartialEq, Eq, PartialOrd, Ord)]
pub struct Timer {
    /// The moment from which on it may fire, in milliseconds.
    pub deadline: u64,
    /// What it is for.
    pub id: TimerId,
}

impl TimerId {
    ghost use Rattle.std.specs.Prelude.{◌≡◌};
    ghost use Rattle.lg_rules.specs.Meaning.Rows.{name_cmp};
    ghost use Rattle.lg_timers.specs.Meaning.Timers.{kind_number, id_key};

    /// How it compares with another one in the order of ids.
    pub(crate) fn compare(&self, other: &TimerId) -> Ordering
        ensures { result ≡ name_cmp (id_key self.now) (id_key other.now) }
    {
        self.cmp(other)
    }

    /// Its kind as a number, 1 to 8 in the order in which the kinds stand above.
    fn kind(&self) -> u8
        ensures { result ≡ kind_number self.now }
    {
        match self {
            TimerId::RoundEnd => 1,
            TimerId::Suspicion(_) => 2,
            TimerId::Direct => 3,
            TimerId::RelayNack(_) => 4,
            TimerId::RelayEnd(_) => 5,
            TimerId::RoundStart => 6,
            TimerId::Forget(_) => 7,
            TimerId::Gossip => 8,
        }
    }
}

impl Timer {
    ghost use Rattle.std.specs.Prelude.{◌≡◌};
    ghost use Rattle.std.specs.Ordering.{is_lt};
    ghost use Rattle.lg_timers.specs.Meaning.Timers.{kind_number, timer_cmp};

    /// Its kind as a number: the end of a round 1, a suspicion 2, asking helpers 3, the nack of a relay 4, the end of
    /// a relay 5, the start of a round 6, forgetting a member 7, the gossip 8.
    pub fn kind(&self) -> u8
        ensures { result ≡ kind_number self.now.id }
    {
        self.id.kind()
    }

    /// Whether it fires before another one if both are due.
    pub(crate) fn is_before(&self, other: &Timer) -> bool
        ensures { result ≡ is_lt (timer_cmp self.now other.now) }
    {
        self.cmp(other).is_lt()
    }
}
