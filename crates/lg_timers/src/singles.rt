//! The timers about no member and no relay, of which at most one of a kind is set: those of a round and that of gossip.
//!
//! Defined in: `specs/Support/Singles.antt`.
//! Tested in: `lg_parts_tests/src/timers.rt`.
ghost use Rattle.std.specs.Prelude.{◌≡◌, ◌<◌, ◌≤◌, None, IfSome};
ghost use Rattle.std.specs.Option.{option_copied};
ghost use Rattle.lg_timers.specs.Meaning.Timers.{kind_number};
ghost use Rattle.lg_timers.specs.Support.Singles.{kind_id, single_timer, timer_of, some_timer};
ghost use Rattle.lg_timers.specs.Support.Singles.{is_single, no_singles, with_deadline, has_deadline};
ghost use Rattle.lg_timers.specs.Support.Singles.{first_of_both, is_before_first, first_single};

use crate::timer::{Timer, TimerId};

/// The kinds of these timers, in the order of their ids.
#[derive(Clone, Copy, Debug)]
pub(crate) enum SingleKind {
    RoundEnd,
    Direct,
    RoundStart,
    Gossip,
}

impl SingleKind {
    /// The id of the timer of this kind.
    fn id(self) -> TimerId
        ensures { result ≡ kind_id self }
    {
        match self {
            SingleKind::RoundEnd => TimerId::RoundEnd,
            SingleKind::Direct => TimerId::Direct,
            SingleKind::RoundStart => TimerId::RoundStart,
            SingleKind::Gossip => TimerId::Gossip,
        }
    }

    /// Its number among the kinds of all timers, 1 to 8.
    fn number(self) -> u8
        ensures { result ≡ kind_number (kind_id self) }
    {
        match self {
            SingleKind::RoundEnd => 1,
            SingleKind::Direct => 3,
            SingleKind::RoundStart => 6,
            SingleKind::Gossip => 8,
        }
    }
}

/// One of these timers. It is smaller than a `Timer`, which has room for a name.
#[derive(Clone, Copy, Debug)]
pub(crate) struct Single {
    deadline: u64,
    kind: SingleKind,
}

impl Single {
    /// The same timer.
    fn timer(&self) -> Timer
        ensures { result ≡ single_timer self.now }
    {
        Timer {
            deadline: self.deadline,
            id: self.kind.id(),
        }
    }

    /// Whether it fires before another timer if both are due. It does if there is no other one.
    fn is_before(&self, other: Option<&Timer>) -> bool
        ensures { result ≡ is_before_first (single_timer self.now) (option_copied other.entry) }
    {
        let Some(timer) = other else {
            return true;
        };
        if self.deadline != timer.deadline {
            return self.deadline < timer.deadline;
        }
        self.kind.number() < timer.kind()
    }
}

/// The one that fires first of a timer and of the timer of a kind, each of which may be missing. The kind comes before
/// that of the first timer in the order of ids.
fn earlier(first: Option<Single>, deadline: Option<u64>, kind: SingleKind) -> Option<Single>
    requires { IfSome first (λ single. kind_number (kind_id kind) < kind_number (kind_id single.kind)) }
    ensures first { let timer = timer_of (kind_id kind) deadline in
        some_timer result ≡ first_of_both (some_timer first) timer }
    ensures kind { IfSome result
        (λ single. kind_number (kind_id kind) ≤ kind_number (kind_id single.kind)) }
{
    let Some(deadline) = deadline else {
        return first;
    };
    match first {
        Some(single) if single.deadline < deadline => first,
        _ => Some(Single { deadline, kind }),
    }
}

/// The one that fires first of one of these timers and of another timer, each of which may be missing. Copies a timer
/// once at most.
#[inline]
pub(crate) fn first_of_both(single: Option<Single>, timer: Option<&Timer>) -> Option<Timer>
    ensures { result ≡ first_of_both (option_copied timer.entry) (some_timer single) }
{
    match single {
        Some(single) if single.is_before(timer) => Some(single.timer()),
        _ => timer.copied(),
    }
}

/// The deadlines of these timers: `None` for one that isn't set.
#[derive(Clone, Copy, Debug)]
pub(crate) struct Singles {
    round_end: Option<u64>,
    direct: Option<u64>,
    round_start: Option<u64>,
    gossip: Option<u64>,
}

impl Singles {
    /// None of them is set.
    pub(crate) fn new() -> Singles
        ensures { result ≡ no_singles }
    {
        Singles {
            round_end: None,
            direct: None,
            round_start: None,
            gossip: None,
        }
    }

    /// Sets a timer, if it is one of these. Returns whether it is.
    pub(crate) fn reset(&mut self, timer: &Timer) -> bool
        ensures single { result ≡ is_single timer.now.id }
        ensures set { let deadline = Some timer.now.deadline in
            self.new ≡ with_deadline timer.now.id deadline self.old }
    {
        let deadline = Some(timer.deadline);
        match timer.id {
            TimerId::RoundEnd => self.round_end = deadline,
            TimerId::Direct => self.direct = deadline,
            TimerId::RoundStart => self.round_start = deadline,
            TimerId::Gossip => self.gossip = deadline,
            TimerId::Suspicion(_)
            | TimerId::RelayNack(_)
            | TimerId::RelayEnd(_)
            | TimerId::Forget(_) => return false,
        }
        true
    }

    /// Cancels the timer with this id, if it is one of these. Returns whether it was set, and `None` if the id is that
    /// of another timer.
    pub(crate) fn cancel(&mut self, id: &TimerId) -> Option<bool>
        ensures was_set { result ≡ has_deadline id.now self.old }
        ensures others { self.new ≡ with_deadline id.now None self.old }
    {
        let deadline = match id {
            TimerId::RoundEnd => self.round_end.take(),
            TimerId::Direct => self.direct.take(),
            TimerId::RoundStart => self.round_start.take(),
            TimerId::Gossip => self.gossip.take(),
            TimerId::Suspicion(_)
            | TimerId::RelayNack(_)
            | TimerId::RelayEnd(_)
            | TimerId::Forget(_) => return None,
        };
        Some(deadline.is_some())
    }

    /// The one of these timers that fires first, if any is set.
    pub(crate) fn first(&self) -> Option<Single>
        ensures { some_timer result ≡ first_single self.now }
    {
        // Of two with one deadline the one that is looked at later has the lesser id.
        let gossip = earlier(None, self.gossip, SingleKind::Gossip);
        let round_start = earlier(gossip, self.round_start, SingleKind::RoundStart);
        let direct = earlier(round_start, self.direct, SingleKind::Direct);
        earlier(direct, self.round_end, SingleKind::RoundEnd)
    }
}
