//! Which timers fire, and when.
ghost use Rattle.std.specs.Prelude.{◌≤◌, length};

use lg_testing::Due::{
    self, Direct, Forget, Gossip, Nothing, RelayEnd, RelayNack, RoundEnd, RoundStart, Suspicion,
};
use lg_testing::{at, timer_of};
use lg_timers::{MAX_STEPS, MAX_TIMERS, Steps, TimerId, Timers};

/// A step of a play, with what it should give.
#[derive(Clone, Copy)]
enum Step {
    /// The timer with the id of this one is cancelled, if it is set.
    Cancel(Due, bool),
    /// The first timer that is due at this moment is taken.
    Take(u64, Due),
    /// The first of all.
    Least(Due),
    /// The first of all is taken, when all are due.
    Fires(Due),
    /// All are cancelled.
    Clear,
    /// All are cancelled, and then this one is set.
    SetAlone(Due),
}

/// These timers. Each replaces an earlier one with its id.
#[tactic(auto, using(crate::proofs::TimerCounts::one_more))]
fn all_set(rows: &[Due]) -> Timers
    requires { length rows.now ≤ MAX_TIMERS }
{
    let mut timers = Timers::new();
    for row in rows {
        if let Some(timer) = timer_of(row) {
            timers.reset(timer);
        }
    }
    timers
}

/// Cancels the timer with the id of this one. Returns whether it was set.
fn cancels(timers: &mut Timers, due: &Due) -> bool {
    match timer_of(due) {
        Some(timer) => timers.cancel(&timer.id),
        None => false,
    }
}

/// Cancels all timers, and then sets this one. Returns whether it is a timer.
fn sets_alone(timers: &mut Timers, due: &Due) -> bool {
    timers.clear();
    match timer_of(due) {
        Some(timer) => {
            timers.set(timer);
            true
        }
        None => false,
    }
}

/// Makes a step. Returns whether it gave what it should.
fn gives_what_is_wanted(timers: &mut Timers, step: &Step) -> bool {
    match step {
        Step::Cancel(due, want) => cancels(timers, due) == *want,
        Step::Take(now, due) => timers.take_due(at(*now)) == timer_of(due),
        Step::Least(due) => timers.least() == timer_of(due),
        Step::Fires(due) => {
            timers.least() == timer_of(due) && timers.take_due(at(9500)) == timer_of(due)
        }
        Step::Clear => {
            timers.clear();
            true
        }
        Step::SetAlone(due) => sets_alone(timers, due),
    }
}

/// A play: its name, the timers that are set before it, and its steps.
type Play = (&'static str, &'static [Due], &'static [Step]);

/// Eleven timers, set in another order, fire by their deadlines, then by their kinds, then by name or number. None
/// fires before its deadline.
const ELEVEN: Play = (
    "the order in which they fire",
    &[
        Suspicion(9000, "ca"),
        RelayNack(9000, 10),
        Gossip(8000),
        RoundStart(8000),
        RelayEnd(9500, 2),
        Direct(9000),
        RoundEnd(9000),
        RelayEnd(9000, 1),
        Suspicion(9000, "c"),
        RelayNack(9000, 2),
        Suspicion(9000, "d"),
    ],
    &[
        Step::Take(7999, Nothing),
        Step::Fires(RoundStart(8000)),
        Step::Fires(Gossip(8000)),
        Step::Fires(RoundEnd(9000)),
        Step::Fires(Suspicion(9000, "c")),
        Step::Fires(Suspicion(9000, "ca")),
        Step::Fires(Suspicion(9000, "d")),
        Step::Fires(Direct(9000)),
        Step::Fires(RelayNack(9000, 2)),
        Step::Fires(RelayNack(9000, 10)),
        Step::Fires(RelayEnd(9000, 1)),
        Step::Fires(RelayEnd(9500, 2)),
        Step::Least(Nothing),
    ],
);

/// At most one timer with an id is set, and it can be cancelled once. A timer with a later deadline replaces the one
/// with its id. After all are cancelled, none is left, and one can be set again.
const FEW: &[Play] = &[
    (
        "one of an id",
        &[RelayNack(500, 7), RelayEnd(600, 7)],
        &[
            Step::Cancel(RelayNack(500, 6), false),
            Step::Cancel(RelayNack(500, 7), true),
            Step::Cancel(RelayNack(500, 7), false),
            Step::Least(RelayEnd(600, 7)),
        ],
    ),
    (
        "another deadline",
        &[RelayEnd(500, 1), RelayEnd(600, 2), RelayEnd(700, 1)],
        &[
            Step::Take(700, RelayEnd(600, 2)),
            Step::Take(700, RelayEnd(700, 1)),
            Step::Least(Nothing),
        ],
    ),
    (
        "none after all are cancelled",
        &[RelayNack(500, 7), RoundStart(600)],
        &[
            Step::Clear,
            Step::Least(Nothing),
            Step::Take(600, Nothing),
            Step::SetAlone(RoundStart(700)),
            Step::Least(RoundStart(700)),
        ],
    ),
];

/// One timer of each kind, all at one deadline and set in the reversed order of their ids, fire in that order.
const EIGHT: Play = (
    "each kind at one deadline",
    &[
        Gossip(9000),
        Forget(9000, "c"),
        RoundStart(9000),
        RelayEnd(9000, 1),
        RelayNack(9000, 1),
        Direct(9000),
        Suspicion(9000, "c"),
        RoundEnd(9000),
    ],
    &[
        Step::Take(8999, Nothing),
        Step::Fires(RoundEnd(9000)),
        Step::Fires(Suspicion(9000, "c")),
        Step::Fires(Direct(9000)),
        Step::Fires(RelayNack(9000, 1)),
        Step::Fires(RelayEnd(9000, 1)),
        Step::Fires(RoundStart(9000)),
        Step::Fires(Forget(9000, "c")),
        Step::Fires(Gossip(9000)),
        Step::Least(Nothing),
    ],
);

/// The timers of a round and that of gossip are cancelled one by one beside others, and replaced by ones with another
/// deadline.
const SINGLE: &[Play] = &[
    (
        "those of a round and of gossip are cancelled",
        &[
            RoundEnd(500),
            Direct(600),
            RoundStart(700),
            RelayEnd(750, 1),
            Gossip(800),
        ],
        &[
            Step::Cancel(RoundEnd(500), true),
            Step::Cancel(RoundEnd(500), false),
            Step::Least(Direct(600)),
            Step::Cancel(RoundStart(700), true),
            Step::Cancel(RoundStart(700), false),
            Step::Least(Direct(600)),
            Step::Cancel(Direct(600), true),
            Step::Cancel(Direct(600), false),
            Step::Least(RelayEnd(750, 1)),
            Step::Cancel(RelayEnd(750, 1), true),
            Step::Least(Gossip(800)),
            Step::Cancel(Gossip(800), true),
            Step::Cancel(Gossip(800), false),
            Step::Least(Nothing),
        ],
    ),
    (
        "those of a round and of gossip get another deadline",
        &[
            RoundEnd(500),
            Direct(600),
            RoundStart(700),
            Gossip(800),
            Suspicion(650, "c"),
            RoundEnd(900),
            Direct(650),
            RoundStart(550),
            Gossip(650),
        ],
        &[
            Step::Take(549, Nothing),
            Step::Fires(RoundStart(550)),
            Step::Fires(Suspicion(650, "c")),
            Step::Fires(Direct(650)),
            Step::Fires(Gossip(650)),
            Step::Fires(RoundEnd(900)),
            Step::Least(Nothing),
        ],
    ),
];

/// Each play.
const PLAYS: &[&[Play]] = &[&[ELEVEN, EIGHT], FEW, SINGLE];

#[test]
fn timers_fire_and_are_cancelled(rt: HostRuntime) {
    for plays in PLAYS {
        for (case, rows, steps) in *plays {
            assert!(rt; rows.len() <= MAX_TIMERS, "{case}");
            let mut timers = all_set(rows);
            for (place, step) in steps.iter().enumerate() {
                let met = gives_what_is_wanted(&mut timers, step);
                assert!(rt; met, "{case}, step {place}");
            }
        }
    }
}

/// Timers, and the numbers of their kinds.
const KINDS: &[(Due, u8)] = &[
    (RoundEnd(0), 1),
    (Suspicion(0, "c"), 2),
    (Direct(0), 3),
    (RelayNack(0, 9), 4),
    (RelayEnd(0, 9), 5),
    (RoundStart(0), 6),
    (Forget(0, "c"), 7),
    (Gossip(0), 8),
];

/// Whether the kind of a timer has this number.
fn has_kind(due: &Due, number: u8) -> bool {
    match timer_of(due) {
        Some(timer) => timer.kind() == number,
        None => false,
    }
}

#[test]
fn the_numbers_of_the_kinds(rt: HostRuntime) {
    for (due, number) in KINDS {
        assert!(rt; has_kind(due, *number), "{number}");
    }
}

/// The end of a relay, at one of 31 moments.
fn end_of(number: u32) -> Due {
    RelayEnd(u64::from(number.wrapping_mul(7) % 31), number)
}

/// Whether, of 400 timers, those fire next that end at this moment and weren't cancelled, in the order of their
/// numbers.
fn fire_next(timers: &mut Timers, deadline: u32) -> bool {
    let mut met = true;
    for number in 0..400u32 {
        if number % 3 != 0 && number * 7 % 31 == deadline {
            met = timers.take_due(at(30)) == timer_of(&end_of(number)) && met;
        }
    }
    met
}

/// As many timers as there is room for. Each third one is cancelled, and the others fire in turn.
#[test]
fn four_hundred_timers(rt: HostRuntime) {
    let mut rows = [Nothing; 400];
    for number in 0..400u32 {
        rows[number as usize] = end_of(number);
    }
    let mut timers = all_set(&rows);
    for third in 0..134u32 {
        let id = TimerId::RelayEnd(third * 3);
        assert!(rt; timers.cancel(&id), "{id:?}");
    }
    for deadline in 0..31 {
        assert!(rt;
            fire_next(&mut timers, deadline),
            "at {deadline}: {timers:?}"
        );
    }
    assert_eq!(rt; timers.least(), None);
}

/// Whether the timer with this number is cancelled, with few comparisons.
fn cancels_soon(timers: &mut Timers, number: u32) -> bool {
    let mut steps = Steps::new();
    let was_set = timers.cancel_counted(&TimerId::RelayEnd(number), &mut steps);
    was_set && steps.count() <= MAX_STEPS
}

/// Whether a timer is due and taken, with few comparisons.
fn takes_soon(timers: &mut Timers) -> bool {
    let mut steps = Steps::new();
    let taken = timers.take_due_counted(at(30), &mut steps);
    taken.is_some() && steps.count() <= MAX_STEPS
}

/// As many timers as there is room for. No call needs more comparisons of them than it may.
#[test]
fn comparisons_are_few(rt: HostRuntime) {
    let mut rows = [Nothing; 400];
    for number in 0..400u32 {
        rows[number as usize] = end_of(399 - number);
    }
    let mut timers = all_set(&rows);
    for third in 0..134u32 {
        assert!(rt; cancels_soon(&mut timers, third * 3), "{third}");
    }
    for taken in 0..266u32 {
        assert!(rt; takes_soon(&mut timers), "{taken}");
    }
    assert_eq!(rt; timers.least(), None);
}
