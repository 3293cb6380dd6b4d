//! The opening, and what isn't accepted.
use crate::playing::play_blank;
use lg_detector_testing::DetectorCase;
use lg_detector_testing::Happens::{Ask, Opens, Ping};
use lg_detector_testing::Setting::{Interval, Seed};
use lg_detector_testing::Step::{
    Acks, AnswersNothing, Changed, Deadline, Events, Known, Members, Next, Ousted, Refuses, Sends,
    Table, Takes,
};
use lg_testing::says::Said::{Alive, AliveAt};

/// Nothing is accepted before the opening, and there is one opening.
const TWO_OPENINGS: DetectorCase = (
    "two openings",
    &[
        Deadline(None),
        Events(0),
        Members(0),
        Known("b", None),
        Refuses(Ask(0, "b")),
        Refuses(Ping(0, 7, "b", &[])),
        Takes(Opens(5000, &[])),
        Sends(0),
        Changed(&[]),
        AnswersNothing,
        Ousted(false),
        Next(5000),
        Deadline(Some(5000)),
        Refuses(Opens(6000, &[])),
        Events(1),
        Deadline(Some(5000)),
    ],
);

/// A configuration that isn't allowed opens nothing.
const BAD_CONFIGURATIONS: DetectorCase = (
    "a short interval, and a seed twice",
    &[
        Refuses(Opens(0, &[Interval(5)])),
        Events(0),
        Deadline(None),
        Members(0),
        Refuses(Opens(0, &[Seed("c", 7003), Seed("c", 7004)])),
        Events(0),
        Deadline(None),
        Members(0),
        Takes(Opens(0, &[])),
        Table(&[Alive("b", 0)]),
    ],
);

/// An opening changes no record. Seeds aren't gossiped. A claim is gossiped if it overrides a seed's record, and
/// isn't if it doesn't.
const TWO_SEEDS: DetectorCase = (
    "two seeds",
    &[
        Takes(Opens(0, &[Seed("d", 7004), Seed("a", 7001)])),
        Changed(&[]),
        Table(&[AliveAt("a", 7001), Alive("b", 0), AliveAt("d", 7004)]),
        Known("d", Some(AliveAt("d", 7004))),
        Takes(Ping(0, 7, "b", &[Alive("a", 0)])),
        Acks(7, &[]),
        Changed(&[]),
        Takes(Ping(0, 8, "b", &[Alive("a", 1)])),
        Acks(8, &[Alive("a", 1)]),
        Changed(&[Alive("a", 1)]),
    ],
);

/// Each case of an opening.
const PLAYED: &[&[DetectorCase]] = &[&[TWO_OPENINGS], &[BAD_CONFIGURATIONS], &[TWO_SEEDS]];

#[test]
fn opens(rt: HostRuntime) {
    for cases in PLAYED {
        play_blank(&rt, rt.alloc(), cases);
    }
}
