//! Detectors that go on from a summary: as accusers and Acks come, and in plays of their own. Each play of a b that is
//! opened at 0 is resumed too.
mod comebacks;
mod scripts;

use crate::playing::{play, play_blank, resume_each};
use comebacks::COMEBACKS;
use lg_detector_testing::DetectorCase;
use lg_detector_testing::Happens::{Ping, Tick};
use lg_detector_testing::Step::{Acks, Changed, Fired, Hears, Next, Takes};
use lg_testing::Due::Suspicion;
use lg_testing::says::Said::{Alive, Failed, Suspect};
use scripts::{DEATH, EXAMPLES, SCRIPTS};

/// In the first play, accusers of c come one after another, and each brings the deadline nearer. In the second, Acks
/// tell of c, and a claim about it may be sent four times among two members.
const ONE_AFTER_ANOTHER: &[DetectorCase] = &[
    (
        "four accusers",
        &[
            Hears(0, &[Alive("a", 0), Alive("d", 0), Alive("e", 0)]),
            Takes(Ping(2000, 1, "z", &[Suspect("c", 0, "d")])),
            Takes(Ping(2000, 2, "z", &[Suspect("c", 0, "d")])),
            Takes(Ping(2000, 3, "z", &[Suspect("c", 0, "e")])),
            Takes(Ping(2000, 4, "z", &[Suspect("c", 0, "a")])),
            Takes(Ping(2000, 5, "z", &[Suspect("c", 0, "z")])),
            Takes(Ping(2000, 6, "z", &[Suspect("c", 0, "b")])),
            Takes(Tick(40_000)),
            Next(7000),
            Takes(Tick(40_000)),
            Fired(Suspicion(7000, "c")),
            Changed(&[Failed("c", 0)]),
        ],
    ),
    (
        "five Acks",
        &[
            Takes(Ping(0, 1, "z", &[Alive("c", 0)])),
            Takes(Ping(0, 2, "b", &[])),
            Acks(2, &[Alive("c", 0)]),
            Takes(Ping(0, 3, "b", &[])),
            Takes(Ping(0, 4, "b", &[])),
            Takes(Ping(0, 5, "b", &[])),
            Acks(5, &[Alive("c", 0)]),
            Takes(Ping(0, 6, "b", &[])),
            Acks(6, &[]),
        ],
    ),
];

#[test]
fn goes_on_as_accusers_and_acks_come(rt: HostRuntime) {
    play(&rt, rt.alloc(), ONE_AFTER_ANOTHER);
}

#[test]
fn goes_on_in_each_example(rt: HostRuntime) {
    play_blank(&rt, rt.alloc(), EXAMPLES);
    resume_each(&rt, rt.alloc(), &None, EXAMPLES);
}

#[test]
fn goes_on_beside_a_death(rt: HostRuntime) {
    play_blank(&rt, rt.alloc(), DEATH);
    resume_each(&rt, rt.alloc(), &None, DEATH);
}

#[test]
fn goes_on_in_each_script(rt: HostRuntime) {
    play_blank(&rt, rt.alloc(), SCRIPTS);
    resume_each(&rt, rt.alloc(), &None, SCRIPTS);
}

#[test]
fn goes_on_in_each_comeback(rt: HostRuntime) {
    play_blank(&rt, rt.alloc(), COMEBACKS);
    resume_each(&rt, rt.alloc(), &None, COMEBACKS);
}
