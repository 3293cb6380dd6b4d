//! Whom rounds probe, through whom, and with which packets. b is opened at 0.
use crate::playing::{play, play_blank};
use lg_detector_testing::DetectorCase;
use lg_detector_testing::Happens::{Ack, First, Health, Opens, Ping, TickBy};
use lg_detector_testing::Setting::Indirect;
use lg_detector_testing::Step::{
    self, AnswersHealth, Chose, Fired, Next, Pings, Sends, Sent, Takes, Ticks,
};
use lg_testing::Due::{Direct, RoundEnd, RoundStart, Suspicion};
use lg_testing::bodies::Says::{self, Request};
use lg_testing::says::Said::{self, Alive, AliveAt, Failed, FailedAt, Suspect, SuspectAt};

/// c, d, e and f are known, each at a port of its own.
pub(super) const FOUR: &[Said] = &[
    AliveAt("c", 7003),
    AliveAt("d", 7004),
    AliveAt("e", 7005),
    AliveAt("f", 7006),
];

/// c is probed, and d, e and f are asked to help.
pub(super) const ASKED: &[Step<'static>] = &[
    Takes(Ping(0, 1, "z", FOUR)),
    Takes(First(0)),
    Takes(First(500)),
    Fired(Direct(500)),
    Sends(3),
];

/// c, which d suspects, is probed. Nobody can help. Once c has failed, nobody is left to be chosen.
const A_SUSPECT: &[DetectorCase] = &[
    (
        "c is suspected at 2000",
        &[
            Takes(Ping(2000, 1, "b", &[Suspect("c", 0, "d")])),
            Takes(First(2000)),
            Fired(RoundStart(0)),
            Chose(Some("c")),
            Sends(1),
            Sent(0, 7000, Says::Ping(1, "c"), &[Suspect("c", 0, "d")]),
            Next(2500),
            Ticks(7000, Direct(2500), &[], 3000),
            Ticks(7000, RoundEnd(3000), &[], 7000),
            Takes(Health(7000)),
            AnswersHealth(1, 0, 2),
            Ticks(7000, Suspicion(7000, "c"), &[Failed("c", 0)], 7000),
            Ticks(7000, RoundStart(7000), &[], 9000),
            Chose(None),
        ],
    ),
    (
        "c is suspected at 4000",
        &[
            Takes(Ping(4000, 1, "b", &[Suspect("c", 0, "d")])),
            Takes(First(8000)),
            Fired(RoundStart(0)),
            Next(8500),
            Ticks(8500, Direct(8500), &[], 9000),
            Ticks(9500, RoundEnd(9000), &[], 9000),
            Ticks(9500, Suspicion(9000, "c"), &[Failed("c", 0)], 9500),
            Ticks(9500, RoundStart(9500), &[], 11_500),
        ],
    ),
];

/// Each word picks one of the helpers that are left, in the order of names: f, d and then e. Of two others, the
/// suspected d helps, and the failed e doesn't.
const HELPERS: &[DetectorCase] = &[
    (
        "three helpers",
        &[
            Takes(Ping(0, 1, "z", FOUR)),
            Takes(First(0)),
            Takes(TickBy(500, [5, 0, 9, 7, 0, 0, 0, 0])),
            Sends(3),
            Sent(0, 7006, Request(1, "c", 7003), FOUR),
            Sent(1, 7004, Request(1, "c", 7003), FOUR),
            Sent(2, 7005, Request(1, "c", 7003), FOUR),
            Next(1000),
        ],
    ),
    (
        "one helper",
        &[
            Takes(Ping(
                0,
                1,
                "z",
                &[AliveAt("c", 7000), AliveAt("d", 7004), AliveAt("e", 7005)],
            )),
            Takes(Ping(
                0,
                2,
                "z",
                &[SuspectAt("d", 0, "a", 7004), FailedAt("e", 0, 7005)],
            )),
            Takes(First(0)),
            Pings(1, "c"),
            Takes(First(500)),
            Sends(1),
            Sent(
                0,
                7004,
                Request(1, "c", 7000),
                &[
                    AliveAt("c", 7000),
                    SuspectAt("d", 0, "a", 7004),
                    FailedAt("e", 0, 7005),
                ],
            ),
        ],
    ),
];

/// In the first case b is configured to ask no helpers. In the second, a round counts from the greatest moment that
/// was handed in.
const OPENED_OTHERWISE: &[DetectorCase] = &[
    (
        "no helper is asked",
        &[
            Takes(Opens(0, &[Indirect(0)])),
            Takes(Ping(0, 1, "z", FOUR)),
            Takes(First(0)),
            Takes(First(500)),
            Fired(Direct(500)),
            Sends(0),
            Takes(First(1000)),
            Fired(RoundEnd(1000)),
            Takes(Health(1000)),
            AnswersHealth(1, 0, 5),
        ],
    ),
    (
        "the greatest moment",
        &[
            Takes(Opens(5000, &[])),
            Takes(Ping(5000, 1, "z", &[Alive("c", 0)])),
            Takes(First(4000)),
            Next(5500),
        ],
    ),
];

#[test]
fn asks_no_helpers_and_counts_from_its_start(rt: HostRuntime) {
    play_blank(&rt, rt.alloc(), OPENED_OTHERWISE);
}

/// The claims that c, d and others are alive.
const C: Said = Alive("c", 0);

const D: Said = Alive("d", 0);

const E: Said = Alive("e", 0);

const F: Said = Alive("f", 0);

const G: Said = Alive("g", 0);

const H: Said = Alive("h", 0);

const I: Said = Alive("i", 0);

const J: Said = Alive("j", 0);

/// Each packet of a reply takes the claims that were sent least often, counting the packets before it too. A Ping
/// goes to the address of the record.
const FILLED: &[DetectorCase] = &[
    (
        "eight claims",
        &[
            Takes(Ping(0, 1, "z", &[C, D, E, F, G, H])),
            Takes(Ping(0, 1, "z", &[I, J])),
            Takes(First(0)),
            Sent(0, 7000, Says::Ping(1, "c"), &[C, D, E, F, G, H]),
            Takes(First(500)),
            Sends(3),
            Sent(0, 7000, Request(1, "c", 7000), &[I, J, C, D, E, F]),
            Sent(1, 7000, Request(1, "c", 7000), &[G, H, I, J, C, D]),
            Sent(2, 7000, Request(1, "c", 7000), &[E, F, G, H, I, J]),
        ],
    ),
    (
        "at 7003",
        &[
            Takes(Ping(0, 1, "z", &[AliveAt("c", 7003)])),
            Takes(First(0)),
            Sent(0, 7003, Says::Ping(1, "c"), &[AliveAt("c", 7003)]),
        ],
    ),
];

/// A member that joins in the middle of a cycle is a candidate at once, and one that failed is none. Then nobody is
/// left, so the next cycle begins.
const IN_TURN: DetectorCase = (
    "c, e and then d",
    &[
        Takes(Ping(0, 1, "z", &[Alive("c", 0), Alive("e", 0)])),
        Takes(First(0)),
        Pings(1, "c"),
        Takes(Ack(10, "c", 1)),
        Takes(First(1000)),
        Takes(Ping(1000, 2, "z", &[Alive("d", 0)])),
        Takes(First(1000)),
        Pings(2, "d"),
        Takes(Ack(1010, "d", 2)),
        Takes(First(2000)),
        Takes(Ping(2000, 3, "z", &[Failed("e", 0)])),
        Takes(First(2000)),
        Pings(3, "c"),
    ],
);

/// A member that was chosen, failed and came back stays chosen in its cycle. One that comes back when nobody was left
/// is chosen.
const COMES_BACK: &[DetectorCase] = &[
    (
        "c, d, and then c",
        &[
            Takes(Ping(0, 1, "z", &[Alive("c", 0), Alive("d", 0)])),
            Takes(First(0)),
            Pings(1, "c"),
            Takes(Ack(10, "c", 1)),
            Takes(Ping(20, 2, "z", &[Failed("c", 0)])),
            Takes(Ping(30, 3, "z", &[Alive("c", 1)])),
            Takes(First(1000)),
            Takes(First(1000)),
            Pings(2, "d"),
            Takes(Ack(1010, "d", 2)),
            Takes(First(2000)),
            Takes(First(2000)),
            Pings(3, "c"),
        ],
    ),
    (
        "nobody, and then c",
        &[
            Takes(Ping(0, 1, "z", &[Failed("c", 0)])),
            Takes(First(0)),
            Fired(RoundStart(0)),
            Chose(None),
            Next(1000),
            Takes(Ping(500, 2, "z", &[Alive("c", 1)])),
            Takes(First(1000)),
            Pings(1, "c"),
        ],
    ),
];

/// Each case of probing by a b that is open.
const PLAYED: &[&[DetectorCase]] = &[A_SUSPECT, HELPERS, FILLED, &[IN_TURN], COMES_BACK];

#[test]
fn probes(rt: HostRuntime) {
    for cases in PLAYED {
        play(&rt, rt.alloc(), cases);
    }
}
