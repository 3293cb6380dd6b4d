//! Addresses of sixteen bytes, which only version 3 tells. b has a `wire`, and hears packets of version 3 from port 1.
use crate::playing::{play_blank, resume_each};
use lg_detector_testing::DetectorCase;
use lg_detector_testing::Happens::{First, Health, In, Opens};
use lg_detector_testing::Setting::{GossipMs, Lambda, Seed, Wire};
use lg_detector_testing::Step::{
    self, AnswersHealth, Changed, Fired, Next, Sends, SentFar, SentIn, Takes,
};
use lg_packet::Version::{One, Three, Two};
use lg_testing::Due::{Direct, RoundEnd, RoundStart};
use lg_testing::bodies::Says::{Ack, Gossip, Page, Ping, PullFirst, RequestFar};
use lg_testing::says::Said::{self, Alive, AliveFar, SuspectFar};

/// The group tells b of c, which is at ::1.
const HEARS_OF_C: Step<'static> = Takes(In(0, Three, "a", Gossip, &[AliveFar("c")]));

/// b suspects c at the end of the round.
const SUSPECTS_C: Step<'static> = Changed(&[SuspectFar("c", "b")]);

/// b is asked for its table.
const IS_PULLED: Step<'static> = Takes(In(1000, Three, "a", PullFirst, &[]));

/// b can tell where c is: it tells c and d of it, asks d for help, and has c in its Page. No Nack came of d.
const TOLD: DetectorCase = (
    "wire 3",
    &[
        Takes(Opens(0, &[Wire(3), GossipMs(0), Seed("d", 7000)])),
        HEARS_OF_C,
        Changed(&[AliveFar("c")]),
        Takes(First(0)),
        Fired(RoundStart(0)),
        Sends(1),
        SentFar(Three, Ping(1, "c"), &[Alive("b", 0), AliveFar("c")]),
        Next(500),
        Takes(First(500)),
        Fired(Direct(500)),
        Sends(1),
        SentIn(
            Three,
            7000,
            RequestFar(1, "c"),
            &[Alive("b", 0), AliveFar("c")],
        ),
        Takes(First(1000)),
        Fired(RoundEnd(1000)),
        SUSPECTS_C,
        Takes(Health(1000)),
        AnswersHealth(2, 0, 3),
        IS_PULLED,
        SentIn(
            Three,
            1,
            Page,
            &[Alive("b", 0), SuspectFar("c", "b"), Alive("d", 0)],
        ),
    ],
);

/// b can't tell where c is: it pings c, and asks nobody for help, so no Nack is missed.
const UNTOLD: &[DetectorCase] = &[
    (
        "wire 1",
        &[
            Takes(Opens(0, &[Wire(1), Seed("d", 7000)])),
            HEARS_OF_C,
            Changed(&[AliveFar("c")]),
            Takes(First(0)),
            Fired(RoundStart(0)),
            Sends(1),
            SentFar(One, Ping(1, "c"), &[]),
            Next(500),
            Takes(First(500)),
            Fired(Direct(500)),
            Sends(0),
            Takes(First(1000)),
            Fired(RoundEnd(1000)),
            SUSPECTS_C,
            Takes(Health(1000)),
            AnswersHealth(1, 0, 3),
            IS_PULLED,
            SentIn(One, 1, Page, &[Alive("b", 0), Alive("d", 0)]),
        ],
    ),
    (
        "wire 2",
        &[
            Takes(Opens(0, &[Wire(2), Seed("d", 7000)])),
            HEARS_OF_C,
            Takes(First(0)),
            SentFar(Two, Ping(1, "c"), &[]),
            Takes(First(500)),
            Fired(Direct(500)),
            Sends(0),
            Takes(First(1000)),
            SUSPECTS_C,
            Takes(Health(1000)),
            AnswersHealth(1, 0, 3),
            IS_PULLED,
            SentIn(Two, 1, Page, &[Alive("b", 0), Alive("d", 0)]),
        ],
    ),
];

/// Seven members at ::1, and z.
const SEVEN_AND_Z: Step<'static> = Takes(In(
    0,
    Three,
    "a",
    Gossip,
    &[
        AliveFar("n0"),
        AliveFar("n1"),
        AliveFar("n2"),
        AliveFar("n3"),
        AliveFar("n4"),
        AliveFar("n5"),
        AliveFar("n6"),
        Alive("z", 0),
    ],
));

/// x pings b, and asks for its table.
const IS_PINGED: Step<'static> = Takes(In(0, One, "x", Ping(1, "b"), &[]));

const IS_ASKED: Step<'static> = Takes(In(0, One, "x", PullFirst, &[]));

/// c is suspected at ::1, and six others are alive.
const C_AND_SIX: Step<'static> = Takes(In(
    0,
    Three,
    "a",
    Gossip,
    &[
        SuspectFar("c", "a"),
        Alive("d0", 0),
        Alive("d1", 0),
        Alive("d2", 0),
        Alive("d3", 0),
        Alive("d4", 0),
        Alive("d5", 0),
    ],
));

/// What b can't tell takes no place of what it can. With `lambda` 1 a claim is sent once.
const NO_PLACE: &[DetectorCase] = &[
    (
        "an Ack and a Page, wire 1",
        &[
            Takes(Opens(0, &[Wire(1), Lambda(1)])),
            SEVEN_AND_Z,
            IS_PINGED,
            SentIn(One, 1, Ack(1), &[Alive("z", 0)]),
            IS_PINGED,
            SentIn(One, 1, Ack(1), &[]),
            IS_ASKED,
            SentIn(One, 1, Page, &[Alive("b", 0), Alive("z", 0)]),
        ],
    ),
    (
        "an Ack and a Page, wire 2",
        &[
            Takes(Opens(0, &[Wire(2), Lambda(1)])),
            SEVEN_AND_Z,
            IS_PINGED,
            SentIn(Two, 1, Ack(1), &[Alive("z", 0)]),
            IS_PINGED,
            SentIn(Two, 1, Ack(1), &[]),
            IS_ASKED,
            SentIn(Two, 1, Page, &[Alive("b", 0), Alive("z", 0)]),
        ],
    ),
];

/// The claims about six members.
const SIX: &[Said] = &[
    Alive("d0", 0),
    Alive("d1", 0),
    Alive("d2", 0),
    Alive("d3", 0),
    Alive("d4", 0),
    Alive("d5", 0),
];

/// b pings c, which is suspected, and pings it for x as well. If b can't tell where c is, the Pings have no buddy.
const NO_BUDDY: &[DetectorCase] = &[
    (
        "a Ping to c, wire 1",
        &[
            Takes(Opens(0, &[Wire(1)])),
            C_AND_SIX,
            Takes(First(0)),
            SentFar(One, Ping(1, "c"), SIX),
            Takes(In(0, Three, "x", RequestFar(9, "c"), &[])),
            SentFar(One, Ping(2, "c"), SIX),
        ],
    ),
    (
        "a Ping to c, wire 2",
        &[
            Takes(Opens(0, &[Wire(2)])),
            C_AND_SIX,
            Takes(First(0)),
            SentFar(Two, Ping(1, "c"), SIX),
        ],
    ),
    (
        "a Ping to c, wire 3",
        &[
            Takes(Opens(0, &[Wire(3)])),
            Takes(In(
                0,
                Three,
                "a",
                Gossip,
                &[SuspectFar("c", "a"), Alive("d", 0)],
            )),
            Takes(First(0)),
            SentFar(
                Three,
                Ping(1, "c"),
                &[SuspectFar("c", "a"), Alive("b", 0), Alive("d", 0)],
            ),
        ],
    ),
];

/// Plays each case, and resumes it at each place.
#[test]
fn passes_over_far_addresses(rt: HostRuntime) {
    for cases in [&[TOLD], UNTOLD, NO_PLACE, NO_BUDDY] {
        play_blank(&rt, rt.alloc(), cases);
        resume_each(&rt, rt.alloc(), &None, cases);
    }
}
