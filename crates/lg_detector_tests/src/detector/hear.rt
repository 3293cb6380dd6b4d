//! Packets that are heard: what their claims change, and the Acks to them.
use crate::playing::{opened, play, play_blank, play_on};
use lg_detector_testing::DetectorCase;
use lg_detector_testing::Happens::{From, Health, Opens, Ping, Tick};
use lg_detector_testing::Step::{
    self, Acks, AnswersHealth, Changed, Changes, Events, Fired, Hears, Known, Next, Ousted, Sends,
    Table, Takes, Tells,
};
use lg_testing::Due::Suspicion;
use lg_testing::bodies::Says::Ack;
use lg_testing::says::Said::{Accused, Alive, Failed, Left, Suspect, SuspectAt};

/// A Ping for another isn't acked, and neither is an Ack. What both said is gossiped.
const GOSSIP: &[DetectorCase] = &[
    (
        "a Ping for another",
        &[
            Takes(Ping(0, 7, "c", &[Alive("c", 0)])),
            Sends(0),
            Changed(&[Alive("c", 0)]),
            Takes(Ping(0, 8, "b", &[])),
            Acks(8, &[Alive("c", 0)]),
            Changed(&[]),
        ],
    ),
    (
        "an Ack",
        &[
            Takes(From(0, "a", 1, Ack(9), &[Suspect("c", 2, "a")])),
            Sends(0),
            Changed(&[Suspect("c", 2, "a")]),
            Takes(Ping(0, 10, "b", &[])),
            Acks(10, &[Suspect("c", 2, "a")]),
        ],
    ),
];

/// Pings leave the deadline as it is, whatever their moments.
const OUT_OF_ORDER: DetectorCase = (
    "moments out of order",
    &[
        Takes(Opens(5000, &[])),
        Takes(Ping(4000, 7, "b", &[])),
        Acks(7, &[]),
        Next(5000),
        Takes(Ping(9000, 7, "b", &[])),
        Acks(7, &[]),
        Next(5000),
        Takes(Ping(0, 7, "b", &[])),
        Acks(7, &[]),
        Next(5000),
        Takes(Ping(7000, 7, "b", &[])),
        Acks(7, &[]),
        Next(5000),
        Events(5),
    ],
);

#[test]
fn counts_from_the_greatest_moment(rt: HostRuntime) {
    play_blank(&rt, rt.alloc(), &[OUT_OF_ORDER]);
}

/// What a packet changes is listed in the order of names, each member once.
const SIX_CLAIMS: DetectorCase = (
    "six claims",
    &[
        Takes(Ping(0, 1, "c", &[Alive("d", 1), Alive("f", 0)])),
        Takes(Ping(
            0,
            2,
            "c",
            &[
                Alive("e", 0),
                Alive("d", 1),
                Suspect("b", 0, "a"),
                Alive("a", 3),
                Alive("a", 4),
                Alive("d", 0),
            ],
        )),
        Changed(&[Alive("a", 4), Alive("b", 1), Alive("e", 0)]),
        Table(&[
            Alive("a", 4),
            Alive("b", 1),
            Alive("d", 1),
            Alive("e", 0),
            Alive("f", 0),
        ]),
    ],
);

/// If two accusations have the same incarnation, only the first is refuted. A member that is ousted stays ousted.
const REFUTED: &[DetectorCase] = &[
    (
        "two accusations of one number",
        &[
            Takes(Ping(0, 9, "b", &[Suspect("b", 0, "a"), Suspect("b", 0, "c")])),
            Acks(9, &[Alive("b", 1)]),
            Changed(&[Alive("b", 1)]),
            Ousted(false),
            Known("b", Some(Alive("b", 1))),
        ],
    ),
    (
        "failed, then suspected",
        &[
            Takes(Ping(0, 1, "b", &[Failed("b", 1_000_000_000)])),
            Ousted(true),
            Takes(Ping(0, 2, "b", &[Suspect("b", 5, "a")])),
            Ousted(true),
            Acks(2, &[Alive("b", 6)]),
        ],
    ),
];

/// A claim about b, whose incarnation is 0, in a Ping. Then b's record, what of it changes and is sent, and whether b
/// is ousted. The first nine claims raise b's incarnation, and the others don't.
const OF_ITSELF: &[DetectorCase] = &[
    (
        "alive",
        &[
            Takes(Ping(0, 1, "b", &[Alive("b", 3)])),
            Known("b", Some(Alive("b", 4))),
            Changed(&[Alive("b", 4)]),
            Ousted(false),
            Acks(1, &[Alive("b", 4)]),
        ],
    ),
    (
        "suspected by itself",
        &[
            Takes(Ping(0, 1, "b", &[Suspect("b", 0, "b")])),
            Known("b", Some(Alive("b", 1))),
            Changed(&[Alive("b", 1)]),
            Ousted(false),
            Acks(1, &[Alive("b", 1)]),
        ],
    ),
    (
        "at a greater number",
        &[
            Takes(Ping(0, 1, "b", &[Suspect("b", 7, "a")])),
            Known("b", Some(Alive("b", 8))),
            Changed(&[Alive("b", 8)]),
            Ousted(false),
            Acks(1, &[Alive("b", 8)]),
        ],
    ),
    (
        "at the last but one",
        &[
            Takes(Ping(0, 1, "b", &[Suspect("b", 999_999_999, "a")])),
            Known("b", Some(Alive("b", 1_000_000_000))),
            Changed(&[Alive("b", 1_000_000_000)]),
            Ousted(false),
            Acks(1, &[Alive("b", 1_000_000_000)]),
        ],
    ),
    (
        "failed",
        &[
            Takes(Ping(0, 3, "b", &[Failed("b", 0)])),
            Known("b", Some(Alive("b", 1))),
            Changed(&[Alive("b", 1)]),
            Ousted(false),
            Acks(3, &[Alive("b", 1)]),
        ],
    ),
    (
        "failed at a greater number",
        &[
            Takes(Ping(0, 1, "b", &[Failed("b", 7)])),
            Known("b", Some(Alive("b", 8))),
            Changed(&[Alive("b", 8)]),
            Ousted(false),
            Acks(1, &[Alive("b", 8)]),
        ],
    ),
    (
        "failed at the last but one",
        &[
            Takes(Ping(0, 1, "b", &[Failed("b", 999_999_999)])),
            Known("b", Some(Alive("b", 1_000_000_000))),
            Changed(&[Alive("b", 1_000_000_000)]),
            Ousted(false),
            Acks(1, &[Alive("b", 1_000_000_000)]),
        ],
    ),
    (
        "left",
        &[
            Takes(Ping(0, 3, "b", &[Left("b", 0)])),
            Known("b", Some(Alive("b", 1))),
            Changed(&[Alive("b", 1)]),
            Ousted(false),
            Acks(3, &[Alive("b", 1)]),
            Takes(Health(0)),
            AnswersHealth(0, 1, 1),
            Takes(Ping(0, 4, "b", &[Left("b", 0)])),
            Changed(&[]),
        ],
    ),
    (
        "left at a greater number",
        &[
            Takes(Ping(0, 1, "b", &[Left("b", 7)])),
            Known("b", Some(Alive("b", 8))),
            Changed(&[Alive("b", 8)]),
            Ousted(false),
            Acks(1, &[Alive("b", 8)]),
        ],
    ),
    (
        "alive at its number",
        &[
            Takes(Ping(0, 1, "b", &[Alive("b", 0)])),
            Known("b", Some(Alive("b", 0))),
            Changed(&[]),
            Ousted(false),
            Acks(1, &[]),
        ],
    ),
    (
        "alive at the last number",
        &[
            Takes(Ping(0, 1, "b", &[Alive("b", 1_000_000_000)])),
            Known("b", Some(Alive("b", 0))),
            Changed(&[]),
            Ousted(true),
            Acks(1, &[]),
        ],
    ),
    (
        "left at the last number",
        &[
            Takes(Ping(0, 1, "b", &[Left("b", 1_000_000_000)])),
            Known("b", Some(Alive("b", 0))),
            Changed(&[]),
            Ousted(true),
            Acks(1, &[]),
        ],
    ),
    (
        "suspected at it",
        &[
            Takes(Ping(0, 1, "b", &[Suspect("b", 1_000_000_000, "a")])),
            Known("b", Some(Alive("b", 0))),
            Changed(&[]),
            Ousted(true),
            Acks(1, &[]),
        ],
    ),
    (
        "failed at it",
        &[
            Takes(Ping(0, 1, "b", &[Failed("b", 1_000_000_000)])),
            Known("b", Some(Alive("b", 0))),
            Changed(&[]),
            Ousted(true),
            Acks(1, &[]),
        ],
    ),
];

/// a, d and e are known.
const OTHERS: Step<'static> = Hears(0, &[Alive("a", 0), Alive("d", 0), Alive("e", 0)]);

/// c is the fifth member. Of 300 accusers the first four count, and their accusations are sent. The last of these
/// four is sent four times.
#[test]
fn a_flood_of_accusers(rt: HostRuntime) {
    let mut detector = opened(&rt, rt.alloc());
    play_on(&rt, &mut detector, "before", &[OTHERS]);
    for accuser in 0..300 {
        let sent = match accuser {
            0..4 => Some(Accused("c", accuser)),
            4..7 => Some(Accused("c", 3)),
            _ => None,
        };
        let changes = if accuser == 0 { 1 } else { 0 };
        let said = [Accused("c", accuser)];
        let steps = [
            Takes(Ping(2000, 2, "b", &said)),
            Tells("c", sent),
            Changes(changes),
        ];
        play_on(&rt, &mut detector, "an accuser", &steps);
    }
    let after = [
        Known("c", Some(Accused("c", 0))),
        Takes(Tick(40_000)),
        Next(7000),
    ];
    play_on(&rt, &mut detector, "after", &after);
}

/// An accusation is sent as it was heard. The record stays as the first one made it, and fails at the record's
/// address.
const TWO_ADDRESSES: DetectorCase = (
    "accused at two addresses",
    &[
        OTHERS,
        Takes(Ping(2000, 2, "b", &[Suspect("c", 3, "d")])),
        Tells("c", Some(Suspect("c", 3, "d"))),
        Takes(Ping(2000, 2, "b", &[SuspectAt("c", 3, "e", 7002)])),
        Tells("c", Some(SuspectAt("c", 3, "e", 7002))),
        Known("c", Some(Suspect("c", 3, "d"))),
        Takes(Tick(40_000)),
        Takes(Tick(40_000)),
        Fired(Suspicion(19_500, "c")),
        Changed(&[Failed("c", 3)]),
    ],
);

/// Each case of packets on a b that is open.
const PLAYED: &[&[DetectorCase]] = &[GOSSIP, &[SIX_CLAIMS], REFUTED, OF_ITSELF, &[TWO_ADDRESSES]];

#[test]
fn hears_packets(rt: HostRuntime) {
    for cases in PLAYED {
        play(&rt, rt.alloc(), cases);
    }
}
