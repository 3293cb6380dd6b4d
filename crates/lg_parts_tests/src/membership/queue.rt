//! The claims that packets take with them.
use super::playing::Step::{
    Acks, Hears, Known, Live, News, Number, Opens, OpensIn, Pings, Says, Seeds, Sends,
};
use super::playing::{Case, NOTHING, play};
use lg_testing::says::Said::{Alive, AliveFar, Failed, Left, Numbered, Suspect, SuspectFar};

/// A seed is known and not queued. A claim is sent four times for each digit of the number of members. An accuser is
/// queued if it counts.
const QUEUED: &[Case] = &[
    (
        "a seed",
        &[
            Opens("b"),
            Seeds(&[Alive("a", 0), Alive("c", 0), Alive("d", 0), Alive("e", 0)]),
            Known("c", Some(Alive("c", 0))),
            Sends(&[]),
            Hears(0, Alive("c", 0), NOTHING),
            Sends(&[]),
            Says(0, Alive("c", 1)),
            Sends(&[Alive("c", 1)]),
        ],
    ),
    (
        "two members, and then ten",
        &[
            Opens("b"),
            Says(0, Alive("c", 0)),
            Sends(&[Alive("c", 0)]),
            Sends(&[Alive("c", 0)]),
            Sends(&[Alive("c", 0)]),
            Sends(&[Alive("c", 0)]),
            Sends(&[]),
            Seeds(&[
                Numbered(0),
                Numbered(1),
                Numbered(2),
                Numbered(3),
                Numbered(4),
                Numbered(5),
                Numbered(6),
                Numbered(7),
            ]),
            Live(10),
            Sends(&[Alive("c", 0)]),
        ],
    ),
    (
        "accusers",
        &[
            Opens("b"),
            Seeds(&[Alive("a", 0), Alive("c", 0), Alive("d", 0), Alive("e", 0)]),
            Says(2000, Suspect("c", 0, "d")),
            Sends(&[Suspect("c", 0, "d")]),
            Sends(&[Suspect("c", 0, "d")]),
            Sends(&[Suspect("c", 0, "d")]),
            Sends(&[Suspect("c", 0, "d")]),
            Says(2100, Suspect("c", 0, "d")),
            Sends(&[]),
            Says(2200, Suspect("c", 0, "e")),
            Sends(&[Suspect("c", 0, "e")]),
        ],
    ),
];

/// A Ping to a suspected member begins with that member's record, and only its claim about d counts as sent. The
/// record is the one that is known, and not what is queued.
const BUDDIES: &[Case] = &[
    (
        "c is suspected, and d is alive",
        &[
            Opens("b"),
            Says(0, Suspect("c", 2, "a")),
            Says(0, Alive("d", 0)),
            Pings("c", &[Suspect("c", 2, "a"), Alive("d", 0)]),
            Sends(&[Suspect("c", 2, "a"), Alive("d", 0)]),
            Sends(&[Suspect("c", 2, "a"), Alive("d", 0)]),
            Sends(&[Suspect("c", 2, "a"), Alive("d", 0)]),
            Sends(&[Suspect("c", 2, "a")]),
            Sends(&[]),
            Pings("c", &[Suspect("c", 2, "a")]),
            Pings("b", &[]),
            Pings("d", &[]),
            Pings("z", &[]),
        ],
    ),
    (
        "two accusers",
        &[
            Opens("b"),
            Seeds(&[Alive("a", 0), Alive("c", 0), Alive("d", 0), Alive("e", 0)]),
            Says(2000, Suspect("c", 0, "d")),
            Says(2600, Suspect("c", 0, "e")),
            Pings("c", &[Suspect("c", 0, "d")]),
            Sends(&[Suspect("c", 0, "e")]),
        ],
    ),
];

/// With `wire` 1 and 2 a claim at an address of sixteen bytes rides on no packet, and is no buddy.
const FAR: &[Case] = &[
    (
        "wire 1",
        &[
            OpensIn("b", 1),
            Says(0, SuspectFar("c", "a")),
            Says(0, AliveFar("d")),
            Says(0, Alive("e", 0)),
            Pings("c", &[Alive("e", 0)]),
            Sends(&[Alive("e", 0)]),
            Known("c", Some(SuspectFar("c", "a"))),
            Known("d", Some(AliveFar("d"))),
        ],
    ),
    (
        "wire 2",
        &[
            OpensIn("b", 2),
            Says(0, SuspectFar("c", "a")),
            Says(0, AliveFar("d")),
            Pings("c", &[]),
            Sends(&[]),
        ],
    ),
    (
        "wire 3",
        &[
            OpensIn("b", 3),
            Says(0, SuspectFar("c", "a")),
            Says(0, AliveFar("d")),
            Says(0, Alive("e", 0)),
            Pings(
                "c",
                &[
                    SuspectFar("c", "a"),
                    Alive("b", 0),
                    AliveFar("d"),
                    Alive("e", 0),
                ],
            ),
            Sends(&[
                SuspectFar("c", "a"),
                Alive("b", 0),
                AliveFar("d"),
                Alive("e", 0),
            ]),
        ],
    ),
];

/// With `wire` 3 an Ack to a suspected or failed member begins with its record, and a Ping to a failed one doesn't. A
/// member that left is no buddy, nor is one that is alive. With `wire` 2 no Ack has a buddy.
const ACKED: &[Case] = &[
    (
        "wire 3",
        &[
            OpensIn("b", 3),
            Seeds(&[
                Suspect("c", 2, "a"),
                Failed("d", 1),
                Left("e", 4),
                Alive("f", 0),
            ]),
            Acks("c", &[Suspect("c", 2, "a"), Alive("b", 0)]),
            Acks("d", &[Failed("d", 1), Alive("b", 0)]),
            Pings("d", &[Alive("b", 0)]),
            Acks("e", &[Alive("b", 0)]),
            Acks("f", &[]),
            Acks("b", &[]),
            Acks("z", &[]),
            Acks("d", &[Failed("d", 1)]),
        ],
    ),
    (
        "wire 2",
        &[
            OpensIn("b", 2),
            Seeds(&[Suspect("c", 2, "a"), Failed("d", 1)]),
            Acks("c", &[]),
            Acks("d", &[]),
            Pings("c", &[Suspect("c", 2, "a")]),
        ],
    ),
];

/// With `wire` 3 b queues its own arrival, which may be sent four times. A doubt at a smaller number than its own
/// queues it anew, unless it may still be sent. With `wire` 2 b does neither.
const OWN: &[Case] = &[
    (
        "wire 3",
        &[
            OpensIn("b", 3),
            News(true),
            Sends(&[Alive("b", 0)]),
            Sends(&[Alive("b", 0)]),
            Sends(&[Alive("b", 0)]),
            Sends(&[Alive("b", 0)]),
            News(false),
            Says(0, Suspect("b", 0, "c")),
            Number(1),
            Sends(&[Alive("b", 1)]),
            Sends(&[Alive("b", 1)]),
            Sends(&[Alive("b", 1)]),
            Hears(0, Failed("b", 0), NOTHING),
            Sends(&[Alive("b", 1)]),
            News(false),
            Hears(0, Alive("b", 0), NOTHING),
            Hears(0, Left("b", 0), NOTHING),
            Hears(0, Alive("b", 1), NOTHING),
            News(false),
            Hears(0, Failed("b", 0), NOTHING),
            News(true),
            Number(1),
            Sends(&[Alive("b", 1)]),
        ],
    ),
    (
        "wire 2",
        &[
            OpensIn("b", 2),
            News(false),
            Sends(&[]),
            Says(0, Suspect("b", 0, "c")),
            Sends(&[Alive("b", 1)]),
            Sends(&[Alive("b", 1)]),
            Sends(&[Alive("b", 1)]),
            Sends(&[Alive("b", 1)]),
            Hears(0, Suspect("b", 0, "d"), NOTHING),
            News(false),
            Sends(&[]),
        ],
    ),
];

/// Each case of packets.
const PLAYED: &[&[Case]] = &[QUEUED, BUDDIES, FAR, ACKED, OWN];

#[test]
fn packets_take_what_is_queued(rt: HostRuntime) {
    for cases in PLAYED {
        play(&rt, cases);
    }
}
