//! Joining: the Pull that an event sends, the Page that answers a Pull, and the Pull that answers a Page of six.
use crate::playing::{play, play_blank, resume_each};
use lg_detector_testing::DetectorCase;
use lg_detector_testing::Happens::{From, In, Opens, Ping, Pull};
use lg_detector_testing::Setting::Wire;
use lg_detector_testing::Step::{
    self, Acks, Changed, Fired, Hears, Known, Next, Sends, Sent, SentIn, Takes,
};
use lg_packet::Version::{One, Three, Two};
use lg_testing::Due::Nothing;
use lg_testing::bodies::Says::{Gossip, Page, PullAfter, PullFirst};
use lg_testing::says::Said::{self, Alive, Failed, Numbered, Suspect};

/// b asks the member at port 7002 for its first records, and tells of itself.
const ASKS: DetectorCase = (
    "b asks for a table",
    &[
        Takes(Pull(5)),
        Sends(1),
        Sent(0, 7002, PullFirst, &[Alive("b", 0)]),
        Fired(Nothing),
        Changed(&[]),
        Next(0),
        Takes(Ping(5, 1, "c", &[Suspect("b", 0, "a")])),
        Takes(Pull(6)),
        Sends(1),
        Sent(0, 7002, PullFirst, &[Alive("b", 1)]),
    ],
);

/// b answers with a Page of the next records, at most six. The claims of the Pull were said before.
const ANSWERS: &[DetectorCase] = &[
    (
        "four members",
        &[
            Hears(0, &[Alive("a", 0), Alive("d", 0), Alive("e", 0)]),
            Takes(From(0, "a", 1, PullFirst, &[])),
            Sends(1),
            Sent(
                0,
                1,
                Page,
                &[Alive("a", 0), Alive("b", 0), Alive("d", 0), Alive("e", 0)],
            ),
            Changed(&[]),
            Takes(From(0, "a", 1, PullAfter("b"), &[])),
            Sent(0, 1, Page, &[Alive("d", 0), Alive("e", 0)]),
            Takes(From(0, "a", 1, PullAfter("c"), &[])),
            Sent(0, 1, Page, &[Alive("d", 0), Alive("e", 0)]),
            Takes(From(0, "a", 1, PullAfter("e"), &[])),
            Sends(1),
            Sent(0, 1, Page, &[]),
        ],
    ),
    (
        "claims in the Pull",
        &[
            Hears(0, &[Alive("a", 0), Alive("d", 0), Alive("e", 0)]),
            Takes(From(
                0,
                "a",
                1,
                PullAfter("b"),
                &[Suspect("d", 0, "a"), Failed("e", 0), Alive("f", 2)],
            )),
            Sent(
                0,
                1,
                Page,
                &[Suspect("d", 0, "a"), Failed("e", 0), Alive("f", 2)],
            ),
            Changed(&[Suspect("d", 0, "a"), Failed("e", 0), Alive("f", 2)]),
        ],
    ),
    (
        "seven members",
        &[
            Hears(0, &[Alive("a", 0), Alive("d", 0), Alive("e", 0)]),
            Takes(From(
                0,
                "a",
                1,
                PullFirst,
                &[Alive("c", 0), Alive("f", 0), Alive("g", 0)],
            )),
            Sent(
                0,
                1,
                Page,
                &[
                    Alive("a", 0),
                    Alive("b", 0),
                    Alive("c", 0),
                    Alive("d", 0),
                    Alive("e", 0),
                    Alive("f", 0),
                ],
            ),
            Takes(From(0, "a", 1, PullAfter("f"), &[])),
            Sent(0, 1, Page, &[Alive("g", 0)]),
        ],
    ),
];

/// The last of six claims isn't the one with the greatest name: b asks for what comes after it. A shorter Page is the
/// last.
const PAGES: DetectorCase = (
    "pages",
    &[
        Takes(From(
            0,
            "a",
            1,
            Page,
            &[
                Alive("a", 0),
                Alive("c", 0),
                Alive("f", 0),
                Alive("g", 0),
                Alive("h", 0),
                Alive("d", 0),
            ],
        )),
        Sends(1),
        Sent(0, 1, PullAfter("d"), &[Alive("b", 0)]),
        Known("d", Some(Alive("d", 0))),
        Takes(From(
            0,
            "a",
            1,
            Page,
            &[
                Alive("a", 0),
                Alive("c", 0),
                Alive("f", 0),
                Alive("g", 0),
                Alive("h", 0),
                Alive("b", 0),
            ],
        )),
        Sends(1),
        Sent(0, 1, PullAfter("b"), &[Alive("b", 0)]),
        Changed(&[]),
        Takes(From(
            0,
            "a",
            1,
            Page,
            &[
                Alive("a", 0),
                Alive("c", 0),
                Alive("f", 0),
                Alive("g", 0),
                Alive("h", 0),
            ],
        )),
        Sends(0),
        Takes(From(0, "a", 1, Page, &[])),
        Sends(0),
    ],
);

/// b asks for a table, is asked for one, is handed a Page, and is pinged.
const PULLS: Step<'static> = Takes(Pull(0));

const IS_PULLED: Step<'static> = Takes(From(0, "a", 1, PullFirst, &[]));

const IS_PAGED: Step<'static> = Takes(From(0, "a", 1, Page, &[]));

const IS_PINGED: Step<'static> = Takes(Ping(0, 2, "b", &[]));

/// c is queued once, and may be sent four times among two members. Asking for a table, answering and hearing one,
/// five times, uses up none of these.
const QUEUED: DetectorCase = (
    "c is sent four times",
    &[
        Takes(Ping(0, 1, "z", &[Alive("c", 0)])),
        PULLS,
        IS_PULLED,
        IS_PAGED,
        PULLS,
        IS_PULLED,
        IS_PAGED,
        PULLS,
        IS_PULLED,
        IS_PAGED,
        PULLS,
        IS_PULLED,
        IS_PAGED,
        PULLS,
        IS_PULLED,
        IS_PAGED,
        IS_PINGED,
        Acks(2, &[Alive("c", 0)]),
        IS_PINGED,
        Acks(2, &[Alive("c", 0)]),
        IS_PINGED,
        Acks(2, &[Alive("c", 0)]),
        IS_PINGED,
        Acks(2, &[Alive("c", 0)]),
        IS_PINGED,
        Acks(2, &[]),
    ],
);

/// Each case of Pulls and Pages.
const PLAYED: &[&[DetectorCase]] = &[&[ASKS], ANSWERS, &[PAGES, QUEUED]];

#[test]
fn joins(rt: HostRuntime) {
    for cases in PLAYED {
        play(&rt, rt.alloc(), cases);
    }
}

/// The first six of twelve members.
const SIX: &[Said] = &[
    Numbered(0),
    Numbered(1),
    Numbered(2),
    Numbered(3),
    Numbered(4),
    Numbered(5),
];

/// Twelve members.
const TWELVE: &[Said] = &[
    Numbered(0),
    Numbered(1),
    Numbered(2),
    Numbered(3),
    Numbered(4),
    Numbered(5),
    Numbered(6),
    Numbered(7),
    Numbered(8),
    Numbered(9),
    Numbered(10),
    Numbered(11),
];

/// Pages of version 3 with six and with twelve claims.
const PAGED_SIX: Step<'static> = Takes(In(0, Three, "a", Page, SIX));

const PAGED_TWELVE: Step<'static> = Takes(In(0, Three, "a", Page, TWELVE));

/// With each `wire` a Page of version 3 is full with twelve claims, and one of another version with six.
const FULL_PAGES: &[DetectorCase] = &[
    (
        "wire 1",
        &[
            Takes(Opens(0, &[Wire(1)])),
            PAGED_SIX,
            Sends(0),
            PAGED_TWELVE,
            Sends(1),
            SentIn(One, 1, PullAfter("m011"), &[Alive("b", 0)]),
        ],
    ),
    (
        "wire 2",
        &[
            Takes(Opens(0, &[Wire(2)])),
            PAGED_SIX,
            Sends(0),
            PAGED_TWELVE,
            SentIn(Two, 1, PullAfter("m011"), &[Alive("b", 0)]),
        ],
    ),
    (
        "wire 3",
        &[
            Takes(Opens(0, &[Wire(3)])),
            PAGED_SIX,
            Sends(0),
            PAGED_TWELVE,
            SentIn(Three, 1, PullAfter("m011"), &[Alive("b", 0)]),
            Takes(In(0, Two, "a", Page, SIX)),
            SentIn(Three, 1, PullAfter("m005"), &[Alive("b", 0)]),
            Takes(In(0, One, "a", Page, SIX)),
            SentIn(Three, 1, PullAfter("m005"), &[Alive("b", 0)]),
        ],
    ),
];

/// b knows twelve others. With `wire` 3 its first Page has twelve records, in whichever version it is asked.
const LONG_PAGES: &[DetectorCase] = &[
    (
        "thirteen members",
        &[
            Takes(Opens(0, &[Wire(3)])),
            Takes(In(0, Three, "a", Gossip, TWELVE)),
            Sends(0),
            Takes(In(0, One, "a", PullFirst, &[])),
            SentIn(
                Three,
                1,
                Page,
                &[
                    Alive("b", 0),
                    Numbered(0),
                    Numbered(1),
                    Numbered(2),
                    Numbered(3),
                    Numbered(4),
                    Numbered(5),
                    Numbered(6),
                    Numbered(7),
                    Numbered(8),
                    Numbered(9),
                    Numbered(10),
                ],
            ),
            Takes(In(0, Two, "a", PullAfter("m010"), &[])),
            SentIn(Three, 1, Page, &[Numbered(11)]),
        ],
    ),
    (
        "thirteen members in version 2",
        &[
            Takes(Opens(0, &[Wire(2)])),
            Takes(In(0, Three, "a", Gossip, TWELVE)),
            Takes(In(0, Three, "a", PullAfter("b"), &[])),
            SentIn(Two, 1, Page, SIX),
        ],
    ),
];

/// Each case of Pages of six and of twelve records, resumed at each place.
#[test]
fn joins_by_pages_of_each_version(rt: HostRuntime) {
    for cases in [FULL_PAGES, LONG_PAGES] {
        play_blank(&rt, rt.alloc(), cases);
        resume_each(&rt, rt.alloc(), &None, cases);
    }
}
