//! What happens to members of the worked scripts: of all in `examples` but `comeback.sim` and `leave.sim`, and of some
//! in `cases/sim.case`, `sim_packets.case` and `sim_replies.case`. All is as in the script, with two exceptions. A
//! claim of an incarnation above 0 is about port 7000, and the member that is pulled is at port 7002.
use lg_detector_testing::DetectorCase;
use lg_detector_testing::Happens::{Ask, First, From, Health, Opens, Pull, TickBy};
use lg_detector_testing::Setting::{Alpha, Indirect, Own, Seed, Timeout};
use lg_detector_testing::Step::Takes;
use lg_testing::bodies::Says::{self, Nack, Page, PullAfter, PullFirst, Request};
use lg_testing::says::Said::{Alive, AliveAt, FailedAt, SuspectAt};

/// Members of `examples` to which something happens after they were opened. Each list begins with the opening.
pub(super) const EXAMPLES: &[DetectorCase] = &[
    (
        "probe.sim, a",
        &[
            Takes(Opens(0, &[Own("a", 7001), Seed("b", 7002)])),
            Takes(First(0)),
            Takes(From(20, "b", 7002, Says::Ack(1), &[])),
            Takes(First(1000)),
            Takes(First(1000)),
        ],
    ),
    (
        "probe.sim, b",
        &[
            Takes(Opens(0, &[Own("b", 7002)])),
            Takes(From(10, "a", 7001, Says::Ping(1, "b"), &[])),
        ],
    ),
    (
        "false_alarm.sim, a",
        &[
            Takes(Opens(0, &[Own("a", 7001), Seed("b", 7002)])),
            Takes(First(0)),
            Takes(First(500)),
            Takes(First(1000)),
            Takes(First(1000)),
            Takes(From(1020, "b", 7002, Says::Ack(2), &[Alive("b", 1)])),
            Takes(Ask(1020, "b")),
            Takes(Health(1020)),
        ],
    ),
    (
        "false_alarm.sim, b",
        &[
            Takes(Opens(0, &[Own("b", 7002), Seed("a", 7001)])),
            Takes(From(
                1010,
                "a",
                7001,
                Says::Ping(2, "b"),
                &[SuspectAt("b", 0, "a", 7002)],
            )),
            Takes(Health(1020)),
        ],
    ),
    (
        "relay.sim, a",
        &[
            Takes(Opens(0, &[Own("a", 7001), Seed("b", 7002), Seed("c", 7003)])),
            Takes(TickBy(0, [1, 0, 0, 0, 0, 0, 0, 0])),
            Takes(First(500)),
            Takes(From(540, "b", 7002, Says::Ack(1), &[])),
            Takes(First(1000)),
            Takes(Ask(1000, "c")),
            Takes(Health(1000)),
        ],
    ),
    (
        "relay.sim, b",
        &[
            Takes(Opens(0, &[Own("b", 7002), Seed("a", 7001), Seed("c", 7003)])),
            Takes(From(510, "a", 7001, Request(1, "c", 7003), &[])),
            Takes(From(530, "c", 7003, Says::Ack(1), &[])),
        ],
    ),
    (
        "relay.sim, c",
        &[
            Takes(Opens(0, &[Own("c", 7003), Seed("a", 7001), Seed("b", 7002)])),
            Takes(From(520, "b", 7002, Says::Ping(1, "c"), &[])),
        ],
    ),
    (
        "loaded.sim, a",
        &[
            Takes(Opens(0, &[Own("a", 7001), Seed("b", 7002), Seed("c", 7003)])),
            Takes(First(0)),
            Takes(First(500)),
            Takes(First(1000)),
            Takes(Health(1000)),
            Takes(First(1000)),
            Takes(First(2000)),
            Takes(First(2000)),
            Takes(From(
                2400,
                "c",
                7003,
                Says::Ack(2),
                &[SuspectAt("b", 0, "a", 7002)],
            )),
            Takes(Health(2400)),
        ],
    ),
    (
        "loaded.sim, c",
        &[
            Takes(Opens(0, &[Own("c", 7003)])),
            Takes(From(510, "a", 7001, Request(1, "b", 7002), &[])),
            Takes(From(
                1010,
                "a",
                7001,
                Says::Ping(2, "c"),
                &[SuspectAt("b", 0, "a", 7002)],
            )),
        ],
    ),
    (
        "joining.sim, b",
        &[
            Takes(Opens(
                0,
                &[
                    Own("b", 7002),
                    Seed("c", 7003),
                    Seed("d", 7004),
                    Seed("e", 7005),
                    Seed("f", 7006),
                    Seed("g", 7007),
                ],
            )),
            Takes(From(10, "a", 7001, PullFirst, &[AliveAt("a", 7001)])),
            Takes(From(30, "a", 7001, PullAfter("f"), &[AliveAt("a", 7001)])),
        ],
    ),
    (
        "joining.sim, a",
        &[
            Takes(Opens(0, &[Own("a", 7001)])),
            Takes(Pull(0)),
            Takes(From(
                20,
                "b",
                7002,
                Page,
                &[
                    AliveAt("a", 7001),
                    AliveAt("b", 7002),
                    AliveAt("c", 7003),
                    AliveAt("d", 7004),
                    AliveAt("e", 7005),
                    AliveAt("f", 7006),
                ],
            )),
            Takes(From(40, "b", 7002, Page, &[AliveAt("g", 7007)])),
        ],
    ),
];

/// The members of the example in which one dies.
pub(super) const DEATH: &[DetectorCase] = &[
    (
        "death.sim, a",
        &[
            Takes(Opens(
                0,
                &[
                    Own("a", 7001),
                    Alpha(1),
                    Indirect(0),
                    Seed("b", 7002),
                    Seed("c", 7003),
                    Seed("d", 7004),
                    Seed("e", 7005),
                ],
            )),
            Takes(TickBy(0, [3, 0, 0, 0, 0, 0, 0, 0])),
            Takes(First(500)),
            Takes(First(1000)),
            Takes(First(1000)),
            Takes(From(
                1020,
                "b",
                7002,
                Says::Ack(2),
                &[SuspectAt("e", 0, "a", 7005)],
            )),
            Takes(From(
                2020,
                "b",
                7002,
                Says::Ping(2, "a"),
                &[SuspectAt("e", 0, "b", 7005)],
            )),
            Takes(First(4500)),
            Takes(First(4500)),
            Takes(First(4500)),
        ],
    ),
    (
        "death.sim, b",
        &[
            Takes(Opens(
                0,
                &[
                    Own("b", 7002),
                    Alpha(1),
                    Indirect(0),
                    Seed("a", 7001),
                    Seed("c", 7003),
                    Seed("d", 7004),
                    Seed("e", 7005),
                ],
            )),
            Takes(From(
                1010,
                "a",
                7001,
                Says::Ping(2, "b"),
                &[SuspectAt("e", 0, "a", 7005)],
            )),
            Takes(TickBy(1010, [3, 0, 0, 0, 0, 0, 0, 0])),
            Takes(First(1510)),
            Takes(First(2010)),
            Takes(First(2010)),
        ],
    ),
    (
        "death.sim, c",
        &[
            Takes(Opens(
                0,
                &[
                    Own("c", 7003),
                    Alpha(1),
                    Indirect(0),
                    Seed("a", 7001),
                    Seed("b", 7002),
                    Seed("d", 7004),
                    Seed("e", 7005),
                ],
            )),
            Takes(From(
                4510,
                "a",
                7001,
                Says::Ping(3, "c"),
                &[FailedAt("e", 0, 7005)],
            )),
        ],
    ),
];

/// Members of scripts in `cases`.
pub(super) const SCRIPTS: &[DetectorCase] = &[
    (
        "a relay and its Nack, a",
        &[
            Takes(Opens(0, &[Own("a", 7001), Seed("b", 7002), Seed("c", 7003)])),
            Takes(TickBy(0, [1, 0, 0, 0, 0, 0, 0, 0])),
            Takes(First(500)),
            Takes(From(915, "b", 7002, Nack(1), &[])),
            Takes(First(1000)),
            Takes(Health(1000)),
        ],
    ),
    (
        "a relay and its Nack, b",
        &[
            Takes(Opens(0, &[Own("b", 7002)])),
            Takes(From(510, "a", 7001, Request(1, "c", 7003), &[])),
            Takes(First(910)),
            Takes(First(910)),
        ],
    ),
    (
        "a relay of which the Nack is lost, a",
        &[
            Takes(Opens(0, &[Own("a", 7001), Seed("b", 7002), Seed("c", 7003)])),
            Takes(TickBy(0, [1, 0, 0, 0, 0, 0, 0, 0])),
            Takes(First(500)),
            Takes(First(1000)),
            Takes(Health(1000)),
        ],
    ),
    (
        "joining by one page, b",
        &[
            Takes(Opens(0, &[Own("b", 7002), Seed("c", 7003)])),
            Takes(From(10, "a", 7001, PullFirst, &[AliveAt("a", 7001)])),
        ],
    ),
    (
        "joining by one page, a",
        &[
            Takes(Opens(0, &[Own("a", 7001)])),
            Takes(Pull(0)),
            Takes(From(
                20,
                "b",
                7002,
                Page,
                &[AliveAt("a", 7001), AliveAt("b", 7002), AliveAt("c", 7003)],
            )),
        ],
    ),
    (
        "a Ping twice, a",
        &[
            Takes(Opens(0, &[Own("a", 7001), Seed("b", 7002)])),
            Takes(First(0)),
            Takes(From(20, "b", 7002, Says::Ack(1), &[])),
            Takes(From(21, "b", 7002, Says::Ack(1), &[])),
        ],
    ),
    (
        "a Ping twice, b",
        &[
            Takes(Opens(0, &[Own("b", 7002)])),
            Takes(From(10, "a", 7001, Says::Ping(1, "b"), &[])),
            Takes(From(11, "a", 7001, Says::Ping(1, "b"), &[])),
        ],
    ),
    (
        "a suspicion that ends, a",
        &[
            Takes(Opens(
                0,
                &[Own("a", 7001), Alpha(1), Timeout(400), Seed("b", 7002)],
            )),
            Takes(First(0)),
            Takes(First(400)),
            Takes(First(1000)),
            Takes(Ask(1000, "b")),
            Takes(First(1000)),
            Takes(First(1800)),
            Takes(First(2000)),
            Takes(Ask(2000, "b")),
        ],
    ),
    (
        "the end of a relay, a",
        &[
            Takes(Opens(0, &[Own("a", 7001), Seed("b", 7002), Seed("c", 7003)])),
            Takes(TickBy(0, [1, 0, 0, 0, 0, 0, 0, 0])),
            Takes(First(500)),
        ],
    ),
    (
        "the end of a relay, b",
        &[
            Takes(Opens(0, &[Own("b", 7002)])),
            Takes(From(510, "a", 7001, Request(1, "c", 7003), &[])),
            Takes(First(910)),
            Takes(First(910)),
            Takes(First(1510)),
            Takes(Ask(1510, "c")),
        ],
    ),
    (
        "a member that hears that it has failed, a",
        &[
            Takes(Opens(
                0,
                &[Own("a", 7001), Alpha(1), Timeout(400), Seed("b", 7002)],
            )),
            Takes(First(0)),
            Takes(First(400)),
            Takes(First(1000)),
            Takes(First(1000)),
            Takes(First(1800)),
            Takes(First(2000)),
            Takes(From(2000, "b", 7002, PullFirst, &[AliveAt("b", 7002)])),
        ],
    ),
    (
        "a member that hears that it has failed, b",
        &[
            Takes(Opens(2000, &[Own("b", 7001), Alpha(1), Timeout(400)])),
            Takes(Pull(2000)),
            Takes(From(
                2000,
                "a",
                7002,
                Page,
                &[AliveAt("a", 7002), FailedAt("b", 0, 7001)],
            )),
        ],
    ),
];
