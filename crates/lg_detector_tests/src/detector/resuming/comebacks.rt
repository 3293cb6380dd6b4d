//! What happens to members of scripts in which one that failed comes back: of `examples/comeback.sim`, and of one in
//! `cases/sim.case`. All is as in the script, with the exceptions that `scripts.rt` names.
use lg_detector_testing::DetectorCase;
use lg_detector_testing::Happens::{First, From, Health, Opens, Pull};
use lg_detector_testing::Setting::{Alpha, Interval, Own, Seed, Timeout};
use lg_detector_testing::Step::Takes;
use lg_testing::bodies::Says::{self, Page, PullFirst};
use lg_testing::says::Said::{Alive, AliveAt, FailedAt, SuspectAt};

/// Members to which something happens after they were opened. Each list begins with the opening.
pub(super) const COMEBACKS: &[DetectorCase] = &[
    (
        "comeback.sim, a",
        &[
            Takes(Opens(0, &[Own("a", 7001), Alpha(1), Seed("b", 7002)])),
            Takes(First(0)),
            Takes(First(500)),
            Takes(First(1000)),
            Takes(First(1000)),
            Takes(First(2000)),
            Takes(First(2000)),
            Takes(First(3000)),
            Takes(First(3000)),
            Takes(From(4010, "b", 7002, PullFirst, &[AliveAt("b", 7002)])),
            Takes(From(4030, "b", 7002, Says::Ping(1, "a"), &[Alive("b", 1)])),
            Takes(First(6000)),
        ],
    ),
    (
        "comeback.sim, b",
        &[
            Takes(Opens(4000, &[Own("b", 7001), Alpha(1), Seed("a", 7002)])),
            Takes(Pull(4000)),
            Takes(From(
                4020,
                "a",
                7002,
                Page,
                &[AliveAt("a", 7002), FailedAt("b", 0, 7001)],
            )),
            Takes(First(4020)),
            Takes(From(4040, "a", 7002, Says::Ack(1), &[Alive("b", 1)])),
            Takes(Health(6010)),
        ],
    ),
    (
        "a suspect that has failed meanwhile, a",
        &[
            Takes(Opens(
                0,
                &[
                    Own("a", 7001),
                    Interval(10),
                    Timeout(5),
                    Alpha(1),
                    Seed("b", 7002),
                ],
            )),
            Takes(First(0)),
            Takes(First(5)),
            Takes(First(10)),
            Takes(First(10)),
            Takes(First(20)),
            Takes(First(20)),
            Takes(From(26, "b", 7002, Says::Ack(2), &[Alive("b", 1)])),
            Takes(First(30)),
            Takes(First(30)),
        ],
    ),
    (
        "a suspect that has failed meanwhile, b",
        &[
            Takes(Opens(0, &[Own("b", 7002), Interval(10), Timeout(5), Alpha(1)])),
            Takes(From(
                25,
                "a",
                7001,
                Says::Ping(2, "b"),
                &[SuspectAt("b", 0, "a", 7002)],
            )),
        ],
    ),
];
