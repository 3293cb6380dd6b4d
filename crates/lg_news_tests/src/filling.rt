//! What packets carry with `wire` 3: twelve claims, filled one after another.
use crate::playing::{play_blank, resume_each};
use lg_detector_testing::DetectorCase;
use lg_detector_testing::Happens::{First, FromIn, In, Opens, Tick, TickBy};
use lg_detector_testing::Setting::{self, GossipMs, GossipTo, Indirect, Lambda, Own, Seed, Wire};
use lg_detector_testing::Step::{self, Replies, SentIn, Takes};
use lg_packet::Version::Three;
use lg_testing::Due::{self, Direct, Nothing, RoundEnd, RoundStart};
use lg_testing::bodies::Says::{AckFor, Gossip, Page, Ping, PullAfter};
use lg_testing::says::Said::{self, Alive, AliveAt, SuspectAt};

/// b hears of twelve members in one packet, and of one in another.
const TWELVE: &[Said] = &[
    AliveAt("n00", 9),
    AliveAt("n01", 9),
    AliveAt("n02", 9),
    AliveAt("n03", 9),
    AliveAt("n04", 9),
    AliveAt("n05", 9),
    AliveAt("n06", 9),
    AliveAt("n07", 9),
    AliveAt("n08", 9),
    AliveAt("n09", 9),
    AliveAt("n10", 9),
    AliveAt("n11", 9),
];

/// What b sends with the Ping: the first twelve.
const PINGED: &[Said] = &[
    Alive("b", 0),
    AliveAt("n00", 9),
    AliveAt("n01", 9),
    AliveAt("n02", 9),
    AliveAt("n03", 9),
    AliveAt("n04", 9),
    AliveAt("n05", 9),
    AliveAt("n06", 9),
    AliveAt("n07", 9),
    AliveAt("n08", 9),
    AliveAt("n09", 9),
    AliveAt("n10", 9),
];

/// What b gossips first: what wasn't sent yet, and then what was sent once.
const FILLED_FIRST: &[Said] = &[
    AliveAt("n11", 9),
    AliveAt("n12", 9),
    Alive("b", 0),
    AliveAt("n00", 9),
    AliveAt("n01", 9),
    AliveAt("n02", 9),
    AliveAt("n03", 9),
    AliveAt("n04", 9),
    AliveAt("n05", 9),
    AliveAt("n06", 9),
    AliveAt("n07", 9),
    AliveAt("n08", 9),
];

/// What b gossips to the next one.
const FILLED_THEN: &[Said] = &[
    AliveAt("n09", 9),
    AliveAt("n10", 9),
    AliveAt("n11", 9),
    AliveAt("n12", 9),
    Alive("b", 0),
    AliveAt("n00", 9),
    AliveAt("n01", 9),
    AliveAt("n02", 9),
    AliveAt("n03", 9),
    AliveAt("n04", 9),
    AliveAt("n05", 9),
    AliveAt("n06", 9),
];

/// The packets are filled one after another, each with twelve claims.
const FILLS: DetectorCase = (
    "twelve claims",
    &[
        Takes(Opens(0, &[Wire(3), GossipMs(10), GossipTo(2)])),
        Replies(In(0, Three, "a", Gossip, TWELVE), Nothing, &[], TWELVE, 0),
        Replies(
            In(0, Three, "a", Gossip, &[AliveAt("n12", 9)]),
            Nothing,
            &[],
            &[AliveAt("n12", 9)],
            0,
        ),
        Replies(
            First(0),
            RoundStart(0),
            &[("b", 9, Ping(1, "n00"), PINGED)],
            &[],
            10,
        ),
        Replies(
            TickBy(10, [12, 11, 0, 0, 0, 0, 0, 0]),
            Due::Gossip(10),
            &[
                ("b", 9, Gossip, FILLED_FIRST),
                ("b", 9, Gossip, FILLED_THEN),
            ],
            &[],
            20,
        ),
    ],
);

/// A b that gossips soon.
const SOON: &[Setting] = &[Wire(3), GossipMs(10), Lambda(1), Seed("c", 9)];

/// c is suspected, and a pings b.
const C_IS_SUSPECTED: Step<'static> = Takes(In(
    0,
    Three,
    "a",
    Gossip,
    &[SuspectAt("c", 0, "a", 9)],
));

const IS_PINGED: Step<'static> = Takes(In(0, Three, "a", Ping(1, "b"), &[]));

/// When the gossip fires, all has been sent: a record that doubts the one that is told is no news, so no packet goes
/// out, and the timer isn't set again. The Ping to c still begins with that record.
const NO_BUDDY: DetectorCase = (
    "no buddy",
    &[
        Takes(Opens(0, SOON)),
        IS_PINGED,
        SentIn(Three, 1, AckFor(1, "a"), &[Alive("b", 0)]),
        C_IS_SUSPECTED,
        IS_PINGED,
        SentIn(Three, 1, AckFor(1, "a"), &[SuspectAt("c", 0, "a", 9)]),
        Replies(
            Tick(10),
            RoundStart(0),
            &[("b", 9, Ping(1, "c"), &[SuspectAt("c", 0, "a", 9)])],
            &[],
            10,
        ),
        Replies(Tick(10), Due::Gossip(10), &[], &[], 510),
        Replies(Tick(20), Nothing, &[], &[], 510),
    ],
);

/// z hears of twelve members.
const A_TO_L: &[Said] = &[
    AliveAt("a", 7001),
    AliveAt("b", 1),
    AliveAt("c", 2),
    AliveAt("d", 3),
    AliveAt("e", 4),
    AliveAt("f", 5),
    AliveAt("g", 6),
    AliveAt("h", 7),
    AliveAt("i", 8),
    AliveAt("j", 9),
    AliveAt("k", 10),
    AliveAt("l", 11),
];

/// What z acks to a, which it suspects: that record, and eleven of the queue. The own claim wasn't sent yet.
const ACKED: &[Said] = &[
    SuspectAt("a", 0, "z", 7001),
    AliveAt("z", 7026),
    AliveAt("b", 1),
    AliveAt("c", 2),
    AliveAt("d", 3),
    AliveAt("e", 4),
    AliveAt("f", 5),
    AliveAt("g", 6),
    AliveAt("h", 7),
    AliveAt("i", 8),
    AliveAt("j", 9),
    AliveAt("k", 10),
];

/// z tells of itself.
const Z: &[Said] = &[AliveAt("z", 7026)];

/// The buddy is one of the twelve claims.
const BUDDY: DetectorCase = (
    "twelve claims with a buddy",
    &[
        Takes(Opens(0, &[Own("z", 7026), Wire(3), GossipMs(0), Indirect(0)])),
        Replies(
            FromIn(10, Three, "a", 7001, Page, A_TO_L),
            Nothing,
            &[("z", 7001, PullAfter("l"), Z)],
            A_TO_L,
            0,
        ),
        Replies(FromIn(20, Three, "a", 7001, Page, Z), Nothing, &[], &[], 0),
        Replies(
            First(20),
            RoundStart(0),
            &[("z", 7001, Ping(1, "a"), A_TO_L)],
            &[],
            520,
        ),
        Replies(First(520), Direct(520), &[], &[], 1020),
        Replies(
            First(1020),
            RoundEnd(1020),
            &[],
            &[SuspectAt("a", 0, "z", 7001)],
            1020,
        ),
        Replies(
            FromIn(1030, Three, "a", 7001, Ping(1, "z"), &[AliveAt("a", 7001)]),
            Nothing,
            &[("z", 7001, AckFor(1, "a"), ACKED)],
            &[],
            1020,
        ),
    ],
);

/// Each case, resumed at each place.
#[test]
fn fills_packets_of_twelve(rt: HostRuntime) {
    let cases = &[FILLS, NO_BUDDY, BUDDY];
    play_blank(&rt, rt.alloc(), cases);
    resume_each(&rt, rt.alloc(), &None, cases);
}
