//! Packets of groups, to a b that has none and to one that has a group. Also Gossips.
use crate::playing::{play, play_blank};
use lg_detector_testing::DetectorCase;
use lg_detector_testing::Happens::{In, OfGroup, Opens, PullAt, Tick};
use lg_detector_testing::Setting::{GossipMs, Group, Seed, Wire};
use lg_detector_testing::Step::{
    Changed, Fired, Moment, Next, Ousted, Sends, Sent, SentOfGroup, Table, Takes,
};
use lg_packet::Version::{One, Three, Two};
use lg_testing::Due::{Nothing, RoundEnd, RoundStart};
use lg_testing::bodies::Says::{Ack, AckFor, Gossip, Page, Ping, PullFirst};
use lg_testing::says::Said::{Alive, Failed, Left, Suspect};

/// Whatever a packet says that names a group, nothing of it is heard, and nothing answers it. Only its moment is taken.
const DROPPED: DetectorCase = (
    "a group",
    &[
        Takes(OfGroup(
            5000,
            "g",
            "a",
            Ping(7, "b"),
            &[Alive("c", 0), Suspect("b", 0, "a")],
        )),
        Sends(0),
        Changed(&[]),
        Ousted(false),
        Next(0),
        Moment(5000),
        Takes(OfGroup(5000, "b", "a", PullFirst, &[Failed("b", 1_000_000_000)])),
        Sends(0),
        Ousted(false),
        Takes(OfGroup(5000, "h", "a", Gossip, &[Left("b", 0)])),
        Sends(0),
        Changed(&[]),
        Takes(OfGroup(5000, "h", "a", Page, &[Left("b", 0)])),
        Table(&[Alive("b", 0)]),
        Takes(Tick(0)),
        Fired(RoundStart(0)),
        Next(6000),
    ],
);

/// An Ack that names a group doesn't count: b suspects c at the end of the round.
const NOT_ACKED: DetectorCase = (
    "an Ack of a group",
    &[
        Takes(Opens(0, &[Wire(3), GossipMs(0), Seed("c", 7000)])),
        Takes(Tick(0)),
        Takes(OfGroup(100, "g", "c", AckFor(1, "b"), &[])),
        Changed(&[]),
        Sends(0),
        Takes(Tick(1000)),
        Takes(Tick(1000)),
        Fired(RoundEnd(1000)),
        Changed(&[Suspect("c", 0, "b")]),
    ],
);

/// What a Gossip says is heard, and passed on in the next Ack. Nothing answers it, however many claims it has.
const GOSSIPS: DetectorCase = (
    "Gossips",
    &[
        Takes(In(5, Three, "a", Gossip, &[Alive("c", 0), Left("d", 2)])),
        Fired(Nothing),
        Sends(0),
        Changed(&[Alive("c", 0), Left("d", 2)]),
        Next(0),
        Takes(In(6, Three, "a", Gossip, &[])),
        Sends(0),
        Changed(&[]),
        Takes(In(7, Three, "a", Ping(8, "b"), &[])),
        Sent(0, 1, Ack(8), &[Alive("c", 0), Left("d", 2)]),
    ],
);

/// b is of the group g. It acks a Ping of its own group in it, and drops those of another, of none, and of versions 1
/// and
/// 2. Only their moment is taken.
const OF_G: DetectorCase = (
    "the group g",
    &[
        Takes(Opens(0, &[Wire(3), GossipMs(0), Group("g")])),
        Takes(OfGroup(0, "g", "a", Ping(7, "b"), &[])),
        Sends(1),
        SentOfGroup("g", 1, AckFor(7, "a"), &[Alive("b", 0)]),
        Changed(&[]),
        Next(0),
        Takes(OfGroup(5000, "h", "a", Ping(7, "b"), &[Alive("c", 0)])),
        Sends(0),
        Changed(&[]),
        Next(0),
        Takes(In(5000, Three, "a", Ping(7, "b"), &[Alive("c", 0)])),
        Sends(0),
        Changed(&[]),
        Next(0),
        Takes(In(5000, One, "a", Ping(7, "b"), &[Alive("c", 0)])),
        Sends(0),
        Changed(&[]),
        Next(0),
        Takes(In(5000, Two, "a", Ping(7, "b"), &[Alive("b", 7)])),
        Sends(0),
        Changed(&[]),
        Next(0),
        Takes(Tick(0)),
        Fired(RoundStart(0)),
        Next(6000),
        Table(&[Alive("b", 0)]),
    ],
);

/// What b sends unasked names its group as well, and so does its Page. What it hears in its group counts.
const SENT_IN_G: DetectorCase = (
    "sent in the group g",
    &[
        Takes(Opens(0, &[Wire(3), GossipMs(0), Group("g")])),
        Takes(PullAt(0, 7001)),
        SentOfGroup("g", 7001, PullFirst, &[Alive("b", 0)]),
        Takes(OfGroup(0, "g", "a", PullFirst, &[Alive("c", 0)])),
        SentOfGroup("g", 1, Page, &[Alive("b", 0), Alive("c", 0)]),
        Changed(&[Alive("c", 0)]),
        Takes(Tick(0)),
        SentOfGroup("g", 7000, Ping(1, "c"), &[Alive("b", 0), Alive("c", 0)]),
        Takes(OfGroup(100, "g", "c", AckFor(1, "b"), &[])),
        Takes(Tick(1000)),
        Fired(RoundEnd(1000)),
        Changed(&[]),
    ],
);

/// Each case of a b with the default numbers, and those of one that is opened otherwise.
#[test]
fn hears_its_own_group_and_each_gossip(rt: HostRuntime) {
    play(&rt, rt.alloc(), &[DROPPED, GOSSIPS]);
    play_blank(&rt, rt.alloc(), &[NOT_ACKED, OF_G, SENT_IN_G]);
}
