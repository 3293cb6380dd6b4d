//! The numbers of probes and relays: the configuration says the first one, and behind 4,294,967,295 comes 1.
use crate::playing::{play_blank, resume_each};
use lg_detector_testing::DetectorCase;
use lg_detector_testing::Happens::{First, In, Opens};
use lg_detector_testing::Setting::{self, FirstNumber, GossipMs, Own, Seed, Wire};
use lg_detector_testing::Step::{Fired, Pings, Replies, Sends, Sent, Takes, Ticks};
use lg_packet::Version::Three;
use lg_testing::Due::{Direct, RelayEnd, RelayNack, RoundEnd, RoundStart};
use lg_testing::bodies::Says::{Ack, AckFor, Nack, Ping, Request};
use lg_testing::says::Said::{Alive, Suspect};

/// a knows b, and its numbers begin with the last but one.
const A: &[Setting] = &[
    Own("a", 7000),
    Seed("b", 7000),
    Wire(3),
    GossipMs(0),
    FirstNumber(4_294_967_294),
];

/// Three probes of a take the last two numbers, and then 1.
const PROBES: DetectorCase = (
    "three probes",
    &[
        Takes(Opens(0, A)),
        Replies(
            First(0),
            RoundStart(0),
            &[("a", 7000, Ping(4_294_967_294, "b"), &[Alive("a", 0)])],
            &[],
            500,
        ),
        Ticks(500, Direct(500), &[], 1000),
        Ticks(1000, RoundEnd(1000), &[Suspect("b", 0, "a")], 1000),
        Replies(
            First(1000),
            RoundStart(1000),
            &[(
                "a",
                7000,
                Ping(4_294_967_295, "b"),
                &[Suspect("b", 0, "a"), Alive("a", 0)],
            )],
            &[],
            2000,
        ),
        Ticks(2500, Direct(2000), &[], 3000),
        Ticks(3000, RoundEnd(3000), &[], 3000),
        Replies(
            First(3000),
            RoundStart(3000),
            &[(
                "a",
                7000,
                Ping(1, "b"),
                &[Suspect("b", 0, "a"), Alive("a", 0)],
            )],
            &[],
            4500,
        ),
    ],
);

/// A relay of b takes the greatest number, and the probe behind it 1. The Ack of the relay's target is passed on.
const RELAYED: DetectorCase = (
    "a relay and a probe",
    &[
        Takes(Opens(0, &[FirstNumber(4_294_967_295), Seed("c", 7000)])),
        Takes(In(0, Three, "a", Request(9, "c", 7003), &[])),
        Sends(1),
        Sent(0, 7003, Ping(4_294_967_295, "c"), &[]),
        Takes(First(0)),
        Pings(1, "c"),
        Takes(In(0, Three, "c", AckFor(4_294_967_295, "b"), &[])),
        Sends(1),
        Sent(0, 1, Ack(9), &[]),
    ],
);

/// Two relays are opened at one moment, with the greatest number and with 1. Their timers fire in the order of the
/// numbers: that of 1 is first.
const IN_ORDER: DetectorCase = (
    "two relays at one moment",
    &[
        Takes(Opens(0, &[FirstNumber(4_294_967_295)])),
        Takes(In(0, Three, "a", Request(8, "c", 7003), &[])),
        Sent(0, 7003, Ping(4_294_967_295, "c"), &[]),
        Takes(In(0, Three, "a", Request(9, "d", 7003), &[])),
        Sent(0, 7003, Ping(1, "d"), &[]),
        Ticks(0, RoundStart(0), &[], 400),
        Takes(First(400)),
        Fired(RelayNack(400, 1)),
        Sent(0, 1, Nack(9), &[]),
        Takes(First(400)),
        Fired(RelayNack(400, 4_294_967_295)),
        Sent(0, 1, Nack(8), &[]),
        Ticks(1000, RelayEnd(1000, 1), &[], 1000),
        Ticks(1000, RelayEnd(1000, 4_294_967_295), &[], 1000),
    ],
);

/// Each case of numbers.
const NUMBERED: &[DetectorCase] = &[PROBES, RELAYED, IN_ORDER];

/// Each case is resumed at each place, too.
#[test]
fn numbers(rt: HostRuntime) {
    play_blank(&rt, rt.alloc(), NUMBERED);
    resume_each(&rt, rt.alloc(), &None, NUMBERED);
}
